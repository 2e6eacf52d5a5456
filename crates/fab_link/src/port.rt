//! The trait of all ports.
ghost use Rattle.std.specs.Prelude.{◌≡◌, ◌≢◌, ℕ, ◌<◌, ◌++◌, ◌∷◌, [], length, Bool, true, IsSome, IfSome, IfNone, Option, Some, List, slice_get, IsErrOf, OnOk, OnErr};
ghost use Rattle.std.specs.Borrow.{sem};
ghost use mathlib.Core.List.{IsPrefix};
ghost use Rattle.fab_base.specs.declared.frames.Frame.{Frame};
ghost use Rattle.fab_link.specs.Frames.{frame, lent_frame, Continues};
ghost use Rattle.fab_link.specs.declared.moves.Move.{Move};
ghost use Rattle.fab_link.specs.declared.moves.Move.TheVariants.{Post, Take};
ghost use Rattle.fab_link.specs.Meaning.{Outgoing, Incoming, Rests, Others, end_of, Noticed, Repays, Gives, Fronted, advanced, GrewBy};
ghost use Rattle.fab_base.specs.Counts.{Rose};

use fab_base::{FrameHead, FrameRef};

/// Why a frame was not posted. The frames posted stay as they were.
#[derive(Clone, Copy, Debug, Drop, Eq, PartialEq)]
pub enum PostRefused {
    /// The lane to the peer was full when this call looked.
    LaneFull,
    /// No place for the frame's bytes was free at the peer when this call looked.
    PoolFull,
    /// Want of memory.
    NoMemory,
}

/// One peer's end of the lanes to and from every peer.
///
/// Peers are numbered from 0. Frames for one peer are posted at the end of its lane, by
/// [`post`](Port::post). Those of one peer are lent in the order posted, by [`front`](Port::front),
/// and stepped over by [`advance`](Port::advance).
pub trait Port {
    /// Whether all memory was taken when the port was made, so that `post` takes none.
    const FIXED: bool;

    ghost FIXED: { Bool };

    // The peer's own number, and how many peers there are.
    ghost number: { Self → ℕ };

    ghost peer_count: { Self → ℕ };

    // What was posted to each peer, and what came from each.
    ghost outs: { Self → ℕ → Outgoing };

    ghost ins: { Self → ℕ → Incoming };

    // The order of what was posted and taken, where the port tells it: a port over threads does.
    ghost moves: { Self → Option (List Move) };

    // What no call changes, and where it has in lists, the frames that came from each peer.
    ghost Home: { Type 0 };

    ghost home: { Self → Home };

    ghost in_list: { Home → ℕ → Option (List Frame) };

    // What it is for this port that a look, made while the first became the second, saw no frame of this peer behind
    // those that were taken. Each port says it by what it has.
    ghost SawNone: { Self → Self → ℕ → Type 0 };

    /// This peer's number.
    fn me(&self) -> u32
        ensures { result ≡ number self.now };

    /// How many peers there are, this one included.
    fn peers(&self) -> u32
        ensures { result ≡ peer_count self.now };

    /// Posts a frame to a peer: the next one of its item, cut where an item is cut. A reply begins only
    /// where the peer is owed one, if the port tells what it is owed.
    ///
    /// A refusal leaves the frames posted as they were. [`PostRefused::LaneFull`] and
    /// [`PostRefused::PoolFull`] come only where the call itself saw the lane or the pool full.
    fn post(&mut self, dest: u32, head: FrameHead, bytes: &[u8]) -> Result<(), PostRefused>
        requires below { dest < peer_count self.old }
        requires continues { Continues (end_of (outs self.old dest)) head }
        requires filled { length bytes.now ≡ head.len }
        requires repays { Repays (outs self.old dest) (ins self.old dest) head }
        ensures ok { OnOk result ((outs self.new dest).frames
            ≡ (outs self.old dest).frames ++ frame head bytes.now ∷ []) }
        ensures err { OnErr result ((outs self.new dest).frames ≡ (outs self.old dest).frames) }
        ensures lane_full { IsErrOf result PostRefused.LaneFull
            → Rose (outs self.old dest).lane_full_seen (outs self.new dest).lane_full_seen
            × ((outs self.new dest).full_at ≡ length (outs self.old dest).frames) }
        ensures pool_full { IsErrOf result PostRefused.PoolFull
            → Rose (outs self.old dest).pool_full_seen (outs self.new dest).pool_full_seen
            × ((outs self.new dest).full_at ≡ length (outs self.old dest).frames) }
        ensures no_memory { IsErrOf result PostRefused.NoMemory → FIXED ≢ true }
        ensures noticed { Noticed (outs self.old dest) (outs self.new dest) }
        ensures moves { OnOk result (GrewBy (Post dest) (moves self.old) (moves self.new)) }

        // All else stays.
        ensures unmoved { OnErr result (moves self.new ≡ moves self.old) }
        ensures others { Others dest (outs self.old) (outs self.new) }
        ensures incoming { ins self.new ≡ ins self.old }
        ensures number { number self.new ≡ number self.old }
        ensures peers { peer_count self.new ≡ peer_count self.old }
        ensures home { home self.new ≡ home self.old };

    /// Lends the next frame of a peer, without a copy, or answers `None` where the call itself saw
    /// that there is none (`SawNone`). Called again before [`advance`](Port::advance), it lends the same frame.
    /// Where the port has in lists, it is the first of those that came and were not stepped over.
    fn front(&mut self, src: u32) -> Option<FrameRef<'_>>
        requires below { src < peer_count self.old }

        // Known while the frame is lent.
        ensures gives { IfSome result (λ f. Gives (ins self.old src) f) }
        ensures next { IfSome result (λ f. IfSome (in_list (home self.old) src)
            (λ xs. slice_get xs (length (ins self.old src).taken) ≡ Some (lent_frame f))) }
        ensures lent { IsSome (ins self.old src).lent → IsSome result }
        ensures all_taken { IfNone result (IfSome (in_list (home self.old) src)
            (λ xs. (ins self.old src).taken ≡ xs)) }

        // Known once it is not used any more.
        ensures* after { sem 𝓛 (Rests Self.row self.entry (λ new.
            Fronted (ins self.old src) (ins new src) result
            × Others src (ins self.old) (ins new)
            × (outs new ≡ outs self.old)
            × (number new ≡ number self.old)
            × (peer_count new ≡ peer_count self.old)
            × (home new ≡ home self.old)
            × (moves new ≡ moves self.old)
            × IfNone result (SawNone self.old new src))) };

    /// Steps over the frame that [`front`](Port::front) lent last of this peer.
    fn advance(&mut self, src: u32)
        requires below { src < peer_count self.old }
        requires lent { IsSome (ins self.old src).lent }
        ensures taken { ins self.new src ≡ advanced (ins self.old src) }
        ensures moves { GrewBy (Take src) (moves self.old) (moves self.new) }

        // All else stays.
        ensures others { Others src (ins self.old) (ins self.new) }
        ensures outgoing { outs self.new ≡ outs self.old }
        ensures number { number self.new ≡ number self.old }
        ensures peers { peer_count self.new ≡ peer_count self.old }
        ensures home { home self.new ≡ home self.old };

    // What was taken comes first in the in list.
    ghost taken_first: { (p : Self) (s : ℕ)
        → IfSome (in_list (home p) s) (λ xs. IsPrefix (ins p s).taken xs) };

    // Where such a look saw none, all of it was taken.
    ghost none_behind: { (p q : Self) (s : ℕ) → SawNone p q s
        → IfSome (in_list (home p) s) (λ xs. (ins p s).taken ≡ xs) };
}
