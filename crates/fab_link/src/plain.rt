//! The port over lists.
ghost use Rattle.std.specs.Prelude.{IsErrOf, ◌≡◌, ◌≢◌, ℕ, ◌+◌, ◌^◌, ◌<◌, ◌≤◌, ◌++◌, ◌∷◌, [], length, replicate, true, false, None, Some, IfSome, IfNone, MatchOption, drop, slice_index_or, IfOk, IfErr, OnOk, OnErr, slice_set};
ghost use Rattle.fab_link.specs.Frames.{frame, last_head, MayCome, Continues, IsLane};
ghost use Rattle.fab_link.specs.declared.moves.Move.TheVariants.{Post};
ghost use Rattle.fab_link.specs.Meaning.{Repays, Others, end_of, Noticed, AreFresh, GrewBy};
ghost use Rattle.fab_base.specs.Counts.{Rose};
ghost use Rattle.fab_link.specs.Plain.{lane_at, with_lane, left, fresh_lane, looked, lent_frames, IsSoundLane, out_of, in_of, PlainHome, home_of, take_prefix};

use crate::lane::PlainLane;
use crate::port::{Port, PostRefused};
use fab_base::{Buf, Frame, FrameHead, FrameRef, NoMemory};
use std::alloc::Global;
use std::marker::Model;

/// A port over lists, which is never full.
///
/// It keeps, for each peer, the frames posted, copies of those that were not moved out, and the
/// frames brought, those taken included. Contracts see its number and, for each peer, a `Lane`.
#[derive(Drop)]
pub struct PlainPort {
    me: u32,
    lanes: Vec<PlainLane>,
}

impl Model for PlainPort {
    ghost use Rattle.std.specs.Prelude.{◌<◌, ◌^◌, length};
    ghost use Rattle.fab_link.specs.Plain.{Plain};

    ghost Value = { Plain };

    ghost view = { λ a. record { number = a.me; lanes = a.lanes.items } };

    ghost invariant = { λ a. length a.lanes.items < 2 ^ 32 };
}

impl PlainPort {
    /// The port of the peer with this number among so many peers. Its lists are empty, with no
    /// heads before them, and its counts begin at 0.
    pub fn new(alloc: Global, me: u32, peers: u32) -> Result<PlainPort, NoMemory>
        ensures lanes { IfOk result (λ p. p ≡ record { number = me; lanes = replicate peers (fresh_lane None None) }) }
        ensures fresh { IfOk result (λ p. (d : ℕ) → AreFresh (out_of p d) (in_of p d)) }
    {
        let mut lanes = Vec::new(alloc);
        for _peer in 0..peers {
            lanes.push(PlainLane::new(alloc, None, None))?;
        }
        Ok(PlainPort { me, lanes })
    }

    /// A port with these heads before its lists, which are empty: by peer, the head of the last
    /// frame that was posted to it, and of the last one that was taken of it. Its counts begin at 0.
    pub fn new_after(
        alloc: Global,
        me: u32,
        peers: u32,
        out_after: &[Option<FrameHead>],
        in_after: &[Option<FrameHead>],
    ) -> Result<PlainPort, NoMemory>
        requires out { length out_after.now ≡ peers }
        requires into { length in_after.now ≡ peers }
        ensures number { IfOk result (λ p. p.number ≡ me) }
        ensures peers { IfOk result (λ p. length p.lanes ≡ peers) }
        ensures lanes { IfOk result (λ p. (d : ℕ) → d < peers
            → lane_at p d ≡ fresh_lane (slice_index_or out_after.now d None) (slice_index_or in_after.now d None)) }
        ensures fresh { IfOk result (λ p. (d : ℕ) → AreFresh (out_of p d) (in_of p d)) }
    {
        let mut lanes = Vec::new(alloc);
        for peer in 0..peers {
            let lane = PlainLane::new(alloc, out_after[peer as usize], in_after[peer as usize]);
            lanes.push(lane)?;
        }
        Ok(PlainPort { me, lanes })
    }

    /// Moves out the oldest frame posted to a peer that was not moved out, or answers `None` where
    /// there is none. The frames posted stay.
    pub fn take_out(&mut self, dest: u32) -> Option<Frame>
        requires { dest < length self.old.lanes }
        ensures none { IfNone result ((left (lane_at self.old dest) ≡ []) × (self.new ≡ self.old)) }
        ensures some { IfSome result (λ f. (left (lane_at self.old dest) ≡ f ∷ left (lane_at self.new dest))
            × (self.new ≡ with_lane self.old dest
            (record (lane_at self.old dest) { moved = (lane_at self.old dest).moved + 1 }))) }
    {
        self.lanes[dest as usize].take_out()
    }

    /// Appends a frame to those that came from a peer: the next one of its item, cut where an item
    /// is cut. Want of memory hands it back and changes nothing.
    pub fn bring(&mut self, src: u32, frame: Frame) -> Result<(), Frame>
        requires below { src < length self.old.lanes }
        requires continues { MayCome (last_head (lane_at self.old src).in_after (lane_at self.old src).in_list) frame }
        ensures ok { OnOk result (self.new ≡ with_lane self.old src
            (record (lane_at self.old src) { in_list = (lane_at self.old src).in_list ++ frame ∷ [] })) }
        ensures taken { (s : ℕ) → (in_of self.new s).taken ≡ (in_of self.old s).taken }
        ensures back { IfErr result (λ f. f ≡ frame) }
        ensures err { OnErr result (self.new ≡ self.old) }
    {
        self.lanes[src as usize].bring(frame)
    }

    /// Takes these frames as the ones that came from a peer, where none came before: the next ones of
    /// their items, cut where an item is cut. Takes no memory.
    pub fn adopt(&mut self, src: u32, frames: Vec<Frame>)
        requires below { src < length self.old.lanes }
        requires none { (lane_at self.old src).in_list ≡ [] }
        requires continues { IsLane (lane_at self.old src).in_after frames.items }
        ensures { self.new ≡ with_lane self.old src (record (lane_at self.old src) { in_list = frames.items }) }
    {
        self.lanes[src as usize].adopt(frames);
    }

    /// The oldest frame posted to a peer that was not moved out.
    fn first_left(&self, dest: u32) -> Option<&Frame>
        requires { dest < length self.now.lanes }
        ensures { MatchOption result (left (lane_at self.now dest) ≡ [])
            (λ f. left (lane_at self.now dest) ≡ f.now ∷ drop 1 (left (lane_at self.now dest))) }
    {
        self.lanes[dest as usize].first_left()
    }

    /// A copy of the oldest frame posted to a peer that was not moved out.
    pub(crate) fn copy_of_first(&self, alloc: Global, dest: u32) -> Result<Option<Frame>, NoMemory>
        requires { dest < length self.now.lanes }
        ensures { IfOk result (λ copy. MatchOption copy (left (lane_at self.now dest) ≡ [])
            (λ f. left (lane_at self.now dest) ≡ f ∷ drop 1 (left (lane_at self.now dest)))) }
    {
        let Some(frame) = self.first_left(dest) else {
            return Ok(None);
        };
        let bytes = Buf::copy(alloc, frame.bytes.as_slice())?;
        Ok(Some(Frame {
            head: frame.head,
            bytes,
        }))
    }

    /// Looks for the next frame of a peer, and lends it or counts that there is none.
    fn look(&mut self, src: u32)
        requires { src < length self.old.lanes }
        ensures looked { self.new ≡ with_lane self.old src (looked (lane_at self.old src)) }
        ensures stored { (lane_at self.old src).empty_seen < 2 ^ 64 }
    {
        self.lanes[src as usize].look();
    }

    /// The frame of a peer that is lent.
    fn lent(&self, src: u32) -> Option<FrameRef<'_>>
        requires { src < length self.now.lanes }
        ensures sound { IsSoundLane (lane_at self.now src) }
        ensures lent { lent_frames result ≡ (in_of self.now src).lent }
    {
        self.lanes[src as usize].lent()
    }

    /// Steps over the frame of a peer that is lent.
    fn step(&mut self, src: u32)
        requires below { src < length self.old.lanes }
        requires lent { (lane_at self.old src).is_lent ≡ true }
        ensures { self.new ≡ with_lane self.old src (record (lane_at self.old src)
            { taken = (lane_at self.old src).taken + 1; is_lent = false }) }
    {
        self.lanes[src as usize].advance();
    }
}

impl Port for PlainPort {
    const FIXED: bool = false;

    ghost FIXED = { false };

    ghost number = { λ p. p.number };

    ghost peer_count = { λ p. length p.lanes };

    ghost outs = { out_of };

    ghost ins = { in_of };

    ghost moves = { λ _. None };

    ghost Home = { PlainHome };

    ghost home = { home_of };

    ghost in_list = { λ h s. Some (h.in_lists s) };

    // All that came of the peer was taken.
    ghost SawNone = { λ p q s. (in_of p s).taken ≡ (lane_at p s).in_list };

    ghost taken_first = { λ p s. take_prefix (lane_at p s).taken (lane_at p s).in_list };

    ghost none_behind = { λ p q s all. all };

    fn me(&self) -> u32 {
        self.me
    }

    fn peers(&self) -> u32 {
        self.lanes.len() as u32
    }

    fn post(&mut self, dest: u32, head: FrameHead, bytes: &[u8]) -> Result<(), PostRefused>
        requires below { dest < length self.old.lanes }
        requires continues { Continues (end_of (out_of self.old dest)) head }
        requires filled { length bytes.now ≡ head.len }
        requires repays { Repays (out_of self.old dest) (in_of self.old dest) head }
        ensures ok { OnOk result ((out_of self.new dest).frames ≡ (out_of self.old dest).frames ++ frame head bytes.now ∷ []) }
        ensures err { OnErr result ((out_of self.new dest).frames ≡ (out_of self.old dest).frames) }
        ensures lane_full { IsErrOf result PostRefused.LaneFull
            → Rose (out_of self.old dest).lane_full_seen (out_of self.new dest).lane_full_seen
            × ((out_of self.new dest).full_at ≡ length (out_of self.old dest).frames) }
        ensures pool_full { IsErrOf result PostRefused.PoolFull
            → Rose (out_of self.old dest).pool_full_seen (out_of self.new dest).pool_full_seen
            × ((out_of self.new dest).full_at ≡ length (out_of self.old dest).frames) }
        ensures no_memory { IsErrOf result PostRefused.NoMemory → false ≢ true }
        ensures noticed { Noticed (out_of self.old dest) (out_of self.new dest) }
        ensures moves { OnOk result (GrewBy (Post dest) None None) }
        ensures others { Others dest (out_of self.old) (out_of self.new) }
        ensures incoming { in_of self.new ≡ in_of self.old }
        ensures number { self.new.number ≡ self.old.number }
        ensures peers { length self.new.lanes ≡ length self.old.lanes }
        ensures home { home_of self.new ≡ home_of self.old }

        // The frame is one more to be moved out, and nothing else is.
        ensures left { OnOk result (left (lane_at self.new dest) ≡ left (lane_at self.old dest) ++ frame head bytes.now ∷ []) }
        ensures others_left { Others dest (λ d. left (lane_at self.old d)) (λ d. left (lane_at self.new d)) }
    {
        match self.lanes[dest as usize].post(head, bytes) {
            Ok(()) => Ok(()),
            Err(NoMemory) => Err(PostRefused::NoMemory),
        }
    }

    fn front(&mut self, src: u32) -> Option<FrameRef<'_>> {
        self.look(src);
        self.lent(src)
    }

    fn advance(&mut self, src: u32) {
        self.step(src);
    }
}
