//! One peer's part of a plain port.
ghost use Rattle.std.specs.Prelude.{◌≡◌, ◌≢◌, ℕ, ◌+◌, ◌^◌, ◌<◌, ◌≤◌, ◌++◌, ◌∷◌, [], length, take, drop, true, false, IfErr, IfSome, IfNone, MatchOption, OnOk, OnErr, IsTrue};
ghost use Rattle.fab_link.specs.Frames.{frame, last_head, MayCome, IsLane};
ghost use Rattle.fab_link.specs.Plain.{Lane, IsSoundLane, left, incoming, looked, lent_frames, fresh_lane};

use fab_base::{Buf, Frame, FrameHead, FrameRef, NoMemory};
use std::alloc::Global;
use std::collections::VecDeque;
use std::marker::Model;

/// Both directions towards one peer of a plain port.
///
/// A frame posted is kept twice: in `out`, which only grows, and in `left` until it is moved out.
#[derive(Drop)]
pub struct PlainLane {
    out_after: Option<FrameHead>,
    out: Vec<Frame>,
    left: VecDeque<Frame>,
    moved: usize,
    in_after: Option<FrameHead>,
    in_list: Vec<Frame>,
    taken: usize,
    is_lent: bool,
    empty_seen: u64,
    empty_at: usize,
}

impl Model for PlainLane {
    ghost use Rattle.fab_link.specs.Plain.{Lane, IsKept};

    ghost Value = { Lane };

    ghost view = { λ a. record {
      out = record { after = a.out_after; frames = a.out.items };
      moved = a.moved;
      in_after = a.in_after;
      in_list = a.in_list.items;
      taken = a.taken;
      is_lent = a.is_lent;
      empty_seen = a.empty_seen;
      empty_at = a.empty_at;
    } };

    ghost invariant = { λ a. IsKept a.out.items a.left.items a.in_list.items a.moved a.taken a.is_lent a.in_after };
}

impl PlainLane {
    /// A lane with no frames behind these heads. Takes no memory.
    pub fn new(
        alloc: Global,
        out_after: Option<FrameHead>,
        in_after: Option<FrameHead>,
    ) -> PlainLane
        ensures { result ≡ fresh_lane out_after in_after }
    {
        PlainLane {
            out_after,
            out: Vec::new(alloc),
            left: VecDeque::new(alloc),
            moved: 0,
            in_after,
            in_list: Vec::new(alloc),
            taken: 0,
            is_lent: false,
            empty_seen: 0,
            empty_at: 0,
        }
    }

    /// Appends a frame to those posted, and keeps a copy to be moved out.
    pub fn post(&mut self, head: FrameHead, bytes: &[u8]) -> Result<(), NoMemory>
        ensures ok { OnOk result (self.new ≡ record self.old
            { out = record (self.old.out) { frames = self.old.out.frames ++ frame head bytes.now ∷ [] } }) }
        ensures err { OnErr result (self.new ≡ self.old) }
        ensures left { OnOk result (left self.new ≡ left self.old ++ frame head bytes.now ∷ []) }
    {
        let alloc = *self.out.allocator();
        let bytes_out = Buf::copy(alloc, bytes)?;
        let bytes_left = Buf::copy(alloc, bytes)?;
        self.out.reserve(1)?;
        self.left.push_back(Frame {
            head,
            bytes: bytes_left,
        })?;
        self.out
            .push(Frame {
                head,
                bytes: bytes_out,
            })
            .unwrap();
        Ok(())
    }

    /// Looks for the next frame, and lends it or counts that there is none.
    pub fn look(&mut self)
        ensures looked { self.new ≡ looked self.old }
        ensures stored { self.old.empty_seen < 2 ^ 64 }
    {
        if self.taken < self.in_list.len() {
            self.is_lent = true;
        } else {
            self.empty_seen = self.empty_seen.saturating_add(1);
            self.empty_at = self.taken;
        }
    }

    /// The frame that is lent.
    pub fn lent(&self) -> Option<FrameRef<'_>>
        ensures sound { IsSoundLane self.now }
        ensures lent { lent_frames result ≡ (incoming self.now).lent }
    {
        if self.is_lent {
            let frame = &self.in_list[self.taken];
            Some(FrameRef {
                head: frame.head,
                bytes: frame.bytes.as_slice(),
            })
        } else {
            None
        }
    }

    /// Steps over the frame that is lent.
    pub fn advance(&mut self)
        requires { self.old.is_lent ≡ true }
        ensures { self.new ≡ record self.old { taken = self.old.taken + 1; is_lent = false } }
    {
        self.taken += 1;
        self.is_lent = false;
    }

    /// Appends a frame to those that came. Want of memory hands it back.
    pub fn bring(&mut self, frame: Frame) -> Result<(), Frame>
        requires { MayCome (last_head self.old.in_after self.old.in_list) frame }
        ensures ok { OnOk result (self.new ≡ record self.old { in_list = self.old.in_list ++ frame ∷ [] }) }
        ensures taken { (incoming self.new).taken ≡ (incoming self.old).taken }
        ensures back { IfErr result (λ f. f ≡ frame) }
        ensures err { OnErr result (self.new ≡ self.old) }
    {
        if let Err(failed) = self.in_list.push(frame) {
            return Err(failed.value);
        }
        Ok(())
    }

    /// Takes these frames as the ones that came, where none came before. Takes no memory.
    pub fn adopt(&mut self, frames: Vec<Frame>)
        requires none { self.old.in_list ≡ [] }
        requires cut { IsLane self.old.in_after frames.items }
        ensures { self.new ≡ record self.old { in_list = frames.items } }
    {
        self.in_list = frames;
    }

    /// The oldest frame that was posted and not moved out.
    pub fn first_left(&self) -> Option<&Frame>
        ensures { MatchOption result (left self.now ≡ []) (λ f. left self.now ≡ f.now ∷ drop 1 (left self.now)) }
    {
        self.left.front()
    }

    /// Moves out the oldest frame that was posted and not moved out.
    pub fn take_out(&mut self) -> Option<Frame>
        ensures none { IfNone result ((left self.old ≡ []) × (self.new ≡ self.old)) }
        ensures some { IfSome result (λ f. (left self.old ≡ f ∷ left self.new)
            × (self.new ≡ record self.old { moved = self.old.moved + 1 })) }
    {
        let frame = self.left.pop_front()?;
        self.moved += 1;
        Some(frame)
    }
}
