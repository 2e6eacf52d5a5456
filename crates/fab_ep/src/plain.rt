//! An endpoint over a plain port, whose frames are moved out and brought by hand.
ghost use Rattle.std.specs.Prelude.{◌≡◌, ℕ, ◌<◌, ◌+◌, ◌++◌, ◌∷◌, [], length, OnOk, OnErr, IfErr, IfSome, IfNone};
ghost use Rattle.fab_link.specs.Frames.{last_head, MayCome};
ghost use Rattle.fab_link.specs.Plain.{lane_at, left, in_of, with_lane};

use crate::endpoint::Endpoint;
use fab_base::Frame;
use fab_face::machine::Machine;
use fab_link::PlainPort;

impl<C: Machine> Endpoint<PlainPort, C> {
    /// Moves out the oldest frame posted to a peer that was not moved out; `None` exactly where there is
    /// none. It takes no memory.
    pub fn take_out(&mut self, dest: u32) -> Option<Frame>
        requires { dest < length self.old.port.lanes }
        ensures none { IfNone result ((left (lane_at self.old.port dest) ≡ []) × (self.new ≡ self.old)) }
        ensures some { IfSome result (λ f. left (lane_at self.old.port dest) ≡ f ∷ left (lane_at self.new.port dest)) }
        ensures port { IfSome result (λ _. self.new.port ≡ with_lane self.old.port dest (record (lane_at self.old.port dest) { moved = (lane_at self.old.port dest).moved + 1 })) }
        ensures rest { self.new ≡ record self.old { port = self.new.port } }
    {
        self.port.take_out(dest)
    }

    /// Brings a frame that came from a peer. Want of memory hands it back and changes nothing.
    pub fn bring(&mut self, src: u32, frame: Frame) -> Result<(), Frame>
        requires below { src < length self.old.port.lanes }
        requires continues { MayCome (last_head (lane_at self.old.port src).in_after (lane_at self.old.port src).in_list) frame }
        ensures ok { OnOk result (self.new.port ≡ with_lane self.old.port src (record (lane_at self.old.port src) { in_list = (lane_at self.old.port src).in_list ++ frame ∷ [] })) }
        ensures taken { (s : ℕ) → (in_of self.new.port s).taken ≡ (in_of self.old.port s).taken }
        ensures back { IfErr result (λ f. f ≡ frame) }
        ensures err { OnErr result (self.new ≡ self.old) }
        ensures rest { self.new ≡ record self.old { port = self.new.port } }
    {
        self.port.bring(src, frame)
    }
}
