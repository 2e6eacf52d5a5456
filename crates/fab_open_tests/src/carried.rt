//! Endpoints whose frames are carried by hand.
ghost use Rattle.std.specs.Prelude.{◌≡◌, ◌≢◌, ◌<◌, ℕ, true, Some};
ghost use Rattle.fab_link.specs.Frames.{MayCome};
ghost use Rattle.fab_open_tests.specs.Came.{came, Keeps};

use fab_base::Frame;
use fab_ep::endpoint::Endpoint;
use fab_face::calls::Sees;
use fab_face::machine::Machine;
use fab_link::PlainPort;

/// An endpoint whose frames are handed out and in.
pub trait Carried: Sees {
    /// The oldest frame that was posted to a peer and not handed out.
    fn hand_out(&mut self, dest: u32) -> Option<Frame>
        requires { dest < (Self.seen self.old).lanes.peers }
        ensures { Keeps (Self.seen self.old) (Self.seen self.new) };

    /// Whether a frame that a peer posted is brought; there may be no memory for it.
    fn hand_in(&mut self, source: u32, frame: Frame) -> bool
        requires below { source < (Self.seen self.old).lanes.peers }
        requires continues { MayCome (came (Self.seen self.old) source) frame }
        ensures came { result ≡ true → came (Self.seen self.new) source ≡ Some frame.head }
        ensures others { (s : ℕ) → result ≡ true → s ≢ source → came (Self.seen self.new) s ≡ came (Self.seen self.old) s }
        ensures peers { (Self.seen self.new).lanes.peers ≡ (Self.seen self.old).lanes.peers };
}

impl<C: Machine> Carried for Endpoint<PlainPort, C> {
    fn hand_out(&mut self, dest: u32) -> Option<Frame> {
        self.take_out(dest)
    }

    fn hand_in(&mut self, source: u32, frame: Frame) -> bool {
        self.bring(source, frame).is_ok()
    }
}
