//! What an endpoint's machine keeps besides messages: counters, and the address vector.
ghost use Rattle.std.specs.Prelude.{◌≡◌, ◌<◌, ◌^◌, length, map, count_by, position, is_some, IfOk, IfErr, OnOk, OnErr};
ghost use Rattle.fab_base.specs.declared.peers.LineResult.TheVariants.{Done, Index, Refused as Answer};
ghost use Rattle.fab_av.specs.Addresses.{inserting};
ghost use Rattle.fab_model.specs.State.{tally_of};
ghost use Rattle.fab_model.specs.Calls.{Remove, do_call, is_peer};
ghost use Rattle.fab_face.specs.Answers.{adding};
ghost use Rattle.fab_face.specs.Held.{with_machine};
ghost use Rattle.fab_face.specs.Keeping.{with_av};

use crate::machine::Machine;
use fab_av::InsertReport;
use fab_base::{Class, Fault, NoMemory, Text};

/// The machine of an endpoint with counters (fi_cntr(3)).
pub trait Counting: Machine {
    /// How many operations of the class succeeded.
    fn successes(&self, class: Class) -> u64
        ensures { result ≡ (tally_of (Self.held self.now).state.counters class).ok };

    /// How many operations of the class failed.
    fn errors(&self, class: Class) -> u64
        ensures { result ≡ (tally_of (Self.held self.now).state.counters class).err };

    /// Adds to the successes of the class.
    fn count_up(&mut self, class: Class, n: u64)
        ensures { Self.held self.new ≡ with_machine (adding class n (Self.held self.old).state) (Self.held self.old) };
}

/// The machine of an endpoint with an address vector (fi_av(3)).
pub trait Addressing: Machine {
    /// Inserts names. Want of memory leaves the vector as it was.
    fn insert(&mut self, names: &[Text]) -> Result<InsertReport, NoMemory>
        requires { length names.now < 2 ^ 32 }
        ensures answers { IfOk result (λ report. inserting (Self.held self.old).state names.now ≡ (map Index report.indices, (Self.held self.new).state)) }
        ensures count { IfOk result (λ report. report.inserted ≡ count_by is_some report.indices) }
        ensures changed { Self.held self.new ≡ with_av (Self.held self.new).state.av (Self.held self.old) }
        ensures err { OnErr result (Self.held self.new ≡ Self.held self.old) };

    /// Removes the address at an index.
    fn remove(&mut self, index: u32) -> Result<(), Fault>
        ensures ok { OnOk result (do_call (Self.held self.old).state (Remove index) ≡ (Done, (Self.held self.new).state)) }
        ensures err { IfErr result (λ why. do_call (Self.held self.old).state (Remove index) ≡ (Answer why, (Self.held self.new).state)) }
        ensures changed { Self.held self.new ≡ with_av (Self.held self.new).state.av (Self.held self.old) };

    /// The index at which the peer stands.
    fn index_of(&self, peer: u32) -> Option<u32>
        ensures { result ≡ position (is_peer peer) (Self.held self.now).state.av };
}
