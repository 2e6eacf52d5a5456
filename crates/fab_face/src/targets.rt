//! The regions of the machine under an endpoint, as their owner calls them (fi_mr(3)).
ghost use Rattle.std.specs.Prelude.{◌≡◌, ◌≢◌, OnOk, OnErr, IfOk, IfErr};
ghost use Rattle.std.specs.Option.{option_map};
ghost use Rattle.fab_base.specs.declared.faults.Fault.TheVariants.{NoMemory as LacksMemory};
ghost use Rattle.fab_base.specs.declared.peers.LineResult.TheVariants.{Done, Refused as Answer, Bytes};
ghost use Rattle.fab_model.specs.Calls.{Reg, Close, Put, do_call, region_of};
ghost use Rattle.fab_face.specs.Targets.{DoesHere};

use crate::machine::Machine;
use fab_base::{Access, Buf, Fault, Refused};

/// Regions that other peers reach: a machine performs their requests as frames come in. None of these
/// calls but [`reg`](Targets::reg) takes memory.
pub trait Targets: Machine {
    /// Registers a region under its key (fi_mr_reg). `NotSupported` where it gives a right that was not
    /// granted, else `NoKey` where the key is in use, else `NoMemory`. A refusal hands the buffer back and
    /// changes nothing.
    fn reg(&mut self, key: u64, access: Access, buf: Buf) -> Result<(), Refused>
        ensures ok { OnOk result (DoesHere (Reg key access buf) Done (Self.held self.old) (Self.held self.new)) }
        ensures err { IfErr result (λ r. r.why ≢ LacksMemory → DoesHere (Reg key access buf) (Answer r.why) (Self.held self.old) (Self.held self.new)) }
        ensures lacks { IfErr result (λ r. r.why ≡ LacksMemory → (do_call (Self.held self.old).state (Reg key access buf)).0 ≡ Done) }
        ensures back { IfErr result (λ r. r.buf ≡ buf) }
        ensures stays { OnErr result (Self.held self.new ≡ Self.held self.old) };

    /// Closes a region and hands its bytes back (fi_close of fi_mr(3)). `NoKey` exactly where there is none.
    fn close_region(&mut self, key: u64) -> Result<Buf, Fault>
        ensures ok { IfOk result (λ buf. DoesHere (Close key) (Bytes buf) (Self.held self.old) (Self.held self.new)) }
        ensures err { IfErr result (λ why. DoesHere (Close key) (Answer why) (Self.held self.old) (Self.held self.new)) }
        ensures stays { OnErr result (Self.held self.new ≡ Self.held self.old) };

    /// Lends the bytes of a region. `None` exactly where there is none.
    fn region_bytes(&self, key: u64) -> Option<&[u8]>
        ensures { option_map (λ b. b.now) result ≡ option_map (λ r. r.bytes) (region_of (Self.held self.now).state key) };

    /// Writes into a region of one's own, from the offset `at` on, in bytes from its start. `NoKey` where
    /// there is none, else `Range` where the bytes would end behind its end.
    fn put(&mut self, key: u64, at: u64, src: &[u8]) -> Result<(), Fault>
        ensures ok { OnOk result (DoesHere (Put key at src.now) Done (Self.held self.old) (Self.held self.new)) }
        ensures err { IfErr result (λ why. DoesHere (Put key at src.now) (Answer why) (Self.held self.old) (Self.held self.new)) }
        ensures stays { OnErr result (Self.held self.new ≡ Self.held self.old) };
}
