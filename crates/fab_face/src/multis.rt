//! What an endpoint's machine does with buffers for many messages.
ghost use Rattle.std.specs.Prelude.{◌≡◌, true, false, Some, IfErr, IfSome, IfNone, OnOk, OnErr};
ghost use Rattle.fab_base.specs.declared.peers.LineResult.TheVariants.{Refused as Answer};
ghost use Rattle.fab_model.specs.Calls.{do_call};
ghost use Rattle.fab_face.specs.Acts.{DoesCall};
ghost use Rattle.fab_face.specs.Answers.{is_final, IsSharing, Lends, LendsNone};
ghost use Rattle.fab_face.specs.Machine.{StayNext};
ghost use Rattle.fab_face.specs.Multis.{multi_asking};

use crate::machine::Machine;
use fab_base::{Buf, Fault, Refused};

/// What a multi-receive asks for: untagged messages, until fewer than `least` bytes of its buffer are free. The
/// source is an index of the address vector.
#[derive(Clone, Copy, Drop)]
pub struct MultiAsk {
    pub source: Option<u32>,
    pub least: u32,
    pub ctx: u64,
}

/// The machine of an endpoint that has buffers for many untagged messages (FI_MULTI_RECV of fi_msg(3)). None of its
/// calls takes memory.
pub trait MultiReceiving: Machine {
    /// Does nothing, and tells what holds of multi-receives between calls.
    fn sharing(&self)
        ensures { IsSharing (Self.held self.now) };

    /// Why a multi-receive is refused for a reason that does not pass. `None` exactly where it is not.
    fn multi_fault(&self, ask: &MultiAsk, buf: &Buf) -> Option<Fault>
        ensures some { IfSome result (λ why. do_call (Self.held self.now).state (multi_asking ask.now buf.now) ≡ (Answer why, (Self.held self.now).state)) }
        ensures lasting { IfSome result (λ why. is_final (Answer why) ≡ true) }
        ensures none { IfNone result (is_final (do_call (Self.held self.now).state (multi_asking ask.now buf.now)).0 ≡ false) };

    /// Posts a multi-receive, whatever has arrived: what it matches is left to draws. What is refused now may pass
    /// later.
    fn post_multi(&mut self, ask: &MultiAsk, buf: Buf) -> Result<(), Refused>
        requires granted { is_final (do_call (Self.held self.old).state (multi_asking ask.now buf)).0 ≡ false }
        ensures ok { OnOk result (DoesCall (Some (multi_asking ask.now buf)) (Self.held self.old) (Self.held self.new)) }
        ensures next { StayNext (Self.held self.old).state (Self.held self.new).state }
        ensures err { IfErr result (λ r. (r.buf ≡ buf) × (do_call (Self.held self.old).state (multi_asking ask.now buf) ≡ (Answer r.why, (Self.held self.old).state))) }
        ensures stays { OnErr result (Self.held self.new ≡ Self.held self.old) };

    /// Lends bytes of the oldest multi-receive of this context whose buffer has not come back. They are the bytes of
    /// messages that are whole; a message that is still arriving has not changed them.
    fn multi_bytes(&self, ctx: u64, at: u32, len: u32) -> Option<&[u8]>
        ensures some { IfSome result (λ bytes. Lends (Self.held self.now) ctx at len bytes.now) }
        ensures none { IfNone result (LendsNone (Self.held self.now) ctx at len) };
}
