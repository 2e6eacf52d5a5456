//! What an endpoint's machine does with unexpected messages besides giving them to receives.
ghost use Rattle.std.specs.Prelude.{◌≡◌, true, false, Some, IfErr, IfSome, IfNone, OnOk, OnErr};
ghost use Rattle.fab_base.specs.declared.peers.LineResult.TheVariants.{Refused as Answer};
ghost use Rattle.fab_model.specs.Calls.{do_call, TakeClaimed, DropClaimed};
ghost use Rattle.fab_face.specs.Acts.{DoesCall};
ghost use Rattle.fab_face.specs.Answers.{is_final};
ghost use Rattle.fab_face.specs.Machine.{StayNext};
ghost use Rattle.fab_face.specs.Looking.{looking};

use crate::machine::Machine;
use fab_base::{Buf, Fault, PeekHow, Refused};

/// What is looked for (FI_PEEK, FI_CLAIM and FI_DISCARD of fi_tagged(3)). The source is an index of the
/// address vector.
#[derive(Clone, Copy, Drop)]
pub struct Look {
    pub how: PeekHow,
    pub source: Option<u32>,
    pub tag: u64,
    pub ignore: u64,
    pub ctx: u64,
}

/// The machine of an endpoint that looks at unexpected messages, and sets them aside. None of its calls
/// takes memory.
pub trait Looking: Machine {
    // ---- looks

    /// Why a look is refused for a reason that does not pass. `None` exactly where it is not.
    fn look_fault(&self, look: &Look) -> Option<Fault>
        ensures some { IfSome result (λ why. do_call (Self.held self.now).state (looking look.now) ≡ (Answer why, (Self.held self.now).state)) }
        ensures lasting { IfSome result (λ why. is_final (Answer why) ≡ true) }
        ensures none { IfNone result (is_final (do_call (Self.held self.now).state (looking look.now)).0 ≡ false) };

    /// Looks for an unexpected message. What is refused now may pass later.
    fn look(&mut self, look: &Look) -> Result<(), Fault>
        requires granted { is_final (do_call (Self.held self.old).state (looking look.now)).0 ≡ false }
        ensures ok { OnOk result (DoesCall (Some (looking look.now)) (Self.held self.old) (Self.held self.new)) }
        ensures next { StayNext (Self.held self.old).state (Self.held self.new).state }
        ensures err { IfErr result (λ why. do_call (Self.held self.old).state (looking look.now) ≡ (Answer why, (Self.held self.old).state)) }
        ensures stays { OnErr result (Self.held self.new ≡ Self.held self.old) };

    // ---- claimed messages

    /// Why a receive of the message claimed under the context is refused for a reason that does not pass.
    /// `None` exactly where it is not.
    fn take_fault(&self, buf: &Buf, ctx: u64) -> Option<Fault>
        ensures some { IfSome result (λ why. do_call (Self.held self.now).state (TakeClaimed buf.now ctx) ≡ (Answer why, (Self.held self.now).state)) }
        ensures lasting { IfSome result (λ why. is_final (Answer why) ≡ true) }
        ensures none { IfNone result (is_final (do_call (Self.held self.now).state (TakeClaimed buf.now ctx)).0 ≡ false) };

    /// Receives the message claimed under the context. What is refused now may pass later.
    fn take_claimed(&mut self, buf: Buf, ctx: u64) -> Result<(), Refused>
        requires granted { is_final (do_call (Self.held self.old).state (TakeClaimed buf ctx)).0 ≡ false }
        ensures ok { OnOk result (DoesCall (Some (TakeClaimed buf ctx)) (Self.held self.old) (Self.held self.new)) }
        ensures next { StayNext (Self.held self.old).state (Self.held self.new).state }
        ensures err { IfErr result (λ r. (r.buf ≡ buf) × (do_call (Self.held self.old).state (TakeClaimed buf ctx) ≡ (Answer r.why, (Self.held self.old).state))) }
        ensures stays { OnErr result (Self.held self.new ≡ Self.held self.old) };

    /// Why a drop of the message claimed under the context is refused for a reason that does not pass.
    /// `None` exactly where it is not.
    fn drop_fault(&self, ctx: u64) -> Option<Fault>
        ensures some { IfSome result (λ why. do_call (Self.held self.now).state (DropClaimed ctx) ≡ (Answer why, (Self.held self.now).state)) }
        ensures lasting { IfSome result (λ why. is_final (Answer why) ≡ true) }
        ensures none { IfNone result (is_final (do_call (Self.held self.now).state (DropClaimed ctx)).0 ≡ false) };

    /// Throws the message away that is claimed under the context. What is refused now may pass later.
    fn drop_claimed(&mut self, ctx: u64) -> Result<(), Fault>
        requires granted { is_final (do_call (Self.held self.old).state (DropClaimed ctx)).0 ≡ false }
        ensures ok { OnOk result (DoesCall (Some (DropClaimed ctx)) (Self.held self.old) (Self.held self.new)) }
        ensures next { StayNext (Self.held self.old).state (Self.held self.new).state }
        ensures err { IfErr result (λ why. do_call (Self.held self.old).state (DropClaimed ctx) ≡ (Answer why, (Self.held self.old).state)) }
        ensures stays { OnErr result (Self.held self.new ≡ Self.held self.old) };
}
