//! Draws (FI_MULTI_RECV of fi_msg(3)): a posted multi-receive takes a message that was unexpected.
ghost use Rattle.std.specs.Prelude.{◌≡◌, ◌<◌, ◌≤◌, ◌+◌, true, false, length, IfErr, OnOk};
ghost use Rattle.fab_base.specs.declared.faults.Fault.TheVariants.{Again};
ghost use Rattle.fab_base.specs.declared.faults.Busy.TheVariants.{LogFull};
ghost use Rattle.fab_model.specs.Receiving.{draw_due};
ghost use Rattle.fab_face.specs.declared.events.Event.TheVariants.{Call as Called};
ghost use Rattle.fab_face.specs.Answers.{HasPlaces, IsShort, is_early};
ghost use Rattle.fab_ep.specs.Value.{seen};
ghost use Rattle.fab_ep.specs.Draws.{Crowded, Draws, DrawsOne};
ghost use Rattle.fab_ep.specs.Sends.{logging};

use crate::endpoint::{Endpoint, is_short};
use fab_base::{Busy, Fault};
use fab_face::events::Event;
use fab_face::machine::Machine;
use fab_link::Port;

impl<P: Port, C: Machine> Endpoint<P, C> {
    /// Makes the draw that is due, where the log has two free places and the completion queue has room;
    /// whether it did.
    fn draw_one(&mut self) -> bool
        ensures draws { DrawsOne (seen P.Port self.old) (seen P.Port self.new) result }
        ensures less { result ≡ true → length self.new.held.state.rx.unexpected < length self.old.held.state.rx.unexpected }
    {
        if !self.core.is_draw_due() {
            return false;
        }
        if is_short(&self.log, self.log_size) {
            return false;
        }
        self.core.known();
        if !self.core.draw() {
            return false;
        }
        self.log.push_back_reserved(Event::Draw);
        true
    }

    /// Makes the draws that are due, as far as there is room for them. Most often none is, and that is seen at once.
    pub(crate) fn draw_all(&mut self)
        ensures { Draws (seen P.Port self.old) (seen P.Port self.new) }
    {
        if self.core.is_draw_due() {
            while self.draw_one() {}
        }
    }

    /// Makes the draws that are due, where a receive call is refused with a fault that lets them be made.
    pub(crate) fn draw_unless_early(&mut self, why: &Fault)
        ensures early { is_early why.now ≡ true → self.new ≡ self.old }
        ensures draws { is_early why.now ≡ false → Draws (seen P.Port self.old) (seen P.Port self.new) }
    {
        match why {
            Fault::NotSupported | Fault::MsgSize | Fault::Invalid => {}
            _ => self.draw_all(),
        }
    }

    /// Whether a draw is due for which the log has no two free places.
    fn is_cramped(&self) -> bool
        ensures due { result ≡ true → draw_due self.now.held.state.rx ≡ true }
        ensures short { result ≡ true → IsShort (seen P.Port self.now) }
        ensures free { result ≡ false → draw_due self.now.held.state.rx ≡ true → HasPlaces (seen P.Port self.now) }
    {
        if !self.core.is_draw_due() {
            return false;
        }
        is_short(&self.log, self.log_size)
    }

    /// Makes the draws that are due before a receive call. Refused where the log has no place for the call.
    pub(crate) fn draw_before(&mut self) -> Result<(), Fault>
        ensures draws { Draws (seen P.Port self.old) (seen P.Port self.new) }
        ensures ok { OnOk result (HasPlaces (seen P.Port self.old) × (Crowded (seen P.Port self.old) (seen P.Port self.new) → ⊥)) }
        ensures err { IfErr result (λ why. (why ≡ Again (LogFull self.old.log_size)) × Crowded (seen P.Port self.old) (seen P.Port self.new)) }
    {
        let full = Fault::Again(Busy::LogFull(self.log_size));
        let short = is_short(&self.log, self.log_size);
        self.draw_all();
        if short || self.is_cramped() {
            return Err(full);
        }
        Ok(())
    }

    /// A receive call was accepted: it is logged, and the draws are made that are due then.
    pub(crate) fn log_received(&mut self)
        requires place { length self.old.log + 1 ≤ self.old.log_size }
        ensures { Draws (logging Called (seen P.Port self.old)) (seen P.Port self.new) }
    {
        self.log_call();
        self.draw_all();
    }
}
