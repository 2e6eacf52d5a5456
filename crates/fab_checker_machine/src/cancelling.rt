//! Cancelling a posted receive (fi_cancel of fi_endpoint(3)).
ghost use Rattle.std.specs.Prelude.{◌≡◌, OnOk, IfOk};
ghost use Rattle.fab_model.specs.Calls.{answer};
ghost use Rattle.fab_model.specs.Receiving.{cancel, cancel_fault};
ghost use Rattle.fab_checker_machine.specs.Seen.{state_of};
ghost use Rattle.fab_checker_halves.specs.Places.{chosen};

use crate::state::State;
use fab_base::{Class, ErrKind, Fault, LineResult, NoMemory, Receive};
use fab_checker_values::entries::plain_error;

impl State {
    /// Cancels the first receive that may be cancelled.
    #[tactic(auto, unfolding(fab_model::specs::Receiving::cancel))]
    pub fn cancel(&mut self, which: Option<u64>) -> Result<(), NoMemory>
        ensures { OnOk result (state_of self.new ≡ cancel (state_of self.old) (chosen which)) }
    {
        let Some(receive) = self.rx.take_cancellable(which) else {
            return Ok(());
        };
        let Receive { call, buf, ctx, .. } = receive;
        self.accept_call()?;
        self.count(Class::Recv, false);
        self.write(
            Some(call),
            plain_error(Some(ctx), ErrKind::Canceled, Some(buf)),
        )
    }

    /// Why the cancel is refused, the first reason first.
    #[tactic(auto, unfolding(fab_model::specs::Receiving::cancel_fault))]
    fn cancel_fault(&self, which: Option<u64>) -> Option<Fault>
        ensures { result ≡ cancel_fault (state_of self.now) (chosen which) }
    {
        if !self.rx.can_cancel(which) {
            return Some(Fault::NoEntry);
        }
        if self.lacks_room(1) {
            return Some(self.full());
        }
        None
    }

    /// A call of cancel or cancel_first.
    pub fn call_cancel(&mut self, which: Option<u64>) -> Result<LineResult, NoMemory>
        ensures { IfOk result (λ done. (done, state_of self.new)
            ≡ answer (cancel_fault (state_of self.old) (chosen which)) (state_of self.old) (cancel (state_of self.old) (chosen which))) }
    {
        if let Some(fault) = self.cancel_fault(which) {
            return Ok(LineResult::Refused(fault));
        }
        self.cancel(which)?;
        Ok(LineResult::Done)
    }
}
