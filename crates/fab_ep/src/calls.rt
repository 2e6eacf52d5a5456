//! What an endpoint tells of itself, progress, and the completion queue (fi_cq(3)).
ghost use Rattle.std.specs.Prelude.{◌≡◌, ◌∷◌, [], IfOk, IfErr, IfSome, IfNone, OnErr};
ghost use Rattle.fab_ep.specs.Value.{seen};
ghost use Rattle.fab_ep.specs.Reads.{read_as};

use crate::endpoint::Endpoint;
use fab_base::{Entry, ErrEntry, Fault, NoMemory};
use fab_face::calls::{Logs, Progress, Sees};
use fab_face::events::{Event, Moved};
use fab_face::machine::Machine;
use fab_link::Port;

/// What a read answers after progress: that memory lacked is told where there is no completion.
fn read_as(popped: Result<Entry, Fault>, lacked: bool) -> Result<Entry, Fault>
    ensures { result ≡ read_as popped lacked }
{
    match popped {
        Err(Fault::NoEntry) if lacked => Err(Fault::NoMemory),
        popped => popped,
    }
}

impl<P: Port, C: Machine> Sees for Endpoint<P, C> {
    ghost fixed = { P.FIXED };

    ghost Home = { P.Home };

    ghost seen = { λ e. seen P.Port e };

    fn known(&self) {
        self.core.known();
    }
}

impl<P: Port, C: Machine> Progress for Endpoint<P, C> {
    fn progress(&mut self, budget: u32) -> Result<Moved, NoMemory> {
        self.move_frames(budget)
    }

    fn cq_is_empty(&self) -> bool {
        self.core.is_cq_empty()
    }

    fn cq_pop(&mut self) -> Result<Entry, Fault> {
        self.core.pop()
    }

    fn cq_readerr(&mut self) -> Result<ErrEntry, Fault> {
        self.core.pop_error()
    }

    fn cq_read(&mut self, budget: u32) -> Result<Entry, Fault> {
        let moved = self.move_frames(budget);
        self.core.known();
        let popped = self.core.pop();
        read_as(popped, moved.is_err())
    }
}

impl<P: Port, C: Machine> Logs for Endpoint<P, C> {
    fn log_pop(&mut self) -> Option<Event> {
        self.log.pop_front()
    }

    fn log_clear(&mut self) {
        self.log.clear();
    }

    fn awaiting(&self) -> u32 {
        self.core.awaiting()
    }

    fn deferred(&self) -> u32 {
        self.core.deferred()
    }

    fn pushed(&self) -> bool {
        self.pushed
    }
}
