//! An endpoint that changes its port, and one that is given up.
ghost use Rattle.std.specs.Prelude.{◌≡◌};
ghost use Rattle.fab_face.specs.Held.{IsRepaid};
ghost use Rattle.fab_face.specs.Ports.{GoesOn, lanes_in};

use crate::endpoint::Endpoint;
use fab_face::events::Event;
use fab_face::lanes::Lane;
use fab_face::machine::Machine;
use fab_link::Port;
use std::collections::VecDeque;
use std::marker::Model;
use std::snapshot::Snapshot;

/// An endpoint without a port. Contracts know what its port had posted and taken.
pub struct Unseated<P: Port, C: Machine> {
    port: Snapshot<P>,
    core: C,
    log: VecDeque<Event>,
    log_size: u32,
    pushed: bool,
    next: Lane,
}

impl<P: Port, C: Machine> Model for Unseated<P, C> {
    ghost use Rattle.std.specs.Prelude.{◌≤◌};
    ghost use Rattle.std.specs.VecDeque.{deque_capacity};
    ghost use Rattle.fab_ep.specs.Value.{Whole, seen};
    ghost use Rattle.fab_ep.specs.Circle.{InCircle};
    ghost use Rattle.fab_ep.specs.Tries.{IsTied};

    ghost Value = { Whole P };

    ghost view = { λ e. record { port = e.port.value; held = C.held e.core; log = e.log.items; log_size = e.log_size; pushed = e.pushed; next = e.next } };

    ghost invariant = { λ e. (e.log_size ≤ deque_capacity e.log) × IsTied (seen P.Port (record { port = e.port.value; held = C.held e.core; log = e.log.items; log_size = e.log_size; pushed = e.pushed; next = e.next })) × InCircle (P.peer_count e.port.value) e.next };
}

/// What an endpoint that was closed gives back. Its buffers of unfinished operations go with the machine.
pub struct Closed<P: Port, C: Machine> {
    pub port: P,
    pub core: C,
}

impl<P: Port, C: Machine> Endpoint<P, C> {
    /// Gives the port up, to go on over another. It takes no memory.
    pub fn unseat(self) -> (Unseated<P, C>, P)
        ensures endpoint { result.0 ≡ self }
        ensures port { result.1 ≡ self.port }
    {
        let Endpoint {
            port,
            core,
            log,
            log_size,
            pushed,
            next,
        } = self;
        let unseated = Unseated {
            port: Snapshot::of(&port),
            core,
            log,
            log_size,
            pushed,
            next,
        };
        (unseated, port)
    }

    /// Gives everything up.
    pub fn close(self) -> Closed<P, C>
        ensures port { result.port ≡ self.port }
        ensures held { C.held result.core ≡ self.held }
    {
        let Endpoint {
            port,
            core,
            log: _log,
            log_size: _log_size,
            pushed: _pushed,
            next: _next,
        } = self;
        Closed { port, core }
    }
}

impl<P: Port, C: Machine> Unseated<P, C> {
    /// Goes on over this port, which goes on where the old one ended. Where it tells what the peers are owed, that is no
    /// less than the replies that are still to be posted. It takes no memory.
    pub fn reseat<Q: Port>(self, port: Q) -> Endpoint<Q, C>
        requires goes_on { GoesOn P.Port Q.Port self.port port }
        requires repaid { IsRepaid (lanes_in Q.Port port) self.held }
        ensures { result ≡ record { port = port; held = self.held; log = self.log; log_size = self.log_size; pushed = self.pushed; next = self.next } }
    {
        let Unseated {
            port: _port,
            core,
            log,
            log_size,
            pushed,
            next,
        } = self;
        Endpoint {
            port,
            core,
            log,
            log_size,
            pushed,
            next,
        }
    }
}
