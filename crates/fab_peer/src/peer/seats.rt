//! A peer that changes its endpoint, as where its port is gathered with those of all peers.
ghost use Rattle.std.specs.Prelude.{◌≡◌};
ghost use Rattle.fab_peer.specs.Turns.{told};

use crate::calls::LineCalls;
use crate::lines::Lines;
use crate::peer::Peer;
use crate::spare::Spare;
use fab_base::{LineResult, Step};
use fab_kept::KeptList;
use std::alloc::Global;

/// A peer without its endpoint: its lines, the results of those done, the completions kept, and its schedule.
#[derive(Drop)]
pub struct Unseated {
    lines: Lines,
    results: Vec<LineResult>,
    kept: KeptList,
    schedule: Vec<Step>,
    alloc: Global,
}

impl<E: LineCalls> Peer<E> {
    /// Gives the endpoint up, to go on over another. It takes no memory.
    pub fn unseat(self) -> (Unseated, E)
        ensures endpoint { result.1 ≡ self.endpoint }
        ensures told { told E.seen self ≡ record {
          seen = E.seen result.1;
          lines = result.0.lines;
          results = result.0.results.items;
          kept = result.0.kept;
          schedule = result.0.schedule.items;
        } }
    {
        let Peer {
            endpoint,
            lines,
            results,
            kept,
            schedule,
            alloc,
            ..
        } = self;
        let unseated = Unseated {
            lines,
            results,
            kept,
            schedule,
            alloc,
        };
        (unseated, endpoint)
    }
}

impl Unseated {
    /// Goes on over this endpoint. It takes no memory.
    pub fn reseat<E: LineCalls>(self, endpoint: E) -> Peer<E>
        ensures endpoint { result.endpoint ≡ endpoint }
        ensures told { told E.seen result ≡ record {
          seen = E.seen endpoint;
          lines = self.lines;
          results = self.results.items;
          kept = self.kept;
          schedule = self.schedule.items;
        } }
    {
        let Unseated {
            lines,
            results,
            kept,
            schedule,
            alloc,
        } = self;
        Peer {
            endpoint,
            lines,
            results,
            kept,
            schedule,
            spare: Spare::new(alloc),
            alloc,
        }
    }
}
