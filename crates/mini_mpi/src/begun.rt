//! What was begun and is not yet waited for: calls that the endpoint has not accepted, and what ended.
ghost use Rattle.std.specs.Prelude.{◌≡◌, ◌<◌, ◌++◌, ◌^◌, [], vec_len, vec_capacity};
ghost use Rattle.mini_mpi.specs.Requests.{kept_of};
ghost use Rattle.mini_mpi.specs.Waiting.{fresh_of};

use crate::ended::{Ended, ended_by};
use fabric::{Buf, COLLECTIVE, Level, Polled};
use std::alloc::Global;
use std::collections::VecDeque;

/// A send: to which rank, under which tag, and when it is complete.
#[derive(Drop)]
pub struct Sending {
    pub dest: u32,
    pub tag: u32,
    pub buf: Buf,
    pub id: u64,
    pub level: Level,
}

/// A receive: of messages of which rank and tag.
#[derive(Drop)]
pub struct Receiving {
    pub source: Option<u32>,
    pub tag: Option<u32>,
    pub buf: Buf,
    pub id: u64,
}

/// The requests of a rank that were begun and are not yet waited for. Those that the endpoint has accepted are not told here.
#[derive(Drop)]
pub struct Begun {
    /// The number of the last request.
    pub last: u64,
    /// The sends that the endpoint has not accepted, in the order in which they were begun.
    pub sends: VecDeque<Sending>,
    /// The receives that it has not accepted, in the order in which they were begun.
    pub receives: VecDeque<Receiving>,
    /// What ended.
    pub ended: Vec<Ended>,
}

impl Begun {
    /// Nothing was begun.
    pub fn new(alloc: Global) -> Begun
        ensures { (result.sends.items ≡ []) × (result.receives.items ≡ []) × (result.ended.items ≡ []) }
    {
        Begun {
            last: 0,
            sends: VecDeque::new(alloc),
            receives: VecDeque::new(alloc),
            ended: Vec::new(alloc),
        }
    }

    /// The number of a new request, which is no context of a collective.
    pub fn fresh(&mut self) -> u64
        ensures id { result < 2 ^ 63 }
        ensures next { result ≡ fresh_of self.old }
        ensures same { self.new ≡ record self.old { last = result } }
    {
        self.last = self.last.wrapping_add(1) % COLLECTIVE;
        self.last
    }

    /// Keeps the end of a request, if a completion tells one, for whoever waits for it.
    pub fn keep(&mut self, polled: Polled)
        requires { vec_len self.old.ended < vec_capacity self.old.ended }
        ensures ended { self.new.ended.items ≡ self.old.ended.items ++ kept_of polled }
        ensures others { (self.new.sends ≡ self.old.sends) × (self.new.receives ≡ self.old.receives) }
    {
        if let Some(ended) = ended_by(polled) {
            self.ended.push_reserved(ended);
        }
    }
}
