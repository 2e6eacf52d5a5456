//! How a rank waits: it spins, or it sleeps while nothing comes for it.
ghost use Rattle.std.specs.Prelude.{◌≡◌, ◌<◌, IfErr, IfOk, OnErr, OnOk, true, false, vec_len, vec_capacity};
ghost use Rattle.fabric.specs.Words.{PolledIdle};
ghost use Rattle.mini_mpi.specs.Asleep.{sleeps, waiting_among};
ghost use Rattle.mini_mpi.specs.Going.{Comes, Goes, LacksMemory, rank_of};

use crate::begun::Begun;
use crate::errors::Error;
use crate::moving::next;
use fabric::{Calls, EndpointOver, Polled, Sleeper};
use std::snapshot::Snapshot;
use std::sync::Wait;
use std::thread::{self, Threads};
use std::time::Duration;

/// How long a rank sleeps at most, in milliseconds. Then it tries again what the endpoint refused for now.
const NAP_MILLIS: u64 = 10;

/// How a rank waits for the others.
#[derive(Clone, Copy, Debug, Drop, Eq, PartialEq)]
pub enum Waiting {
    /// It looks again and again, and lets other threads run between.
    Spin,
    /// It sleeps where it finds nothing, until a rank sends something, and no longer than ten milliseconds at a time.
    Sleep,
}

impl Waiting {
    /// Asleep where there are more ranks than processors.
    pub fn among(ranks: u32, processors: usize) -> Waiting
        ensures { result ≡ waiting_among ranks processors }
    {
        if processors < ranks as usize {
            Waiting::Sleep
        } else {
            Waiting::Spin
        }
    }

    /// `among` as many processors as this thread may use. Where the system does not tell their number a rank spins.
    pub fn here<T: Threads>(rt: &T, ranks: u32) -> Waiting {
        match thread::available_parallelism(rt) {
            Ok(processors) => Waiting::among(ranks, processors.get()),
            Err(_) => Waiting::Spin,
        }
    }

    /// Whether a rank sleeps: so are the endpoints of all ranks to be opened (`Hints::sleeping`).
    pub fn sleeps(self) -> bool
        ensures { result ≡ sleeps self }
    {
        self == Waiting::Sleep
    }
}

/// That a rank said that it sleeps, and what it was then.
#[derive(Drop)]
struct Said<E: Drop> {
    endpoint: Snapshot<EndpointOver<E>>,
    begun: Snapshot<Begun>,
}

/// Says that the rank sleeps, before its last look.
fn fall_asleep<E: Drop>(endpoint: &EndpointOver<E>, begun: &Begun, sleeper: &mut Sleeper) -> Said<E>
    ensures says { sleeper.new.says ≡ true }
    ensures endpoint { result.endpoint.value ≡ endpoint.now }
    ensures begun { result.begun.value ≡ begun.now }
{
    sleeper.say();
    Said {
        endpoint: Snapshot::of(endpoint),
        begun: Snapshot::of(begun),
    }
}

/// Sleeps until a rank sends something, or for a short time. Whoever sleeps said so, and looked once more since then: what waits was
/// tried, no completion was there, and nothing was left to move.
fn doze<R: Wait, E: Calls + Drop>(
    rt: &R,
    endpoint: &EndpointOver<E>,
    begun: &Begun,
    sleeper: &Sleeper,
    said: &Said<E>,
)
    requires says { sleeper.now.says ≡ true }
    requires looked { Comes E.fixed PolledIdle (rank_of (E.seen said.now.endpoint.value) said.now.begun.value) (rank_of (E.seen endpoint.now) begun.now) }
{
    let _ = endpoint;
    let _ = begun;
    let _ = said;
    sleeper.doze(rt, Duration::from_millis(NAP_MILLIS));
}

/// Rests behind a look that found no completion: sleeps, or lets other threads run where more may be moved at once, or where an
/// operation waits for room, for which nobody rings.
fn rest<R: Wait, E: Calls + Drop>(
    rt: &R,
    endpoint: &EndpointOver<E>,
    begun: &Begun,
    sleeper: &Sleeper,
    said: &Said<E>,
    come: &Result<Polled, Error>,
)
    requires says { sleeper.now.says ≡ true }
    requires looked { IfOk come.now (λ polled. Comes E.fixed polled (rank_of (E.seen said.now.endpoint.value) said.now.begun.value) (rank_of (E.seen endpoint.now) begun.now)) }
{
    match come {
        Ok(Polled::Idle) => {
            if endpoint.deferred() == 0 {
                doze(rt, endpoint, begun, sleeper, said);
            } else {
                thread::yield_now();
            }
        }
        Ok(Polled::More) => thread::yield_now(),
        Ok(_) | Err(_) => {}
    }
}

/// `next` of a rank that sleeps: it says so, posts what waits and reads the next completion, and sleeps where none is there. So what
/// comes between the word and the sleep is not slept over.
pub(crate) fn next_asleep<R: Wait, E: Calls + Drop>(
    rt: &R,
    endpoint: &mut EndpointOver<E>,
    begun: &mut Begun,
    sleeper: &mut Sleeper,
) -> Result<Polled, Error>
    ensures room { OnOk result (vec_len begun.new.ended < vec_capacity begun.new.ended) }
    ensures ok { IfOk result (λ polled. Comes E.fixed polled (rank_of (E.seen endpoint.old) begun.old) (rank_of (E.seen endpoint.new) begun.new)) }
    ensures err { IfErr result (λ why. (why ≡ Error.NoMem) × Goes E.fixed (rank_of (E.seen endpoint.old) begun.old) (rank_of (E.seen endpoint.new) begun.new)) }
    ensures lacks { OnErr result (LacksMemory E.fixed (rank_of (E.seen endpoint.old) begun.old) (rank_of (E.seen endpoint.new) begun.new) begun.new) }
    ensures awake { sleeper.new.says ≡ false }
{
    let said = fall_asleep(endpoint, begun, sleeper);
    let come = next(endpoint, begun, 0);
    rest(rt, endpoint, begun, sleeper, &said, &come);
    sleeper.wake();
    come
}
