//! Three ranks try the calls of `mini_mpi` that `halo_exchange` does not, each in a thread of its own; and then once more as ranks that
//! sleep while they wait.
#![tactic(auto)]

mod many;
mod messages;
mod parts;
mod together;

use mini_mpi::{Calls, EndpointOver, Error, Hints, Sleeps, Waiting, World, open};
use std::alloc::Global;
use std::sync::Wait;
use std::thread::{self, Threads};

/// What is tried, in order.
const NAMES: [&str; 16] = [
    "any source and any tag",
    "unexpected messages, in order",
    "a message to oneself",
    "a message that is too long",
    "a probe that takes nothing",
    "a send that waits for its receive",
    "a broadcast in pieces",
    "an allreduce in pieces",
    "an allgather",
    "arguments out of range",
    "1,000 receives before 1,000 sends",
    "1,000 sends before 1,000 receives",
    "a receive behind 300 that come later",
    "a probe behind receives that wait",
    "a failure among several requests",
    "each rank late at a barrier",
];

/// What a rank passed of these, in their order.
type Ran = Result<Vec<bool>, Error>;

/// Tries all, as the rank of this endpoint.
fn run<R: Wait, E: Calls + Sleeps + Drop>(
    rt: &R,
    alloc: Global,
    endpoint: EndpointOver<E>,
    waiting: Waiting,
) -> Ran {
    let mut world = World::with_waiting(alloc, endpoint, waiting);
    let mut passed = Vec::new(alloc);
    messages::try_all(rt, alloc, &mut world, &mut passed)?;
    together::try_all(rt, alloc, &mut world, &mut passed)?;
    many::try_all(rt, alloc, &mut world, &mut passed)?;
    world.finalize(rt)?;
    Ok(passed)
}

/// Lets each rank run in a thread of its own.
fn all_ranks<R: Threads + Wait + Sync, E: Calls + Sleeps + Drop + Send>(
    rt: &R,
    alloc: Global,
    endpoints: Vec<EndpointOver<E>>,
    waiting: Waiting,
) -> Result<Vec<Ran>, Error> {
    let all = thread::map_vec(rt, endpoints, &|endpoint| run(rt, alloc, endpoint, waiting))?;
    Ok(all)
}

/// What three ranks that wait so passed.
fn run_all<R: Threads + Wait + Sync>(
    rt: &R,
    alloc: Global,
    waiting: Waiting,
) -> Result<Vec<Ran>, Error> {
    match open(alloc, &Hints::new().peers(3).sleeping(waiting.sleeps())) {
        Ok(domain) => all_ranks(rt, alloc, domain.endpoints, waiting),
        Err(fault) => Err(Error::from(fault)),
    }
}

/// Whether the rank passed what has this number.
fn has_passed(ran: &Ran, number: usize) -> bool {
    match ran {
        Ok(passed) => passed.get(number) == Some(&true),
        Err(_) => false,
    }
}

/// Whether there are three ranks and all of them passed it.
fn have_passed(all: &Result<Vec<Ran>, Error>, number: usize) -> bool {
    match all {
        Ok(all) => all.len() == 3 && all.iter().all(|ran| has_passed(ran, number)),
        Err(_) => false,
    }
}

/// In a word, whether it was passed.
fn word_of(passed: bool) -> &'static str {
    if passed { "pass" } else { "FAIL" }
}

fn main(rt: HostRuntime) -> std::io::Result<()> {
    let spun = run_all(&rt, rt.alloc(), Waiting::Spin);
    for (number, name) in NAMES.iter().enumerate() {
        let word = word_of(have_passed(&spun, number));
        println!(rt; "{name}: {word}")?;
    }
    let slept = run_all(&rt, rt.alloc(), Waiting::Sleep);
    let all = (0..NAMES.len()).all(|number| have_passed(&slept, number));
    println!(rt; "all of these by ranks that sleep: {}", word_of(all))
}
