//! For who measures: rounds of a barrier and an allreduce, or of an exchange between neighbours, and how long one takes.
use mini_mpi::{
    AtomicOp, Buf, Calls, EndpointOver, Error, Hints, Num, Request, Sleeps, Waiting, World, open,
};
use std::alloc::Global;
use std::sync::Wait;
use std::thread::{self, Threads};
use std::time::{Clock, Instant};
use std::{env, io};

/// How many bytes a rank gives to each of its neighbours.
const EDGE_BYTES: u64 = 512;

/// The tag of these messages.
const EDGE: u32 = 0;

/// What ranks do in each round.
#[derive(Clone, Copy, Debug, Drop)]
enum Round {
    /// A barrier, and an allreduce of eight bytes.
    Meet,
    /// Each gives an edge to the ranks on both sides of it, on a ring, and takes theirs.
    Halo,
}

/// So many rounds among so many ranks that wait so, or as the number of processors says.
#[derive(Clone, Copy, Drop)]
pub(crate) struct Asked {
    rounds: u32,
    ranks: u32,
    waiting: Option<Waiting>,
    what: Round,
}

/// The number that a word tells, or 1 where it is lacking or no number.
fn number(word: Option<String>) -> u32 {
    match word {
        Some(word) => word.as_str().parse::<u32>().unwrap_or(1),
        None => 1,
    }
}

/// How ranks wait by this word.
fn waiting_by(word: Option<String>) -> Option<Waiting> {
    match word?.as_str() {
        "spin" => Some(Waiting::Spin),
        "sleep" => Some(Waiting::Sleep),
        _ => None,
    }
}

/// What a round is by this word.
fn round_by(word: Option<String>) -> Round {
    match word {
        Some(word) => match word.as_str() {
            "halo" => Round::Halo,
            _ => Round::Meet,
        },
        None => Round::Meet,
    }
}

/// What the words ask for, if there are any.
pub(crate) fn read_words(rt: &HostRuntime) -> io::Result<Option<Asked>> {
    let mut words = env::args(rt)?;
    let _name = words.next();
    let Some(first) = words.next() else {
        return Ok(None);
    };
    let rounds = number(Some(first));
    let ranks = number(words.next());
    let waiting = waiting_by(words.next());
    let what = round_by(words.next());
    Ok(Some(Asked {
        rounds,
        ranks,
        waiting,
        what,
    }))
}

/// A barrier, and the sum of a one of each rank.
fn meet<R: Wait, E: Calls + Drop>(rt: &R, world: &mut World<E>) -> Result<(), Error> {
    let mut bytes = 1u64.to_le_bytes();
    world.barrier(rt)?;
    world.allreduce(rt, AtomicOp::Sum, Num::U64, &mut bytes)
}

/// Begins the receive of a neighbour's edge.
fn expect<E: Calls + Drop>(
    alloc: Global,
    world: &mut World<E>,
    from: u32,
    requests: &mut Vec<Request>,
) -> Result<(), Error> {
    let buf = Buf::zeros(alloc, EDGE_BYTES)?;
    let request = world.irecv(Some(from), Some(EDGE), buf)?;
    requests.push(request)?;
    Ok(())
}

/// Begins the send of an edge to a neighbour.
fn give<E: Calls + Drop>(
    alloc: Global,
    world: &mut World<E>,
    to: u32,
    requests: &mut Vec<Request>,
) -> Result<(), Error> {
    let buf = Buf::zeros(alloc, EDGE_BYTES)?;
    let request = world.isend(to, EDGE, buf)?;
    requests.push(request)?;
    Ok(())
}

/// The rank behind this one on a ring, and the one before it.
fn neighbours<E: Calls + Drop>(world: &World<E>) -> (u32, u32) {
    let (rank, ranks) = (world.rank(), world.size());
    let last = ranks.saturating_sub(1);
    let after = if rank < last { rank + 1 } else { 0 };
    let before = if rank == 0 { last } else { rank - 1 };
    (after, before)
}

/// Exchanges edges with both neighbours.
fn exchange<R: Wait, E: Calls + Drop>(
    rt: &R,
    alloc: Global,
    world: &mut World<E>,
) -> Result<(), Error> {
    let (after, before) = neighbours(world);
    let mut requests = Vec::new(alloc);
    expect(alloc, world, before, &mut requests)?;
    expect(alloc, world, after, &mut requests)?;
    give(alloc, world, after, &mut requests)?;
    give(alloc, world, before, &mut requests)?;
    world.waitall(rt, requests)?;
    Ok(())
}

/// Makes a round.
fn go<R: Wait, E: Calls + Drop>(
    rt: &R,
    alloc: Global,
    world: &mut World<E>,
    what: Round,
) -> Result<(), Error> {
    match what {
        Round::Meet => meet(rt, world),
        Round::Halo => exchange(rt, alloc, world),
    }
}

/// Makes all rounds, as the rank of this endpoint.
fn run<R: Wait, E: Calls + Sleeps + Drop>(
    rt: &R,
    alloc: Global,
    endpoint: EndpointOver<E>,
    waiting: Waiting,
    asked: Asked,
) -> Result<(), Error> {
    let mut world = World::with_waiting(alloc, endpoint, waiting);
    for _ in 0..asked.rounds {
        go(rt, alloc, &mut world, asked.what)?;
    }
    world.finalize(rt)?;
    Ok(())
}

/// Lets each rank run in a thread of its own, and tells whether all made their rounds.
fn all_ranks<R: Threads + Wait + Sync, E: Calls + Sleeps + Drop + Send>(
    rt: &R,
    alloc: Global,
    endpoints: Vec<EndpointOver<E>>,
    waiting: Waiting,
    asked: Asked,
) -> bool {
    let ran = thread::map_vec(
        rt,
        endpoints,
        &|endpoint| run(rt, alloc, endpoint, waiting, asked),
    );
    match ran {
        Ok(all) => all.iter().all(|one| one.is_ok()),
        Err(_) => false,
    }
}

/// Opens the endpoints, and lets all ranks run.
fn run_rounds<R: Threads + Wait + Sync>(
    rt: &R,
    alloc: Global,
    waiting: Waiting,
    asked: Asked,
) -> bool {
    let hints = Hints::new().peers(asked.ranks).sleeping(waiting.sleeps());
    match open(alloc, &hints) {
        Ok(domain) => all_ranks(rt, alloc, domain.endpoints, waiting, asked),
        Err(_) => false,
    }
}

/// Prints how long a round took, with a share of the time in which the threads began.
pub(crate) fn measure<R: Print + Clock + Threads + Wait + Sync>(
    rt: &R,
    alloc: Global,
    asked: Asked,
) -> io::Result<()> {
    let Asked {
        rounds,
        ranks,
        what,
        ..
    } = asked;
    let waiting = match asked.waiting {
        Some(waiting) => waiting,
        None => Waiting::here(rt, ranks),
    };
    let begun = Instant::now(rt)?;
    if !run_rounds(rt, alloc, waiting, asked) {
        return println!(rt; "no ranks, or no memory");
    }
    let nanos = begun.elapsed(rt)?.as_nanos();
    let each = nanos / u128::from(rounds.max(1));
    println!(rt; "{ranks} ranks, {waiting:?}, {what:?}: {each} ns a round")
}
