//! Endpoints are opened here alone: what is done with them is generic.
use crate::measuring::{Measure, exchanges, times_between};
use crate::speaker::{COPIED, Speaker};
use fab_bench::alone::{Costs, alone};
use fab_bench::runs::Times;
use fabric::{Api, Calls, Cap, Domain, EndpointOver, Hints, open};
use std::alloc::Global;
use std::io;
use std::sync::Wait;
use std::thread::Threads;
use std::time::Clock;

/// How many receives stand posted where all calls are made in one thread.
const AHEAD: u64 = 16;

/// How many peers are open, which two of them speak, and whether threads could sleep, which none does. The others stay open and silent.
#[derive(Clone, Copy, Drop)]
pub struct Peers {
    pub all: u32,
    pub left: u32,
    pub right: u32,
    pub sleeping: bool,
}

/// Two peers, both of which speak.
pub const TWO: Peers = Peers {
    all: 2,
    left: 0,
    right: 1,
    sleeping: false,
};

/// Two endpoints that speak, and the others, which are only open.
#[derive(Drop)]
struct Opened<E: Calls + Drop> {
    left: EndpointOver<E>,
    right: EndpointOver<E>,
    others: Vec<EndpointOver<E>>,
}

impl<E: Calls + Drop> Opened<E> {
    /// Takes the two that speak out of all; none where they are not two of these.
    fn of(mut all: Vec<EndpointOver<E>>, peers: &Peers) -> Option<Opened<E>> {
        let (low, high) = (peers.left as usize, peers.right as usize);
        if low >= high || high >= all.len() {
            return None;
        }
        let right = all.swap_remove(high);
        let left = all.swap_remove(low);
        Some(Opened {
            left,
            right,
            others: all,
        })
    }
}

/// Tagged messages between so many peers, over lanes and pools of 64 places. The first version has no more than 32 peers.
fn wishes(peers: &Peers) -> Hints {
    Hints::new()
        .api(Api::Two)
        .cap(Cap::Tagged)
        .sleeping(peers.sleeping)
        .peers(peers.all)
        .lane(64)
        .pool(64)
        .tx(64)
}

/// The times of an exchange between the two of these endpoints that speak.
fn times_among<R: Clock + Threads + Wait + Sync, E: Calls + Drop + Send>(
    rt: &R,
    alloc: Global,
    endpoints: Vec<EndpointOver<E>>,
    measure: &Measure,
) -> io::Result<Vec<Times>> {
    let Some(opened) = Opened::of(endpoints, &measure.peers) else {
        return Ok(Vec::new(alloc));
    };
    let Opened {
        left,
        right,
        others,
    } = opened;
    let all = times_between(rt, alloc, left, right, measure);
    // A peer that is closed has no lanes to look at: those that are silent stay open until the others have spoken.
    drop(others);
    all
}

/// The times of an exchange between two of so many new endpoints.
pub fn times<R: Clock + Threads + Wait + Sync>(
    rt: &R,
    alloc: Global,
    measure: &Measure,
) -> io::Result<Vec<Times>> {
    match open(alloc, &wishes(&measure.peers)) {
        Ok(Domain { endpoints, .. }) => times_among(rt, alloc, endpoints, measure),
        Err(_) => Ok(Vec::new(alloc)),
    }
}

/// The times of so many runs of each exchange; where messages are touched, of those alone whose buffers are handed over, since
/// an inject call copies the same bytes each time.
pub fn all_times<R: Clock + Threads + Wait + Sync>(
    rt: &R,
    alloc: Global,
    runs: u64,
    is_touched: bool,
    peers: Peers,
) -> io::Result<Vec<Times>> {
    let mut all = Vec::new(alloc);
    for exchange in exchanges() {
        if is_touched && exchange.len <= COPIED {
            continue;
        }
        let measure = Measure {
            exchange,
            runs,
            is_touched,
            peers,
        };
        all.append(&mut times(rt, alloc, &measure)?)?;
    }
    Ok(all)
}

/// What the calls of two endpoints cost in one thread, in so many batches.
fn costs_between<R: Clock, E: Calls + Drop>(
    rt: &R,
    alloc: Global,
    zero: EndpointOver<E>,
    one: EndpointOver<E>,
    len: usize,
    runs: u64,
    peers: &Peers,
) -> io::Result<Option<Costs>> {
    let left = Speaker::new(alloc, zero, peers.right, AHEAD, len, false);
    let right = Speaker::new(alloc, one, peers.left, AHEAD, len, false);
    match (left, right) {
        (Ok(mut left), Ok(mut right)) => Ok(Some(alone(
            rt, alloc, &mut left, &mut right, len, runs,
        )?)),
        _ => Ok(None),
    }
}

/// What the calls of the two of these endpoints that speak cost in one thread, in so many batches.
fn costs_among<R: Clock, E: Calls + Drop>(
    rt: &R,
    alloc: Global,
    endpoints: Vec<EndpointOver<E>>,
    len: usize,
    runs: u64,
    peers: &Peers,
) -> io::Result<Option<Costs>> {
    let Some(opened) = Opened::of(endpoints, peers) else {
        return Ok(None);
    };
    let Opened {
        left,
        right,
        others,
    } = opened;
    let costs = costs_between(rt, alloc, left, right, len, runs, peers);
    drop(others);
    costs
}

/// What the calls of two of so many new endpoints cost in one thread, in so many batches.
pub fn costs<R: Clock>(
    rt: &R,
    alloc: Global,
    len: usize,
    runs: u64,
    peers: &Peers,
) -> io::Result<Option<Costs>> {
    match open(alloc, &wishes(peers)) {
        Ok(Domain { endpoints, .. }) => costs_among(rt, alloc, endpoints, len, runs, peers),
        Err(_) => Ok(None),
    }
}
