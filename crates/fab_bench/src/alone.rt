//! What calls cost by themselves: both parties in one thread, so that no cache line goes from one core to another.
use crate::runs::{Party, since};
use std::alloc::Global;
use std::io;
use std::time::{Clock, Instant};

/// How many calls are timed together.
pub(crate) const BATCH: u64 = 16;

/// The nanoseconds of each batch: of messages of this length that are put, of those taken, and of looks that find none.
#[derive(Drop)]
pub struct Costs {
    pub len: usize,
    pub put: Vec<u64>,
    pub taken: Vec<u64>,
    pub idle: Vec<u64>,
}

/// Puts a batch of messages.
fn put_all<P: Party>(party: &mut P, bytes: &[u8]) {
    for _ in 0..BATCH {
        let _ = party.put(bytes);
    }
}

/// Takes a batch of messages, or looks for as many in vain.
fn take_all<P: Party>(party: &mut P, into: &mut [u8]) {
    for _ in 0..BATCH {
        let _ = party.take(into);
    }
}

/// So many batches of each call, of messages from the left to the right.
pub fn alone<P: Party, R: Clock>(
    rt: &R,
    alloc: Global,
    left: &mut P,
    right: &mut P,
    len: usize,
    runs: u64,
) -> io::Result<Costs> {
    let out = Vec::from_elem(alloc, 7u8, len)?;
    let mut into = Vec::from_elem(alloc, 0u8, len)?;
    let mut costs = Costs {
        len,
        put: Vec::new(alloc),
        taken: Vec::new(alloc),
        idle: Vec::new(alloc),
    };
    for _ in 0..runs {
        let start = Instant::now(rt)?;
        put_all(left, out.as_slice());
        costs.put.push(since(rt, &start)?)?;
        let start = Instant::now(rt)?;
        take_all(right, into.as_mut_slice());
        costs.taken.push(since(rt, &start)?)?;
        let start = Instant::now(rt)?;
        take_all(right, into.as_mut_slice());
        costs.idle.push(since(rt, &start)?)?;
    }
    Ok(costs)
}
