//! Four ranks step a grid of 64 by 64 cells 100 times, each a quarter of it in a thread of its own, and exchange the edges of
//! their quarters by messages. What comes out is compared with what one thread computes alone.
//!
//! The grid is a torus, and all arithmetic wraps. What a rank does is written over any endpoint.
#![tactic(auto)]

mod alone;
mod exchange;
mod grid;
mod ranks;

use alone::alone;
use mini_mpi::{Calls, EndpointOver, Error, Hints, open};
use ranks::{Quarter, run};
use std::alloc::Global;
use std::sync::Wait;
use std::thread::{self, Threads};

/// What a rank came to.
type Ran = Result<Quarter, Error>;

/// Lets each rank run in a thread of its own, and gives what they came to in order of ranks.
fn all_ranks<R: Threads + Wait + Sync, E: Calls + Drop + Send>(
    rt: &R,
    alloc: Global,
    endpoints: Vec<EndpointOver<E>>,
) -> Result<Vec<Ran>, Error> {
    let all = thread::map_vec(rt, endpoints, &|endpoint| run(rt, alloc, endpoint))?;
    Ok(all)
}

/// How many cells of a quarter, or checksums that its rank was told, are not those of the whole grid.
fn differing(whole: &Quarter, ran: &Ran) -> Result<u64, Error> {
    match ran {
        Ok(quarter) => {
            let cells = whole.block.differing(&quarter.block);
            let same = whole.sums.as_slice() == quarter.sums.as_slice();
            Ok(cells.saturating_add(u64::from(!same)))
        }
        Err(why) => Err(*why),
    }
}

/// How many differ in all quarters.
fn all_differing(whole: &Quarter, all: &[Ran]) -> Result<u64, Error> {
    let mut count = 0u64;
    for ran in all {
        count = count.saturating_add(differing(whole, ran)?);
    }
    Ok(count)
}

/// Computes the grid both ways, and gives its last checksum and how many cells differ.
fn both<R: Threads + Wait + Sync, E: Calls + Drop + Send>(
    rt: &R,
    alloc: Global,
    endpoints: Vec<EndpointOver<E>>,
) -> Result<(u64, u64), Error> {
    let whole = alone(alloc)?;
    let all = all_ranks(rt, alloc, endpoints)?;
    let count = all_differing(&whole, &all)?;
    let checksum = whole.sums.last().copied().unwrap_or(0);
    Ok((checksum, count))
}

fn main(rt: HostRuntime) -> std::io::Result<()> {
    let compared = match open(rt.alloc(), &Hints::new().peers(4)) {
        Ok(domain) => both(&rt, rt.alloc(), domain.endpoints),
        Err(fault) => Err(Error::from(fault)),
    };
    match compared {
        Ok((checksum, 0)) => println!(rt; "checksum {checksum:016x}, equal"),
        Ok((checksum, count)) => println!(rt; "checksum {checksum:016x}, but {count} differ"),
        Err(why) => println!(rt; "failed: {why:?}"),
    }
}
