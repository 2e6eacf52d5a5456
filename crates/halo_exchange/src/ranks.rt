//! What one rank does.
use crate::exchange::{exchange, sum_of_all};
use crate::grid::Block;
use mini_mpi::{Calls, EndpointOver, Error, World};
use std::alloc::Global;
use std::sync::Wait;

/// How many cells a side of a quarter has.
pub const SIDE: u64 = 32;

/// How many a side of the whole grid has.
pub const GRID_SIDE: u64 = 2 * SIDE;

/// How many steps are made.
pub const STEPS: u32 = 100;

/// After so many steps the ranks add up their checksums.
pub const BETWEEN_SUMS: u32 = 10;

/// What a rank has at the end: its quarter, and the checksums of the whole grid.
#[derive(Drop)]
pub struct Quarter {
    pub block: Block,
    pub sums: Vec<u64>,
}

/// Makes all steps of a quarter.
fn steps<R: Wait, E: Calls + Drop>(
    rt: &R,
    alloc: Global,
    world: &mut World<E>,
) -> Result<Quarter, Error> {
    let rank = u64::from(world.rank());
    let mut block = Block::first(alloc, rank % 2 * SIDE, rank / 2 * SIDE, SIDE)?;
    let mut sums = Vec::new(alloc);
    for step in 0..STEPS {
        let halo = exchange(rt, alloc, world, &block)?;
        block = block.next(alloc, &halo)?;
        if step % BETWEEN_SUMS == BETWEEN_SUMS - 1 {
            let sum = sum_of_all(rt, world, block.checksum())?;
            sums.push(sum)?;
        }
    }
    Ok(Quarter { block, sums })
}

/// Runs as the rank of this endpoint.
pub fn run<R: Wait, E: Calls + Drop>(
    rt: &R,
    alloc: Global,
    endpoint: EndpointOver<E>,
) -> Result<Quarter, Error> {
    let mut world = World::new(alloc, endpoint);
    let quarter = steps(rt, alloc, &mut world)?;
    world.finalize(rt)?;
    Ok(quarter)
}
