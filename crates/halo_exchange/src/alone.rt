//! The whole grid, computed by one thread.
use crate::grid::{Block, Halo};
use crate::ranks::{BETWEEN_SUMS, GRID_SIDE, Quarter, STEPS};
use std::alloc::{AllocError, Global};

/// The cells around the whole grid are those of its other side.
fn around(alloc: Global, block: &Block) -> Result<Halo, AllocError> {
    let north = Vec::from_slice(alloc, block.south())?;
    let south = Vec::from_slice(alloc, block.north())?;
    let west = block.east(alloc)?;
    let east = block.west(alloc)?;
    Ok(Halo {
        north,
        south,
        west,
        east,
    })
}

/// Makes all steps of the whole grid.
pub fn alone(alloc: Global) -> Result<Quarter, AllocError> {
    let mut block = Block::first(alloc, 0, 0, GRID_SIDE)?;
    let mut sums = Vec::new(alloc);
    for step in 0..STEPS {
        let halo = around(alloc, &block)?;
        block = block.next(alloc, &halo)?;
        if step % BETWEEN_SUMS == BETWEEN_SUMS - 1 {
            sums.push(block.checksum())?;
        }
    }
    Ok(Quarter { block, sums })
}
