//! The exchange of edges between the ranks of a grid of two by two, and the sum of what each has.
use crate::grid::{Block, Halo};
use mini_mpi::{AtomicOp, Buf, Calls, Completed, Error, Num, Request, World};
use std::alloc::{AllocError, Global};
use std::sync::Wait;

/// The tag of a message that has the sender's northern edge.
const NORTH: u32 = 0;

/// The tag of its southern one.
const SOUTH: u32 = 1;

/// The tag of its western one.
const WEST: u32 = 2;

/// The tag of its eastern one.
const EAST: u32 = 3;

/// How many bytes an edge has.
const EDGE_BYTES: u64 = 8 * crate::ranks::SIDE;

/// The cells as bytes.
fn bytes_of(alloc: Global, cells: &[u64]) -> Result<Buf, AllocError> {
    let mut bytes = Vec::new(alloc);
    for cell in cells {
        bytes.extend_from_slice(&cell.to_le_bytes())?;
    }
    Ok(Buf::from_vec(bytes))
}

/// The bytes as cells.
fn cells_of(alloc: Global, bytes: &[u8]) -> Result<Vec<u64>, AllocError> {
    let mut cells = Vec::new(alloc);
    for cell in bytes.chunks_exact(8) {
        if let Some(cell) = cell.as_array() {
            cells.push(u64::from_le_bytes(*cell))?;
        }
    }
    Ok(cells)
}

/// Begins the receive of an edge.
fn expect<E: Calls + Drop>(
    alloc: Global,
    world: &mut World<E>,
    from: u32,
    tag: u32,
    requests: &mut Vec<Request>,
) -> Result<(), Error> {
    let buf = Buf::zeros(alloc, EDGE_BYTES)?;
    let request = world.irecv(Some(from), Some(tag), buf)?;
    requests.push(request)?;
    Ok(())
}

/// Begins the send of an edge.
fn give<E: Calls + Drop>(
    alloc: Global,
    world: &mut World<E>,
    to: u32,
    tag: u32,
    edge: &[u64],
    requests: &mut Vec<Request>,
) -> Result<(), Error> {
    let buf = bytes_of(alloc, edge)?;
    let request = world.isend(to, tag, buf)?;
    requests.push(request)?;
    Ok(())
}

/// Begins the receives of the four edges around a block: to the north of it comes the southern edge of the rank there.
fn expect_all<E: Calls + Drop>(
    alloc: Global,
    world: &mut World<E>,
    requests: &mut Vec<Request>,
) -> Result<(), Error> {
    let beside = world.rank() ^ 1;
    let across = world.rank() ^ 2;
    expect(alloc, world, across, SOUTH, requests)?;
    expect(alloc, world, across, NORTH, requests)?;
    expect(alloc, world, beside, EAST, requests)?;
    expect(alloc, world, beside, WEST, requests)
}

/// Begins the sends of the four edges of a block.
fn give_all<E: Calls + Drop>(
    alloc: Global,
    world: &mut World<E>,
    block: &Block,
    requests: &mut Vec<Request>,
) -> Result<(), Error> {
    let beside = world.rank() ^ 1;
    let across = world.rank() ^ 2;
    let west = block.west(alloc)?;
    let east = block.east(alloc)?;
    give(alloc, world, across, NORTH, block.north(), requests)?;
    give(alloc, world, across, SOUTH, block.south(), requests)?;
    give(alloc, world, beside, WEST, &west, requests)?;
    give(alloc, world, beside, EAST, &east, requests)
}

/// The cells around a block, by the four receives, which were begun first.
fn halo_of(alloc: Global, completed: &[Completed]) -> Result<Halo, Error> {
    let [north, south, west, east, ..] = completed else {
        return Err(Error::Other);
    };
    let north = cells_of(alloc, north.buf.as_slice())?;
    let south = cells_of(alloc, south.buf.as_slice())?;
    let west = cells_of(alloc, west.buf.as_slice())?;
    let east = cells_of(alloc, east.buf.as_slice())?;
    Ok(Halo {
        north,
        south,
        west,
        east,
    })
}

/// Exchanges edges with the ranks around, and gives the cells around the block.
pub fn exchange<R: Wait, E: Calls + Drop>(
    rt: &R,
    alloc: Global,
    world: &mut World<E>,
    block: &Block,
) -> Result<Halo, Error> {
    let mut requests = Vec::new(alloc);
    expect_all(alloc, world, &mut requests)?;
    give_all(alloc, world, block, &mut requests)?;
    let completed = world.waitall(rt, requests)?;
    halo_of(alloc, &completed)
}

/// The sum over all ranks.
pub fn sum_of_all<R: Wait, E: Calls + Drop>(
    rt: &R,
    world: &mut World<E>,
    own: u64,
) -> Result<u64, Error> {
    let mut bytes = own.to_le_bytes();
    world.allreduce(rt, AtomicOp::Sum, Num::U64, &mut bytes)?;
    Ok(u64::from_le_bytes(bytes))
}
