//! What all ranks do together, and what no rank may ask for.
use crate::parts::note;
use mini_mpi::{AtomicOp, Buf, Calls, Error, Failed, Num, Request, TAG_UB, World};
use std::alloc::Global;
use std::sync::Wait;

/// Numbers from 0, each times this one, as little-endian elements of 32 bits.
fn multiples(alloc: Global, count: u32, of: u32) -> Result<Vec<u8>, Error> {
    let mut bytes = Vec::new(alloc);
    for k in 0..count {
        bytes.extend_from_slice(&k.wrapping_mul(of).to_le_bytes())?;
    }
    Ok(bytes)
}

/// All ranks get the 10,000 bytes of rank 2.
fn broadcasts<R: Wait, E: Calls + Drop>(
    rt: &R,
    alloc: Global,
    world: &mut World<E>,
) -> Result<bool, Error> {
    let wanted = multiples(alloc, 2_500, 7)?;
    let mut bytes = multiples(alloc, 2_500, if world.rank() == 2 { 7 } else { 0 })?;
    world.bcast(rt, 2, bytes.as_mut_slice())?;
    Ok(bytes.as_slice() == wanted.as_slice())
}

/// The sums of three ranks' 2,500 elements: k + 2 k + 3 k.
fn reduces<R: Wait, E: Calls + Drop>(
    rt: &R,
    alloc: Global,
    world: &mut World<E>,
) -> Result<bool, Error> {
    let wanted = multiples(alloc, 2_500, 6)?;
    let mut bytes = multiples(alloc, 2_500, world.rank().wrapping_add(1))?;
    world.allreduce(rt, AtomicOp::Sum, Num::U32, bytes.as_mut_slice())?;
    Ok(bytes.as_slice() == wanted.as_slice())
}

/// All ranks get the 4 bytes of each, in order of ranks: those of a rank are its number times 5. There is no room for two.
fn gathers<R: Wait, E: Calls + Drop>(
    rt: &R,
    alloc: Global,
    world: &mut World<E>,
) -> Result<bool, Error> {
    let wanted = multiples(alloc, 3, 5)?;
    let own = world.rank().wrapping_mul(5).to_le_bytes();
    let mut all = [0u8; 12];
    world.allgather(rt, &own, &mut all)?;
    let short = world.allgather(rt, &own, &mut [0u8; 8]) == Err(Error::Count);
    Ok(all.as_slice() == wanted.as_slice() && short)
}

/// Whether a call was refused for this reason, with its buffer back.
fn is_refused(answer: &Result<Request, Failed>, wanted: Error) -> bool {
    match answer {
        Err(
            Failed {
                why,
                buf: Some(buf),
            },
        ) => *why == wanted && buf.as_slice() == b"back".as_slice(),
        _ => false,
    }
}

/// There is no rank 3, and no tag above the greatest one.
fn wrong_messages<E: Calls + Drop>(alloc: Global, world: &mut World<E>) -> Result<bool, Error> {
    let first = Buf::copy(alloc, b"back")?;
    let rank = world.isend(3, 0, first);
    let second = Buf::copy(alloc, b"back")?;
    let tag = world.irecv(None, Some(TAG_UB + 1), second);
    Ok(is_refused(&rank, Error::Rank) && is_refused(&tag, Error::Tag))
}

/// There is no root 3, and a compare and swap does not reduce.
fn wrong_arguments<R: Wait, E: Calls + Drop>(
    rt: &R,
    alloc: Global,
    world: &mut World<E>,
) -> Result<bool, Error> {
    let messages = wrong_messages(alloc, world)?;
    let mut bytes = [0u8; 8];
    let root = world.bcast(rt, 3, &mut bytes) == Err(Error::Root);
    let op = world.allreduce(rt, AtomicOp::Cswap, Num::U64, &mut bytes) == Err(Error::Op);
    Ok(messages && root && op)
}

/// Tries all, one after another.
pub fn try_all<R: Wait, E: Calls + Drop>(
    rt: &R,
    alloc: Global,
    world: &mut World<E>,
    passed: &mut Vec<bool>,
) -> Result<(), Error> {
    let outcome = broadcasts(rt, alloc, world)?;
    note(rt, world, passed, outcome)?;
    let outcome = reduces(rt, alloc, world)?;
    note(rt, world, passed, outcome)?;
    let outcome = gathers(rt, alloc, world)?;
    note(rt, world, passed, outcome)?;
    let outcome = wrong_arguments(rt, alloc, world)?;
    note(rt, world, passed, outcome)?;
    Ok(())
}
