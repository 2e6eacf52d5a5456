//! A send and a receive from begin to end.
use mini_mpi::{Buf, Calls, Completed, Error, Failed, Status, World};
use std::alloc::Global;
use std::sync::Wait;

/// Sends these bytes.
pub fn send<R: Wait, E: Calls + Drop>(
    rt: &R,
    alloc: Global,
    world: &mut World<E>,
    dest: u32,
    tag: u32,
    bytes: &[u8],
) -> Result<(), Error> {
    let buf = Buf::copy(alloc, bytes)?;
    let request = world.isend(dest, tag, buf)?;
    world.wait(rt, request)?;
    Ok(())
}

/// Receives at most so many bytes.
pub fn receive<R: Wait, E: Calls + Drop>(
    rt: &R,
    alloc: Global,
    world: &mut World<E>,
    source: Option<u32>,
    tag: Option<u32>,
    len: u64,
) -> Result<Completed, Failed> {
    let Ok(buf) = Buf::zeros(alloc, len) else {
        return Err(Failed {
            why: Error::NoMem,
            buf: None,
        });
    };
    let request = world.irecv(source, tag, buf)?;
    world.wait(rt, request)
}

/// Whether a message of this source and tag came with these bytes.
pub fn is(completed: &Completed, source: u32, tag: u32, bytes: &[u8]) -> bool {
    let Ok(len) = u32::try_from(bytes.len()) else {
        return false;
    };
    let wanted = Status {
        source: Some(source),
        tag: Some(tag),
        len,
    };
    completed.status == wanted && completed.buf.as_slice().starts_with(bytes)
}

/// Receives a message of at most 16 bytes, and tells whether it is of this source and tag, with these bytes.
pub fn comes<R: Wait, E: Calls + Drop>(
    rt: &R,
    alloc: Global,
    world: &mut World<E>,
    wanted: (Option<u32>, Option<u32>),
    source: u32,
    tag: u32,
    bytes: &[u8],
) -> Result<bool, Error> {
    let (from, under) = wanted;
    let completed = receive(rt, alloc, world, from, under, 16)?;
    Ok(is(&completed, source, tag, bytes))
}

/// Notes how a try came out, once all ranks have made it: none begins the next one while another is still at this.
pub fn note<R: Wait, E: Calls + Drop>(
    rt: &R,
    world: &mut World<E>,
    passed: &mut Vec<bool>,
    outcome: bool,
) -> Result<(), Error> {
    world.barrier(rt)?;
    passed.push(outcome)?;
    Ok(())
}
