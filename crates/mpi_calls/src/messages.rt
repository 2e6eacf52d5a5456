//! Messages between single ranks.
use crate::parts::{comes, note, receive, send};
use mini_mpi::{ANY_SOURCE, ANY_TAG, Buf, Calls, Completed, Error, Failed, Status, World};
use std::alloc::Global;
use std::sync::Wait;

/// The rank that sent this, if it is a message that says so thrice: by its source, its tag and its bytes.
fn sender_of(completed: &Completed) -> Option<u32> {
    let source = completed.status.source?;
    let says = completed.buf.as_slice() == source.to_le_bytes().as_slice();
    if says && completed.status.tag == Some(source) {
        Some(source)
    } else {
        None
    }
}

/// Rank 0 takes what the others send, whoever comes first.
fn any_source_and_any_tag<R: Wait, E: Calls + Drop>(
    rt: &R,
    alloc: Global,
    world: &mut World<E>,
) -> Result<bool, Error> {
    let rank = world.rank();
    if rank != 0 {
        send(rt, alloc, world, 0, rank, &rank.to_le_bytes())?;
        return Ok(true);
    }
    let one = receive(rt, alloc, world, ANY_SOURCE, ANY_TAG, 4)?;
    let other = receive(rt, alloc, world, ANY_SOURCE, ANY_TAG, 4)?;
    Ok(matches!(
        (sender_of(&one), sender_of(&other)),
        (Some(1), Some(2)) | (Some(2), Some(1))
    ))
}

/// Rank 1 sends three messages before rank 0 receives any.
fn unexpected<R: Wait, E: Calls + Drop>(
    rt: &R,
    alloc: Global,
    world: &mut World<E>,
) -> Result<bool, Error> {
    if world.rank() == 1 {
        send(rt, alloc, world, 0, 5, b"first")?;
        send(rt, alloc, world, 0, 6, b"other")?;
        send(rt, alloc, world, 0, 5, b"again")?;
    }
    world.barrier(rt)?;
    if world.rank() != 0 {
        return Ok(true);
    }
    let other = comes(rt, alloc, world, (Some(1), Some(6)), 1, 6, b"other")?;
    let first = comes(rt, alloc, world, (Some(1), ANY_TAG), 1, 5, b"first")?;
    let again = comes(rt, alloc, world, (ANY_SOURCE, Some(5)), 1, 5, b"again")?;
    Ok(other && first && again)
}

/// Each rank sends a message to itself, which no receive of another takes.
fn to_oneself<R: Wait, E: Calls + Drop>(
    rt: &R,
    alloc: Global,
    world: &mut World<E>,
) -> Result<bool, Error> {
    let rank = world.rank();
    send(rt, alloc, world, rank, 9, &rank.to_le_bytes())?;
    comes(
        rt,
        alloc,
        world,
        (Some(rank), Some(9)),
        rank,
        9,
        &rank.to_le_bytes(),
    )
}

/// Whether a receive failed because the message was too long, and its buffer came back full.
fn is_truncated(received: &Result<Completed, Failed>) -> bool {
    match received {
        Err(
            Failed {
                why: Error::Truncate,
                buf: Some(buf),
            },
        ) => buf.as_slice() == b"long".as_slice(),
        _ => false,
    }
}

/// Rank 1 sends a message that is longer than the buffer, and then one that is not.
fn too_long<R: Wait, E: Calls + Drop>(
    rt: &R,
    alloc: Global,
    world: &mut World<E>,
) -> Result<bool, Error> {
    match world.rank() {
        0 => {
            let long = receive(rt, alloc, world, Some(1), Some(7), 4);
            let next = comes(rt, alloc, world, (Some(1), Some(7)), 1, 7, b"next")?;
            Ok(is_truncated(&long) && next)
        }
        1 => {
            send(rt, alloc, world, 0, 7, b"longer than four")?;
            send(rt, alloc, world, 0, 7, b"next")?;
            Ok(true)
        }
        _ => Ok(true),
    }
}

/// Whether a probe of rank 0 finds exactly this.
fn finds<R: Wait, E: Calls + Drop>(
    rt: &R,
    world: &mut World<E>,
    wanted: Option<Status>,
) -> Result<bool, Error> {
    world.barrier(rt)?;
    if world.rank() != 0 {
        return Ok(true);
    }
    let found = world.iprobe(Some(1), ANY_TAG)?;
    Ok(found == wanted)
}

/// Rank 0 probes before there is a message of rank 1, twice while it is there, and after it was received.
fn probes<R: Wait, E: Calls + Drop>(
    rt: &R,
    alloc: Global,
    world: &mut World<E>,
) -> Result<bool, Error> {
    let there = Some(Status {
        source: Some(1),
        tag: Some(8),
        len: 3,
    });
    let before = finds(rt, world, None)?;
    world.barrier(rt)?;
    if world.rank() == 1 {
        send(rt, alloc, world, 0, 8, b"abc")?;
    }
    let once = finds(rt, world, there)?;
    let twice = finds(rt, world, there)?;
    let came = world.rank() != 0 || comes(rt, alloc, world, (Some(1), Some(8)), 1, 8, b"abc")?;
    let after = finds(rt, world, None)?;
    Ok(before && once && twice && came && after)
}

/// Waits until a message of rank 1 with this tag is there.
fn await_message<R: Wait, E: Calls + Drop>(
    rt: &R,
    world: &mut World<E>,
    tag: u32,
) -> Result<(), Error> {
    for _ in rt.forever() {
        if world.iprobe(Some(1), Some(tag))?.is_some() {
            break;
        }
    }
    Ok(())
}

/// Whether no message of rank 1 with this tag comes, however often it is looked for.
fn stays_away<E: Calls + Drop>(world: &mut World<E>, tag: u32) -> Result<bool, Error> {
    for _ in 0..2_000 {
        if world.iprobe(Some(1), Some(tag))?.is_some() {
            return Ok(false);
        }
        std::thread::yield_now();
    }
    Ok(true)
}

/// Rank 1 tells by another message that its send is complete. It does not before rank 0 received what was sent.
fn waits_for_its_receive<R: Wait, E: Calls + Drop>(
    rt: &R,
    alloc: Global,
    world: &mut World<E>,
) -> Result<bool, Error> {
    match world.rank() {
        0 => {
            await_message(rt, world, 20)?;
            let away = stays_away(world, 21)?;
            let came = comes(rt, alloc, world, (Some(1), Some(20)), 1, 20, b"ssend")?;
            let told = comes(rt, alloc, world, (Some(1), Some(21)), 1, 21, b"taken")?;
            Ok(away && came && told)
        }
        1 => {
            let buf = Buf::copy(alloc, b"ssend")?;
            let back = world.ssend(rt, 0, 20, buf)?;
            send(rt, alloc, world, 0, 21, b"taken")?;
            Ok(back.as_slice() == b"ssend".as_slice())
        }
        _ => Ok(true),
    }
}

/// Tries all, one after another.
pub fn try_all<R: Wait, E: Calls + Drop>(
    rt: &R,
    alloc: Global,
    world: &mut World<E>,
    passed: &mut Vec<bool>,
) -> Result<(), Error> {
    let outcome = any_source_and_any_tag(rt, alloc, world)?;
    note(rt, world, passed, outcome)?;
    let outcome = unexpected(rt, alloc, world)?;
    note(rt, world, passed, outcome)?;
    let outcome = to_oneself(rt, alloc, world)?;
    note(rt, world, passed, outcome)?;
    let outcome = too_long(rt, alloc, world)?;
    note(rt, world, passed, outcome)?;
    let outcome = probes(rt, alloc, world)?;
    note(rt, world, passed, outcome)?;
    let outcome = waits_for_its_receive(rt, alloc, world)?;
    note(rt, world, passed, outcome)?;
    Ok(())
}
