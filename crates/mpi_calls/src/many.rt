//! More messages than an endpoint has room for, whose calls return at once; and a rank that is late.
use crate::parts::{comes, is, note, send};
use mini_mpi::{ANY_SOURCE, ANY_TAG, Buf, Calls, Completed, Error, Failed, Request, World};
use std::alloc::Global;
use std::sync::Wait;

/// So many messages each rank sends to the next one, and receives of the one before.
const MANY: u32 = 1_000;

/// More than an endpoint has room for, whose sizes are those that are granted to who asks for none: 256 receives.
const MORE: u32 = 300;

/// So many tags they have, in turn.
const TAGS: u32 = 7;

/// Tags of single messages: a question and its answer, one that is longer than its buffer and those behind it, and that of who is late.
const ASKS: u32 = 30;

const TELLS: u32 = 31;

const LONG: u32 = 40;

const BEHIND: u32 = 41;

const LATE: u32 = 50;

/// So often who is late lets others run before it comes.
const PAUSES: u32 = 200;

/// Begins the receives of so many messages of a rank.
fn expect_many<E: Calls + Drop>(
    alloc: Global,
    world: &mut World<E>,
    source: u32,
    count: u32,
    requests: &mut Vec<Request>,
) -> Result<(), Error> {
    for k in 0..count {
        let buf = Buf::zeros(alloc, 4)?;
        let request = world.irecv(Some(source), Some(k % TAGS), buf)?;
        requests.push(request)?;
    }
    Ok(())
}

/// Begins the sends of so many messages to a rank: each has its number.
fn give_many<E: Calls + Drop>(
    alloc: Global,
    world: &mut World<E>,
    dest: u32,
    count: u32,
    requests: &mut Vec<Request>,
) -> Result<(), Error> {
    for k in 0..count {
        let buf = Buf::copy(alloc, &k.to_le_bytes())?;
        let request = world.isend(dest, k % TAGS, buf)?;
        requests.push(request)?;
    }
    Ok(())
}

/// Whether so many receives got each the message that has its number.
fn are_in_order(received: &[Completed], source: u32, count: u32) -> bool {
    let mut good = received.len() == count as usize;
    let mut k = 0u32;
    for completed in received {
        good = good && is(completed, source, k % TAGS, &k.to_le_bytes());
        k = k.wrapping_add(1);
    }
    good
}

/// The rank behind this one, in a circle.
fn after(rank: u32, size: u32) -> u32 {
    let next = rank.wrapping_add(1);
    if next < size { next } else { 0 }
}

/// The rank before this one, in a circle.
fn before(rank: u32, size: u32) -> u32 {
    if rank > 0 {
        rank - 1
    } else {
        size.saturating_sub(1)
    }
}

/// All receives of a rank are begun before its sends, or all its sends before its receives. None of these calls waits.
fn many<R: Wait, E: Calls + Drop>(
    rt: &R,
    alloc: Global,
    world: &mut World<E>,
    receives_first: bool,
) -> Result<bool, Error> {
    let next = after(world.rank(), world.size());
    let last = before(world.rank(), world.size());
    let mut receives = Vec::new(alloc);
    let mut sends = Vec::new(alloc);
    if receives_first {
        expect_many(alloc, world, last, MANY, &mut receives)?;
    }
    give_many(alloc, world, next, MANY, &mut sends)?;
    if !receives_first {
        expect_many(alloc, world, last, MANY, &mut receives)?;
    }
    let received = world.waitall(rt, receives)?;
    world.waitall(rt, sends)?;
    Ok(are_in_order(&received, last, MANY))
}

/// Rank 0 waits for a message behind as many receives as there is room for, and more, whose messages rank 1 sends only once it has the
/// answer.
fn behind_others<R: Wait, E: Calls + Drop>(
    rt: &R,
    alloc: Global,
    world: &mut World<E>,
) -> Result<bool, Error> {
    match world.rank() {
        0 => {
            let mut receives = Vec::new(alloc);
            expect_many(alloc, world, 1, MORE, &mut receives)?;
            let asked = comes(rt, alloc, world, (Some(1), Some(ASKS)), 1, ASKS, b"asks")?;
            send(rt, alloc, world, 1, TELLS, b"told")?;
            let received = world.waitall(rt, receives)?;
            Ok(asked && are_in_order(&received, 1, MORE))
        }
        1 => {
            let mut sends = Vec::new(alloc);
            send(rt, alloc, world, 0, ASKS, b"asks")?;
            let told = comes(rt, alloc, world, (Some(0), Some(TELLS)), 0, TELLS, b"told")?;
            give_many(alloc, world, 0, MORE, &mut sends)?;
            world.waitall(rt, sends)?;
            Ok(told)
        }
        _ => Ok(true),
    }
}

/// Whether no message of rank 1 is shown to a probe of rank 0 which receives that wait for room take.
fn hides_what_is_asked_for<R: Wait, E: Calls + Drop>(
    rt: &R,
    alloc: Global,
    world: &mut World<E>,
) -> Result<bool, Error> {
    let mut receives = Vec::new(alloc);
    let mut sends = Vec::new(alloc);
    if world.rank() == 0 {
        expect_many(alloc, world, 1, MORE, &mut receives)?;
    }
    world.barrier(rt)?;
    if world.rank() == 1 {
        give_many(alloc, world, 0, MORE, &mut sends)?;
        world.waitall(rt, sends)?;
    }
    world.barrier(rt)?;
    if world.rank() != 0 {
        return Ok(true);
    }
    let shown = world.iprobe(ANY_SOURCE, ANY_TAG)?.is_some();
    let received = world.waitall(rt, receives)?;
    Ok(!shown && are_in_order(&received, 1, MORE))
}

/// Whether all failed by their first, and the receive behind it took its message: another one asks for it in vain.
fn ends_all<R: Wait, E: Calls + Drop>(
    rt: &R,
    alloc: Global,
    world: &mut World<E>,
) -> Result<bool, Error> {
    if world.rank() == 1 {
        send(rt, alloc, world, 0, LONG, b"longer than four")?;
        send(rt, alloc, world, 0, BEHIND, b"mine")?;
        send(rt, alloc, world, 0, BEHIND, b"next")?;
    }
    if world.rank() != 0 {
        return Ok(true);
    }
    let mut requests = Vec::new(alloc);
    let short = Buf::zeros(alloc, 4)?;
    let first = world.irecv(Some(1), Some(LONG), short)?;
    requests.push(first)?;
    let room = Buf::zeros(alloc, 4)?;
    let other = world.irecv(Some(1), Some(BEHIND), room)?;
    requests.push(other)?;
    let failed = matches!(
        world.waitall(rt, requests),
        Err(Failed {
            why: Error::Truncate,
            ..
        },)
    );
    let next = comes(
        rt,
        alloc,
        world,
        (Some(1), Some(BEHIND)),
        1,
        BEHIND,
        b"next",
    )?;
    Ok(failed && next)
}

/// Whether no rank passes a barrier before this one has come: it comes late, and sends a message before.
fn is_late<R: Wait, E: Calls + Drop>(
    rt: &R,
    alloc: Global,
    world: &mut World<E>,
    late: u32,
) -> Result<bool, Error> {
    let rank = world.rank();
    if rank == late {
        for _turn in 0..PAUSES {
            std::thread::yield_now();
        }
        for other in 0..world.size() {
            if other != late {
                send(rt, alloc, world, other, LATE, b"late")?;
            }
        }
    }
    world.barrier(rt)?;
    if rank == late {
        return Ok(true);
    }
    let came = world.iprobe(Some(late), Some(LATE))?.is_some();
    let right = comes(
        rt,
        alloc,
        world,
        (Some(late), Some(LATE)),
        late,
        LATE,
        b"late",
    )?;
    Ok(came && right)
}

/// Each rank in turn is late at a barrier.
fn each_is_late<R: Wait, E: Calls + Drop>(
    rt: &R,
    alloc: Global,
    world: &mut World<E>,
) -> Result<bool, Error> {
    let mut good = true;
    for late in 0..world.size() {
        let waited = is_late(rt, alloc, world, late)?;
        good = good && waited;
        world.barrier(rt)?;
    }
    Ok(good)
}

/// Tries all, one after another.
pub fn try_all<R: Wait, E: Calls + Drop>(
    rt: &R,
    alloc: Global,
    world: &mut World<E>,
    passed: &mut Vec<bool>,
) -> Result<(), Error> {
    let outcome = many(rt, alloc, world, true)?;
    note(rt, world, passed, outcome)?;
    let outcome = many(rt, alloc, world, false)?;
    note(rt, world, passed, outcome)?;
    let outcome = behind_others(rt, alloc, world)?;
    note(rt, world, passed, outcome)?;
    let outcome = hides_what_is_asked_for(rt, alloc, world)?;
    note(rt, world, passed, outcome)?;
    let outcome = ends_all(rt, alloc, world)?;
    note(rt, world, passed, outcome)?;
    let outcome = each_is_late(rt, alloc, world)?;
    note(rt, world, passed, outcome)?;
    Ok(())
}
