//! The calls that are tested, and what the tests say of them.
//!
//! Each call stands in a function of its own without a contract, over any endpoint that has it, so that a test carries no
//! clauses of the calls before.
use fab_base::{
    Access, AtomicOp, Buf, Class, Entry, ErrEntry, ErrKind, Fault, Flags, Level, Num, Refused,
};
use fab_face::calls::{Counters, Logs, Looks, Messages, Progress, Receives, Regions, Requests};
use fab_face::events::{Moved, Stop};
use std::alloc::Global;

const COMPLETES: Flags = Flags {
    completion: true,
    level: Level::Transmit,
    fence: false,
};

const FENCED: Flags = Flags {
    completion: true,
    level: Level::Transmit,
    fence: true,
};

const MATCHED: Flags = Flags {
    completion: true,
    level: Level::Match,
    fence: false,
};

/// How often two endpoints go on by turns: more than a message of 65,537 frames takes where 32 move at a time.
const ROUNDS: u32 = 2_100;

/// The calls that are tested.
pub trait Calls: Messages + Requests + Receives + Looks + Progress + Regions + Counters + Logs {}

impl<E: Messages + Requests + Receives + Looks + Progress + Regions + Counters + Logs> Calls
    for E {}

/// Sends so many bytes to peer 0. A refusal is told with the length of the buffer that it hands back.
pub fn send<E: Messages>(
    alloc: Global,
    endpoint: &mut E,
    len: u64,
    ctx: u64,
) -> Result<(), (Fault, usize)> {
    let Ok(message) = Buf::zeros(alloc, len) else {
        return Err((Fault::NoMemory, 0));
    };
    endpoint
        .send(0, message, None, ctx, COMPLETES)
        .map_err(|refused| (refused.why, refused.buf.as_slice().len()))
}

/// Sends so many bytes with a tag.
fn tagged<E: Messages>(
    alloc: Global,
    endpoint: &mut E,
    dest: u32,
    tag: u64,
    len: u64,
    ctx: u64,
    flags: Flags,
) -> Result<(), Fault> {
    let Ok(message) = Buf::zeros(alloc, len) else {
        return Err(Fault::NoMemory);
    };
    endpoint
        .tsend(dest, tag, message, None, ctx, flags)
        .map_err(|refused| refused.why)
}

/// Sends one byte to peer 1, behind all that was sent to it before (FI_FENCE).
pub fn fences<E: Messages>(alloc: Global, endpoint: &mut E, ctx: u64) -> Result<(), Fault> {
    tagged(alloc, endpoint, 1, 5, 1, ctx, FENCED)
}

/// Sends one byte to peer 1, to be told when it is matched.
pub fn asks<E: Messages>(alloc: Global, endpoint: &mut E, ctx: u64) -> Result<(), Fault> {
    tagged(alloc, endpoint, 1, 4, 1, ctx, MATCHED)
}

/// Sends so many bytes with the tag 3 to peer 0.
pub fn tsend<E: Messages>(
    alloc: Global,
    endpoint: &mut E,
    len: u64,
    ctx: u64,
) -> Result<(), Fault> {
    tagged(alloc, endpoint, 0, 3, len, ctx, COMPLETES)
}

/// How many operations are not transmitted, and how many await an answer.
pub fn under_way<E: Logs>(endpoint: &E) -> (u32, u32) {
    (endpoint.deferred(), endpoint.awaiting())
}

/// Empties the log of events.
pub fn clears<E: Logs>(endpoint: &mut E) {
    endpoint.log_clear();
}

/// Adds to the messages sent that succeeded.
pub fn adds<E: Counters>(endpoint: &mut E, n: u64) {
    endpoint.cntr_add(Class::Send, n);
}

/// How many messages were sent.
pub fn count_sent<E: Counters>(endpoint: &E) -> u64 {
    endpoint.cntr_read(Class::Send)
}

/// How many requests of other peers wrote here, and how many read.
pub fn served<E: Counters>(endpoint: &E) -> (u64, u64) {
    let written = endpoint.cntr_read(Class::RemoteWrite);
    (written, endpoint.cntr_read(Class::RemoteRead))
}

/// A message of so many bytes, none of which is a zero.
fn message(alloc: Global, len: u64) -> Option<Buf> {
    match vec![in alloc; b'x'; len as usize] {
        Ok(bytes) => Some(Buf::from_vec(bytes)),
        Err(_) => None,
    }
}

/// The reason of a refusal that hands these bytes back.
fn why_with(refused: Refused, bytes: &[u8]) -> Option<Fault> {
    if refused.buf.as_slice() == bytes {
        Some(refused.why)
    } else {
        None
    }
}

/// Why a message of so many bytes is refused. The buffer comes back with them.
pub fn refuses<E: Messages>(alloc: Global, endpoint: &mut E, len: u64, ctx: u64) -> Option<Fault> {
    let same = message(alloc, len)?;
    let given = message(alloc, len)?;
    match endpoint.send(0, given, None, ctx, COMPLETES) {
        Ok(()) => None,
        Err(refused) => why_with(refused, same.as_slice()),
    }
}

/// Sends a copy of so many bytes to peer 0.
pub fn injects<E: Messages>(alloc: Global, endpoint: &mut E, len: u64) -> Result<(), Fault> {
    let Ok(message) = Buf::zeros(alloc, len) else {
        return Err(Fault::NoMemory);
    };
    endpoint.inject(0, message.as_slice(), None)
}

/// A receive that completed.
#[derive(Clone, Copy, Drop, Eq, PartialEq)]
pub struct Came {
    pub ctx: u64,
    pub source: u32,
    pub len: u32,
}

fn came_of(entry: Entry) -> Option<Came> {
    match entry {
        Entry::Received {
            ctx,
            source,
            len,
            ..
        } => Some(Came { ctx, source, len }),
        _ => None,
    }
}

/// The next completion, if it is that of a receive.
pub fn next_came<E: Progress>(endpoint: &mut E) -> Option<Came> {
    came_of(endpoint.cq_read(8).ok()?)
}

fn sent_of(entry: Entry) -> Option<u64> {
    match entry {
        Entry::Sent { ctx, .. } => Some(ctx),
        _ => None,
    }
}

/// The context of the next completion, if it is that of a message that was sent.
pub fn sent<E: Progress>(endpoint: &mut E) -> Option<u64> {
    sent_of(endpoint.cq_pop().ok()?)
}

fn wrote_of(entry: Entry) -> Option<u64> {
    match entry {
        Entry::Wrote { ctx, .. } => Some(ctx),
        _ => None,
    }
}

/// The context of the next completion, if it is that of a write.
pub fn wrote<E: Progress>(endpoint: &mut E) -> Option<u64> {
    wrote_of(endpoint.cq_pop().ok()?)
}

fn brought_of(entry: Entry) -> Option<Buf> {
    match entry {
        Entry::Read { buf, .. } => Some(buf),
        Entry::Fetched { result, .. } => Some(result),
        _ => None,
    }
}

/// Whether the next completion is that of a read or a fetch which brought these bytes.
pub fn brings<E: Progress>(endpoint: &mut E, bytes: &[u8]) -> bool {
    let Ok(entry) = endpoint.cq_read(8) else {
        return false;
    };
    brought_of(entry).is_some_and(|buf| buf.as_slice() == bytes)
}

/// Whether a receive of so many bytes is posted.
pub fn receives<E: Receives>(
    alloc: Global,
    endpoint: &mut E,
    source: Option<u32>,
    len: u64,
    ctx: u64,
) -> bool {
    let Ok(buf) = Buf::zeros(alloc, len) else {
        return false;
    };
    endpoint.recv(source, buf, ctx).is_ok()
}

/// Whether a receive of so many bytes with this tag is posted.
pub fn treceives<E: Receives>(
    alloc: Global,
    endpoint: &mut E,
    tag: u64,
    len: u64,
    ctx: u64,
) -> bool {
    let Ok(buf) = Buf::zeros(alloc, len) else {
        return false;
    };
    endpoint.trecv(None, tag, 0, buf, ctx).is_ok()
}

fn cut_of(error: ErrEntry) -> Option<(u32, u32)> {
    match error.kind {
        ErrKind::Truncated => Some((error.len, error.olen)),
        _ => None,
    }
}

/// How many bytes were placed and how many cut off, if the next completion is that of a message which was too long.
pub fn cut<E: Progress>(endpoint: &mut E) -> Option<(u32, u32)> {
    cut_of(endpoint.cq_readerr().ok()?)
}

/// Whether two endpoints go on by turns, as often as the longest message takes.
pub fn carries<E: Progress>(one: &mut E, other: &mut E) -> bool {
    let mut all = true;
    for _ in 0..ROUNDS {
        let first = one.progress(64).is_ok();
        let second = other.progress(64).is_ok();
        all = all && first && second;
    }
    all
}

/// Whether progress takes and posts so many frames, and ends so.
pub fn moves<E: Progress>(
    endpoint: &mut E,
    budget: u32,
    taken: u32,
    posted: u32,
    stop: Stop,
) -> bool {
    let moved = Moved {
        taken,
        posted,
        stop,
    };
    endpoint.progress(budget) == Ok(moved)
}

/// Why a receive is not cancelled.
pub fn cancels<E: Receives>(endpoint: &mut E, ctx: u64) -> Result<(), Fault> {
    endpoint.cancel(ctx)
}

/// Looks for a message with this tag.
pub fn looks<E: Looks>(endpoint: &mut E, tag: u64, ctx: u64) -> Result<(), Fault> {
    endpoint.peek(None, tag, 0, ctx)
}

/// Why no completion is popped.
pub fn pops_not<E: Progress>(endpoint: &mut E) -> Option<Fault> {
    endpoint.cq_pop().err()
}

/// The context of a look that found no message.
fn missed_by(error: ErrEntry) -> Option<u64> {
    match error.kind {
        ErrKind::NoMsg => error.ctx,
        _ => None,
    }
}

/// The context of the next completion, if it is that of a look that found no message.
pub fn missed<E: Progress>(endpoint: &mut E) -> Option<u64> {
    missed_by(endpoint.cq_readerr().ok()?)
}

/// Whether a region of these bytes is registered, which others may read and write.
pub fn registers<E: Regions>(alloc: Global, endpoint: &mut E, key: u64, bytes: &[u8]) -> bool {
    let Ok(buf) = Buf::copy(alloc, bytes) else {
        return false;
    };
    let access = Access {
        remote_read: true,
        remote_write: true,
    };
    endpoint.reg(key, access, buf).is_ok()
}

/// Whether the region has these bytes.
pub fn has<E: Regions>(endpoint: &E, key: u64, bytes: &[u8]) -> bool {
    endpoint.region_bytes(key) == Some(bytes)
}

/// Why a region is not closed.
pub fn closes_not<E: Regions>(endpoint: &mut E, key: u64) -> Option<Fault> {
    endpoint.close_region(key).err()
}

/// Whether a write into a region of peer 1 is accepted.
pub fn writes<E: Requests>(endpoint: &mut E, key: u64, at: u64, bytes: &[u8]) -> bool {
    endpoint.inject_write(1, key, at, bytes, None).is_ok()
}

/// Whether a read of a region of peer 1 is accepted.
pub fn reads<E: Requests>(alloc: Global, endpoint: &mut E, key: u64, at: u64, len: u64) -> bool {
    let Ok(buf) = Buf::zeros(alloc, len) else {
        return false;
    };
    endpoint.read(1, key, at, buf, 1).is_ok()
}

/// Whether a write of one byte into a region of a peer is accepted, behind all that was asked of it before or not.
pub fn puts<E: Requests>(
    alloc: Global,
    endpoint: &mut E,
    dest: u32,
    ctx: u64,
    fence: bool,
) -> bool {
    let Ok(buf) = Buf::zeros(alloc, 1) else {
        return false;
    };
    let flags = if fence { FENCED } else { COMPLETES };
    endpoint.write(dest, 9, 0, buf, None, ctx, flags).is_ok()
}

/// Whether a fetch of the first byte of a region of peer 1 is accepted.
pub fn fetches<E: Requests>(alloc: Global, endpoint: &mut E, key: u64) -> bool {
    let Ok(buf) = Buf::zeros(alloc, 1) else {
        return false;
    };
    endpoint
        .fetch_atomic(1, key, 0, AtomicOp::AtomicRead, Num::U8, &[], buf, 1)
        .is_ok()
}
