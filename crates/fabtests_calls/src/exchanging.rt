//! What two threads exchange, and what both of them use. Each exchange ends: a peer that waits gives up after so many looks.
use crate::pings::ping_pong;
use crate::windows::{sinks, streams};
use fabric::{Buf, Calls, EndpointOver, Entry, Polled};
use std::alloc::Global;
use std::thread::{Threads, join};

/// How often a peer that waits looks, or makes a call again, with other threads between.
pub(crate) const PATIENCE: u32 = 1_000_000;

/// How often a peer that waits looks besides, before other threads run.
const SPINS: u32 = 8;

/// What a peer found: all holds, or the check that fails.
pub(crate) type Verdict = Result<(), &'static str>;

/// Whether a check holds.
pub(crate) fn check(holds: bool, what: &'static str) -> Verdict {
    if holds { Ok(()) } else { Err(what) }
}

/// What two threads exchange: untagged messages, tagged ones, untagged ones told by counters, or windows.
#[derive(Clone, Copy, Drop, Eq, PartialEq)]
pub enum Exchange {
    Plain,
    Tagged,
    Counted,
    Windows,
}

/// A message that was sent, or one that came: its context, whether it is tagged or its tag, its length, and its buffer.
#[derive(Drop)]
pub(crate) enum Done {
    Sent(u64, bool, Buf),
    Came(u64, Option<u64>, u32, Buf),
}

fn done_by(entry: Entry) -> Option<Done> {
    match entry {
        Entry::Sent { ctx, tagged, buf } => Some(Done::Sent(ctx, tagged, buf)),
        Entry::Received {
            ctx,
            tag,
            len,
            buf,
            ..
        } => Some(Done::Came(ctx, tag, len, buf)),
        _ => None,
    }
}

/// The next message that was sent or came, if no other completion comes.
pub(crate) fn waits<E: Calls + Drop>(endpoint: &mut EndpointOver<E>) -> Option<Done> {
    match endpoint.wait_turns(PATIENCE, SPINS) {
        Ok(Polled::Entry(entry)) => done_by(entry),
        _ => None,
    }
}

/// Whether all that was sent goes out.
pub(crate) fn goes_out<E: Calls + Drop>(endpoint: &mut EndpointOver<E>) -> bool {
    endpoint.flush(PATIENCE) == Ok(true)
}

/// What one of the two peers does.
fn takes_part<E: Calls + Drop>(
    alloc: Global,
    endpoint: EndpointOver<E>,
    other: u32,
    exchange: Exchange,
) -> Verdict {
    let mut endpoint = endpoint;
    match (exchange, other) {
        (Exchange::Windows, 1) => streams(alloc, &mut endpoint),
        (Exchange::Windows, _) => sinks(alloc, &mut endpoint),
        _ => ping_pong(alloc, &mut endpoint, other, exchange),
    }
}

/// Lets two peers exchange, each in a thread of its own.
pub fn exchanges<R: Threads + Sync, E: Calls + Drop + Send>(
    rt: &R,
    alloc: Global,
    exchange: Exchange,
    zero: EndpointOver<E>,
    one: EndpointOver<E>,
) -> Verdict {
    let (first, second) = join(
        rt,
        || -> Verdict { takes_part(alloc, zero, 1, exchange) },
        || -> Verdict { takes_part(alloc, one, 0, exchange) },
    );
    first?;
    second
}
