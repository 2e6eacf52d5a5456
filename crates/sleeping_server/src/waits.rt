//! What the server and its clients agree on, and how each of them waits.
use crate::stopped::Stopped;
use fabric::{Buf, Calls, Clock, EndpointOver, Entry, Fault, Moment, Polled, Sleeper, wait_asleep};
use std::sync::Wait;
use std::thread;
use std::time::Duration;

/// The peer that serves.
pub(crate) const SERVER: u32 = 0;

/// How many requests each client makes.
pub(crate) const REQUESTS: u32 = 10_000;

/// The tags of a request and of its answer.
pub(crate) const REQUEST: u64 = 1;

pub(crate) const ANSWER: u64 = 2;

/// How many bytes a request and an answer have.
pub(crate) const BYTES: u64 = 8;

/// How many seconds a peer waits for what has to come. Each wait that is met ends long before.
const LONG_SECONDS: u64 = 100;

/// It sleeps where its first look finds nothing.
const SPINS: u32 = 0;

/// How many frames move at most before a send is tried again.
const BUDGET: u32 = 64;

/// Who waits for a peer, and by which clock.
#[derive(Drop)]
pub(crate) struct Waiter<C: Clock + Drop> {
    pub sleeper: Sleeper,
    pub clock: C,
}

/// A message that came: its source and its bytes.
#[derive(Drop)]
pub(crate) struct Came {
    pub source: u32,
    pub buf: Buf,
}

/// The message that the completion tells of.
fn message_of(polled: Polled) -> Result<Came, Stopped> {
    match polled {
        Polled::Entry(Entry::Received { source, buf, .. }) => Ok(Came { source, buf }),
        Polled::Idle | Polled::More => Err(Stopped::Silent),
        _ => Err(Stopped::Refused(Fault::Avail)),
    }
}

/// Waits for a completion, asleep, until so long from now.
pub(crate) fn wait<R: Wait, C: Clock + Drop, E: Calls + Drop>(
    rt: &R,
    endpoint: &mut EndpointOver<E>,
    waiter: &mut Waiter<C>,
    duration: Duration,
) -> Result<Polled, Stopped> {
    let moment: Moment = waiter.clock.after(duration)?;
    Ok(wait_asleep(
        rt,
        endpoint,
        &mut waiter.sleeper,
        &mut waiter.clock,
        moment,
        SPINS,
    )?)
}

/// The next message, for which a receive was posted before.
pub(crate) fn next<R: Wait, C: Clock + Drop, E: Calls + Drop>(
    rt: &R,
    endpoint: &mut EndpointOver<E>,
    waiter: &mut Waiter<C>,
) -> Result<Came, Stopped> {
    message_of(wait(rt, endpoint, waiter, Duration::from_secs(LONG_SECONDS))?)
}

/// Posts a receive.
pub(crate) fn post<E: Calls + Drop>(
    endpoint: &mut EndpointOver<E>,
    source: Option<u32>,
    tag: u64,
    buf: Buf,
) -> Result<(), Stopped> {
    match endpoint.trecv(source, tag, 0, buf, 0) {
        Ok(()) => Ok(()),
        Err(refused) => Err(Stopped::Refused(refused.why)),
    }
}

/// Sends a short message, again while that is refused for now.
pub(crate) fn send<R: Wait, E: Calls + Drop>(
    rt: &R,
    endpoint: &mut EndpointOver<E>,
    dest: u32,
    tag: u64,
    bytes: &[u8],
) -> Result<(), Stopped> {
    for _ in rt.forever() {
        match endpoint.tinject(dest, tag, bytes, None) {
            Ok(()) => return Ok(()),
            Err(Fault::Again(_)) => {}
            Err(why) => return Err(Stopped::Refused(why)),
        }
        endpoint.progress(BUDGET)?;
        thread::yield_now();
    }
    unreachable!()
}
