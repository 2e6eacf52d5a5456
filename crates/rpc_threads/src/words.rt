//! What the server and its clients agree on.
use fabric::{Calls, EndpointOver, Fault};
use std::sync::Wait;
use std::thread;

/// The peer that serves.
pub(crate) const SERVER: u32 = 0;

/// A request and its answer have a tag each, whose low bits are the request's number. So an answer is asked for by its number, and one that comes
/// late is never taken for another.
pub(crate) const REQUEST: u64 = 0x1_0000_0000;

pub(crate) const ANSWER: u64 = 0x2_0000_0000;

pub(crate) const NUMBERS: u64 = 0xffff_ffff;

/// The requests of a client are numbered from 1 to this.
pub(crate) const LAST: u64 = 4;

/// The request that takes the server long: it is answered when the last one comes.
pub(crate) const SLOW: u64 = 2;

/// How many milliseconds a client waits for the answer to the slow one.
pub(crate) const PATIENCE_MILLIS: u64 = 20;

/// How many polls are made, and one more, before the clock is read.
pub(crate) const SPINS: u32 = 8;

/// How many turns a peer waits for what has to come. It is as good as for ever.
pub(crate) const LONG: u32 = u32::MAX;

/// How many frames move at most before a send is tried again.
const BUDGET: u32 = 64;

/// How many bytes a request and an answer have.
pub(crate) const BYTES: u64 = 8;

/// Sends a short message, again while that is refused for now.
pub(crate) fn send<R: Wait, E: Calls + Drop>(
    rt: &R,
    endpoint: &mut EndpointOver<E>,
    dest: u32,
    tag: u64,
    value: u64,
    told: Option<u64>,
) -> Result<(), Fault> {
    for _ in rt.forever() {
        match endpoint.tinject(dest, tag, &value.to_le_bytes(), told) {
            Err(Fault::Again(_)) => {}
            sent => return sent,
        }
        endpoint.progress(BUDGET)?;
        thread::yield_now();
    }
    unreachable!()
}
