//! A client: it asks, and sleeps until the answer is there.
use crate::stopped::Stopped;
use crate::waits::{ANSWER, BYTES, REQUEST, REQUESTS, SERVER, Waiter, next, post, send, wait};
use fabric::{Buf, Calls, Clock, EndpointOver, Polled};
use std::alloc::Global;
use std::sync::Wait;
use std::time::Duration;

/// How many milliseconds a client waits for an answer that nobody sends.
const PATIENCE_MILLIS: u64 = 20;

/// What a client saw: how many requests got their answers, how many nanoseconds all of them took, and how many did not come in time.
#[derive(Clone, Copy, Drop)]
pub(crate) struct Seen {
    pub answered: u32,
    pub nanos: u64,
    pub timed_out: u32,
}

/// Makes a request, waits for its answer, whose receive is posted before, and gives its buffer back where it has the bytes of the request.
fn ask<R: Wait, C: Clock + Drop, E: Calls + Drop>(
    rt: &R,
    endpoint: &mut EndpointOver<E>,
    waiter: &mut Waiter<C>,
    number: u64,
    buf: Buf,
) -> Result<Buf, Stopped> {
    post(endpoint, Some(SERVER), ANSWER, buf)?;
    let bytes = number.to_le_bytes();
    send(rt, endpoint, SERVER, REQUEST, &bytes)?;
    let answer = next(rt, endpoint, waiter)?;
    if answer.buf.as_slice() != bytes.as_slice() {
        return Err(Stopped::Silent);
    }
    Ok(answer.buf)
}

/// Whether no completion comes by the moment, since nobody sends one.
fn times_out<R: Wait, C: Clock + Drop, E: Calls + Drop>(
    rt: &R,
    endpoint: &mut EndpointOver<E>,
    waiter: &mut Waiter<C>,
) -> Result<bool, Stopped> {
    let polled = wait(rt, endpoint, waiter, Duration::from_millis(PATIENCE_MILLIS))?;
    Ok(matches!(&polled, Polled::Idle | Polled::More))
}

/// Makes all requests, one after another.
pub(crate) fn run<R: Wait, C: Clock + Drop, E: Calls + Drop>(
    rt: &R,
    alloc: Global,
    endpoint: &mut EndpointOver<E>,
    waiter: &mut Waiter<C>,
) -> Result<Seen, Stopped> {
    let mut seen = Seen {
        answered: 0,
        nanos: 0,
        timed_out: 0,
    };
    let mut buf = Buf::zeros(alloc, BYTES)?;
    let begun = waiter.clock.now()?;
    for number in 0..u64::from(REQUESTS) {
        buf = ask(rt, endpoint, waiter, number, buf)?;
        seen.answered = seen.answered.saturating_add(1);
    }
    let ended = waiter.clock.now()?;
    seen.nanos = ended.nanos.saturating_sub(begun.nanos);
    if times_out(rt, endpoint, waiter)? {
        seen.timed_out = 1;
    }
    Ok(seen)
}
