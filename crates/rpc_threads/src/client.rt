//! A client: it asks, waits as long as the request is worth, and takes away what comes too late.
use crate::stopped::Stopped;
use crate::words::{
    ANSWER, BYTES, LAST, LONG, NUMBERS, PATIENCE_MILLIS, REQUEST, SERVER, SLOW, SPINS, send,
};
use fabric::{Buf, Calls, Clock, EndpointOver, Entry, ErrEntry, ErrKind, Fault, Polled};
use std::alloc::Global;
use std::sync::Wait;
use std::time::Duration;

/// What a client saw: how many requests got their answers and how many it gave up, how many answers came late, and how many requests of
/// its own the server said that it held back, at most.
#[derive(Clone, Copy, Drop)]
pub(crate) struct Seen {
    pub answered: u32,
    pub given_up: u32,
    pub late: u32,
    pub held: u64,
}

/// How a request ended: its buffer, and what the server said of requests that it holds back. Nothing was said where it was given up.
#[derive(Drop)]
struct Ended {
    buf: Buf,
    held: Option<u64>,
}

/// How a request ended by its completion.
fn end_of(polled: Polled) -> Result<Ended, Stopped> {
    match polled {
        Polled::Entry(Entry::Received { imm, buf, .. }) => Ok(Ended { buf, held: imm }),
        Polled::Error(
            ErrEntry {
                kind: ErrKind::Canceled,
                buf: Some(buf),
                ..
            },
        ) => Ok(Ended { buf, held: None }),
        _ => Err(Stopped::Refused(Fault::Avail)),
    }
}

/// Gives a request up. Its receive ends by an error that has the buffer. Where there is no such receive any more (`NoEntry`), the answer is on its
/// way into it or is there: then it is waited for.
fn give_up<E: Calls + Drop>(endpoint: &mut EndpointOver<E>, number: u64) -> Result<Ended, Stopped> {
    match endpoint.cancel(number) {
        Ok(()) | Err(Fault::NoEntry) => {}
        Err(why) => return Err(Stopped::Refused(why)),
    }
    let polled = endpoint.wait(LONG)?;
    end_of(polled)
}

/// Waits for the answer to a request: to the slow one until its time is up, by the clock, and to another for as long as it takes.
fn wait_for<R: Wait, C: Clock, E: Calls + Drop>(
    rt: &R,
    clock: &mut C,
    endpoint: &mut EndpointOver<E>,
    number: u64,
) -> Result<Polled, Stopped> {
    if number != SLOW {
        return Ok(endpoint.wait(LONG)?);
    }
    let moment = clock.after(Duration::from_millis(PATIENCE_MILLIS))?;
    Ok(endpoint.wait_until(rt, clock, moment, SPINS)?)
}

/// Makes a request and waits for its answer, whose receive is posted before.
fn ask<R: Wait, C: Clock, E: Calls + Drop>(
    rt: &R,
    clock: &mut C,
    endpoint: &mut EndpointOver<E>,
    number: u64,
    buf: Buf,
) -> Result<Ended, Stopped> {
    if let Err(refused) = endpoint.trecv(Some(SERVER), ANSWER | number, 0, buf, number) {
        return Err(Stopped::Refused(refused.why));
    }
    send(rt, endpoint, SERVER, REQUEST | number, number, None)?;
    let polled = wait_for(rt, clock, endpoint, number)?;
    match polled {
        Polled::Idle | Polled::More => give_up(endpoint, number),
        Polled::Entry(_) | Polled::Error(_) => end_of(polled),
    }
}

/// Throws one late answer away, if there is one, and tells whether there was.
fn discard_late<E: Calls + Drop>(endpoint: &mut EndpointOver<E>) -> Result<bool, Stopped> {
    let Some(late) = endpoint.probe(Some(SERVER), ANSWER, NUMBERS)? else {
        return Ok(false);
    };
    endpoint.discard(Some(SERVER), late.tag, 0, 0)?;
    let polled = endpoint.wait(LONG)?;
    match polled {
        Polled::Entry(Entry::Peeked { .. }) => Ok(true),
        _ => Err(Stopped::Refused(Fault::Avail)),
    }
}

/// Throws away the answers to requests that were given up, so many at most, and tells how many were there.
fn discard_all<E: Calls + Drop>(endpoint: &mut EndpointOver<E>, most: u32) -> Result<u32, Stopped> {
    let mut count = 0u32;
    for _ in 0..most {
        if discard_late(endpoint)? {
            count = count.saturating_add(1);
        }
    }
    Ok(count)
}

/// Whether this is the answer to the request.
fn is_answer(buf: &Buf, number: u64) -> bool {
    let value = number.wrapping_mul(number);
    buf.as_slice() == value.to_le_bytes().as_slice()
}

impl Seen {
    /// Counts a request that ended.
    fn count(&mut self, ended: &Ended, number: u64) {
        match ended.held {
            Some(held) => {
                let right = is_answer(&ended.buf, number);
                self.answered = self.answered.saturating_add(u32::from(right));
                self.held = self.held.max(held);
            }
            None => self.given_up = self.given_up.saturating_add(1),
        }
    }
}

/// Makes all requests, one after another.
pub(crate) fn run<R: Wait, C: Clock, E: Calls + Drop>(
    rt: &R,
    clock: &mut C,
    alloc: Global,
    endpoint: &mut EndpointOver<E>,
) -> Result<Seen, Stopped> {
    let mut seen = Seen {
        answered: 0,
        given_up: 0,
        late: 0,
        held: 0,
    };
    let mut buf = Buf::zeros(alloc, BYTES)?;
    for number in 1..=LAST {
        let ended = ask(rt, clock, endpoint, number, buf)?;
        seen.count(&ended, number);
        buf = ended.buf;
    }
    seen.late = discard_all(endpoint, seen.given_up)?;
    Ok(seen)
}
