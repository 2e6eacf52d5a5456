//! What is measured between two endpoints.
use crate::opening::Peers;
use crate::speaker::Speaker;
use fab_bench::runs::{Bytes, Exchange, Times, first, second};
use fabric::{Calls, EndpointOver};
use std::alloc::Global;
use std::sync::Wait;
use std::thread::Threads;
use std::time::Clock;
use std::{io, thread};

fn ping_pong(len: usize, rounds: u64) -> Exchange {
    Exchange {
        is_stream: false,
        len,
        window: 1,
        reply: len,
        rounds,
    }
}

fn stream(len: usize, rounds: u64) -> Exchange {
    Exchange {
        is_stream: true,
        len,
        window: 16,
        reply: 4,
        rounds,
    }
}

/// What is measured.
pub fn exchanges() -> [Exchange; 10] {
    [
        ping_pong(1, 500),
        ping_pong(64, 500),
        ping_pong(4096, 200),
        ping_pong(65_536, 20),
        ping_pong(1_048_576, 2),
        stream(1, 100),
        stream(64, 100),
        stream(4096, 50),
        stream(65_536, 5),
        stream(1_048_576, 1),
    ]
}

/// So many messages of 64 bytes one way, in whole windows.
pub fn soak(messages: u64) -> Exchange {
    stream(64, messages / 16)
}

/// An exchange, how often it is run, whether each message is written before it is sent and read when it came, as programs
/// do, and between which peers.
#[derive(Clone, Copy, Drop)]
pub struct Measure {
    pub exchange: Exchange,
    pub runs: u64,
    pub is_touched: bool,
    pub peers: Peers,
}

/// The most bytes of a message in an exchange.
fn most_bytes(exchange: &Exchange) -> usize {
    exchange.len.max(exchange.reply)
}

/// The times of an exchange between two that speak, each in a thread of its own.
fn times_of<R: Clock + Threads + Wait + Sync, E: Calls + Drop + Send>(
    rt: &R,
    alloc: Global,
    left: Speaker<E>,
    right: Speaker<E>,
    measure: &Measure,
) -> io::Result<Vec<Times>> {
    let runs = measure.runs;
    let only = [measure.exchange];
    let mine = Bytes::new(alloc, most_bytes(&measure.exchange))?;
    let other = Bytes::new(alloc, most_bytes(&measure.exchange))?;
    let (all, _) = thread::join(
        rt,
        || -> io::Result<Vec<Times>> { first(rt, alloc, left, mine, &only, runs) },
        || -> () { second(rt, right, other, &only, runs) },
    );
    all
}

/// The times of an exchange between the endpoints of the two peers that speak.
pub fn times_between<R: Clock + Threads + Wait + Sync, E: Calls + Drop + Send>(
    rt: &R,
    alloc: Global,
    zero: EndpointOver<E>,
    one: EndpointOver<E>,
    measure: &Measure,
) -> io::Result<Vec<Times>> {
    let window = measure.exchange.window;
    let room = most_bytes(&measure.exchange);
    let left = Speaker::new(
        alloc,
        zero,
        measure.peers.right,
        window,
        room,
        measure.is_touched,
    );
    let right = Speaker::new(
        alloc,
        one,
        measure.peers.left,
        window,
        room,
        measure.is_touched,
    );
    match (left, right) {
        (Ok(left), Ok(right)) => times_of(rt, alloc, left, right, measure),
        _ => Ok(Vec::new(alloc)),
    }
}
