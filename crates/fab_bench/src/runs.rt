//! What the two threads do.
use std::alloc::{AllocError, Global};
use std::io;
use std::sync::Wait;
use std::time::{Clock, Instant};

/// One kind of exchange: in each round so many messages of this length go one way, and a reply comes back.
#[derive(Clone, Copy, Drop)]
pub struct Exchange {
    pub is_stream: bool,
    pub len: usize,
    pub window: u64,
    pub reply: usize,
    pub rounds: u64,
}

/// The nanoseconds of each run of one exchange.
#[derive(Drop)]
pub struct Times {
    pub exchange: Exchange,
    pub nanos: Vec<u64>,
}

/// One of the two that exchange messages.
pub trait Party {
    /// Sends a message, and answers whether there was room.
    fn put(&mut self, bytes: &[u8]) -> bool;

    /// Takes the next message, at most as many bytes of it as there is room for, and answers whether there was
    /// one.
    fn take(&mut self, into: &mut [u8]) -> bool;
}

/// The bytes that a thread sends, and room for those that come.
#[derive(Drop)]
pub struct Bytes {
    out: Vec<u8>,
    into: Vec<u8>,
}

impl Bytes {
    /// So many bytes to send, and room for as many.
    pub fn new(alloc: Global, most: usize) -> Result<Bytes, AllocError> {
        let out = Vec::from_elem(alloc, 7u8, most)?;
        let into = Vec::from_elem(alloc, 0u8, most)?;
        Ok(Bytes { out, into })
    }
}

/// The first bytes of these, or all where there are fewer.
fn first_bytes(bytes: &[u8], len: usize) -> &[u8] {
    let most = len.min(bytes.len());
    &bytes[..most]
}

/// Sends a message as soon as there is room.
fn put<P: Party, R: Wait>(rt: &R, party: &mut P, bytes: &[u8]) {
    for _ in rt.forever() {
        if party.put(bytes) {
            break;
        }
    }
}

/// Takes a message as soon as there is one.
fn take<P: Party, R: Wait>(rt: &R, party: &mut P, into: &mut [u8]) {
    for _ in rt.forever() {
        if party.take(into) {
            break;
        }
    }
}

/// One round of the thread that begins.
fn lead<P: Party, R: Wait>(rt: &R, party: &mut P, window: u64, out: &[u8], into: &mut [u8]) {
    for _ in 0..window {
        put(rt, party, out);
    }
    take(rt, party, into);
}

/// One round of the other.
fn follow<P: Party, R: Wait>(rt: &R, party: &mut P, window: u64, reply: &[u8], into: &mut [u8]) {
    for _ in 0..window {
        take(rt, party, into);
    }
    put(rt, party, reply);
}

/// How many nanoseconds ago this was.
pub(crate) fn since<R: Clock>(rt: &R, start: &Instant) -> io::Result<u64> {
    let nanos = start.elapsed(rt)?.as_nanos();
    Ok(u64::try_from(nanos).unwrap_or(u64::MAX))
}

/// The nanoseconds of one run.
fn timed<P: Party, R: Wait + Clock>(
    rt: &R,
    party: &mut P,
    exchange: &Exchange,
    out: &[u8],
    into: &mut [u8],
) -> io::Result<u64> {
    let start = Instant::now(rt)?;
    for _ in 0..exchange.rounds {
        lead(rt, party, exchange.window, out, into);
    }
    since(rt, &start)
}

/// The times of so many runs of one exchange, after one that is not counted.
fn measure<P: Party, R: Wait + Clock>(
    rt: &R,
    alloc: Global,
    party: &mut P,
    exchange: &Exchange,
    bytes: &mut Bytes,
    runs: u64,
) -> io::Result<Times> {
    let out = first_bytes(bytes.out.as_slice(), exchange.len);
    let mut nanos = Vec::new(alloc);
    let _first = timed(rt, party, exchange, out, bytes.into.as_mut_slice())?;
    for _ in 0..runs {
        let run = timed(rt, party, exchange, out, bytes.into.as_mut_slice())?;
        nanos.push(run)?;
    }
    Ok(Times {
        exchange: *exchange,
        nanos,
    })
}

/// All exchanges, begun by this thread.
pub fn first<P: Party + Drop, R: Wait + Clock>(
    rt: &R,
    alloc: Global,
    mut party: P,
    mut bytes: Bytes,
    exchanges: &[Exchange],
    runs: u64,
) -> io::Result<Vec<Times>> {
    let mut all = Vec::new(alloc);
    for exchange in exchanges.iter() {
        let own = measure(rt, alloc, &mut party, exchange, &mut bytes, runs)?;
        all.push(own)?;
    }
    Ok(all)
}

/// The runs of one exchange in the other thread.
fn answer<P: Party, R: Wait>(
    rt: &R,
    party: &mut P,
    exchange: &Exchange,
    bytes: &mut Bytes,
    runs: u64,
) {
    let reply = first_bytes(bytes.out.as_slice(), exchange.reply);
    for _ in 0..runs {
        for _ in 0..exchange.rounds {
            follow(rt, party, exchange.window, reply, bytes.into.as_mut_slice());
        }
    }
}

/// All exchanges in the other thread, with one run more of each.
pub fn second<P: Party + Drop, R: Wait>(
    rt: &R,
    mut party: P,
    mut bytes: Bytes,
    exchanges: &[Exchange],
    runs: u64,
) {
    let all = runs.saturating_add(1);
    for exchange in exchanges.iter() {
        answer(rt, &mut party, exchange, &mut bytes, all);
    }
}
