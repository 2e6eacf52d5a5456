//! Ping-pongs.
use crate::exchanging::{Done, Exchange, PATIENCE, Verdict, check, goes_out, waits};
use fabric::{Buf, Calls, Class, EndpointOver, Fault};
use std::alloc::Global;

/// How many messages go each way.
const ROUNDS: u32 = 500;

/// The tag of tagged pings.
const PING: u64 = 3;

/// Whether a receive of a ping is posted.
fn posts_ping<E: Calls + Drop>(
    alloc: Global,
    endpoint: &mut EndpointOver<E>,
    exchange: Exchange,
) -> bool {
    match Buf::zeros(alloc, 4) {
        Ok(buf) if exchange == Exchange::Tagged => { endpoint.trecv(None, PING, 0, buf, 1).is_ok() }
        Ok(buf) => endpoint.recv(None, buf, 1).is_ok(),
        Err(_) => false,
    }
}

/// Why a ping is refused.
fn ping<E: Calls + Drop>(
    endpoint: &mut EndpointOver<E>,
    other: u32,
    exchange: Exchange,
    round: u32,
) -> Result<(), Fault> {
    let bytes = round.to_le_bytes();
    if exchange == Exchange::Tagged {
        endpoint.tinject(other, PING, &bytes, None)
    } else {
        endpoint.inject(other, &bytes, None)
    }
}

/// Whether a ping is accepted, as soon as there is room.
fn sends_ping<E: Calls + Drop>(
    endpoint: &mut EndpointOver<E>,
    other: u32,
    exchange: Exchange,
    round: u32,
) -> bool {
    for _ in 0..PATIENCE {
        match ping(endpoint, other, exchange, round) {
            Ok(()) => return true,
            Err(Fault::Again(_)) => {
                let _ = endpoint.progress(64);
            }
            Err(_) => return false,
        }
    }
    false
}

fn is_ping(done: Done, round: u32) -> bool {
    let bytes = round.to_le_bytes();
    match done {
        Done::Came(_, _, len, buf) => len == 4 && buf.as_slice() == bytes.as_slice(),
        Done::Sent(..) => false,
    }
}

/// Whether the ping of this round comes.
fn gets_ping<E: Calls + Drop>(endpoint: &mut EndpointOver<E>, round: u32) -> bool {
    match waits(endpoint) {
        Some(done) => is_ping(done, round),
        None => false,
    }
}

/// Whether the ping of this round is counted.
fn counts_ping<E: Calls + Drop>(endpoint: &mut EndpointOver<E>, round: u32) -> bool {
    let n = u64::from(round).saturating_add(1);
    endpoint.cntr_wait(Class::Recv, n, PATIENCE) == Ok(true)
}

/// Whether the ping of this round comes, as this exchange tells it.
fn is_told<E: Calls + Drop>(
    endpoint: &mut EndpointOver<E>,
    exchange: Exchange,
    round: u32,
) -> bool {
    if exchange == Exchange::Counted {
        counts_ping(endpoint, round)
    } else {
        gets_ping(endpoint, round)
    }
}

/// Whether a round is played: the peer that serves sends first.
fn plays<E: Calls + Drop>(
    alloc: Global,
    endpoint: &mut EndpointOver<E>,
    other: u32,
    exchange: Exchange,
    round: u32,
) -> bool {
    let posted = posts_ping(alloc, endpoint, exchange);
    if other == 1 {
        posted && sends_ping(endpoint, other, exchange, round) && is_told(endpoint, exchange, round)
    } else {
        posted && is_told(endpoint, exchange, round) && sends_ping(endpoint, other, exchange, round)
    }
}

/// Whether all pings that were counted came, in order.
fn reads_all<E: Calls + Drop>(endpoint: &mut EndpointOver<E>) -> bool {
    let mut all = true;
    for round in 0..ROUNDS {
        all = all && gets_ping(endpoint, round);
    }
    all
}

/// Plays all rounds of a ping-pong.
pub(crate) fn ping_pong<E: Calls + Drop>(
    alloc: Global,
    endpoint: &mut EndpointOver<E>,
    other: u32,
    exchange: Exchange,
) -> Verdict {
    for round in 0..ROUNDS {
        check(
            plays(alloc, endpoint, other, exchange, round),
            "each ping comes, with its number, and is answered",
        )?;
    }
    check(goes_out(endpoint), "the last answer goes out")?;
    check(
        exchange != Exchange::Counted || reads_all(endpoint),
        "what was counted came, in order",
    )
}
