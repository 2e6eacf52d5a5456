//! The uses, between two endpoints over lanes in memory.
//!
//! What is tested is written over any endpoint, so that the endpoint of lanes is named once.
use fabric::{Buf, Calls, EndpointOver, Entry, Hints, Next, open};
use fabric_uses::completing::{echo, is_idle, next_entry};
use fabric_uses::ending::{is_quiet, send_counted};
use fabric_uses::moving::move_twice;
use fabric_uses::receiving::{Cut, cancelled, next_len, post_behind, receive_cut, receive_next};
use fabric_uses::regions::{publish, withdraw};
use fabric_uses::send_or_keep;
use fabric_uses::sending::{inject_and_wipe, most_under_way, send_when_quiet};
use std::alloc::Global;
use std::test::Fail;

/// Two operations may be under way, and a lane holds one frame.
const TX: u32 = 2;

/// Whether the next completion is that of a message of these bytes.
fn comes<E: Calls + Drop>(endpoint: &mut EndpointOver<E>, bytes: &[u8]) -> bool {
    match next_entry(endpoint) {
        Some(Entry::Received { buf, .. }) => buf.as_slice() == bytes,
        _ => false,
    }
}

/// Whether the next completion is that of a message that was sent.
fn is_sent<E: Calls + Drop>(endpoint: &mut EndpointOver<E>) -> bool {
    match next_entry(endpoint) {
        Some(Entry::Sent { .. }) => true,
        _ => false,
    }
}

/// Whether a receive of four bytes is posted.
fn posts<E: Calls + Drop>(alloc: Global, endpoint: &mut EndpointOver<E>, ctx: u64) -> bool {
    match Buf::zeros(alloc, 4) {
        Ok(buf) => post_behind(endpoint, buf, ctx).is_none(),
        Err(_) => false,
    }
}

/// Whether a message to this index comes back.
fn keeps<E: Calls + Drop>(alloc: Global, endpoint: &mut EndpointOver<E>, dest: u32) -> bool {
    match Buf::copy(alloc, b"ping") {
        Ok(buf) => send_or_keep(endpoint, dest, buf, 1).is_some(),
        Err(_) => false,
    }
}

/// Whether nothing is left to move, in two calls of progress.
fn rests<E: Calls + Drop>(endpoint: &mut EndpointOver<E>) -> bool {
    match move_twice(endpoint, 1) {
        (Ok(Next::Idle), Ok(Next::Idle)) => true,
        _ => false,
    }
}

/// A ping comes back as it was sent, and one for no index comes back at once.
fn pings<E: Calls + Drop>(
    alloc: Global,
    zero: &mut EndpointOver<E>,
    one: &mut EndpointOver<E>,
) -> bool {
    posts(alloc, zero, 1)
        && posts(alloc, one, 2)
        && !keeps(alloc, one, 0)
        && keeps(alloc, one, 7)
        && echo(zero)
        && is_sent(one)
        && comes(one, b"ping")
        && is_sent(zero)
        && rests(one)
}

/// A message that was copied is free at once.
fn copies<E: Calls + Drop>(one: &mut EndpointOver<E>) -> bool {
    let mut bytes = *b"copy";
    inject_and_wipe(one, 0, &mut bytes).is_ok() && bytes == [0; 4]
}

/// Whether the first message under the tag is received, and has these bytes.
fn receives<E: Calls + Drop>(
    alloc: Global,
    zero: &mut EndpointOver<E>,
    tag: u64,
    bytes: &[u8],
) -> bool {
    match receive_next(alloc, zero, tag, 3) {
        Some(buf) => buf.as_slice() == bytes,
        None => false,
    }
}

/// Whether the first message under the tag is cut to four bytes, and how.
fn cuts<E: Calls + Drop>(alloc: Global, zero: &mut EndpointOver<E>, tag: u64) -> bool {
    match Buf::zeros(alloc, 4) {
        Ok(buf) => receive_cut(zero, tag, buf, 4) == Some(Cut { placed: 4, lost: 2 }),
        Err(_) => false,
    }
}

/// The length of a tagged message is told, and it is received whole; another one is cut.
fn looks<E: Calls + Drop>(
    alloc: Global,
    zero: &mut EndpointOver<E>,
    one: &mut EndpointOver<E>,
) -> bool {
    next_len(zero, 5).is_none()
        && one.tinject(0, 5, b"tagged", None).is_ok()
        && is_idle(zero)
        && next_len(zero, 5) == Some(6)
        && receives(alloc, zero, 5, b"tagged")
        && one.tinject(0, 5, b"longer", None).is_ok()
        && is_idle(zero)
        && cuts(alloc, zero, 5)
}

/// Whether a receive that is cancelled hands its buffer back.
fn cancels<E: Calls + Drop>(alloc: Global, zero: &mut EndpointOver<E>) -> bool {
    posts(alloc, zero, 7) && cancelled(zero, 7).is_some_and(|buf| buf.as_slice().len() == 4)
}

/// Whether a region hands its bytes back.
fn publishes<E: Calls + Drop>(alloc: Global, zero: &mut EndpointOver<E>) -> bool {
    match Buf::copy(alloc, b"mine") {
        Ok(buf) => {
            publish(zero, 9, buf).is_ok()
                && withdraw(zero, 9).is_some_and(|buf| buf.as_slice() == b"mine".as_slice())
        }
        Err(_) => false,
    }
}

/// Whether a message is refused for now, since so many are under way.
fn is_full<E: Calls + Drop>(alloc: Global, one: &mut EndpointOver<E>) -> bool {
    match Buf::copy(alloc, b"full") {
        Ok(buf) => most_under_way(one, 0, buf, 8) == Some(TX),
        Err(_) => false,
    }
}

/// Whether a message is accepted after a flush.
fn flushes<E: Calls + Drop>(alloc: Global, one: &mut EndpointOver<E>) -> bool {
    match Buf::copy(alloc, b"next") {
        Ok(buf) => is_quiet(one) && send_when_quiet(one, 0, buf, 9).is_ok(),
        Err(_) => false,
    }
}

/// A message is counted, one is accepted after a flush, and one too many is refused for now.
fn fills<E: Calls + Drop>(
    alloc: Global,
    zero: &mut EndpointOver<E>,
    one: &mut EndpointOver<E>,
) -> bool {
    send_counted(one, 0, b"a", 4)
        && copies(one)
        && one.inject(0, b"c", None).is_ok()
        && is_full(alloc, one)
        && posts(alloc, zero, 5)
        && comes(zero, b"a\0\0\0")
        && is_idle(zero)
        && !is_quiet(one)
        && is_idle(zero)
        && flushes(alloc, one)
}

/// What holds of the uses, in turn.
fn all<E: Calls + Drop>(alloc: Global, endpoints: Vec<EndpointOver<E>>) -> Option<[bool; 5]> {
    let mut endpoints = endpoints;
    let mut one = endpoints.pop()?;
    let mut zero = endpoints.pop()?;
    let pinged = pings(alloc, &mut zero, &mut one);
    let looked = looks(alloc, &mut zero, &mut one);
    let cancelled = cancels(alloc, &mut zero);
    let published = publishes(alloc, &mut zero);
    let filled = fills(alloc, &mut zero, &mut one);
    Some([pinged, looked, cancelled, published, filled])
}

#[test]
fn the_uses(rt: HostRuntime) -> Result<(), Fail> {
    let hints = Hints::new().peers(2).lane(1).tx(TX);
    let held = match open(rt.alloc(), &hints) {
        Ok(domain) => all(rt.alloc(), domain.endpoints),
        Err(_) => None,
    };
    assert_eq!(rt; held, Some([true; 5]));
    Ok(())
}
