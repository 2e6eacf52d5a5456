//! Streams of messages between two threads.
ghost use Rattle.std.specs.Prelude.{◌≡◌, ◌<◌};
ghost use Rattle.fab_port_suite.specs.Lanes.{AreBetween, IsEnd, IsSame};

use crate::calls::{gives_none, post, take};
use crate::messages::Message;
use fab_link::Port;
use std::sync::Wait;
use std::thread;
use std::thread::Threads;

/// Posts the next message of the stream, unless all were posted, and tells how many were posted then.
fn send<P: Port>(port: &mut P, other: u32, sent: u64, posts: u64, pattern: &[u8]) -> u64
    requires below { other < P.peer_count port.old }
    requires between { AreBetween (P.outs port.old) }
    ensures same { IsSame P.Port port.old port.new }
    ensures between { AreBetween (P.outs port.new) }
{
    if sent >= posts {
        return sent;
    }
    if post(port, other, Message::nth(sent), pattern).is_ok() {
        return sent + 1;
    }
    sent
}

/// Takes the next message of the other's stream, unless all were taken that are to be.
fn receive<P: Port>(
    port: &mut P,
    other: u32,
    taken: u64,
    takes: u64,
    pattern: &[u8],
) -> Option<bool>
    requires { other < P.peer_count port.old }
    ensures same { IsSame P.Port port.old port.new }
    ensures outs { P.outs port.new ≡ P.outs port.old }
{
    if taken >= takes {
        return None;
    }
    take(port, other, Message::nth(taken), pattern)
}

/// Posts so many messages to the other peer and takes so many of it. The port, and how many came as they were posted.
fn talk<P: Port + Drop, R: Wait>(
    rt: &R,
    mut port: P,
    other: u32,
    posts: u64,
    takes: u64,
    pattern: &[u8],
) -> (P, u64)
    requires below { other < P.peer_count port }
    requires between { AreBetween (P.outs port) }
    ensures { IsSame P.Port port result.0 }
{
    let mut sent = 0u64;
    let mut taken = 0u64;
    let mut good = 0u64;
    for _ in rt.forever() {
        sent = send(&mut port, other, sent, posts, pattern);
        match receive(&mut port, other, taken, takes, pattern) {
            Some(same) => {
                taken = taken.saturating_add(1);
                good = good.saturating_add(same as u64);
            }
            None => thread::yield_now(),
        }
        if sent >= posts && taken >= takes {
            break;
        }
    }
    (port, good)
}

/// Two threads post a stream of so many messages each to the other, and take so many of the other's. The ports, each with how
/// many messages came to it as they were posted.
pub fn exchange<P: Port + Send + Drop, R: Threads + Wait + Sync>(
    rt: &R,
    zero: P,
    one: P,
    posts: u64,
    takes: u64,
    pattern: &[u8],
) -> ((P, u64), (P, u64))
    requires zero { IsEnd 0 (P.number zero) (P.peer_count zero) (P.outs zero) }
    requires one { IsEnd 1 (P.number one) (P.peer_count one) (P.outs one) }
    ensures zero { IsSame P.Port zero result.0.0 }
    ensures one { IsSame P.Port one result.1.0 }
{
    thread::join(
        rt,
        || -> (P, u64)
            requires { IsEnd 0 (P.number zero) (P.peer_count zero) (P.outs zero) }
        { talk(rt, zero, 1, posts, takes, pattern) },
        || -> (P, u64)
            requires { IsEnd 1 (P.number one) (P.peer_count one) (P.outs one) }
        { talk(rt, one, 0, posts, takes, pattern) },
    )
}

/// Whether two threads pass so many messages each way, of 0 to 4,096 bytes, and none is lost or changed.
pub fn talk_in_threads<P: Port + Send + Drop, R: Threads + Wait + Sync>(
    rt: &R,
    zero: P,
    one: P,
    count: u64,
    pattern: &[u8],
) -> bool
    requires zero { IsEnd 0 (P.number zero) (P.peer_count zero) (P.outs zero) }
    requires one { IsEnd 1 (P.number one) (P.peer_count one) (P.outs one) }
{
    let ((_zero, from_one), (_one, from_zero)) = exchange(rt, zero, one, count, count, pattern);
    from_one == count && from_zero == count
}

/// Whether the messages of a peer's stream with these numbers come, in order, and then nothing.
pub fn gives_stream<P: Port>(port: &mut P, src: u32, from: u64, to: u64, pattern: &[u8]) -> bool
    requires { src < P.peer_count port.old }
{
    let mut all = true;
    for number in from..to {
        all = take(port, src, Message::nth(number), pattern) == Some(true) && all;
    }
    gives_none(port, src) && all
}
