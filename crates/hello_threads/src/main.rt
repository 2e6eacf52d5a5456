//! Two threads send each other 100,000 messages, with receives posted ahead, and what came is what was sent, in order.
//!
//! What a thread does is in `stream.rt`, over any endpoint. Here the endpoints are opened, and closed once the threads are joined: `close_all` and
//! `law_library_heard` tell then what all that the two threads did comes to.
#![tactic(auto)]

ghost use Rattle.std.specs.Prelude.{◌≡◌, IfOk, OnOk};
ghost use Rattle.std.specs.List.{All};
ghost use Rattle.fabric.specs.Views.{IsPrefixOf};
ghost use Rattle.hello_threads.specs.Stream.{IsShort};

mod stream;

use fabric::{Buf, Fault, Hints, close_all, law_library_heard, open};
use std::alloc::Global;
use std::sync::Wait;
use std::thread::Threads;
use stream::{Both, Told, talk};

const MESSAGES: u64 = 100_000;

/// Two peers, each in a thread of its own, send each other these texts.
///
/// What came to a peer is, in order, the first of the texts that the other was given, and all of them where the peer's stream ended well.
pub fn hello<R: Threads + Wait + Sync>(
    rt: &R,
    alloc: Global,
    zero: Vec<Buf>,
    one: Vec<Buf>,
) -> Result<(Told, Told), Fault>
    requires zero_short { All IsShort zero.items }
    requires one_short { All IsShort one.items }
    ensures first { IfOk result (λ told. IsPrefixOf told.0.came.items one.items × IsPrefixOf told.1.came.items zero.items) }
    ensures all { IfOk result (λ told. OnOk told.0.ended (told.0.came.items ≡ one.items) × OnOk told.1.ended (told.1.came.items ≡ zero.items)) }
{
    law_library_heard();
    let domain = open(alloc, &Hints::new().peers(2))?;
    let Some(both) = talk(rt, alloc, domain.endpoints, zero, one) else {
        return Err(Fault::NoMemory);
    };
    let Both {
        endpoints,
        zero,
        one,
    } = both;
    match close_all(alloc, endpoints) {
        Ok(_ports) => Ok((zero, one)),
        Err(_unclosed) => Err(Fault::NoMemory),
    }
}

/// So many texts: the numbers from this one on.
fn texts(alloc: Global, from: u64) -> Result<Vec<Buf>, Fault>
    ensures { IfOk result (λ all. All IsShort all.items) }
{
    let mut all = Vec::new(alloc);
    for number in 0..MESSAGES {
        let text = Buf::copy(alloc, &from.wrapping_add(number).to_le_bytes())?;
        all.push(text)?;
    }
    Ok(all)
}

/// How many messages came to each peer.
fn counts<R: Threads + Wait + Sync>(rt: &R, alloc: Global) -> Result<(usize, usize), Fault> {
    let zero = texts(alloc, 0)?;
    let one = texts(alloc, MESSAGES)?;
    let (zero, one) = hello(rt, alloc, zero, one)?;
    zero.ended?;
    one.ended?;
    Ok((zero.came.len(), one.came.len()))
}

fn main(rt: HostRuntime) -> std::io::Result<()> {
    match counts(&rt, rt.alloc()) {
        Ok((zero, one)) => println!(rt; "{zero} messages came to peer 0, {one} to peer 1"),
        Err(_) => println!(rt; "no endpoints, or a call was refused"),
    }
}
