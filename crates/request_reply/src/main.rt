//! Peer 1 asks peer 0 by a tagged message. Each buffer comes back, whatever becomes of its call.
#![tactic(auto)]

use fabric::{Buf, COMPLETES, Calls, EndpointOver, Entry, Hints, Polled, Refused, open};
use std::alloc::Global;
use std::thread::{Threads, map_vec};

const TAG: u64 = 7;
/// How many bytes of a message are received. What is longer is an error (`Truncated`).
const ROOM: u64 = 5;

/// The buffer of a call: in its refusal, which passes or lasts, or else in the completion or the error that comes next.
fn back<E: Calls + Drop>(endpoint: &mut EndpointOver<E>, call: Result<(), Refused>) -> Option<Buf> {
    match call {
        Err(refused) => Some(refused.buf),
        Ok(()) => match endpoint.wait(u32::MAX) {
            Ok(Polled::Entry(Entry::Sent { buf, .. } | Entry::Received { buf, .. })) => Some(buf),
            Ok(Polled::Error(error)) => error.buf,
            _ => None,
        },
    }
}

/// Receives a request, which is longer, and answers it with what came of it.
fn answer<E: Calls + Drop>(alloc: Global, endpoint: &mut EndpointOver<E>) -> Option<Buf> {
    let call = endpoint.trecv(Some(1), TAG, 0, Buf::zeros(alloc, ROOM).ok()?, 0);
    let request = back(endpoint, call)?;
    let call = endpoint.tsend(1, TAG, request, None, 0, COMPLETES);
    let free = back(endpoint, call);
    let _is_out = endpoint.flush(u32::MAX).ok()?;
    free
}

/// Asks peer 2, who is not there (`Invalid`), and then peer 0, whose answer it gives. Its receive is posted ahead.
fn ask<E: Calls + Drop>(alloc: Global, endpoint: &mut EndpointOver<E>) -> Option<Buf> {
    let room = Buf::zeros(alloc, ROOM).ok()?;
    let request = Buf::copy(alloc, b"hello, is anybody there?").ok()?;
    let posted = endpoint.trecv(Some(0), TAG, 0, room, 0);
    let call = endpoint.tsend(2, TAG, request, None, 0, COMPLETES);
    let request = back(endpoint, call)?;
    let call = endpoint.tsend(0, TAG, request, None, 0, COMPLETES);
    let _free = back(endpoint, call)?;
    back(endpoint, posted)
}

/// Lets each peer run in a thread of its own, and gives the answer that peer 1 has.
fn both<R: Threads + Sync, E: Calls + Drop + Send>(
    rt: &R,
    alloc: Global,
    endpoints: Vec<EndpointOver<E>>,
) -> Option<Buf> {
    let run = |mut endpoint: EndpointOver<E>| match endpoint.me() {
        0 => answer(alloc, &mut endpoint),
        _ => ask(alloc, &mut endpoint),
    };
    map_vec(rt, endpoints, &run).ok()?.pop()?
}

fn main(rt: HostRuntime) -> std::io::Result<()> {
    let reply = match open(rt.alloc(), &Hints::new().peers(2)) {
        Ok(domain) => both(&rt, rt.alloc(), domain.endpoints),
        Err(_) => None,
    };
    match reply {
        Some(buf) => println!(rt; "{}", str::from_utf8(buf.as_slice()).unwrap_or("no text")),
        None => println!(rt; "no answer"),
    }
}
