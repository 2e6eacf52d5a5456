//! A server and three clients, each in a thread of its own: numbered requests, a time-out, a cancel, and answers that come late.
//!
//! ```text
//! number   the server                                    a client
//! 1        answers                                       gets the answer
//! 2        holds the request back                        waits for 20 ms, cancels the receive, and goes on
//! 3        answers, and says that it holds one back      gets the answer
//! 4        answers 2, late, and then 4                   gets the answer to 4, finds the one to 2 and throws it away
//! ```
#![tactic(auto)]

mod client;
mod server;
mod stopped;
mod words;

use client::Seen;
use fabric::{Calls, EndpointOver, Fault, Hints, SystemClock, open};
use server::Served;
use std::alloc::Global;
use std::rt;
use std::sync::Wait;
use std::thread::{Threads, map_vec};
use stopped::Stopped;
use words::SERVER;

/// What a peer came to.
#[derive(Drop)]
enum Ran {
    Server(Result<Served, Fault>),
    Client(Result<Seen, Stopped>),
}

/// Serves or asks, by the number of the peer.
fn run<R: Wait + rt::Clock, E: Calls + Drop>(
    rt: &R,
    alloc: Global,
    mut endpoint: EndpointOver<E>,
) -> Ran {
    if endpoint.me() == SERVER {
        Ran::Server(server::run(rt, alloc, &mut endpoint))
    } else {
        let mut clock = SystemClock::new(rt);
        Ran::Client(client::run(rt, &mut clock, alloc, &mut endpoint))
    }
}

/// Lets each peer run in a thread of its own.
fn all<R: Threads + Wait + rt::Clock + Sync, E: Calls + Drop + Send>(
    rt: &R,
    alloc: Global,
    endpoints: Vec<EndpointOver<E>>,
) -> Option<Vec<Ran>> {
    map_vec(rt, endpoints, &|endpoint| run(rt, alloc, endpoint)).ok()
}

/// Tells what a peer came to.
fn tell(rt: &HostRuntime, ran: &Ran) -> std::io::Result<()> {
    match ran {
        Ran::Server(Ok(served)) => {
            println!(rt;
                "server: {} requests, {} held back",
                served.requests, served.held
            )
        }
        Ran::Client(Ok(seen)) => {
            println!(rt;
                "client: {} answered, {} given up, {} late and thrown away; {} said to be held back",
                seen.answered, seen.given_up, seen.late, seen.held
            )
        }
        Ran::Server(Err(why)) => println!(rt; "refused: {why:?}"),
        Ran::Client(Err(why)) => println!(rt; "stopped: {why:?}"),
    }
}

fn main(rt: HostRuntime) -> std::io::Result<()> {
    let ran = match open(rt.alloc(), &Hints::new().peers(4)) {
        Ok(domain) => all(&rt, rt.alloc(), domain.endpoints),
        Err(_) => None,
    };
    let Some(ran) = ran else {
        return println!(rt; "no endpoints, or no memory");
    };
    for one in ran.iter() {
        tell(&rt, one)?;
    }
    Ok(())
}
