//! A server and three clients, each in a thread of its own, that sleep while nothing comes for them.
//!
//! ```text
//! the server       sleeps until a request is there, and answers it
//! each client      makes 10,000 requests, one after another, and sleeps until the answer is there;
//!                  then it waits for an answer that nobody sends, until a moment of the clock
//! ```
//!
//! Two words are for who measures. `sleeping_server two` has one client, and tells how long a request takes until its answer is there.
//! `sleeping_server idle` has one peer, which sleeps for ten seconds: how much of a processor it takes is for the system to tell.
#![tactic(auto)]

mod client;
mod server;
mod stopped;
mod waits;

use client::Seen;
use fabric::{Calls, EndpointOver, Hints, Polled, Sleeps, SystemClock, open, with_sleeper};
use server::Served;
use std::alloc::Global;
use std::sync::Wait;
use std::thread::{Threads, map_vec};
use std::time::Duration;
use std::{env, io, rt};
use stopped::Stopped;
use waits::{REQUESTS, SERVER, Waiter, wait};

/// How long an idle peer sleeps.
const IDLE_SECONDS: u64 = 10;

/// What a peer came to.
#[derive(Drop)]
enum Ran {
    Server(Result<Served, Stopped>),
    Client(Result<Seen, Stopped>),
}

/// Serves or asks, by the number of the peer.
fn run<R: Wait + rt::Clock, E: Calls + Sleeps + Drop>(
    rt: &R,
    alloc: Global,
    endpoint: EndpointOver<E>,
) -> Ran {
    let (mut endpoint, sleeper) = with_sleeper(endpoint);
    let clock = SystemClock::new(rt);
    let mut waiter = Waiter { sleeper, clock };
    if endpoint.me() == SERVER {
        Ran::Server(server::run(rt, alloc, &mut endpoint, &mut waiter))
    } else {
        Ran::Client(client::run(rt, alloc, &mut endpoint, &mut waiter))
    }
}

/// Lets each peer run in a thread of its own.
fn all<R: Threads + Wait + rt::Clock + Sync, E: Calls + Sleeps + Drop + Send>(
    rt: &R,
    alloc: Global,
    endpoints: Vec<EndpointOver<E>>,
) -> Option<Vec<Ran>> {
    map_vec(rt, endpoints, &|endpoint| run(rt, alloc, endpoint)).ok()
}

/// What is asked for on the command line.
#[derive(Clone, Copy, Drop)]
enum Asked {
    All,
    Two,
    Idle,
}

/// What the first word asks for.
fn read_words(rt: &HostRuntime) -> io::Result<Asked> {
    let mut words = env::args(rt)?;
    let _name = words.next();
    let Some(word) = words.next() else {
        return Ok(Asked::All);
    };
    match word.as_str() {
        "two" => Ok(Asked::Two),
        "idle" => Ok(Asked::Idle),
        _ => Ok(Asked::All),
    }
}

/// Tells what a peer came to.
fn tell(rt: &HostRuntime, asked: Asked, ran: &Ran) -> io::Result<()> {
    match ran {
        Ran::Server(Ok(served)) => println!(rt; "server: {} requests answered", served.requests),
        Ran::Client(Ok(seen)) => {
            println!(rt;
                "client: {} answered, {} timed out",
                seen.answered, seen.timed_out
            )?;
            match asked {
                Asked::Two => {
                    println!(rt; "client: {} ns each", seen.nanos / u64::from(REQUESTS))
                }
                Asked::All | Asked::Idle => Ok(()),
            }
        }
        Ran::Server(Err(why)) | Ran::Client(Err(why)) => println!(rt; "stopped: {why:?}"),
    }
}

/// So many peers in so many threads, and what each came to.
fn run_all<R: Threads + Wait + rt::Clock + Sync>(
    rt: &R,
    alloc: Global,
    peers: u32,
) -> Option<Vec<Ran>> {
    match open(alloc, &Hints::new().peers(peers).sleeping(true)) {
        Ok(domain) => all(rt, alloc, domain.endpoints),
        Err(_) => None,
    }
}

/// Whether an endpoint for which nothing comes was waited at for so long, asleep.
fn idles<R: Wait + rt::Clock, E: Calls + Sleeps + Drop>(
    rt: &R,
    mut endpoints: Vec<EndpointOver<E>>,
) -> bool {
    let Some(endpoint) = endpoints.pop() else {
        return false;
    };
    let (mut endpoint, sleeper) = with_sleeper(endpoint);
    let clock = SystemClock::new(rt);
    let mut waiter = Waiter { sleeper, clock };
    let polled = wait(
        rt,
        &mut endpoint,
        &mut waiter,
        Duration::from_secs(IDLE_SECONDS),
    );
    matches!(&polled, Ok(Polled::Idle | Polled::More))
}

/// Whether one peer slept so long.
fn run_idle<R: Wait + rt::Clock>(rt: &R, alloc: Global) -> bool {
    match open(alloc, &Hints::new().peers(1).sleeping(true)) {
        Ok(domain) => idles(rt, domain.endpoints),
        Err(_) => false,
    }
}

/// Tells what each peer came to.
fn tell_all(rt: &HostRuntime, asked: Asked, ran: Option<Vec<Ran>>) -> io::Result<()> {
    let Some(ran) = ran else {
        return println!(rt; "no endpoints, or no memory");
    };
    for one in ran.iter() {
        tell(rt, asked, one)?;
    }
    Ok(())
}

fn main(rt: HostRuntime) -> io::Result<()> {
    let asked = read_words(&rt)?;
    match asked {
        Asked::All => tell_all(&rt, asked, run_all(&rt, rt.alloc(), 4)),
        Asked::Two => tell_all(&rt, asked, run_all(&rt, rt.alloc(), 2)),
        Asked::Idle => {
            let idle = run_idle(&rt, rt.alloc());
            println!(rt; "idle for {IDLE_SECONDS} seconds: {idle}")
        }
    }
}
