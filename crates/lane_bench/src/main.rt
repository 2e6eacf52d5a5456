//! Times the lanes between two threads, each with a port of its own.
//!
//! `lane_bench measure` prints a table: for messages of 1, 64 and 4,096 bytes a ping-pong, as the time of one
//! way, and a stream one way in windows of 16 with an acknowledgement, as the time of one message. Each is the
//! best and the median of 200 short runs. `lane_bench alone` has both ends in one thread, and prints what it costs to put a message, to
//! take one, and to look for one in vain. `lane_bench` without a word makes two runs of each exchange and prints no time.
#![tactic(auto)]

mod end;

ghost use Rattle.std.specs.Prelude.{IfSome};
ghost use Rattle.lane_bench.specs.Ports.{IsNew, AreNew};

use crate::end::End;
use fab_bench::alone::alone;
use fab_bench::runs::{Bytes, Exchange, Times, first, second};
use fab_bench::table::{print_costs, print_table};
use fab_ring::{RingPort, Rings};
use std::alloc::Global;
use std::sync::Wait;
use std::thread::Threads;
use std::time::Clock;
use std::{env, io, thread};

/// The most bytes of a message.
const MOST: usize = 4096;

/// What is measured: ping-pongs, and streams with an acknowledgement of 4 bytes.
const EXCHANGES: [Exchange; 6] = [
    Exchange {
        is_stream: false,
        len: 1,
        window: 1,
        reply: 1,
        rounds: 1000,
    },
    Exchange {
        is_stream: false,
        len: 64,
        window: 1,
        reply: 64,
        rounds: 1000,
    },
    Exchange {
        is_stream: false,
        len: 4096,
        window: 1,
        reply: 4096,
        rounds: 500,
    },
    Exchange {
        is_stream: true,
        len: 1,
        window: 16,
        reply: 4,
        rounds: 500,
    },
    Exchange {
        is_stream: true,
        len: 64,
        window: 16,
        reply: 4,
        rounds: 500,
    },
    Exchange {
        is_stream: true,
        len: 4096,
        window: 16,
        reply: 4,
        rounds: 200,
    },
];

/// How many runs of each exchange a measurement has.
const RUNS: u64 = 200;

/// How many batches of calls are timed in one thread.
const ALONE: u64 = 10_000;

/// What is asked for on the command line.
enum Asked {
    Nothing,
    Table,
    Alone,
}

/// What the first word asks for.
fn read_words(rt: &HostRuntime) -> io::Result<Asked> {
    let mut words = env::args(rt)?;
    let _name = words.next();
    let Some(word) = words.next() else {
        return Ok(Asked::Nothing);
    };
    Ok(match word.as_str() {
        "measure" => Asked::Table,
        "alone" => Asked::Alone,
        _ => Asked::Nothing,
    })
}

/// The last of some new ports.
fn last(ports: &mut Vec<RingPort>, peers: u32) -> Option<RingPort>
    requires { AreNew peers ports.old.items }
    ensures rest { AreNew peers ports.new.items }
    ensures new { IfSome result (IsNew peers) }
{
    ports.pop()
}

/// Both ends of a lane each way.
fn ends(alloc: Global) -> Option<(End, End)> {
    let Ok(rings) = Rings::new(alloc, 2, 64, 64) else {
        return None;
    };
    let Ok(mut ports) = rings.ports(alloc) else {
        return None;
    };
    let right = last(&mut ports, 2)?;
    let left = last(&mut ports, 2)?;
    Some((End::new(left, 1), End::new(right, 0)))
}

/// The times of all exchanges between two threads.
fn measured<R: Clock + Threads + Wait + Sync>(
    rt: &R,
    alloc: Global,
    runs: u64,
) -> io::Result<Vec<Times>> {
    let Some((left, right)) = ends(alloc) else {
        return Ok(Vec::new(alloc));
    };
    let mine = Bytes::new(alloc, MOST)?;
    let other = Bytes::new(alloc, MOST)?;
    let (all, _) = thread::join(
        rt,
        || -> io::Result<Vec<Times>> { first(rt, alloc, left, mine, &EXCHANGES, runs) },
        || -> () { second(rt, right, other, &EXCHANGES, runs) },
    );
    all
}

/// Prints what each call costs in one thread, for messages of so many bytes.
fn print_alone(rt: &HostRuntime) -> io::Result<()> {
    for len in [1, 64, MOST] {
        if let Some((mut left, mut right)) = ends(rt.alloc()) {
            let costs = alone(rt, rt.alloc(), &mut left, &mut right, len, ALONE)?;
            print_costs(rt, costs)?;
        }
    }
    Ok(())
}

fn main(rt: HostRuntime) -> io::Result<()> {
    match read_words(&rt)? {
        Asked::Table => {
            let all = measured(&rt, rt.alloc(), RUNS)?;
            print_table(&rt, all)
        }
        Asked::Alone => print_alone(&rt),
        Asked::Nothing => {
            let all = measured(&rt, rt.alloc(), 2)?;
            println!(rt; "{} exchanges", all.len())
        }
    }
}
