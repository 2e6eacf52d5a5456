//! Times endpoints between two threads, each over lanes that both share.
//!
//! `endpoint_bench bench` prints a table: for tagged messages of 1, 64, 4,096 and 65,536 bytes and of 1 MiB a ping-pong, as
//! the time of one way, and a stream one way in windows of 16 with an acknowledgement, as the time of one message. Each
//! is the best and the median of 100 short runs. `endpoint_bench bench touched` prints those of 65,536 bytes and of 1 MiB where
//! each message is written before it is sent and read when it came. `endpoint_bench sleeping` prints that of `bench` in a domain that was
//! opened with sleeping, while nobody sleeps. `endpoint_bench soak` sends 1,000,000 messages of 64 bytes one way, and
//! `endpoint_bench soak NUMBER` so many, in whole windows of 16; they are for whoever looks at the memory that this takes.
//! `endpoint_bench alone` has both endpoints in one thread, and prints what it costs to put a message, to take one, and to look for
//! one in vain, for 1, 64 and 4,096 bytes. Behind `bench`, `bench touched`, `sleeping`, `soak NUMBER` and `alone` three numbers may
//! stand, `32 0 31`: how many peers are open, 2 to 64, and which two of them speak, the lower one first; the others are silent.
//! `endpoint_bench` without a word makes one run of each exchange and prints no time.
#![tactic(auto)]

mod measuring;
mod opening;
mod speaker;

use crate::measuring::{Measure, soak};
use crate::opening::{Peers, TWO, all_times, costs, times};
use crate::speaker::COPIED;
use fab_bench::table::{print_costs, print_table};
use std::{env, io};

/// How many runs of each exchange the table has.
const RUNS: u64 = 100;

/// How many batches of calls are timed in one thread.
const ALONE: u64 = 10_000;

/// How many messages a soak has where nothing is said.
const SOAKED: u64 = 1_000_000;

/// What is printed where there is nothing to measure.
const NONE: &str = "no such two peers among so many, or no memory";

/// What is asked for on the command line.
enum Asked {
    Nothing,
    Bench { is_touched: bool, peers: Peers },
    Soak { messages: u64, peers: Peers },
    Alone { peers: Peers },
}

/// What the first words ask for.
fn read_words(rt: &HostRuntime) -> io::Result<Asked> {
    let mut words = env::args(rt)?;
    let _name = words.next();
    let Some(word) = words.next() else {
        return Ok(Asked::Nothing);
    };
    match word.as_str() {
        "bench" => Ok(bench_of(words.next(), words.next(), words.next(), words.next())),
        "sleeping" => Ok(Asked::Bench {
            is_touched: false,
            peers: Peers {
                sleeping: true,
                ..peers_of(words.next(), words.next(), words.next())
            },
        }),
        "soak" => Ok(Asked::Soak {
            messages: number(words.next()),
            peers: peers_of(words.next(), words.next(), words.next()),
        }),
        "alone" => Ok(Asked::Alone {
            peers: peers_of(words.next(), words.next(), words.next()),
        }),
        _ => Ok(Asked::Nothing),
    }
}

/// The table that four words ask for: the first may be `touched`, and numbers of peers follow.
fn bench_of(
    first: Option<String>,
    second: Option<String>,
    third: Option<String>,
    fourth: Option<String>,
) -> Asked {
    match first {
        Some(word) if word.as_str() == "touched" => Asked::Bench {
            is_touched: true,
            peers: peers_of(second, third, fourth),
        },
        word => Asked::Bench {
            is_touched: false,
            peers: peers_of(word, second, third),
        },
    }
}

/// How many peers are open, and the two that speak: those of two peers where nothing is said.
fn peers_of(all: Option<String>, left: Option<String>, right: Option<String>) -> Peers {
    Peers {
        all: peer(all, TWO.all),
        left: peer(left, TWO.left),
        right: peer(right, TWO.right),
        sleeping: false,
    }
}

/// The number of peers or of a peer that a word is, and another where no word stands.
fn peer(word: Option<String>, usual: u32) -> u32 {
    match word {
        Some(word) => word.as_str().parse::<u32>().unwrap_or(0),
        None => usual,
    }
}

/// How many messages a word asks for.
fn number(word: Option<String>) -> u64 {
    match word {
        Some(word) => word.as_str().parse::<u64>().unwrap_or(0),
        None => SOAKED,
    }
}

/// What each call costs in one thread, for messages of so many bytes.
fn print_alone(rt: &HostRuntime, peers: &Peers) -> io::Result<()> {
    for len in [1, 64, COPIED] {
        match costs(rt, rt.alloc(), len, ALONE, peers)? {
            Some(costs) => print_costs(rt, costs)?,
            None => return println!(rt; "{NONE}"),
        }
    }
    Ok(())
}

fn main(rt: HostRuntime) -> io::Result<()> {
    match read_words(&rt)? {
        Asked::Bench { is_touched, peers } => {
            let all = all_times(&rt, rt.alloc(), RUNS, is_touched, peers)?;
            if all.is_empty() {
                return println!(rt; "{NONE}");
            }
            print_table(&rt, all)
        }
        Asked::Soak { messages, peers } => {
            let measure = Measure {
                exchange: soak(messages),
                runs: 0,
                is_touched: false,
                peers,
            };
            let soaked = times(&rt, rt.alloc(), &measure)?;
            if soaked.is_empty() {
                return println!(rt; "{NONE}");
            }
            println!(rt; "{messages} messages")
        }
        Asked::Alone { peers } => print_alone(&rt, &peers),
        Asked::Nothing => {
            let all = all_times(&rt, rt.alloc(), 0, false, TWO)?;
            println!(rt; "{} exchanges", all.len())
        }
    }
}
