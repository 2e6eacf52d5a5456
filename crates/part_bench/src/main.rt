//! Times parts of the library by themselves; the first word says which.
//!
//! `part_bench match` prints a line for each power of two up to 4,096: so many receives posted with tags of their own, and as many
//! unexpected messages: the time in which one is matched, taken out and put in again, as the best of many short runs.
//!
//! `part_bench transmit` prints a line for 1, 64 and 1,024 operations under way, the others being reads that await their
//! replies: the time of an injected message (accepted, transmitted), of a read that is answered in its turn (accepted,
//! transmitted, answered as the oldest), and of one that is answered out of turn (as the newest), each the best of many
//! short runs.
//!
//! `part_bench window` prints a line for 1, 2 and 4 threads at each of three layouts: all on one word, each on a word of
//! its own beside the others', and each on a word 16 words (128 bytes) from the next. A line has the time of one addition,
//! as its thread sees it, by `WindowSeat::add` and by `fetch_add` of std's `AtomicU64`: the best and the median of many
//! short runs.
//!
//! `part_bench meeting MEMBERS MEETINGS ROUNDS` prints the nanoseconds of a meeting, where the threads of all members stay,
//! and of a round, where each round starts and joins a thread for each member.
//!
//! `part_bench` alone makes short runs of all four and prints no time.
#![tactic(auto)]

mod adding;
mod matches;
mod meetings;
mod moments;
mod stores;
mod timing;
mod transmits;
mod windows;

use crate::meetings::Sizes;
use std::alloc::Global;
use std::sync::Wait;
use std::thread::Threads;
use std::time::Clock;
use std::{env, io};

/// What is asked for on the command line.
enum Asked {
    Nothing,
    Matches,
    Transmits,
    Windows,
    Meetings(Sizes),
    Unknown,
}

/// The number that a word tells, or this one where it is lacking or no number.
fn number(word: Option<String>, otherwise: u32) -> u32 {
    match word {
        Some(word) => word.as_str().parse::<u32>().unwrap_or(otherwise),
        None => otherwise,
    }
}

/// What the words ask for.
fn read_words(rt: &HostRuntime) -> io::Result<Asked> {
    let mut words = env::args(rt)?;
    let _name = words.next();
    let Some(word) = words.next() else {
        return Ok(Asked::Nothing);
    };
    Ok(match word.as_str() {
        "match" => Asked::Matches,
        "transmit" => Asked::Transmits,
        "window" => Asked::Windows,
        "meeting" => Asked::Meetings(Sizes {
            members: number(words.next(), 2),
            meetings: number(words.next(), 1000),
            rounds: number(words.next(), 100),
        }),
        _ => Asked::Unknown,
    })
}

/// Short runs of all parts.
fn run_all<R: Print + Clock + Threads + Wait + Sync>(rt: &R, alloc: Global) -> io::Result<()> {
    println!(rt; "== match")?;
    matches::run_short(rt, alloc)?;
    println!(rt; "== transmit")?;
    transmits::run_short(rt, alloc)?;
    println!(rt; "== window")?;
    windows::run_short(rt, alloc)?;
    println!(rt; "== meeting")?;
    meetings::run_short(rt, alloc)
}

fn main(rt: HostRuntime) -> io::Result<()> {
    match read_words(&rt)? {
        Asked::Nothing => run_all(&rt, rt.alloc()),
        Asked::Matches => matches::measure(&rt, rt.alloc()),
        Asked::Transmits => transmits::measure(&rt, rt.alloc()),
        Asked::Windows => windows::measure(&rt, rt.alloc()),
        Asked::Meetings(sizes) => meetings::measure(&rt, rt.alloc(), sizes),
        Asked::Unknown => {
            println!(rt; "the words are: match, transmit, window, meeting MEMBERS MEETINGS ROUNDS")
        }
    }
}
