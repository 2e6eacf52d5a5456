//! The table that is printed.
use crate::alone::{BATCH, Costs};
use crate::runs::Times;
use std::io;

/// How many messages went one way in each run of this exchange, where a reply of a ping-pong counts.
fn messages(times: &Times) -> u64 {
    let ways = if times.exchange.is_stream {
        times.exchange.window
    } else {
        2
    };
    times.exchange.rounds.saturating_mul(ways)
}

/// Tenths of a nanosecond for each message.
fn tenths(nanos: u64, messages: u64) -> u64 {
    nanos.saturating_mul(10) / messages.max(1)
}

/// Thousands of messages in a second.
fn rate(tenths: u64) -> u64 {
    10_000_000 / tenths.max(1)
}

/// Millions of bytes in a second.
fn bandwidth(tenths: u64, len: usize) -> u64 {
    (len as u64).saturating_mul(10_000) / tenths.max(1)
}

/// The number at this place of a list in order, or 0.
fn at(nanos: &[u64], place: usize) -> u64 {
    if place < nanos.len() { nanos[place] } else { 0 }
}

/// Prints a line for one exchange: its best and its median run.
pub fn print_line<R: Print>(rt: &R, mut times: Times) -> io::Result<()> {
    times.nanos.sort()?;
    let count = messages(&times);
    let len = times.exchange.len;
    let best = tenths(at(times.nanos.as_slice(), 0), count);
    let median = tenths(at(times.nanos.as_slice(), times.nanos.len() / 2), count);
    let kind = if times.exchange.is_stream {
        "stream "
    } else {
        "one way"
    };
    let (rate, bandwidth) = (rate(best), bandwidth(best, len));
    println!(rt;
        "{kind} {len:>5} B  best {}.{} ns  median {}.{} ns  {rate} thousand/s  {bandwidth} MB/s",
        best / 10,
        best % 10,
        median / 10,
        median % 10
    )
}

/// Prints a line for each exchange.
pub fn print_table<R: Print>(rt: &R, all: Vec<Times>) -> io::Result<()> {
    for times in all {
        print_line(rt, times)?;
    }
    Ok(())
}

/// Prints a line for one kind of call: its best and its median batch, for each call.
fn print_cost<R: Print>(rt: &R, name: &str, len: usize, mut nanos: Vec<u64>) -> io::Result<()> {
    nanos.sort()?;
    let best = tenths(at(nanos.as_slice(), 0), BATCH);
    let median = tenths(at(nanos.as_slice(), nanos.len() / 2), BATCH);
    println!(rt;
        "{name} {len:>5} B  best {}.{} ns  median {}.{} ns",
        best / 10,
        best % 10,
        median / 10,
        median % 10
    )
}

/// Prints a line for each kind of call.
pub fn print_costs<R: Print>(rt: &R, costs: Costs) -> io::Result<()> {
    print_cost(rt, "put   ", costs.len, costs.put)?;
    print_cost(rt, "taken ", costs.len, costs.taken)?;
    print_cost(rt, "none  ", costs.len, costs.idle)
}
