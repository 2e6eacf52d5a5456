//! Runs each example, one after another, and prints its report behind its name; then checks the report that is kept of it.
//! Then it runs the files of rounds and the commands that need no file, and the rows: scripts whose reports are
//! compared with those that are kept. At last come commands over memory, which are rows of standard input.
//!
//! One program for all of them: each program of the repository is built whole, by two compilers.
#![tactic(auto)]

mod carrying;
mod commands;
mod counting;
mod full;
mod setting;

use commands::add_row;
use fab_base::{NoMemory, Status, Text};
use fab_host::{FileDepot, OpenGate, OutSink, WallClock, carry_out};
use fab_outside::{Depot, MemorySink, Sink};
use setting::Setting;
use std::alloc::Global;
use std::rt::Files;
use std::sync::Wait;
use std::thread::Threads;
use std::{io, rt};

/// The scripts and their reports, in the folder in which the program runs.
const EXAMPLES: [(&str, &str); 14] = [
    ("empty.fabric", "empty.report"),
    ("canceled.fabric", "canceled.report"),
    ("stuck.fabric", "stuck.report"),
    ("levels.fabric", "levels.report"),
    ("large.fabric", "large.report"),
    ("claim.fabric", "claim.report"),
    ("discard.fabric", "discard.report"),
    ("looks.fabric", "looks.report"),
    ("multi.fabric", "multi.report"),
    ("onesided.fabric", "onesided.report"),
    ("atomics.fabric", "atomics.report"),
    ("files.fabric", "files.report"),
    ("fences.fabric", "fences.report"),
    ("events.fabric", "events.report"),
];

/// The files of rounds.
const ROUNDS: [&str; 5] = [
    "rounds.coll",
    "reduce.coll",
    "rows/rounds/each_kind.coll",
    "rows/rounds/none.coll",
    "rows/rounds/alone.coll",
];

/// Commands that need no file.
const COMMANDS: [(&str, &[&str]); 6] = [
    ("info", &["info", "-"]),
    ("info", &["info", "FI_TAGGED,FI_SEND"]),
    ("info", &["info", "FI_FENCE"]),
    ("window", &["window", "0", "2", "1", "1"]),
    ("window", &["window", "0", "1", "2", "0"]),
    (
        "window",
        &["window", "18446744073709551615", "2", "4", "20000"],
    ),
];

/// Rows of messages, looks and fences: scripts in the folder `rows`, and beside each the report that is kept of it.
const MESSAGES: [&str; 15] = [
    "messages/unexpected",
    "messages/cut",
    "messages/no_bytes",
    "messages/itself",
    "messages/not_granted",
    "messages/selective",
    "messages/refused",
    "messages/cut_of_any_source",
    "messages/no_bytes_of_any_source",
    "messages/itself_of_any_source",
    "looks/claimed",
    "looks/aside",
    "fences/held",
    "fences/passed",
    "fences/ring",
];

/// Rows of buffers for many messages.
const MULTIS: [&str; 8] = [
    "multis/parts",
    "multis/larger",
    "multis/drawn",
    "multis/held",
    "multis/refused",
    "multis/not_granted",
    "multis/canceled",
    "multis/cut",
];

/// Rows of regions, atomics, counters and addresses.
const REQUESTS: [&str; 13] = [
    "regions/bounds",
    "regions/read_only",
    "regions/remote_data",
    "regions/injected",
    "regions/far",
    "regions/no_key",
    "atomics/changed",
    "atomics/forms",
    "counters/counted",
    "counters/reached",
    "counters/events",
    "counters/no_events",
    "addresses/named",
];

/// The words of a command.
fn texts(alloc: Global, words: &[&str]) -> Result<Vec<Text>, NoMemory> {
    let mut texts = Vec::new(alloc);
    for word in words {
        texts.push(Text::copy(alloc, word)?)?;
    }
    Ok(texts)
}

/// How a command ended.
fn ending(status: &Status) -> &'static str {
    match status {
        Status::Done => "done",
        Status::Stuck => "stuck",
        _ => "not done",
    }
}

/// Carries out the command of these words, and says how it ended.
fn carry<R, S: Sink, E: Sink>(rt: &R, words: &[&str], sink: &mut S, errors: &mut E) -> &'static str
where
    R: Files + rt::Clock + AllocGlobal + Threads + Wait + Sync,
{
    let alloc = rt.alloc();
    let Ok(words) = texts(alloc, words) else {
        return "no memory";
    };
    let mut depot = FileDepot::new(rt);
    let mut clock = WallClock::new(rt);
    let ended = carry_out(
        rt, alloc, &words, &mut depot, sink, &mut clock, &OpenGate, errors,
    );
    ending(&ended.status)
}

/// Carries out one command, behind this name.
fn run_one<R, E: Sink>(rt: &R, errors: &mut E, name: &str, words: &[&str]) -> io::Result<()>
where
    R: Files + rt::Clock + Print + AllocGlobal + Threads + Wait + Sync,
{
    println!(rt; "== {}", name)?;
    let mut sink = OutSink::new(io::writer(rt));
    let ending = carry(rt, words, &mut sink, errors);
    println!(rt; "== {}", ending)
}

/// A sink over memory.
fn memory(alloc: Global) -> MemorySink {
    MemorySink::new(alloc, 4096, Vec::new(alloc))
}

/// Whether a file has these bytes.
fn is_kept<R: Files + AllocGlobal>(rt: &R, file: &str, bytes: &[u8]) -> bool {
    let alloc = rt.alloc();
    let Ok(name) = Text::copy(alloc, file) else {
        return false;
    };
    match FileDepot::new(rt).load(alloc, &name, 1_000_000) {
        Ok(kept) => kept.as_slice() == bytes,
        Err(_) => false,
    }
}

/// How the run of a script ended, and whether it wrote the report that is kept.
fn run_row<R>(rt: &R, script: &str, report: &str) -> (&'static str, bool)
where
    R: Files + rt::Clock + AllocGlobal + Threads + Wait + Sync,
{
    let mut sink = memory(rt.alloc());
    let mut errors = memory(rt.alloc());
    let ending = carry(rt, &["script", script], &mut sink, &mut errors);
    (ending, is_kept(rt, report, sink.bytes.as_slice()))
}

/// Runs a script, and asks `replay` of the report that is kept.
fn try_files<R, E: Sink>(rt: &R, errors: &mut E, script: &str, report: &str) -> io::Result<()>
where
    R: Files + rt::Clock + Print + AllocGlobal + Threads + Wait + Sync,
{
    let (ending, is_same) = run_row(rt, script, report);
    let same = if is_same { "as kept" } else { "not as kept" };
    println!(rt; "{}: {}, {}", script, ending, same)?;
    let mut sink = OutSink::new(io::writer(rt));
    let _ending = carry(rt, &["replay", script, report], &mut sink, errors);
    Ok(())
}

/// The name of a row's file with this ending.
fn file_of(alloc: Global, row: &str, ending: &str) -> Option<String> {
    format!(in alloc; "rows/{row}.{ending}").ok()
}

/// The same of the files of a row.
fn try_row<R, E: Sink>(rt: &R, errors: &mut E, row: &str) -> io::Result<()>
where
    R: Files + rt::Clock + Print + AllocGlobal + Threads + Wait + Sync,
{
    let alloc = rt.alloc();
    match (file_of(alloc, row, "fabric"), file_of(alloc, row, "report")) {
        (Some(script), Some(report)) => try_files(rt, errors, script.as_str(), report.as_str()),
        _ => println!(rt; "no memory"),
    }
}

/// Tries the rows of standard input.
fn try_rows<R>(rt: &R, setting: &mut Setting) -> io::Result<()>
where
    R: Input + Print + AllocGlobal + Threads + Wait + Sync,
{
    for row in rt.lines(rt.alloc()) {
        let row = row?;
        let mut out = String::new(rt.alloc());
        match add_row(rt, rt.alloc(), &mut out, setting, row.as_str()) {
            Ok(()) => print!(rt; "{}", out)?,
            Err(NoMemory) => println!(rt; "no memory: {}", row)?,
        }
    }
    Ok(())
}

/// Runs the examples, and asks `replay` of their reports.
fn run_examples<R, E: Sink>(rt: &R, errors: &mut E) -> io::Result<()>
where
    R: Files + rt::Clock + Print + AllocGlobal + Threads + Wait + Sync,
{
    for (script, report) in EXAMPLES {
        run_one(rt, errors, script, &["script", script])?;
        run_one(rt, errors, report, &["replay", script, report])?;
    }
    Ok(())
}

/// Runs the files of rounds.
fn run_rounds<R, E: Sink>(rt: &R, errors: &mut E) -> io::Result<()>
where
    R: Files + rt::Clock + Print + AllocGlobal + Threads + Wait + Sync,
{
    for file in ROUNDS {
        run_one(rt, errors, file, &["coll", file])?;
    }
    Ok(())
}

/// Runs the commands that need no file.
fn run_commands<R, E: Sink>(rt: &R, errors: &mut E) -> io::Result<()>
where
    R: Files + rt::Clock + Print + AllocGlobal + Threads + Wait + Sync,
{
    for (name, words) in COMMANDS {
        run_one(rt, errors, name, words)?;
    }
    Ok(())
}

/// Runs the scripts of these rows, and compares their reports.
fn try_all<R, E: Sink>(rt: &R, errors: &mut E, rows: &[&str]) -> io::Result<()>
where
    R: Files + rt::Clock + Print + AllocGlobal + Threads + Wait + Sync,
{
    for row in rows {
        try_row(rt, errors, row)?;
    }
    Ok(())
}

fn main(rt: HostRuntime) -> io::Result<()> {
    let mut errors = OutSink::new(rt.stderr());
    run_examples(&rt, &mut errors)?;
    run_rounds(&rt, &mut errors)?;
    run_commands(&rt, &mut errors)?;
    try_all(&rt, &mut errors, &MESSAGES)?;
    try_all(&rt, &mut errors, &MULTIS)?;
    try_all(&rt, &mut errors, &REQUESTS)?;
    try_rows(&rt, &mut Setting::new(rt.alloc()))
}
