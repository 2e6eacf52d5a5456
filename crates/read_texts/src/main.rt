//! Reads texts, and prints what came of each: scripts, files of rounds, and reports of runs.
//!
//! Its rows stand in standard input, one a line, each with what came of it in standard output. So a row costs no proof.
#![tactic(auto)]

mod reports;
mod rounds;
mod scripts;

use fab_base::NoMemory;
use fab_test_helpers::add_spelled;
use reports::{add_judged, changed};
use rounds::{add_plan, add_rounds};
use scripts::{add_files, add_read, add_said};
use std::alloc::Global;
use std::io;

/// What a row asks.
#[derive(Clone, Copy)]
enum Verb {
    /// From here on this stands in front of each text, and is the script of each report.
    After,
    Read,
    Print,
    Bind,
    Rounds,
    Plan,
    Report,
    /// The last report, with a change.
    Change,
    /// A line for who reads the rows.
    Remark,
}

/// What is kept from row to row, as the rows spell it.
#[derive(Drop)]
struct Kept {
    front: String,
    report: String,
}

fn verb_of(word: &str) -> Verb {
    match word {
        "after" => Verb::After,
        "read" => Verb::Read,
        "print" => Verb::Print,
        "bind" => Verb::Bind,
        "rounds" => Verb::Rounds,
        "plan" => Verb::Plan,
        "report" => Verb::Report,
        "change" => Verb::Change,
        _ => Verb::Remark,
    }
}

/// What these texts spell, one behind the other.
fn spelled(alloc: Global, front: &str, text: &str) -> Result<Vec<u8>, NoMemory> {
    let mut bytes = Vec::new(alloc);
    add_spelled(alloc, &mut bytes, front)?;
    add_spelled(alloc, &mut bytes, text)?;
    Ok(bytes)
}

fn add_told(alloc: Global, out: &mut String, verb: Verb, text: &[u8]) -> Result<(), NoMemory> {
    match verb {
        Verb::Read => add_read(alloc, out, text),
        Verb::Print => add_said(alloc, out, text),
        Verb::Bind => add_files(alloc, out, text),
        Verb::Rounds => add_rounds(alloc, out, text),
        Verb::Plan => add_plan(alloc, out, text),
        Verb::After | Verb::Report | Verb::Change | Verb::Remark => Ok(()),
    }
}

/// What came of a text behind this front.
fn told(alloc: Global, verb: Verb, front: &str, text: &str) -> Result<String, NoMemory> {
    let text = spelled(alloc, front, text)?;
    let mut out = String::new(alloc);
    add_told(alloc, &mut out, verb, text.as_slice())?;
    Ok(out)
}

/// What is said of a report of this script.
fn judged(alloc: Global, script: &str, report: &str) -> Result<String, NoMemory> {
    let script = spelled(alloc, script, "")?;
    let report = spelled(alloc, report, "")?;
    let mut out = String::new(alloc);
    add_judged(alloc, &mut out, script.as_slice(), report.as_slice())?;
    Ok(out)
}

/// What is said of a report with this change.
fn judged_again(alloc: Global, kept: &Kept, change: &str) -> Result<String, NoMemory> {
    let report = changed(alloc, kept.report.as_str(), change)?;
    judged(alloc, kept.front.as_str(), report.as_str())
}

/// Prints a text with what came of it: on the lines behind it, or in front of it.
fn tell<R: Print>(
    rt: &R,
    is_long: bool,
    text: &str,
    told: Result<String, NoMemory>,
) -> io::Result<()> {
    match told {
        Ok(told) => {
            if is_long {
                println!(rt; "{}\n{}", text, told)
            } else {
                println!(rt; "{}: {}", told, text)
            }
        }
        Err(NoMemory) => println!(rt; "no memory: {}", text),
    }
}

fn keep(kept: &mut String, text: &str) -> Result<(), NoMemory> {
    kept.clear();
    kept.push_str(text)?;
    Ok(())
}

/// Tries a row.
fn try_row<R: Print + AllocGlobal>(rt: &R, row: &str, kept: &mut Kept) -> io::Result<()> {
    let alloc = rt.alloc();
    let (word, text) = row.split_once(' ').unwrap_or((row, ""));
    let verb = verb_of(word);
    match verb {
        Verb::Remark => println!(rt; "{}", row),
        Verb::After => match keep(&mut kept.front, text) {
            Ok(()) => println!(rt; "{}", row),
            Err(NoMemory) => println!(rt; "no memory"),
        },
        Verb::Report => match keep(&mut kept.report, text) {
            Ok(()) => tell(rt, false, text, judged(alloc, kept.front.as_str(), text)),
            Err(NoMemory) => println!(rt; "no memory"),
        },
        Verb::Change => tell(rt, false, text, judged_again(alloc, kept, text)),
        Verb::Read | Verb::Rounds => {
            tell(
                rt,
                false,
                text,
                told(alloc, verb, kept.front.as_str(), text),
            )
        }
        Verb::Print | Verb::Bind | Verb::Plan => {
            tell(rt, true, text, told(alloc, verb, kept.front.as_str(), text))
        }
    }
}

fn main(rt: HostRuntime) -> io::Result<()> {
    let mut kept = Kept {
        front: String::new(rt.alloc()),
        report: String::new(rt.alloc()),
    };
    for row in rt.lines(rt.alloc()) {
        let row = row?;
        try_row(&rt, row.as_str(), &mut kept)?;
    }
    Ok(())
}
