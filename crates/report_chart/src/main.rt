//! Draws the run that a report tells, as a sequence chart in SVG on standard output.
//!
//! `report_chart FILE TRACE` takes a script and the report of a run of it, as `fabric_pingpong replay FILE TRACE` does. Where the report is
//! not that of a lawful run nothing is drawn: the line that `replay` has for it goes to standard error, and the exit status is 1.
//! The others are those of `fabric_pingpong`.
#![tactic(auto)]

mod drawing;
mod loading;
mod not_drawn;

use drawing::draw;
use fab_base::{NoMemory, Text};
use loading::{load, load_script};
use not_drawn::NotDrawn;
use std::process::ExitCode;
use std::rt::{Env, Files};

/// The two files, where the words are as many.
fn files_of<R: Env + AllocGlobal>(rt: &R) -> Result<(Text, Text), NotDrawn> {
    let Ok(args) = std::env::args(rt) else {
        return Err(NotDrawn::Usage);
    };
    let mut words = Vec::new(rt.alloc());
    for arg in args.skip(1) {
        let word = Text::copy(rt.alloc(), arg.as_str())?;
        let Ok(()) = words.push(word) else {
            return Err(NotDrawn::NoMemory);
        };
    }
    let (Some(trace), Some(file), None) = (words.pop(), words.pop(), words.pop()) else {
        return Err(NotDrawn::Usage);
    };
    Ok((file, trace))
}

/// The chart of the report, where it is that of a lawful run of the script.
fn chart<R: Env + Files + AllocGlobal>(rt: &R) -> Result<String, NotDrawn> {
    let (file, trace) = files_of(rt)?;
    let bound = load_script(rt, &file)?;
    let text = load(rt, &trace)?;
    draw(rt.alloc(), &bound, text.as_slice())
}

/// Writes the chart, or tells in one line why there is none.
fn main(rt: HostRuntime) -> ExitCode {
    let refused = match chart(&rt) {
        Ok(chart) => match print!(rt; "{}", chart) {
            Ok(()) => return ExitCode::SUCCESS,
            Err(_) => NotDrawn::Unwritten,
        },
        Err(refused) => refused,
    };
    let _ = refused.tell(&rt);
    ExitCode::from(refused.code())
}
