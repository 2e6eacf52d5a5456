//! What came of a text as a file of rounds.
ghost use Rattle.fab_workloads.specs.Rounds.{AreWithin};

use crate::scripts::{add_numbers, add_refused};
use fab_base::{Bound, NoMemory};
use fab_script::print;
use fab_workloads::{CollScript, plan, read_rounds};
use std::alloc::Global;

fn add_sizes(out: &mut String, script: CollScript) -> Result<(), NoMemory> {
    let rounds = script.rounds.as_slice().len();
    write!(out, "read, peers {}, rounds {}", script.peers, rounds)?;
    Ok(())
}

/// Whether a text is read, or at which line it is refused, and why.
pub(crate) fn add_rounds(alloc: Global, out: &mut String, text: &[u8]) -> Result<(), NoMemory> {
    match read_rounds(alloc, text) {
        Ok(script) => add_sizes(out, script),
        Err(refused) => add_refused(out, refused),
    }
}

/// The numbers of the lines of a script, and how it is printed.
fn add_script(alloc: Global, out: &mut String, bound: Bound) -> Result<(), NoMemory> {
    add_numbers(out, bound.script.peers.as_slice())?;
    let text = print(alloc, &bound.script)?;
    out.push_str(text.as_str())?;
    Ok(())
}

/// At which lines its rounds stand.
fn add_places(out: &mut String, script: &CollScript) -> Result<(), NoMemory> {
    write!(out, "peers {} rounds at", script.peers)?;
    for round in script.rounds.as_slice() {
        write!(out, " {}", round.line)?;
    }
    out.push('\n')?;
    Ok(())
}

/// The script that does the rounds.
fn add_plan_of(alloc: Global, out: &mut String, script: CollScript) -> Result<(), NoMemory>
    requires { AreWithin script.peers script.rounds }
{
    match plan(alloc, &script) {
        Ok(bound) => {
            add_places(out, &script)?;
            add_script(alloc, out, bound)
        }
        Err(NoMemory) => Err(NoMemory),
    }
}

/// The script that does the rounds of a text.
pub(crate) fn add_plan(alloc: Global, out: &mut String, text: &[u8]) -> Result<(), NoMemory> {
    match read_rounds(alloc, text) {
        Ok(script) => add_plan_of(alloc, out, script),
        Err(refused) => add_refused(out, refused),
    }
}
