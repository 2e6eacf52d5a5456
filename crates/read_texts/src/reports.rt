//! What the checker says of a text as the report of a script.
use crate::scripts::add_refused;
use fab_base::{Bound, NoMemory, Script};
use fab_replay::check;
use fab_script::{bind, parse};
use std::alloc::Global;

/// A text with the new in the place of the old.
fn replaced(alloc: Global, text: &str, old: &str, new: &str) -> Result<String, NoMemory> {
    let (front, back) = text.split_once(old).unwrap_or((text, ""));
    let mut out = String::new(alloc);
    out.push_str(front)?;
    out.push_str(new)?;
    out.push_str(back)?;
    Ok(out)
}

/// `OLD=>NEW`: a text with the new in the place of the old.
pub(crate) fn changed(alloc: Global, text: &str, change: &str) -> Result<String, NoMemory> {
    let (old, new) = change.split_once("=>").unwrap_or((change, ""));
    replaced(alloc, text, old, new)
}

fn add_verdict(
    alloc: Global,
    out: &mut String,
    bound: Bound,
    report: &[u8],
) -> Result<(), NoMemory> {
    let verdict = check(alloc, &bound, report);
    drop(bound);
    let line = verdict?.line(alloc)?;
    out.push_str(line.as_str().trim_end())?;
    Ok(())
}

/// The verdict on the report of a script without payload files.
fn add_verdict_on(
    alloc: Global,
    out: &mut String,
    script: Script,
    report: &[u8],
) -> Result<(), NoMemory> {
    if !script.payloads.as_slice().is_empty() {
        return Err(NoMemory);
    }
    match bind(script, Vec::new(alloc)) {
        Ok(bound) => add_verdict(alloc, out, bound, report),
        Err(refused) => add_refused(out, refused),
    }
}

/// The verdict on the report of the script that a text says.
pub(crate) fn add_judged(
    alloc: Global,
    out: &mut String,
    script: &[u8],
    report: &[u8],
) -> Result<(), NoMemory> {
    match parse(alloc, script) {
        Ok(script) => add_verdict_on(alloc, out, script, report),
        Err(refused) => add_refused(out, refused),
    }
}
