//! Rows of commands over memory: each changes what the next is carried out over, or is one, and is told with what came of it.
use crate::carrying::{End, carry_turns};
use crate::counting::RANKS;
use crate::full::full_script;
use crate::setting::{Setting, spelled_text};
use fab_base::{NoMemory, Text};
use fab_outside::{MemoryDepot, MemorySink};
use std::alloc::Global;
use std::sync::Wait;
use std::thread::Threads;

/// The words of a command; none where the text is empty.
fn words_of(alloc: Global, text: &str) -> Result<Vec<Text>, NoMemory> {
    let mut words = Vec::new(alloc);
    if text.is_empty() {
        return Ok(words);
    }
    for word in text.split(' ') {
        let word = spelled_text(alloc, word)?;
        let Ok(()) = words.push(word) else {
            return Err(NoMemory);
        };
    }
    Ok(words)
}

fn add_bytes(out: &mut String, bytes: &[u8]) -> Result<(), NoMemory> {
    out.push_str(str::from_utf8(bytes).unwrap_or("no text"))?;
    Ok(())
}

/// The turns that each rank had, a digit for each round, of which the last one comes first: round 0, which only windows have, is the
/// last digit.
fn add_turns(out: &mut String, turns: [u64; RANKS]) -> Result<(), NoMemory> {
    out.push_str("-- turns by rank and round:")?;
    for rank in turns {
        write!(out, " {rank:x}")?;
    }
    out.push('\n')?;
    Ok(())
}

/// How a command ended, what it loaded and wrote, and what it told on standard error.
fn add_end(
    out: &mut String,
    end: End,
    depot: &MemoryDepot,
    sink: &MemorySink,
    errors: &MemorySink,
) -> Result<(), NoMemory> {
    let End {
        code,
        asked,
        seen,
        turns,
    } = end;
    write!(
        out,
        "-- exit {code}, loads {} failed {}, writes {} failed {}, clock {asked}, turns {seen}\n",
        depot.calls, depot.faults, sink.calls, sink.faults
    )?;
    if let Some(turns) = turns {
        add_turns(out, turns)?;
    }
    add_bytes(out, errors.bytes.as_slice())
}

/// Carries a command out over this depot and this output, and keeps what it wrote.
fn add_carried<R: Threads + Wait + Sync>(
    rt: &R,
    alloc: Global,
    out: &mut String,
    setting: &mut Setting,
    text: &str,
    mut depot: MemoryDepot,
) -> Result<(), NoMemory> {
    let words = words_of(alloc, text)?;
    let moments = setting.clock(alloc)?;
    let mut sink = setting.sink(alloc)?;
    let mut errors = MemorySink::new(alloc, 1000, Vec::new(alloc));
    let turns = setting.turns;
    let end = carry_turns(
        rt,
        alloc,
        words.as_slice(),
        &mut depot,
        &mut sink,
        &mut errors,
        moments,
        turns,
    );
    add_end(out, end, &depot, &sink, &errors)?;
    setting.last = sink.bytes;
    Ok(())
}

/// Carries a command out.
fn add_run<R: Threads + Wait + Sync>(
    rt: &R,
    alloc: Global,
    out: &mut String,
    setting: &mut Setting,
    text: &str,
) -> Result<(), NoMemory> {
    match setting.depot(alloc) {
        Ok(depot) => add_carried(rt, alloc, out, setting, text, depot),
        Err(NoMemory) => Err(NoMemory),
    }
}

/// Whether what was written last has this text.
fn add_has(alloc: Global, out: &mut String, setting: &Setting, text: &str) -> Result<(), NoMemory> {
    let wanted = spelled_text(alloc, text)?;
    let last = str::from_utf8(setting.last.as_slice()).unwrap_or("");
    let has = last.split_once(wanted.as_str()).is_some();
    out.push_str(if has { "has it\n" } else { "has it not\n" })?;
    Ok(())
}

/// What came of a row, behind the row itself. A row that changes what commands are carried out over is not told.
pub(crate) fn add_row<R: Threads + Wait + Sync>(
    rt: &R,
    alloc: Global,
    out: &mut String,
    setting: &mut Setting,
    row: &str,
) -> Result<(), NoMemory> {
    let (word, text) = row.split_once(' ').unwrap_or((row, ""));
    match word {
        "clear" => {
            *setting = Setting::new(alloc);
            Ok(())
        }
        "file" => setting.add_file(alloc, text),
        "full" => setting.add_file(alloc, full_script(alloc)?.as_str()),
        "fails" => {
            setting.set_failing(text);
            Ok(())
        }
        "clock" => setting.set_moments(alloc, text),
        "turns" => {
            setting.set_turns(text);
            Ok(())
        }
        _ => add_told(rt, alloc, out, setting, row, word, text),
    }
}

/// The same of a row that is told.
fn add_told<R: Threads + Wait + Sync>(
    rt: &R,
    alloc: Global,
    out: &mut String,
    setting: &mut Setting,
    row: &str,
    word: &str,
    text: &str,
) -> Result<(), NoMemory> {
    out.push_str(row)?;
    out.push('\n')?;
    match word {
        "run" => {
            add_run(rt, alloc, out, setting, text)?;
            add_bytes(out, setting.last.as_slice())
        }
        "quiet" => add_run(rt, alloc, out, setting, text),
        "has" => add_has(alloc, out, setting, text),
        _ => Ok(()),
    }
}
