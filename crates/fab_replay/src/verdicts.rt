//! The answer of the checker.
ghost use Rattle.std.specs.Prelude.{◌≡◌, ◌<◌, length, map, IfNone, IfOk, IfSome, MatchOption, None, bytes_eq, string_bytes, true, false};
ghost use Rattle.fab_model.specs.Orders.{replay};
ghost use Rattle.fab_model.specs.Peers.{fabric};
ghost use Rattle.fab_model.specs.Report.{report_of};
ghost use Rattle.fab_model.specs.Views.{rule};
ghost use Rattle.fab_replay.specs.Meaning.{IsOrderOf, Means};
ghost use Rattle.fab_replay.specs.Seen.{actors_of, steps_of, left_of, moment_of};
ghost use Rattle.fab_report.specs.Reading.{schedule_told};
ghost use Rattle.fab_replay.specs.Verdict.{first_left, common, compared, judged, verdict, verdict_line};

use crate::opening::open;
use crate::rest::are_at_rest;
use crate::turns::{Peer, run};
use crate::writing::report;
use fab_base::{Bound, NoMemory};
use fab_checker_values::lists::{narrowed, one_more};
use fab_report::read_schedule;
use std::alloc::Global;

/// What a checker says of a text, as the report of a run of a script.
#[derive(Clone, Copy, Drop, Eq, PartialEq)]
pub enum Verdict {
    /// It is the report of a lawful schedule, and `rest` says whether the peers are at rest at its end.
    Lawful { rest: bool },
    /// The schedule that it tells is not lawful: `peer` is the lowest peer with a step that cannot be
    /// taken, and `step` the number of that step in the peer's trace, from 1.
    Left { peer: u32, step: u64 },
    /// The schedule is lawful, and its report is another text: `at` is the offset of the first byte that
    /// differs, in bytes from 0, or the length of the shorter text where it is the front of the other.
    Differs { at: u64 },
    /// It tells no schedule: the lines that begin with `trace` are not as many as the script's peers, or
    /// one of them is not the word `trace` with steps behind it.
    NoSchedule,
}

impl Verdict {
    /// The verdict in a line.
    pub fn line(self, alloc: Global) -> Result<String, NoMemory>
        ensures { IfOk result (λ text. string_bytes text ≡ verdict_line self) }
    {
        let mut out = String::new(alloc);
        match self {
            Verdict::Lawful { rest: true } => out.push_str("lawful, at rest\n")?,
            Verdict::Lawful { rest: false } => out.push_str("lawful, not at rest\n")?,
            Verdict::Left { peer, step } => writeln!(out, "not lawful peer {peer} step {step}")?,
            Verdict::Differs { at } => writeln!(out, "differs at {at}")?,
            Verdict::NoSchedule => out.push_str("no schedule\n")?,
        }
        Ok(out)
    }
}

/// Where two texts first differ, if they do.
fn first_difference(a: &[u8], b: &[u8]) -> Option<usize>
    ensures { MatchOption result (bytes_eq a.now b.now ≡ true) (λ at. (bytes_eq a.now b.now ≡ false) × (at ≡ common a.now b.now)) }
{
    for at in 0..a.len().min(b.len()) {
        if a[at] != b[at] {
            return Some(at);
        }
    }
    if a.len() == b.len() {
        return None;
    }
    Some(a.len().min(b.len()))
}

/// The lowest peer with a step left.
fn first_left(peers: &[Peer]) -> Option<usize>
    ensures left { result ≡ first_left 0 (map left_of peers.now) }
    ensures within { IfSome result (λ number. number < length peers.now) }
{
    for number in 0..peers.len() {
        if peers[number].taken < peers[number].steps.as_slice().len() as u64 {
            return Some(number);
        }
    }
    None
}

/// What is said of a lawful schedule, at the end of whose replay the peers are.
fn compared(
    alloc: Global,
    bound: &Bound,
    peers: &mut [Peer],
    text: &[u8],
) -> Result<Verdict, NoMemory>
    ensures { IfOk result (λ verdict. verdict ≡ compared (actors_of bound.now peers.old) (report_of bound.now.script.version (actors_of bound.now peers.old) (steps_of peers.old)) text.now) }
{
    let own = report(alloc, bound, peers)?;
    match first_difference(own.as_bytes(), text) {
        Some(at) => Ok(Verdict::Differs { at: at as u64 }),
        None => {
            let rest = are_at_rest(bound, peers)?;
            Ok(Verdict::Lawful { rest })
        }
    }
}

/// What is said of the schedule that these peers are to take, from where they are.
fn judge(alloc: Global, bound: &Bound, peers: &mut [Peer], text: &[u8]) -> Result<Verdict, NoMemory>
    ensures { IfOk result (λ verdict. verdict ≡ judged bound.now.script.version (steps_of peers.old) (replay (rule fabric) (moment_of bound.now peers.old)) text.now) }
{
    run(alloc, bound, peers)?;
    match first_left(peers) {
        Some(number) => {
            let peer = narrowed(number)?;
            let step = one_more(peers[number].taken)?;
            Ok(Verdict::Left { peer, step })
        }
        None => compared(alloc, bound, peers, text),
    }
}

/// Checks a report: whether it is the report of a lawful schedule of this script.
///
/// It reads the schedule that the trace lines of the text tell, replays it with a plain machine for each
/// peer, in each turn the lowest-numbered peer whose next step stands, and compares the text with the
/// report of that schedule. It takes memory in proportion to the script's items and the text, and its
/// one failure is want of memory.
pub fn check(alloc: Global, bound: &Bound, text: &[u8]) -> Result<Verdict, NoMemory>
    ensures verdict { IfOk result (λ answer. answer ≡ verdict bound.now text.now) }
    ensures means { IfOk result (λ answer. Means bound.now text.now answer) }
{
    let Some(schedule) = read_schedule(alloc, text, bound.script.conf.peers)? else {
        return Ok(Verdict::NoSchedule);
    };
    let mut peers = open(alloc, bound, schedule.as_slice())?;
    judge(alloc, bound, &mut peers, text)
}

/// The peers whose turns the replay of a report is made of, in their order; none exactly where the text tells no schedule.
pub fn order_of(alloc: Global, bound: &Bound, text: &[u8]) -> Result<Option<Vec<u32>>, NoMemory>
    ensures order { IfOk result (λ order. IfSome order (λ turns. IsOrderOf bound.now text.now turns.items)) }
    ensures none { IfOk result (λ order. IfNone order (schedule_told bound.now.script.conf.peers text.now ≡ None)) }
{
    let Some(schedule) = read_schedule(alloc, text, bound.script.conf.peers)? else {
        return Ok(None);
    };
    let mut peers = open(alloc, bound, schedule.as_slice())?;
    let order = run(alloc, bound, &mut peers)?;
    Ok(Some(order))
}
