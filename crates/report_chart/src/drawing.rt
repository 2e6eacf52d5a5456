//! The chart of a report, where it is that of a lawful run.
ghost use Rattle.std.specs.Prelude.{◌≡◌, IfOk, IfErr};
ghost use Rattle.report_chart.specs.Charts.{is_lawful, IsLawful, IsRefused};

use crate::not_drawn::NotDrawn;
use fab_base::{Bound, NoMemory};
use fab_chart::chart;
use fab_replay::{Verdict, check, order_of};
use fab_report::read_schedule;
use std::alloc::Global;

/// The chart of the run that a text tells. A text that tells no schedule, or is no text, has an empty one.
fn chart_of(alloc: Global, bound: &Bound, text: &[u8]) -> Result<String, NoMemory> {
    let order = order_of(alloc, bound, text)?;
    let schedule = read_schedule(alloc, text, bound.script.conf.peers)?;
    let (Some(order), Some(schedule), Ok(report)) = (order, schedule, str::from_utf8(text)) else {
        return Ok(String::new(alloc));
    };
    chart(alloc, &order, schedule.as_slice(), report)
}

/// Whether the checker calls it the report of a lawful run.
fn is_lawful(verdict: Verdict) -> bool
    ensures { result ≡ is_lawful verdict }
{
    matches!(verdict, Verdict::Lawful { .. })
}

/// The chart of this text as a report of the script, where the checker calls it lawful.
pub fn draw(alloc: Global, bound: &Bound, text: &[u8]) -> Result<String, NotDrawn>
    ensures lawful { IfOk result (λ _. IsLawful bound.now text.now) }
    ensures refused { IfErr result (λ refused. IsRefused bound.now text.now refused) }
{
    let verdict = check(alloc, bound, text)?;
    if !is_lawful(verdict) {
        return Err(NotDrawn::Unlawful(verdict.line(alloc)?));
    }
    Ok(chart_of(alloc, bound, text)?)
}
