//! The command that checks a report: its script and its trace, loaded, and the line on them.
ghost use Rattle.std.specs.Prelude.{◌≡◌, ◌<◌, ℕ, List, Some, IfOk, IfErr, length, string_bytes, take};
ghost use Rattle.std.specs.Io.KnownBytes.{append_known};
ghost use Rattle.fab_base.specs.Counts.{Rose};
ghost use Rattle.fab_base.specs.declared.status.Status.TheVariants.{Done, ScriptRefused, TooLong, ReadFault, WriteFault};
ghost use Rattle.fab_base.specs.declared.status.Why.{Why};
ghost use Rattle.fab_replay.specs.Verdict.{verdict, verdict_line};
ghost use Rattle.fab_top.specs.Checking.{IsChecked, IsUnchecked, LeadsOn};
ghost use Rattle.fab_outside.specs.Loading.{IsOver, IsWrong, LoadsOnly};
ghost use Rattle.fab_top.specs.Runs.{EndsCheck, IsSilent, WritesLine};

use fab_base::{Bound, NoMemory, Status, Text};
use fab_outside::loading::{load_file, load_script};
use fab_outside::{Depot, Failed, Sink, write_all};
use fab_replay::check;
use std::alloc::Global;

/// The line on this text, as a report of the script.
fn line_on(alloc: Global, bound: &Bound, text: &[u8]) -> Result<String, NoMemory>
    ensures { IfOk result (λ line. string_bytes line ≡ verdict_line (verdict bound.now text.now)) }
{
    let verdict = check(alloc, bound, text)?;
    verdict.line(alloc)
}

/// The line on the file `trace`, as a report of the script in `file`, or how the command ends.
fn line_of_files<D: Depot>(
    alloc: Global,
    depot: &mut D,
    file: &Text,
    trace: &Text,
) -> Result<String, Status>
    ensures files { D.files depot.new ≡ D.files depot.old }
    ensures loads { LoadsOnly (LeadsOn (D.files depot.old) file.now trace.now) (D.loaded depot.old) (D.loaded depot.new) }
    ensures ok { IfOk result (λ line. IsChecked (D.files depot.old) file.now trace.now (string_bytes line)) }
    ensures err { IfErr result (λ status. IsUnchecked (D.files depot.old) file.now trace.now (D.faults depot.old) (D.faults depot.new) (D.failed_name depot.new) status) }
{
    let bound = load_script(alloc, depot, file)?;
    let text = load_file(alloc, depot, trace)?;
    match line_on(alloc, &bound, text.as_slice()) {
        Ok(line) => Ok(line),
        Err(NoMemory) => Err(Status::NoMemory),
    }
}

/// Writes the line, and says how the command ends.
pub(crate) fn write_line<S: Sink>(sink: &mut S, line: &str) -> Status
    ensures done { result ≡ Done → S.bytes sink.new ≡ append_known (S.bytes sink.old) line.now }
    ensures write_fault { result ≡ WriteFault → Rose (S.faults sink.old) (S.faults sink.new)
        × ((n : ℕ) × (n < length line.now) × (S.bytes sink.new ≡ append_known (S.bytes sink.old) (take n line.now))) }
    ensures ends { WritesLine result }
{
    match write_all(sink, line.as_bytes()) {
        Ok(()) => Status::Done,
        Err(Failed) => Status::WriteFault,
    }
}

/// Checks the file `trace` as a report of the script in `file`, writes the line on it, and says how the command ends.
pub fn carry_out_check<D: Depot, S: Sink>(
    alloc: Global,
    file: &Text,
    trace: &Text,
    depot: &mut D,
    sink: &mut S,
) -> Status
    ensures refused { (line : ℕ) (why : Why) → result ≡ ScriptRefused line why → IsWrong (D.files depot.old) file.now line why }
    ensures too_long { (name : List ℕ) → result ≡ TooLong name → LeadsOn (D.files depot.old) file.now trace.now name × IsOver (D.files depot.old) name }
    ensures read_fault { (name : List ℕ) → result ≡ ReadFault name → LeadsOn (D.files depot.old) file.now trace.now name
        × Rose (D.faults depot.old) (D.faults depot.new) × (D.failed_name depot.new ≡ Some name) }
    ensures done { result ≡ Done → (line : List ℕ) × IsChecked (D.files depot.old) file.now trace.now line
        × (S.bytes sink.new ≡ append_known (S.bytes sink.old) line) }
    ensures write_fault { result ≡ WriteFault → Rose (S.faults sink.old) (S.faults sink.new)
        × ((line : List ℕ) × (n : ℕ) × IsChecked (D.files depot.old) file.now trace.now line × (n < length line)
        × (S.bytes sink.new ≡ append_known (S.bytes sink.old) (take n line))) }
    ensures silent { IsSilent result → S.bytes sink.new ≡ S.bytes sink.old }
    ensures ends { EndsCheck result }
    ensures files { D.files depot.new ≡ D.files depot.old }
    ensures loads { LoadsOnly (LeadsOn (D.files depot.old) file.now trace.now) (D.loaded depot.old) (D.loaded depot.new) }
{
    match line_of_files(alloc, depot, file, trace) {
        Ok(line) => write_line(sink, line.as_str()),
        Err(status) => status,
    }
}
