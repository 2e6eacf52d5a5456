//! The command that runs rounds of collectives: its file, loaded and run, and what each rank makes of it.
ghost use Rattle.std.specs.Prelude.{◌≡◌, ◌<◌, ℕ, List, Some, length, take};
ghost use Rattle.std.specs.Io.KnownBytes.{append_known};
ghost use Rattle.fab_base.specs.Counts.{Rose};
ghost use Rattle.fab_base.specs.declared.status.Status.TheVariants.{Done, ScriptRefused, TooLong, ReadFault, WriteFault};
ghost use Rattle.fab_base.specs.declared.status.Why.{Why};
ghost use Rattle.fab_command_runs.specs.Files.{BreaksRules, IsDue};
ghost use Rattle.fab_outside.specs.Loading.{IsOver};
ghost use Rattle.fab_outside.specs.Outside.{one_more};
ghost use Rattle.fab_top.specs.Runs.{EndsCheck, IsSilent};

use crate::checking::write_line;
use fab_base::{Gate, Status, Text};
use fab_command_runs::text_of_file;
use fab_outside::{Depot, Sink};
use std::alloc::Global;
use std::sync::Wait;
use std::thread::Threads;

/// Runs the rounds of this file, writes what each rank makes of them, and says how the command ends.
pub fn carry_out_rounds<R, D: Depot, S: Sink, G: Gate>(
    rt: &R,
    alloc: Global,
    file: &Text,
    depot: &mut D,
    sink: &mut S,
    gate: &G,
) -> Status
where
    R: Threads + Wait + Sync,
    ensures refused { (line : ℕ) (why : Why) → result ≡ ScriptRefused line why → BreaksRules (D.files depot.old) file.now line why }
    ensures too_long { (name : List ℕ) → result ≡ TooLong name → (name ≡ file.now) × IsOver (D.files depot.old) name }
    ensures read_fault { (name : List ℕ) → result ≡ ReadFault name → (name ≡ file.now)
        × Rose (D.faults depot.old) (D.faults depot.new) × (D.failed_name depot.new ≡ Some name) }
    ensures done { result ≡ Done → (text : List ℕ) × IsDue (D.files depot.old) file.now text
        × (S.bytes sink.new ≡ append_known (S.bytes sink.old) text) }
    ensures write_fault { result ≡ WriteFault → Rose (S.faults sink.old) (S.faults sink.new)
        × ((text : List ℕ) × (n : ℕ) × IsDue (D.files depot.old) file.now text × (n < length text)
        × (S.bytes sink.new ≡ append_known (S.bytes sink.old) (take n text))) }
    ensures silent { IsSilent result → S.bytes sink.new ≡ S.bytes sink.old }
    ensures ends { EndsCheck result }
    ensures files { D.files depot.new ≡ D.files depot.old }
    ensures loads { D.loaded depot.new ≡ one_more (D.loaded depot.old) file.now }
{
    match text_of_file(rt, alloc, depot, file, gate) {
        Ok(text) => write_line(sink, text.as_str()),
        Err(status) => status,
    }
}
