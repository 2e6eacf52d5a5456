//! One run of the program, from the words of its command line to its exit status.
ghost use Rattle.std.specs.Prelude.{◌≡◌, ◌≢◌, ◌<◌, ◌↔◌, ℕ, List, Bool, true, false, None, Some, IfOk, map, drop, string_bytes};
ghost use Rattle.std.specs.Process.{exit_status};
ghost use Rattle.std.specs.Vec.Iter.{into_iter_items};
ghost use Rattle.fab_base.specs.Counts.{Rose};
ghost use Rattle.fab_base.specs.declared.status.Status.TheVariants.{Done, Stuck, Usage, ScriptRefused, TooLong, ReadFault, WriteFault};
ghost use Rattle.fab_base.specs.declared.status.Why.{Why};
ghost use Rattle.fab_top.specs.Commands.{IsNoCommand};
ghost use Rattle.fab_outside.specs.Loading.{IsOver, LoadsOnly};
ghost use Rattle.fab_top.specs.Runs.{AskFor, IsBegun, IsRefused, IsReport, IsText, IsWritten, IsUnhindered, IsAnswered, IsSilent, MayStick, NeverSticks, AsksNone, IsNoWorkload};
ghost use Rattle.fab_host.specs.Ending.{status_number, status_without, IsTold};

use crate::ending::end;
use fab_base::{Gate, NoMemory, Status, Text};
use fab_outside::{Clock, Depot, Sink};
use fab_top::run;
use std::alloc::Global;
use std::env::Args;
use std::io::ErrorKind;
use std::process::ExitCode;
use std::rt::Env;
use std::sync::Wait;
use std::thread::Threads;

/// How a command ended, and the exit status that says so.
#[derive(Drop)]
pub struct Ended {
    pub status: Status,
    pub code: ExitCode,
}

/// Carries out the command that these words are, as [`run`] does, and tells its end: the exit status is the
/// number of the status, and `errors` gets its line, unless the whole text was written.
pub fn carry_out<R, D: Depot, S: Sink, C: Clock, G: Gate, E: Sink>(
    rt: &R,
    alloc: Global,
    words: &[Text],
    depot: &mut D,
    sink: &mut S,
    clock: &mut C,
    gate: &G,
    errors: &mut E,
) -> Ended
where
    R: Threads + Wait + Sync,
    requires { C.given clock.old ≡ 0 }
    ensures usage { (result.status ≡ Usage) ↔ IsNoCommand words.now }
    ensures refused { (line : ℕ) (why : Why) → result.status ≡ ScriptRefused line why → IsRefused (D.files depot.old) words.now line why }
    ensures too_long { (name : List ℕ) → result.status ≡ TooLong name → AskFor (D.files depot.old) words.now name × IsOver (D.files depot.old) name }
    ensures read_fault { (name : List ℕ) → result.status ≡ ReadFault name → AskFor (D.files depot.old) words.now name
        × Rose (D.faults depot.old) (D.faults depot.new) × (D.failed_name depot.new ≡ Some name) }
    ensures done { result.status ≡ Done → IsWritten (IsText (D.files depot.old) words.now (C.given clock.new) (C.first clock.new) (C.last clock.new) true) (S.bytes sink.old) (S.bytes sink.new) }
    ensures stuck { result.status ≡ Stuck → IsWritten (IsReport (D.files depot.old) words.now false) (S.bytes sink.old) (S.bytes sink.new) }
    ensures write_fault { result.status ≡ WriteFault → Rose (S.faults sink.old) (S.faults sink.new) }
    ensures begun { result.status ≡ WriteFault → (done : Bool) × IsBegun (IsText (D.files depot.old) words.now (C.given clock.new) (C.first clock.new) (C.last clock.new) done) (S.bytes sink.old) (S.bytes sink.new) }
    ensures silent { IsSilent result.status → S.bytes sink.new ≡ S.bytes sink.old }
    ensures files { D.files depot.new ≡ D.files depot.old }
    ensures complete { IsUnhindered (D.files depot.old) words.now (D.faults depot.old) (D.faults depot.new) (S.faults sink.old) (S.faults sink.new)
        → IsAnswered result.status }
    ensures sticks { result.status ≡ Stuck → MayStick (D.files depot.old) words.now }
    ensures whole { NeverSticks (D.files depot.old) words.now → result.status ≢ Stuck }
    ensures loads { LoadsOnly (AskFor (D.files depot.old) words.now) (D.loaded depot.old) (D.loaded depot.new) }
    ensures asks { AsksNone words.now → depot.new ≡ depot.old }
    ensures clock { IsNoWorkload words.now → clock.new ≡ clock.old }

    // The end is told.
    ensures code { exit_status result.code ≡ status_number result.status }
    ensures told { IsTold (E.bytes errors.old) (E.bytes errors.new) (E.faults errors.old) (E.faults errors.new) result.status }
{
    let status = run(rt, alloc, words, depot, sink, clock, gate);
    let code = end(errors, &status);
    Ended { status, code }
}

/// Why there are no words.
#[derive(Clone, Copy)]
pub enum WordsRefused {
    /// A word is no text.
    NotText,
    NoMemory,
}

impl WordsRefused {
    /// How the program ends then. A word that is no text is no command.
    fn status(self) -> Status
        ensures { result ≡ status_without self }
    {
        match self {
            WordsRefused::NotText => Status::Usage,
            WordsRefused::NoMemory => Status::NoMemory,
        }
    }
}

/// Tells the end where there are no words. Nothing is carried out then.
pub fn refuse<E: Sink>(refused: WordsRefused, errors: &mut E) -> Ended
    ensures status { result.status ≡ status_without refused }
    ensures code { exit_status result.code ≡ status_number result.status }
    ensures told { IsTold (E.bytes errors.old) (E.bytes errors.new) (E.faults errors.old) (E.faults errors.new) result.status }
{
    let status = refused.status();
    let code = end(errors, &status);
    Ended { status, code }
}

/// The words of the command line after the program's name. No contract can say which words the system gives.
pub fn words_of<R: Env + AllocGlobal>(rt: &R) -> Result<Vec<Text>, WordsRefused> {
    match std::env::args(rt) {
        Ok(args) => texts_of(rt.alloc(), args).map_err(|_| WordsRefused::NoMemory),
        Err(error) if error.kind() == ErrorKind::OutOfMemory => Err(WordsRefused::NoMemory),
        Err(_) => Err(WordsRefused::NotText),
    }
}

/// Copies of the words after the first.
fn texts_of(alloc: Global, args: Args) -> Result<Vec<Text>, NoMemory>
    ensures { IfOk result (λ words. words.items ≡ map string_bytes (drop 1 (into_iter_items args))) }
{
    let mut words = Vec::new(alloc);
    for arg in args.skip(1) {
        words.push(Text::copy(alloc, arg.as_str())?)?;
    }
    Ok(words)
}
