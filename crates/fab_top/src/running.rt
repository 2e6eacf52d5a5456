//! The top call: a command from its words to its report.
ghost use Rattle.std.specs.Prelude.{◌≡◌, ◌≢◌, ◌<◌, ◌≤◌, ◌↔◌, ℕ, List, Bool, true, false, None, Some, IfOk, IfErr, OnOk, string_bytes, length, take};
ghost use Rattle.std.specs.Io.KnownBytes.{append_known};
ghost use Rattle.std.specs.List.{All};
ghost use Rattle.fab_finish.specs.Joined.{start};
ghost use Rattle.fab_rounds.specs.Phases.{IsSized};
ghost use Rattle.fab_base.specs.declared.caps.Api.TheVariants.{Two};
ghost use Rattle.fab_base.specs.declared.status.Status.TheVariants.{Done, Stuck, Usage, ScriptRefused, TooLong, ReadFault, WriteFault};
ghost use Rattle.fab_base.specs.declared.status.Why.{Why};
ghost use Rattle.fab_base.specs.Counts.{Rose};
ghost use Rattle.fab_grammar.specs.Settings.{asking};
ghost use Rattle.fab_model.specs.Negotiation.{grant};
ghost use Rattle.fab_top.specs.Commands.{IsNoCommand};
ghost use Rattle.fab_outside.specs.Info.{info_text, offer};
ghost use Rattle.fab_outside.specs.Loading.{IsOver, IsUnloaded, LoadsOnly};
ghost use Rattle.fab_top.specs.Runs.{Reports, ComesToRest, AskFor, IsBegun, IsBench, IsRefused, IsReport, IsText, IsWritten, EndsText, IsLoaded, EndsBench, IsUnhindered, IsAnswered, IsSilent, MayStick, NeverSticks, WritesReport, AsksNone, IsNoWorkload};
ghost use Rattle.fab_command_runs.specs.Commands.{asked_text, IsWithin as IsWindow, window_of};
ghost use Rattle.fab_workloads.specs.Bench.{bench_line};
ghost use Rattle.fab_workloads.specs.Commands.{IsWithin, payload_file, workload_of};
ghost use Rattle.fab_workloads.specs.Script.{bound_of};

use crate::checking::carry_out_check;
use crate::collecting::carry_out_rounds;
use crate::whole::{all_done, report};
use fab_answer::laws::law_one_answer;
use fab_base::{Bound, Buf, Caps, Gate, NoMemory, Status, Text};
use fab_command_runs::{Asked, coll_file, machines, window_of, window_text};
use fab_laws::law_headline;
use fab_outside::commands::{info_caps, replay_files, script_file};
use fab_outside::info::info_text;
use fab_outside::loading::{load_file, load_script};
use fab_outside::{Clock, Depot, Failed, Sink, write_all};
use fab_peer::calls::Machinery;
use fab_rounds::scripts::{ready_bound, run_ready};
use fab_rounds::starting::Buffers;
use fab_workload_laws::laws::law_workloads_done;
use fab_workloads::{Workload, bench_line, bound, payload_file, workload_of};
use std::alloc::Global;
use std::sync::Wait;
use std::thread::Threads;

/// What a command leads to.
#[derive(Drop)]
struct Ran {
    text: String,
    done: bool,
}

/// Runs a bound script's peers over these machines until none can go on, first in threads and then in one, and reports
/// what they did.
fn run_over<C: Machinery + Drop + Send, G: Gate, R: Threads + Wait + Sync>(
    rt: &R,
    alloc: Global,
    bound: &Bound,
    machines: Vec<C>,
    gate: &G,
) -> Result<Ran, NoMemory>
    requires count { length machines.items ≡ bound.now.script.conf.peers }
    requires sized { IsSized bound.now.script.conf }
    requires start { All (λ m. C.held m ≡ start bound.now.script.conf) machines.items }
    ensures { IfOk result (λ ran. Reports bound.now (string_bytes ran.text) ran.done) }
{
    law_headline();
    let runners = ready_bound(alloc, bound, machines, Buffers::AsWanted)?;
    let peers = run_ready(rt, alloc, bound, runners, gate)?;
    let text = report(alloc, bound.script.version, &peers)?;
    Ok(Ran {
        text,
        done: all_done(&peers),
    })
}

/// Runs a bound script's peers, each with a machine of its own, and reports what they did.
fn run_script<G: Gate, R: Threads + Wait + Sync>(
    rt: &R,
    alloc: Global,
    bound: &Bound,
    gate: &G,
) -> Result<Ran, NoMemory>
    requires cq { 2 ≤ bound.now.script.conf.info.cq }
    requires sized { IsSized bound.now.script.conf }
    ensures { IfOk result (λ ran. Reports bound.now (string_bytes ran.text) ran.done) }
{
    let machines = machines(alloc, &bound.script.conf)?;
    run_over(rt, alloc, bound, machines, gate)
}

/// How a timed run of peers ended: whether all lines are done, and the moments at which it began and ended.
#[derive(Drop)]
struct Timed {
    done: bool,
    before: u64,
    after: u64,
}

/// Runs a bound script's peers over these machines until none can go on, first in threads and then in one, between two looks
/// at the clock: once the peers are ready, and when none can go on.
fn time_over<M: Machinery + Drop + Send, C: Clock, G: Gate, R: Threads + Wait + Sync>(
    rt: &R,
    alloc: Global,
    bound: &Bound,
    machines: Vec<M>,
    buffers: Buffers,
    clock: &mut C,
    gate: &G,
) -> Result<Timed, NoMemory>
    requires count { length machines.items ≡ bound.now.script.conf.peers }
    requires sized { IsSized bound.now.script.conf }
    requires start { All (λ m. M.held m ≡ start bound.now.script.conf) machines.items }
    requires new { C.given clock.old ≡ 0 }
    ensures rests { IfOk result (λ timed. ComesToRest bound.now timed.done) }
    ensures moments { IfOk result (λ timed. (C.given clock.new ≡ 2) × (C.first clock.new ≡ timed.before) × (C.last clock.new ≡ timed.after)) }
{
    let runners = ready_bound(alloc, bound, machines, buffers)?;
    let before = clock.now();
    let peers = run_ready(rt, alloc, bound, runners, gate)?;
    let after = clock.now();
    Ok(Timed {
        done: all_done(&peers),
        before,
        after,
    })
}

/// Runs a bound script's peers, each with a machine of its own, as [`time_over`] does.
fn time_script<C: Clock, G: Gate, R: Threads + Wait + Sync>(
    rt: &R,
    alloc: Global,
    bound: &Bound,
    buffers: Buffers,
    clock: &mut C,
    gate: &G,
) -> Result<Timed, NoMemory>
    requires cq { 2 ≤ bound.now.script.conf.info.cq }
    requires sized { IsSized bound.now.script.conf }
    requires new { C.given clock.old ≡ 0 }
    ensures rests { IfOk result (λ timed. ComesToRest bound.now timed.done) }
    ensures moments { IfOk result (λ timed. (C.given clock.new ≡ 2) × (C.first clock.new ≡ timed.before) × (C.last clock.new ≡ timed.after)) }
{
    let machines = machines(alloc, &bound.script.conf)?;
    time_over(rt, alloc, bound, machines, buffers, clock, gate)
}

/// When the buffers of a workload's lines are made: where a time is told, before it begins.
fn buffers_of(workload: Workload) -> Buffers {
    match workload {
        Workload::Pingpong { .. } | Workload::Bandwidth { .. } => Buffers::Ahead,
        Workload::Generated { .. } => Buffers::AsWanted,
    }
}

/// Runs a workload's peers between two looks at the clock, and makes the line that is written. All lines are done: no
/// workload's script rests before.
fn time_run<C: Clock, G: Gate, R: Threads + Wait + Sync>(
    rt: &R,
    alloc: Global,
    workload: Workload,
    script: &Bound,
    clock: &mut C,
    gate: &G,
) -> Result<Ran, NoMemory>
    requires within { IsWithin workload }
    requires script { (file : List ℕ) × (script.now ≡ bound_of workload file) }
    requires new { C.given clock.old ≡ 0 }
    ensures moments { OnOk result (C.given clock.new ≡ 2) }
    ensures line { IfOk result (λ ran. string_bytes ran.text ≡ bench_line workload (C.first clock.new) (C.last clock.new)) }
    ensures done { IfOk result (λ ran. ran.done ≡ true) }
{
    law_workloads_done();
    let timed = time_script(rt, alloc, script, buffers_of(workload), clock, gate)?;
    let text = bench_line(alloc, workload, timed.before, timed.after)?;
    Ok(Ran {
        text,
        done: timed.done,
    })
}

/// Makes the script of a workload, runs it, and makes the line that is written.
fn run_workload<C: Clock, G: Gate, R: Threads + Wait + Sync>(
    rt: &R,
    alloc: Global,
    workload: Workload,
    file: &[u8],
    clock: &mut C,
    gate: &G,
) -> Result<Ran, NoMemory>
    requires within { IsWithin workload }
    requires new { C.given clock.old ≡ 0 }
    ensures moments { OnOk result (C.given clock.new ≡ 2) }
    ensures line { IfOk result (λ ran. string_bytes ran.text ≡ bench_line workload (C.first clock.new) (C.last clock.new)) }
    ensures done { IfOk result (λ ran. ran.done ≡ true) }
{
    let script = bound(alloc, workload, file)?;
    time_run(rt, alloc, workload, &script, clock, gate)
}

/// Writes the text, and says how the command ends.
fn write_text<S: Sink>(sink: &mut S, ran: &Ran) -> Status
    ensures done { result ≡ Done → (ran.now.done ≡ true) × (S.bytes sink.new ≡ append_known (S.bytes sink.old) (string_bytes ran.now.text)) }
    ensures stuck { result ≡ Stuck → (ran.now.done ≡ false) × (S.bytes sink.new ≡ append_known (S.bytes sink.old) (string_bytes ran.now.text)) }
    ensures write_fault { result ≡ WriteFault → Rose (S.faults sink.old) (S.faults sink.new)
        × ((n : ℕ) × (n < length (string_bytes ran.now.text)) × (S.bytes sink.new ≡ append_known (S.bytes sink.old) (take n (string_bytes ran.now.text)))) }
    ensures written { WritesReport result }
{
    match write_all(sink, ran.text.as_bytes()) {
        Err(Failed) => Status::WriteFault,
        Ok(()) => {
            if ran.done {
                Status::Done
            } else {
                Status::Stuck
            }
        }
    }
}

/// Writes what is granted to whoever asks for these capabilities, and says how the command ends.
fn tell_offer<S: Sink>(alloc: Global, sink: &mut S, caps: Caps) -> Status
    ensures granted { grant Two (Some (asking caps)) ≡ Some (offer caps) }
    ensures done { result ≡ Done → S.bytes sink.new ≡ append_known (S.bytes sink.old) (info_text caps) }
    ensures write_fault { result ≡ WriteFault → Rose (S.faults sink.old) (S.faults sink.new)
        × ((n : ℕ) × (n < length (info_text caps)) × (S.bytes sink.new ≡ append_known (S.bytes sink.old) (take n (info_text caps)))) }
    ensures silent { IsSilent result → S.bytes sink.new ≡ S.bytes sink.old }
    ensures ends { EndsText result }
{
    match info_text(alloc, caps) {
        Ok(text) => write_text(sink, &Ran { text, done: true }),
        Err(NoMemory) => Status::NoMemory,
    }
}

/// Has peers add to a window, writes what its words hold at last, and says how the command ends.
fn tell_totals<S: Sink, G: Gate, R: Threads + Wait + Sync>(
    rt: &R,
    alloc: Global,
    asked: Asked,
    sink: &mut S,
    gate: &G,
) -> Status
    requires { IsWindow asked }
    ensures done { result ≡ Done → S.bytes sink.new ≡ append_known (S.bytes sink.old) (asked_text asked) }
    ensures write_fault { result ≡ WriteFault → Rose (S.faults sink.old) (S.faults sink.new)
        × ((n : ℕ) × (n < length (asked_text asked)) × (S.bytes sink.new ≡ append_known (S.bytes sink.old) (take n (asked_text asked)))) }
    ensures silent { IsSilent result → S.bytes sink.new ≡ S.bytes sink.old }
    ensures ends { EndsText result }
{
    match window_text(rt, alloc, gate, asked) {
        Ok(text) => write_text(sink, &Ran { text, done: true }),
        Err(NoMemory) => Status::NoMemory,
    }
}

/// The file that the words of a workload name, or no bytes where they name none.
fn load_payload<D: Depot>(alloc: Global, depot: &mut D, words: &[Text]) -> Result<Buf, Status>
    ensures files { D.files depot.new ≡ D.files depot.old }
    ensures loads { LoadsOnly (λ name. payload_file words.now ≡ Some name) (D.loaded depot.old) (D.loaded depot.new) }
    ensures asks { payload_file words.now ≡ None → depot.new ≡ depot.old }
    ensures ok { IfOk result (λ bytes. IsLoaded (D.files depot.old) (payload_file words.now) bytes) }
    ensures err { IfErr result (λ status. (name : List ℕ) × (payload_file words.now ≡ Some name)
        × IsUnloaded (D.files depot.old) name (D.faults depot.old) (D.faults depot.new) (D.failed_name depot.new) status) }
{
    match payload_file(words) {
        Some(name) => load_file(alloc, depot, name),
        None => Ok(Buf::empty(alloc)),
    }
}

/// Loads the file of the workload that these words are, runs it and writes its line, and says how the command ends.
fn carry_out_workload<R, D: Depot, S: Sink, C: Clock, G: Gate>(
    rt: &R,
    alloc: Global,
    words: &[Text],
    workload: Workload,
    depot: &mut D,
    sink: &mut S,
    clock: &mut C,
    gate: &G,
) -> Status
where
    R: Threads + Wait + Sync,
    requires within { IsWithin workload }
    requires is { workload_of words.now ≡ Some workload }
    requires new { C.given clock.old ≡ 0 }
    ensures too_long { (name : List ℕ) → result ≡ TooLong name → (payload_file words.now ≡ Some name) × IsOver (D.files depot.old) name }
    ensures read_fault { (name : List ℕ) → result ≡ ReadFault name → (payload_file words.now ≡ Some name)
        × Rose (D.faults depot.old) (D.faults depot.new) × (D.failed_name depot.new ≡ Some name) }
    ensures done { result ≡ Done → IsWritten (IsBench (D.files depot.old) words.now (C.given clock.new) (C.first clock.new) (C.last clock.new)) (S.bytes sink.old) (S.bytes sink.new) }
    ensures write_fault { result ≡ WriteFault → Rose (S.faults sink.old) (S.faults sink.new)
        × IsBegun (IsBench (D.files depot.old) words.now (C.given clock.new) (C.first clock.new) (C.last clock.new)) (S.bytes sink.old) (S.bytes sink.new) }
    ensures silent { IsSilent result → S.bytes sink.new ≡ S.bytes sink.old }
    ensures ends { EndsBench result }
    ensures files { D.files depot.new ≡ D.files depot.old }
    ensures loads { LoadsOnly (λ name. payload_file words.now ≡ Some name) (D.loaded depot.old) (D.loaded depot.new) }
    ensures asks { payload_file words.now ≡ None → depot.new ≡ depot.old }
{
    let payload = match load_payload(alloc, depot, words) {
        Ok(payload) => payload,
        Err(status) => return status,
    };
    match run_workload(rt, alloc, workload, payload.as_slice(), clock, gate) {
        Ok(ran) => write_text(sink, &ran),
        Err(NoMemory) => Status::NoMemory,
    }
}

/// Carries out the command that these words are. `script FILE` loads the file and the payload files of the script
/// that it spells, in the order of their lines, runs the script's peers, and writes their report. `info CAPS` writes
/// what the second version of the interface grants (fi_getinfo(3)) to whoever asks for these capabilities, whose names are
/// joined by commas, or for none where CAPS is `-`.
///
/// `pingpong FILE SIZE COUNT`, `bandwidth FILE SIZE COUNT WINDOW` and `gen NUMBER PEERS MESSAGES` run the script of a
/// workload in the same way, and write one line ([`bench_line`]). The messages of the first two have the file's first
/// bytes, SIZE of them (up to 16,777,216), followed by zeros where the file is shorter; `gen` loads no file. COUNT is 1 to
/// 10,000, SIZE times COUNT up to 67,108,864, WINDOW 1 to 256, PEERS 1 to 32 and MESSAGES up to 8,192. The clock is read
/// before the peers run and when they have finished, and never by another command.
///
/// `replay FILE TRACE` runs nothing. It loads the script's files in the same way and then TRACE, and writes one line on
/// whether TRACE is the report of a lawful schedule of the script ([`fab_replay::check`]): `lawful, at rest`;
/// `lawful, not at rest`; `not lawful peer K step I`, where the I-th step (from 1) of peer K cannot be taken; `differs at N`,
/// where the report of the schedule that it tells is another text from the N-th byte on (from 0); `no schedule`.
/// Each of the five ends at `Done`.
///
/// `window NUMBER PEERS WORDS ADDS` has PEERS peers (1 to 32), each in a thread of its own, make ADDS additions (up to
/// 100,000) each to WORDS words (1 to 1,024) that all of them share and that begin at 0, and writes what each word holds at
/// last ([`window_text`]). What is added is drawn from NUMBER, so of the same words it always writes the same text. Each
/// peer tells the gate when it begins and ends, with round 0; the rounds of the other commands are numbered from 1.
///
/// `coll FILE` loads FILE, a file of rounds of collectives (fi_collective(3)) in the grammar of [`fab_workloads::read_rounds`], runs
/// the script of its rounds ([`fab_workloads::plan`]) as `script FILE` runs a script, and writes of each rank what it makes of
/// each round ([`fab_fold::outcome`]): of the same file it always writes the same text, and no run of it ends at `Stuck`.
///
/// The peers of a script take their turns in rounds, each peer in a thread of its own over lock-free lanes, until a round
/// moves nothing or all lines are done, and then in one thread until none can go on. The gate is told when a turn in a
/// thread begins and ends. Which of two peers' messages comes first may depend on the threads, so two runs of a script may
/// write two reports. The line of a workload is the same but for the time: its script has one answer, and no run of it ends
/// at `Stuck`.
///
/// The report is that of one lawful schedule, the one that its own trace lines tell: in some order of
/// turns the peers' steps led from the script's opening to the states that it reports. In these the
/// peers are at rest: nothing is on its way, no completion is unread, and no line can be done. At `Done`
/// all lines are done, and no receive is posted any more; at `Stuck` some line is not done, and the script is not one that is
/// settled and whose answer does all lines: where files are told, such a script never ends at `Stuck`. At
/// `WriteFault` the first bytes of such a report are written, and at every other status none. `info` and
/// `window` end at `Done`, at `WriteFault` or at `NoMemory`. The files stay as they are.
///
/// `ScriptRefused` names the first line that breaks a rule of the language, or one of the rules of files of rounds, and the
/// first rule that it breaks; with `FileRange`, which is looked at last, the first line that names bytes which its payload file has not. `TooLong` and
/// `ReadFault` name the file. `NoMemory` may come before anything is written. Where the words are a command, neither the
/// files nor the output fail, no file is too long and no script is refused, the end is `Done`, `Stuck` or `NoMemory`.
///
/// The clock must be new: it has given no moment.
pub fn run<R, D: Depot, S: Sink, C: Clock, G: Gate>(
    rt: &R,
    alloc: Global,
    words: &[Text],
    depot: &mut D,
    sink: &mut S,
    clock: &mut C,
    gate: &G,
) -> Status
where
    R: Threads + Wait + Sync,
    requires { C.given clock.old ≡ 0 }
    ensures usage { (result ≡ Usage) ↔ IsNoCommand words.now }
    ensures refused { (line : ℕ) (why : Why) → result ≡ ScriptRefused line why → IsRefused (D.files depot.old) words.now line why }
    ensures too_long { (name : List ℕ) → result ≡ TooLong name → AskFor (D.files depot.old) words.now name × IsOver (D.files depot.old) name }
    ensures read_fault { (name : List ℕ) → result ≡ ReadFault name → AskFor (D.files depot.old) words.now name
        × Rose (D.faults depot.old) (D.faults depot.new) × (D.failed_name depot.new ≡ Some name) }
    ensures done { result ≡ Done → IsWritten (IsText (D.files depot.old) words.now (C.given clock.new) (C.first clock.new) (C.last clock.new) true) (S.bytes sink.old) (S.bytes sink.new) }
    ensures stuck { result ≡ Stuck → IsWritten (IsReport (D.files depot.old) words.now false) (S.bytes sink.old) (S.bytes sink.new) }
    ensures write_fault { result ≡ WriteFault → Rose (S.faults sink.old) (S.faults sink.new) }
    ensures begun { result ≡ WriteFault → (done : Bool) × IsBegun (IsText (D.files depot.old) words.now (C.given clock.new) (C.first clock.new) (C.last clock.new) done) (S.bytes sink.old) (S.bytes sink.new) }
    ensures silent { IsSilent result → S.bytes sink.new ≡ S.bytes sink.old }
    ensures files { D.files depot.new ≡ D.files depot.old }
    ensures complete { IsUnhindered (D.files depot.old) words.now (D.faults depot.old) (D.faults depot.new) (S.faults sink.old) (S.faults sink.new)
        → IsAnswered result }
    ensures sticks { result ≡ Stuck → MayStick (D.files depot.old) words.now }
    ensures whole { NeverSticks (D.files depot.old) words.now → result ≢ Stuck }
    ensures loads { LoadsOnly (AskFor (D.files depot.old) words.now) (D.loaded depot.old) (D.loaded depot.new) }
    ensures asks { AsksNone words.now → depot.new ≡ depot.old }
    ensures clock { IsNoWorkload words.now → clock.new ≡ clock.old }
{
    if let Some(caps) = info_caps(words) {
        return tell_offer(alloc, sink, caps);
    }
    if let Some(workload) = workload_of(words) {
        return carry_out_workload(rt, alloc, words, workload, depot, sink, clock, gate);
    }
    if let Some((file, trace)) = replay_files(words) {
        return carry_out_check(alloc, file, trace, depot, sink);
    }
    if let Some(asked) = window_of(words) {
        return tell_totals(rt, alloc, asked, sink, gate);
    }
    if let Some(file) = coll_file(words) {
        return carry_out_rounds(rt, alloc, file, depot, sink, gate);
    }
    let Some(name) = script_file(words) else {
        return Status::Usage;
    };
    let bound = match load_script(alloc, depot, name) {
        Ok(bound) => bound,
        Err(status) => return status,
    };
    law_one_answer();
    match run_script(rt, alloc, &bound, gate) {
        Ok(ran) => write_text(sink, &ran),
        Err(NoMemory) => Status::NoMemory,
    }
}
