//! The script of the rounds, run to its text.
ghost use Rattle.std.specs.Prelude.{◌≡◌, IfOk, IfErr, length, string_bytes};
ghost use Rattle.std.specs.List.{All};
ghost use Rattle.fab_finish.specs.Joined.{start};
ghost use Rattle.fab_workloads.specs.Plan.{plan_of};
ghost use Rattle.fab_workloads.specs.Rounds.{AreWithin};
ghost use Rattle.fab_workloads.specs.Text.{coll_text};
ghost use Rattle.fab_outside.specs.Outside.{one_more};
ghost use Rattle.fab_command_runs.specs.Files.{AreUnread, IsDue};

use crate::files::load_rounds;
use crate::machines;
use crate::ranks::coll_text;
use fab_base::{Bound, Gate, NoMemory, Status, Text};
use fab_outside::Depot;
use fab_peer::calls::Machinery;
use fab_rounds::scripts::{ready_bound, run_ready};
use fab_rounds::starting::Buffers;
use fab_workload_laws::coll_laws::law_rounds_done;
use fab_workloads::{CollScript, plan};
use std::alloc::Global;
use std::sync::Wait;
use std::thread::Threads;

/// Runs the script of the rounds over these machines until no peer can go on, and makes the text of what its ranks make
/// of what they received.
fn run_over<C: Machinery + Drop + Send, G: Gate, R: Threads + Wait + Sync>(
    rt: &R,
    alloc: Global,
    script: &CollScript,
    bound: &Bound,
    machines: Vec<C>,
    gate: &G,
) -> Result<String, NoMemory>
    requires within { AreWithin script.now.peers script.now.rounds }
    requires plan { bound.now ≡ plan_of script.now.peers script.now.rounds }
    requires count { length machines.items ≡ bound.now.script.conf.peers }
    requires start { All (λ m. C.held m ≡ start bound.now.script.conf) machines.items }
    ensures { IfOk result (λ text. string_bytes text ≡ coll_text script.now.peers script.now.rounds) }
{
    law_rounds_done();
    let runners = ready_bound(alloc, bound, machines, Buffers::AsWanted)?;
    let peers = run_ready(rt, alloc, bound, runners, gate)?;
    coll_text(alloc, script, &peers)
}

/// Runs the script of the rounds, each rank with a machine of its own, and makes the text.
fn run_rounds<G: Gate, R: Threads + Wait + Sync>(
    rt: &R,
    alloc: Global,
    script: &CollScript,
    gate: &G,
) -> Result<String, NoMemory>
    requires { AreWithin script.now.peers script.now.rounds }
    ensures { IfOk result (λ text. string_bytes text ≡ coll_text script.now.peers script.now.rounds) }
{
    let bound = plan(alloc, script)?;
    let machines = machines(alloc, &bound.script.conf)?;
    run_over(rt, alloc, script, &bound, machines, gate)
}

/// The text that `coll FILE` writes, where FILE is of this name, or how the command ends: the file's rounds are run as
/// a script, in both phases, and each rank makes of its own shares and of those that it received what the rounds come to.
///
/// The gate is told when a turn of a rank in a thread begins and ends; rounds of turns are numbered from 1.
pub fn text_of_file<R, D: Depot, G: Gate>(
    rt: &R,
    alloc: Global,
    depot: &mut D,
    name: &Text,
    gate: &G,
) -> Result<String, Status>
where
    R: Threads + Wait + Sync,
    ensures files { D.files depot.new ≡ D.files depot.old }
    ensures loads { D.loaded depot.new ≡ one_more (D.loaded depot.old) name.now }
    ensures ok { IfOk result (λ text. IsDue (D.files depot.old) name.now (string_bytes text)) }
    ensures err { IfErr result (λ status. AreUnread (D.files depot.old) name.now (D.faults depot.old) (D.faults depot.new) (D.failed_name depot.new) status) }
{
    let script = load_rounds(alloc, depot, name)?;
    match run_rounds(rt, alloc, &script, gate) {
        Ok(text) => Ok(text),
        Err(NoMemory) => Err(Status::NoMemory),
    }
}
