//! The run of a bound script.
ghost use Rattle.std.specs.Prelude.{◌≡◌, ◌≤◌, length, map, true, IfOk};
ghost use Rattle.std.specs.List.{All};
ghost use Rattle.fab_model.specs.Calls.{upto};
ghost use Rattle.fab_model.specs.Orders.{Reached};
ghost use Rattle.fab_model.specs.Peers.{fabric};
ghost use Rattle.fab_model.specs.Replay.{all_done, at_rest, lines_of, opening};
ghost use Rattle.fab_model.specs.Views.{rule};
ghost use Rattle.fab_finish.specs.Joined.{AreCleared, actors, schedules, start};
ghost use Rattle.fab_rounds.specs.Phases.{AreReady, AreSized, IsSized, past_at};

use crate::phases::{ready, run_phases};
use crate::runner::Runner;
use crate::starting::Buffers;
use fab_base::{Bound, Gate, Line, NoMemory};
use fab_ep::endpoint::Endpoint;
use fab_link::PlainPort;
use fab_peer::calls::Machinery;
use fab_peer::peer::Peer;
use fab_ring::RingPort;
use fab_script::lines;
use std::alloc::Global;
use std::sync::Wait;
use std::thread::Threads;

/// The lines of each peer of a bound script.
fn lines_of_all(alloc: Global, bound: &Bound) -> Result<Vec<Vec<Line>>, NoMemory>
    ensures { IfOk result (λ lists. map (λ lines. lines.items) lists.items ≡ map (lines_of bound.now) (upto bound.now.script.conf.peers)) }
{
    let mut lists = Vec::new(alloc);
    for peer in 0..bound.script.conf.peers {
        lists.push(lines(alloc, bound, peer)?)?;
    }
    Ok(lists)
}

/// Opens the peers of a bound script, each over a machine that holds what an endpoint holds when it is opened, as
/// [`ready`] does.
pub fn ready_bound<C: Machinery + Drop>(
    alloc: Global,
    bound: &Bound,
    machines: Vec<C>,
    buffers: Buffers,
) -> Result<Vec<Runner<RingPort, C>>, NoMemory>
    requires count { length machines.items ≡ bound.now.script.conf.peers }
    requires sized { IsSized bound.now.script.conf }
    requires start { All (λ m. C.held m ≡ start bound.now.script.conf) machines.items }
    ensures ready { IfOk result (λ rs. AreReady bound.now.script.conf (map (lines_of bound.now) (upto bound.now.script.conf.peers)) (map (λ r. past_at r.peer) rs.items) (map (λ r. r.peer.endpoint.port) rs.items)) }
    ensures sizes { IfOk result (λ rs. AreSized bound.now.script.conf (map (λ r. r.peer.endpoint.port) rs.items)) }
{
    let lists = lines_of_all(alloc, bound)?;
    ready(alloc, &bound.script.conf, lists, machines, buffers)
}

/// Runs the peers of a bound script, which are ready, until none can go on, as [`run_phases`] does.
///
/// Some order of turns took the steps of the peers' schedules from the script's opening to their states.
pub fn run_ready<C: Machinery + Drop + Send, G: Gate, R: Threads + Wait + Sync>(
    rt: &R,
    alloc: Global,
    bound: &Bound,
    runners: Vec<Runner<RingPort, C>>,
    gate: &G,
) -> Result<Vec<Peer<Endpoint<PlainPort, C>>>, NoMemory>
    requires log { 4 ≤ bound.now.script.conf.info.log }
    requires peers { bound.now.script.conf.peers ≤ 64 }
    requires ready { AreReady bound.now.script.conf (map (lines_of bound.now) (upto bound.now.script.conf.peers)) (map (λ r. past_at r.peer) runners.items) (map (λ r. r.peer.endpoint.port) runners.items) }
    ensures reached { IfOk result (λ peers. Reached (rule fabric) (opening bound.now) (schedules peers.items) (actors peers.items)) }
    ensures rest { IfOk result (λ peers. at_rest (actors peers.items) ≡ true) }
    ensures cleared { IfOk result (λ peers. all_done (actors peers.items) ≡ true → AreCleared (actors peers.items)) }
{
    run_phases(rt, alloc, &bound.script.conf, runners, gate)
}
