//! Peers that are made ready, and both phases, one after the other.
ghost use Rattle.std.specs.Prelude.{◌≡◌, ◌≤◌, List, length, map, true, IfOk};
ghost use Rattle.std.specs.List.{All};
ghost use Rattle.fab_base.specs.declared.script.Line.{Line};
ghost use Rattle.fab_model.specs.Orders.{Reached};
ghost use Rattle.fab_model.specs.Peers.{fabric};
ghost use Rattle.fab_model.specs.Replay.{all_done, at_rest};
ghost use Rattle.fab_model.specs.Views.{rule};
ghost use Rattle.fab_finish.specs.Joined.{AreCleared, actors, opened, schedules, start};
ghost use Rattle.fab_rounds.specs.Phases.{AreReady, AreSized, IsSized, past_at};

use crate::crossing::cross;
use crate::opening::open;
use crate::rounds::run_rounds;
use crate::runner::Runner;
use crate::starting::Buffers;
use fab_base::{Conf, Gate, Line, NoMemory};
use fab_ep::endpoint::Endpoint;
use fab_finish::finish::finish;
use fab_link::PlainPort;
use fab_peer::calls::Machinery;
use fab_peer::peer::Peer;
use fab_ring::{RingPort, Rings};
use std::alloc::Global;
use std::sync::Wait;
use std::thread::Threads;

/// How many rounds are made in threads at most.
const ROUNDS: u32 = 65_536;

/// Opens peers that are to do these lists of lines, each over a machine that holds what an endpoint holds when it is
/// opened, and over a port of one table, of `lane` frames each and with `pool` slots for each peer.
///
/// The peers have the lists in their order; a peer without a list has no lines.
pub fn ready<C: Machinery + Drop>(
    alloc: Global,
    conf: &Conf,
    lists: Vec<Vec<Line>>,
    machines: Vec<C>,
    buffers: Buffers,
) -> Result<Vec<Runner<RingPort, C>>, NoMemory>
    requires count { length machines.items ≡ conf.now.peers }
    requires sized { IsSized conf.now }
    requires start { All (λ m. C.held m ≡ start conf.now) machines.items }
    ensures ready { IfOk result (λ rs. AreReady conf.now (map (λ l. l.items) lists.items) (map (λ r. past_at r.peer) rs.items) (map (λ r. r.peer.endpoint.port) rs.items)) }
    ensures sizes { IfOk result (λ rs. AreSized conf.now (map (λ r. r.peer.endpoint.port) rs.items)) }
{
    let rings = Rings::new(alloc, conf.peers, conf.info.lane, conf.info.pool)?;
    let ports = rings.ports(alloc)?;
    open(alloc, conf, lists, machines, ports, buffers)
}

/// Runs peers that are ready until none can go on, and hands them back.
///
/// In the first phase the peers take their turns in rounds, each peer in a thread of its own, over the lanes of their
/// table: until a round moves nothing, all lines are done, or 65,536 rounds are made. The gate is told when a turn begins
/// and ends. Then the lanes are emptied into plain ports, and the peers go on in one thread until none can. Where all
/// lines are done, each peer then cancels the receives that are still posted (fi_cancel of fi_endpoint(3)).
///
/// Some order of turns took the steps of the peers' schedules from the start of the lines that they were made ready for to
/// their states.
pub fn run_phases<C: Machinery + Drop + Send, G: Gate, R: Threads + Wait + Sync>(
    rt: &R,
    alloc: Global,
    conf: &Conf,
    mut runners: Vec<Runner<RingPort, C>>,
    gate: &G,
) -> Result<Vec<Peer<Endpoint<PlainPort, C>>>, NoMemory>
    requires log { 4 ≤ conf.now.info.log }
    requires peers { conf.now.peers ≤ 64 }
    requires ready { (lists : List (List Line)) × AreReady conf.now lists (map (λ r. past_at r.peer) runners.items) (map (λ r. r.peer.endpoint.port) runners.items) }
    ensures reached { IfOk result (λ peers. (lists : List (List Line)) → AreReady conf.now lists (map (λ r. past_at r.peer) runners.items) (map (λ r. r.peer.endpoint.port) runners.items) → Reached (rule fabric) (opened conf.now lists) (schedules peers.items) (actors peers.items)) }
    ensures rest { IfOk result (λ peers. at_rest (actors peers.items) ≡ true) }
    ensures cleared { IfOk result (λ peers. all_done (actors peers.items) ≡ true → AreCleared (actors peers.items)) }
{
    run_rounds(rt, alloc, runners.as_mut_slice(), gate, ROUNDS)?;
    let mut peers = cross(alloc, runners, conf.info.log)?;
    finish(peers.as_mut_slice())?;
    Ok(peers)
}
