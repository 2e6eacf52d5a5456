//! All peers at the start of their lines, over the lanes of one table.
ghost use Rattle.std.specs.Prelude.{◌≡◌, ◌≤◌, ℕ, drop, length, map, slice_index_or, [], IfOk};
ghost use Rattle.std.specs.List.{All};
ghost use Rattle.fab_model.specs.Calls.{upto};
ghost use Rattle.fab_finish.specs.Joined.{start as start_of};
ghost use Rattle.fab_merging.specs.Pasts.{begun};
ghost use Rattle.fab_rounds.specs.Phases.{IsNew, past_at, at_start, first_of};

use crate::runner::Runner;
use crate::starting::{Buffers, start};
use fab_base::{Conf, Line, NoMemory};
use fab_peer::calls::Machinery;
use fab_ring::RingPort;
use std::alloc::Global;

/// Takes the first list, or an empty one where there is none. It takes no memory.
fn take_first(alloc: Global, lists: &mut Vec<Vec<Line>>) -> Vec<Line>
    ensures first { result.items ≡ slice_index_or (map (λ l. l.items) lists.old.items) 0 [] }
    ensures rest { lists.new.items ≡ drop 1 lists.old.items }
{
    if lists.is_empty() {
        return Vec::new(alloc);
    }
    lists.remove(0)
}

/// A peer that is to do these lines over a new port.
fn open_one<C: Machinery + Drop>(
    alloc: Global,
    conf: &Conf,
    lines: Vec<Line>,
    machine: C,
    port: RingPort,
    buffers: Buffers,
) -> Result<Runner<RingPort, C>, NoMemory>
    requires log { 4 ≤ conf.now.info.log }
    requires start { C.held machine ≡ start_of conf.now }
    requires port { IsNew conf.now.peers port }
    ensures past { IfOk result (λ r. past_at r.peer ≡ begun (at_start conf.now lines.items)) }
    ensures port { IfOk result (λ r. r.peer.endpoint.port ≡ port) }
{
    start(alloc, port, machine, conf.info.log, lines, buffers)
}

/// All peers at the start of their lines, each over its port and a machine that holds what an endpoint holds when it is
/// opened. The peers have the lists in their order; a peer without a list has no lines.
pub(crate) fn open<C: Machinery + Drop>(
    alloc: Global,
    conf: &Conf,
    mut lists: Vec<Vec<Line>>,
    mut machines: Vec<C>,
    mut ports: Vec<RingPort>,
    buffers: Buffers,
) -> Result<Vec<Runner<RingPort, C>>, NoMemory>
    requires count { length machines.items ≡ conf.now.peers }
    requires log { 4 ≤ conf.now.info.log }
    requires start { All (λ m. C.held m ≡ start_of conf.now) machines.items }
    requires all { length ports.items ≡ conf.now.peers }
    requires ports { All (IsNew conf.now.peers) ports.items }
    ensures pasts { IfOk result (λ rs. map (λ r. past_at r.peer) rs.items ≡ map (λ p. begun (first_of conf.now (map (λ l. l.items) lists.items) p)) (upto conf.now.peers)) }
    ensures ports { IfOk result (λ rs. map (λ r. r.peer.endpoint.port) rs.items ≡ ports.items) }
{
    let mut runners = Vec::new(alloc);
    for _peer in 0..conf.peers {
        let lines = take_first(alloc, &mut lists);
        let machine = machines.remove(0);
        let port = ports.remove(0);
        let runner = open_one(alloc, conf, lines, machine, port, buffers)?;
        runners.push(runner)?;
    }
    Ok(runners)
}
