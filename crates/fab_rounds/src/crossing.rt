//! Peers go from their ports over the table to plain ports.
//!
//! An endpoint is closed, and another is opened over the plain port with what the machine holds: one that only gave its
//! port up could not be let go where memory lacks before it has another.
ghost use Rattle.std.specs.Prelude.{◌≡◌, ◌<◌, ◌≤◌, ◌^◌, ℕ, length, map, false, IfOk, OnOk};
ghost use Rattle.std.specs.List.{list_any};
ghost use Rattle.fab_face.specs.Held.{IsOpen};
ghost use Rattle.fab_ep.specs.Tries.{IsTied};
ghost use Rattle.fab_ep.specs.Value.{anew};
ghost use Rattle.fab_peer.specs.Turns.{IsCounted};
ghost use Rattle.fab_merging.specs.Law.{AreTogether, actors as actors_in, schedules as schedules_in};
ghost use Rattle.fab_rounds.specs.Opened.{AreGathered};
ghost use Rattle.fab_finish.specs.Joined.{IsJoined, actors, schedules, seen_plain};
ghost use Rattle.fab_table.specs.declared.lane_table.LaneTable.{LaneTable};
ghost use Rattle.fab_ring.specs.Gather.{AreAll};
ghost use Rattle.fab_rounds.specs.Phases.{Paired, seen_ring, past_at, past_with, living_with, Seated};

use crate::runner::Runner;
use fab_base::NoMemory;
use fab_ep::endpoint::Endpoint;
use fab_ep::seats::Closed;
use fab_face::calls::Sees;
use fab_link::PlainPort;
use fab_peer::calls::Machinery;
use fab_peer::peer::Peer;
use fab_peer::peer::seats::Unseated;
use fab_ring::{RingPort, gather};
use std::alloc::Global;

/// A peer between two ports, with its machine.
#[derive(Drop)]
struct Parted<C: Machinery> {
    peer: Unseated,
    machine: C,
}

/// Parts a peer from its port. Its log goes, which is empty between two turns.
fn part<C: Machinery + Drop>(runner: Runner<RingPort, C>) -> (Parted<C>, RingPort)
    ensures past { past_with (C.held result.0.machine) result.0.peer result.1 ≡ past_at runner.peer }
    ensures port { result.1 ≡ runner.peer.endpoint.port }
    ensures open { IsOpen (seen_ring runner.peer.endpoint) }
    ensures counted { runner.failed ≡ false → IsCounted (living_with (C.held result.0.machine) result.0.peer) }
{
    let peer = runner.into_peer();
    peer.endpoint.known();
    let (peer, endpoint) = peer.unseat();
    let Closed { port, core } = endpoint.close();
    let parted = Parted {
        peer,
        machine: core,
    };
    (parted, port)
}

/// Parts all peers from their ports.
fn part_all<C: Machinery + Drop>(
    alloc: Global,
    mut runners: Vec<Runner<RingPort, C>>,
) -> Result<(Vec<Parted<C>>, Vec<RingPort>), NoMemory>
    requires well { list_any (λ r. r.failed) runners.items ≡ false }
    ensures count { IfOk result (λ both. length both.0.items ≡ length runners.items) }
    ensures ports { IfOk result (λ both. both.1.items ≡ map (λ r. r.peer.endpoint.port) runners.items) }
    ensures each { IfOk result (λ both. Paired (λ r w. (past_with (C.held w.machine) w.peer r.peer.endpoint.port ≡ past_at r.peer) × IsOpen (seen_ring r.peer.endpoint) × IsCounted (living_with (C.held w.machine) w.peer)) runners.items both.0.items) }
{
    let mut parted = Vec::new(alloc);
    let mut ports = Vec::new(alloc);
    for _peer in 0..runners.len() {
        let (one, port) = part(runners.remove(0));
        parted.push(one)?;
        ports.push(port)?;
    }
    Ok((parted, ports))
}

/// Seats a peer at a plain port, with an empty log of so many events.
fn seat<C: Machinery + Drop>(
    alloc: Global,
    parted: Parted<C>,
    port: PlainPort,
    log_size: u32,
) -> Result<Peer<Endpoint<PlainPort, C>>, NoMemory>
    requires log { 4 ≤ log_size }
    requires tied { IsTied (seen_plain (anew port (C.held parted.machine) log_size)) }
    ensures seated { IfOk result (Seated (living_with (C.held parted.machine) parted.peer) parted.peer.schedule.items) }
    ensures port { IfOk result (λ p. p.endpoint.port ≡ port) }
{
    let Parted { peer, machine } = parted;
    match Endpoint::over(alloc, port, machine, log_size) {
        Ok(endpoint) => Ok(peer.reseat(endpoint)),
        Err(_unused) => Err(NoMemory),
    }
}

/// Seats all peers, in their order.
fn seat_all<C: Machinery + Drop>(
    alloc: Global,
    mut parted: Vec<Parted<C>>,
    mut ports: Vec<PlainPort>,
    log_size: u32,
) -> Result<Vec<Peer<Endpoint<PlainPort, C>>>, NoMemory>
    requires log { 4 ≤ log_size }
    requires count { length parted.items ≡ length ports.items }
    requires tied { Paired (λ q w. IsTied (seen_plain (anew q (C.held w.machine) log_size))) ports.items parted.items }
    ensures ports { IfOk result (λ ps. map (λ p. p.endpoint.port) ps.items ≡ ports.items) }
    ensures each { IfOk result (λ ps. Paired (λ w p. Seated (living_with (C.held w.machine) w.peer) w.peer.schedule.items p) parted.items ps.items) }
{
    let mut peers = Vec::new(alloc);
    for _peer in 0..parted.len() {
        let one = parted.remove(0);
        let port = ports.remove(0);
        let peer = seat(alloc, one, port, log_size)?;
        peers.push(peer)?;
    }
    Ok(peers)
}

/// Gathers the ports of all peers of one table, and seats each peer at the plain port that goes on where its own ended.
pub(crate) fn cross<C: Machinery + Drop>(
    alloc: Global,
    runners: Vec<Runner<RingPort, C>>,
    log_size: u32,
) -> Result<Vec<Peer<Endpoint<PlainPort, C>>>, NoMemory>
    requires log { 4 ≤ log_size }
    requires few { length runners.items < 2 ^ 32 }
    requires well { list_any (λ r. r.failed) runners.items ≡ false }
    requires all { (f : LaneTable) × AreAll f (map (λ r. r.peer.endpoint.port) runners.items) }
    requires together { AreGathered (map (λ r. past_at r.peer) runners.items) → AreTogether (map (λ r. past_at r.peer) runners.items) }
    ensures gathered { OnOk result (AreGathered (map (λ r. past_at r.peer) runners.items)) }
    ensures joined { IfOk result (λ ps. IsJoined ps.items) }
    ensures actors { IfOk result (λ ps. actors ps.items ≡ actors_in (map (λ r. past_at r.peer) runners.items)) }
    ensures schedules { IfOk result (λ ps. schedules ps.items ≡ schedules_in (map (λ r. past_at r.peer) runners.items)) }
{
    let (parted, ports) = part_all(alloc, runners)?;
    let Ok(plain) = gather(alloc, ports) else {
        return Err(NoMemory);
    };
    seat_all(alloc, parted, plain, log_size)
}
