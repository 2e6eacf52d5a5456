//! Whom a rank hears in a round, and whom it tells.
ghost use Rattle.std.specs.Prelude.{◌≡◌, ◌<◌};
ghost use Rattle.fab_topology.specs.Laws.{Tiles};
ghost use Rattle.fab_topology.specs.Rounds.{distance, hears, round_from, rounds_of, source_of, target_of, tells, waits_for, width};

use crate::around::{ahead, behind};
use crate::kinds::{Topology, is_doubling};

/// How many rounds there are.
fn count(topology: Topology, peers: u32) -> u32
    ensures { result ≡ rounds_of topology peers }
{
    if !is_doubling(topology) {
        return peers.saturating_sub(1);
    }
    if peers < 2 {
        return 0;
    }
    (peers - 1).ilog2() + 1
}

/// How many rounds there are: one for each other rank, or by doubling one for each power of two below the number of ranks. Each tells of
/// the ranks between it and the next, and the last one ends behind all.
pub fn rounds(topology: Topology, peers: u32) -> u32
    ensures count { result ≡ rounds_of topology peers }
    ensures tiles { Tiles (rounds_of topology peers) (λ k. distance topology k) (λ k. width topology peers k) peers }
{
    count(topology, peers)
}

/// How far off from a rank the one is that it tells in this round.
pub fn distance(topology: Topology, peers: u32, round: u32) -> u32
    requires { round < rounds_of topology peers }
    ensures { result ≡ distance topology round }
{
    if is_doubling(topology) {
        1 << round
    } else {
        round + 1
    }
}

/// Of how many ranks a message of this round tells; where it is the root's alone, how many such messages there are.
pub fn width(topology: Topology, peers: u32, round: u32) -> u32
    requires { round < rounds_of topology peers }
    ensures { result ≡ width topology peers round }
{
    if !is_doubling(topology) {
        return 1;
    }
    let distance = distance(topology, peers, round);
    distance.min(peers - distance)
}

/// How many rounds a rank has to have heard in before it tells in this one.
pub fn waits_for(topology: Topology, round: u32) -> u32
    ensures { result ≡ waits_for topology round }
{
    if is_doubling(topology) { round } else { 0 }
}

/// Whether the rank hears in this round.
pub fn hears(topology: Topology, peers: u32, rank: u32, round: u32) -> bool
    requires { round < rounds_of topology peers }
    ensures { result ≡ hears topology peers rank round }
{
    match topology {
        Topology::Mesh | Topology::Dissemination => true,
        Topology::Star { root } | Topology::Tree { root } => {
            let steps = behind(peers, rank, root);
            let distance = distance(topology, peers, round);
            distance <= steps && steps - distance < width(topology, peers, round)
        }
    }
}

/// Whom the rank hears in this round, where it hears.
pub fn source(topology: Topology, peers: u32, rank: u32, round: u32) -> u32
    requires { round < rounds_of topology peers }
    ensures { result ≡ source_of topology peers rank round }
{
    let distance = distance(topology, peers, round);
    match topology {
        Topology::Mesh | Topology::Dissemination => ahead(peers, rank, distance),
        Topology::Star { .. } | Topology::Tree { .. } => behind(peers, rank, distance),
    }
}

/// Whether the rank tells in this round.
pub fn tells(topology: Topology, peers: u32, rank: u32, round: u32) -> bool
    requires { round < rounds_of topology peers }
    ensures { result ≡ tells topology peers rank round }
{
    match topology {
        Topology::Mesh | Topology::Dissemination => true,
        Topology::Star { root } | Topology::Tree { root } => behind(peers, rank, root)
            < width(topology, peers, round),
    }
}

/// Whom the rank tells in this round, where it tells.
pub fn target(topology: Topology, peers: u32, rank: u32, round: u32) -> u32
    requires { round < rounds_of topology peers }
    ensures { result ≡ target_of topology peers rank round }
{
    let distance = distance(topology, peers, round);
    match topology {
        Topology::Mesh | Topology::Dissemination => behind(peers, rank, distance),
        Topology::Star { .. } | Topology::Tree { .. } => ahead(peers, rank, distance),
    }
}

/// In which round the rank hears this source, if in one.
pub fn round_from(topology: Topology, peers: u32, rank: u32, from: u32) -> Option<u32>
    ensures { result ≡ round_from topology peers rank from (rounds_of topology peers) }
{
    let mut found = None;
    for round in 0..rounds(topology, peers) {
        if hears(topology, peers, rank, round) && source(topology, peers, rank, round) == from {
            found = Some(round);
        }
    }
    found
}
