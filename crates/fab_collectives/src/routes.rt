//! How the messages of a collective go, and how many shares each brings.
ghost use Rattle.std.specs.Prelude.{◌≡◌, ◌<◌, ◌*◌};
ghost use Rattle.fab_topology.specs.Laws.{Tiles};
ghost use Rattle.fab_topology.specs.Rounds.{distance, width};
ghost use Rattle.fab_collectives.specs.Routes.{heard_by, hears_in, is_doubled, load_in, rounds_in, source_in, target_in, tells_in, topology_of};

use crate::collective::Work;
use fab_base::INJECT_BYTES;
use fab_fold::Coll;
use fab_topology::{Topology, hears, round_from, rounds, source, target, tells, width};

/// From how many ranks on messages go by doubling.
pub const DOUBLING_FROM: u32 = 8;

/// Whether messages go by doubling: from [`DOUBLING_FROM`] ranks on, but for an allgather or an allreduce only where the shares of all ranks
/// together have at most twice the bytes that an inject call copies. Then each message, which brings at most half of them, is one such call.
fn is_doubled(coll: Coll, peers: u32, len: usize) -> bool
    ensures { result ≡ is_doubled coll peers len }
{
    if peers < DOUBLING_FROM {
        return false;
    }
    match coll {
        Coll::Broadcast { .. } => true,
        Coll::Barrier | Coll::Allgather | Coll::Allreduce { .. } => len
            <= (2 * INJECT_BYTES / peers) as usize,
    }
}

/// Who tells whom, where shares have so many bytes.
pub(crate) fn topology(work: Work, len: usize) -> Topology
    ensures { result ≡ topology_of work len }
{
    let is_doubled = is_doubled(work.coll, work.peers, len);
    match work.coll {
        Coll::Broadcast { root } => if is_doubled {
            Topology::Tree { root }
        } else {
            Topology::Star { root }
        },
        Coll::Barrier | Coll::Allgather | Coll::Allreduce { .. } => {
            if is_doubled {
                Topology::Dissemination
            } else {
                Topology::Mesh
            }
        }
    }
}

/// How many rounds there are. Each tells of the ranks between it and the next, and the last one ends behind all.
pub(crate) fn rounds_in(work: Work, len: usize) -> u32
    ensures count { result ≡ rounds_in work len }
    ensures tiles { Tiles (rounds_in work len) (λ k. distance (topology_of work len) k) (λ k. width (topology_of work len) work.peers k) work.peers }
{
    rounds(topology(work, len), work.peers)
}

/// Whether the rank hears in this round.
pub(crate) fn hears_in(work: Work, len: usize, round: u32) -> bool
    requires { round < rounds_in work len }
    ensures { result ≡ hears_in work len round }
{
    hears(topology(work, len), work.peers, work.rank, round)
}

/// Whom the rank hears in this round.
pub(crate) fn source_in(work: Work, len: usize, round: u32) -> u32
    requires { round < rounds_in work len }
    ensures { result ≡ source_in work len round }
{
    source(topology(work, len), work.peers, work.rank, round)
}

/// Whether the rank tells in this round.
pub(crate) fn tells_in(work: Work, len: usize, round: u32) -> bool
    requires { round < rounds_in work len }
    ensures { result ≡ tells_in work len round }
{
    tells(topology(work, len), work.peers, work.rank, round)
}

/// Whom the rank tells in this round.
pub(crate) fn target_in(work: Work, len: usize, round: u32) -> u32
    requires { round < rounds_in work len }
    ensures { result ≡ target_in work len round }
{
    target(topology(work, len), work.peers, work.rank, round)
}

/// The round in which the rank hears this source, if it does.
pub(crate) fn heard_by(work: Work, len: usize, source: u32) -> Option<u32>
    ensures { result ≡ heard_by work len source }
{
    round_from(topology(work, len), work.peers, work.rank, source)
}

/// How many bytes a message of this round has: those of the shares that it brings.
pub(crate) fn bytes_in(work: Work, len: usize, round: u32) -> usize
    requires { round < rounds_in work len }
    ensures { result ≡ load_in work len round * len }
{
    match work.coll {
        Coll::Broadcast { .. } => len,
        Coll::Barrier | Coll::Allgather | Coll::Allreduce { .. } => {
            width(topology(work, len), work.peers, round) as usize * len
        }
    }
}
