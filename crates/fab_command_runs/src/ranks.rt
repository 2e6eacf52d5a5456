//! The text of all ranks.
ghost use Rattle.std.specs.Prelude.{◌≡◌, ◌++◌, flat_map, length, IfOk, OnOk, string_bytes};
ghost use Rattle.fab_model.specs.Calls.{upto};
ghost use Rattle.fab_model.specs.Words.{text_of};
ghost use Rattle.fab_finish.specs.Joined.{actors};
ghost use Rattle.fab_workloads.specs.Rounds.{AreWithin};
ghost use Rattle.fab_workloads.specs.Text.{coll_text, rank_lines};
ghost use Rattle.fab_workload_laws.specs.CollLaws.{FoldsIn};

use crate::texts::{add_first, add_last, add_rank};
use fab_base::NoMemory;
use fab_ep::endpoint::Endpoint;
use fab_link::PlainPort;
use fab_peer::calls::Machinery;
use fab_peer::peer::Peer;
use fab_workloads::CollScript;
use std::alloc::Global;

/// A peer over a plain port, whatever its machine.
type Member<C> = Peer<Endpoint<PlainPort, C>>;

/// The parts of all ranks, in order.
fn add_ranks<C: Machinery>(
    alloc: Global,
    out: &mut String,
    script: &CollScript,
    peers: &[Member<C>],
) -> Result<(), NoMemory>
    requires within { AreWithin script.now.peers script.now.rounds }
    requires count { length peers.now ≡ script.now.peers }
    requires folds { FoldsIn script.now.peers script.now.rounds (actors peers.now) }
    ensures { OnOk result (string_bytes out.new ≡ string_bytes out.old
        ++ text_of (flat_map (rank_lines script.now.rounds) (upto script.now.peers))) }
{
    for r in 0..script.peers {
        let peer = &peers[r as usize];
        add_rank(alloc, out, script, r, peer.results())?;
    }
    Ok(())
}

/// The text of what each rank makes of the rounds, of its own shares and of those that it received.
pub(crate) fn coll_text<C: Machinery>(
    alloc: Global,
    script: &CollScript,
    peers: &[Member<C>],
) -> Result<String, NoMemory>
    requires within { AreWithin script.now.peers script.now.rounds }
    requires count { length peers.now ≡ script.now.peers }
    requires folds { FoldsIn script.now.peers script.now.rounds (actors peers.now) }
    ensures { IfOk result (λ text. string_bytes text ≡ coll_text script.now.peers script.now.rounds) }
{
    let mut out = String::new(alloc);
    add_first(&mut out, script.peers)?;
    add_ranks(alloc, &mut out, script, peers)?;
    add_last(&mut out)?;
    Ok(out)
}
