//! The report of all peers.
ghost use Rattle.std.specs.Prelude.{◌≡◌, ◌++◌, IfOk, OnOk, string_bytes};
ghost use Rattle.fab_model.specs.Words.{text_of};
ghost use Rattle.fab_model.specs.Report.{all_lines, report_of};
ghost use Rattle.fab_model.specs.Peers.{is_finished};
ghost use Rattle.std.specs.List.{list_all};
ghost use Rattle.fab_replay.specs.declared.turns.Peer.{Peer as PeerWithSteps};
ghost use Rattle.fab_replay.specs.Seen.{actor_of, actors_of, steps_of};

use crate::actor::lines_in;
use crate::turns::Peer;
use fab_base::{Bound, NoMemory};
use fab_report::{add_first, add_last, add_peer};
use std::alloc::Global;

/// Whether all lines of all peers are done.
fn all_done(bound: &Bound, peers: &[Peer]) -> bool
    ensures { result ≡ list_all (λ (p : PeerWithSteps). is_finished (actor_of bound.now p.actor)) peers.now }
{
    peers.iter().all(|peer| peer.actor.is_finished(bound))
}

/// The parts of all peers, in order.
fn add_peers(out: &mut String, bound: &Bound, peers: &[Peer]) -> Result<(), NoMemory>
    ensures { OnOk result (string_bytes out.new ≡ string_bytes out.old
        ++ text_of (all_lines 0 (actors_of bound.now peers.now) (steps_of peers.now))) }
{
    for number in 0..peers.len() {
        let peer = &peers[number];
        let actor = &peer.actor;
        add_peer(
            out,
            number,
            lines_in(bound, actor.number),
            actor.results.as_slice(),
            &actor.kept,
            actor.pending() as u64,
            actor.deferred()?,
            peer.steps.as_slice(),
        )?;
    }
    Ok(())
}

/// The report of these peers, in their states and with their schedules.
pub fn report(alloc: Global, bound: &Bound, peers: &[Peer]) -> Result<String, NoMemory>
    ensures { IfOk result (λ text. string_bytes text ≡ report_of bound.now.script.version (actors_of bound.now peers.now) (steps_of peers.now)) }
{
    let mut out = String::new(alloc);
    add_first(&mut out, bound.script.version, peers.len())?;
    add_peers(&mut out, bound, peers)?;
    add_last(&mut out, all_done(bound, peers))?;
    Ok(out)
}
