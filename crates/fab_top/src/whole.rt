//! The whole report of all peers.
ghost use Rattle.std.specs.Prelude.{◌≡◌, ◌++◌, map, IfOk, OnOk, string_bytes};
ghost use Rattle.std.specs.List.{list_all};
ghost use Rattle.fab_model.specs.Words.{text_of};
ghost use Rattle.fab_model.specs.Peers.{is_finished};
ghost use Rattle.fab_model.specs.Report.{all_lines, report_of};
ghost use Rattle.fab_model.specs.Replay.{all_done};
ghost use Rattle.fab_finish.specs.Joined.{member_actor, member_steps};

use fab_base::NoMemory;
use fab_ep::endpoint::Endpoint;
use fab_link::PlainPort;
use fab_peer::calls::Machinery;
use fab_peer::peer::Peer;
use fab_report::{add_first, add_last, add_peer};
use std::alloc::Global;

/// A peer over a plain port, whatever its machine.
type Member<C> = Peer<Endpoint<PlainPort, C>>;

fn all_finished<C: Machinery>(peers: &[Member<C>]) -> bool
    ensures { result ≡ list_all (λ peer. is_finished (member_actor peer)) peers.now }
{
    peers.iter().all(|peer| peer.finished())
}

/// Whether all lines of all peers are done.
pub fn all_done<C: Machinery>(peers: &[Member<C>]) -> bool
    ensures { result ≡ all_done (map member_actor peers.now) }
{
    all_finished(peers)
}

/// The parts of all peers, in order.
fn add_peers<C: Machinery>(out: &mut String, peers: &[Member<C>]) -> Result<(), NoMemory>
    ensures { OnOk result (string_bytes out.new ≡ string_bytes out.old
        ++ text_of (all_lines 0 (map member_actor peers.now) (map member_steps peers.now))) }
{
    for number in 0..peers.len() {
        let peer = &peers[number];
        add_peer(
            out,
            number,
            peer.lines(),
            peer.results(),
            peer.kept(),
            u64::from(peer.awaiting()),
            u64::from(peer.deferred()),
            peer.schedule(),
        )?;
    }
    Ok(())
}

/// The report of these peers, in their states and with their schedules, of a script of this version.
pub fn report<C: Machinery>(
    alloc: Global,
    version: u32,
    peers: &[Member<C>],
) -> Result<String, NoMemory>
    ensures { IfOk result (λ text. string_bytes text ≡ report_of version (map member_actor peers.now) (map member_steps peers.now)) }
{
    let mut out = String::new(alloc);
    add_first(&mut out, version, peers.len())?;
    add_peers(&mut out, peers)?;
    add_last(&mut out, all_done(peers))?;
    Ok(out)
}
