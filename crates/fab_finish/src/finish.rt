//! The end of a run: the peers go on until none can, and cancel the receives that are still posted.
ghost use Rattle.std.specs.Prelude.{◌≡◌, ℕ, length, slice_get, Some, true, false, Ok, OnErr, OnOk};
ghost use Rattle.std.specs.List.{list_all};
ghost use Rattle.fab_model.specs.Peers.{is_finished};
ghost use Rattle.fab_model.specs.Replay.{at_rest, all_done};
ghost use Rattle.fab_peer.specs.Turns.{IsQuiet};
ghost use Rattle.fab_finish.specs.Joined.{Member, member_actor, IsJoined, Ends, Clears, actors, told_of};
ghost use Rattle.fab_finish.specs.Rests.{Rest, AreCancelled};
ghost use Rattle.fab_finish.specs.Wanting.{Grows, Leaves};

use crate::rounds::settle;
use fab_base::NoMemory;
use fab_ep::endpoint::Endpoint;
use fab_link::PlainPort;
use fab_peer::calls::Machinery;
use fab_peer::peer::Peer;

/// How a run ended: all lines are done and no receive is posted, or some line could not be done.
#[derive(Clone, Copy, Debug, Drop, Eq, PartialEq)]
pub enum Ending {
    Drained,
    Stuck,
}

/// Whether each peer has done all its lines.
fn each_finished<C: Machinery>(peers: &[Peer<Endpoint<PlainPort, C>>]) -> bool
    ensures { result ≡ list_all (λ p. is_finished (member_actor p)) peers.now }
{
    peers.iter().all(|peer| peer.finished())
}

/// Whether all lines of all peers are done.
fn all_done<C: Machinery>(peers: &[Peer<Endpoint<PlainPort, C>>]) -> bool
    ensures { result ≡ all_done (actors peers.now) }
{
    each_finished(peers)
}

/// Each peer, by number, cancels the receives that are still posted and reads their completions.
fn cancel_all<C: Machinery + Drop>(
    peers: &mut [Peer<Endpoint<PlainPort, C>>],
) -> Result<(), NoMemory>
    requires quiet { (k : ℕ) (p : Member) → slice_get peers.old k ≡ Some p → IsQuiet (told_of p) }
    requires rest { Rest (actors peers.old) }
    requires done { all_done (actors peers.old) ≡ true }
    ensures ends { OnOk result (Ends peers.old peers.new) }
    ensures rest { OnOk result (Rest (actors peers.new)) }
    ensures done { OnOk result (all_done (actors peers.new) ≡ true) }
    ensures cancelled { OnOk result (AreCancelled (length peers.old) peers.old peers.new) }
    ensures grows { Grows peers.old peers.new }
    ensures leaves { OnErr result (Leaves peers.old peers.new) }
{
    for number in 0..peers.len() {
        peers[number].cancel_posted()?;
    }
    Ok(())
}

/// Makes rounds until one moves nothing. Where all lines are done then, each peer cancels the receives that are still
/// posted (fi_cancel of fi_endpoint(3)) and reads their completions. The peers are at rest in both cases: nothing is
/// on its way, no completion is unread, and no line can be done.
///
/// After want of memory a frame that was on its way may be lost, so the peers are then only read or dropped. Their
/// schedules are then those of turns that stood, and begin with the ones before.
pub fn finish<C: Machinery + Drop>(
    peers: &mut [Peer<Endpoint<PlainPort, C>>],
) -> Result<Ending, NoMemory>
    requires joined { IsJoined peers.old }
    ensures ends { OnOk result (Ends peers.old peers.new) }
    ensures rest { OnOk result (at_rest (actors peers.new) ≡ true) }
    ensures drained { result ≡ Ok Ending.Drained → all_done (actors peers.new) ≡ true }
    ensures stuck { result ≡ Ok Ending.Stuck → all_done (actors peers.new) ≡ false }
    ensures cleared { result ≡ Ok Ending.Drained → Clears peers.old peers.new }
    ensures grows { Grows peers.old peers.new }
    ensures leaves { OnErr result (Leaves peers.old peers.new) }
{
    settle(peers)?;
    if !all_done(peers) {
        return Ok(Ending::Stuck);
    }
    cancel_all(peers)?;
    Ok(Ending::Drained)
}
