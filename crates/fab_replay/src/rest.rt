//! Whether all peers are at rest.
ghost use Rattle.std.specs.Prelude.{◌≡◌, ◌<◌, length, not, slice_get, Some, IfOk};
ghost use Rattle.std.specs.List.{list_all};
ghost use Rattle.fab_base.specs.declared.script.Bound.{Bound as BoundScript};
ghost use Rattle.fab_model.specs.Peers as model;
ghost use Rattle.fab_model.specs.Replay.{agree, agree_all, can_do, at_rest};
ghost use Rattle.fab_replay.specs.Seen.{actor_of, actors_of};
ghost use Rattle.fab_replay.specs.Rest.{is_still, all_still};

use crate::actor::Actor;
use crate::turns::Peer;
use fab_base::{Bound, NoMemory};
use fab_checker_values::lists::number_at;

/// Whether what the sender accepted for the receiver, what of it is sent and what of it is whole there are
/// as many.
fn agrees(receiver: &Actor, number: usize, sender: &Actor, of: usize) -> bool
    ensures { (bound : BoundScript) → result ≡ agree number of (actor_of bound receiver.now) (actor_of bound sender.now) }
{
    let accepted = match sender.state.tx.accepted.get(number) {
        Some(items) => items.as_slice().len() as u64,
        None => 0,
    };
    let whole = number_at(receiver.state.rx.tails.as_slice(), of);
    let sent = number_at(sender.state.tx.sent.as_slice(), number);
    whole == accepted && sent == accepted
}

/// Whether this is so for each sender.
fn agrees_with_all(receiver: &Actor, number: usize, peers: &[Peer]) -> bool
    ensures { (bound : BoundScript) → result ≡ agree_all number 0 (actor_of bound receiver.now) (actors_of bound peers.now) }
{
    for of in 0..peers.len() {
        if !agrees(receiver, number, &peers[of].actor, of) {
            return false;
        }
    }
    true
}

/// Whether nothing comes to the peer any more: no item, no unread completion, no draw.
fn is_still(peers: &[Peer], number: usize) -> bool
    requires { number < length peers.now }
    ensures { (bound : BoundScript) → (a : model.Actor) → slice_get (actors_of bound peers.now) number ≡ Some a → result ≡ is_still (actors_of bound peers.now) number a }
{
    let actor = &peers[number].actor;
    agrees_with_all(actor, number, peers)
        && actor.state.cq.taken_out == actor.state.cq.written.len()
        && !actor.state.rx.draw_due()
}

/// Whether this is so for all peers.
fn all_still(peers: &[Peer]) -> bool
    ensures { (bound : BoundScript) → result ≡ all_still (actors_of bound peers.now) 0 (actors_of bound peers.now) }
{
    for number in 0..peers.len() {
        if !is_still(peers, number) {
            return false;
        }
    }
    true
}

/// Whether no peer can do its next line. A line that can be done is done.
fn none_can(bound: &Bound, peers: &mut [Peer]) -> Result<bool, NoMemory>
    ensures { IfOk result (λ none. none ≡ list_all (λ a. not (can_do a)) (actors_of bound.now peers.old)) }
{
    for number in 0..peers.len() {
        if peers[number].actor.do_next(bound)? {
            return Ok(false);
        }
    }
    Ok(true)
}

/// Whether all peers are at rest. It tries their next lines, and so it uses the peers up.
#[tactic(auto, unfolding(fab_model::specs::Replay::at_rest))]
pub fn are_at_rest(bound: &Bound, peers: &mut [Peer]) -> Result<bool, NoMemory>
    ensures { IfOk result (λ rest. rest ≡ at_rest (actors_of bound.now peers.old)) }
{
    if !all_still(peers) {
        return Ok(false);
    }
    none_can(bound, peers)
}
