//! A step, with what it needs of other peers.
ghost use Rattle.std.specs.Prelude.{◌≡◌, ◌<◌, ◌+◌, ◌==◌, ◌&&◌, ℕ, List, not, length, nat_lt, IfOk, Some, [], slice_get, slice_index, slice_index_or, map};
ghost use Rattle.std.specs.Option.{option_map, option_map_or};
ghost use Rattle.fab_replay.specs.declared.turns.Peer.{Peer as PeerWithSteps};
ghost use Rattle.std.specs.List.{list_all};
ghost use Rattle.fab_base.specs.declared.script.Bound.{Bound as BoundScript};
ghost use Rattle.fab_model.specs.Peers as model;
ghost use Rattle.fab_model.specs.Peers.{fabric, facts, all_below, has_all, is_calm, only_if, with_state, head_step, tail_step, final_step};
ghost use Rattle.fab_model.specs.Receiving.{draw_due};
ghost use Rattle.fab_model.specs.Arrivals.{do_head, do_tail};
ghost use Rattle.fab_model.specs.Calls.{CancelFirst, do_call};
ghost use Rattle.fab_base.specs.declared.items.Item.{Item as WholeItem};
ghost use Rattle.fab_model.specs.State.{fits};
ghost use Rattle.fab_model.specs.Views.{View, seen};
ghost use Rattle.fab_checker_machine.specs.Seen.{state_of};
ghost use Rattle.fab_replay.specs.Seen.{actor_of, actors_of, led, Took};

use crate::actor::Actor;
use crate::turns::Peer;
use fab_base::{Bound, Item, ItemHead, NoMemory, Step};
use fab_checker_values::lists::number_at;

/// A step that is to be taken. What it needs of other peers is there, or it does not stand.
#[derive(Drop)]
pub enum Ready {
    Do,
    /// The item that arrives from this peer.
    Head(u32, Option<ItemHead>),
    /// The item from this peer that is whole.
    Tail(u32, Option<Item>),
    Sent(u32),
    Draw,
    Read,
    /// Whether a posted receive is cancelled now.
    Final(bool),
}

/// The items that this peer accepted for the receiver, in order.
#[tactic(auto, unfolding(fab_model::specs::Peers::fabric))]
fn items_for(peers: &[Peer], sender: u32, receiver: usize) -> &[Item]
    ensures { (bound : BoundScript) → result.now ≡ (seen fabric (actors_of bound peers.now) receiver).ready sender }
{
    match peers.get(sender as usize) {
        Some(peer) => match peer.actor.state.tx.accepted.get(receiver) {
            Some(items) => items.as_slice(),
            None => &[],
        },
        None => &[],
    }
}

/// How many items this peer has transmitted to the receiver.
#[tactic(auto, unfolding(fab_model::specs::Peers::fabric))]
fn sent_for(peers: &[Peer], sender: u32, receiver: usize) -> u64
    ensures { (bound : BoundScript) → result ≡ (seen fabric (actors_of bound peers.now) receiver).sent sender }
{
    match peers.get(sender as usize) {
        Some(peer) => number_at(peer.actor.state.tx.sent.as_slice(), receiver),
        None => 0,
    }
}

impl Actor {
    /// The head of the item that arrives next from this source, where it may arrive: it is among these that
    /// were accepted, none of the source is coming, and no draw is due.
    fn arriving(&self, source: u32, items: &[Item]) -> Option<ItemHead>
        ensures { (bound : BoundScript) → (v : View WholeItem) → v.ready source ≡ items.now → head_step v (actor_of bound self.now) source
            ≡ option_map (λ head. with_state (actor_of bound self.now) (do_head (state_of self.now.state) source head)) result }
    {
        let heads = number_at(self.state.rx.heads.as_slice(), source as usize);
        let tails = number_at(self.state.rx.tails.as_slice(), source as usize);
        if heads != tails || self.state.rx.draw_due() {
            return None;
        }
        match items.get(heads as usize) {
            Some(item) => Some(item.head),
            None => None,
        }
    }

    /// Whether the item of the source that arrived may become whole: it is transmitted, and the
    /// completions that it writes have room.
    fn may_complete(&self, source: u32, head: &ItemHead, sent: u64) -> bool
        ensures { (bytes : List ℕ) → result ≡ ((slice_index self.now.state.rx.heads.items source == slice_index self.now.state.rx.tails.items source + 1)
            && nat_lt (slice_index self.now.state.rx.tails.items source) sent && fits (do_tail (state_of self.now.state) source head.now bytes).cq) }
    {
        let heads = number_at(self.state.rx.heads.as_slice(), source as usize);
        let tails = number_at(self.state.rx.tails.as_slice(), source as usize);
        if heads == 0 || heads - 1 != tails || tails >= sent {
            return false;
        }
        let entries = self.state.entries_at_tail(source, head);
        self.state.cq.has_room(entries)
    }

    /// This item of the source, where it may become whole.
    fn completed(&self, source: u32, item: &Item, sent: u64) -> Result<Option<Item>, NoMemory>
        ensures { (bound : BoundScript) → (v : View WholeItem) → slice_get (v.ready source) (slice_index self.now.state.rx.tails.items source) ≡ Some item.now → v.sent source ≡ sent
            → IfOk result (λ item. tail_step v (actor_of bound self.now) source ≡ option_map (λ i. with_state (actor_of bound self.now) (do_tail (state_of self.now.state) source i.head i.bytes)) item) }
    {
        if !self.may_complete(source, &item.head, sent) {
            return Ok(None);
        }
        let bytes = item.bytes.clone()?;
        Ok(Some(Item {
            head: item.head,
            bytes,
        }))
    }

    /// The item that becomes whole next of this source, where it may become whole.
    fn completing(&self, source: u32, items: &[Item], sent: u64) -> Result<Option<Item>, NoMemory>
        ensures { (bound : BoundScript) → (v : View WholeItem) → v.ready source ≡ items.now → v.sent source ≡ sent → IfOk result (λ item. tail_step v (actor_of bound self.now) source
            ≡ option_map (λ i. with_state (actor_of bound self.now) (do_tail (state_of self.now.state) source i.head i.bytes)) item) }
    {
        let tails = number_at(self.state.rx.tails.as_slice(), source as usize);
        match items.get(tails as usize) {
            Some(item) => self.completed(source, item, sent),
            None => Ok(None),
        }
    }

    /// Whether all lines are done and no draw is due.
    fn is_quiet(&self, bound: &Bound) -> bool
        ensures { result ≡ ((facts (actor_of bound.now self.now)).finished && not (facts (actor_of bound.now self.now)).draw_due) }
    {
        self.is_finished(bound) && !self.state.rx.draw_due()
    }

    /// The step is taken, where it stands.
    #[tactic(auto, unfolding(fab_model::specs::Calls::do_call))]
    pub fn act(&mut self, bound: &Bound, ready: Ready) -> Result<bool, NoMemory>
        ensures { IfOk result (λ took. Took took (actor_of bound.now self.old) (actor_of bound.now self.new) (led (actor_of bound.now self.old) ready)) }
    {
        match ready {
            Ready::Do => self.do_next(bound),
            Ready::Head(_, None) => Ok(false),
            Ready::Head(source, Some(head)) => {
                self.state.do_head(source, &head)?;
                Ok(true)
            }
            Ready::Tail(_, None) => Ok(false),
            Ready::Tail(source, Some(item)) => {
                let Item { head, bytes } = item;
                self.state.do_tail(source, &head, bytes)?;
                Ok(true)
            }
            Ready::Sent(to) => self.sent(to),
            Ready::Draw => self.draw(),
            Ready::Read => self.read_next(bound),
            Ready::Final(false) => Ok(false),
            Ready::Final(true) => {
                self.state.call_cancel(None)?;
                Ok(true)
            }
        }
    }
}

/// How many items of the sender are whole at the receiver.
fn whole_at(peers: &[Peer], receiver: usize, sender: usize) -> u64
    ensures { (bound : BoundScript) → result ≡ option_map_or (λ (a : model.Actor). slice_index a.state.rx.tails sender) (slice_get (actors_of bound peers.now) receiver) 0 }
{
    match peers.get(receiver) {
        Some(peer) => number_at(peer.actor.state.rx.tails.as_slice(), sender),
        None => 0,
    }
}

/// How many items the sender accepted for the receiver.
fn accepted_by(peers: &[Peer], sender: usize, receiver: usize) -> u64
    ensures { (bound : BoundScript) → result ≡ option_map_or (λ (a : model.Actor). length (slice_index_or a.state.tx.accepted receiver [])) (slice_get (actors_of bound peers.now) sender) 0 }
{
    match peers.get(sender) {
        Some(peer) => match peer.actor.state.tx.accepted.get(receiver) {
            Some(items) => items.as_slice().len() as u64,
            None => 0,
        },
        None => 0,
    }
}

/// Whether every item that the sender accepted for the receiver is whole there.
fn has_all(peers: &[Peer], sender: usize, receiver: usize) -> bool
    ensures { (bound : BoundScript) → result ≡ has_all (map facts (actors_of bound peers.now)) sender receiver }
{
    whole_at(peers, receiver, sender) == accepted_by(peers, sender, receiver)
}

fn all_from(peers: &[Peer], sender: usize) -> bool
    ensures { (bound : BoundScript) → result ≡ all_below (has_all (map facts (actors_of bound peers.now)) sender) (length peers.now) }
{
    for receiver in 0..peers.len() {
        if !has_all(peers, sender, receiver) {
            return false;
        }
    }
    true
}

fn all_arrived(peers: &[Peer]) -> bool
    ensures { (bound : BoundScript) → result ≡ all_below (λ sender. all_below (has_all (map facts (actors_of bound peers.now)) sender) (length peers.now)) (length peers.now) }
{
    for sender in 0..peers.len() {
        if !all_from(peers, sender) {
            return false;
        }
    }
    true
}

fn all_quiet(bound: &Bound, peers: &[Peer]) -> bool
    ensures { result ≡ list_all (λ (p : PeerWithSteps). (facts (actor_of bound.now p.actor)).finished && not (facts (actor_of bound.now p.actor)).draw_due) peers.now }
{
    peers.iter().all(|peer| peer.actor.is_quiet(bound))
}

/// Whether all lines are done, every item accepted anywhere is whole, and no draw is due.
#[tactic(auto, unfolding(fab_model::specs::Peers::is_calm))]
fn is_calm(bound: &Bound, peers: &[Peer]) -> bool
    ensures { result ≡ is_calm (map facts (actors_of bound.now peers.now)) }
{
    all_quiet(bound, peers) && all_arrived(peers)
}

/// Whether the first posted receive that may be cancelled is cancelled now.
fn cancels(bound: &Bound, peers: &[Peer], actor: &Actor) -> bool
    ensures { (v : View WholeItem) → v.calm ≡ is_calm (map facts (actors_of bound.now peers.now)) → final_step v (actor_of bound.now actor.now)
        ≡ only_if result (with_state (actor_of bound.now actor.now) (do_call (state_of actor.now.state) CancelFirst).1) }
{
    if !actor.state.rx.can_cancel(None) || !actor.state.cq.has_room(1) {
        return false;
    }
    is_calm(bound, peers)
}

/// The step of the peer of this number, with what it needs of other peers.
#[tactic(auto, unfolding(fab_model::specs::Peers::step, fab_model::specs::Peers::fabric))]
pub fn prepare(bound: &Bound, peers: &[Peer], number: usize, step: Step) -> Result<Ready, NoMemory>
    requires { number < length peers.now }
    ensures { (a : model.Actor) → slice_get (actors_of bound.now peers.now) number ≡ Some a
        → IfOk result (λ ready. led a ready ≡ fabric.step (seen fabric (actors_of bound.now peers.now) number) a step) }
{
    let actor = &peers[number].actor;
    match step {
        Step::Do => Ok(Ready::Do),
        Step::Head(source) => {
            let items = items_for(peers, source, number);
            Ok(Ready::Head(source, actor.arriving(source, items)))
        }
        Step::Tail(source) => {
            let items = items_for(peers, source, number);
            let item = actor.completing(source, items, sent_for(peers, source, number))?;
            Ok(Ready::Tail(source, item))
        }
        Step::Sent(to) => Ok(Ready::Sent(to)),
        Step::Draw => Ok(Ready::Draw),
        Step::Read => Ok(Ready::Read),
        Step::Final => Ok(Ready::Final(cancels(bound, peers, actor))),
    }
}
