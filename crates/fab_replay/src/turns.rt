//! All peers, and their turns.
ghost use Rattle.std.specs.Prelude.{◌≡◌, ◌+◌, ◌<◌, length, IfOk, MatchOption, OnOk, None, Some, slice_get, if◌then◌else◌};
ghost use Rattle.fab_model.specs.Laws.{Run};
ghost use Rattle.fab_model.specs.Orders.{turn, lowest, replay};
ghost use Rattle.fab_model.specs.Peers.{fabric};
ghost use Rattle.fab_model.specs.Views.{rule};
ghost use Rattle.fab_replay.specs.Seen.{actor_of, steps_of, moment_of, led, Took};

use crate::actor::Actor;
use crate::ready::{Ready, prepare};
use fab_base::{Bound, List, NoMemory, Step};
use fab_checker_values::lists::{narrowed, one_more};
use std::alloc::Global;

/// A peer with the steps of its schedule, and how many of these it took.
#[derive(Drop)]
pub struct Peer {
    pub actor: Actor,
    pub steps: List<Step>,
    pub taken: u64,
}

impl Peer {
    /// The step that comes next.
    fn next_step(&self) -> Option<Step>
        ensures { result ≡ slice_get self.now.steps self.now.taken }
    {
        match self.steps.as_slice().get(self.taken as usize) {
            Some(step) => Some(*step),
            None => None,
        }
    }

    /// The step that comes next is taken, where it stands.
    fn take(&mut self, bound: &Bound, ready: Ready) -> Result<bool, NoMemory>
        ensures took { IfOk result (λ took. Took took (actor_of bound.now self.old.actor) (actor_of bound.now self.new.actor) (led (actor_of bound.now self.old.actor) ready)) }
        ensures taken { IfOk result (λ took. self.new.taken ≡ self.old.taken + (if took then 1 else 0)) }
        ensures steps { self.new.steps ≡ self.old.steps }
    {
        let more = one_more(self.taken)?;
        let took = self.actor.act(bound, ready)?;
        if took {
            self.taken = more;
        }
        Ok(took)
    }
}

/// The peer of this number takes its next step, where it stands.
fn step(bound: &Bound, peers: &mut [Peer], number: usize) -> Result<bool, NoMemory>
    requires within { number < length peers.old }
    ensures took { IfOk result (λ took. Took took (moment_of bound.now peers.old) (moment_of bound.now peers.new) (turn (rule fabric) (moment_of bound.now peers.old) number)) }
    ensures steps { steps_of peers.new ≡ steps_of peers.old }
{
    let Some(step) = peers[number].next_step() else {
        return Ok(false);
    };
    let ready = prepare(bound, peers, number, step)?;
    peers[number].take(bound, ready)
}

/// The lowest-numbered peer whose next step stands takes it. This is the peer that did.
fn turn(bound: &Bound, peers: &mut [Peer]) -> Result<Option<usize>, NoMemory>
    ensures took { IfOk result (λ taker. MatchOption taker
        ((lowest (turn (rule fabric) (moment_of bound.now peers.old)) (length peers.old) ≡ None) × (moment_of bound.now peers.new ≡ moment_of bound.now peers.old))
        (λ number. (lowest (turn (rule fabric) (moment_of bound.now peers.old)) (length peers.old) ≡ Some (moment_of bound.now peers.new))
        × (turn (rule fabric) (moment_of bound.now peers.old) number ≡ Some (moment_of bound.now peers.new)))) }
    ensures steps { steps_of peers.new ≡ steps_of peers.old }
{
    for number in 0..peers.len() {
        if step(bound, peers, number)? {
            return Ok(Some(number));
        }
    }
    Ok(None)
}

/// The replay: turns, until no peer can take its next step. These are the peers that took them, in order.
pub fn run(alloc: Global, bound: &Bound, peers: &mut [Peer]) -> Result<Vec<u32>, NoMemory>
    ensures ended { OnOk result (moment_of bound.now peers.new ≡ replay (rule fabric) (moment_of bound.now peers.old)) }
    ensures order { IfOk result (λ order. Run (turn (rule fabric)) (moment_of bound.now peers.old) order.items (moment_of bound.now peers.new)) }
    ensures steps { steps_of peers.new ≡ steps_of peers.old }
{
    let mut order = Vec::new(alloc);
    'turns: while let Some(number) = turn(bound, peers)? {
        order.push(narrowed(number)?)?;
    }
    Ok(order)
}
