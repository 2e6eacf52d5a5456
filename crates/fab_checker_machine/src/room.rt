//! How many entries a step writes, so that it is known before whether they have room.
ghost use Rattle.std.specs.Prelude.{◌≡◌, IfOk};
ghost use Rattle.fab_checker_halves.specs.Seen.{rx_of};
ghost use Rattle.fab_checker_machine.specs.Seen.{state_of};
ghost use Rattle.fab_checker_machine.specs.Room.{entries_ended, entries_sent, entries_told, entries_into, entries_tail, is_let_go, entries_drawn};

use crate::receiving::entries_given;
use crate::state::State;
use fab_base::{Arrival, Coming, ItemHead, Kind, NoMemory, Operation, Outcome, Receive};
use fab_checker_values::matching::first_taken;
use fab_checker_values::receives::{stays, used_up};
use fab_checker_values::target::outcome_of;

/// How many entries the end of an operation writes.
fn entries_at_end(outcome: Outcome, operation: &Operation) -> usize
    ensures { result ≡ entries_ended outcome operation.now }
{
    if outcome == Outcome::Done && operation.silent {
        0
    } else {
        1
    }
}

/// How many entries a request writes.
fn entries_of_request(outcome: Outcome, head: &ItemHead) -> usize
    ensures { result ≡ entries_told outcome head.now }
{
    match (outcome, head.kind, head.imm) {
        (Outcome::Done, Kind::WriteReq, Some(_)) => 1,
        _ => 0,
    }
}

impl State {
    /// How many entries are written when the next item for the peer is transmitted.
    pub fn entries_at_sent(&self, to: u32) -> usize
        ensures { result ≡ entries_sent to (state_of self.now) }
    {
        match self.tx.ending(to) {
            None => 0,
            Some(operation) => entries_at_end(Outcome::Done, operation),
        }
    }

    /// How many entries a receive writes into which the last bytes of an item from the source come.
    fn entries_into(&self, receive: &Receive, source: u32) -> usize
        ensures { result ≡ entries_into receive.now source (rx_of self.now.rx) }
    {
        if receive.least.is_some()
            && self.rx.is_closing(receive.call)
            && !self.rx.is_under_way_besides(source, receive.call)
        {
            2
        } else {
            1
        }
    }

    /// How many entries are written when the item that arrived from the source is whole.
    pub fn entries_at_tail(&self, source: u32, head: &ItemHead) -> usize
        ensures { result ≡ entries_tail source head.now (state_of self.now) }
    {
        match self.rx.coming_from(source) {
            None | Some(Coming::Keep | Coming::Throw) => 0,
            Some(Coming::Into(receive, _)) => self.entries_into(receive, source),
            Some(Coming::Request) => {
                entries_of_request(outcome_of(self.regions.as_slice(), head), head)
            }
            Some(Coming::Answer) => match self.tx.answered(source, head) {
                None => 0,
                Some(operation) => entries_at_end(head.outcome, operation),
            },
        }
    }

    /// Whether the multi-receive is let go once it took this arrival: it is closing then, and none of its
    /// items is under way.
    fn is_let_go(&self, receive: &Receive, arrival: &Arrival) -> Result<bool, NoMemory>
        ensures { IfOk result (λ b. b ≡ is_let_go receive.now arrival.now (rx_of self.now.rx)) }
    {
        let used = used_up(arrival.head.total, receive)?;
        let is_closing = !stays(used, receive) || self.rx.is_closing(receive.call);
        let goes_into = arrival.bytes.is_none() && (arrival.source as usize) < self.rx.coming.len();
        Ok(is_closing && !goes_into && !self.rx.is_under_way(receive.call))
    }

    /// How many entries a draw writes that is due.
    pub fn entries_at_draw(&self) -> Result<usize, NoMemory>
        ensures { IfOk result (λ n. n ≡ entries_drawn (state_of self.now)) }
    {
        let Some(at) = self.rx.place_of_drawing() else {
            return Ok(0);
        };
        let receive = &self.rx.posted[at];
        let Some(arrival) = first_taken(self.rx.unexpected.as_slice(), &receive.want) else {
            return Ok(0);
        };
        let given = entries_given(arrival);
        if receive.least.is_some() && self.is_let_go(receive, arrival)? {
            return Ok(given + 1);
        }
        Ok(given)
    }
}
