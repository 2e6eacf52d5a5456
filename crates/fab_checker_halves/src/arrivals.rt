//! What arrives at a peer: the arrival of an item, the receive that a message takes, and where an item went.
ghost use Rattle.std.specs.Prelude.{◌≡◌, ◌<◌, length, OnOk, IfOk, true, is_some, position, slice_index_or};
ghost use Rattle.fab_model.specs.State.{coming_from};
ghost use Rattle.fab_model.specs.Arrivals.{is_wanted, heading_message, heading_other, made_whole};
ghost use Rattle.fab_checker_halves.specs.Seen.{rx_of};
ghost use Rattle.fab_checker_halves.specs.Places.{seated_in, kept_newcomer, placed};

use crate::halves::Receiving;
use fab_base::{Arrival, Coming, ItemHead, Kind, NoMemory, Receive};
use fab_checker_values::lists::{number_at, raise};
use fab_checker_values::matching::matches;
use fab_checker_values::receives::{copied, stays, used_up};

impl Receiving {
    /// The multi-receive at this place takes a message of this length. It stays posted, or it is closing.
    /// Handed out is what it was.
    fn seat_multi(&mut self, at: usize, total: u32) -> Result<Receive, NoMemory>
        requires within { at < length self.old.posted.items }
        ensures was { IfOk result (λ r. r ≡ slice_index_or self.old.posted.items at r) }
        ensures seated { IfOk result (λ r. is_some r.least ≡ true → rx_of self.new ≡ seated_in at total r (rx_of self.old)) }
    {
        let was = copied(&self.posted[at])?;
        let used = used_up(total, &was)?;
        if stays(used, &was) {
            self.posted[at].used = used;
        } else {
            let mut last = self.posted.remove(at);
            last.used = used;
            self.closing.push(last)?;
        }
        Ok(was)
    }

    /// The receive at this place takes a message of this length. A single receive leaves. Handed out is
    /// what it was.
    pub fn seat(&mut self, at: usize, total: u32) -> Result<Receive, NoMemory>
        requires within { at < length self.old.posted.items }
        ensures was { IfOk result (λ r. r ≡ slice_index_or self.old.posted.items at r) }
        ensures seated { IfOk result (λ r. rx_of self.new ≡ seated_in at total r (rx_of self.old)) }
    {
        if self.posted[at].least.is_none() {
            return Ok(self.posted.remove(at));
        }
        self.seat_multi(at, total)
    }

    /// A message that no receive takes is unexpected.
    fn keep_newcomer(&mut self, source: u32, head: &ItemHead) -> Result<(), NoMemory>
        ensures { OnOk result (rx_of self.new ≡ kept_newcomer source head.now (rx_of self.old)) }
    {
        let place = number_at(self.heads.as_slice(), source as usize);
        self.unexpected.push(Arrival {
            source,
            place,
            head: *head,
            bytes: None,
        })?;
        self.send_to(source, Coming::Keep);
        Ok(())
    }

    /// Where the first posted receive stands that matches the message.
    fn place_of_taker(&self, source: u32, head: &ItemHead) -> Option<usize>
        ensures { result ≡ position (is_wanted source head.now) self.now.posted.items }
    {
        self.posted
            .iter()
            .position(|r| matches(&r.want, source, head))
    }

    /// A message goes to the first posted receive that matches, else to the unexpected messages.
    fn place_message(&mut self, source: u32, head: &ItemHead) -> Result<(), NoMemory>
        ensures { OnOk result (rx_of self.new ≡ placed source head.now (rx_of self.old)) }
    {
        let Some(at) = self.place_of_taker(source, head) else {
            self.keep_newcomer(source, head)?;
            return Ok(());
        };
        let receive = self.seat(at, head.total)?;
        let place = receive.used;
        self.send_to(source, Coming::Into(receive, place));
        Ok(())
    }

    /// A message has arrived.
    #[tactic(auto, unfolding(fab_model::specs::Arrivals::heading_message))]
    pub fn head_message(&mut self, source: u32, head: &ItemHead) -> Result<(), NoMemory>
        ensures { OnOk result (rx_of self.new ≡ heading_message source head.now (rx_of self.old)) }
    {
        self.place_message(source, head)?;
        raise(&mut self.heads, source as usize)?;
        Ok(())
    }

    /// The item that is no message goes to the regions, or to the operation that it answers.
    #[tactic(auto, unfolding(fab_model::specs::Arrivals::heading_other))]
    pub fn head_other(&mut self, source: u32, kind: Kind) -> Result<(), NoMemory>
        ensures { OnOk result (rx_of self.new ≡ heading_other source kind (rx_of self.old)) }
    {
        let way = match kind {
            Kind::Reply => Coming::Answer,
            Kind::Msg | Kind::TagMsg | Kind::WriteReq | Kind::ReadReq | Kind::AtomicReq => {
                Coming::Request
            }
        };
        self.send_to(source, way);
        raise(&mut self.heads, source as usize)
    }

    /// One more item of the source is whole, and none is coming. Handed out is where it went.
    #[tactic(auto, unfolding(fab_model::specs::Arrivals::made_whole))]
    pub fn make_whole(&mut self, source: u32) -> Result<Option<Coming>, NoMemory>
        ensures went { IfOk result (λ coming. coming ≡ coming_from (rx_of self.old) source) }
        ensures whole { OnOk result (rx_of self.new ≡ made_whole source (rx_of self.old)) }
    {
        raise(&mut self.tails, source as usize)?;
        if source as usize >= self.coming.len() {
            return Ok(None);
        }
        Ok(self.coming[source as usize].take())
    }
}
