//! What a whole message does to the receive that it goes to: the buffer is filled, the completion written,
//! the multi-receive let go, and the reply booked (fi_cq(3)).
ghost use Rattle.std.specs.Prelude.{◌≡◌, OnOk, is_some};
ghost use Rattle.fab_base.specs.declared.operations.Receive.{Receive};
ghost use Rattle.fab_model.specs.Complete.{release, fill, release_multi, reply, book};
ghost use Rattle.fab_checker_machine.specs.Seen.{state_of};

use crate::state::State;
use fab_base::{Buf, Class, Entry, Item, ItemHead, NoMemory, Outcome, Receive, Taken};
use fab_checker_halves::take_made;
use fab_checker_values::entries::{entry_of, has_space};
use fab_checker_values::lists::narrowed;
use fab_checker_values::orders::reply_head;

impl State {
    /// The message is placed in the receive: its completion is written, and the receive counts.
    #[tactic(auto, unfolding(fab_model::specs::Complete::fill))]
    pub fn fill(
        &mut self,
        receive: Receive,
        place: u32,
        source: u32,
        head: &ItemHead,
        bytes: &[u8],
    ) -> Result<(), NoMemory>
        ensures { OnOk result (state_of self.new ≡ fill receive place source head.now bytes.now (state_of self.old)) }
    {
        let call = receive.call;
        let good = has_space(&receive, place, head);
        self.rx.fill(&receive, place, bytes);
        self.count(Class::Recv, good);
        let entry = entry_of(receive, place, source, head, bytes)?;
        self.write(Some(call), entry)
    }

    /// Lets the multi-receive go that this call made, where it is closing and has no items under way.
    #[tactic(auto, unfolding(fab_model::specs::Complete::release_multi))]
    pub fn release_multi(&mut self, call: u64) -> Result<(), NoMemory>
        ensures { OnOk result (state_of self.new ≡ release_multi call (state_of self.old)) }
    {
        if self.rx.is_under_way(call) {
            return Ok(());
        }
        let Some(receive) = take_made(&mut self.rx.closing, call) else {
            return Ok(());
        };
        let Receive {
            call,
            buf,
            ctx,
            used,
            ..
        } = receive;
        self.write(
            Some(call),
            Taken::Success(Entry::Released { ctx, used, buf }),
        )?;
        Ok(())
    }

    /// Lets a multi-receive go, where that can be.
    pub fn release(&mut self, is_multi: bool, call: u64) -> Result<(), NoMemory>
        ensures { (r : Receive) → r.call ≡ call → is_some r.least ≡ is_multi → OnOk result (state_of self.new ≡ release r (state_of self.old)) }
    {
        if is_multi {
            self.release_multi(call)?;
        }
        Ok(())
    }

    /// A reply to this operation of this peer joins the items for it.
    #[tactic(auto, unfolding(fab_model::specs::Complete::reply))]
    pub fn reply(
        &mut self,
        source: u32,
        op: u64,
        outcome: Outcome,
        bytes: Buf,
    ) -> Result<(), NoMemory>
        ensures { OnOk result (state_of self.new ≡ reply source op outcome bytes (state_of self.old)) }
    {
        let total = narrowed(bytes.as_slice().len())?;
        let head = reply_head(op, outcome, total);
        self.tx.join(source, Item { head, bytes })
    }

    /// Where a reply is due, it is booked.
    #[tactic(auto, unfolding(fab_model::specs::Complete::book))]
    pub fn book(&mut self, due: bool, source: u32, head: &ItemHead) -> Result<(), NoMemory>
        ensures { OnOk result (state_of self.new ≡ book due source head.now (state_of self.old)) }
    {
        if due {
            let nothing = Buf::empty(self.alloc);
            self.reply(source, head.op, Outcome::Done, nothing)?;
        }
        Ok(())
    }
}
