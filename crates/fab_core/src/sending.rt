//! Messages that go out are judged and accepted (fi_msg(3), fi_tagged(3)).
ghost use Rattle.std.specs.Prelude.{◌≡◌, ◌<◌, ◌≤◌, ◌^◌, true, IsTrue, IsSome, None, length};
ghost use Rattle.fab_base.specs.declared.limits.TheConstants.{INJECT_BYTES};
ghost use Rattle.fab_link.specs.Frames.{IsSound};
ghost use Rattle.fab_model.specs.State.{in_use};
ghost use Rattle.fab_model.specs.Sending.{ending, head_of};
ghost use Rattle.fab_cq.specs.Queues.{has_room};
ghost use Rattle.fab_tx.specs.Transit.{next_item, writes_when_sent};
ghost use Rattle.fab_core.specs.Parts.{state_of};
ghost use Rattle.fab_core.specs.Doing.{accepted_by, lasting_transmit, sent};
ghost use Rattle.fab_settling.specs.Orders.{order_of};

use crate::parts::Core;
use fab_base::{Buf, Fault, INJECT_BYTES, Outcome};
use fab_face::machine::Message;
use fab_match::Matcher;
use fab_settling::calls::{CallRecord, EndsWhenSent, ThisCall, call};
use fab_settling::ending::end;
use fab_settling::granted::may_send;
use fab_settling::messages::{is_silent, len_of, message_head, most_of_message};
use fab_tx::Outbox;
use std::snapshot::Snapshot;

impl<M: Matcher> Core<M> {
    /// Why a message is refused for a reason that does not pass.
    pub(crate) fn message_fault(&self, message: &Message, bytes: &[u8]) -> Option<Fault>
        ensures { result ≡ lasting_transmit (state_of self.now) (order_of message.now bytes.now) }
    {
        if !may_send(&self.caps, message.tagged) {
            return Some(Fault::NotSupported);
        }
        if bytes.len() > most_of_message(message, self.most_message) {
            return Some(Fault::MsgSize);
        }
        if self.av.lookup(message.dest).is_err() || !self.tx.may_count() {
            return Some(Fault::Invalid);
        }
        None
    }

    /// Accepts a message for a peer, with its buffer.
    pub(crate) fn accept(&mut self, dest: u32, message: &Message, buf: Buf)
        requires peer { dest < length self.old.tx.tx.sent }
        requires room { in_use self.old.tx.tx < self.old.tx.most }
        requires counts { self.old.tx.tx.ops < 2 ^ 62 }
        requires total { length buf < 2 ^ 32 }
        requires sound { IsSound (head_of self.old.tx.tx.ops (order_of message.now buf)) }
        ensures { self.new ≡ accepted_by dest (order_of message.now buf) self.old }
    {
        let about = Snapshot::of(&self.calls);
        let head = message_head(message, self.tx.ops(), len_of(buf.as_slice()));
        let silent = is_silent(message, self.selective);
        self.tx.accept_owned::<Snapshot<CallRecord>, ThisCall>(
            &about,
            dest,
            head,
            message.flags.level,
            message.ctx,
            buf,
            silent,
            message.flags.fence,
        );
        call(&mut self.calls);
    }

    /// Accepts a message for a peer, whose bytes are copied and which is silent.
    pub(crate) fn accept_copy(&mut self, dest: u32, message: &Message, bytes: &[u8])
        requires peer { dest < length self.old.tx.tx.sent }
        requires room { in_use self.old.tx.tx < self.old.tx.most }
        requires counts { self.old.tx.tx.ops < 2 ^ 62 }
        requires few { length bytes.now ≤ INJECT_BYTES }
        requires copied { message.now.ctx ≡ None }
        requires sound { IsSound (head_of self.old.tx.tx.ops (order_of message.now bytes.now)) }
        ensures { self.new ≡ accepted_by dest (order_of message.now bytes.now) self.old }
    {
        let about = Snapshot::of(&self.calls);
        let head = message_head(message, self.tx.ops(), len_of(bytes));
        self.tx.accept_copied::<Snapshot<CallRecord>, ThisCall>(
            &about,
            dest,
            head,
            message.flags.level,
            message.ctx,
            bytes,
            &[],
            None,
            true,
            message.flags.fence,
        );
        call(&mut self.calls);
    }

    /// The item that is next for a peer is transmitted. The operation ends that completes with that.
    pub(crate) fn transmitted(&mut self, dest: u32)
        requires peer { dest < length self.old.tx.tx.sent }
        requires waits { IsSome (next_item self.old.tx.tx dest) }
        requires room { writes_when_sent (ending dest self.old.tx.tx) ≡ true → IsTrue (has_room 1 self.old.cq) }
        ensures { self.new ≡ sent dest self.old }
    {
        let about = (Snapshot::of(&self.tx), dest);
        if let Some(ended) = self.tx.finish(dest) {
            let bytes = Buf::empty(self.alloc);
            let Core {
                cq,
                counters,
                alloc,
                ..
            } = self;
            end::<(Snapshot<Outbox>, u32), EndsWhenSent>(
                *alloc,
                cq,
                counters,
                &about,
                Outcome::Done,
                bytes,
                ended,
            );
        }
    }
}
