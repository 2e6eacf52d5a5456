//! What a peer transmits: the transmit calls, the transmission of an item, and the end of an operation.
ghost use Rattle.std.specs.Prelude.{◌≡◌, OnOk, IfOk};
ghost use Rattle.fab_model.specs.Calls.{Transmit, do_call};
ghost use Rattle.fab_model.specs.Sending.{transmit_fault, transmit, end_with, do_sent, do_answer};
ghost use Rattle.fab_checker_values.specs.Seen.{order_of};
ghost use Rattle.fab_checker_machine.specs.Seen.{state_of};

use crate::state::State;
use fab_base::{
    Buf, Busy, Fault, Held, Item, ItemHead, LineResult, MOST_OPERATIONS, NoMemory, Operation,
    Outcome, Taken,
};
use fab_checker_values::entries::{plain_error, success_of};
use fab_checker_values::orders::{Order, class_of, is_granted, joined};

impl State {
    /// Why the transmit call is refused, the first reason first.
    #[tactic(auto, unfolding(fab_model::specs::Sending::transmit_fault))]
    pub fn transmit_fault(&self, order: &Order) -> Option<Fault>
        ensures { result ≡ transmit_fault (state_of self.now) (order_of order.now) }
    {
        if !is_granted(&self.caps, order.kind, order.atom) {
            return Some(Fault::NotSupported);
        }
        if order.is_too_long(self.most_message) {
            return Some(Fault::MsgSize);
        }
        if self.lookup(order.dest).is_none()
            || self.tx.ops >= MOST_OPERATIONS
            || !order.is_well_formed()
        {
            return Some(Fault::Invalid);
        }
        if self.tx.is_full(self.most_tx) {
            return Some(Fault::Again(Busy::TxFull(self.most_tx)));
        }
        None
    }

    /// The transmit call, if it is not refused.
    #[tactic(auto, unfolding(fab_model::specs::Sending::transmit, fab_model::specs::Sending::transmit_to))]
    fn transmit(&mut self, order: Order) -> Result<(), NoMemory>
        ensures { OnOk result (state_of self.new ≡ transmit (state_of self.old) (order_of order)) }
    {
        let Some(to) = self.lookup(order.dest) else {
            return Ok(());
        };
        let head = order.head(self.tx.ops)?;
        let Order {
            injected,
            bytes,
            compared,
            ctx,
            level,
            completion,
            fence,
            buf,
            ..
        } = order;
        let bytes = joined(bytes, &compared)?;
        let operation = Held {
            call: self.calls,
            item: Item { head, bytes },
            level,
            ctx,
            buf,
            silent: injected || (self.selective && !completion),
            fence,
        };
        self.tx.accept(self.alloc, to, operation)?;
        self.accept_call()
    }

    /// A transmit call.
    #[tactic(auto, unfolding(fab_model::specs::Calls::do_call))]
    pub fn call_transmit(&mut self, order: Order) -> Result<LineResult, NoMemory>
        ensures { IfOk result (λ answer. (answer, state_of self.new) ≡ do_call (state_of self.old) (Transmit (order_of order))) }
    {
        match self.transmit_fault(&order) {
            Some(fault) => Ok(LineResult::Refused(fault)),
            None => {
                self.transmit(order)?;
                Ok(LineResult::Done)
            }
        }
    }

    /// The end of an operation: it counts, and its completion is written unless it is silent and succeeds.
    #[tactic(auto, unfolding(fab_model::specs::Sending::end_with))]
    fn end_with(
        &mut self,
        outcome: Outcome,
        bytes: Buf,
        operation: Operation,
    ) -> Result<(), NoMemory>
        ensures { OnOk result (state_of self.new ≡ end_with outcome bytes operation (state_of self.old)) }
    {
        let call = Some(operation.call);
        let class = class_of(&operation.head);
        if let Some(kind) = outcome.refusal() {
            self.count(class, false);
            let Operation { ctx, buf, .. } = operation;
            return self.write(call, plain_error(ctx, kind, buf));
        }
        self.count(class, true);
        if operation.silent {
            return Ok(());
        }
        let entry = success_of(self.alloc, operation, bytes);
        self.write(call, Taken::Success(entry))
    }

    /// One more item for the peer is transmitted.
    #[tactic(auto, unfolding(fab_model::specs::Sending::do_sent))]
    pub fn do_sent(&mut self, to: u32) -> Result<(), NoMemory>
        ensures { OnOk result (state_of self.new ≡ do_sent (state_of self.old) to) }
    {
        match self.tx.transmit(to)? {
            None => Ok(()),
            Some(operation) => {
                self.tx.go_on(self.alloc, to)?;
                self.end_with(Outcome::Done, Buf::empty(self.alloc), operation)
            }
        }
    }

    /// A reply is whole: the operation that it answers ends.
    #[tactic(auto, unfolding(fab_model::specs::Sending::do_answer))]
    pub fn do_answer(&mut self, source: u32, reply: &ItemHead, bytes: Buf) -> Result<(), NoMemory>
        ensures { OnOk result (state_of self.new ≡ do_answer (state_of self.old) source reply.now bytes) }
    {
        match self.tx.take_answered(source, reply) {
            None => Ok(()),
            Some(operation) => {
                self.tx.go_on(self.alloc, source)?;
                self.end_with(reply.outcome, bytes, operation)
            }
        }
    }
}
