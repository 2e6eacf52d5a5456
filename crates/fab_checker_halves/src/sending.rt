//! What a peer transmits: what a fence holds back, what goes out, and which operation ends.
ghost use Rattle.std.specs.Prelude.{◌≡◌, length, OnOk, IfOk, IfNone, find, position, nat_le, true, false, [], ◌&&◌};
ghost use Rattle.std.specs.Option.{option_map};
ghost use Rattle.fab_model.specs.State.{accepted_for, held_for, in_use, awaits};
ghost use Rattle.fab_model.specs.Matching.{remove_first};
ghost use Rattle.fab_model.specs.Sending.{is_busy, let_out, letting_out, going_on, accepting, ends_at_sent, is_of_item, ending, transmitting, expects, is_answered_by, answering, going_out, holding};
ghost use Rattle.fab_checker_halves.specs.Seen.{tx_of};
ghost use Rattle.fab_checker_halves.specs.Letting.{SomeFirst};

use crate::halves::Transmitting;
use fab_base::{Ack, Held, ItemHead, List, NoMemory, Operation, Outcome};
use fab_checker_values::lists::{number_at, one_more, raise};
use std::alloc::Global;
use std::mem::replace;

/// Whether the operation is a message that completes when it is transmitted.
fn ends_at_sent(operation: &Operation) -> bool
    ensures { result ≡ ends_at_sent operation.now }
{
    let asks_for_none = match operation.head.ack {
        Ack::Nothing => true,
        Ack::Delivery | Ack::Match => false,
    };
    operation.head.kind.is_message() && asks_for_none
}

/// Whether the operation ends when the item of this place for this peer is transmitted.
fn is_of_item(operation: &Operation, to: u32, place: u64) -> bool
    ensures { result ≡ is_of_item to place operation.now }
{
    operation.dest == to && operation.place == place && ends_at_sent(operation)
}

/// Whether the operation expects a reply of this length with this outcome.
#[tactic(auto, unfolding(fab_model::specs::Sending::expects))]
fn expects(operation: &Operation, outcome: Outcome, len: u32) -> bool
    ensures { result ≡ expects operation.now outcome len }
{
    match outcome {
        Outcome::Done => {
            let expected = if operation.head.is_answered() {
                operation.head.count
            } else {
                0
            };
            len == expected
        }
        Outcome::BadKey | Outcome::BadAccess | Outcome::BadRange => {
            !operation.head.kind.is_message() && len == 0
        }
    }
}

impl Transmitting {
    /// How many items were accepted for this peer.
    pub fn accepted_len(&self, to: u32) -> u64
        ensures { result ≡ length (accepted_for (tx_of self.now) to) }
    {
        match self.accepted.get(to as usize) {
            Some(items) => items.as_slice().len() as u64,
            None => 0,
        }
    }

    /// Whether the operation's item is transmitted.
    pub fn awaits(&self, operation: &Operation) -> bool
        ensures { result ≡ awaits (tx_of self.now) operation.now }
    {
        operation.place < number_at(self.sent.as_slice(), operation.dest as usize)
    }

    /// Whether as many operations have not ended as there may be.
    pub fn is_full(&self, most: u32) -> bool
        ensures { result ≡ nat_le most (in_use (tx_of self.now)) }
    {
        let mut left = (most as usize).saturating_sub(self.live.len());
        for held in self.held.iter() {
            left = left.saturating_sub(held.as_slice().len());
        }
        left == 0
    }

    /// Whether some operation for the peer is live.
    fn is_busy(&self, to: u32) -> bool
        ensures { result ≡ is_busy (tx_of self.now) to }
    {
        self.live.iter().any(|o| o.dest == to)
    }

    /// The operation goes out: its item joins those accepted for the peer, and it is live.
    fn go_out(&mut self, to: u32, operation: Held) -> Result<(), NoMemory>
        ensures { OnOk result (tx_of self.new ≡ going_out to operation (tx_of self.old)) }
    {
        let place = self.accepted_len(to);
        let Held {
            call,
            item,
            level,
            ctx,
            buf,
            silent,
            ..
        } = operation;
        self.live.push(Operation {
            call,
            dest: to,
            place,
            head: item.head,
            level,
            ctx,
            buf,
            silent,
        })?;
        self.join(to, item)
    }

    /// These operations are held for the peer.
    fn hold(&mut self, to: u32, held: Vec<Held>)
        ensures { tx_of self.new ≡ holding to held.items (tx_of self.old) }
    {
        if (to as usize) < self.held.len() {
            self.held[to as usize] = List::from_vec(held);
        }
    }

    /// Whether the first of these operations for the peer goes out, if there is one.
    fn first_goes(&self, to: u32, held: &[Held]) -> bool
        ensures goes { result ≡ true → SomeFirst held.now (λ first. (is_busy (tx_of self.now) to && first.fence) ≡ false) }
        ensures none { result ≡ false → let_out (is_busy (tx_of self.now) to) held.now ≡ [] }
    {
        match held.first() {
            Some(first) => !(first.fence && self.is_busy(to)),
            None => false,
        }
    }

    /// Of these operations for the peer those go out that no fence holds back, one after another. The others are held.
    fn let_out(&mut self, to: u32, held: Vec<Held>) -> Result<(), NoMemory>
        ensures { OnOk result (tx_of self.new ≡ letting_out to held.items (tx_of self.old)) }
    {
        // No script gets here with another number than a peer's.
        if to as usize >= self.accepted.len() {
            return Err(NoMemory);
        }
        let mut held = held;
        while self.first_goes(to, held.as_slice()) {
            let first = held.remove(0);
            self.go_out(to, first)?;
        }
        self.hold(to, held);
        Ok(())
    }

    /// Takes what is held for the peer.
    fn take_held(&mut self, alloc: Global, to: u32) -> Vec<Held>
        ensures held { result.items ≡ held_for (tx_of self.old) to }
        ensures rest { tx_of self.new ≡ holding to [] (tx_of self.old) }
    {
        if (to as usize) < self.held.len() {
            replace(&mut self.held[to as usize], List::empty(alloc)).into_vec()
        } else {
            Vec::new(alloc)
        }
    }

    /// Those held for the peer go out as far as no fence holds them back any more.
    pub fn go_on(&mut self, alloc: Global, to: u32) -> Result<(), NoMemory>
        ensures { OnOk result (tx_of self.new ≡ going_on to (tx_of self.old)) }
    {
        let held = self.take_held(alloc, to);
        self.let_out(to, held)
    }

    /// The operation stands behind those held for the peer, or goes out at once.
    #[tactic(auto, unfolding(fab_model::specs::Sending::accepting))]
    pub fn accept(&mut self, alloc: Global, to: u32, operation: Held) -> Result<(), NoMemory>
        ensures { OnOk result (tx_of self.new ≡ accepting to operation (tx_of self.old)) }
    {
        self.ops = one_more(self.ops)?;
        let mut held = self.take_held(alloc, to);
        held.push(operation)?;
        self.let_out(to, held)
    }

    /// The operation that ends when the next item for the peer is transmitted.
    pub fn ending(&self, to: u32) -> Option<&Operation>
        ensures { option_map (λ o. o.now) result ≡ ending to (tx_of self.now) }
    {
        let place = number_at(self.sent.as_slice(), to as usize);
        self.live.iter().find(|o| is_of_item(o, to, place))
    }

    /// One more item for the peer is transmitted. The operation that ends then is handed out.
    #[tactic(auto, unfolding(fab_model::specs::Sending::transmitting))]
    pub fn transmit(&mut self, to: u32) -> Result<Option<Operation>, NoMemory>
        ensures ended { IfOk result (λ o. o ≡ ending to (tx_of self.old)) }
        ensures sent { OnOk result (tx_of self.new ≡ transmitting to (tx_of self.old)) }
    {
        let place = number_at(self.sent.as_slice(), to as usize);
        raise(&mut self.sent, to as usize)?;
        Ok(take_ended(&mut self.live, to, place))
    }

    /// Whether the reply of this peer answers the operation.
    fn is_answered_by(&self, source: u32, reply: &ItemHead, operation: &Operation) -> bool
        ensures { result ≡ is_answered_by (tx_of self.now) source reply.now operation.now }
    {
        operation.dest == source
            && operation.head.op == reply.op
            && self.awaits(operation)
            && expects(operation, reply.outcome, reply.total)
    }

    /// Where the first operation stands that the reply answers.
    fn place_of_answered(&self, source: u32, reply: &ItemHead) -> Option<usize>
        ensures { result ≡ position (is_answered_by (tx_of self.now) source reply.now) self.now.live.items }
    {
        self.live
            .iter()
            .position(|o| self.is_answered_by(source, reply, o))
    }

    /// The operation that the reply answers.
    pub fn answered(&self, source: u32, reply: &ItemHead) -> Option<&Operation>
        ensures { option_map (λ o. o.now) result ≡ find (is_answered_by (tx_of self.now) source reply.now) self.now.live.items }
    {
        self.live
            .iter()
            .find(|o| self.is_answered_by(source, reply, o))
    }

    /// Takes out the operation that the reply answers.
    #[tactic(auto, unfolding(fab_model::specs::Sending::answering))]
    pub fn take_answered(&mut self, source: u32, reply: &ItemHead) -> Option<Operation>
        ensures found { result ≡ find (is_answered_by (tx_of self.old) source reply.now) self.old.live.items }
        ensures rest { tx_of self.new ≡ answering source reply.now (tx_of self.old) }
        ensures none { IfNone result (tx_of self.new ≡ tx_of self.old) }
    {
        let Some(at) = self.place_of_answered(source, reply) else {
            return None;
        };
        Some(self.live.remove(at))
    }
}

/// Where the first operation stands that ends with the item of this place for this peer.
fn place_of_ended(live: &[Operation], to: u32, place: u64) -> Option<usize>
    ensures { result ≡ position (is_of_item to place) live.now }
{
    live.iter().position(|o| is_of_item(o, to, place))
}

/// Takes the first operation that ends with the item of this place for this peer.
fn take_ended(live: &mut Vec<Operation>, to: u32, place: u64) -> Option<Operation>
    ensures found { result ≡ find (is_of_item to place) live.old.items }
    ensures rest { live.new.items ≡ remove_first (is_of_item to place) live.old.items }
{
    let Some(at) = place_of_ended(live.as_slice(), to, place) else {
        return None;
    };
    Some(live.remove(at))
}
