//! How many calls of an endpoint were accepted, and to which of them a completion belongs: contracts alone know.
ghost use Rattle.std.specs.Prelude.{◌≡◌, ◌+◌, None, Some};
ghost use Rattle.std.specs.Option.{option_map};
ghost use Rattle.fab_model.specs.Sending.{ending};
ghost use Rattle.fab_tx.specs.Transit.{finds_answered};

use fab_base::ItemHead;
use fab_record::caller::Caller;
use fab_record::record::{Begins, Change, Record};
use fab_tx::Outbox;
use std::marker::Model;
use std::snapshot::Snapshot;

/// How many transmit and receive calls were accepted. No value of it is made.
pub struct CallCount {
    unused: (),
}

impl Model for CallCount {
    ghost use Rattle.std.specs.Prelude.{ℕ};

    ghost Value = { ℕ };

    ghost view = { λ _. 0 };
}

/// No call was accepted.
pub struct NoCall;

impl Begins<(), CallCount> for NoCall {
    ghost first = { λ _. 0 };
}

/// One more call is accepted.
struct OneMore;

impl Change<(), CallCount> for OneMore {
    ghost after = { λ _ n. n + 1 };
}

/// The number of calls, which nothing stores.
pub type CallRecord = Record<(), CallCount, NoCall>;

/// One more call is accepted. It costs nothing that can fail.
pub fn call(calls: &mut CallRecord)
    ensures { calls.new ≡ calls.old + 1 }
{
    calls.note::<(), OneMore>(&());
}

/// No call: what other peers do to a target.
pub struct OfNoCall;

impl Caller<()> for OfNoCall {
    ghost call = { λ _. None };
}

/// The call that is being made, after so many.
pub struct ThisCall;

impl Caller<Snapshot<CallRecord>> for ThisCall {
    ghost call = { λ x. Some x.value };
}

/// The call of the operation that ends when the next item for this peer is transmitted.
pub struct EndsWhenSent;

impl Caller<(Snapshot<Outbox>, u32)> for EndsWhenSent {
    ghost call = { λ x. option_map (λ o. o.call) (ending x.1 x.0.value.tx) };
}

/// The call of the operation that this reply of this peer ends.
pub struct EndsWhenAnswered;

impl Caller<(Snapshot<Outbox>, u32, ItemHead)> for EndsWhenAnswered {
    ghost call = { λ x. option_map (λ o. o.call) (finds_answered x.1 x.2 x.0.value.tx) };
}
