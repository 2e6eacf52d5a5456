//! A request is whole: its target performs it (fi_rma(3), fi_atomic(3)).
ghost use Rattle.std.specs.Prelude.{◌≡◌, ◌<◌, ◌≤◌, ◌^◌, true, IsTrue, None, length, slice_index};
ghost use Rattle.fab_model.specs.Arrivals.{remote_class};
ghost use Rattle.fab_model.specs.Complete.{reply_head};
ghost use Rattle.fab_link.specs.Frames.{IsSound};
ghost use Rattle.fab_model.specs.Target.{perform};
ghost use Rattle.fab_cq.specs.Queues.{has_room};
ghost use Rattle.fab_rma.specs.Serving.{is_request, outcome_at, room_for};
ghost use Rattle.fab_tx.specs.Transit.{booking};
ghost use Rattle.fab_settling.specs.Ends.{written_if};
ghost use Rattle.fab_settling.specs.Served.{counted, data_of, reply_of, served, writes_data};

use crate::calls::OfNoCall;
use fab_base::{Ack, Class, Entry, Item, ItemHead, Kind, Outcome, Taken};
use fab_cq::{Counters, Queue};
use fab_rma::{Reply, Target};
use fab_tx::Outbox;

/// Whether the item asks its target for something.
pub fn is_request(kind: Kind) -> bool
    ensures { result ≡ is_request kind }
{
    match kind {
        Kind::WriteReq | Kind::ReadReq | Kind::AtomicReq => true,
        Kind::Msg | Kind::TagMsg | Kind::Reply => false,
    }
}

/// Whether the target is told of a request with this outcome: of a write with remote data that was done.
pub fn writes_data(outcome: Outcome, head: &ItemHead) -> bool
    ensures { result ≡ writes_data outcome head.now }
{
    match outcome {
        Outcome::Done => head.kind == Kind::WriteReq && head.imm.is_some(),
        _ => false,
    }
}

/// The completion by which it is told (FI_REMOTE_CQ_DATA of fi_cq(3)).
fn data_of(outcome: Outcome, source: u32, head: &ItemHead) -> Option<Taken>
    ensures { result ≡ data_of outcome source head.now }
{
    if !writes_data(outcome, head) {
        return None;
    }
    match head.imm {
        None => None,
        Some(imm) => Some(Taken::Success(Entry::RemoteData { source, imm })),
    }
}

/// What a request counts as at its target (fi_cntr(3)).
fn remote_class(head: &ItemHead) -> Class
    ensures { result ≡ remote_class head.now }
{
    if head.is_answered() {
        Class::RemoteRead
    } else {
        Class::RemoteWrite
    }
}

/// Counts a request with this outcome, where it was done and such `events` count (FI_RMA_EVENT).
fn count(counters: &mut Counters, outcome: Outcome, events: bool, head: &ItemHead)
    ensures { counters.new ≡ counted outcome events head.now counters.old }
{
    match outcome {
        Outcome::Done => {
            if events {
                counters.count(remote_class(head), true);
            }
        }
        Outcome::BadKey | Outcome::BadAccess | Outcome::BadRange => {}
    }
}

/// The reply to a request.
fn reply_of(head: &ItemHead, done: Reply) -> Item
    requires few { length done.bytes < 2 ^ 32 }
    ensures { result ≡ record { head = reply_head head.now.op done.outcome (length done.bytes); bytes = done.bytes } }
{
    let Reply { outcome, bytes } = done;
    Item {
        head: ItemHead {
            kind: Kind::Reply,
            op: head.op,
            tag: 0,
            imm: None,
            ack: Ack::Nothing,
            key: 0,
            at: 0,
            count: 0,
            atom: None,
            outcome,
            total: bytes.as_slice().len() as u32,
        },
        bytes,
    }
}

/// A request is performed, its reply is booked in room that was made for it, it counts where such `events` do, and a
/// write with remote data tells of itself.
pub fn serve(
    tx: &mut Outbox,
    cq: &mut Queue,
    counters: &mut Counters,
    target: &mut Target,
    events: bool,
    source: u32,
    item: Item,
)
    requires peer { source < length tx.old.tx.sent }
    requires room { 0 < slice_index tx.old.rooms source }
    requires source { source < length target.old.rooms }
    requires request { is_request item.head.kind ≡ true }
    requires sound { IsSound item.head }
    requires whole { length item.bytes ≡ item.head.total }
    requires handed { room_for item.head ≤ slice_index target.old.rooms source }
    requires told { writes_data (outcome_at target.old.regions item.head) item.head ≡ true → IsTrue (has_room 1 cq.old) }
    ensures tx { tx.new ≡ booking source (reply_of item.head (perform target.old.regions item.head item.bytes)) tx.old }
    ensures cq { cq.new ≡ written_if None (data_of (outcome_at target.old.regions item.head) source item.head) cq.old }
    ensures counters { counters.new ≡ counted (outcome_at target.old.regions item.head) events item.head counters.old }
    ensures target { target.new ≡ served source item target.old }
{
    let Item { head, bytes } = item;
    let done = target.perform(source, &head, bytes.as_slice());
    count(counters, done.outcome, events, &head);
    if let Some(entry) = data_of(done.outcome, source, &head) {
        cq.write::<(), OfNoCall>(&(), entry);
    }
    tx.book(source, reply_of(&head, done));
}
