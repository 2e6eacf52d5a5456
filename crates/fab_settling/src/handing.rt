//! What the receive half hands out is written, counted and booked.
ghost use Rattle.std.specs.Prelude.{◌≡◌, ◌<◌, true, length, slice_index, IsTrue};
ghost use Rattle.fab_base.specs.declared.entries.Class.TheVariants.{Recv};
ghost use Rattle.fab_base.specs.declared.entries.Entry.TheVariants.{Released as GivenBack};
ghost use Rattle.fab_base.specs.declared.entries.Taken.TheVariants.{Success};
ghost use Rattle.fab_model.specs.State.{counting, writing};
ghost use Rattle.fab_cq.specs.Queues.{has_room};
ghost use Rattle.fab_settling.specs.Ends.{booked, reply_to, unread_of};
ghost use Rattle.fab_settling.specs.Members.{let_go};

use crate::members::Multis;
use fab_base::{Ack, Buf, Class, Entry, Item, ItemHead, Kind, Outcome, Taken};
use fab_cq::{Counters, Queue};
use fab_record::caller::Caller;
use fab_rx::{Completed, Released};
use fab_tx::Outbox;
use std::alloc::Global;

/// The reply to an item: it was delivered, or taken.
fn reply_to(alloc: Global, head: &ItemHead) -> Item
    ensures { result ≡ reply_to head.now }
{
    Item {
        head: ItemHead {
            kind: Kind::Reply,
            op: head.op,
            tag: 0,
            imm: None,
            ack: Ack::Nothing,
            key: 0,
            at: 0,
            count: 0,
            atom: None,
            outcome: Outcome::Done,
            total: 0,
        },
        bytes: Buf::empty(alloc),
    }
}

/// Books a reply to an item of this peer where one is due, in room that was made for it.
pub fn book(alloc: Global, tx: &mut Outbox, due: bool, source: u32, head: &ItemHead)
    requires room { due ≡ true → (source < length tx.old.tx.sent) × (0 < slice_index tx.old.rooms source) }
    ensures { tx.new ≡ booked due source head.now tx.old }
{
    if due {
        tx.book(source, reply_to(alloc, head));
    }
}

/// A receive completes: it counts, and its entry is written under the call that `C` names. A reply is
/// booked where one is due.
pub fn hand_over<X, C: Caller<X>>(
    alloc: Global,
    cq: &mut Queue,
    counters: &mut Counters,
    tx: &mut Outbox,
    about: &X,
    due: bool,
    completed: Completed,
)
    requires written { IsTrue (has_room 1 cq.old) }
    requires room { due ≡ true → (completed.source < length tx.old.tx.sent) × (0 < slice_index tx.old.rooms completed.source) }
    ensures cq { cq.new ≡ writing (C.call about.now) completed.entry cq.old }
    ensures counters { counters.new ≡ counting Recv completed.good counters.old }
    ensures tx { tx.new ≡ booked due completed.source completed.head tx.old }
{
    let Completed {
        entry,
        good,
        source,
        head,
    } = completed;
    counters.count(Class::Recv, good);
    cq.write::<X, C>(about, entry);
    book(alloc, tx, due, source, &head);
}

/// The entry by which the buffer of a multi-receive comes back.
fn given_back(released: Released) -> Taken
    ensures { result ≡ Success (GivenBack released.ctx released.used released.buf) }
{
    let Released { ctx, used, buf, .. } = released;
    Taken::Success(Entry::Released { ctx, used, buf })
}

/// The same of the last message of a multi-receive, whose buffer comes back behind it.
pub fn hand_last<X, C: Caller<X>>(
    alloc: Global,
    cq: &mut Queue,
    counters: &mut Counters,
    tx: &mut Outbox,
    multis: &mut Multis,
    about: &X,
    due: bool,
    completed: Completed,
    released: Released,
)
    requires written { IsTrue (has_room 2 cq.old) }
    requires room { due ≡ true → (completed.source < length tx.old.tx.sent) × (0 < slice_index tx.old.rooms completed.source) }
    ensures cq { cq.new ≡ writing (C.call about.now) (Success (GivenBack released.ctx released.used released.buf)) (writing (C.call about.now) completed.entry cq.old) }
    ensures counters { counters.new ≡ counting Recv completed.good counters.old }
    ensures tx { tx.new ≡ booked due completed.source completed.head tx.old }
    ensures multis { multis.new ≡ let_go released.id (unread_of (writing (C.call about.now) completed.entry cq.old)) multis.old }
{
    let id = released.id;
    let entry = given_back(released);
    let Completed {
        entry: message,
        good,
        source,
        head,
    } = completed;
    counters.count(Class::Recv, good);
    cq.write::<X, C>(about, message);
    multis.let_go(id, cq.waiting());
    cq.write::<X, C>(about, entry);
    book(alloc, tx, due, source, &head);
}
