//! Operations end: they count, and their completion is written unless it is silent and a success.
ghost use Rattle.std.specs.Prelude.{◌≡◌, IsTrue, is_none, is_some, true, false, None, Some, unwrap_or, []};
ghost use Rattle.fab_base.specs.declared.entries.Taken.TheVariants.{Failure};
ghost use Rattle.fab_model.specs.Complete.{error};
ghost use Rattle.fab_model.specs.State.{counting};
ghost use Rattle.fab_model.specs.Sending.{class_of, success_of};
ghost use Rattle.fab_base.specs.Kinds.{is_answered, refusal_of};
ghost use Rattle.fab_cq.specs.Queues.{has_room};
ghost use Rattle.fab_tx.specs.Transit.{answered_by, finds_answered};
ghost use Rattle.fab_settling.specs.Ends.{answer_writes, as_operation, counters_after, cq_after, entry_at_end, writes_end, written_if};

use crate::calls::EndsWhenAnswered;
use fab_base::{Buf, Class, Entry, ErrEntry, ErrKind, Item, ItemHead, Kind, Outcome, Taken};
use fab_cq::{Counters, Queue};
use fab_record::caller::Caller;
use fab_tx::{Ended, Outbox};
use std::alloc::Global;
use std::snapshot::Snapshot;

/// What an operation counts as (fi_cntr(3)).
fn class_of(head: &ItemHead) -> Class
    ensures { result ≡ class_of head.now }
{
    match head.kind {
        Kind::Msg | Kind::TagMsg => Class::Send,
        _ => {
            if head.is_answered() {
                Class::Read
            } else {
                Class::Write
            }
        }
    }
}

/// The buffer that comes back, an empty one where there was none.
fn buf_or_empty(alloc: Global, buf: Option<Buf>) -> Buf
    ensures { result ≡ unwrap_or buf [] }
{
    match buf {
        Some(buf) => buf,
        None => Buf::empty(alloc),
    }
}

/// The completion of a success: the buffer of the operation, or the bytes of its reply.
#[tactic(auto, unfolding(fab_model::specs::Sending::success_of))]
fn success_of(alloc: Global, ended: Ended, bytes: Buf) -> Entry
    ensures { result ≡ success_of (as_operation ended) bytes }
{
    let Ended { head, ctx, buf, .. } = ended;
    let ctx = ctx.unwrap_or(0);
    let buf = buf_or_empty(alloc, buf);
    match head.kind {
        Kind::ReadReq => Entry::Read { ctx, buf: bytes },
        Kind::WriteReq => Entry::Wrote { ctx, buf },
        Kind::AtomicReq => {
            if head.is_answered() {
                Entry::Fetched { ctx, result: bytes }
            } else {
                Entry::Updated { ctx }
            }
        }
        Kind::TagMsg => Entry::Sent {
            ctx,
            tagged: true,
            buf,
        },
        Kind::Msg | Kind::Reply => Entry::Sent {
            ctx,
            tagged: false,
            buf,
        },
    }
}

/// The error of an operation of which nothing more is told.
fn error_of(kind: ErrKind, ended: Ended) -> ErrEntry
    ensures { Failure result ≡ error ended.ctx kind ended.buf }
{
    ErrEntry {
        ctx: ended.ctx,
        kind,
        source: None,
        tag: None,
        imm: None,
        at: None,
        len: 0,
        olen: 0,
        buf: ended.buf,
    }
}

/// The completion of an operation that ended, if one is written.
fn entry_at_end(alloc: Global, outcome: Outcome, bytes: Buf, ended: Ended) -> Option<Taken>
    ensures { result ≡ entry_at_end outcome bytes ended }
{
    match outcome.refusal() {
        Some(kind) => Some(Taken::Failure(error_of(kind, ended))),
        None => {
            if ended.silent {
                None
            } else {
                Some(Taken::Success(success_of(alloc, ended, bytes)))
            }
        }
    }
}

/// Whether the end of an operation with this outcome writes a completion.
pub fn writes_at_end(outcome: Outcome, silent: bool) -> bool
    ensures { result ≡ writes_end outcome silent }
{
    !silent || outcome.refusal().is_some()
}

/// An operation ends with this outcome and these bytes of its reply. `C` names its call.
pub fn end<X, C: Caller<X>>(
    alloc: Global,
    cq: &mut Queue,
    counters: &mut Counters,
    about: &X,
    outcome: Outcome,
    bytes: Buf,
    ended: Ended,
)
    requires room { writes_end outcome ended.silent ≡ true → IsTrue (has_room 1 cq.old) }
    ensures cq { cq.new ≡ written_if (C.call about.now) (entry_at_end outcome bytes ended) cq.old }
    ensures counters { counters.new ≡ counting (class_of ended.head) (is_none (refusal_of outcome)) counters.old }
{
    counters.count(class_of(&ended.head), outcome.refusal().is_none());
    if let Some(entry) = entry_at_end(alloc, outcome, bytes, ended) {
        cq.write::<X, C>(about, entry);
    }
}

/// Whether the end of the operation that this reply answers writes a completion.
pub fn answer_writes(tx: &Outbox, source: u32, reply: &ItemHead) -> bool
    ensures { result ≡ answer_writes source reply.now tx.now.tx }
{
    match tx.answered(source, reply) {
        None => false,
        Some(silent) => writes_at_end(reply.outcome, silent),
    }
}

/// A reply is whole: the operation that it answers ends.
pub fn answer(
    alloc: Global,
    tx: &mut Outbox,
    cq: &mut Queue,
    counters: &mut Counters,
    source: u32,
    item: Item,
)
    requires room { answer_writes source item.head tx.old.tx ≡ true → IsTrue (has_room 1 cq.old) }
    ensures tx { tx.new ≡ answered_by source item.head tx.old }
    ensures cq { cq.new ≡ cq_after item.head.outcome item.bytes (finds_answered source item.head tx.old.tx) cq.old }
    ensures counters { counters.new ≡ counters_after item.head.outcome (finds_answered source item.head tx.old.tx) counters.old }
{
    let Item { head, bytes } = item;
    let about = (Snapshot::of(tx), source, head);
    if let Some(ended) = tx.answer(source, &head) {
        end::<(Snapshot<Outbox>, u32, ItemHead), EndsWhenAnswered>(
            alloc,
            cq,
            counters,
            &about,
            head.outcome,
            bytes,
            ended,
        );
    }
}
