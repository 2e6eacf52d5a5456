//! Operations of each kind, from their acceptance to their end, with a reply among them.
ghost use Rattle.std.specs.Prelude.{◌≡◌, ◌<◌, ◌^◌, None, IsTrue, length};
ghost use Rattle.fab_model.specs.State.{in_use};
ghost use Rattle.fab_base.specs.declared.items.Ack.TheVariants.{Nothing};
ghost use Rattle.fab_base.specs.declared.items.Kind.TheVariants.{Reply};
ghost use Rattle.fab_base.specs.declared.items.Outcome.TheVariants.{Done};

use fab_base::{Ack, Buf, Item, ItemHead, Kind, Level, Outcome};
use fab_record::caller::Caller;
use fab_tx::{Ended, Outbox};
use std::alloc::Global;
use std::test::Fail;

/// Of no call.
struct NoCall;

impl Caller<()> for NoCall {
    ghost use Rattle.std.specs.Prelude.{None};

    ghost call = { λ _. None };
}

fn head_of(kind: Kind, op: u64, ack: Ack, count: u32, total: u32) -> ItemHead
    ensures { result ≡ record { kind = kind; op = op; tag = 0; imm = None; ack = ack; key = 0; at = 0; count = count; atom = None; outcome = Done; total = total } }
{
    ItemHead {
        kind,
        op,
        tag: 0,
        imm: None,
        ack,
        key: 0,
        at: 0,
        count,
        atom: None,
        outcome: Outcome::Done,
        total,
    }
}

fn may_accept(outbox: &Outbox, dest: u32) -> bool
    ensures { IsTrue result → (dest < length outbox.now.tx.sent) × (in_use outbox.now.tx < outbox.now.most) × (outbox.now.tx.ops < 2 ^ 62) }
{
    outbox.has_peer(dest) && !outbox.is_full() && outbox.may_count()
}

/// Whether a message of three bytes is accepted.
fn sends(alloc: Global, outbox: &mut Outbox, ctx: u64, ack: Ack) -> bool {
    if !may_accept(outbox, 0) {
        return false;
    }
    let Ok(buf) = Buf::copy(alloc, &[1, 2, 3]) else {
        return false;
    };
    let head = head_of(Kind::Msg, outbox.ops(), ack, 0, 3);
    outbox.accept_owned::<(), NoCall>(&(), 0, head, Level::Transmit, Some(ctx), buf, false, false);
    true
}

/// Whether an injected message of two bytes is accepted.
fn injects(outbox: &mut Outbox) -> bool {
    if !may_accept(outbox, 0) {
        return false;
    }
    let head = head_of(Kind::Msg, outbox.ops(), Ack::Nothing, 0, 2);
    outbox.accept_copied::<(), NoCall>(
        &(),
        0,
        head,
        Level::Inject,
        None,
        &[4, 5],
        &[],
        None,
        true,
        false,
    );
    true
}

/// Whether a read of two bytes is accepted.
fn reads(alloc: Global, outbox: &mut Outbox, ctx: u64) -> bool {
    if !may_accept(outbox, 0) {
        return false;
    }
    let Ok(buf) = Buf::zeros(alloc, 2) else {
        return false;
    };
    let head = head_of(Kind::ReadReq, outbox.ops(), Ack::Nothing, 2, 0);
    outbox.accept_copied::<(), NoCall>(
        &(),
        0,
        head,
        Level::Delivery,
        Some(ctx),
        &[],
        &[],
        Some(buf),
        false,
        false,
    );
    true
}

/// Whether the item that is next for peer 0 has these bytes.
fn goes_next(outbox: &Outbox, bytes: &[u8]) -> bool {
    if !outbox.has_peer(0) {
        return false;
    }
    match outbox.next(0) {
        Some(next) => next.bytes == bytes,
        None => false,
    }
}

/// Sends the next item for peer 0, where there is one.
fn send_next(outbox: &mut Outbox) -> Option<Ended> {
    if !outbox.has_peer(0) || outbox.next(0).is_none() {
        return None;
    }
    outbox.finish(0)
}

/// Whether the operation of this context ended.
fn is_of(ended: Option<Ended>, ctx: u64) -> bool {
    match ended {
        Some(ended) => ended.ctx == Some(ctx),
        None => false,
    }
}

/// Whether it did, and its buffer comes back with these bytes.
fn is_of_with(ended: Option<Ended>, ctx: u64, bytes: &[u8]) -> bool {
    match ended {
        Some(ended) => ended.ctx == Some(ctx) && has_bytes(&ended.buf, bytes),
        None => false,
    }
}

fn has_bytes(buf: &Option<Buf>, bytes: &[u8]) -> bool {
    match buf {
        Some(buf) => buf.as_slice() == bytes,
        None => false,
    }
}

/// Whether an operation ended that writes no entry and has no buffer.
fn is_silent(ended: Option<Ended>) -> bool {
    match ended {
        Some(ended) => ended.silent && ended.buf.is_none(),
        None => false,
    }
}

/// Whether sending the next item for peer 0 ends no operation.
fn ends_none(outbox: &mut Outbox) -> bool {
    send_next(outbox).is_none()
}

/// Whether so many operations are under way, of which so many await a reply.
fn counts(outbox: &Outbox, in_use: u32, awaiting: u32) -> bool {
    outbox.in_use() == in_use && outbox.awaiting() == awaiting
}

/// Whether there are peers 0 and 1 alone.
fn has_two_peers(outbox: &Outbox) -> bool {
    outbox.known();
    outbox.has_peer(1) && !outbox.has_peer(2)
}

/// Whether three operations were accepted, as many as may be under way.
fn is_full_of_three(outbox: &Outbox) -> bool {
    outbox.is_full() && outbox.ops() == 3 && outbox.in_use() == 3
}

/// Whether three operations are accepted, and no fourth one.
fn accepts_three(alloc: Global, outbox: &mut Outbox) -> bool {
    has_two_peers(outbox)
        && sends(alloc, outbox, 7, Ack::Nothing)
        && injects(outbox)
        && sends(alloc, outbox, 8, Ack::Nothing)
        && is_full_of_three(outbox)
        && !injects(outbox)
        && is_full_of_three(outbox)
}

/// Whether they go out in this order.
fn sends_three(outbox: &mut Outbox) -> bool {
    goes_next(outbox, &[1, 2, 3])
        && is_of_with(send_next(outbox), 7, &[1, 2, 3])
        && goes_next(outbox, &[4, 5])
        && is_silent(send_next(outbox))
        && is_of(send_next(outbox), 8)
        && ends_none(outbox)
        && counts(outbox, 0, 0)
}

fn goes_out_in_order(alloc: Global) -> bool {
    match Outbox::new(alloc, 2, 3) {
        Ok(mut outbox) => accepts_three(alloc, &mut outbox) && sends_three(&mut outbox),
        Err(_) => false,
    }
}

#[test]
fn items_go_out_in_the_order_accepted(rt: HostRuntime) -> Result<(), Fail> {
    assert!(rt; goes_out_in_order(rt.alloc()));
    Ok(())
}

/// The reply to the operation of this number, with so many bytes.
fn reply_to(op: u64, total: u32) -> ItemHead
    ensures { result ≡ record { kind = Reply; op = op; tag = 0; imm = None; ack = Nothing; key = 0; at = 0; count = 0; atom = None; outcome = Done; total = total } }
{
    head_of(Kind::Reply, op, Ack::Nothing, 0, total)
}

/// Whether the reply of a peer ends the operation of this context.
fn answers(outbox: &mut Outbox, op: u64, total: u32, ctx: u64) -> bool {
    is_of(outbox.answer(0, &reply_to(op, total)), ctx)
}

/// Whether the reply of a peer ends no operation.
fn answers_none(outbox: &mut Outbox, source: u32, op: u64, total: u32) -> bool {
    outbox.answer(source, &reply_to(op, total)).is_none()
}

/// Whether the reply of peer 0 would end an operation, and whether that one is silent.
fn answered(outbox: &Outbox, op: u64, total: u32) -> Option<bool> {
    outbox.answered(0, &reply_to(op, total))
}

/// Whether a read and a message that its target answers are sent, and await their replies.
fn awaits_two(alloc: Global, outbox: &mut Outbox) -> bool {
    reads(alloc, outbox, 7)
        && sends(alloc, outbox, 8, Ack::Delivery)
        && counts(outbox, 2, 0)
        && answered(outbox, 0, 2).is_none()
        && goes_next(outbox, &[])
        && ends_none(outbox)
        && ends_none(outbox)
        && counts(outbox, 2, 2)
}

/// Whether each ends with its own reply.
fn ends_two(outbox: &mut Outbox) -> bool {
    answers_none(outbox, 0, 0, 1)
        && answers_none(outbox, 1, 0, 2)
        && answered(outbox, 1, 0) == Some(false)
        && answers(outbox, 1, 0, 8)
        && answers(outbox, 0, 2, 7)
        && counts(outbox, 0, 0)
}

fn replies_are_awaited(alloc: Global) -> bool {
    match Outbox::new(alloc, 1, 3) {
        Ok(mut outbox) => awaits_two(alloc, &mut outbox) && ends_two(&mut outbox),
        Err(_) => false,
    }
}

#[test]
fn an_operation_that_is_answered_awaits_its_reply(rt: HostRuntime) -> Result<(), Fail> {
    assert!(rt; replies_are_awaited(rt.alloc()));
    Ok(())
}

/// Whether a reply of one byte to peer 0 is booked.
fn books(alloc: Global, outbox: &mut Outbox) -> bool {
    outbox.known();
    if !outbox.has_peer(0) || outbox.make_room(0).is_err() {
        return false;
    }
    let Ok(bytes) = Buf::copy(alloc, &[6]) else {
        return false;
    };
    let reply = Item {
        head: reply_to(0, 1),
        bytes,
    };
    outbox.book(0, reply);
    true
}

/// Posts one byte of the next item for peer 0, where there are more.
fn post_a_byte(outbox: &mut Outbox) -> Option<u32> {
    if !outbox.has_peer(0) {
        return None;
    }
    let total = outbox.next(0)?.head.total;
    if total > 1 {
        outbox.go_on(0, 1);
    }
    Some(outbox.place(0))
}

/// Whether sending the next item for peer 0 writes an entry.
fn writes(outbox: &Outbox) -> bool {
    outbox.has_peer(0) && outbox.writes(0)
}

/// Whether a reply is booked between two operations.
fn books_between(alloc: Global, outbox: &mut Outbox) -> bool {
    sends(alloc, outbox, 7, Ack::Nothing)
        && books(alloc, outbox)
        && injects(outbox)
        && counts(outbox, 2, 0)
}

/// Whether it goes out between them.
fn sends_between(outbox: &mut Outbox) -> bool {
    writes(outbox)
        && post_a_byte(outbox) == Some(1)
        && is_of(send_next(outbox), 7)
        && goes_next(outbox, &[6])
        && !writes(outbox)
        && post_a_byte(outbox) == Some(0)
        && ends_none(outbox)
        && counts(outbox, 1, 0)
        && goes_next(outbox, &[4, 5])
        && !writes(outbox)
}

fn goes_out_between(alloc: Global) -> bool {
    match Outbox::new(alloc, 1, 3) {
        Ok(mut outbox) => books_between(alloc, &mut outbox) && sends_between(&mut outbox),
        Err(_) => false,
    }
}

#[test]
fn a_reply_goes_out_behind_what_was_accepted(rt: HostRuntime) -> Result<(), Fail> {
    assert!(rt; goes_out_between(rt.alloc()));
    Ok(())
}

/// Whether a message of three bytes with a fence is accepted.
fn sends_fenced(alloc: Global, outbox: &mut Outbox, ctx: u64) -> bool {
    if !may_accept(outbox, 0) {
        return false;
    }
    let Ok(buf) = Buf::copy(alloc, &[7, 8, 9]) else {
        return false;
    };
    let head = head_of(Kind::Msg, outbox.ops(), Ack::Nothing, 0, 3);
    outbox.accept_owned::<(), NoCall>(&(), 0, head, Level::Transmit, Some(ctx), buf, false, true);
    true
}

/// Whether nothing is next for peer 0.
fn idles(outbox: &Outbox) -> bool {
    outbox.has_peer(0) && outbox.next(0).is_none()
}

/// Whether a message with a fence waits behind a read that awaits its reply, and one more behind it.
fn holds_two(alloc: Global, outbox: &mut Outbox) -> bool {
    reads(alloc, outbox, 7)
        && ends_none(outbox)
        && sends_fenced(alloc, outbox, 8)
        && injects(outbox)
        && idles(outbox)
        && counts(outbox, 3, 1)
        && outbox.deferred() == 2
        && outbox.is_full()
}

/// Whether a reply goes out in front of both, and both once the read has ended.
fn lets_two_out(alloc: Global, outbox: &mut Outbox) -> bool {
    books(alloc, outbox)
        && goes_next(outbox, &[6])
        && ends_none(outbox)
        && idles(outbox)
        && answers(outbox, 0, 2, 7)
        && goes_next(outbox, &[7, 8, 9])
        && is_of_with(send_next(outbox), 8, &[7, 8, 9])
        && goes_next(outbox, &[4, 5])
        && is_silent(send_next(outbox))
        && counts(outbox, 0, 0)
        && outbox.deferred() == 0
}

fn goes_out_behind_a_fence(alloc: Global) -> bool {
    match Outbox::new(alloc, 1, 3) {
        Ok(mut outbox) => holds_two(alloc, &mut outbox) && lets_two_out(alloc, &mut outbox),
        Err(_) => false,
    }
}

#[test]
fn a_fence_waits_for_what_is_live(rt: HostRuntime) -> Result<(), Fail> {
    assert!(rt; goes_out_behind_a_fence(rt.alloc()));
    Ok(())
}
