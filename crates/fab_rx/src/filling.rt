//! Bytes of items, as they come: into a receive's buffer or one of their own.
ghost use Rattle.std.specs.Prelude.{◌≡◌, ◌+◌, ◌<◌, ◌≤◌, ◌++◌, ℕ, List, Option, None, Some, IsSomeAnd, length, slice_index_or, slice_set, vec_len, vec_capacity};
ghost use Rattle.fab_base.specs.declared.items.Item.{Item};
ghost use Rattle.fab_base.specs.declared.operations.Receive.{Receive};
ghost use Rattle.fab_base.specs.declared.operations.Coming.{Coming};
ghost use Rattle.fab_model.specs.Complete.{paste, tag_of};
ghost use Rattle.fab_rx.specs.declared.stored.Parcel.{Parcel};
ghost use Rattle.fab_rx.specs.Table.{Cells};
ghost use Rattle.fab_rx.specs.Arriving.{IsSingle, lengthened};
ghost use Rattle.fab_rx.specs.Results.{completed};
ghost use Rattle.fab_rx.specs.Stored.{GoesBy, HasRoomFor, IsKeptWay, WayHasRoomFor, gone_on, moved, redirected, seat_with, thrown_on};
ghost use Rattle.fab_rx.specs.declared.stored.Waiting.{Waiting};
ghost use Rattle.fab_rx.specs.Homes.{GoesHomeBy, IsMore, is_part_of};

use crate::results::Completed;
use crate::stored::{Begun, Seat, Way};
use fab_base::{Buf, Entry, ErrEntry, ErrKind, ItemHead, Kind, Taken};

/// These bytes come into the buffer from the place `at` on, as many as fit.
fn place(buf: &mut Buf, at: usize, bytes: &[u8])
    ensures { buf.new ≡ paste buf.old at bytes.now }
{
    let room = buf.as_slice().len().saturating_sub(at);
    let fit = bytes.len().min(room);
    if fit > 0 {
        buf.write_at(at, &bytes[..fit]);
    }
}

/// The buffer with these bytes in it from the place `at` on, as many as fit.
pub fn placed(buf: Buf, at: usize, bytes: &[u8]) -> Buf
    ensures { result ≡ paste buf at bytes.now }
{
    let mut buf = buf;
    place(&mut buf, at, bytes);
    buf
}

/// Appends bytes for which there is room.
pub fn append(gathered: &mut Vec<u8>, bytes: &[u8])
    requires { vec_len gathered.old + length bytes.now ≤ vec_capacity gathered.old }
    ensures items { gathered.new.items ≡ gathered.old.items ++ bytes.now }
    ensures capacity { vec_capacity gathered.old ≤ vec_capacity gathered.new }
{
    let _ = gathered.extend_from_slice(bytes);
}

/// The tag of a tagged message.
pub fn tag_of(head: &ItemHead) -> Option<u64>
    ensures { result ≡ tag_of head.now }
{
    if head.kind == Kind::TagMsg {
        Some(head.tag)
    } else {
        None
    }
}

/// The completion of a receive whose message is whole: a success, or `Truncated` where the message is
/// longer than the buffer (fi_cq(3)).
pub fn complete(seat: Seat, source: u32, head: &ItemHead) -> Completed
    ensures { (r : Receive) (bytes : List ℕ) → IsSingle r → seat ≡ seat_with r bytes → result ≡ completed r 0 source head.now bytes }
{
    let Seat { buf, ctx } = seat;
    let space = buf.as_slice().len();
    let tag = tag_of(head);
    if head.total as usize <= space {
        return Completed {
            entry: Taken::Success(Entry::Received {
                ctx,
                source,
                tag,
                imm: head.imm,
                len: head.total,
                buf,
            }),
            good: true,
            source,
            head: *head,
        };
    }
    let len = space as u32;
    Completed {
        entry: Taken::Failure(ErrEntry {
            ctx: Some(ctx),
            kind: ErrKind::Truncated,
            source: Some(source),
            tag,
            imm: head.imm,
            at: None,
            len,
            olen: head.total - len,
            buf: Some(buf),
        }),
        good: false,
        source,
        head: *head,
    }
}

/// More bytes come on the way of an item, of which `got` came before.
fn go_on(way: &mut Way, got: u32, bytes: &[u8])
    requires { WayHasRoomFor (length bytes.now) way.old }
    ensures coming { (parcels : Cells Parcel) (source : ℕ) (c : Coming) (item : Item) → length item.bytes ≡ got → GoesBy parcels source way.old c item → GoesBy parcels source way.new c (lengthened bytes.now item) }
    ensures id { (id : ℕ) → IsKeptWay id way.old → IsKeptWay id way.new }
    ensures home { (homes : ℕ → Option ℕ) (calls : ℕ → ℕ) (seats : Cells Waiting) (c : Option Coming) → GoesHomeBy homes calls seats way.old c → GoesHomeBy homes calls seats way.new c }
    ensures part { (id : ℕ) → is_part_of id way.new ≡ is_part_of id way.old }
{
    match way {
        Way::Into(seat) => place(&mut seat.buf, got as usize, bytes),
        Way::Part {
            bytes: gathered,
            ..
        } => append(gathered, bytes),
        Way::Keep {
            bytes: gathered,
            ..
        } => append(gathered, bytes),
        Way::Throw => {}
        Way::Gather(gathered) => append(gathered, bytes),
    }
}

/// More bytes come of an item. There is room for them.
fn grow(begun: &mut Begun, bytes: &[u8])
    requires { HasRoomFor (length bytes.now) begun.old }
    ensures { IsMore bytes.now begun.old begun.new }
{
    // No more than its head says, which has 32 bits.
    let _total = begun.head.total;
    go_on(&mut begun.way, begun.got, bytes);
    begun.got += bytes.len() as u32;
}

/// More bytes come of what is under way of a source. There is room for them.
pub fn fill(coming: &mut Vec<Option<Begun>>, source: u32, bytes: &[u8])
    requires source { source < vec_len coming.old }
    requires room { IsSomeAnd (slice_index_or coming.old.items source None) (HasRoomFor (length bytes.now)) }
    ensures { IsSomeAnd (slice_index_or coming.old.items source None) (λ b. (new : Begun) × (coming.new.items ≡ slice_set coming.old.items source (Some new)) × IsMore bytes.now b new) }
{
    let Some(begun) = &mut coming[source as usize] else {
        unreachable!()
    };
    grow(begun, bytes);
}

/// The buffer with the bytes that were gathered for a message.
fn moved_into(way: Way, buf: Buf) -> Buf
    ensures { result ≡ moved way buf }
{
    match way {
        Way::Keep { bytes, .. } => placed(buf, 0, bytes.as_slice()),
        Way::Into(_) | Way::Part { .. } | Way::Throw | Way::Gather(_) => buf,
    }
}

/// A message that was kept and is not whole goes on into a receive.
pub fn redirected(begun: Begun, buf: Buf, ctx: u64) -> Begun
    ensures { result ≡ redirected buf ctx begun }
{
    let Begun { head, got, way } = begun;
    let buf = moved_into(way, buf);
    Begun {
        head,
        got,
        way: Way::Into(Seat { buf, ctx }),
    }
}

/// A message that was kept and is not whole goes nowhere.
pub fn thrown(begun: Begun) -> Begun
    ensures { result ≡ thrown_on begun }
{
    let Begun { head, got, .. } = begun;
    Begun {
        head,
        got,
        way: Way::Throw,
    }
}

/// A message that was kept and is not whole goes on to a place of the multi-receive under an id.
pub fn gone_on(begun: Begun, id: u32, at: u32) -> Begun
    ensures { result ≡ gone_on id at begun }
{
    let Begun { head, got, way } = begun;
    let way = match way {
        Way::Keep { bytes, .. } => Way::Part { id, at, bytes },
        other => other,
    };
    Begun { head, got, way }
}

/// Takes out what is under way of a source.
pub fn take_begun(coming: &mut Vec<Option<Begun>>, source: u32) -> Option<Begun>
    requires { source < vec_len coming.old }
    ensures value { result ≡ slice_index_or coming.old.items source None }
    ensures rest { coming.new.items ≡ slice_set coming.old.items source None }
{
    coming[source as usize].take()
}

/// Puts down what is under way of a source.
pub fn put_begun(coming: &mut Vec<Option<Begun>>, source: u32, begun: Begun)
    requires { source < vec_len coming.old }
    ensures { coming.new.items ≡ slice_set coming.old.items source (Some begun) }
{
    coming[source as usize] = Some(begun);
}
