//! The completions of receives and operations (fi_cq(3)).
ghost use Rattle.std.specs.Prelude.{◌≡◌, ◌+◌, ◌-◌, [], length, IfOk, None, Some, unwrap_or};
ghost use Rattle.fab_model.specs.Complete.{paste, tag_of, error, has_space, received, truncated, entry_of};
ghost use Rattle.fab_model.specs.Sending.{success_of};

use crate::lists::narrowed;
use fab_base::{
    Buf, Entry, ErrEntry, ErrKind, ItemHead, Kind, NoMemory, Operation, Receive, Taken,
};
use std::alloc::Global;

/// Puts these bytes into the buffer from the place on, as many as fit.
#[tactic(auto, unfolding(fab_model::specs::Complete::paste))]
pub fn paste(buf: &mut Buf, place: u32, bytes: &[u8])
    ensures { buf.new ≡ paste buf.old place bytes.now }
{
    let len = buf.as_slice().len();
    let place = (place as usize).min(len);
    let placed = bytes.len().min(len - place);
    buf.write_at(place, &bytes[..placed]);
}

/// The tag that a completion tells: that of a tagged message.
fn tag_of(head: &ItemHead) -> Option<u64>
    ensures { result ≡ tag_of head.now }
{
    if head.kind.is_tagged() {
        Some(head.tag)
    } else {
        None
    }
}

/// An error of which nothing more is told.
pub fn plain_error(ctx: Option<u64>, kind: ErrKind, buf: Option<Buf>) -> Taken
    ensures { result ≡ error ctx kind buf }
{
    Taken::Failure(ErrEntry {
        ctx,
        kind,
        source: None,
        tag: None,
        imm: None,
        at: None,
        len: 0,
        olen: 0,
        buf,
    })
}

/// How many bytes of the receive are free from the place on.
fn free_from(receive: &Receive, place: u32) -> usize
    ensures { result ≡ length receive.now.buf - place }
{
    receive.buf.as_slice().len().saturating_sub(place as usize)
}

/// Whether the message has room in the receive from the place on.
pub fn has_space(receive: &Receive, place: u32, head: &ItemHead) -> bool
    ensures { result ≡ has_space receive.now place head.now }
{
    head.total as usize <= free_from(receive, place)
}

/// The success of a receive, whose message is whole in it from the place on.
#[tactic(auto, unfolding(fab_model::specs::Complete::received))]
fn received(receive: Receive, place: u32, source: u32, head: &ItemHead, bytes: &[u8]) -> Taken
    ensures { result ≡ received receive place source head.now bytes.now }
{
    let Receive {
        ctx,
        mut buf,
        least,
        ..
    } = receive;
    let imm = head.imm;
    let len = head.total;
    if least.is_some() {
        return Taken::Success(Entry::Part {
            ctx,
            source,
            imm,
            at: place,
            len,
        });
    }
    paste(&mut buf, place, bytes);
    Taken::Success(Entry::Received {
        ctx,
        source,
        tag: tag_of(head),
        imm,
        len,
        buf,
    })
}

/// The error of a receive in which the message has no room: `len` bytes are placed, `olen` cut off.
#[tactic(auto, unfolding(fab_model::specs::Complete::truncated))]
fn truncated(
    receive: Receive,
    free: u32,
    place: u32,
    source: u32,
    head: &ItemHead,
    bytes: &[u8],
) -> Taken
    ensures { result ≡ truncated receive free place source head.now bytes.now }
{
    let Receive {
        ctx,
        mut buf,
        least,
        ..
    } = receive;
    let (at, buf) = if least.is_some() {
        (Some(place), None)
    } else {
        paste(&mut buf, place, bytes);
        (None, Some(buf))
    };
    Taken::Failure(ErrEntry {
        ctx: Some(ctx),
        kind: ErrKind::Truncated,
        source: Some(source),
        tag: tag_of(head),
        imm: head.imm,
        at,
        len: free,
        olen: head.total.saturating_sub(free),
        buf,
    })
}

/// The completion of a receive for a whole message: a success, or an error where it has no room.
#[tactic(auto, unfolding(fab_model::specs::Complete::entry_of))]
pub fn entry_of(
    receive: Receive,
    place: u32,
    source: u32,
    head: &ItemHead,
    bytes: &[u8],
) -> Result<Taken, NoMemory>
    ensures { IfOk result (λ entry. entry ≡ entry_of receive place source head.now bytes.now) }
{
    if has_space(&receive, place, head) {
        return Ok(received(receive, place, source, head, bytes));
    }
    let free = narrowed(free_from(&receive, place))?;
    Ok(truncated(receive, free, place, source, head, bytes))
}

fn buf_or_none(alloc: Global, buf: Option<Buf>) -> Buf
    ensures { result ≡ unwrap_or buf [] }
{
    match buf {
        Some(buf) => buf,
        None => Buf::empty(alloc),
    }
}

/// The success of an operation whose reply has these bytes.
#[tactic(auto, unfolding(fab_model::specs::Sending::success_of))]
pub fn success_of(alloc: Global, operation: Operation, bytes: Buf) -> Entry
    ensures { result ≡ success_of operation bytes }
{
    let Operation { head, ctx, buf, .. } = operation;
    let ctx = ctx.unwrap_or(0);
    let buf = buf_or_none(alloc, buf);
    match head.kind {
        Kind::ReadReq => Entry::Read { ctx, buf: bytes },
        Kind::WriteReq => Entry::Wrote { ctx, buf },
        Kind::AtomicReq => {
            if head.is_answered() {
                Entry::Fetched { ctx, result: bytes }
            } else {
                Entry::Updated { ctx }
            }
        }
        Kind::Msg | Kind::TagMsg | Kind::Reply => {
            let tagged = head.kind.is_tagged();
            Entry::Sent { ctx, tagged, buf }
        }
    }
}
