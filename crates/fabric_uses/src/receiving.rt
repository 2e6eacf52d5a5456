//! Receives, and looks at what came.
//!
//! `receive_into`, `receive_next`, `receive_cut` and `cancelled` are for an endpoint on which every completion was read and no
//! buffer for many messages is posted (`IsCalm`): they read the next completion, which is then that of their own call.
ghost use Rattle.std.specs.Prelude.{◌≡◌, ℕ, List, length, Some, None, true, IfSome, IfNone, IsTrue};
ghost use Rattle.std.specs.Option.{option_map};
ghost use Rattle.fabric.specs.Answers.{receive_call};
ghost use Rattle.fabric.specs.Late.{ReceivesLate};
ghost use Rattle.fabric.specs.Words.{Entry as EntryValue, ErrEntry as ErrValue, Failure, Success};
ghost use Rattle.fabric_uses.specs.Uses.{Fills, HasBytesOf, HasLength, HasNoMulti, IsCalm, IsCut, IsCutBy, IsNext, IsReceived, posted, posted_after, posted_buf, untagged, waiting};

use crate::completing::{entry_now, error_now};
use fabric::{Buf, Calls, EndpointOver, Entry, ErrEntry, ErrKind, Probed};
use std::alloc::Global;

/// Posts a receive that overtakes none: it takes an unexpected message, or stands behind all that were posted before it,
/// where none of these is for many messages. A refused buffer comes back.
pub fn post_behind<E: Calls + Drop>(
    endpoint: &mut EndpointOver<E>,
    buf: Buf,
    ctx: u64,
) -> Option<Buf>
    ensures kept { IfSome result (λ back. back ≡ buf) }
    ensures behind { IfNone result (HasNoMulti (E.seen endpoint.old) → posted (E.seen endpoint.new) ≡ posted_after (untagged buf ctx) (E.seen endpoint.old)) }
{
    match endpoint.recv(None, buf, ctx) {
        Ok(()) => None,
        Err(refused) => Some(refused.buf),
    }
}

fn len_of(met: Option<Probed>) -> Option<u32>
    ensures { result ≡ option_map (λ message. message.len) met }
{
    match met {
        Some(message) => Some(message.len),
        None => None,
    }
}

/// How long the first message under the tag is that no receive took.
pub fn next_len<E: Calls + Drop>(endpoint: &EndpointOver<E>, tag: u64) -> Option<u32>
    ensures { IfSome result (λ len. HasLength (waiting tag (E.seen endpoint.now)) len) }
{
    match endpoint.probe(None, tag, 0) {
        Ok(met) => len_of(met),
        Err(_) => None,
    }
}

/// Whether a receive under the tag is accepted.
fn receives<E: Calls + Drop>(endpoint: &mut EndpointOver<E>, tag: u64, buf: Buf, ctx: u64) -> bool
    ensures { IsTrue result → ReceivesLate (receive_call true None tag 0 buf None ctx) (E.seen endpoint.old) (E.seen endpoint.new) }
{
    match endpoint.trecv(None, tag, 0, buf, ctx) {
        Ok(()) => true,
        Err(_) => false,
    }
}

fn received_by(entry: Entry) -> Option<Buf>
    ensures { IfSome result (λ buf. IsReceived entry buf) }
{
    match entry {
        Entry::Received { buf, .. } => Some(buf),
        _ => None,
    }
}

/// The buffer of the next completion that stands there, if it is that of a message.
fn received_now<E: Calls + Drop>(endpoint: &mut EndpointOver<E>) -> Option<Buf>
    ensures { HasNoMulti (E.seen endpoint.old) → IfSome result (λ buf. (entry : EntryValue) × IsNext (Success entry) (E.seen endpoint.old) × IsReceived entry buf) }
{
    match entry_now(endpoint) {
        Some(entry) => received_by(entry),
        None => None,
    }
}

/// Receives the first message under the tag that no receive took into this buffer, which comes back with its bytes where the
/// message has room in it and is whole.
pub fn receive_into<E: Calls + Drop>(
    endpoint: &mut EndpointOver<E>,
    tag: u64,
    buf: Buf,
    ctx: u64,
) -> Option<Buf>
    ensures { IsCalm (E.seen endpoint.old) → IfSome result (λ got. Fills buf got (waiting tag (E.seen endpoint.old))) }
{
    if receives(endpoint, tag, buf, ctx) {
        received_now(endpoint)
    } else {
        None
    }
}

fn receive_long<E: Calls + Drop>(
    alloc: Global,
    endpoint: &mut EndpointOver<E>,
    tag: u64,
    len: u32,
    ctx: u64,
) -> Option<Buf>
    ensures { IsCalm (E.seen endpoint.old) → IfSome result (λ got. (buf : List ℕ) × (length buf ≡ len) × Fills buf got (waiting tag (E.seen endpoint.old))) }
{
    match Buf::zeros(alloc, u64::from(len)) {
        Ok(buf) => receive_into(endpoint, tag, buf, ctx),
        Err(_) => None,
    }
}

/// Looks for the first message under the tag, and receives it into a buffer of its length. What the look told is true when the
/// receive is posted: it takes that very message, and no byte is cut off.
pub fn receive_next<E: Calls + Drop>(
    alloc: Global,
    endpoint: &mut EndpointOver<E>,
    tag: u64,
    ctx: u64,
) -> Option<Buf>
    ensures { IsCalm (E.seen endpoint.old) → IfSome result (λ got. HasBytesOf got (waiting tag (E.seen endpoint.old))) }
{
    match next_len(endpoint, tag) {
        Some(len) => receive_long(alloc, endpoint, tag, len, ctx),
        None => None,
    }
}

/// How many bytes of a message were placed, and how many cut off.
#[derive(Clone, Copy, Drop, Eq, PartialEq)]
pub struct Cut {
    pub placed: u32,
    pub lost: u32,
}

fn cut_by(error: &ErrEntry) -> Option<Cut>
    ensures { IfSome result (λ cut. IsCutBy cut error.now) }
{
    match error.kind {
        ErrKind::Truncated => Some(Cut {
            placed: error.len,
            lost: error.olen,
        }),
        _ => None,
    }
}

/// What was cut off, where the next completion that stands there is that of a message longer than its buffer.
fn cut_now<E: Calls + Drop>(endpoint: &mut EndpointOver<E>) -> Option<Cut>
    ensures { HasNoMulti (E.seen endpoint.old) → IfSome result (λ cut. (error : ErrValue) × IsNext (Failure error) (E.seen endpoint.old) × IsCutBy cut error) }
{
    match error_now(endpoint) {
        Some(error) => cut_by(&error),
        None => None,
    }
}

/// Receives the first message under the tag that no receive took into a buffer that is too short, and tells what was cut off:
/// the buffer is full, and what was placed and what was lost are the whole message.
pub fn receive_cut<E: Calls + Drop>(
    endpoint: &mut EndpointOver<E>,
    tag: u64,
    buf: Buf,
    ctx: u64,
) -> Option<Cut>
    ensures { IsCalm (E.seen endpoint.old) → IfSome result (λ cut. IsCut cut buf (waiting tag (E.seen endpoint.old))) }
{
    if receives(endpoint, tag, buf, ctx) {
        cut_now(endpoint)
    } else {
        None
    }
}

/// The buffer of the next completion that stands there, if it is an error that has one.
fn back_now<E: Calls + Drop>(endpoint: &mut EndpointOver<E>) -> Option<Buf>
    ensures { HasNoMulti (E.seen endpoint.old) → IfSome result (λ buf. (error : ErrValue) × IsNext (Failure error) (E.seen endpoint.old) × (error.buf ≡ Some buf)) }
{
    match error_now(endpoint) {
        Some(error) => error.buf,
        None => None,
    }
}

/// Cancels a receive, and gives its buffer back: that of the first receive of this context into which nothing was coming.
pub fn cancelled<E: Calls + Drop>(endpoint: &mut EndpointOver<E>, ctx: u64) -> Option<Buf>
    ensures { IsCalm (E.seen endpoint.old) → IfSome result (λ back. posted_buf ctx (E.seen endpoint.old) ≡ Some back) }
{
    match endpoint.cancel(ctx) {
        Ok(()) => back_now(endpoint),
        Err(_) => None,
    }
}
