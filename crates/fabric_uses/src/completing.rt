//! What completes.
ghost use Rattle.std.specs.Prelude.{◌≡◌, false, IfSome, IsTrue};
ghost use Rattle.fabric.specs.Receiving.{draw_due};
ghost use Rattle.fabric.specs.Words.{Failure, Received, Success};
ghost use Rattle.fabric_uses.specs.Uses.{AnswersTo, Echoes, HasNoMulti, IsAllRead, IsNext, ReadsNext, SendsToPeer};

use crate::sending::sends;
use fabric::{Buf, Calls, EndpointOver, Entry, ErrEntry, Polled};

/// How many frames move at most before the next completion is read.
const BUDGET: u32 = 8;

fn error_of(polled: Polled) -> Option<ErrEntry>
    ensures { IfSome result (λ error. polled ≡ Polled.Error error) }
{
    match polled {
        Polled::Error(error) => Some(error),
        _ => None,
    }
}

fn entry_of(polled: Polled) -> Option<Entry>
    ensures { IfSome result (λ entry. polled ≡ Polled.Entry entry) }
{
    match polled {
        Polled::Entry(entry) => Some(entry),
        _ => None,
    }
}

/// Moves what can be moved, and reads the next completion, if it is a success.
pub fn next_entry<E: Calls + Drop>(endpoint: &mut EndpointOver<E>) -> Option<Entry>
    ensures { IfSome result (λ entry. ReadsNext E.fixed BUDGET entry (E.seen endpoint.old) (E.seen endpoint.new)) }
{
    match endpoint.poll(BUDGET) {
        Ok(polled) => entry_of(polled),
        Err(_) => None,
    }
}

/// Reads the next completion that stands there, if it is a success: no frame is moved.
pub fn entry_now<E: Calls + Drop>(endpoint: &mut EndpointOver<E>) -> Option<Entry>
    ensures { HasNoMulti (E.seen endpoint.old) → IfSome result (λ entry. IsNext (Success entry) (E.seen endpoint.old)) }
{
    match endpoint.poll(0) {
        Ok(polled) => entry_of(polled),
        Err(_) => None,
    }
}

/// Reads the next completion that stands there, if it is an error: no frame is moved.
pub fn error_now<E: Calls + Drop>(endpoint: &mut EndpointOver<E>) -> Option<ErrEntry>
    ensures { HasNoMulti (E.seen endpoint.old) → IfSome result (λ error. IsNext (Failure error) (E.seen endpoint.old)) }
{
    match endpoint.poll(0) {
        Ok(polled) => error_of(polled),
        Err(_) => None,
    }
}

fn tells_idle(polled: Polled) -> bool
    ensures { IsTrue result → polled ≡ Polled.Idle }
{
    match polled {
        Polled::Idle => true,
        _ => false,
    }
}

/// Moves what can be moved, and tells whether there is nothing to do before a peer does something: then every completion
/// was read, and no buffer for many messages has a message to take.
pub fn is_idle<E: Calls + Drop>(endpoint: &mut EndpointOver<E>) -> bool
    ensures read { IsTrue result → IsAllRead (E.seen endpoint.new) }
    ensures drawn { IsTrue result → draw_due (E.seen endpoint.new).held.state.rx ≡ false }
{
    match endpoint.poll(64) {
        Ok(polled) => tells_idle(polled),
        Err(_) => false,
    }
}

/// Sends a message to the peer of this number, as completions tell it, whatever its index in the address vector is.
pub fn send_to_peer<E: Calls + Drop>(
    endpoint: &mut EndpointOver<E>,
    peer: u32,
    buf: Buf,
    ctx: u64,
) -> bool
    ensures { IsTrue result → SendsToPeer E.fixed peer buf ctx (E.seen endpoint.old) (E.seen endpoint.new) }
{
    match endpoint.index_of(peer) {
        Some(dest) => sends(endpoint, dest, buf, ctx),
        None => false,
    }
}

/// A message that came, as its receive's completion tells it.
#[derive(Drop)]
pub struct Came {
    pub ctx: u64,
    pub source: u32,
    pub tag: Option<u64>,
    pub imm: Option<u64>,
    pub len: u32,
    pub buf: Buf,
}

pub(crate) fn came_by(entry: Entry) -> Option<Came>
    ensures { IfSome result (λ c. entry ≡ Received c.ctx c.source c.tag c.imm c.len c.buf) }
{
    match entry {
        Entry::Received {
            ctx,
            source,
            tag,
            imm,
            len,
            buf,
        } => Some(Came {
            ctx,
            source,
            tag,
            imm,
            len,
            buf,
        }),
        _ => None,
    }
}

fn answer_to<E: Calls + Drop>(endpoint: &mut EndpointOver<E>, entry: Entry) -> bool
    ensures { IsTrue result → AnswersTo E.fixed entry (E.seen endpoint.old) (E.seen endpoint.new) }
{
    match came_by(entry) {
        Some(came) => send_to_peer(endpoint, came.source, came.buf, came.ctx),
        None => false,
    }
}

/// Answers the next message that came with its own bytes, which go back to the peer that sent them: a ping comes back as it
/// was sent.
pub fn echo<E: Calls + Drop>(endpoint: &mut EndpointOver<E>) -> bool
    ensures { IsTrue result → Echoes E.fixed BUDGET (E.seen endpoint.old) (E.seen endpoint.new) }
{
    match next_entry(endpoint) {
        Some(entry) => answer_to(endpoint, entry),
        None => false,
    }
}
