//! Which completions are those of a collective, and what they bring.
ghost use Rattle.std.specs.Prelude.{◌≡◌, take};
ghost use Rattle.fab_collectives.specs.Offering.{brought, is_of, is_under, message_in};

use fab_app::completions::{Polled, ctx_of};
use fab_base::{Buf, Entry};

/// Whether this is the context of the collective with this tag.
fn is_under(tag: u64, ctx: Option<u64>) -> bool
    ensures { result ≡ is_under tag ctx }
{
    match ctx {
        Some(ctx) => ctx == tag,
        None => false,
    }
}

/// Whether a completion is that of a receive of the collective with this tag.
pub(crate) fn is_of(tag: u64, polled: &Polled) -> bool
    ensures { result ≡ is_of tag polled.now }
{
    match polled {
        Polled::Entry(entry) => is_under(tag, ctx_of(entry)),
        Polled::Error(error) => is_under(tag, error.ctx),
        Polled::Idle | Polled::More => false,
    }
}

/// A message that came, and the rank that it came from.
#[derive(Drop)]
pub struct Message {
    pub source: u32,
    pub bytes: Buf,
}

/// The first bytes of a buffer.
fn cut(buf: Buf, len: u32) -> Buf
    ensures { result ≡ take len buf }
{
    let mut bytes = buf.into_vec();
    bytes.truncate(len as usize);
    Buf::from_vec(bytes)
}

/// The message that a completed receive brought.
fn message_in(entry: Entry) -> Option<Message>
    ensures { result ≡ message_in entry }
{
    match entry {
        Entry::Received {
            source,
            len,
            buf,
            ..
        } => {
            let bytes = cut(buf, len);
            Some(Message { source, bytes })
        }
        Entry::Sent { .. }
        | Entry::Part { .. }
        | Entry::Released { .. }
        | Entry::Peeked { .. }
        | Entry::Read { .. }
        | Entry::Wrote { .. }
        | Entry::Updated { .. }
        | Entry::Fetched { .. }
        | Entry::RemoteData { .. } => None,
    }
}

/// The message that a completion brought.
pub(crate) fn brought(polled: Polled) -> Option<Message>
    ensures { result ≡ brought polled }
{
    match polled {
        Polled::Entry(entry) => message_in(entry),
        Polled::Error(_) | Polled::Idle | Polled::More => None,
    }
}
