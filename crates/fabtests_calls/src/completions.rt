//! Completions.
use fabric::{Buf, Calls, EndpointOver, Entry, ErrEntry, ErrKind, PeekHow, Polled};

/// The next completion of an endpoint. Each begins with the context of its call, but for that of a write of a peer; what came
/// is of peer 1.
#[derive(Clone, Copy, Drop)]
pub enum Completion<'a> {
    /// A message was sent, and its buffer has these bytes.
    Sent(u64, &'a [u8]),
    /// A message under a tag, if there is one, with data, if there is some, of so many bytes; the receive's buffer has these.
    Received(u64, Option<u64>, Option<u64>, u32, &'a [u8]),
    /// A message at this place in the buffer for many, of so many bytes.
    Part(u64, u32, u32),
    /// The buffer for many comes back: so many of its bytes were used, and these stand in it.
    Released(u64, u32, &'a [u8]),
    /// A look did this with a message under this tag, of so many bytes.
    Found(u64, PeekHow, u64, u32),
    /// A write is done, and its buffer has these bytes.
    Wrote(u64, &'a [u8]),
    /// A read brought these bytes.
    Read(u64, &'a [u8]),
    /// An atomic without a result is done.
    Updated(u64),
    /// An atomic brought these bytes.
    Fetched(u64, &'a [u8]),
    /// A peer wrote with this data.
    RemoteData(u64),
    /// A message was too long: so many of its bytes were placed, and so many cut off.
    Cut(u64, u32, u32),
    /// An error of this kind, which hands back a buffer of so many bytes, if any.
    Failed(u64, ErrKind, Option<usize>),
    /// There is none, and nothing to do before a peer does something.
    Nothing,
}

/// What the completion of a receive tells, besides the bytes: its context, the source, the tag, the data and the length.
type Came = (u64, u32, Option<u64>, Option<u64>, u32);

/// What that of a look tells: its context, what was done, the source, the tag and the length.
type Met = (u64, PeekHow, u32, u64, u32);

impl Completion<'_> {
    /// Whether it is the next.
    pub(crate) fn is_next<E: Calls + Drop>(self, endpoint: &mut EndpointOver<E>) -> bool {
        match endpoint.poll(64) {
            Ok(Polled::Entry(entry)) => self.is_of(entry),
            Ok(Polled::Error(error)) => self.is_of_error(error),
            Ok(Polled::Idle) => self.is_nothing(),
            _ => false,
        }
    }

    fn is_nothing(self) -> bool {
        match self {
            Completion::Nothing => true,
            _ => false,
        }
    }

    fn is_of_error(self, error: ErrEntry) -> bool {
        let (kind, context, cut) = (error.kind, error.ctx, (error.len, error.olen));
        let back = len_of(error.buf);
        match self {
            Completion::Cut(ctx, placed, lost) => {
                kind == ErrKind::Truncated && context == Some(ctx) && cut == (placed, lost)
            }
            Completion::Failed(ctx, wanted, len) => {
                kind == wanted && context == Some(ctx) && back == len
            }
            _ => false,
        }
    }

    /// Whether a success is this one. Each kind is matched once, so that no other one is dropped here.
    fn is_of(self, entry: Entry) -> bool {
        match entry {
            Entry::Sent { ctx, buf, .. } => self.is_sent(ctx, buf),
            Entry::Received {
                ctx,
                source,
                tag,
                imm,
                len,
                buf,
            } => self.is_received((ctx, source, tag, imm, len), buf),
            Entry::Part {
                ctx,
                source,
                at,
                len,
                ..
            } => source == 1 && self.is_part(ctx, at, len),
            Entry::Released { ctx, used, buf } => self.is_released(ctx, used, buf),
            Entry::Peeked {
                ctx,
                how,
                source,
                tag,
                len,
                ..
            } => self.is_found((ctx, how, source, tag, len)),
            Entry::Wrote { ctx, buf } => self.is_wrote(ctx, buf),
            Entry::Read { ctx, buf } => self.is_read(ctx, buf),
            Entry::Updated { ctx } => self.is_updated(ctx),
            Entry::Fetched { ctx, result } => self.is_fetched(ctx, result),
            Entry::RemoteData { source, imm } => source == 1 && self.is_data(imm),
        }
    }

    fn is_sent(self, context: u64, buf: Buf) -> bool {
        match self {
            Completion::Sent(ctx, bytes) => context == ctx && buf.as_slice() == bytes,
            _ => false,
        }
    }

    fn is_received(self, came: Came, buf: Buf) -> bool {
        match self {
            Completion::Received(ctx, tag, imm, len, bytes) => {
                came == (ctx, 1, tag, imm, len) && buf.as_slice() == bytes
            }
            _ => false,
        }
    }

    fn is_part(self, context: u64, place: u32, length: u32) -> bool {
        match self {
            Completion::Part(ctx, at, len) => (context, place, length) == (ctx, at, len),
            _ => false,
        }
    }

    fn is_released(self, context: u64, count: u32, buf: Buf) -> bool {
        match self {
            Completion::Released(ctx, used, bytes) => {
                context == ctx && count == used && buf.as_slice() == bytes
            }
            _ => false,
        }
    }

    fn is_found(self, met: Met) -> bool {
        match self {
            Completion::Found(ctx, how, tag, len) => met == (ctx, how, 1, tag, len),
            _ => false,
        }
    }

    fn is_wrote(self, context: u64, buf: Buf) -> bool {
        match self {
            Completion::Wrote(ctx, bytes) => context == ctx && buf.as_slice() == bytes,
            _ => false,
        }
    }

    fn is_read(self, context: u64, buf: Buf) -> bool {
        match self {
            Completion::Read(ctx, bytes) => context == ctx && buf.as_slice() == bytes,
            _ => false,
        }
    }

    fn is_updated(self, context: u64) -> bool {
        match self {
            Completion::Updated(ctx) => context == ctx,
            _ => false,
        }
    }

    fn is_fetched(self, context: u64, buf: Buf) -> bool {
        match self {
            Completion::Fetched(ctx, bytes) => context == ctx && buf.as_slice() == bytes,
            _ => false,
        }
    }

    fn is_data(self, imm: u64) -> bool {
        match self {
            Completion::RemoteData(told) => told == imm,
            _ => false,
        }
    }
}

/// How many bytes a buffer has, if there is one.
fn len_of(buf: Option<Buf>) -> Option<usize> {
    match buf {
        Some(buf) => Some(buf.as_slice().len()),
        None => None,
    }
}
