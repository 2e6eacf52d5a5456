//! Completion entries (fi_cq(3)) and the classes of counters (fi_cntr(3)).
ghost use Rattle.std.specs.Prelude.{◌≡◌, IfOk};

use crate::buffers::Buf;
use std::alloc::AllocError;

/// What a look at the unexpected messages does with the one that it finds (fi_tagged(3)).
#[derive(Clone, Copy, Drop, Eq, PartialEq)]
pub enum PeekHow {
    Peek,
    Claim,
    Discard,
}

/// A success. `ctx` is the context of the call, `imm` the remote data, `source` the sender's number (and no index), and `buf` the
/// operation's buffer, which comes back.
#[derive(Drop)]
pub enum Entry {
    /// A message is complete at its level (FI_SEND).
    Sent {
        ctx: u64,
        tagged: bool,
        buf: Buf,
    },
    /// A message was received (FI_RECV): the first `len` bytes of `buf`. The rest is what it was.
    Received {
        ctx: u64,
        source: u32,
        tag: Option<u64>,
        imm: Option<u64>,
        len: u32,
        buf: Buf,
    },
    /// A message lies in a buffer for many: `len` bytes from `at` on (FI_MULTI_RECV).
    Part {
        ctx: u64,
        source: u32,
        imm: Option<u64>,
        at: u32,
        len: u32,
    },
    /// A buffer for many comes back, of which the first `used` bytes were given to messages.
    Released {
        ctx: u64,
        used: u32,
        buf: Buf,
    },
    /// A look found a message of `len` bytes in all, maybe not whole yet, or one that was claimed is dropped.
    Peeked {
        ctx: u64,
        how: PeekHow,
        source: u32,
        tag: u64,
        imm: Option<u64>,
        len: u32,
    },
    /// A read is done (FI_READ).
    Read {
        ctx: u64,
        buf: Buf,
    },
    /// The peer performed a write (FI_WRITE).
    Wrote {
        ctx: u64,
        buf: Buf,
    },
    /// The peer performed an atomic (FI_ATOMIC).
    Updated {
        ctx: u64,
    },
    /// The peer performed an atomic: the elements before it.
    Fetched {
        ctx: u64,
        result: Buf,
    },
    /// A peer wrote with data (FI_REMOTE_CQ_DATA).
    RemoteData {
        source: u32,
        imm: u64,
    },
}

/// Why an operation failed.
#[derive(Clone, Copy, Debug, Drop, Eq, PartialEq)]
pub enum ErrKind {
    /// The message was longer than its buffer (FI_ETRUNC).
    Truncated,
    /// A look found none (FI_ENOMSG).
    NoMsg,
    /// The receive was cancelled (FI_ECANCELED).
    Canceled,
    /// The peer has no region under the key (FI_ENOKEY).
    NoKey,
    /// The region does not give the right (FI_EACCES).
    Access,
    /// The place is beyond the region's end.
    Range,
}

/// An error. All but `ctx`, `kind` and `buf` are filled for `Truncated` alone: `len` the bytes placed,
/// `olen` the bytes cut off, `at` the place in a multi-receive. `buf` is `None` where the operation took none, or where a message
/// was cut off in a buffer for many.
#[derive(Drop)]
pub struct ErrEntry {
    pub ctx: Option<u64>,
    pub kind: ErrKind,
    pub source: Option<u32>,
    pub tag: Option<u64>,
    pub imm: Option<u64>,
    pub at: Option<u32>,
    pub len: u32,
    pub olen: u32,
    pub buf: Option<Buf>,
}

/// An entry as it was read.
#[derive(Drop)]
pub enum Taken {
    Success(Entry),
    Failure(ErrEntry),
}

/// An entry that was read, with the bytes that were copied for a part.
#[derive(Drop)]
pub struct Kept {
    pub entry: Taken,
    pub bytes: Option<Buf>,
}

/// What a counter counts.
#[derive(Clone, Copy, Debug, Drop, Eq, PartialEq)]
pub enum Class {
    /// Messages sent (FI_SEND).
    Send,
    /// Messages received (FI_RECV).
    Recv,
    /// Reads, and atomics that bring elements back (FI_READ).
    Read,
    /// Writes, and other atomics (FI_WRITE).
    Write,
    /// What peers read of own regions (FI_REMOTE_READ). It counts where FI_RMA_EVENT is granted.
    RemoteRead,
    /// What peers wrote to own regions (FI_REMOTE_WRITE). It counts where FI_RMA_EVENT is granted.
    RemoteWrite,
}

impl Clone for Entry {
    ghost use Rattle.std.specs.Prelude.{◌≡◌};

    ghost is_clone = { λ a b. a ≡ b };

    fn clone(&self) -> Result<Entry, AllocError> {
        Ok(match self {
            Entry::Sent { ctx, tagged, buf } => Entry::Sent {
                ctx: *ctx,
                tagged: *tagged,
                buf: buf.clone()?,
            },
            Entry::Received {
                ctx,
                source,
                tag,
                imm,
                len,
                buf,
            } => Entry::Received {
                ctx: *ctx,
                source: *source,
                tag: *tag,
                imm: *imm,
                len: *len,
                buf: buf.clone()?,
            },
            Entry::Part {
                ctx,
                source,
                imm,
                at,
                len,
            } => Entry::Part {
                ctx: *ctx,
                source: *source,
                imm: *imm,
                at: *at,
                len: *len,
            },
            Entry::Released { ctx, used, buf } => Entry::Released {
                ctx: *ctx,
                used: *used,
                buf: buf.clone()?,
            },
            Entry::Peeked {
                ctx,
                how,
                source,
                tag,
                imm,
                len,
            } => Entry::Peeked {
                ctx: *ctx,
                how: *how,
                source: *source,
                tag: *tag,
                imm: *imm,
                len: *len,
            },
            Entry::Read { ctx, buf } => Entry::Read {
                ctx: *ctx,
                buf: buf.clone()?,
            },
            Entry::Wrote { ctx, buf } => Entry::Wrote {
                ctx: *ctx,
                buf: buf.clone()?,
            },
            Entry::Updated { ctx } => Entry::Updated { ctx: *ctx },
            Entry::Fetched { ctx, result } => Entry::Fetched {
                ctx: *ctx,
                result: result.clone()?,
            },
            Entry::RemoteData { source, imm } => Entry::RemoteData {
                source: *source,
                imm: *imm,
            },
        })
    }
}

fn clone_buf(buf: &Option<Buf>) -> Result<Option<Buf>, AllocError>
    ensures { IfOk result (λ copy. copy ≡ buf.now) }
{
    match buf {
        None => Ok(None),
        Some(buf) => Ok(Some(buf.clone()?)),
    }
}

impl Clone for ErrEntry {
    ghost use Rattle.std.specs.Prelude.{◌≡◌};

    ghost is_clone = { λ a b. a ≡ b };

    fn clone(&self) -> Result<ErrEntry, AllocError> {
        Ok(ErrEntry {
            ctx: self.ctx,
            kind: self.kind,
            source: self.source,
            tag: self.tag,
            imm: self.imm,
            at: self.at,
            len: self.len,
            olen: self.olen,
            buf: clone_buf(&self.buf)?,
        })
    }
}

impl Clone for Taken {
    ghost use Rattle.std.specs.Prelude.{◌≡◌};

    ghost is_clone = { λ a b. a ≡ b };

    fn clone(&self) -> Result<Taken, AllocError> {
        Ok(match self {
            Taken::Success(entry) => Taken::Success(entry.clone()?),
            Taken::Failure(entry) => Taken::Failure(entry.clone()?),
        })
    }
}
