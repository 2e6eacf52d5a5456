//! The lines of a peer, and the buffers of sends among them.
ghost use Rattle.std.specs.Prelude.{◌≡◌, [], IfOk, IfSome, IfNone};
ghost use Rattle.fab_peer.specs.Filled.{IsAt, sent};

use crate::spare::Spare;
use fab_base::{Buf, FILE_BYTES, Line, LineOp, NoMemory};
use std::alloc::Global;
use std::collections::VecDeque;
use std::marker::Model;

/// A buffer with the bytes of the line of this number, which is a send.
#[derive(Drop)]
pub(crate) struct Filled {
    pub(crate) at: usize,
    pub(crate) buf: Buf,
}

/// A new buffer with the bytes of a send; none where the line is another.
fn sent(alloc: Global, op: &LineOp) -> Result<Option<Buf>, NoMemory>
    ensures some { IfOk result (λ o. IfSome o (λ b. b ≡ sent op.now)) }
    ensures none { IfOk result (λ o. IfNone o (sent op.now ≡ [])) }
{
    match op {
        LineOp::Send { bytes, .. } | LineOp::TSend { bytes, .. } => {
            let mut none = Spare::new(alloc);
            Ok(Some(none.word(bytes)?))
        }
        _ => Ok(None),
    }
}

/// The lines of a peer. Contracts see these alone.
///
/// Buffers of sends among them may be there already, filled, in order of the lines.
#[derive(Drop)]
pub(crate) struct Lines {
    all: Vec<Line>,
    filled: VecDeque<Filled>,
    alloc: Global,
}

impl Model for Lines {
    ghost use Rattle.std.specs.Prelude.{List};
    ghost use Rattle.fab_base.specs.declared.script.Line.{Line};
    ghost use Rattle.fab_peer.specs.Filled.{IsFilled};

    ghost Value = { List Line };

    ghost view = { λ l. l.all.items };

    ghost invariant = { λ l. IsFilled l.all.items l.filled.items };
}

impl Lines {
    /// Without a buffer. It takes no memory.
    pub(crate) fn new(alloc: Global, all: Vec<Line>) -> Lines
        ensures { result ≡ all.items }
    {
        Lines {
            all,
            filled: VecDeque::new(alloc),
            alloc,
        }
    }

    /// A new buffer with the bytes of this line; none where it is no send.
    fn made(&self, at: usize) -> Result<Option<Buf>, NoMemory>
        ensures some { IfOk result (λ o. IfSome o (IsAt self.now at)) }
        ensures none { IfOk result (λ o. IfNone o (IsAt self.now at [])) }
    {
        match self.all.get(at) {
            Some(line) => sent(self.alloc, &line.op),
            None => Ok(None),
        }
    }

    /// Fills the buffer of this line, where it is a send, and tells how many bytes it has.
    fn fill_one(&mut self, at: usize) -> Result<u64, NoMemory>
        ensures { self.new ≡ self.old }
    {
        let Some(buf) = self.made(at)? else {
            return Ok(0);
        };
        let len = buf.as_slice().len() as u64;
        self.filled.push_back(Filled { at, buf })?;
        Ok(len)
    }

    /// Fills the buffers of the sends, until they have more bytes together than a file may have. Want of memory leaves those
    /// that are filled.
    pub(crate) fn fill(&mut self) -> Result<(), NoMemory>
        ensures { self.new ≡ self.old }
    {
        let mut bytes = 0u64;
        for at in 0..self.all.len() {
            if bytes > FILE_BYTES {
                return Ok(());
            }
            bytes = bytes.saturating_add(self.fill_one(at)?);
        }
        Ok(())
    }

    /// The lines, in order.
    pub(crate) fn as_slice(&self) -> &[Line]
        ensures { result.now ≡ self.now }
    {
        self.all.as_slice()
    }

    /// Takes the buffer of this line out, if it is there.
    fn take(&mut self, at: usize) -> Option<Buf>
        ensures sent { IfSome result (λ b. IsAt self.old at b) }
        ensures same { self.new ≡ self.old }
    {
        let filled = self.filled.pop_front_if(|filled| filled.at == at)?;
        Some(filled.buf)
    }

    /// The buffer of this line, which is a send: the one that is there, or else a new one.
    pub(crate) fn buffer(&mut self, at: usize) -> Result<Buf, NoMemory>
        ensures sent { IfOk result (λ b. IsAt self.old at b) }
        ensures same { self.new ≡ self.old }
    {
        if let Some(buf) = self.take(at) {
            return Ok(buf);
        }
        let made = self.made(at)?;
        Ok(made.unwrap_or(Buf::empty(self.alloc)))
    }
}
