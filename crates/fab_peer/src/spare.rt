//! Buffers that are made before a peer does its lines.
ghost use Rattle.std.specs.Prelude.{◌≡◌, IfOk, IfSome, length, replicate};
ghost use Rattle.fab_model.specs.Calls.{word_bytes};

use fab_base::{Buf, BytesWord, FILE_BYTES, Line, LineOp, NoMemory};
use std::alloc::Global;
use std::collections::VecDeque;
use std::marker::Model;

/// A buffer of zeros. Contracts see its length.
#[derive(Drop)]
struct Zeros {
    buf: Buf,
}

impl Model for Zeros {
    ghost use Rattle.std.specs.Prelude.{◌≡◌, ℕ, length, replicate};

    ghost Value = { ℕ };

    ghost view = { λ z. length z.buf };

    ghost invariant = { λ z. z.buf ≡ replicate (length z.buf) 0 };
}

impl Zeros {
    fn new(alloc: Global, len: u64) -> Result<Zeros, NoMemory>
        ensures { IfOk result (λ z. z ≡ len) }
    {
        let buf = Buf::zeros(alloc, len)?;
        Ok(Zeros { buf })
    }

    fn len(&self) -> u64
        ensures { result ≡ self.now }
    {
        self.buf.as_slice().len() as u64
    }

    fn into_buf(self) -> Buf
        ensures { result ≡ replicate self 0 }
    {
        self.buf
    }
}

/// How many bytes the buffer of a word has; none where its bytes are a file's.
fn word_len(word: &BytesWord) -> u64 {
    match word {
        BytesWord::Text(bytes) | BytesWord::Hex(bytes) => bytes.as_slice().len() as u64,
        BytesWord::Zero(len) => *len,
        BytesWord::File { .. } => 0,
    }
}

/// How many bytes the buffer of a line's call has, of a receive, an inject, a read or a write.
fn buffer_len(op: &LineOp) -> u64 {
    match op {
        LineOp::Inject { bytes, .. }
        | LineOp::TInject { bytes, .. }
        | LineOp::Write { bytes, .. }
        | LineOp::WInject { bytes, .. } => word_len(bytes),
        LineOp::Recv { len, .. }
        | LineOp::TRecv { len, .. }
        | LineOp::MRecv { len, .. }
        | LineOp::Take { len, .. }
        | LineOp::Read { len, .. } => *len as u64,
        _ => 0,
    }
}

/// Buffers of zeros that are there before a peer does its lines, in the order in which these want them. One that is wanted and
/// is not there, or has another length, is made when it is wanted.
#[derive(Drop)]
pub(crate) struct Spare {
    buffers: VecDeque<Zeros>,
    bytes: u64,
    alloc: Global,
}

impl Spare {
    /// None. It takes no memory.
    pub(crate) fn new(alloc: Global) -> Spare {
        Spare {
            buffers: VecDeque::new(alloc),
            bytes: 0,
            alloc,
        }
    }

    /// Makes one more, while all have no more bytes together than a file may have.
    fn make(&mut self, len: u64) -> Result<(), NoMemory> {
        let bytes = self.bytes.saturating_add(len);
        if len == 0 || bytes > FILE_BYTES {
            return Ok(());
        }
        let zeros = Zeros::new(self.alloc, len)?;
        self.buffers.push_back(zeros)?;
        self.bytes = bytes;
        Ok(())
    }

    /// Makes those that the lines want.
    pub(crate) fn make_for(&mut self, lines: &[Line]) -> Result<(), NoMemory> {
        for line in lines {
            self.make(buffer_len(&line.op))?;
        }
        Ok(())
    }

    /// Takes the next one, if it has this length.
    fn take(&mut self, len: u64) -> Option<Buf>
        ensures { IfSome result (λ b. b ≡ replicate len 0) }
    {
        let next = self.buffers.pop_front_if(|zeros| zeros.len() == len)?;
        Some(next.into_buf())
    }

    /// `len` zeros.
    pub(crate) fn zeros(&mut self, len: u64) -> Result<Buf, NoMemory>
        ensures { IfOk result (λ b. b ≡ replicate len 0) }
    {
        match self.take(len) {
            Some(buf) => Ok(buf),
            None => Buf::zeros(self.alloc, len),
        }
    }

    /// A copy of these bytes.
    fn copy(&mut self, bytes: &[u8]) -> Result<Buf, NoMemory>
        ensures { IfOk result (λ b. b ≡ bytes.now) }
    {
        match self.take(bytes.len() as u64) {
            Some(mut buf) => {
                buf.write_at(0, bytes);
                Ok(buf)
            }
            None => Buf::copy(self.alloc, bytes),
        }
    }

    /// The bytes of a line's word.
    pub(crate) fn word(&mut self, word: &BytesWord) -> Result<Buf, NoMemory>
        ensures { IfOk result (λ b. b ≡ word_bytes word.now) }
    {
        match word {
            BytesWord::Text(bytes) | BytesWord::Hex(bytes) => self.copy(bytes.as_slice()),
            BytesWord::Zero(n) => self.zeros(*n),
            BytesWord::File { .. } => Ok(Buf::empty(self.alloc)),
        }
    }
}
