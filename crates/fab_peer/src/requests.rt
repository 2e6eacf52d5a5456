//! The lines that ask another peer for something: reads, writes and atomics (fi_rma(3), fi_atomic(3)).
ghost use Rattle.std.specs.Prelude.{◌≡◌, ℕ, [], true, length, replicate, IfOk, IfSome, Some, OnErr};
ghost use Rattle.fab_base.specs.declared.script.BytesWord.{BytesWord};
ghost use Rattle.fab_base.specs.declared.script.LineOp.TheVariants.{Read, Write, WInject, Atomic, Fetch, Compare};
ghost use Rattle.fab_model.specs.Calls.{fetched, word_bytes};

use crate::calls::LineCalls;
use crate::peer::{Outcome, Peer, why_of};
use fab_base::{AtomicOp, Buf, Flags, Level, LineOp, NoMemory, Num};

/// How many bytes a fetch asks for: as many as its operand has, or those of so many elements where it has none.
fn fetched(num: Num, values: &Buf, count: u32) -> u64
    ensures { result ≡ fetched num values.now count }
{
    let len = values.as_slice().len();
    if len == 0 {
        return count as u64 * num.element_size() as u64;
    }
    len as u64
}

impl<E: LineCalls> Peer<E> {
    ghost use Rattle.fab_peer.specs.Kinds.{is_transfer, is_atomic};
    ghost use Rattle.fab_peer.specs.Left.{Left};
    ghost use Rattle.fab_peer.specs.Turns.{told, next_op, WentOn};

    /// The line `read`.
    fn read(
        &mut self,
        ctx: u64,
        dest: u32,
        key: u64,
        at: u64,
        len: u32,
    ) -> Result<Outcome, NoMemory>
        requires log { (E.seen self.old.endpoint).log ≡ [] }
        requires next { next_op (told E.seen self.old) ≡ Some (Read ctx dest key at len) }
        ensures on { IfOk result (λ o. WentOn (told E.seen self.old) (told E.seen self.new) o.done o.moved) }
        ensures left { OnErr result (Left (told E.seen self.old) (told E.seen self.new)) }
    {
        let buf = self.spare.zeros(len as u64)?;
        self.endpoint.known();
        let answer = self.endpoint.read(dest, key, at, buf, ctx);
        let why = why_of(answer);
        self.transmitted(why)
    }

    /// The line `write`.
    fn write(
        &mut self,
        ctx: u64,
        dest: u32,
        key: u64,
        at: u64,
        buf: Buf,
        imm: Option<u64>,
        flags: Flags,
    ) -> Result<Outcome, NoMemory>
        requires log { (E.seen self.old.endpoint).log ≡ [] }
        requires next { (word : BytesWord) × (next_op (told E.seen self.old) ≡ Some (Write ctx dest key at word imm flags.completion flags.fence)) × (buf ≡ word_bytes word) }
        ensures on { IfOk result (λ o. WentOn (told E.seen self.old) (told E.seen self.new) o.done o.moved) }
        ensures left { OnErr result (Left (told E.seen self.old) (told E.seen self.new)) }
    {
        self.endpoint.known();
        let answer = self.endpoint.write(dest, key, at, buf, imm, ctx, flags);
        let why = why_of(answer);
        self.transmitted(why)
    }

    /// The line `winject`.
    fn inject_write(
        &mut self,
        dest: u32,
        key: u64,
        at: u64,
        buf: &Buf,
        imm: Option<u64>,
    ) -> Result<Outcome, NoMemory>
        requires log { (E.seen self.old.endpoint).log ≡ [] }
        requires next { (word : BytesWord) × (next_op (told E.seen self.old) ≡ Some (WInject dest key at word imm)) × (buf.now ≡ word_bytes word) }
        ensures on { IfOk result (λ o. WentOn (told E.seen self.old) (told E.seen self.new) o.done o.moved) }
        ensures left { OnErr result (Left (told E.seen self.old) (told E.seen self.new)) }
    {
        self.endpoint.known();
        let why = self
            .endpoint
            .inject_write(dest, key, at, buf.as_slice(), imm);
        self.transmitted(why)
    }

    /// The line `atomic`.
    fn atomic(
        &mut self,
        ctx: u64,
        dest: u32,
        key: u64,
        at: u64,
        op: AtomicOp,
        num: Num,
        operand: &Buf,
        flags: Flags,
    ) -> Result<Outcome, NoMemory>
        requires log { (E.seen self.old.endpoint).log ≡ [] }
        requires next { next_op (told E.seen self.old) ≡ Some (Atomic ctx dest key at op num operand.now flags.completion flags.fence) }
        ensures on { IfOk result (λ o. WentOn (told E.seen self.old) (told E.seen self.new) o.done o.moved) }
        ensures left { OnErr result (Left (told E.seen self.old) (told E.seen self.new)) }
    {
        self.endpoint.known();
        let why = self
            .endpoint
            .atomic(dest, key, at, op, num, operand.as_slice(), ctx, flags);
        self.transmitted(why)
    }

    /// The line `fetch`, with a buffer for the old elements.
    fn fetch(
        &mut self,
        ctx: u64,
        dest: u32,
        key: u64,
        at: u64,
        op: AtomicOp,
        num: Num,
        operand: &Buf,
        buf: Buf,
    ) -> Result<Outcome, NoMemory>
        requires log { (E.seen self.old.endpoint).log ≡ [] }
        requires next { (count : ℕ) × (next_op (told E.seen self.old) ≡ Some (Fetch ctx dest key at op num operand.now count)) × (buf ≡ replicate (fetched num operand.now count) 0) }
        ensures on { IfOk result (λ o. WentOn (told E.seen self.old) (told E.seen self.new) o.done o.moved) }
        ensures left { OnErr result (Left (told E.seen self.old) (told E.seen self.new)) }
    {
        self.endpoint.known();
        let answer = self
            .endpoint
            .fetch_atomic(dest, key, at, op, num, operand.as_slice(), buf, ctx);
        let why = why_of(answer);
        self.transmitted(why)
    }

    /// The line `compare`, with a buffer for the old elements.
    fn compare(
        &mut self,
        ctx: u64,
        dest: u32,
        key: u64,
        at: u64,
        op: AtomicOp,
        num: Num,
        operand: &Buf,
        compares: &Buf,
        buf: Buf,
    ) -> Result<Outcome, NoMemory>
        requires log { (E.seen self.old.endpoint).log ≡ [] }
        requires next { next_op (told E.seen self.old) ≡ Some (Compare ctx dest key at op num operand.now compares.now) }
        requires buf { buf ≡ replicate (length operand.now) 0 }
        ensures on { IfOk result (λ o. WentOn (told E.seen self.old) (told E.seen self.new) o.done o.moved) }
        ensures left { OnErr result (Left (told E.seen self.old) (told E.seen self.new)) }
    {
        self.endpoint.known();
        let answer = self.endpoint.compare_atomic(
            dest,
            key,
            at,
            op,
            num,
            operand.as_slice(),
            compares.as_slice(),
            buf,
            ctx,
        );
        let why = why_of(answer);
        self.transmitted(why)
    }

    /// Does the next line, which is a read or a write, if there is one.
    pub(crate) fn do_remote(&mut self) -> Result<Outcome, NoMemory>
        requires log { (E.seen self.old.endpoint).log ≡ [] }
        requires kind { IfSome (next_op (told E.seen self.old)) (λ op. is_transfer op ≡ true) }
        ensures on { IfOk result (λ o. WentOn (told E.seen self.old) (told E.seen self.new) o.done o.moved) }
        ensures left { OnErr result (Left (told E.seen self.old) (told E.seen self.new)) }
    {
        let Some(line) = self.lines.as_slice().get(self.results.len()) else {
            return Ok(Outcome {
                done: false,
                moved: false,
            });
        };
        match line.op {
            LineOp::Read {
                ctx,
                dest,
                key,
                at,
                len,
            } => self.read(ctx, dest, key, at, len),
            LineOp::Write {
                ctx,
                dest,
                key,
                at,
                ref bytes,
                imm,
                completion,
                fence,
            } => {
                let buf = self.spare.word(bytes)?;
                let flags = Flags {
                    completion,
                    level: Level::Delivery,
                    fence,
                };
                self.write(ctx, dest, key, at, buf, imm, flags)
            }
            LineOp::WInject {
                dest,
                key,
                at,
                ref bytes,
                imm,
            } => {
                let buf = self.spare.word(bytes)?;
                self.inject_write(dest, key, at, &buf, imm)
            }
            _ => unreachable!(),
        }
    }

    /// Does the next line, which is an atomic, if there is one.
    pub(crate) fn do_atomic(&mut self) -> Result<Outcome, NoMemory>
        requires log { (E.seen self.old.endpoint).log ≡ [] }
        requires kind { IfSome (next_op (told E.seen self.old)) (λ op. is_atomic op ≡ true) }
        ensures on { IfOk result (λ o. WentOn (told E.seen self.old) (told E.seen self.new) o.done o.moved) }
        ensures left { OnErr result (Left (told E.seen self.old) (told E.seen self.new)) }
    {
        let Some(line) = self.lines.as_slice().get(self.results.len()) else {
            return Ok(Outcome {
                done: false,
                moved: false,
            });
        };
        match line.op {
            LineOp::Atomic {
                ctx,
                dest,
                key,
                at,
                op,
                num,
                ref values,
                completion,
                fence,
            } => {
                let operand = Buf::copy(self.alloc, values.as_slice())?;
                let flags = Flags {
                    completion,
                    level: Level::Delivery,
                    fence,
                };
                self.atomic(ctx, dest, key, at, op, num, &operand, flags)
            }
            LineOp::Fetch {
                ctx,
                dest,
                key,
                at,
                op,
                num,
                ref values,
                count,
            } => {
                let operand = Buf::copy(self.alloc, values.as_slice())?;
                let buf = Buf::zeros(self.alloc, fetched(num, &operand, count))?;
                self.fetch(ctx, dest, key, at, op, num, &operand, buf)
            }
            LineOp::Compare {
                ctx,
                dest,
                key,
                at,
                op,
                num,
                ref values,
                ref compares,
            } => {
                let operand = Buf::copy(self.alloc, values.as_slice())?;
                let other = Buf::copy(self.alloc, compares.as_slice())?;
                let buf = Buf::zeros(self.alloc, operand.as_slice().len() as u64)?;
                self.compare(ctx, dest, key, at, op, num, &operand, &other, buf)
            }
            _ => unreachable!(),
        }
    }
}
