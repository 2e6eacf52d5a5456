//! The lines on a peer's own regions (fi_mr(3)).
ghost use Rattle.std.specs.Prelude.{◌≡◌, [], true, IfOk, IfSome, Some, OnErr};
ghost use Rattle.fab_base.specs.declared.script.BytesWord.{BytesWord};
ghost use Rattle.fab_base.specs.declared.script.LineOp.TheVariants.{Reg, Close, Put, Show};
ghost use Rattle.fab_model.specs.Calls.{word_bytes};

use crate::calls::LineCalls;
use crate::peer::{Outcome, Peer, why_of};
use fab_base::{Access, Buf, Fault, LineOp, LineResult, NoMemory};

impl<E: LineCalls> Peer<E> {
    ghost use Rattle.fab_peer.specs.Kinds.{is_on_regions};
    ghost use Rattle.fab_peer.specs.Left.{Left};
    ghost use Rattle.fab_peer.specs.Turns.{told, next_op, WentOn};

    /// The line `reg`.
    fn reg(&mut self, key: u64, access: Access, buf: Buf) -> Result<Outcome, NoMemory>
        requires log { (E.seen self.old.endpoint).log ≡ [] }
        requires next { (word : BytesWord) × (next_op (told E.seen self.old) ≡ Some (Reg key access word)) × (buf ≡ word_bytes word) }
        ensures on { IfOk result (λ o. WentOn (told E.seen self.old) (told E.seen self.new) o.done o.moved) }
        ensures left { OnErr result (Left (told E.seen self.old) (told E.seen self.new)) }
    {
        let answer = self.endpoint.reg(key, access, buf);
        self.settled(why_of(answer))
    }

    /// The line `close`.
    fn close(&mut self, key: u64) -> Result<Outcome, NoMemory>
        requires log { (E.seen self.old.endpoint).log ≡ [] }
        requires next { next_op (told E.seen self.old) ≡ Some (Close key) }
        ensures on { IfOk result (λ o. WentOn (told E.seen self.old) (told E.seen self.new) o.done o.moved) }
        ensures left { OnErr result (Left (told E.seen self.old) (told E.seen self.new)) }
    {
        match self.endpoint.close_region(key) {
            Ok(bytes) => self.noted(LineResult::Bytes(bytes)),
            Err(why) => self.noted(LineResult::Refused(why)),
        }
    }

    /// The line `put`.
    fn put(&mut self, key: u64, at: u64, buf: &Buf) -> Result<Outcome, NoMemory>
        requires log { (E.seen self.old.endpoint).log ≡ [] }
        requires next { (word : BytesWord) × (next_op (told E.seen self.old) ≡ Some (Put key at word)) × (buf.now ≡ word_bytes word) }
        ensures on { IfOk result (λ o. WentOn (told E.seen self.old) (told E.seen self.new) o.done o.moved) }
        ensures left { OnErr result (Left (told E.seen self.old) (told E.seen self.new)) }
    {
        let answer = self.endpoint.put(key, at, buf.as_slice());
        self.settled(answer)
    }

    /// The line `show`.
    fn show(&mut self, key: u64) -> Result<Outcome, NoMemory>
        requires log { (E.seen self.old.endpoint).log ≡ [] }
        requires next { next_op (told E.seen self.old) ≡ Some (Show key) }
        ensures on { IfOk result (λ o. WentOn (told E.seen self.old) (told E.seen self.new) o.done o.moved) }
        ensures left { OnErr result (Left (told E.seen self.old) (told E.seen self.new)) }
    {
        let Some(bytes) = self.endpoint.region_bytes(key) else {
            return self.noted(LineResult::Refused(Fault::NoKey));
        };
        let bytes = Buf::copy(self.alloc, bytes)?;
        self.noted(LineResult::Bytes(bytes))
    }

    /// Does the next line, which is one on regions, if there is one.
    pub(crate) fn do_region(&mut self) -> Result<Outcome, NoMemory>
        requires log { (E.seen self.old.endpoint).log ≡ [] }
        requires kind { IfSome (next_op (told E.seen self.old)) (λ op. is_on_regions op ≡ true) }
        ensures on { IfOk result (λ o. WentOn (told E.seen self.old) (told E.seen self.new) o.done o.moved) }
        ensures left { OnErr result (Left (told E.seen self.old) (told E.seen self.new)) }
    {
        let Some(line) = self.lines.as_slice().get(self.results.len()) else {
            return Ok(Outcome {
                done: false,
                moved: false,
            });
        };
        match line.op {
            LineOp::Reg {
                key,
                access,
                ref bytes,
            } => {
                let buf = self.spare.word(bytes)?;
                self.reg(key, access, buf)
            }
            LineOp::Close { key } => self.close(key),
            LineOp::Put { key, at, ref bytes } => {
                let buf = self.spare.word(bytes)?;
                self.put(key, at, &buf)
            }
            LineOp::Show { key } => self.show(key),
            _ => unreachable!(),
        }
    }
}
