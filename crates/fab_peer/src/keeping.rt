//! The lines on a peer's own counters and addresses (fi_cntr(3), fi_av(3)).
ghost use Rattle.std.specs.Prelude.{◌≡◌, [], true, IfOk, IfSome, Some, OnErr};
ghost use Rattle.fab_base.specs.declared.script.LineOp.TheVariants.{Insert, Remove, Count, Reach};

use crate::calls::LineCalls;
use crate::peer::{Outcome, Peer};
use fab_base::{Class, LineOp, LineResult, NoMemory, Text};

impl<E: LineCalls> Peer<E> {
    ghost use Rattle.fab_peer.specs.Kinds.{is_own};
    ghost use Rattle.fab_peer.specs.Left.{Left};
    ghost use Rattle.fab_peer.specs.Turns.{told, next_op, WentOn};

    /// The line `count`.
    fn count(&mut self, class: Class) -> Result<Outcome, NoMemory>
        requires log { (E.seen self.old.endpoint).log ≡ [] }
        requires next { next_op (told E.seen self.old) ≡ Some (Count class) }
        ensures on { IfOk result (λ o. WentOn (told E.seen self.old) (told E.seen self.new) o.done o.moved) }
        ensures left { OnErr result (Left (told E.seen self.old) (told E.seen self.new)) }
    {
        let ok = self.endpoint.cntr_read(class);
        let err = self.endpoint.cntr_readerr(class);
        self.noted(LineResult::Count { ok, err })
    }

    /// The line `reach`.
    fn reach(&mut self, class: Class, n: u64) -> Result<Outcome, NoMemory>
        requires log { (E.seen self.old.endpoint).log ≡ [] }
        requires next { next_op (told E.seen self.old) ≡ Some (Reach class n) }
        ensures on { IfOk result (λ o. WentOn (told E.seen self.old) (told E.seen self.new) o.done o.moved) }
        ensures left { OnErr result (Left (told E.seen self.old) (told E.seen self.new)) }
    {
        if !self.endpoint.cntr_reached(class, n) {
            return Ok(Outcome {
                done: false,
                moved: false,
            });
        }
        self.noted(LineResult::Done)
    }

    /// The line `insert`.
    fn insert(&mut self, name: Text) -> Result<Outcome, NoMemory>
        requires log { (E.seen self.old.endpoint).log ≡ [] }
        requires next { next_op (told E.seen self.old) ≡ Some (Insert name) }
        ensures on { IfOk result (λ o. WentOn (told E.seen self.old) (told E.seen self.new) o.done o.moved) }
        ensures left { OnErr result (Left (told E.seen self.old) (told E.seen self.new)) }
    {
        let names = [name];
        let report = self.endpoint.insert(&names)?;
        let index = report.indices.as_slice().first().copied().flatten();
        self.noted(LineResult::Index(index))
    }

    /// The line `remove`.
    fn remove(&mut self, index: u32) -> Result<Outcome, NoMemory>
        requires log { (E.seen self.old.endpoint).log ≡ [] }
        requires next { next_op (told E.seen self.old) ≡ Some (Remove index) }
        ensures on { IfOk result (λ o. WentOn (told E.seen self.old) (told E.seen self.new) o.done o.moved) }
        ensures left { OnErr result (Left (told E.seen self.old) (told E.seen self.new)) }
    {
        let answer = self.endpoint.remove(index);
        self.settled(answer)
    }

    /// Does the next line, which is one on counters or addresses, if there is one.
    pub(crate) fn do_keeping(&mut self) -> Result<Outcome, NoMemory>
        requires log { (E.seen self.old.endpoint).log ≡ [] }
        requires kind { IfSome (next_op (told E.seen self.old)) (λ op. is_own op ≡ true) }
        ensures on { IfOk result (λ o. WentOn (told E.seen self.old) (told E.seen self.new) o.done o.moved) }
        ensures left { OnErr result (Left (told E.seen self.old) (told E.seen self.new)) }
    {
        let Some(line) = self.lines.as_slice().get(self.results.len()) else {
            return Ok(Outcome {
                done: false,
                moved: false,
            });
        };
        match line.op {
            LineOp::Count { class } => self.count(class),
            LineOp::Reach { class, n } => self.reach(class, n),
            LineOp::Insert { ref name } => {
                let name = Text::copy(self.alloc, name.as_str())?;
                self.insert(name)
            }
            LineOp::Remove { index } => self.remove(index),
            _ => unreachable!(),
        }
    }
}
