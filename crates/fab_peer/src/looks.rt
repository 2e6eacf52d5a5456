//! The lines that look at unexpected messages, and those on claimed ones (fi_tagged(3)).
ghost use Rattle.std.specs.Prelude.{◌≡◌, [], true, OnOk, IfOk, IfErr, IfSome, Some, OnErr};
ghost use Rattle.fab_base.specs.declared.script.LineOp.TheVariants.{Take, DropClaimed};
ghost use Rattle.fab_model.specs.Calls.{Look};
ghost use Rattle.fab_face.specs.Answers.{Receives, ReceivesNot};
ghost use Rattle.fab_peer.specs.Looks.{look_line};

use crate::calls::LineCalls;
use crate::peer::{Outcome, Peer, why_of};
use fab_base::{Buf, Fault, LineOp, NoMemory, PeekHow};
use fab_face::calls::Looks;

/// Looks for an unexpected message, claims it or discards it.
fn look_by<E: Looks>(
    endpoint: &mut E,
    how: PeekHow,
    source: Option<u32>,
    tag: u64,
    ignore: u64,
    ctx: u64,
) -> Result<(), Fault>
    ensures ok { OnOk result (Receives (Look how source tag ignore ctx) (E.seen endpoint.old) (E.seen endpoint.new)) }
    ensures err { IfErr result (λ why. ReceivesNot (Look how source tag ignore ctx) (E.seen endpoint.old) (E.seen endpoint.new) why) }
{
    match how {
        PeekHow::Peek => endpoint.peek(source, tag, ignore, ctx),
        PeekHow::Claim => endpoint.claim(source, tag, ignore, ctx),
        PeekHow::Discard => endpoint.discard(source, tag, ignore, ctx),
    }
}

impl<E: LineCalls> Peer<E> {
    ghost use Rattle.fab_peer.specs.Kinds.{is_look};
    ghost use Rattle.fab_peer.specs.Left.{Left};
    ghost use Rattle.fab_peer.specs.Turns.{told, next_op, WentOn};

    /// The line `peek`, `claim` or `discard`.
    fn look(
        &mut self,
        how: PeekHow,
        ctx: u64,
        source: Option<u32>,
        tag: u64,
        ignore: u64,
    ) -> Result<Outcome, NoMemory>
        requires log { (E.seen self.old.endpoint).log ≡ [] }
        requires next { next_op (told E.seen self.old) ≡ Some (look_line how ctx source tag ignore) }
        ensures on { IfOk result (λ o. WentOn (told E.seen self.old) (told E.seen self.new) o.done o.moved) }
        ensures left { OnErr result (Left (told E.seen self.old) (told E.seen self.new)) }
    {
        self.endpoint.known();
        let answer = look_by(&mut self.endpoint, how, source, tag, ignore, ctx);
        self.endpoint.known();
        self.received(answer)
    }

    /// The line `take`.
    fn take(&mut self, ctx: u64, len: u32) -> Result<Outcome, NoMemory>
        requires log { (E.seen self.old.endpoint).log ≡ [] }
        requires next { next_op (told E.seen self.old) ≡ Some (Take ctx len) }
        ensures on { IfOk result (λ o. WentOn (told E.seen self.old) (told E.seen self.new) o.done o.moved) }
        ensures left { OnErr result (Left (told E.seen self.old) (told E.seen self.new)) }
    {
        let buf = self.spare.zeros(len as u64)?;
        self.endpoint.known();
        let answer = self.endpoint.take(buf, ctx);
        self.endpoint.known();
        let why = why_of(answer);
        self.received(why)
    }

    /// The line `drop`.
    fn drop_claimed(&mut self, ctx: u64) -> Result<Outcome, NoMemory>
        requires log { (E.seen self.old.endpoint).log ≡ [] }
        requires next { next_op (told E.seen self.old) ≡ Some (DropClaimed ctx) }
        ensures on { IfOk result (λ o. WentOn (told E.seen self.old) (told E.seen self.new) o.done o.moved) }
        ensures left { OnErr result (Left (told E.seen self.old) (told E.seen self.new)) }
    {
        self.endpoint.known();
        let answer = self.endpoint.drop_claimed(ctx);
        self.endpoint.known();
        self.received(answer)
    }

    /// Does the next line, which is one on unexpected or claimed messages, if there is one.
    pub(crate) fn do_look(&mut self) -> Result<Outcome, NoMemory>
        requires log { (E.seen self.old.endpoint).log ≡ [] }
        requires kind { IfSome (next_op (told E.seen self.old)) (λ op. is_look op ≡ true) }
        ensures on { IfOk result (λ o. WentOn (told E.seen self.old) (told E.seen self.new) o.done o.moved) }
        ensures left { OnErr result (Left (told E.seen self.old) (told E.seen self.new)) }
    {
        let Some(line) = self.lines.as_slice().get(self.results.len()) else {
            return Ok(Outcome {
                done: false,
                moved: false,
            });
        };
        match line.op {
            LineOp::Peek {
                ctx,
                source,
                tag,
                ignore,
            } => self.look(PeekHow::Peek, ctx, source, tag, ignore),
            LineOp::Claim {
                ctx,
                source,
                tag,
                ignore,
            } => self.look(PeekHow::Claim, ctx, source, tag, ignore),
            LineOp::Discard {
                ctx,
                source,
                tag,
                ignore,
            } => self.look(PeekHow::Discard, ctx, source, tag, ignore),
            LineOp::Take { ctx, len } => self.take(ctx, len),
            LineOp::DropClaimed { ctx } => self.drop_claimed(ctx),
            _ => unreachable!(),
        }
    }
}
