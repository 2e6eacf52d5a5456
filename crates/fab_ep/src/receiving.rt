//! Receives (fi_msg(3), fi_tagged(3)). None of these calls takes memory.
ghost use Rattle.std.specs.Prelude.{◌≡◌, ◌≤◌, ◌+◌, ◌∷◌, [], length, Some, None, IfErr, OnOk};
ghost use Rattle.fab_face.specs.Answers.{Receives, ReceivesNot};
ghost use Rattle.fab_face.specs.Machine.{asking, cancelling};
ghost use Rattle.fab_ep.specs.Value.{seen};

use crate::endpoint::Endpoint;
use fab_base::{Buf, Fault, Refused};
use fab_face::calls::Receives;
use fab_face::machine::{Ask, Machine};
use fab_link::Port;

impl<P: Port, C: Machine> Endpoint<P, C> {
    /// Posts a receive, or gives it the first unexpected message that matches.
    fn post(&mut self, ask: &Ask, buf: Buf) -> Result<(), Refused>
        ensures ok { OnOk result (Receives (asking ask.now buf) (seen P.Port self.old) (seen P.Port self.new)) }
        ensures err { IfErr result (λ r. (r.buf ≡ buf) × ReceivesNot (asking ask.now buf) (seen P.Port self.old) (seen P.Port self.new) r.why) }
    {
        if let Some(why) = self.core.post_fault(ask, &buf) {
            return Err(Refused { why, buf });
        }
        if let Err(why) = self.draw_before() {
            return Err(Refused { why, buf });
        }
        self.core.known();
        self.core.post(ask, buf)?;
        self.log_received();
        Ok(())
    }

    /// Cancels the first posted receive that may be cancelled: of the context, or of any where none is given.
    fn cancel_one(&mut self, ctx: Option<u64>) -> Result<(), Fault>
        ensures ok { OnOk result (Receives (cancelling ctx) (seen P.Port self.old) (seen P.Port self.new)) }
        ensures err { IfErr result (λ why. ReceivesNot (cancelling ctx) (seen P.Port self.old) (seen P.Port self.new) why) }
    {
        let ready = self.draw_before();
        if !self.core.may_cancel(ctx) {
            return Err(Fault::NoEntry);
        }
        ready?;
        self.core.known();
        self.core.cancel(ctx)?;
        self.log_received();
        Ok(())
    }
}

impl<P: Port, C: Machine> Receives for Endpoint<P, C> {
    fn recv(&mut self, source: Option<u32>, buf: Buf, ctx: u64) -> Result<(), Refused> {
        let ask = Ask {
            tagged: false,
            source,
            tag: 0,
            ignore: 0,
            ctx,
        };
        self.post(&ask, buf)
    }

    fn trecv(
        &mut self,
        source: Option<u32>,
        tag: u64,
        ignore: u64,
        buf: Buf,
        ctx: u64,
    ) -> Result<(), Refused> {
        let ask = Ask {
            tagged: true,
            source,
            tag,
            ignore,
            ctx,
        };
        self.post(&ask, buf)
    }

    fn cancel(&mut self, ctx: u64) -> Result<(), Fault> {
        self.cancel_one(Some(ctx))
    }

    fn cancel_first(&mut self) -> Result<(), Fault> {
        self.cancel_one(None)
    }
}
