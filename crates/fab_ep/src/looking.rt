//! Unexpected messages looked at, and set aside (FI_PEEK, FI_CLAIM and FI_DISCARD of fi_tagged(3)). None of
//! these calls takes memory.
ghost use Rattle.std.specs.Prelude.{◌≡◌, IfErr, OnOk};
ghost use Rattle.fab_face.specs.Answers.{Receives, ReceivesNot};
ghost use Rattle.fab_face.specs.Looking.{looking};
ghost use Rattle.fab_ep.specs.Value.{seen};

use crate::endpoint::Endpoint;
use fab_base::{Buf, Fault, PeekHow, Refused};
use fab_face::calls::Looks;
use fab_face::looking::{Look, Looking};
use fab_link::Port;

impl<P: Port, C: Looking> Endpoint<P, C> {
    /// Looks for an unexpected message.
    fn look_for(&mut self, look: &Look) -> Result<(), Fault>
        ensures ok { OnOk result (Receives (looking look.now) (seen P.Port self.old) (seen P.Port self.new)) }
        ensures err { IfErr result (λ why. ReceivesNot (looking look.now) (seen P.Port self.old) (seen P.Port self.new) why) }
    {
        if let Some(why) = self.core.look_fault(look) {
            return Err(why);
        }
        self.draw_before()?;
        self.core.known();
        self.core.look(look)?;
        self.log_received();
        Ok(())
    }
}

impl<P: Port, C: Looking> Looks for Endpoint<P, C> {
    fn peek(&mut self, source: Option<u32>, tag: u64, ignore: u64, ctx: u64) -> Result<(), Fault> {
        let how = PeekHow::Peek;
        self.look_for(&Look {
            how,
            source,
            tag,
            ignore,
            ctx,
        })
    }

    fn claim(&mut self, source: Option<u32>, tag: u64, ignore: u64, ctx: u64) -> Result<(), Fault> {
        let how = PeekHow::Claim;
        self.look_for(&Look {
            how,
            source,
            tag,
            ignore,
            ctx,
        })
    }

    fn discard(
        &mut self,
        source: Option<u32>,
        tag: u64,
        ignore: u64,
        ctx: u64,
    ) -> Result<(), Fault> {
        let how = PeekHow::Discard;
        self.look_for(&Look {
            how,
            source,
            tag,
            ignore,
            ctx,
        })
    }

    fn take(&mut self, buf: Buf, ctx: u64) -> Result<(), Refused> {
        if let Some(why) = self.core.take_fault(&buf, ctx) {
            self.draw_unless_early(&why);
            return Err(Refused { why, buf });
        }
        if let Err(why) = self.draw_before() {
            return Err(Refused { why, buf });
        }
        self.core.known();
        self.core.take_claimed(buf, ctx)?;
        self.log_received();
        Ok(())
    }

    fn drop_claimed(&mut self, ctx: u64) -> Result<(), Fault> {
        if let Some(why) = self.core.drop_fault(ctx) {
            self.draw_unless_early(&why);
            return Err(why);
        }
        self.draw_before()?;
        self.core.known();
        self.core.drop_claimed(ctx)?;
        self.log_received();
        Ok(())
    }
}
