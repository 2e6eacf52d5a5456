//! Buffers for many untagged messages (FI_MULTI_RECV of fi_msg(3)). None of these calls takes memory.
use crate::endpoint::Endpoint;
use fab_base::{Buf, Refused};
use fab_face::calls::Multis;
use fab_face::multis::{MultiAsk, MultiReceiving};
use fab_link::Port;

impl<P: Port, C: MultiReceiving> Multis for Endpoint<P, C> {
    fn sharing(&self) {
        self.core.sharing();
    }

    fn recv_multi(
        &mut self,
        source: Option<u32>,
        buf: Buf,
        least: u32,
        ctx: u64,
    ) -> Result<(), Refused> {
        let ask = MultiAsk { source, least, ctx };
        if let Some(why) = self.core.multi_fault(&ask, &buf) {
            return Err(Refused { why, buf });
        }
        if let Err(why) = self.draw_before() {
            return Err(Refused { why, buf });
        }
        self.core.known();
        self.core.post_multi(&ask, buf)?;
        self.log_received();
        Ok(())
    }

    fn multi_bytes(&self, ctx: u64, at: u32, len: u32) -> Option<&[u8]> {
        self.core.multi_bytes(ctx, at, len)
    }
}
