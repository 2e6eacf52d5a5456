//! A core is a machine that has buffers for many messages.
ghost use Rattle.fab_core.specs.Parts.{held_of};

use crate::parts::Core;
use fab_base::{Buf, Fault, Refused};
use fab_face::multis::{MultiAsk, MultiReceiving};
use fab_match::Matcher;
use fab_settling::receives::part_of;

impl<M: Matcher> MultiReceiving for Core<M> {
    fn sharing(&self) {
        let _ = &self.multis;
    }

    fn multi_fault(&self, ask: &MultiAsk, buf: &Buf) -> Option<Fault> {
        self.share_fault(ask, buf)
    }

    fn post_multi(&mut self, ask: &MultiAsk, buf: Buf) -> Result<(), Refused> {
        self.rx.known();
        self.cq.known();
        self.share(ask, buf)
    }

    fn multi_bytes(&self, ctx: u64, at: u32, len: u32) -> Option<&[u8]> {
        let Some(bytes) = self.multi_buffer(ctx) else {
            return None;
        };
        part_of(bytes, at, len)
    }
}
