//! A core is a machine whose unexpected messages may be looked at and set aside.
use crate::parts::Core;
use fab_base::{Buf, Fault, Refused};
use fab_face::looking::{Look, Looking};
use fab_match::Matcher;

impl<M: Matcher> Looking for Core<M> {
    fn look_fault(&self, look: &Look) -> Option<Fault> {
        self.rx.known();
        self.cq.known();
        self.seek_fault(look)
    }

    fn look(&mut self, look: &Look) -> Result<(), Fault> {
        self.rx.known();
        self.cq.known();
        self.seek(look)
    }

    fn take_fault(&self, buf: &Buf, ctx: u64) -> Option<Fault> {
        self.rx.known();
        self.cq.known();
        self.claimed_fault(buf.as_slice().len(), ctx)
    }

    fn take_claimed(&mut self, buf: Buf, ctx: u64) -> Result<(), Refused> {
        self.rx.known();
        self.cq.known();
        self.take_aside(buf, ctx)
    }

    fn drop_fault(&self, ctx: u64) -> Option<Fault> {
        self.rx.known();
        self.cq.known();
        self.claimed_fault(0, ctx)
    }

    fn drop_claimed(&mut self, ctx: u64) -> Result<(), Fault> {
        self.rx.known();
        self.cq.known();
        self.drop_aside(ctx)
    }
}
