//! Memory regions of an endpoint, which other peers reach (fi_mr(3)).
use crate::endpoint::Endpoint;
use fab_base::{Access, Buf, Fault, Refused};
use fab_face::calls::Regions;
use fab_face::targets::Targets;
use fab_link::Port;

impl<P: Port, C: Targets> Regions for Endpoint<P, C> {
    fn reg(&mut self, key: u64, access: Access, buf: Buf) -> Result<(), Refused> {
        self.core.reg(key, access, buf)
    }

    fn close_region(&mut self, key: u64) -> Result<Buf, Fault> {
        self.core.close_region(key)
    }

    fn region_bytes(&self, key: u64) -> Option<&[u8]> {
        self.core.region_bytes(key)
    }

    fn put(&mut self, key: u64, at: u64, src: &[u8]) -> Result<(), Fault> {
        self.core.put(key, at, src)
    }
}
