//! The regions of a core, as their owner calls them (fi_mr(3)).
use crate::parts::Core;
use fab_base::{Access, Buf, Fault, Refused};
use fab_face::targets::Targets;
use fab_match::Matcher;
use fab_settling::granted::lacks;

impl<M: Matcher> Targets for Core<M> {
    fn reg(&mut self, key: u64, access: Access, buf: Buf) -> Result<(), Refused> {
        if lacks(&self.caps, access) {
            return Err(Refused {
                why: Fault::NotSupported,
                buf,
            });
        }
        self.target.reg(key, access, buf)
    }

    fn close_region(&mut self, key: u64) -> Result<Buf, Fault> {
        self.target.close(key)
    }

    fn region_bytes(&self, key: u64) -> Option<&[u8]> {
        self.target.bytes(key)
    }

    fn put(&mut self, key: u64, at: u64, src: &[u8]) -> Result<(), Fault> {
        self.target.put(key, at, src)
    }
}
