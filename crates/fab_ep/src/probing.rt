//! A direct probe, and who the endpoint is.
use crate::endpoint::Endpoint;
use fab_base::Fault;
use fab_face::machine::Machine;
use fab_face::probing::{Places, Probed, Probes, Probing};
use fab_link::Port;

impl<P: Port, C: Probing> Probes for Endpoint<P, C> {
    fn probe(&self, source: Option<u32>, tag: u64, ignore: u64) -> Result<Option<Probed>, Fault> {
        self.core.probe(source, tag, ignore)
    }

    fn is_directed(&self) -> bool {
        self.core.is_directed()
    }
}

impl<P: Port, C: Machine> Places for Endpoint<P, C> {
    fn me(&self) -> u32 {
        self.port.me()
    }

    fn peers(&self) -> u32 {
        self.port.peers()
    }
}
