//! All endpoints of a domain are opened in one call, and an endpoint is closed.
ghost use Rattle.std.specs.Prelude.{◌≡◌, Some, IfOk, IfErr};
ghost use Rattle.fab_ring.specs.Ports.{peers_of};
ghost use Rattle.fab_domain.specs.Domain.{AreOpened, port_of};
ghost use Rattle.fabric.specs.Asking.{granted_to, WhyNot};

use crate::hints::Hints;
use fab_app::endpoint::{Endpoint as Held, hold_all};
use fab_base::{Fault, Info};
use fab_domain::{RingEndpoint, endpoints_that_sleep};
use fab_open::Closed as ClosedOver;
use fab_ring::RingPort;
use std::alloc::Global;

/// The endpoint of a peer. It may be moved to another thread. What its calls promise stands in `fab_app`.
pub type Endpoint = Held<RingEndpoint>;

/// What an endpoint that was closed gives back: its port, its addresses, and the regions that are still registered.
pub type Closed = ClosedOver<RingPort>;

/// What is granted, and an endpoint for each peer, in order of their numbers.
#[derive(Drop)]
pub struct Domain {
    pub info: Info,
    pub endpoints: Vec<Endpoint>,
}

impl Domain {
    /// What was granted to each of its endpoints (the fi_info of fi_getinfo(3)): the version, the capabilities, the number of
    /// peers, the sizes and the limits. It is copied: keep it beside an endpoint, in the endpoint's thread.
    pub fn info(&self) -> Info
        ensures granted { result ≡ self.now.info }
    {
        self.info
    }
}

/// Opens the endpoints of all peers over lanes in memory that they share (fi_getinfo, fi_fabric, fi_domain, fi_endpoint,
/// fi_av_insert, fi_cq_open, fi_ep_bind, fi_enable). Each has all peers in its address vector, each at the index of its
/// number.
///
/// `NoData` exactly where something asked for can't be had; else it may answer `NoMemory`, and nothing else.
#[tactic(auto, using(crate::proofs::Granting::opens))]
pub fn open(alloc: Global, hints: &Hints) -> Result<Domain, Fault>
    ensures granted { IfOk result (λ domain. granted_to hints.now ≡ Some domain.info) }
    ensures opened { IfOk result (λ domain. AreOpened domain.info hints.now.selective domain.endpoints.items) }
    ensures why { IfErr result (WhyNot hints.now) }
{
    let info = hints.granted()?;
    let all = endpoints_that_sleep(alloc, &info, hints.selective, hints.sleeping)?;
    let endpoints = hold_all(alloc, all)?;
    Ok(Domain { info, endpoints })
}

/// Closes an endpoint (fi_close of fi_endpoint(3)). Its addresses and its regions come back. Buffers of unfinished
/// operations and unread completions are dropped, and what is not transmitted is lost: `flush` before.
pub fn close(endpoint: Endpoint) -> Closed
    ensures port { result.port ≡ port_of endpoint }
    ensures av { result.av.indices ≡ endpoint.held.state.av }
    ensures peers { result.av.peers ≡ peers_of (port_of endpoint) }
    ensures regions { result.regions ≡ endpoint.held.state.regions }
{
    endpoint.into_inner().close()
}
