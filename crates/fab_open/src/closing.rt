//! An endpoint is closed.
ghost use Rattle.std.specs.Prelude.{◌≡◌};

use crate::opening::Endpoint;
use fab_av::Av;
use fab_ep::seats;
use fab_face::calls::Sees;
use fab_link::Port;
use fab_mr::Regions;

/// What an endpoint that was closed gives back.
#[derive(Drop)]
pub struct Closed<P: Port> {
    /// Its port, with what was posted and taken.
    pub port: P,
    /// The addresses of its peers.
    pub av: Av,
    /// The regions that are still registered, with their bytes.
    pub regions: Regions,
}

/// Closes an endpoint (fi_close of fi_endpoint(3)). Its port, its address vector and its regions come back, and all
/// else is given up: buffers of unfinished operations and unread completions are dropped. It takes no memory.
pub fn close<P: Port>(endpoint: Endpoint<P>) -> Closed<P>
    ensures port { result.port ≡ endpoint.port }
    ensures av { result.av.indices ≡ endpoint.held.state.av }
    ensures peers { result.av.peers ≡ P.peer_count endpoint.port }
    ensures regions { result.regions ≡ endpoint.held.state.regions }
{
    endpoint.known();
    let seats::Closed { port, core } = endpoint.close();
    let (av, regions) = core.into_parts();
    Closed { port, av, regions }
}
