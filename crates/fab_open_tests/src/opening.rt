//! New endpoints. One over a plain port is named here, where it is closed, and where a test says of which endpoint it is.
ghost use Rattle.std.specs.Prelude.{IfSome};
ghost use Rattle.fab_open_tests.specs.Came.{IsNew, IsNewOver, IsReady};

use fab_av::Av;
use fab_base::{Api, Caps, Hints, Info};
use fab_face::calls::Sees;
use fab_info::getinfo;
use fab_link::PlainPort;
use fab_open::{Endpoint, open};
use std::alloc::Global;

/// All that is on offer, for so many peers.
pub fn offered(peers: u32) -> Option<Info> {
    let hints = Hints {
        caps: Caps::none(),
        peers: Some(peers),
        lane: None,
        pool: None,
        tx: None,
        rx: None,
        cq: None,
        log: None,
        inject: None,
        message: None,
    };
    getinfo(Api::One, Some(&hints)).ok()
}

/// The port of this peer, one of so many.
#[tactic(auto, using(crate::proofs::Ports::ready_made))]
pub fn new_port(alloc: Global, number: u32, peers: u32) -> Option<PlainPort>
    ensures { IfSome result (λ p. IsReady peers p) }
{
    match PlainPort::new(alloc, number, peers) {
        Ok(port) => Some(port),
        Err(_) => None,
    }
}

/// The endpoint over this port.
fn open_over(alloc: Global, port: PlainPort, info: &Info, av: Av) -> Option<Endpoint<PlainPort>>
    requires { IsReady av.peers port }
    ensures { IfSome result (λ e. IsNewOver av.peers e) }
{
    match open(alloc, port, av, info, false) {
        Ok(endpoint) => Some(endpoint),
        Err(_) => None,
    }
}

/// The endpoint of this peer, one of so many, with all that is on offer.
fn opened(alloc: Global, number: u32, peers: u32) -> Option<Endpoint<PlainPort>>
    ensures { IfSome result (λ e. IsNewOver peers e) }
{
    let info = offered(peers)?;
    let port = new_port(alloc, number, peers)?;
    let av = Av::all(alloc, peers).ok()?;
    open_over(alloc, port, &info, av)
}

/// An endpoint that can be opened.
pub trait Fresh: Sees {
    /// The endpoint of this peer, one of so many, to which nothing came.
    fn fresh(alloc: Global, number: u32, peers: u32) -> Option<Self>
        ensures { IfSome result (λ e. IsNew peers (Self.seen e)) };
}

impl Fresh for Endpoint<PlainPort> {
    fn fresh(alloc: Global, number: u32, peers: u32) -> Option<Endpoint<PlainPort>> {
        opened(alloc, number, peers)
    }
}
