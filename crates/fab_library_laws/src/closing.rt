//! The end of a program: its endpoints are closed, their ports are gathered, and the laws hold of all that its threads did.
ghost use Rattle.std.specs.Prelude.{◌≡◌, Bool, List, map, IfErr, IfOk, OnOk};
ghost use Rattle.std.specs.List.{All};
ghost use Rattle.fab_base.specs.declared.caps.Info.{Info};
ghost use Rattle.fab_face.specs.Held.{IsOpen};
ghost use Rattle.fab_ep.specs.Value.{Whole};
ghost use Rattle.fab_ring.specs.declared.port.RingPort.{RingPort as Port};
ghost use Rattle.fab_ring.specs.Gather.{Gathered};
ghost use Rattle.fab_domain.specs.Domain.{port_of};
ghost use Rattle.fab_domain.specs.Seen.{ring_seen};
ghost use Rattle.fab_library_laws.specs.Closing.{AreLeft, HandsBack, endpoints_of};
ghost use Rattle.fab_library_laws.specs.Library.{IsLibraryRun, Thread};

use crate::law_library;
use fab_app::endpoint::Endpoint;
use fab_domain::RingEndpoint;
use fab_face::calls::Sees;
use fab_link::PlainPort;
use fab_ring::{RingPort, gather};
use std::alloc::Global;

/// What is handed back where memory lacks: the endpoints, as they were, or else their ports, as the endpoints left them.
#[derive(Drop)]
pub struct Unclosed {
    pub endpoints: Vec<Endpoint<RingEndpoint>>,
    pub ports: Vec<RingPort>,
}

/// Closes endpoints, and gives their ports, in order. Memory is taken first.
fn close_each(
    alloc: Global,
    endpoints: Vec<Endpoint<RingEndpoint>>,
) -> Result<Vec<RingPort>, Vec<Endpoint<RingEndpoint>>>
    ensures ports { IfOk result (λ ports. ports.items ≡ map port_of endpoints.items) }
    ensures known { OnOk result (All (λ e. IsOpen (ring_seen e)) endpoints.items) }
    ensures refused { IfErr result (λ back. back.items ≡ endpoints.items) }
{
    let Ok(mut ports) = Vec::with_capacity(alloc, endpoints.len()) else {
        return Err(endpoints);
    };
    'endpoints: for endpoint in endpoints {
        let inner = endpoint.into_inner();
        inner.known();
        ports.push_reserved(inner.close().port);
    }
    Ok(ports)
}

/// Closes the application's endpoints of all peers as their threads left them (fi_close(3)), and gathers their ports: each frame on its way is in
/// the port of its receiver.
///
/// Given the record that each thread kept of its calls, in order of the endpoints: all of this was done in some order of turns of the
/// program's machine, and each law of `fab_laws` holds of it. Want of memory hands the endpoints back, or their ports.
pub fn close_all(
    alloc: Global,
    endpoints: Vec<Endpoint<RingEndpoint>>,
) -> Result<Vec<PlainPort>, Unclosed>
    requires { (info : Info) × (selective : Bool) × (all : List (Whole Port)) × (threads : List Thread) × AreLeft info selective all threads × (endpoints_of threads ≡ endpoints.items) }
    ensures lawful { (info : Info) (selective : Bool) (all : List (Whole Port)) (threads : List Thread) → AreLeft info selective all threads → endpoints_of threads ≡ endpoints.items → OnOk result (IsLibraryRun all threads) }
    ensures gathered { IfOk result (λ plain. Gathered (map port_of endpoints.items) plain.items) }
    ensures refused { IfErr result (λ back. HandsBack endpoints.items back.endpoints.items back.ports.items) }
{
    law_library();
    let ports = match close_each(alloc, endpoints) {
        Ok(ports) => ports,
        Err(endpoints) => {
            let ports = Vec::new(alloc);
            return Err(Unclosed { endpoints, ports });
        }
    };
    match gather(alloc, ports) {
        Ok(plain) => Ok(plain),
        Err(refused) => {
            let endpoints = Vec::new(alloc);
            let ports = refused.ports;
            Err(Unclosed { endpoints, ports })
        }
    }
}
