//! A whole program, at an example: its clause is the law, of all that its endpoints did.
ghost use Rattle.std.specs.Prelude.{◌≡◌, List, false, length, map, IfErr, IfOk};
ghost use Rattle.fab_face.specs.Ports.{is_granted};
ghost use Rattle.fab_ep.specs.Value.{Whole};
ghost use Rattle.fab_ring.specs.declared.port.RingPort.{RingPort as Port};
ghost use Rattle.fab_ring.specs.Gather.{Gathered};
ghost use Rattle.fab_domain.specs.Domain.{AreOpened, port_of};
ghost use Rattle.fab_open.specs.Opening.{why_not};
ghost use Rattle.fab_library_laws.specs.Exchanging.{AreExchanged, IsExchanged};

use crate::closing::close_all;
use fab_app::endpoint::hold_all;
use fab_base::{Buf, Fault, Info, NoMemory};
use fab_doings::exchange;
use fab_domain::{RingEndpoint, endpoints};
use fab_link::PlainPort;
use std::alloc::Global;

/// So many bytes have the messages.
const MESSAGE: u64 = 8;

/// Lets each peer in turn exchange a message with peer 0, as `exchange` does, whatever is refused.
fn each_exchanges(alloc: Global, endpoints: &mut Vec<RingEndpoint>) -> Result<(), NoMemory>
    ensures count { length endpoints.new.items ≡ length endpoints.old.items }
    ensures exchanged { AreExchanged endpoints.old.items endpoints.new.items }
{
    for me in 0..endpoints.len() {
        let room = Buf::zeros(alloc, MESSAGE)?;
        let bytes = Buf::zeros(alloc, MESSAGE)?;
        let _ = exchange(&mut endpoints[me], 0, me as u64, room, bytes);
    }
    Ok(())
}

/// Opens the endpoints of a domain, lets each peer in turn exchange a message with peer 0, and closes them.
///
/// `Invalid` exactly where a number of `info` is outside its limits; else it may answer `NoMemory`.
pub fn program(alloc: Global, info: &Info) -> Result<Vec<PlainPort>, Fault>
    ensures lawful { IfOk result (λ plain. (all : List (Whole Port)) × (left : List (Whole Port)) × AreOpened info.now false all × IsExchanged all left × Gathered (map port_of left) plain.items) }
    ensures why { IfErr result (λ why. why ≡ why_not (is_granted info.now info.now.peers)) }
{
    let mut all = endpoints(alloc, info, false)?;
    each_exchanges(alloc, &mut all)?;
    let held = hold_all(alloc, all)?;
    match close_all(alloc, held) {
        Ok(plain) => Ok(plain),
        Err(_) => Err(Fault::NoMemory),
    }
}
