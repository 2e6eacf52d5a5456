//! Ports gathered into plain ports.
ghost use Rattle.std.specs.Prelude.{◌≡◌, map, length, IfErr, IfOk, OnOk, IsTrue};
ghost use Rattle.fab_link.specs.Merged.{merges};
ghost use Rattle.fab_queue.specs.Ports.{moves_of};
ghost use Rattle.fab_queue.specs.Gather.{AreAll, AreApart, Gathered};

use crate::emptying::receive_all;
use crate::inlet::Inlet;
use crate::laying::no_lists;
use crate::outlet::Outlet;
use crate::port::QueuePort;
use crate::rooms::{rooms, successors};
use fab_link::PlainPort;
use std::alloc::Global;
use std::sync::Wait;

/// Ports that were not gathered, for want of memory. They are as they were.
#[derive(Drop)]
pub struct QueuesRefused<R: Wait + Copy> {
    pub ports: Vec<QueuePort<R>>,
}

/// The ends of all ports, each port's in the place of its number.
fn take_apart<R: Wait + Copy>(
    mut ports: Vec<QueuePort<R>>,
    outs: &mut [Vec<Outlet>],
    ins: &mut [Vec<Inlet>],
)
    requires { (length outs.old ≡ length ports.items) × (length ins.old ≡ length ports.items) }
    ensures { AreApart ports.items outs.new ins.new 0 }
{
    while let Some(port) = ports.pop() {
        let place = ports.len();
        let QueuePort {
            outs: own_outs,
            ins: own_ins,
            ..
        } = port;
        outs[place] = own_outs;
        ins[place] = own_ins;
    }
}

/// Makes plain ports of the ports of all peers of one [`Queues`](crate::Queues), in order of their numbers. Each goes
/// on behind the last frames that its port posted and took, and the frames on their way to it are those that came.
/// All memory is taken first.
pub fn gather<R: Wait + Copy>(
    alloc: Global,
    ports: Vec<QueuePort<R>>,
) -> Result<Vec<PlainPort>, QueuesRefused<R>>
    requires { AreAll ports.items }
    ensures refused { IfErr result (λ e. e.ports.items ≡ ports.items) }
    ensures gathered { IfOk result (λ v. Gathered ports.items v.items) }

    // The posts and takes of all ports stand in one order.
    ensures merged { OnOk result (IsTrue (merges (map moves_of ports.items))) }
{
    let Ok(mut plain) = successors(alloc, ports.as_slice()) else {
        return Err(QueuesRefused { ports });
    };
    let Ok(rooms) = rooms(alloc, ports.as_slice()) else {
        return Err(QueuesRefused { ports });
    };
    let Ok(mut outs) = no_lists::<Outlet>(alloc, ports.len() as u32) else {
        return Err(QueuesRefused { ports });
    };
    let Ok(mut ins) = no_lists::<Inlet>(alloc, ports.len() as u32) else {
        return Err(QueuesRefused { ports });
    };
    let rt = ports[0].rt;
    take_apart(ports, outs.as_mut_slice(), ins.as_mut_slice());
    receive_all(&rt, outs.as_mut_slice(), ins, rooms, plain.as_mut_slice());
    Ok(plain)
}
