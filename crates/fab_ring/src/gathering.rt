//! Ports gathered into plain ports.
ghost use Rattle.std.specs.Prelude.{◌≡◌, map, IfErr, IfOk, OnOk, IsTrue};
ghost use Rattle.fab_link.specs.Merged.{merges};
ghost use Rattle.fab_table.specs.declared.lane_table.LaneTable.{LaneTable};
ghost use Rattle.fab_ring.specs.Ports.{moves_of};
ghost use Rattle.fab_ring.specs.Gather.{AreAll, AreOwed, Gathered};

use crate::emptying::receive_all;
use crate::joining::join_all;
use crate::port::RingPort;
use crate::rooms::{rooms, successors};
use fab_link::PlainPort;
use std::alloc::Global;

/// Ports that were not gathered, for want of memory. They are as they were.
#[derive(Drop)]
pub struct GatherRefused {
    pub ports: Vec<RingPort>,
}

/// Makes plain ports of the ports of all peers of one table, in order of their numbers. Each goes on behind
/// the last frames that its port posted and took, and the frames on their way to it are those that came.
/// All memory is taken first: a buffer of [`FRAME_BYTES`](fab_base::FRAME_BYTES) bytes for each frame on its way.
pub fn gather(alloc: Global, ports: Vec<RingPort>) -> Result<Vec<PlainPort>, GatherRefused>
    requires { (f : LaneTable) × AreAll f ports.items }
    ensures refused { IfErr result (λ e. e.ports.items ≡ ports.items) }
    ensures gathered { IfOk result (λ v. Gathered ports.items v.items) }

    // The posts and takes of all ports stand in one order.
    ensures merged { OnOk result (IsTrue (merges (map moves_of ports.items))) }

    // No reply is stray: each that a port began was owed, as the table's rule says (`law_lane_rule`).
    ensures repaid { OnOk result (AreOwed ports.items) }
{
    let Ok(mut plain) = successors(alloc, ports.as_slice()) else {
        return Err(GatherRefused { ports });
    };
    let Ok(rooms) = rooms(alloc, ports.as_slice()) else {
        return Err(GatherRefused { ports });
    };
    let (fabric, mut seat) = join_all(ports);
    fabric.learn(&mut seat);
    receive_all(&fabric, &mut seat, plain.as_mut_slice(), rooms);
    fabric.learn(&mut seat);
    Ok(plain)
}
