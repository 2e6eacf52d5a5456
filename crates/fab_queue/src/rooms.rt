//! The memory that gathering takes, before it changes anything.
ghost use Rattle.std.specs.Prelude.{◌≡◌, ℕ, ◌<◌, map, IfOk, Some, slice_get};
ghost use Rattle.fab_queue.specs.Ports.{Queued, peers_of, IsSound};
ghost use Rattle.fab_queue.specs.Gather.{posted_end, taken_end_of, Succeeds, AreSuccessors, AreAll, IsRoom, AreRooms, AreAllRooms};

use crate::inlet::Inlet;
use crate::outlet::Outlet;
use crate::port::QueuePort;
use fab_base::{Frame, FrameHead, NoMemory};
use fab_link::PlainPort;
use std::alloc::Global;
use std::sync::Wait;

/// The heads of the last frames posted, by peer.
fn posted_ends(alloc: Global, outs: &[Outlet]) -> Result<Vec<Option<FrameHead>>, NoMemory>
    ensures { IfOk result (λ v. v.items ≡ map posted_end outs.now) }
{
    let mut ends = Vec::with_capacity(alloc, outs.len())?;
    for outlet in outs {
        ends.push(outlet.last_posted())?;
    }
    Ok(ends)
}

/// The heads of the last frames taken, by peer.
fn taken_ends(alloc: Global, ins: &[Inlet]) -> Result<Vec<Option<FrameHead>>, NoMemory>
    ensures { IfOk result (λ v. v.items ≡ map taken_end_of ins.now) }
{
    let mut ends = Vec::with_capacity(alloc, ins.len())?;
    for inlet in ins {
        ends.push(inlet.last_taken())?;
    }
    Ok(ends)
}

impl<R: Wait + Copy> QueuePort<R> {
    /// A plain port that goes on where this one ended.
    fn successor(&self, alloc: Global) -> Result<PlainPort, NoMemory>
        ensures { IfOk result (λ q. Succeeds self.now q × IsSound self.now) }
    {
        let posted = posted_ends(alloc, self.outs.as_slice())?;
        let taken = taken_ends(alloc, self.ins.as_slice())?;
        PlainPort::new_after(
            alloc,
            self.me,
            self.outs.len() as u32,
            posted.as_slice(),
            taken.as_slice(),
        )
    }

    /// Room for all that may be inside the lane to a peer, and for a frame that is lent.
    fn room_to(&self, alloc: Global, dest: u32) -> Result<Vec<Frame>, NoMemory>
        requires { dest < peers_of self.now }
        ensures { IfOk result (IsRoom self.now dest) }
    {
        let count = self.outs[dest as usize].room() + 1;
        Ok(Vec::with_capacity(alloc, count)?)
    }
}

/// For each port a plain port that goes on where it ended.
pub(crate) fn successors<R: Wait + Copy>(
    alloc: Global,
    ports: &[QueuePort<R>],
) -> Result<Vec<PlainPort>, NoMemory>
    ensures { IfOk result (λ v. AreSuccessors ports.now v.items) }
{
    let mut all = Vec::with_capacity(alloc, ports.len())?;
    for port in ports {
        let plain = port.successor(alloc)?;
        all.push(plain)?;
    }
    Ok(all)
}

/// Room for what is inside each lane to one peer, by source.
fn rooms_to<R: Wait + Copy>(
    alloc: Global,
    ports: &[QueuePort<R>],
    reader: u32,
) -> Result<Vec<Vec<Frame>>, NoMemory>
    requires { (s : ℕ) (p : Queued) → slice_get ports.now s ≡ Some p → reader < peers_of p }
    ensures { IfOk result (λ v. AreRooms ports.now reader v.items) }
{
    let mut rooms = Vec::with_capacity(alloc, ports.len())?;
    for source in ports {
        let room = source.room_to(alloc, reader)?;
        rooms.push(room)?;
    }
    Ok(rooms)
}

/// Room for what is inside all lanes, by reader.
pub(crate) fn rooms<R: Wait + Copy>(
    alloc: Global,
    ports: &[QueuePort<R>],
) -> Result<Vec<Vec<Vec<Frame>>>, NoMemory>
    requires { AreAll ports.now }
    ensures { IfOk result (λ v. AreAllRooms ports.now v.items) }
{
    let mut all = Vec::with_capacity(alloc, ports.len())?;
    for reader in ports {
        let rooms = rooms_to(alloc, ports, reader.number())?;
        all.push(rooms)?;
    }
    Ok(all)
}
