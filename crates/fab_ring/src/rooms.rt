//! The memory that gathering takes, before it changes anything.
ghost use Rattle.std.specs.Prelude.{◌≡◌, ℕ, ◌<◌, length, IfOk, Some, slice_get, option_to_list};
ghost use Rattle.fab_link.specs.Plain.{Plain, lane_at};
ghost use Rattle.fab_table.specs.declared.lane_table.LaneTable.{LaneTable};
ghost use Rattle.fab_ring.specs.declared.port.RingPort.{RingPort};
ghost use Rattle.fab_ring.specs.Ports.{number_of, peers_of, in_of};
ghost use Rattle.fab_ring.specs.Gather.{AreAll, Succeeds, AreSuccessors, IsRoom, AreRooms, AreAllRooms};

use crate::port::RingPort;
use crate::rings::buffers;
use fab_base::{Buf, Frame, NoMemory};
use fab_link::PlainPort;
use std::alloc::Global;

/// What is inside a lane: the frame that lies open at its reader, if any, and room for the others.
#[derive(Drop)]
pub(crate) struct Inside {
    /// How many frames are taken once that frame is.
    pub taken: u64,
    pub frames: Vec<Frame>,
    pub spares: Vec<Buf>,
}

impl RingPort {
    /// A plain port that goes on where this one ended.
    fn successor(&self, alloc: Global) -> Result<PlainPort, NoMemory>
        ensures { IfOk result (Succeeds self.now) }
    {
        PlainPort::new_after(
            alloc,
            self.me,
            self.fabric.peers() as u32,
            self.posted_ends.as_slice(),
            self.taken_ends.as_slice(),
        )
    }

    /// A copy of the frame of a peer that lies open, alone in a list, or an empty list.
    fn copy_of_open(&self, alloc: Global, src: u32) -> Result<Vec<Frame>, NoMemory>
        requires { src < peers_of self.now }
        ensures { IfOk result (λ v. v.items ≡ option_to_list (in_of self.now src).lent) }
    {
        let mut frames = Vec::new(alloc);
        let Some(frame) = self.lent(src) else {
            return Ok(frames);
        };
        let bytes = Buf::copy(alloc, frame.bytes)?;
        let copy = Frame {
            head: frame.head,
            bytes,
        };
        frames.push(copy)?;
        Ok(frames)
    }
}

/// Room for what is inside the lane from one port to another.
fn room_for(alloc: Global, reader: &RingPort, source: &RingPort) -> Result<Inside, NoMemory>
    requires source { number_of source.now < peers_of reader.now }
    requires reader { number_of reader.now < peers_of source.now }
    ensures { IfOk result (IsRoom reader.now source.now) }
{
    let mut frames = reader.copy_of_open(alloc, source.me)?;
    let taken = reader.gots[source.me as usize] + frames.len() as u64;
    let put = source.puts[reader.me as usize];
    let count = put.saturating_sub(taken) as usize;
    frames.reserve(count)?;
    let spares = buffers(alloc, count)?;
    Ok(Inside {
        taken,
        frames,
        spares,
    })
}

/// Room for what is inside each lane to one port.
fn rooms_of(alloc: Global, ports: &[RingPort], reader: &RingPort) -> Result<Vec<Inside>, NoMemory>
    requires { (s : ℕ) (p : RingPort) → slice_get ports.now s ≡ Some p
        → (number_of p < peers_of reader.now) × (number_of reader.now < peers_of p) }
    ensures { IfOk result (λ v. AreRooms ports.now reader.now v.items) }
{
    let mut rooms = Vec::with_capacity(alloc, ports.len())?;
    for source in ports {
        let room = room_for(alloc, reader, source)?;
        rooms.push(room)?;
    }
    Ok(rooms)
}

/// Room for what is inside all lanes, by reader.
pub(crate) fn rooms(alloc: Global, ports: &[RingPort]) -> Result<Vec<Vec<Inside>>, NoMemory>
    requires { (f : LaneTable) × AreAll f ports.now }
    ensures { IfOk result (λ v. AreAllRooms ports.now v.items) }
{
    let mut all = Vec::with_capacity(alloc, ports.len())?;
    for reader in ports {
        let rooms = rooms_of(alloc, ports, reader)?;
        all.push(rooms)?;
    }
    Ok(all)
}

/// For each port a plain port that goes on where it ended.
pub(crate) fn successors(alloc: Global, ports: &[RingPort]) -> Result<Vec<PlainPort>, NoMemory>
    ensures { IfOk result (λ v. AreSuccessors ports.now v.items) }
{
    let mut all = Vec::with_capacity(alloc, ports.len())?;
    for port in ports {
        let plain = port.successor(alloc)?;
        all.push(plain)?;
    }
    Ok(all)
}
