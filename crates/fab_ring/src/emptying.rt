//! Lanes emptied through the seat that speaks for all peers.
ghost use Rattle.std.specs.Prelude.{◌≡◌, ℕ, ◌+◌, ◌%◌, ◌<◌, ◌≤◌, ◌^◌, ◌++◌, ◌∷◌, List, [], length, take, Option, None};
ghost use Rattle.fab_base.specs.declared.limits.TheConstants.{FRAME_BYTES};
ghost use Rattle.fab_base.specs.declared.frames.FrameHead.{FrameHead};
ghost use Rattle.fab_link.specs.Frames.{last_head, IsLane, MayCome};
ghost use Rattle.fab_link.specs.Plain.{lane_at};
ghost use Rattle.fab_table.specs.declared.kinds.Sent.{Sent};
ghost use Rattle.fab_table.specs.declared.kinds.Slot.{Slot};
ghost use Rattle.fab_table.specs.declared.kinds.Slot.TheVariants.{Cell};
ghost use Rattle.fab_table.specs.Views.{frames_of, freed_one};
ghost use Rattle.fab_table.specs.Rule.{Says};
ghost use Rattle.fab_table.specs.Plays.{oldest_cell, new_in_view};
ghost use Rattle.fab_table.specs.Seats.{IsSame, view_of_seat, sat, in_of, out_of};
ghost use Rattle.fab_ring.specs.Gather.{IsJoined, IsOpen, Grew, Awaits, Leads, AwaitsEach, AwaitsAll, Emptied, Received, ReceivedAll};

use crate::receiving::Oldest;
use crate::rooms::Inside;
use fab_base::{Buf, Frame};
use fab_link::{PlainPort, Port};
use fab_table::{Command, LaneTable, PeerSeat, blank};

/// The first bytes of a buffer, without a copy.
fn cut(buffer: Buf, len: usize) -> Buf
    ensures { result ≡ take len buffer }
{
    let mut bytes = buffer.into_vec();
    bytes.truncate(len);
    Buf::from_vec(bytes)
}

/// The bytes of the frame that is open. A slot's buffer goes out for the spare one, and the slot is freed.
fn bytes_of(
    fabric: &LaneTable,
    seat: &mut PeerSeat,
    next: &Oldest,
    command: &Command,
    mut spare: Buf,
) -> Buf
    requires open { (x : Sent) × (y : Slot) × IsOpen fabric.now seat.old next.now.me next.now.src x y × Says x (Cell command.now) }
    requires spare { length spare ≡ FRAME_BYTES }
    ensures seat { IsSame seat.old seat.new }
    ensures bytes { (x : Sent) (y : Slot) → IsOpen fabric.now seat.old next.now.me next.now.src x y → Says x (Cell command.now) → result ≡ x.frame.bytes }
    ensures view { (x : Sent) (y : Slot) → IsOpen fabric.now seat.old next.now.me next.now.src x y → Says x (Cell command.now)
        → sat seat.new ≡ (new_in_view (view_of_seat seat.old) next.now.me next.now.src (freed_one (in_of seat.old next.now.me next.now.src)), (oldest_cell (view_of_seat seat.old) next.now.me next.now.src, y) ∷ []) }
{
    let len = command.head.len as usize;
    let Some(slot) = command.slot else {
        spare.write_at(0, &command.inline[..len]);
        return cut(spare, len);
    };
    let peers = fabric.peers();
    let home = (peers * peers * fabric.room() + slot) as usize;
    seat.turn();
    fabric.swap(seat, home, &mut spare);
    fabric.free_slot(seat, next.me, next.src, slot);
    cut(spare, len)
}

/// Takes the next frame of a lane. Its bytes come into the spare buffer, or in its place.
fn take_next(fabric: &LaneTable, seat: &mut PeerSeat, next: &Oldest, spare: Buf) -> Frame
    requires joined { IsJoined fabric.now seat.old }
    requires below { (next.now.me < fabric.now.peers) × (next.now.src < fabric.now.peers) }
    requires count { next.now.got ≡ length (in_of seat.old next.now.me next.now.src).taken }
    requires more { next.now.got < length (out_of seat.old next.now.src next.now.me).posted }
    requires cell { next.now.cell ≡ next.now.got % fabric.now.room }
    requires spare { length spare ≡ FRAME_BYTES }
    ensures seat { IsSame seat.old seat.new }
    ensures joined { IsJoined fabric.now seat.new }
    ensures few { next.now.got + 1 < 2 ^ 64 }
    ensures taken { (x : Sent) × (result ≡ x.frame) × Grew seat.old seat.new next.now.me next.now.src (x ∷ [])
        × MayCome (last_head None (frames_of (in_of seat.old next.now.me next.now.src).taken)) x.frame }
{
    let _put = fabric.look_put(seat, next.me, next.me, next.src);
    let place = fabric.cell_place(next.src, next.me, next.cell);
    let mut command = blank();
    fabric.read(seat, place, &mut command);
    let bytes = bytes_of(fabric, seat, next, &command, spare);
    fabric.give_back(seat, next.me, next.me, next.src, next.got);
    Frame {
        head: command.head,
        bytes,
    }
}

/// Takes all that is inside a lane, and gives its frames.
fn empty_lane(
    fabric: &LaneTable,
    seat: &mut PeerSeat,
    reader: u64,
    source: u64,
    inside: Inside,
) -> Vec<Frame>
    requires joined { IsJoined fabric.now seat.old }
    requires below { (reader < fabric.now.peers) × (source < fabric.now.peers) }
    requires awaits { Awaits seat.old reader source inside }
    ensures seat { IsSame seat.old seat.new }
    ensures joined { IsJoined fabric.now seat.new }
    ensures cut { (before : Option FrameHead) → Leads seat.old reader source before inside.frames.items → IsLane before result.items }
    ensures emptied { Emptied seat.old seat.new reader source inside result.items }
    ensures grew { (xs : List Sent) × Grew seat.old seat.new reader source xs }
{
    let Inside {
        mut taken,
        mut frames,
        mut spares,
    } = inside;
    let room = fabric.room();
    while let Some(spare) = spares.pop() {
        let next = Oldest {
            me: reader,
            src: source,
            got: taken,
            cell: taken % room,
        };
        let frame = take_next(fabric, seat, &next, spare);
        frames.push(frame).unwrap();
        taken += 1;
    }
    frames
}

/// Takes all that is inside the lanes to one peer, as what came to its plain port.
fn receive(fabric: &LaneTable, seat: &mut PeerSeat, port: &mut PlainPort, mut rooms: Vec<Inside>)
    requires joined { IsJoined fabric.now seat.old }
    requires port { (port.old.number < fabric.now.peers) × (length port.old.lanes ≡ fabric.now.peers) }
    requires awaits { AwaitsEach seat.old port.old rooms.items }
    ensures seat { IsSame seat.old seat.new }
    ensures joined { IsJoined fabric.now seat.new }
    ensures received { Received seat.old seat.new port.old port.new rooms.items }
{
    let reader = port.me() as u64;
    while let Some(inside) = rooms.pop() {
        let source = rooms.len() as u64;
        let frames = empty_lane(fabric, seat, reader, source, inside);
        port.adopt(source as u32, frames);
    }
}

/// Takes all that is inside the lanes to all peers.
pub(crate) fn receive_all(
    fabric: &LaneTable,
    seat: &mut PeerSeat,
    ports: &mut [PlainPort],
    mut rooms: Vec<Vec<Inside>>,
)
    requires joined { IsJoined fabric.now seat.old }
    requires awaits { AwaitsAll fabric.now seat.old ports.old rooms.items }
    ensures seat { IsSame seat.old seat.new }
    ensures joined { IsJoined fabric.now seat.new }
    ensures received { ReceivedAll seat.old seat.new ports.old ports.new rooms.items }
{
    while let Some(own) = rooms.pop() {
        let reader = rooms.len();
        receive(fabric, seat, &mut ports[reader], own);
    }
}
