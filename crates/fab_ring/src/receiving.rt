//! What calls of `front` and `advance` do at the seat.
ghost use Rattle.std.specs.Prelude.{◌≡◌, ◌≢◌, ℕ, ◌+◌, ◌*◌, ◌%◌, ◌<◌, ◌≤◌, ◌^◌, true, false, List, [], ◌∷◌, ◌++◌, length, None, Some};
ghost use Rattle.fab_base.specs.declared.limits.TheConstants.{FRAME_BYTES};
ghost use Rattle.atomic_table.specs.Table.{rest};
ghost use Rattle.fab_link.specs.Frames.{last_head, MayCome};
ghost use Rattle.fab_table.specs.declared.kinds.Command.{Command};
ghost use Rattle.fab_table.specs.declared.kinds.Sent.{Sent};
ghost use Rattle.fab_table.specs.declared.kinds.Slot.{Slot};
ghost use Rattle.fab_table.specs.declared.kinds.Slot.TheVariants.{Cell, Pool};
ghost use Rattle.fab_table.specs.Views.{frames_of, saw_empty, saw_frame, freed_one};
ghost use Rattle.fab_table.specs.Plays.{SawPut, oldest_cell, slot_home, new_in_view};
ghost use Rattle.fab_table.specs.Seats.{IsOf, IsSame, carried, view_of_seat, sat, part_of, in_of};
ghost use Rattle.fab_ring.specs.Steps.{Frees, LooksEmpty, LooksInline, LooksPooled};
ghost use Rattle.fab_ring.specs.Alone.{IsAlone};
ghost use Rattle.fab_ring.specs.declared.receiving.Look.TheVariants.{Empty, Inline, Pooled};

use fab_base::Buf;
use fab_table::{Command, LaneTable, PeerSeat};

/// The next frame of a peer: how many were taken before, and its cell among those of the lane.
#[derive(Clone, Copy, Drop)]
pub(crate) struct Oldest {
    pub me: u64,
    pub src: u64,
    pub got: u64,
    pub cell: u64,
}

/// What a look for a frame found: none, one that has its bytes itself, or one with a slot.
#[derive(Clone, Copy, Drop)]
pub(crate) enum Look {
    Empty,
    Inline,
    Pooled,
}

/// Looks for the next frame of a peer: before there is one, no more is done than to look. Then its command is copied, and the
/// buffer of its slot, if it has one, is taken for another.
pub(crate) fn open_next(
    fabric: &LaneTable,
    seat: &mut PeerSeat,
    next: &Oldest,
    command: &mut Command,
    buffer: &mut Buf,
) -> Look
    requires alone { IsAlone fabric.now seat.old next.now.me }
    requires below { next.now.src < fabric.now.peers }
    requires closed { (in_of seat.old 0 next.now.src).opened ≡ None }
    requires count { next.now.got ≡ length (in_of seat.old 0 next.now.src).taken }
    requires cell { next.now.cell ≡ next.now.got % fabric.now.room }
    requires spare { length buffer.old ≡ FRAME_BYTES }
    ensures seat { IsSame seat.old seat.new }
    ensures empty { result ≡ Empty → (command.new ≡ command.old) × (buffer.new ≡ buffer.old) × LooksEmpty next.now seat.old seat.new }
    ensures saw { result ≡ Empty → SawPut (sat seat.old) next.now.got (sat seat.new) 0 next.now.src }
    ensures inline { result ≡ Inline → LooksInline next.now seat.old seat.new command.new buffer.old buffer.new }
    ensures pooled { result ≡ Pooled → LooksPooled fabric.now next.now seat.old seat.new command.new buffer.old buffer.new }
{
    let put = fabric.look_put(seat, 0, next.me, next.src);
    if put == next.got {
        return Look::Empty;
    }
    let place = fabric.cell_place(next.src, next.me, next.cell);
    fabric.read(seat, place, command);
    let Some(slot) = command.slot else {
        return Look::Inline;
    };
    let peers = fabric.peers();
    let home = (peers * peers * fabric.room() + slot) as usize;
    seat.turn();
    fabric.swap(seat, home, buffer);
    seat.turn();
    Look::Pooled
}

/// Frees the slot of the open frame of a peer. The frame's cell goes behind the other places in hand.
pub(crate) fn free_pooled(fabric: &LaneTable, seat: &mut PeerSeat, me: u64, src: u64, slot: u64)
    requires alone { IsAlone fabric.now seat.old me }
    requires below { (src < fabric.now.peers) × (slot < fabric.now.peers * fabric.now.pool) }
    requires opened { (x : Sent) × ((in_of seat.old 0 src).opened ≡ Some x) × (x.slot ≡ Some slot) × ((in_of seat.old 0 src).lent ≡ true) }
    requires hand { (a : ℕ) × (c : Command) × (b : List ℕ) × (length b ≡ FRAME_BYTES) × (carried seat.old ≡ (a, Cell c) ∷ (slot_home (view_of_seat seat.old) 0 slot, Pool b) ∷ rest (rest (carried seat.old))) }
    ensures seat { IsSame seat.old seat.new }
    ensures view { (a : ℕ) (c : Command) (z : ℕ × Slot) → carried seat.old ≡ (a, Cell c) ∷ z ∷ rest (rest (carried seat.old)) → Frees seat.old seat.new src a c }
{
    seat.turn();
    fabric.free_slot(seat, 0, src, slot);
}
