//! Plain access to the place that a seat has in hand and took last. No step on a word is made here.
ghost use Rattle.std.specs.Prelude.{◌≡◌, ℕ, ◌≤◌, ◌∷◌, List, length, take, Some};
ghost use Rattle.atomic_table.specs.Table.{rest};
ghost use Rattle.fab_base.specs.declared.limits.TheConstants.{INLINE_BYTES};
ghost use Rattle.fab_table.specs.declared.kinds.Command.{Command};
ghost use Rattle.fab_table.specs.declared.kinds.Sent.{Sent};
ghost use Rattle.fab_table.specs.declared.kinds.Slot.{Slot};
ghost use Rattle.fab_table.specs.declared.kinds.Slot.TheVariants.{Cell, Pool};
ghost use Rattle.fab_table.specs.Rule.{Says, IsShort};
ghost use Rattle.fab_table.specs.Seats.{IsOf, IsSame, carried, view_of_seat, sat, named, written};

use crate::kinds::{Command, Slot};
use crate::lane_table::{LaneTable, PeerSeat};
use fab_base::{Buf, FrameHead};

/// Writes a command over, with the bytes of a frame that needs no slot.
fn overwrite(command: &mut Command, number: u64, head: FrameHead, bytes: &[u8])
    requires { length bytes.now ≤ INLINE_BYTES }
    ensures { command.new ≡ written command.old number head bytes.now }
{
    command.number = number;
    command.slot = None;
    command.head = head;
    command.inline[..bytes.len()].copy_from_slice(bytes);
}

impl LaneTable {
    /// Writes a command into the cell in hand, with the bytes of a frame that needs no slot.
    pub fn write(
        &self,
        seat: &mut PeerSeat,
        place: usize,
        number: u64,
        head: FrameHead,
        bytes: &[u8],
    )
        requires seat { IsOf self.now seat.old }
        requires hand { (c : Command) × (carried seat.old ≡ (place, Cell c) ∷ rest (carried seat.old)) }
        requires short { length bytes.now ≤ INLINE_BYTES }
        ensures seat { IsSame seat.old seat.new }
        ensures view { (c : Command) → carried seat.old ≡ (place, Cell c) ∷ rest (carried seat.old)
            → sat seat.new ≡ (view_of_seat seat.old, (place, Cell (written c number head bytes.now)) ∷ rest (carried seat.old)) }
    {
        let cell = seat.seat.slot_mut(&self.table.shared, place);
        let Slot::Cell(command) = cell else {
            unreachable!()
        };
        overwrite(command, number, head, bytes);
    }

    /// Names a slot in the command of the cell in hand.
    pub fn name_slot(&self, seat: &mut PeerSeat, place: usize, slot: u64)
        requires seat { IsOf self.now seat.old }
        requires hand { (c : Command) × (carried seat.old ≡ (place, Cell c) ∷ rest (carried seat.old)) }
        ensures seat { IsSame seat.old seat.new }
        ensures view { (c : Command) → carried seat.old ≡ (place, Cell c) ∷ rest (carried seat.old)
            → sat seat.new ≡ (view_of_seat seat.old, (place, Cell (named c slot)) ∷ rest (carried seat.old)) }
    {
        let cell = seat.seat.slot_mut(&self.table.shared, place);
        let Slot::Cell(command) = cell else {
            unreachable!()
        };
        command.slot = Some(slot);
    }

    /// Writes over the first bytes of the pool slot in hand.
    pub fn fill(&self, seat: &mut PeerSeat, place: usize, bytes: &[u8])
        requires seat { IsOf self.now seat.old }
        requires hand { (b : List ℕ) × (carried seat.old ≡ (place, Pool b) ∷ rest (carried seat.old)) × (length bytes.now ≤ length b) }
        ensures seat { IsSame seat.old seat.new }
        ensures view { (b : List ℕ) → carried seat.old ≡ (place, Pool b) ∷ rest (carried seat.old)
            → (d : List ℕ) × (sat seat.new ≡ (view_of_seat seat.old, (place, Pool d) ∷ rest (carried seat.old))) × (length d ≡ length b) × (take (length bytes.now) d ≡ bytes.now) }
    {
        let slot = seat.seat.slot_mut(&self.table.shared, place);
        let Slot::Pool(buffer) = slot else {
            unreachable!()
        };
        buffer.write_at(0, bytes);
    }

    /// Copies the command of the cell in hand, with the frame's own bytes and no others.
    pub fn read(&self, seat: &mut PeerSeat, place: usize, into: &mut Command)
        requires seat { IsOf self.now seat.old }
        requires hand { (x : Sent) × (y : Slot) × (carried seat.old ≡ (place, y) ∷ rest (carried seat.old)) × Says x y × IsShort x }
        ensures seat { IsSame seat.old seat.new × (sat seat.new ≡ sat seat.old) }
        ensures says { (x : Sent) (y : Slot) → carried seat.old ≡ (place, y) ∷ rest (carried seat.old) → Says x y → IsShort x → Says x (Cell into.new) }
    {
        let cell = seat.seat.slot_mut(&self.table.shared, place);
        let Slot::Cell(command) = cell else {
            unreachable!()
        };
        into.number = command.number;
        into.slot = command.slot;
        into.head = command.head;
        if command.slot.is_none() {
            let len = command.head.len as usize;
            into.inline[..len].copy_from_slice(&command.inline[..len]);
        }
    }

    /// The buffer of the pool slot in hand, for another.
    pub fn swap(&self, seat: &mut PeerSeat, place: usize, buffer: &mut Buf)
        requires seat { IsOf self.now seat.old }
        requires hand { (b : List ℕ) × (carried seat.old ≡ (place, Pool b) ∷ rest (carried seat.old)) }
        ensures seat { IsSame seat.old seat.new }
        ensures old { carried seat.old ≡ (place, Pool buffer.new) ∷ rest (carried seat.old) }
        ensures new { sat seat.new ≡ (view_of_seat seat.old, (place, Pool buffer.old) ∷ rest (carried seat.old)) }
    {
        let slot = seat.seat.slot_mut(&self.table.shared, place);
        let Slot::Pool(own) = slot else {
            unreachable!()
        };
        std::mem::swap(own, buffer);
    }
}

impl PeerSeat {
    ghost use Rattle.atomic_table.specs.Table.{turned};

    /// The place in hand goes behind the others that the seat took.
    pub fn turn(&mut self)
        ensures { IsSame self.old self.new × (sat self.new ≡ (view_of_seat self.old, turned (carried self.old))) }
    {
        self.seat.turn();
    }
}
