//! The seats of all ports joined into one.
ghost use Rattle.std.specs.Prelude.{◌≡◌, ℕ, ◌<◌, ◌++◌, ◌∷◌, [], length, None, Some, slice_get};
ghost use Rattle.std.specs.Arc.{arc_value};
ghost use Rattle.fab_link.specs.declared.moves.Move.TheVariants.{Take};
ghost use Rattle.fab_table.specs.declared.lane_table.LaneTable.{LaneTable};
ghost use Rattle.fab_table.specs.declared.kinds.Sent.{Sent};
ghost use Rattle.fab_table.specs.Views.{in_at, part_at, with_in, taken_one};
ghost use Rattle.fab_table.specs.Seats.{IsOf, carried, view_of_seat};
ghost use Rattle.fab_ring.specs.declared.port.RingPort.{RingPort};
ghost use Rattle.fab_ring.specs.Ports.{part_of, peers_of, table_of, SamePort};
ghost use Rattle.fab_ring.specs.Gather.{AreAll, Released, IsWhole};

use crate::port::RingPort;
use fab_table::{LaneTable, PeerSeat};
use std::sync::Arc;

impl RingPort {
    /// Steps over the frame of a peer that lies open, if any.
    fn release_one(&mut self, src: u32)
        requires { src < peers_of self.old }
        ensures port { SamePort self.old self.new }
        ensures none { (in_at (part_of self.old) src).opened ≡ None → part_of self.new ≡ part_of self.old }
        ensures some { (x : Sent) → (in_at (part_of self.old) src).opened ≡ Some x
            → part_of self.new ≡ with_in (part_of self.old) src (taken_one (in_at (part_of self.old) src) x) ((part_of self.old).moves ++ Take src x.number ∷ []) }
    {
        if !self.opened[src as usize] {
            return;
        }
        self.take(src);
    }

    /// Steps over each frame that lies open.
    fn release(&mut self)
        ensures port { SamePort self.old self.new }
        ensures part { Released (part_of self.old) (part_of self.new) }
    {
        let peers = self.fabric.peers() as u32;
        for src in 0..peers {
            self.release_one(src);
        }
    }

    /// The table, and the seat with nothing in hand.
    fn into_parts(mut self) -> (Arc<LaneTable>, PeerSeat)
        ensures table { arc_value result.0 ≡ table_of self }
        ensures of { IsOf (table_of self) result.1 }
        ensures hand { carried result.1 ≡ [] }
        ensures one { length (view_of_seat result.1).parts ≡ 1 }
        ensures part { Released (part_of self) (part_at (view_of_seat result.1) 0) }
    {
        self.release();
        let RingPort { fabric, seat, .. } = self;
        (fabric, seat)
    }
}

/// The table, and one seat that speaks for all peers, with nothing in hand.
pub(crate) fn join_all(mut ports: Vec<RingPort>) -> (Arc<LaneTable>, PeerSeat)
    requires { (f : LaneTable) × AreAll f ports.items }
    ensures table { (f : LaneTable) → AreAll f ports.items → arc_value result.0 ≡ f }
    ensures whole { (f : LaneTable) → AreAll f ports.items → IsWhole f ports.items result.1 }
{
    let Some(last) = ports.pop() else {
        unreachable!()
    };
    let (fabric, mut seat) = last.into_parts();
    while let Some(port) = ports.pop() {
        let (_table, mut own) = port.into_parts();
        fabric.join(&mut own, seat);
        seat = own;
    }
    (fabric, seat)
}
