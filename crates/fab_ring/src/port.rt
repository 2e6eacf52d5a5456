//! A peer's end of all its lanes.
ghost use Rattle.std.specs.Prelude.{◌≡◌, [], length};
ghost use Rattle.std.specs.Arc.{arc_value};
ghost use Rattle.fab_table.specs.Views.{part_at, everyone};
ghost use Rattle.fab_table.specs.Seats.{IsOf};
ghost use Rattle.fab_ring.specs.Hands.{shapes, Fits, Rounds, Sees, Told, Ends, Comes, ups};

use fab_base::{Buf, FrameHead};
use fab_table::{Command, LaneTable, PeerSeat};
use std::sync::Arc;

/// A port over the one table: one peer's end of the lanes to and from every peer.
///
/// No call waits, none takes memory, and none tries again.
#[derive(Drop)]
pub struct RingPort {
    pub(crate) fabric: Arc<LaneTable>,
    pub(crate) seat: PeerSeat,
    pub(crate) me: u32,
    /// The greatest number of a frame that was posted or taken.
    pub(crate) clock: u64,
    /// The places in hand lie in the order of their sources, from this one on and round.
    pub(crate) turn: u64,
    /// By peer: how many frames were posted to it, and taken of it.
    pub(crate) puts: Vec<u64>,
    pub(crate) gots: Vec<u64>,
    /// By peer: how many of the frames posted to it were given back when a look last showed that.
    pub(crate) gots_seen: Vec<u64>,
    /// By peer: the cell of the next frame to it, and of the next of it, among those of the lane.
    pub(crate) put_cells: Vec<u64>,
    pub(crate) got_cells: Vec<u64>,
    /// By source: whether its next frame is open, and whether the frame's slot is in hand.
    pub(crate) opened: Vec<bool>,
    pub(crate) lent: Vec<bool>,
    /// How many next frames are open.
    pub(crate) open_count: u64,
    /// By source: the open frame's command, and its buffer where it has a slot, else a spare one.
    pub(crate) commands: Vec<Command>,
    pub(crate) buffers: Vec<Buf>,
    /// By peer: the head of the last frame that was posted to it, and of the last that was taken of it.
    pub(crate) posted_ends: Vec<Option<FrameHead>>,
    pub(crate) taken_ends: Vec<Option<FrameHead>>,
    ghost at: { IsOf (arc_value fabric) seat × (length seat.seat.me.0.parts ≡ 1) },
    ghost fits: { Fits me (arc_value fabric).peers (arc_value fabric).room (arc_value fabric).pool clock turn puts.items gots.items opened.items lent.items (part_at seat.seat.me.0 0) (shapes seat.seat.me.1) },
    ghost rounds: { Rounds (arc_value fabric).peers (arc_value fabric).room puts.items gots.items put_cells.items got_cells.items },
    ghost sees: { Sees (arc_value fabric).peers gots_seen.items (part_at seat.seat.me.0 0) },
    ghost told: { Told (arc_value fabric).peers commands.items buffers.items (part_at seat.seat.me.0 0) },
    ghost ends: { Ends (arc_value fabric).peers posted_ends.items taken_ends.items (part_at seat.seat.me.0 0) },
    ghost counted: { open_count ≡ ups opened.items },
    ghost comes: { ∥ Comes (part_at seat.seat.me.0 0) ∥₁ },
}

/// The lanes between each two peers, before they have ports.
#[derive(Drop)]
pub struct Rings {
    pub(crate) fabric: Arc<LaneTable>,
    pub(crate) seat: PeerSeat,
    ghost whole: { (seat.seat.table_id ≡ (arc_value fabric).table.shared.table_id) × (seat.seat.me ≡ (everyone (arc_value fabric).peers (arc_value fabric).room (arc_value fabric).pool, [])) },
}
