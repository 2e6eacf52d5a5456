//! The table of all lanes, and a seat at it.
ghost use Rattle.std.specs.Prelude.{◌≡◌, ◌<◌, ◌≤◌};
ghost use Rattle.fab_table.specs.Views.{word_count};

use crate::kinds::{Layout, Slot, View};
use crate::rule::LaneRule;
use atomic_table::{Seat, Table};
use std::alloc::Global;

/// The lanes between each two peers, and the pool of each peer.
#[derive(Drop)]
pub struct LaneTable {
    pub(crate) table: Table<Slot, View, Layout, LaneRule, Global>,
    pub(crate) peers: u64,
    pub(crate) room: u64,
    pub(crate) pool: u64,
    ghost sized: { (table.shared.key.peers ≡ peers) × (table.shared.key.room ≡ room) × (table.shared.key.pool ≡ pool) × (0 < room) × (room ≤ 1024) × (0 < peers) × (peers ≤ 64) × (0 < pool) × (pool ≤ 1024) },
    ghost words: { table.shared.table_id.words ≡ word_count peers pool },
}

/// What a peer steps with: its place at the table. It has no bytes, and only this crate steps with it.
#[derive(Drop)]
pub struct PeerSeat {
    pub(crate) seat: Seat<Slot, View>,
}
