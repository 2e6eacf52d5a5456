//! How the table is made.
ghost use Rattle.std.specs.Prelude.{◌≡◌, ℕ, ◌+◌, ◌*◌, ◌<◌, ◌≤◌, ◌^◌, [], length, IfOk, slice_index_or, None};
ghost use Rattle.fab_table.specs.Views.{everyone};
ghost use Rattle.fab_table.specs.Rule.{IsCell, IsBuf};
ghost use Rattle.fab_table.specs.Seats.{IsOf, carried, view_of_seat};
ghost use Rattle.fab_table.specs.declared.kinds.Slot.TheVariants.{Pool};

use crate::kinds::{Command, Layout, Slot};
use crate::lane_table::{LaneTable, PeerSeat};
use crate::words::count_words;
use atomic_table::Table;
use fab_base::{Ack, Buf, FRAME_BYTES, FrameHead, INLINE_BYTES, ItemHead, Kind, NoMemory, Outcome};
use std::alloc::Global;

/// A command of no frame.
pub fn blank() -> Command
    ensures number { result.number ≡ 0 }
    ensures slot { result.slot ≡ None }
    ensures len { result.head.len ≡ 0 }
{
    let item = ItemHead {
        kind: Kind::Msg,
        op: 0,
        tag: 0,
        imm: None,
        ack: Ack::Nothing,
        key: 0,
        at: 0,
        count: 0,
        atom: None,
        outcome: Outcome::Done,
        total: 0,
    };
    Command {
        number: 0,
        slot: None,
        head: FrameHead {
            item,
            from: 0,
            len: 0,
        },
        inline: [0; INLINE_BYTES],
    }
}

/// So many cells that have no frame, with memory for so many places in all.
fn blank_cells(alloc: Global, count: usize, places: usize) -> Result<Vec<Slot>, NoMemory>
    ensures count { IfOk result (λ v. length v.items ≡ count) }
    ensures cells { IfOk result (λ v. (q : ℕ) → q < count → IsCell (slice_index_or v.items q (Pool []))) }
{
    let mut all = Vec::with_capacity(alloc, places)?;
    for _ in 0..count {
        all.push(Slot::Cell(blank()))?;
    }
    Ok(all)
}

/// The cells, and behind them the slots of all pools.
fn places(alloc: Global, cells: usize, slots: usize) -> Result<Vec<Slot>, NoMemory>
    requires { cells + slots < 2 ^ 63 }
    ensures count { IfOk result (λ v. length v.items ≡ cells + slots) }
    ensures cells { IfOk result (λ v. (q : ℕ) → q < cells → IsCell (slice_index_or v.items q (Pool []))) }
    ensures slots { IfOk result (λ v. (q : ℕ) → cells ≤ q → q < cells + slots → IsBuf (slice_index_or v.items q (Pool []))) }
{
    let mut all = blank_cells(alloc, cells, cells + slots)?;
    for _ in 0..slots {
        all.push(Slot::Pool(Buf::zeros(alloc, u64::from(FRAME_BYTES))?))?;
    }
    Ok(all)
}

impl LaneTable {
    /// A table of the lanes between so many peers, with `room` cells each, and of a pool of so many slots
    /// for each peer, and the seat that speaks for all peers.
    pub fn new(
        alloc: Global,
        peers: u64,
        room: u64,
        pool: u64,
    ) -> Result<(LaneTable, PeerSeat), NoMemory>
        requires peers { (0 < peers) × (peers ≤ 64) }
        requires room { (0 < room) × (room ≤ 1024) }
        requires pool { (0 < pool) × (pool ≤ 1024) }
        ensures sizes { IfOk result (λ r. (r.0.peers ≡ peers) × (r.0.room ≡ room) × (r.0.pool ≡ pool)) }
        ensures seat { IfOk result (λ r. IsOf r.0 r.1 × (view_of_seat r.1 ≡ everyone peers room pool) × (carried r.1 ≡ [])) }
    {
        let lanes = (peers * peers) as usize;
        let slots = (peers * pool) as usize;
        let count = count_words(peers, pool);
        let words = Vec::from_elem(alloc, 0u64, count)?;
        let all = places(alloc, lanes * room as usize, slots)?;
        let about = Layout { peers, room, pool };
        match Table::new(alloc, words.as_slice(), all, &about) {
            Ok((table, seat)) => Ok((
                LaneTable {
                    table,
                    peers,
                    room,
                    pool,
                },
                PeerSeat { seat },
            )),
            Err(_) => Err(NoMemory),
        }
    }

    /// How many peers there are.
    pub fn peers(&self) -> u64
        ensures { result ≡ self.now.peers }
    {
        self.peers
    }

    /// How many cells a lane has.
    pub fn room(&self) -> u64
        ensures { result ≡ self.now.room }
    {
        self.room
    }

    /// How many slots the pool of a peer has.
    pub fn pool(&self) -> u64
        ensures { result ≡ self.now.pool }
    {
        self.pool
    }
}
