//! How the ports of all peers are made.
ghost use Rattle.std.specs.Prelude.{◌≡◌, ℕ, ◌+◌, ◌<◌, ◌≤◌, [], ◌∷◌, length, replicate, None, IfOk, slice_index_or, false};
ghost use Rattle.std.specs.Arc.{arc_value};
ghost use Rattle.fab_base.specs.declared.limits.TheConstants.{FRAME_BYTES};
ghost use Rattle.fab_table.specs.Views.{new_part, view_of};
ghost use Rattle.fab_table.specs.Seats.{IsOf, carried, view_of_seat};
ghost use Rattle.fab_ring.specs.Made.{AreMade, IsMade, rings_peers, rings_room, rings_pool, rings_table};

use crate::port::{RingPort, Rings};
use fab_base::{Buf, FRAME_BYTES, FrameHead, NoMemory};
use fab_table::{Command, LaneTable, PeerSeat, blank};
use std::alloc::Global;
use std::sync::Arc;

/// The bytes behind each list of a port that nobody uses. Ports are made by one thread, so their lists lie side by side, and each is
/// written by a thread of its own: on a cache line that two of them share, each write of the one makes the other wait.
const APART: usize = 128;

/// So many numbers have those bytes, of eight each.
const NUMBERS_APART: usize = APART / 8;

/// So many buffers have those bytes: a list holds of each where its bytes lie, and how many there are.
const BUFFERS_APART: usize = APART / 16;

/// So many commands have at least those bytes: one has a frame's head, and bytes of a frame behind it.
const COMMANDS_APART: usize = 1;

/// So many heads of frames have at least those bytes. The heads last posted and last taken are written with each frame, so their
/// lists too end apart from those of the next port.
const HEADS_APART: usize = 2;

/// So many zeros.
fn zeros(alloc: Global, count: usize) -> Result<Vec<u64>, NoMemory>
    ensures { IfOk result (λ v. v.items ≡ replicate count 0) }
{
    let mut all = Vec::with_capacity(alloc, count.saturating_add(NUMBERS_APART))?;
    for _ in 0..count {
        all.push(0)?;
    }
    Ok(all)
}

/// So many flags that are down.
fn flags(alloc: Global, count: usize) -> Result<Vec<bool>, NoMemory>
    ensures { IfOk result (λ v. v.items ≡ replicate count false) }
{
    let mut all = Vec::with_capacity(alloc, count.saturating_add(APART))?;
    for _ in 0..count {
        all.push(false)?;
    }
    Ok(all)
}

/// So many commands of no frame.
fn commands(alloc: Global, count: usize) -> Result<Vec<Command>, NoMemory>
    ensures { IfOk result (λ v. length v.items ≡ count) }
{
    let mut all = Vec::with_capacity(alloc, count.saturating_add(COMMANDS_APART))?;
    for _ in 0..count {
        all.push(blank())?;
    }
    Ok(all)
}

/// So many buffers, each of the size of a pool's slot.
pub(crate) fn buffers(alloc: Global, count: usize) -> Result<Vec<Buf>, NoMemory>
    ensures count { IfOk result (λ v. length v.items ≡ count) }
    ensures sizes { IfOk result (λ v. (s : ℕ) → s < count → length (slice_index_or v.items s []) ≡ FRAME_BYTES) }
{
    let mut all = Vec::with_capacity(alloc, count.saturating_add(BUFFERS_APART))?;
    for _ in 0..count {
        all.push(Buf::zeros(alloc, u64::from(FRAME_BYTES))?)?;
    }
    Ok(all)
}

/// No head of a frame, so many times.
fn no_heads(alloc: Global, count: usize) -> Result<Vec<Option<FrameHead>>, NoMemory>
    ensures { IfOk result (λ v. v.items ≡ replicate count None) }
{
    let mut all = Vec::with_capacity(alloc, count.saturating_add(HEADS_APART))?;
    for _ in 0..count {
        all.push(None)?;
    }
    Ok(all)
}

impl RingPort {
    /// A port over a seat that speaks for one peer, which has neither posted nor taken.
    fn open(
        alloc: Global,
        fabric: Arc<LaneTable>,
        seat: PeerSeat,
        me: u32,
    ) -> Result<RingPort, NoMemory>
        requires seat { IsOf (arc_value fabric) seat × (carried seat ≡ []) × (me < (arc_value fabric).peers) }
        requires part { view_of_seat seat ≡ view_of (new_part (arc_value fabric).peers (arc_value fabric).room (arc_value fabric).pool me ∷ []) }
        ensures { IfOk result (IsMade (arc_value fabric) me) }
    {
        let peers = fabric.peers() as usize;
        let puts = zeros(alloc, peers)?;
        let gots = zeros(alloc, peers)?;
        let gots_seen = zeros(alloc, peers)?;
        let put_cells = zeros(alloc, peers)?;
        let got_cells = zeros(alloc, peers)?;
        let opened = flags(alloc, peers)?;
        let lent = flags(alloc, peers)?;
        let commands = commands(alloc, peers)?;
        let buffers = buffers(alloc, peers)?;
        let posted_ends = no_heads(alloc, peers)?;
        let taken_ends = no_heads(alloc, peers)?;
        Ok(RingPort {
            fabric,
            seat,
            me,
            clock: 0,
            turn: 0,
            puts,
            gots,
            gots_seen,
            put_cells,
            got_cells,
            opened,
            lent,
            open_count: 0,
            commands,
            buffers,
            posted_ends,
            taken_ends,
        })
    }
}

impl Rings {
    /// The lanes between so many peers, of `lane` frames each, and a pool of so many slots of [`FRAME_BYTES`] bytes for
    /// each peer. All memory of the lanes is taken here.
    pub fn new(alloc: Global, peers: u32, lane: u32, pool: u32) -> Result<Rings, NoMemory>
        requires peers { (0 < peers) × (peers ≤ 64) }
        requires lane { (0 < lane) × (lane ≤ 1024) }
        requires pool { (0 < pool) × (pool ≤ 1024) }
        ensures { IfOk result (λ r. (rings_peers r ≡ peers) × (rings_room r ≡ lane) × (rings_pool r ≡ pool)) }
    {
        let (fabric, seat) = LaneTable::new(alloc, peers as u64, lane as u64, pool as u64)?;
        let fabric = Arc::new(alloc, fabric)?;
        Ok(Rings { fabric, seat })
    }

    /// A port for each peer, in order: nothing was posted or taken, and no count was raised.
    pub fn ports(self, alloc: Global) -> Result<Vec<RingPort>, NoMemory>
        ensures { IfOk result (λ v. AreMade (rings_peers self) (rings_room self) (rings_pool self) (rings_table self) v.items) }
    {
        let Rings { fabric, mut seat } = self;
        let peers = fabric.peers() as u32;
        let mut all = Vec::with_capacity(alloc, peers as usize)?;
        let mut me = 0;
        while me < peers {
            let own = fabric.split(&mut seat);
            let port = RingPort::open(alloc, Arc::try_clone(&fabric)?, own, me)?;
            all.push(port)?;
            me += 1;
        }
        Ok(all)
    }
}
