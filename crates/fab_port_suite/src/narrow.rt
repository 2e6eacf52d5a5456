//! A port that can be full.
ghost use Rattle.std.specs.Prelude.{◌≡◌, ℕ, ◌<◌, true, None, Some, IfOk, IfSome, length, []};
ghost use Rattle.std.specs.Vec.{vec_capacity};
ghost use Rattle.fab_link.specs.Meaning.{AreFresh};
ghost use Rattle.fab_port_suite.specs.declared.narrow.Greeting.TheVariants.{Taken};
ghost use Rattle.fab_port_suite.specs.Narrow.{out_of, in_of, nothing_first, nothing_behind, greeting_head};

use fab_base::{Ack, FrameHead, FrameRef, ItemHead, Kind, NoMemory, Outcome};
use fab_link::{Port, PostRefused};
use std::alloc::Global;

/// The port of a single peer, to itself, whose memory is taken when it is made.
///
/// Its lane has room for a stated number of frames, and it has no pool: a frame with bytes finds no
/// place for them. Nothing carries its frames, so a lane that is full stays full. What it gives is one
/// frame, an empty message, which stands there from the start.
#[derive(Drop)]
pub struct NarrowPort {
    heads: Vec<FrameHead>,
    greeting: Greeting,
    lane_full_seen: u64,
    pool_full_seen: u64,
    full_at: usize,
    empty_seen: u64,
    empty_at: usize,
}

/// Where the one frame is that the port gives: not given yet, lent, or stepped over.
#[derive(Clone, Copy)]
pub enum Greeting {
    Waiting,
    Lent,
    Taken,
}

/// The head of that frame.
fn greeting_head() -> FrameHead
    ensures { result ≡ greeting_head }
{
    let item = ItemHead {
        kind: Kind::Msg,
        op: 0,
        tag: 0,
        imm: None,
        ack: Ack::Nothing,
        key: 0,
        at: 0,
        count: 0,
        atom: None,
        outcome: Outcome::Done,
        total: 0,
    };
    FrameHead {
        item,
        from: 0,
        len: 0,
    }
}

impl NarrowPort {
    /// A port with room for so many frames. Its counts begin at 0.
    pub fn new(alloc: Global, room: u32) -> Result<NarrowPort, NoMemory>
        ensures empty { IfOk result (λ p. p.heads.items ≡ []) }
        ensures room { IfOk result (λ p. vec_capacity p.heads ≡ room) }
        ensures fresh { IfOk result (λ p. (d : ℕ) → AreFresh (out_of p d) (in_of p d)) }
    {
        Ok(NarrowPort {
            heads: Vec::with_capacity(alloc, room as usize)?,
            greeting: Greeting::Waiting,
            lane_full_seen: 0,
            pool_full_seen: 0,
            full_at: 0,
            empty_seen: 0,
            empty_at: 0,
        })
    }
}

impl Port for NarrowPort {
    const FIXED: bool = true;

    ghost FIXED = { true };

    ghost number = { λ _. 0 };

    ghost peer_count = { λ _. 1 };

    ghost outs = { out_of };

    ghost ins = { in_of };

    ghost moves = { λ _. None };

    ghost Home = { Unit {0} };

    ghost home = { λ _. tt };

    ghost in_list = { λ _ _. None };

    // The one frame that it gives was taken.
    ghost SawNone = { λ p _ _. p.greeting ≡ Taken };

    ghost taken_first = { nothing_first };

    ghost none_behind = { nothing_behind };

    fn me(&self) -> u32 {
        0
    }

    fn peers(&self) -> u32 {
        1
    }

    fn post(&mut self, _dest: u32, head: FrameHead, bytes: &[u8]) -> Result<(), PostRefused> {
        if !bytes.is_empty() {
            self.pool_full_seen = self.pool_full_seen.saturating_add(1);
            self.full_at = self.heads.len();
            return Err(PostRefused::PoolFull);
        }
        if self.heads.len() == self.heads.capacity() {
            self.lane_full_seen = self.lane_full_seen.saturating_add(1);
            self.full_at = self.heads.len();
            return Err(PostRefused::LaneFull);
        }
        self.heads.push(head).unwrap();
        Ok(())
    }

    fn front(&mut self, _src: u32) -> Option<FrameRef<'_>> {
        match self.greeting {
            Greeting::Waiting | Greeting::Lent => {
                self.greeting = Greeting::Lent;
                Some(FrameRef {
                    head: greeting_head(),
                    bytes: &[],
                })
            }
            Greeting::Taken => {
                self.empty_seen = self.empty_seen.saturating_add(1);
                self.empty_at = 1;
                None
            }
        }
    }

    fn advance(&mut self, _src: u32) {
        self.greeting = Greeting::Taken;
    }
}
