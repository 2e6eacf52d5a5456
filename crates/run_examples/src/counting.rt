//! A gate that orders turns, and counts them by rank and round.
use fab_base::Gate;
use fab_test_helpers::InOrder;
use std::sync::atomic::{AtomicBool, AtomicU64, Ordering};

/// Of so many ranks the turns are counted.
pub(crate) const RANKS: usize = 4;

/// A count has so many bits, so those of 16 rounds, from round 0 on, stand in a word.
const BITS: u32 = 4;

/// In the first rounds the turns go in an order of their peers; each is counted when it begins.
#[derive(Drop)]
pub(crate) struct Counted {
    order: InOrder,
    ranks: [AtomicU64; RANKS],
    /// Whether a turn was of a rank or a round that is not counted.
    beyond: AtomicBool,
}

impl Counted {
    pub(crate) fn new(order: &'static [u32], rounds: u32) -> Counted {
        Counted {
            order: InOrder::new(order, rounds),
            ranks: [
                AtomicU64::new(0),
                AtomicU64::new(0),
                AtomicU64::new(0),
                AtomicU64::new(0),
            ],
            beyond: AtomicBool::new(false),
        }
    }

    /// Whether a turn came late, or was not counted.
    pub(crate) fn is_late(&self) -> bool {
        self.order.late.load(Ordering::SeqCst) || self.beyond.load(Ordering::SeqCst)
    }

    /// The turns of this rank, a digit for each round: the last round comes first.
    pub(crate) fn turns(&self, rank: usize) -> u64 {
        match self.ranks.get(rank) {
            Some(turns) => turns.load(Ordering::SeqCst),
            None => 0,
        }
    }
}

impl Gate for Counted {
    fn enter(&self, peer: u32, round: u32) {
        self.order.enter(peer, round);
        match self.ranks.get(peer as usize) {
            Some(turns) if round < u64::BITS / BITS => {
                turns.fetch_add(1 << (round * BITS), Ordering::SeqCst);
            }
            _ => self.beyond.store(true, Ordering::SeqCst),
        }
    }

    fn leave(&self, peer: u32, round: u32) {
        self.order.leave(peer, round);
    }
}
