//! Gates: a turn of a round goes at once, or waits for others within a bound.
use fab_base::Gate;
use std::sync::atomic::{AtomicBool, AtomicU32, AtomicUsize, Ordering};
use std::thread;

/// How often a turn looks before it gives up.
const LOOKS: u32 = 10_000_000;

/// Each turn goes at once.
pub struct OpenGate;

impl Gate for OpenGate {
    fn enter(&self, _peer: u32, _round: u32) {}

    fn leave(&self, _peer: u32, _round: u32) {}
}

/// In one round, each of two turns waits until the other has begun.
#[derive(Drop)]
pub struct Meeting {
    round: u32,
    first: AtomicBool,
    second: AtomicBool,
    /// How many turns saw the other begin.
    pub seen: AtomicU32,
}

impl Meeting {
    pub fn new(round: u32) -> Meeting {
        Meeting {
            round,
            first: AtomicBool::new(false),
            second: AtomicBool::new(false),
            seen: AtomicU32::new(0),
        }
    }

    fn meet(&self, own: &AtomicBool, other: &AtomicBool) {
        own.store(true, Ordering::SeqCst);
        for _ in 0..LOOKS {
            if other.load(Ordering::SeqCst) {
                self.seen.fetch_add(1, Ordering::SeqCst);
                return;
            }
            thread::yield_now();
        }
    }
}

impl Gate for Meeting {
    fn enter(&self, peer: u32, round: u32) {
        if round != self.round {
            return;
        }
        if peer == 0 {
            self.meet(&self.first, &self.second);
        } else {
            self.meet(&self.second, &self.first);
        }
    }

    fn leave(&self, _peer: u32, _round: u32) {}
}

/// In the first rounds, the turns of a round go one after another, in this order of their peers.
#[derive(Drop)]
pub struct InOrder {
    order: &'static [u32],
    rounds: u32,
    /// Whose turn it is, by the place in the order.
    next: AtomicUsize,
    /// Whether a turn gave up.
    pub late: AtomicBool,
}

impl InOrder {
    pub fn new(order: &'static [u32], rounds: u32) -> InOrder {
        InOrder {
            order,
            rounds,
            next: AtomicUsize::new(0),
            late: AtomicBool::new(false),
        }
    }
}

impl Gate for InOrder {
    fn enter(&self, peer: u32, round: u32) {
        if round > self.rounds {
            return;
        }
        for _ in 0..LOOKS {
            let next = self.next.load(Ordering::SeqCst);
            if self.order.get(next) == Some(&peer) {
                return;
            }
            thread::yield_now();
        }
        self.late.store(true, Ordering::SeqCst);
    }

    fn leave(&self, _peer: u32, round: u32) {
        if round > self.rounds {
            return;
        }
        let next = self.next.load(Ordering::SeqCst).saturating_add(1);
        let next = if next < self.order.len() { next } else { 0 };
        self.next.store(next, Ordering::SeqCst);
    }
}
