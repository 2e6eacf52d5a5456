//! A gate at which all peers meet.
use fab_base::Gate;
use std::sync::atomic::{AtomicBool, AtomicU32, Ordering};
use std::thread;

/// How often a peer looks before it gives up.
const LOOKS: u32 = 10_000_000;

/// Each peer waits in its turn until all have begun theirs, so it passes only where all are at work at once. Once one has
/// given up, no other waits.
#[derive(Drop)]
pub(crate) struct Meeting {
    peers: u32,
    begun: AtomicU32,
    /// How many peers saw that all had begun.
    met: AtomicU32,
    left: AtomicU32,
    gave_up: AtomicBool,
    /// Whether a call had another round than 0.
    odd: AtomicBool,
}

impl Meeting {
    pub(crate) fn new(peers: u32) -> Meeting {
        Meeting {
            peers,
            begun: AtomicU32::new(0),
            met: AtomicU32::new(0),
            left: AtomicU32::new(0),
            gave_up: AtomicBool::new(false),
            odd: AtomicBool::new(false),
        }
    }

    fn note(&self, round: u32) {
        if round != 0 {
            self.odd.store(true, Ordering::SeqCst);
        }
    }

    /// Whether all peers were at work at once, and each told the gate both of its beginning and of its end, in round 0.
    pub(crate) fn all_met(&self) -> bool {
        self.met.load(Ordering::SeqCst) == self.peers
            && self.left.load(Ordering::SeqCst) == self.peers
            && !self.odd.load(Ordering::SeqCst)
    }
}

impl Gate for Meeting {
    fn enter(&self, _peer: u32, round: u32) {
        self.note(round);
        self.begun.fetch_add(1, Ordering::SeqCst);
        for _ in 0..LOOKS {
            if self.begun.load(Ordering::SeqCst) == self.peers {
                self.met.fetch_add(1, Ordering::SeqCst);
                return;
            }
            if self.gave_up.load(Ordering::SeqCst) {
                return;
            }
            thread::yield_now();
        }
        self.gave_up.store(true, Ordering::SeqCst);
    }

    fn leave(&self, _peer: u32, round: u32) {
        self.note(round);
        self.left.fetch_add(1, Ordering::SeqCst);
    }
}
