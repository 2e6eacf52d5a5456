//! Who is there before the first meeting.
use std::sync::Wait;
use std::sync::atomic::{AtomicU64, Ordering};
use std::thread;

/// How often a member that waits for the others lets other threads run before it gives up.
const PATIENCE: u32 = 200_000;

/// What the count is once a member gave up: more than there are members.
const GIVEN_UP: u64 = 1 << 32;

/// Counts the members in their threads before they first meet, so that none waits at a meeting for one without a thread.
#[derive(Drop)]
pub struct RollCall {
    here: AtomicU64,
    members: u32,
}

impl RollCall {
    /// A roll call of so many members, none of which has come yet.
    pub fn new(members: u32) -> RollCall {
        RollCall {
            here: AtomicU64::new(0),
            members,
        }
    }

    /// Counts the caller, waits until all members have come or one gave up, and tells whether all have come. Each member calls it
    /// once, in its thread.
    ///
    /// The first that gives up does so for all, once it has let other threads run 200,000 times: whoever comes later is told that not
    /// all have come. (No clause says so.)
    pub fn all_here<R: Wait>(&self, rt: &R) -> bool {
        self.here.fetch_add(1, Ordering::SeqCst);
        let members = self.members as u64;
        let mut yields = 0;
        for _ in rt.forever() {
            let here = self.here.load(Ordering::SeqCst);
            if here >= members {
                return here == members;
            }
            if yields < PATIENCE {
                yields += 1;
                thread::yield_now();
            } else if self.gives_up(here) {
                return false;
            }
        }
        unreachable!()
    }

    /// Gives up for all, if no more have come than these.
    fn gives_up(&self, here: u64) -> bool {
        self.here
            .compare_exchange(here, GIVEN_UP, Ordering::SeqCst, Ordering::SeqCst)
            .is_ok()
    }
}
