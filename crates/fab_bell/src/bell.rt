//! The words that peers share, and how sleepers are woken.
ghost use Rattle.std.specs.Prelude.{◌≡◌, IfOk, length, false};

use crate::sleeper::Sleeper;
use fab_base::NoMemory;
use std::alloc::Global;
use std::sync::atomic::{AtomicU64, Ordering};
use std::sync::{Arc, Wait};
use std::time::Duration;

/// What the word of a peer holds while the peer does not say that it sleeps, and while it does.
pub(crate) const AWAKE: u64 = 0;

pub(crate) const ASLEEP: u64 = 1;

/// How many peers say that they sleep, or are about to, and the word of each. The count is never less than the number of
/// words that say so: it is raised before a word is set, and lowered by whoever found the word set and cleared it.
#[derive(Drop)]
pub(crate) struct Words {
    pub sleepers: AtomicU64,
    pub asleep: Vec<AtomicU64>,
}

impl Words {
    /// Words for so many peers, of whom none sleeps.
    fn new(alloc: Global, peers: u32) -> Result<Words, NoMemory> {
        let mut asleep = Vec::new(alloc);
        for _ in 0..peers {
            asleep.push(AtomicU64::new(AWAKE))?;
        }
        Ok(Words {
            sleepers: AtomicU64::new(0),
            asleep,
        })
    }

    /// The peer says that it sleeps. The count is raised first.
    pub(crate) fn set(&self, peer: u32) {
        if let Some(word) = self.asleep.get(peer as usize) {
            self.sleepers.fetch_add(1, Ordering::SeqCst);
            word.swap(ASLEEP, Ordering::SeqCst);
        }
    }

    /// Sleeps while the word of the peer says that it sleeps, no longer than that. It may also return for no reason.
    pub(crate) fn park<R: Wait>(&self, rt: &R, peer: u32, longest: Duration) {
        if let Some(word) = self.asleep.get(peer as usize) {
            word.park_timeout(rt, ASLEEP as u32, longest);
        }
    }

    /// The peer says no more that it sleeps, and whether it did. Whoever finds the word set lowers the count, and nobody else.
    pub(crate) fn clear(&self, peer: u32) -> bool {
        let Some(word) = self.asleep.get(peer as usize) else {
            return false;
        };
        if word.swap(AWAKE, Ordering::SeqCst) != ASLEEP {
            return false;
        }
        self.sleepers.fetch_sub(1, Ordering::SeqCst);
        true
    }

    /// Wakes a peer that says that it sleeps. Of those that would wake it at once, one does.
    fn wake(&self, peer: u32, word: &AtomicU64) {
        if word.load(Ordering::SeqCst) == ASLEEP && self.clear(peer) {
            word.wake_all();
        }
    }

    /// Wakes each peer that says that it sleeps.
    fn wake_each(&self) {
        let mut peer = 0u32;
        for word in &self.asleep {
            self.wake(peer, word);
            peer = peer.saturating_add(1);
        }
    }
}

/// The bell of an endpoint: with it the peers that sleep are woken.
#[derive(Drop)]
pub struct Bell {
    words: Arc<Words>,
    peer: u32,
}

impl Bell {
    /// A bell for each peer from 0 on, in order, of whom none sleeps.
    pub fn for_all(alloc: Global, peers: u32) -> Result<Vec<Bell>, NoMemory>
        ensures { IfOk result (λ all. length all.items ≡ peers) }
    {
        let words = Arc::new(alloc, Words::new(alloc, peers)?)?;
        let mut all = Vec::new(alloc);
        'peers: for peer in 0..peers {
            let words = Arc::try_clone(&words)?;
            all.push(Bell { words, peer })?;
        }
        Ok(all)
    }

    /// Wakes each peer that says that it sleeps: to be called behind what may be news to a peer. While nobody sleeps it reads one
    /// word, which changes only where a peer falls asleep or wakes. It never waits.
    pub fn ring(&self) {
        if self.words.sleepers.load(Ordering::SeqCst) != 0 {
            self.words.wake_each();
        }
    }

    /// Who sleeps for this peer: for the thread that waits at its endpoint.
    pub fn sleeper(&self) -> Sleeper
        ensures awake { result.says ≡ false }
    {
        Sleeper::of(Arc::try_clone(&self.words).ok(), self.peer)
    }
}
