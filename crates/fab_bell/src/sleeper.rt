//! Who sleeps.
ghost use Rattle.std.specs.Prelude.{◌≡◌, true, false};

use crate::bell::Words;
use std::sync::{Arc, Wait};
use std::thread;
use std::time::Duration;

/// Who sleeps for a peer: for the thread that waits at its endpoint. Contracts see whether it says that it sleeps.
///
/// It says so (`say`), looks once more whether there is news, sleeps where there is none (`doze`), and says so no more (`wake`).
/// Of an endpoint that was opened without sleeping, it yields in place of sleeping.
#[derive(Drop)]
pub struct Sleeper {
    words: Option<Arc<Words>>,
    peer: u32,
    pub says: bool,
}

impl Sleeper {
    /// One that says nothing yet.
    pub(crate) fn of(words: Option<Arc<Words>>, peer: u32) -> Sleeper
        ensures awake { result.says ≡ false }
    {
        Sleeper {
            words,
            peer,
            says: false,
        }
    }

    /// One that never sleeps, but yields: of an endpoint that was opened without sleeping.
    pub fn sleepless() -> Sleeper
        ensures awake { result.says ≡ false }
    {
        Sleeper::of(None, 0)
    }

    /// Says that it sleeps: from now on whoever rings wakes it. What came before that is to be looked for once more.
    pub fn say(&mut self)
        ensures says { self.new.says ≡ true }
    {
        if let Some(words) = &self.words {
            words.set(self.peer);
        }
        self.says = true;
    }

    /// Sleeps until it is woken, no longer than that, and maybe less. Where somebody rang since it said that it sleeps, it does
    /// not sleep.
    pub fn doze<R: Wait>(&self, rt: &R, longest: Duration)
        requires says { self.now.says ≡ true }
    {
        match &self.words {
            Some(words) => words.park(rt, self.peer, longest),
            None => thread::yield_now(),
        }
    }

    /// Says no more that it sleeps.
    pub fn wake(&mut self)
        ensures awake { self.new.says ≡ false }
    {
        if let Some(words) = &self.words {
            words.clear(self.peer);
        }
        self.says = false;
    }
}

/// An endpoint at which a thread may sleep.
pub trait Sleeps {
    /// Who sleeps for the peer of this endpoint.
    fn sleeper(&self) -> Sleeper
        ensures awake { result.says ≡ false };
}
