//! The counters.
ghost use Rattle.std.specs.Prelude.{◌≡◌, ◌<◌, nat_le};
ghost use Rattle.fab_model.specs.State.{counting, class_place, tally_of, one_more};
ghost use Rattle.fab_cq.specs.Counts.{no_counts, adding};

use fab_base::{Class, Tally};
use std::marker::Model;

/// How many classes there are.
const CLASSES: usize = 6;

/// The counters of an endpoint (fi_cntr(3)): for each class how many operations succeeded and how many failed. A number
/// at 2^64 - 1 stays there. Contracts see the list of the six.
#[derive(Drop)]
pub struct Counters {
    tallies: [Tally; CLASSES],
}

impl Model for Counters {
    ghost use Rattle.std.specs.Prelude.{◌≡◌, List, length};
    ghost use Rattle.fab_base.specs.declared.operations.Tally.{Tally};

    ghost Value = { List Tally };

    ghost view = { λ c. c.tallies };

    ghost invariant = { λ c. length c.tallies ≡ 6 };
}

/// Where the counter of the class stands.
fn place(class: Class) -> usize
    ensures place { result ≡ class_place class }
    ensures below { result < 6 }
{
    match class {
        Class::Send => 0,
        Class::Recv => 1,
        Class::Read => 2,
        Class::Write => 3,
        Class::RemoteRead => 4,
        Class::RemoteWrite => 5,
    }
}

/// The tally after one more success or error.
fn one_more(good: bool, tally: Tally) -> Tally
    ensures { result ≡ one_more good tally }
{
    let Tally { ok, err } = tally;
    if good {
        Tally {
            ok: ok.saturating_add(1),
            err,
        }
    } else {
        Tally {
            ok,
            err: err.saturating_add(1),
        }
    }
}

impl Counters {
    /// Nothing is counted yet.
    pub fn new() -> Counters
        ensures { result ≡ no_counts }
    {
        Counters {
            tallies: [Tally { ok: 0, err: 0 }; CLASSES],
        }
    }

    fn tally(&self, class: Class) -> Tally
        ensures { result ≡ tally_of self.now class }
    {
        self.tallies[place(class)]
    }

    /// Counts a success or, where not `good`, an error of this class.
    pub fn count(&mut self, class: Class, good: bool)
        ensures { self.new ≡ counting class good self.old }
    {
        let tally = self.tally(class);
        self.tallies[place(class)] = one_more(good, tally);
    }

    /// Adds `n` to the successes of this class (fi_cntr_add).
    pub fn add(&mut self, class: Class, n: u64)
        ensures { self.new ≡ adding class n self.old }
    {
        let Tally { ok, err } = self.tally(class);
        self.tallies[place(class)] = Tally {
            ok: ok.saturating_add(n),
            err,
        };
    }

    /// The number of successes of this class (fi_cntr_read).
    pub fn read(&self, class: Class) -> u64
        ensures { result ≡ (tally_of self.now class).ok }
    {
        self.tally(class).ok
    }

    /// The number of errors of this class (fi_cntr_readerr).
    pub fn read_err(&self, class: Class) -> u64
        ensures { result ≡ (tally_of self.now class).err }
    {
        self.tally(class).err
    }

    /// Whether the successes of this class are at least `n`.
    pub fn reached(&self, class: Class, n: u64) -> bool
        ensures { result ≡ nat_le n (tally_of self.now class).ok }
    {
        n <= self.tally(class).ok
    }
}
