//! Counters (fi_cntr(3)) and the address vector (fi_av(3)).
//!
//! A peer has a number, under which it was opened, and an index, under which it stands in the address vector: calls take
//! the index, and completions tell the number. Both are the same until an address is removed or inserted.
ghost use Rattle.std.specs.Prelude.{◌≡◌, ◌<◌, ◌^◌, length, nat_le, position, OnOk, OnErr, IfOk, IfErr};
ghost use Rattle.fab_base.specs.declared.peers.LineResult.TheVariants.{Done, Refused as Answer};
ghost use Rattle.fab_model.specs.State.{tally_of};
ghost use Rattle.fab_model.specs.Calls.{Remove, is_peer};
ghost use Rattle.fab_face.specs.Held.{with_machine};
ghost use Rattle.fab_face.specs.Answers.{Inserts, Locally, MayLack, adding};
ghost use Rattle.fab_app.specs.Progresses.{Progresses};
ghost use Rattle.fab_app.specs.Within.{MovesWithin};

use crate::endpoint::{Calls, Endpoint};
use crate::moving::BUDGET;
use fab_av::InsertReport;
use fab_base::{Class, Fault, NoMemory, Text};
use std::thread;

impl<E: Calls + Drop> Endpoint<E> {
    /// How many operations of the class succeeded (fi_cntr_read). It stays at 2^64 - 1. It makes no progress, as a read of other
    /// providers may: `progress`, `poll` and `cntr_wait` do.
    pub fn cntr_read(&self, class: Class) -> u64
        ensures { result ≡ (tally_of (E.seen self.now).held.state.counters class).ok }
    {
        self.inner.cntr_read(class)
    }

    /// How many operations of the class failed (fi_cntr_readerr). It stays at 2^64 - 1. It makes no progress.
    pub fn cntr_readerr(&self, class: Class) -> u64
        ensures { result ≡ (tally_of (E.seen self.now).held.state.counters class).err }
    {
        self.inner.cntr_readerr(class)
    }

    /// Whether so many operations of the class succeeded.
    pub fn cntr_reached(&self, class: Class, n: u64) -> bool
        ensures { result ≡ nat_le n (tally_of (E.seen self.now).held.state.counters class).ok }
    {
        self.inner.cntr_reached(class, n)
    }

    /// Makes progress, of at most 64 frames a time, until so many operations of the class succeeded, at most so many times, lets
    /// other threads run between, and tells whether they did. Other than fi_cntr_wait it is not ended by an operation that fails:
    /// look at `cntr_readerr`. Where the completion queue is full it has to be read before more can end. At `NoMemory` what moved
    /// stays moved.
    pub fn cntr_wait(&mut self, class: Class, n: u64, times: u32) -> Result<bool, NoMemory>
        ensures moved { Progresses (E.seen self.old) (E.seen self.new) }
        ensures lacks { OnErr result (MayLack E.fixed (E.seen self.new)) }
        ensures done { IfOk result (λ done. done ≡ nat_le n (tally_of (E.seen self.new).held.state.counters class).ok) }
        ensures tries { IfOk result (λ done. MovesWithin E.fixed BUDGET times (E.seen self.old) (E.seen self.new) done) }
    {
        'times: for _time in 0..times {
            if self.cntr_reached(class, n) {
                return Ok(true);
            }
            self.progress(BUDGET)?;
            thread::yield_now();
        }
        Ok(self.cntr_reached(class, n))
    }

    /// Adds to the successes of the class (fi_cntr_add).
    pub fn cntr_add(&mut self, class: Class, n: u64)
        ensures { E.seen self.new ≡ record (E.seen self.old) { held = with_machine (adding class n (E.seen self.old).held.state) (E.seen self.old).held } }
    {
        self.inner.cntr_add(class, n);
    }

    /// Inserts names, fewer than 2^32, into the address vector (fi_av_insert), each at the next index, and not at the lowest unused one. A name whose
    /// peer stands there gives the index that it has. One that names no peer gives none, as does each new one once 4,096
    /// indices were given. Want of memory leaves the vector as it was.
    pub fn insert(&mut self, names: &[Text]) -> Result<InsertReport, NoMemory>
        requires { length names.now < 2 ^ 32 }
        ensures ok { IfOk result (λ report. Inserts names.now report (E.seen self.old) (E.seen self.new)) }
        ensures err { OnErr result (E.seen self.new ≡ E.seen self.old) }
    {
        self.inner.insert(names)
    }

    /// Removes an address (fi_av_remove). What was accepted before is not touched. `NoEntry` where no address stands there.
    pub fn remove(&mut self, index: u32) -> Result<(), Fault>
        ensures ok { OnOk result (Locally (Remove index) Done (E.seen self.old) (E.seen self.new)) }
        ensures err { IfErr result (λ why. Locally (Remove index) (Answer why) (E.seen self.old) (E.seen self.new)) }
    {
        self.inner.remove(index)
    }

    /// The index under which the peer stands; None is FI_ADDR_NOTAVAIL.
    pub fn index_of(&self, peer: u32) -> Option<u32>
        ensures { result ≡ position (is_peer peer) (E.seen self.now).held.state.av }
    {
        self.inner.index_of(peer)
    }
}
