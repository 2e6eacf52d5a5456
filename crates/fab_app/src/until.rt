//! Waits that end by a clock.
//!
//! They stand beside those that count (`wait_turns`, `flush`, `cntr_wait`). Each spins and lets other threads run, and none
//! sleeps. The clock is read only where what is waited for is not there, and this is looked for once more behind the reading
//! that the moment has passed.
ghost use Rattle.std.specs.Prelude.{◌≡◌, ◌+◌, IfOk, IfErr, OnErr, IfSome, IfNone, IsErrOf, IsTrue, Ok, nat_le};
ghost use Rattle.fab_model.specs.State.{in_use, tally_of};
ghost use Rattle.fab_face.specs.Answers.{MayLack};
ghost use Rattle.fab_app.specs.Polls.{Waits};
ghost use Rattle.fab_app.specs.Progresses.{Progresses, is_flushed};
ghost use Rattle.fab_app.specs.Until.{HasCome, MovesBy, MovesUntil, PollsUntil, Spins, SpinsUntil, ToldAs, timed};
ghost use Rattle.fab_app.specs.Within.{Misses, Times};

use crate::clock::{Clock, ClockFailed, Moment, has_passed};
use crate::completions::{Polled, is_settled};
use crate::endpoint::{Calls, Endpoint};
use crate::moving::BUDGET;
use fab_base::{Class, NoMemory};
use std::sync::Wait;
use std::thread;

/// Why a wait by the clock has no answer.
#[derive(Clone, Copy, Debug, Drop, Eq, PartialEq)]
pub enum WaitFault {
    /// The clock can't be read.
    ClockFailed,
    /// Want of memory, as the counted waits tell it.
    NoMemory,
}

impl From<ClockFailed> for WaitFault {
    ghost use Rattle.fab_app.specs.declared.until.WaitFault.{WaitFault};

    ghost from_gives = { λ _ fault. fault ≡ WaitFault.ClockFailed };

    fn from(_error: ClockFailed) -> WaitFault {
        WaitFault::ClockFailed
    }
}

impl From<NoMemory> for WaitFault {
    ghost use Rattle.fab_app.specs.declared.until.WaitFault.{WaitFault};

    ghost from_gives = { λ _ fault. fault ≡ WaitFault.NoMemory };

    fn from(_error: NoMemory) -> WaitFault {
        WaitFault::NoMemory
    }
}

/// The same answer, with the fault of a wait by the clock.
fn waited(polled: Result<Polled, NoMemory>) -> Result<Polled, WaitFault>
    ensures { ToldAs polled result }
{
    Ok(polled?)
}

impl<E: Calls + Drop> Endpoint<E> {
    /// A turn of polls, and what came of it, if anything did.
    fn spun(&mut self, spins: u32) -> Option<Result<Polled, WaitFault>>
        ensures some { IfSome result (λ told. Spins E.fixed BUDGET spins (E.seen self.old) (E.seen self.new) told × HasCome told) }
        ensures moved { IfNone result (Progresses (E.seen self.old) (E.seen self.new)) }
        ensures none { IfNone result (Times (Misses E.fixed BUDGET) (spins + 1) (E.seen self.old) (E.seen self.new)) }
    {
        let polled = self.spin(spins);
        if is_settled(&polled) {
            Some(waited(polled))
        } else {
            None
        }
    }

    /// Turns of polls until something comes or the moment has passed, and one more turn behind that.
    fn spin_until<R: Wait, C: Clock>(
        &mut self,
        rt: &R,
        clock: &mut C,
        moment: Moment,
        spins: u32,
    ) -> Result<Polled, WaitFault>
        ensures { SpinsUntil E.fixed BUDGET spins moment.nanos (timed (C.told clock.old) (E.seen self.old)) (timed (C.told clock.new) (E.seen self.new)) result }
    {
        'turns: for _turn in rt.forever() {
            if let Some(told) = self.spun(spins) {
                return told;
            }
            let late = has_passed(clock, moment)?;
            if late {
                return waited(self.spin(spins));
            }
            thread::yield_now();
        }
        unreachable!()
    }

    /// Waits for a completion, an error among them, until the moment has passed (fi_cq_sread(3) with a timeout). It polls as a
    /// turn of `wait_turns` does, `spins` times and once more, each of at most 64 frames, with a pause of the processor between,
    /// and then reads the clock and lets other threads run. Behind the reading that the moment has passed it polls for one more
    /// turn, so that what was there by then is found, however long other threads ran. It spins, and does not sleep.
    ///
    /// `Idle` and `More` say that the moment has passed and none came. At `ClockFailed` and `NoMemory` no completion is taken, and
    /// what moved stays moved. The clock is not read where there is a completion at once.
    pub fn wait_until<R: Wait, C: Clock>(
        &mut self,
        rt: &R,
        clock: &mut C,
        moment: Moment,
        spins: u32,
    ) -> Result<Polled, WaitFault>
        ensures waits { IfOk result (λ polled. Waits E.fixed BUDGET (E.seen self.old) (E.seen self.new) (Ok polled)) }
        ensures until { IfOk result (λ polled. PollsUntil E.fixed BUDGET spins moment.nanos (timed (C.told clock.old) (E.seen self.old)) (timed (C.told clock.new) (E.seen self.new)) (Ok polled)) }
        ensures err { OnErr result (Progresses (E.seen self.old) (E.seen self.new)) }
        ensures lacks { IsErrOf result WaitFault.NoMemory → MayLack E.fixed (E.seen self.new) }
    {
        self.spin_until(rt, clock, moment, spins)
    }

    /// Makes progress and reads the clock, and tells whether the moment has passed: then it made progress once more.
    fn move_by<C: Clock>(&mut self, clock: &mut C, moment: Moment) -> Result<bool, WaitFault>
        ensures { MovesBy E.fixed BUDGET moment.nanos (timed (C.told clock.old) (E.seen self.old)) (timed (C.told clock.new) (E.seen self.new)) result }
    {
        self.progress(BUDGET)?;
        let passed = has_passed(clock, moment)?;
        if passed {
            self.progress(BUDGET)?;
            return Ok(true);
        }
        Ok(false)
    }

    /// Makes progress, of at most 64 frames a time, until no operation is under way or the moment has passed, lets other threads
    /// run between, and tells whether none is. Behind the reading that the moment has passed it makes progress once more. Where the
    /// completion queue is full it has to be read before more can end. At `ClockFailed` and `NoMemory` what moved stays moved. The
    /// clock is not read where no operation is under way.
    pub fn flush_until<R: Wait, C: Clock>(
        &mut self,
        rt: &R,
        clock: &mut C,
        moment: Moment,
    ) -> Result<bool, WaitFault>
        ensures moved { Progresses (E.seen self.old) (E.seen self.new) }
        ensures lacks { IsErrOf result WaitFault.NoMemory → MayLack E.fixed (E.seen self.new) }
        ensures done { IfOk result (λ done. done ≡ is_flushed (E.seen self.new).held.state) }
        ensures ended { IfOk result (λ done. IsTrue done → in_use (E.seen self.new).held.state.tx ≡ 0) }
        ensures until { IfOk result (λ done. MovesUntil E.fixed BUDGET moment.nanos (timed (C.told clock.old) (E.seen self.old)) (timed (C.told clock.new) (E.seen self.new)) done) }
    {
        'turns: for _turn in rt.forever() {
            if self.is_flushed() {
                return Ok(true);
            }
            let late = self.move_by(clock, moment)?;
            if late {
                return Ok(self.is_flushed());
            }
            thread::yield_now();
        }
        unreachable!()
    }

    /// Makes progress, of at most 64 frames a time, until so many operations of the class succeeded or the moment has passed
    /// (fi_cntr_wait(3) with a timeout), lets other threads run between, and tells whether they did. Behind the reading that the
    /// moment has passed it makes progress once more. Other than fi_cntr_wait it is not ended by an operation that fails: look at
    /// `cntr_readerr`. Where the completion queue is full it has to be read before more can end. At `ClockFailed` and `NoMemory`
    /// what moved stays moved. It spins, and does not sleep. The clock is not read where so many succeeded before.
    pub fn cntr_wait_until<R: Wait, C: Clock>(
        &mut self,
        rt: &R,
        clock: &mut C,
        moment: Moment,
        class: Class,
        n: u64,
    ) -> Result<bool, WaitFault>
        ensures moved { Progresses (E.seen self.old) (E.seen self.new) }
        ensures lacks { IsErrOf result WaitFault.NoMemory → MayLack E.fixed (E.seen self.new) }
        ensures done { IfOk result (λ done. done ≡ nat_le n (tally_of (E.seen self.new).held.state.counters class).ok) }
        ensures until { IfOk result (λ done. MovesUntil E.fixed BUDGET moment.nanos (timed (C.told clock.old) (E.seen self.old)) (timed (C.told clock.new) (E.seen self.new)) done) }
    {
        'turns: for _turn in rt.forever() {
            if self.cntr_reached(class, n) {
                return Ok(true);
            }
            let late = self.move_by(clock, moment)?;
            if late {
                return Ok(self.cntr_reached(class, n));
            }
            thread::yield_now();
        }
        unreachable!()
    }
}
