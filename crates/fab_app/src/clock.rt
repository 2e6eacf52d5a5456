//! Clocks, which tell when a wait ends.
ghost use Rattle.std.specs.Prelude.{◌≡◌, IfOk, OnErr, nat_le, ℕ};
ghost use Rattle.std.specs.Duration.{as_nanos};
ghost use Rattle.fab_app.specs.Clocks.{Told, later, read_on};

use std::rt;
use std::time::Duration;

/// A moment of a clock, in nanoseconds after some moment that all of this clock's share. Moments of two clocks have nothing
/// to do with one another.
#[derive(Clone, Copy, Drop, Eq, PartialEq)]
pub struct Moment {
    pub nanos: u64,
}

impl Moment {
    /// The moment so much later, or the last one that there is, 2^64 - 1 nanoseconds (584 years) after the first.
    pub fn after(self, duration: Duration) -> Moment
        ensures { result.nanos ≡ later self.nanos (as_nanos duration) }
    {
        let nanos = u64::try_from(duration.as_nanos()).unwrap_or(u64::MAX);
        Moment {
            nanos: self.nanos.saturating_add(nanos),
        }
    }
}

/// The clock can't be read.
#[derive(Clone, Copy, Debug, Drop, Eq, PartialEq)]
pub struct ClockFailed;

/// What tells the time.
///
/// It tells how many moments it has given, in a count that stays at 2^64 - 1, and the last of them.
pub trait Clock {
    ghost told: { Self → Told };

    /// This moment. Nothing says that it is no earlier than the last one.
    fn now(&mut self) -> Result<Moment, ClockFailed>
        ensures ok { IfOk result (λ moment. told self.new ≡ read_on (told self.old) moment.nanos) }
        ensures err { OnErr result (told self.new ≡ told self.old) };

    /// The moment so long from now, by one reading.
    fn after(&mut self, duration: Duration) -> Result<Moment, ClockFailed>
        ensures moment { IfOk result (λ moment. moment.nanos ≡ later (told self.new).last (as_nanos duration)) }
        ensures read { IfOk result (λ moment. (reading : ℕ) × (told self.new ≡ read_on (told self.old) reading)) }
        ensures err { OnErr result (told self.new ≡ told self.old) }
    {
        Ok(self.now()?.after(duration))
    }
}

/// Whether the moment has passed, by one reading of the clock.
pub(crate) fn has_passed<C: Clock>(clock: &mut C, moment: Moment) -> Result<bool, ClockFailed>
    ensures { IfOk result (λ passed. (reading : ℕ) × (C.told clock.new ≡ read_on (C.told clock.old) reading) × (passed ≡ nat_le moment.nanos reading)) }
{
    let now = clock.now()?;
    Ok(moment.nanos <= now.nanos)
}

/// The system's clock that never goes back, by no clause.
#[derive(Drop)]
pub struct SystemClock<'a, R: rt::Clock> {
    rt: &'a R,
    given: u64,
    last: u64,
}

impl<'a, R: rt::Clock> SystemClock<'a, R> {
    /// The clock of the runtime, which gave no moment yet.
    pub fn new(rt: &'a R) -> SystemClock<'a, R> {
        SystemClock {
            rt,
            given: 0,
            last: 0,
        }
    }
}

impl<R: rt::Clock> Clock for SystemClock<'_, R> {
    ghost told = { λ clock. record { given = clock.given; last = clock.last } };

    fn now(&mut self) -> Result<Moment, ClockFailed> {
        let Ok(time) = self.rt.monotonic() else {
            return Err(ClockFailed);
        };
        self.last = u64::try_from(time.as_nanos()).unwrap_or(u64::MAX);
        self.given = self.given.saturating_add(1);
        Ok(Moment { nanos: self.last })
    }
}

/// A clock that can't be read, for who has none: a wait by it ends where another one would look at the clock.
#[derive(Clone, Copy, Drop)]
pub struct NoClock;

impl Clock for NoClock {
    ghost told = { λ _. record { given = 0; last = 0 } };

    fn now(&mut self) -> Result<Moment, ClockFailed> {
        Err(ClockFailed)
    }
}
