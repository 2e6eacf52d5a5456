//! How a thread rests between two looks.
ghost use Rattle.std.specs.Prelude.{◌≡◌, ◌<◌, ◌≤◌, ℕ, IfOk, IfSome, IfNone, IsTrue, true, false};
ghost use Rattle.fab_app.specs.Clocks.{read_on};
ghost use Rattle.fab_asleep.specs.Resting.{FoundNothing};

use fab_app::clock::{Clock, ClockFailed, Moment};
use fab_app::endpoint::{Calls, Endpoint};
use fab_app::moving::BUDGET;
use fab_bell::{Sleeper, Sleeps};
use std::snapshot::Snapshot;
use std::sync::Wait;
use std::time::Duration;
use std::{hint, thread};

/// How many looks of a wait have a pause of the processor behind them, and how many more let other threads run, before it sleeps.
const SPINS: u32 = 64;

const YIELDS: u32 = 16;

/// How long a sleep lasts at most, in nanoseconds: a tenth of a second. A wake that was lost would cost so much time.
const SLICE: u64 = 100_000_000;

/// What a look leaves that found nothing: the time until the moment, in nanoseconds, and whether nothing was left to move.
#[derive(Clone, Copy, Drop)]
pub(crate) struct Left {
    pub nanos: u64,
    pub idle: bool,
}

/// That a sleeper said that it sleeps, and what its endpoint was then.
#[derive(Drop)]
pub(crate) struct Said<E: Drop> {
    at: Snapshot<Endpoint<E>>,
}

/// The same endpoint, and who sleeps at it: for the thread that waits at it. Where its domain was opened without sleeping, it yields in
/// place of sleeping. Use it with this endpoint alone: what comes for another one does not wake it.
pub fn with_sleeper<E: Sleeps + Drop>(endpoint: Endpoint<E>) -> (Endpoint<E>, Sleeper)
    ensures endpoint { result.0 ≡ endpoint }
    ensures awake { result.1.says ≡ false }
{
    let inner = endpoint.into_inner();
    let sleeper = inner.sleeper();
    (Endpoint::new(inner), sleeper)
}

/// How long it is until the moment, by one reading of the clock, or that it has passed.
pub(crate) fn time_left<C: Clock>(clock: &mut C, moment: Moment) -> Result<Option<u64>, ClockFailed>
    ensures left { IfOk result (λ left. IfSome left (λ _. (reading : ℕ) × (C.told clock.new ≡ read_on (C.told clock.old) reading) × (reading < moment.nanos))) }
    ensures passed { IfOk result (λ left. IfNone left ((reading : ℕ) × (C.told clock.new ≡ read_on (C.told clock.old) reading) × (moment.nanos ≤ reading))) }
{
    let now = clock.now()?;
    if moment.nanos <= now.nanos {
        return Ok(None);
    }
    Ok(Some(moment.nanos - now.nanos))
}

/// Whether a wait still looks without sleeping at this turn: so often with a pause of the processor behind, and as often again with other
/// threads let run.
pub(crate) fn is_awake(turn: u32, spins: u32) -> bool {
    turn / 2 < spins
}

/// The pause behind a look of a wait that does not sleep yet.
pub(crate) fn pause(turn: u32, spins: u32) {
    if turn < spins {
        hint::spin_loop();
    } else {
        thread::yield_now();
    }
}

/// Says that the peer of this endpoint sleeps, before the last look.
pub(crate) fn fall_asleep<E: Drop>(sleeper: &mut Sleeper, endpoint: &Endpoint<E>) -> Said<E>
    ensures says { sleeper.new.says ≡ true }
    ensures at { result.at.value ≡ endpoint.now }
{
    sleeper.say();
    Said {
        at: Snapshot::of(endpoint),
    }
}

/// Sleeps for a slice of the time that is left, or until somebody rings. Whoever sleeps said so, and looked once more since then: it
/// polled or made progress, no completion was there, and nothing was left to move.
fn doze<R: Wait, E: Calls + Drop>(
    rt: &R,
    endpoint: &Endpoint<E>,
    sleeper: &Sleeper,
    said: &Said<E>,
    nanos: u64,
)
    requires says { sleeper.now.says ≡ true }
    requires looked { FoundNothing E.fixed BUDGET (E.seen said.now.at.value) (E.seen endpoint.now) }
{
    let _ = endpoint;
    let _ = said;
    sleeper.doze(rt, Duration::from_nanos(nanos.min(SLICE)));
}

/// Rests behind a look that found nothing: sleeps, or lets other threads run where more may be moved at once, or where an operation waits
/// for room, for which nobody rings.
pub(crate) fn rest<R: Wait, E: Calls + Drop>(
    rt: &R,
    endpoint: &Endpoint<E>,
    sleeper: &Sleeper,
    said: &Said<E>,
    left: Left,
)
    requires says { sleeper.now.says ≡ true }
    requires looked { IsTrue left.idle → FoundNothing E.fixed BUDGET (E.seen said.now.at.value) (E.seen endpoint.now) }
{
    if left.idle && endpoint.deferred() == 0 {
        doze(rt, endpoint, sleeper, said, left.nanos);
    } else {
        thread::yield_now();
    }
}
