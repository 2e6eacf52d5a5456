//! Waits for a completion.
ghost use Rattle.std.specs.Prelude.{◌≡◌, IfOk, IfErr, OnOk, OnErr, IsErrOf, IsTrue, Ok, false};
ghost use Rattle.fab_face.specs.Answers.{MayLack};
ghost use Rattle.fab_app.specs.Polls.{Waits};
ghost use Rattle.fab_app.specs.Progresses.{Progresses};
ghost use Rattle.fab_app.specs.Until.{Early, HasCome, PollsUntil, Spins, SpinsUntil, ToldAs, timed};
ghost use Rattle.fab_app.specs.Within.{Misses, Times};
ghost use Rattle.fab_asleep.specs.Resting.{FoundNothing};

use crate::resting::{Left, fall_asleep, is_awake, pause, rest, time_left};
use fab_app::clock::{Clock, Moment};
use fab_app::completions::Polled;
use fab_app::endpoint::{Calls, Endpoint};
use fab_app::moving::BUDGET;
use fab_app::until::WaitFault;
use fab_base::NoMemory;
use fab_bell::Sleeper;
use std::sync::Wait;

/// The same answer, with the fault of a wait by the clock.
fn waited(polled: Result<Polled, NoMemory>) -> Result<Polled, WaitFault>
    ensures { ToldAs polled result }
{
    Ok(polled?)
}

/// A poll: what came, or else whether nothing was left to move.
fn polled<E: Calls + Drop>(endpoint: &mut Endpoint<E>) -> Result<bool, Result<Polled, WaitFault>>
    ensures told { IfErr result (λ told. Spins E.fixed BUDGET 0 (E.seen endpoint.old) (E.seen endpoint.new) told × HasCome told) }
    ensures missed { OnOk result (Misses E.fixed BUDGET (E.seen endpoint.old) (E.seen endpoint.new)) }
    ensures moved { OnOk result (Progresses (E.seen endpoint.old) (E.seen endpoint.new)) }
    ensures idle { IfOk result (λ idle. IsTrue idle → FoundNothing E.fixed BUDGET (E.seen endpoint.old) (E.seen endpoint.new)) }
{
    match endpoint.poll(BUDGET) {
        Ok(Polled::Idle) => Ok(true),
        Ok(Polled::More) => Ok(false),
        Ok(Polled::Entry(entry)) => Err(Ok(Polled::Entry(entry))),
        Ok(Polled::Error(error)) => Err(Ok(Polled::Error(error))),
        Err(NoMemory) => Err(Err(WaitFault::NoMemory)),
    }
}

/// A poll, and behind it a reading of the clock, where it found no completion; and one more poll where the moment has passed.
fn look<C: Clock, E: Calls + Drop>(
    endpoint: &mut Endpoint<E>,
    clock: &mut C,
    moment: Moment,
) -> Result<Left, Result<Polled, WaitFault>>
    ensures told { IfErr result (λ told. SpinsUntil E.fixed BUDGET 0 moment.nanos (timed (C.told clock.old) (E.seen endpoint.old)) (timed (C.told clock.new) (E.seen endpoint.new)) told) }
    ensures nothing { OnOk result (Early (Times (Misses E.fixed BUDGET) 1) moment.nanos (timed (C.told clock.old) (E.seen endpoint.old)) (timed (C.told clock.new) (E.seen endpoint.new))) }
    ensures moved { OnOk result (Progresses (E.seen endpoint.old) (E.seen endpoint.new)) }
    ensures idle { IfOk result (λ left. IsTrue left.idle → FoundNothing E.fixed BUDGET (E.seen endpoint.old) (E.seen endpoint.new)) }
{
    let idle = match polled(endpoint) {
        Ok(idle) => idle,
        Err(told) => return Err(told),
    };
    match time_left(clock, moment) {
        Ok(Some(nanos)) => Ok(Left { nanos, idle }),
        Ok(None) => Err(waited(endpoint.poll(BUDGET))),
        Err(_failed) => Err(Err(WaitFault::ClockFailed)),
    }
}

/// The same, of who says before that it sleeps, and sleeps behind it where nothing was left to move.
fn nap<R: Wait, C: Clock, E: Calls + Drop>(
    rt: &R,
    endpoint: &mut Endpoint<E>,
    sleeper: &mut Sleeper,
    clock: &mut C,
    moment: Moment,
) -> Result<Left, Result<Polled, WaitFault>>
    ensures told { IfErr result (λ told. SpinsUntil E.fixed BUDGET 0 moment.nanos (timed (C.told clock.old) (E.seen endpoint.old)) (timed (C.told clock.new) (E.seen endpoint.new)) told) }
    ensures nothing { OnOk result (Early (Times (Misses E.fixed BUDGET) 1) moment.nanos (timed (C.told clock.old) (E.seen endpoint.old)) (timed (C.told clock.new) (E.seen endpoint.new))) }
    ensures moved { OnOk result (Progresses (E.seen endpoint.old) (E.seen endpoint.new)) }
    ensures awake { sleeper.new.says ≡ false }
{
    let said = fall_asleep(sleeper, endpoint);
    let looked = look(endpoint, clock, moment);
    if let Ok(left) = &looked {
        rest(rt, endpoint, sleeper, &said, *left);
    }
    sleeper.wake();
    looked
}

/// A look, and a pause behind it; or a nap, where it looked often enough.
fn turned<R: Wait, C: Clock, E: Calls + Drop>(
    rt: &R,
    endpoint: &mut Endpoint<E>,
    sleeper: &mut Sleeper,
    clock: &mut C,
    moment: Moment,
    turn: u32,
    spins: u32,
) -> Result<Left, Result<Polled, WaitFault>>
    ensures told { IfErr result (λ told. SpinsUntil E.fixed BUDGET 0 moment.nanos (timed (C.told clock.old) (E.seen endpoint.old)) (timed (C.told clock.new) (E.seen endpoint.new)) told) }
    ensures nothing { OnOk result (Early (Times (Misses E.fixed BUDGET) 1) moment.nanos (timed (C.told clock.old) (E.seen endpoint.old)) (timed (C.told clock.new) (E.seen endpoint.new))) }
    ensures moved { OnOk result (Progresses (E.seen endpoint.old) (E.seen endpoint.new)) }
    ensures awake { sleeper.old.says ≡ false → sleeper.new.says ≡ false }
{
    if !is_awake(turn, spins) {
        return nap(rt, endpoint, sleeper, clock, moment);
    }
    let looked = look(endpoint, clock, moment);
    if looked.is_ok() {
        pause(turn, spins);
    }
    looked
}

/// Turns until something comes or the moment has passed, and one more poll behind that.
fn turn_until<R: Wait, C: Clock, E: Calls + Drop>(
    rt: &R,
    endpoint: &mut Endpoint<E>,
    sleeper: &mut Sleeper,
    clock: &mut C,
    moment: Moment,
    spins: u32,
) -> Result<Polled, WaitFault>
    ensures told { SpinsUntil E.fixed BUDGET 0 moment.nanos (timed (C.told clock.old) (E.seen endpoint.old)) (timed (C.told clock.new) (E.seen endpoint.new)) result }
    ensures awake { sleeper.old.says ≡ false → sleeper.new.says ≡ false }
{
    let mut turn = 0u32;
    'turns: for _turn in rt.forever() {
        if let Err(told) = turned(rt, endpoint, sleeper, clock, moment, turn, spins) {
            return told;
        }
        turn = turn.saturating_add(1);
    }
    unreachable!()
}

/// Waits for a completion, an error among them, until the moment has passed (fi_cq_sread(3) with a timeout), and sleeps where none
/// comes. It polls, each time at most 64 frames, and reads the clock behind each poll: `spins` times with a pause of the processor between, as often
/// again with other threads let run between, and then it sleeps between, until a peer rings, for a tenth of a second at most. Before each
/// sleep it says that it sleeps, and polls once more. It does not sleep where more may be moved at once, or where an operation of its
/// own waits for room. With no spins it sleeps where its first poll finds nothing.
///
/// `Idle` and `More` say that the moment has passed and none came: it polled once more behind the reading that says so. At `ClockFailed` and
/// `NoMemory` no completion is taken, and what moved stays moved. The clock is not read where there is a completion at once.
pub fn wait_asleep<R: Wait, C: Clock, E: Calls + Drop>(
    rt: &R,
    endpoint: &mut Endpoint<E>,
    sleeper: &mut Sleeper,
    clock: &mut C,
    moment: Moment,
    spins: u32,
) -> Result<Polled, WaitFault>
    ensures waits { IfOk result (λ polled. Waits E.fixed BUDGET (E.seen endpoint.old) (E.seen endpoint.new) (Ok polled)) }
    ensures until { IfOk result (λ polled. PollsUntil E.fixed BUDGET 0 moment.nanos (timed (C.told clock.old) (E.seen endpoint.old)) (timed (C.told clock.new) (E.seen endpoint.new)) (Ok polled)) }
    ensures err { OnErr result (Progresses (E.seen endpoint.old) (E.seen endpoint.new)) }
    ensures lacks { IsErrOf result WaitFault.NoMemory → MayLack E.fixed (E.seen endpoint.new) }
    ensures awake { sleeper.old.says ≡ false → sleeper.new.says ≡ false }
{
    turn_until(rt, endpoint, sleeper, clock, moment, spins)
}
