//! Waits for a counter.
ghost use Rattle.std.specs.Prelude.{◌≡◌, IfOk, IfErr, OnOk, IsErrOf, IsTrue, Ok, nat_le, false};
ghost use Rattle.fab_model.specs.State.{tally_of};
ghost use Rattle.fab_face.specs.Answers.{MayLack};
ghost use Rattle.fab_app.specs.Progresses.{Progresses};
ghost use Rattle.fab_app.specs.Until.{MovesBy, MovesUntil, timed};
ghost use Rattle.fab_asleep.specs.Resting.{EndsBy, FoundNothing};

use crate::resting::{Left, fall_asleep, is_awake, pause, rest, time_left};
use fab_app::clock::{Clock, Moment};
use fab_app::endpoint::{Calls, Endpoint};
use fab_app::moving::{BUDGET, Next};
use fab_app::until::WaitFault;
use fab_base::{Class, NoMemory};
use fab_bell::Sleeper;
use std::sync::Wait;

/// How many operations of a class are waited for.
#[derive(Clone, Copy, Drop)]
struct Goal {
    class: Class,
    n: u64,
}

/// Progress, and behind it a reading of the clock; and progress once more where the moment has passed.
fn look<C: Clock, E: Calls + Drop>(
    endpoint: &mut Endpoint<E>,
    clock: &mut C,
    moment: Moment,
    goal: Goal,
) -> Result<Left, Result<bool, WaitFault>>
    ensures told { IfErr result (λ told. EndsBy E.fixed BUDGET moment.nanos (timed (C.told clock.old) (E.seen endpoint.old)) (timed (C.told clock.new) (E.seen endpoint.new)) told) }
    ensures done { IfErr result (λ told. IfOk told (λ done. done ≡ nat_le goal.n (tally_of (E.seen endpoint.new).held.state.counters goal.class).ok)) }
    ensures nothing { OnOk result (MovesBy E.fixed BUDGET moment.nanos (timed (C.told clock.old) (E.seen endpoint.old)) (timed (C.told clock.new) (E.seen endpoint.new)) (Ok false)) }
    ensures idle { IfOk result (λ left. IsTrue left.idle → FoundNothing E.fixed BUDGET (E.seen endpoint.old) (E.seen endpoint.new)) }
{
    let next = match endpoint.progress(BUDGET) {
        Ok(next) => next,
        Err(NoMemory) => return Err(Err(WaitFault::NoMemory)),
    };
    match time_left(clock, moment) {
        Ok(Some(nanos)) => {
            let idle = next == Next::Idle && !endpoint.cntr_reached(goal.class, goal.n);
            Ok(Left { nanos, idle })
        }
        Ok(None) => match endpoint.progress(BUDGET) {
            Ok(_next) => Err(Ok(endpoint.cntr_reached(goal.class, goal.n))),
            Err(NoMemory) => Err(Err(WaitFault::NoMemory)),
        },
        Err(_failed) => Err(Err(WaitFault::ClockFailed)),
    }
}

/// The same, of who says before that it sleeps, and sleeps behind it where nothing was left to move.
fn nap<R: Wait, C: Clock, E: Calls + Drop>(
    rt: &R,
    endpoint: &mut Endpoint<E>,
    sleeper: &mut Sleeper,
    clock: &mut C,
    moment: Moment,
    goal: Goal,
) -> Result<Left, Result<bool, WaitFault>>
    ensures told { IfErr result (λ told. EndsBy E.fixed BUDGET moment.nanos (timed (C.told clock.old) (E.seen endpoint.old)) (timed (C.told clock.new) (E.seen endpoint.new)) told) }
    ensures done { IfErr result (λ told. IfOk told (λ done. done ≡ nat_le goal.n (tally_of (E.seen endpoint.new).held.state.counters goal.class).ok)) }
    ensures nothing { OnOk result (MovesBy E.fixed BUDGET moment.nanos (timed (C.told clock.old) (E.seen endpoint.old)) (timed (C.told clock.new) (E.seen endpoint.new)) (Ok false)) }
    ensures awake { sleeper.new.says ≡ false }
{
    let said = fall_asleep(sleeper, endpoint);
    let looked = look(endpoint, clock, moment, goal);
    if let Ok(left) = &looked {
        rest(rt, endpoint, sleeper, &said, *left);
    }
    sleeper.wake();
    looked
}

/// A look, and a pause behind it; or a nap, where it looked often enough.
fn turned<R: Wait, C: Clock, E: Calls + Drop>(
    rt: &R,
    endpoint: &mut Endpoint<E>,
    sleeper: &mut Sleeper,
    clock: &mut C,
    moment: Moment,
    goal: Goal,
    turn: u32,
    spins: u32,
) -> Result<Left, Result<bool, WaitFault>>
    ensures told { IfErr result (λ told. EndsBy E.fixed BUDGET moment.nanos (timed (C.told clock.old) (E.seen endpoint.old)) (timed (C.told clock.new) (E.seen endpoint.new)) told) }
    ensures done { IfErr result (λ told. IfOk told (λ done. done ≡ nat_le goal.n (tally_of (E.seen endpoint.new).held.state.counters goal.class).ok)) }
    ensures nothing { OnOk result (MovesBy E.fixed BUDGET moment.nanos (timed (C.told clock.old) (E.seen endpoint.old)) (timed (C.told clock.new) (E.seen endpoint.new)) (Ok false)) }
    ensures awake { sleeper.old.says ≡ false → sleeper.new.says ≡ false }
{
    if !is_awake(turn, spins) {
        return nap(rt, endpoint, sleeper, clock, moment, goal);
    }
    let looked = look(endpoint, clock, moment, goal);
    if looked.is_ok() {
        pause(turn, spins);
    }
    looked
}

/// Makes progress, of at most 64 frames a time, until so many operations of the class succeeded or the moment has passed
/// (fi_cntr_wait(3) with a timeout), tells whether they did, and sleeps between as `wait_asleep` does. Behind the reading that the
/// moment has passed it makes progress once more. Other than fi_cntr_wait it is not ended by an operation that fails: look at
/// `cntr_readerr`. Where the completion queue is full it has to be read before more can end, and it does not sleep then. At
/// `ClockFailed` and `NoMemory` what moved stays moved. The clock is not read where so many succeeded before.
pub fn cntr_wait_asleep<R: Wait, C: Clock, E: Calls + Drop>(
    rt: &R,
    endpoint: &mut Endpoint<E>,
    sleeper: &mut Sleeper,
    clock: &mut C,
    moment: Moment,
    class: Class,
    n: u64,
    spins: u32,
) -> Result<bool, WaitFault>
    ensures moved { Progresses (E.seen endpoint.old) (E.seen endpoint.new) }
    ensures lacks { IsErrOf result WaitFault.NoMemory → MayLack E.fixed (E.seen endpoint.new) }
    ensures done { IfOk result (λ done. done ≡ nat_le n (tally_of (E.seen endpoint.new).held.state.counters class).ok) }
    ensures until { IfOk result (λ done. MovesUntil E.fixed BUDGET moment.nanos (timed (C.told clock.old) (E.seen endpoint.old)) (timed (C.told clock.new) (E.seen endpoint.new)) done) }
    ensures awake { sleeper.old.says ≡ false → sleeper.new.says ≡ false }
{
    let goal = Goal { class, n };
    let mut turn = 0u32;
    'turns: for _turn in rt.forever() {
        if endpoint.cntr_reached(class, n) {
            return Ok(true);
        }
        if let Err(told) = turned(rt, endpoint, sleeper, clock, moment, goal, turn, spins) {
            return told;
        }
        turn = turn.saturating_add(1);
    }
    unreachable!()
}
