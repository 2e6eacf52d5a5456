//! Waits by a clock that is written down, so that it is known how often it is read.
use fabric::{
    Buf, Calls, Clock, ClockFailed, EndpointOver, Hints, Moment, NoClock, SystemClock, WaitFault,
    open,
};
use fabric_uses::waiting::{came_by, is_crowded, is_late, is_quiet_by, send_by};
use std::alloc::Global;
use std::rt;
use std::sync::Wait;
use std::test::Fail;
use std::time::Duration;

/// A clock that gives 1, 2, 3 nanoseconds and so on, and can't be read behind the last of so many.
#[derive(Drop)]
struct Ticks {
    given: u64,
    last: u64,
    ends: u64,
}

impl Clock for Ticks {
    ghost told = { λ clock. record { given = clock.given; last = clock.last } };

    fn now(&mut self) -> Result<Moment, ClockFailed> {
        if self.last >= self.ends {
            return Err(ClockFailed);
        }
        self.last += 1;
        self.given = self.given.saturating_add(1);
        Ok(Moment { nanos: self.last })
    }
}

fn readings_until(ends: u64) -> Ticks {
    Ticks {
        given: 0,
        last: 0,
        ends,
    }
}

/// The moment that the third reading passes.
const THIRD: Moment = Moment { nanos: 3 };

/// Where nothing comes the clock is read until it passes the moment, and no further.
fn waits<R: Wait, E: Calls + Drop>(rt: &R, zero: &mut EndpointOver<E>) -> bool {
    let mut clock = readings_until(9);
    is_late(rt, &mut clock, zero, THIRD) && clock.given == 3
}

/// The same by the clock of the system.
fn waits_long<R: Wait + rt::Clock, E: Calls + Drop>(rt: &R, zero: &mut EndpointOver<E>) -> bool {
    let mut clock = SystemClock::new(rt);
    match clock.after(Duration::from_millis(2)) {
        Ok(moment) => is_late(rt, &mut clock, zero, moment),
        Err(_) => false,
    }
}

/// A clock that fails on the way is told.
fn fails<R: Wait, E: Calls + Drop>(rt: &R, zero: &mut EndpointOver<E>) -> bool {
    let mut clock = readings_until(2);
    match zero.wait_until(rt, &mut clock, THIRD, 0) {
        Err(WaitFault::ClockFailed) => clock.given == 2,
        _ => false,
    }
}

/// Whether a message to the other one is accepted by the moment.
fn sends<R: Wait, E: Calls + Drop>(
    rt: &R,
    alloc: Global,
    clock: &mut Ticks,
    one: &mut EndpointOver<E>,
) -> bool {
    match Buf::copy(alloc, b"late") {
        Ok(buf) => send_by(rt, clock, one, THIRD, 0, buf, 1).is_none(),
        Err(_) => false,
    }
}

/// Whether a receive is refused for now.
fn crowds<R: Wait, E: Calls + Drop>(
    rt: &R,
    alloc: Global,
    clock: &mut Ticks,
    zero: &mut EndpointOver<E>,
) -> bool {
    match Buf::zeros(alloc, 4) {
        Ok(buf) => is_crowded(rt, clock, zero, THIRD, 5, buf, 2),
        Err(_) => false,
    }
}

/// One receive may be posted, and the second is refused when the moment has passed.
fn posts<R: Wait, E: Calls + Drop>(rt: &R, alloc: Global, zero: &mut EndpointOver<E>) -> bool {
    let mut clock = readings_until(9);
    !crowds(rt, alloc, &mut clock, zero)
        && clock.given == 0
        && crowds(rt, alloc, &mut clock, zero)
        && clock.given == 3
}

/// Two operations may be under way, and a lane holds one frame: the third send comes back when the moment has passed.
fn fills<R: Wait, E: Calls + Drop>(rt: &R, alloc: Global, one: &mut EndpointOver<E>) -> bool {
    let mut clock = readings_until(9);
    one.tinject(0, 5, b"soon", None).is_ok()
        && one.inject(0, b"then", None).is_ok()
        && one.inject(0, b"last", None).is_ok()
        && !is_quiet_by(rt, &mut NoClock, one, THIRD)
        && !sends(rt, alloc, &mut clock, one)
        && clock.given == 3
}

/// What is there is told, and the clock is not read again.
fn finds<R: Wait, E: Calls + Drop>(rt: &R, zero: &mut EndpointOver<E>) -> bool {
    let mut clock = readings_until(9);
    came_by(rt, &mut clock, zero, THIRD, 1) == Some(true)
        && clock.given == 1
        && !is_late(rt, &mut clock, zero, THIRD)
        && clock.given == 1
}

/// What holds of the waits, in turn.
fn all<R: Wait + rt::Clock, E: Calls + Drop>(
    rt: &R,
    alloc: Global,
    endpoints: Vec<EndpointOver<E>>,
) -> Option<[bool; 6]> {
    let mut endpoints = endpoints;
    let mut one = endpoints.pop()?;
    let mut zero = endpoints.pop()?;
    let waited = waits(rt, &mut zero);
    let long = waits_long(rt, &mut zero);
    let failed = fails(rt, &mut zero);
    let posted = posts(rt, alloc, &mut zero);
    let filled = fills(rt, alloc, &mut one);
    let found = finds(rt, &mut zero);
    Some([waited, long, failed, posted, filled, found])
}

#[test]
fn the_moments(rt: HostRuntime) -> Result<(), Fail> {
    let hints = Hints::new().peers(2).lane(1).tx(2).rx(1);
    let held = match open(rt.alloc(), &hints) {
        Ok(domain) => all(&rt, rt.alloc(), domain.endpoints),
        Err(_) => None,
    };
    assert_eq!(rt; held, Some([true; 6]));
    Ok(())
}
