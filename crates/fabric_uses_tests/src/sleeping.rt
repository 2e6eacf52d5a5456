//! Waits that sleep, and a message that comes between the word and the sleep.
use fabric::{
    Buf, Calls, Class, Clock, EndpointOver, Entry, Hints, Moment, Polled, Sleeper, Sleeps,
    SystemClock, cntr_wait_asleep, open, wait_asleep, with_sleeper,
};
use std::alloc::Global;
use std::rt;
use std::sync::Wait;
use std::test::Fail;
use std::time::Duration;

/// How long a sleep that nobody ends would last: longer than a test may take by half.
const LONG_SECONDS: u64 = 30;

/// How long a sleep lasts at most that is ended at once, however busy the machine is.
const SOON_SECONDS: u64 = 15;

/// How long a wait lasts for which nothing comes.
const SHORT_MILLIS: u64 = 20;

/// Whether a receive was posted.
fn posts<E: Calls + Drop>(alloc: Global, zero: &mut EndpointOver<E>) -> bool {
    match Buf::zeros(alloc, 4) {
        Ok(buf) => zero.trecv(None, 7, 0, buf, 1).is_ok(),
        Err(_) => false,
    }
}

/// Whether the completion is that of a message that came.
fn is_received(polled: &Polled) -> bool {
    matches!(polled, Polled::Entry(Entry::Received { .. }))
}

/// How long a doze lasts behind a message that came since the sleeper said that it sleeps.
fn doze_behind<R: Wait, C: Clock, E: Calls + Drop>(
    rt: &R,
    clock: &mut C,
    sleeper: &mut Sleeper,
    one: &mut EndpointOver<E>,
) -> Option<u64> {
    sleeper.say();
    let sent = one.tinject(0, 7, b"soon", None).is_ok();
    let before = clock.now().ok()?;
    sleeper.doze(rt, Duration::from_secs(LONG_SECONDS));
    let after = clock.now().ok()?;
    sleeper.wake();
    if sent {
        Some(after.nanos.saturating_sub(before.nanos))
    } else {
        None
    }
}

/// The message between the word and the sleep is not slept over.
fn is_not_slept_over<R: Wait, C: Clock, E: Calls + Drop>(
    rt: &R,
    clock: &mut C,
    sleeper: &mut Sleeper,
    one: &mut EndpointOver<E>,
) -> bool {
    match doze_behind(rt, clock, sleeper, one) {
        Some(nanos) => u128::from(nanos) < Duration::from_secs(SOON_SECONDS).as_nanos(),
        None => false,
    }
}

/// What came before the wait is found by its first look.
fn finds<R: Wait, C: Clock, E: Calls + Drop>(
    rt: &R,
    clock: &mut C,
    sleeper: &mut Sleeper,
    zero: &mut EndpointOver<E>,
    moment: Moment,
) -> bool {
    match wait_asleep(rt, zero, sleeper, clock, moment, 0) {
        Ok(polled) => is_received(&polled),
        Err(_) => false,
    }
}

/// A wait for which nothing comes ends when its moment has passed, and not before.
fn times_out<R: Wait, C: Clock, E: Calls + Drop>(
    rt: &R,
    clock: &mut C,
    sleeper: &mut Sleeper,
    zero: &mut EndpointOver<E>,
    moment: Moment,
) -> bool {
    let polled = wait_asleep(rt, zero, sleeper, clock, moment, 1);
    let silent = matches!(&polled, Ok(Polled::Idle | Polled::More));
    match clock.now() {
        Ok(now) => silent && moment.nanos <= now.nanos,
        Err(_) => false,
    }
}

/// A wait for a counter finds what was counted, and ends without the next.
fn counts<R: Wait, C: Clock, E: Calls + Drop>(
    rt: &R,
    clock: &mut C,
    sleeper: &mut Sleeper,
    zero: &mut EndpointOver<E>,
    moment: Moment,
) -> bool {
    let one = cntr_wait_asleep(rt, zero, sleeper, clock, moment, Class::Recv, 1, 0);
    let two = cntr_wait_asleep(rt, zero, sleeper, clock, moment, Class::Recv, 2, 1);
    matches!(&one, Ok(true)) && matches!(&two, Ok(false))
}

/// What holds of waits that sleep, in turn; where the domain was opened without sleeping they yield.
fn all<R: Wait + rt::Clock, E: Calls + Sleeps + Drop>(
    rt: &R,
    alloc: Global,
    endpoints: Vec<EndpointOver<E>>,
) -> Option<[bool; 5]> {
    let mut endpoints = endpoints;
    let mut one = endpoints.pop()?;
    let (mut zero, mut sleeper) = with_sleeper(endpoints.pop()?);
    let mut clock = SystemClock::new(rt);
    let posted = posts(alloc, &mut zero);
    let woken = is_not_slept_over(rt, &mut clock, &mut sleeper, &mut one);
    let moment = clock.after(Duration::from_secs(LONG_SECONDS)).ok()?;
    let found = finds(rt, &mut clock, &mut sleeper, &mut zero, moment);
    let moment = clock.after(Duration::from_millis(SHORT_MILLIS)).ok()?;
    let silent = times_out(rt, &mut clock, &mut sleeper, &mut zero, moment);
    let moment = clock.after(Duration::from_millis(SHORT_MILLIS)).ok()?;
    let counted = counts(rt, &mut clock, &mut sleeper, &mut zero, moment);
    Some([posted, woken, found, silent, counted])
}

/// The same of a domain that was opened with sleeping, or without.
fn holds<R: Wait + rt::Clock>(rt: &R, alloc: Global, sleeping: bool) -> Option<[bool; 5]> {
    match open(alloc, &Hints::new().peers(2).sleeping(sleeping)) {
        Ok(domain) => all(rt, alloc, domain.endpoints),
        Err(_) => None,
    }
}

#[test]
fn a_message_between_the_word_and_the_sleep(rt: HostRuntime) -> Result<(), Fail> {
    assert_eq!(rt; holds(&rt, rt.alloc(), true), Some([true; 5]));
    Ok(())
}

#[test]
fn without_sleeping_waits_yield(rt: HostRuntime) -> Result<(), Fail> {
    assert_eq!(rt; holds(&rt, rt.alloc(), false), Some([true; 5]));
    Ok(())
}
