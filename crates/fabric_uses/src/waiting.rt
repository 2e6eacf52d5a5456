//! Waits that end by a clock. The clock is handed in (`SystemClock::new(&rt)`), and the leave to wait (`&rt`).
ghost use Rattle.std.specs.Prelude.{◌≡◌, ◌≤◌, false, Ok, IfNone, IfSome, IsTrue};
ghost use Rattle.fabric.specs.Polls.{has_come};
ghost use Rattle.fabric.specs.State.{tally_of};
ghost use Rattle.fabric_uses.specs.Uses.{IsAllRead, IsForNow, IsQuiet, SendsInTime};

use fabric::{Buf, COMPLETES, Calls, Class, Clock, EndpointOver, Fault, Moment, Polled, TryFault};
use std::sync::Wait;

/// How many polls are made, and one more, before the clock is read.
const SPINS: u32 = 8;

fn is_none(polled: Polled) -> bool
    ensures { IsTrue result → has_come (Ok polled) ≡ false }
{
    match polled {
        Polled::Idle | Polled::More => true,
        Polled::Entry(_) | Polled::Error(_) => false,
    }
}

/// Waits for a completion, which is dropped, and tells whether none came: then the moment has passed, by the clock's own word, and
/// there is no completion to read.
pub fn is_late<R: Wait, C: Clock, E: Calls + Drop>(
    rt: &R,
    clock: &mut C,
    endpoint: &mut EndpointOver<E>,
    moment: Moment,
) -> bool
    ensures passed { IsTrue result → moment.nanos ≤ (C.told clock.new).last }
    ensures read { IsTrue result → IsAllRead (E.seen endpoint.new) }
{
    match endpoint.wait_until(rt, clock, moment, SPINS) {
        Ok(polled) => is_none(polled),
        Err(_) => false,
    }
}

/// Moves what can be moved until the moment, and tells whether every operation has ended.
pub fn is_quiet_by<R: Wait, C: Clock, E: Calls + Drop>(
    rt: &R,
    clock: &mut C,
    endpoint: &mut EndpointOver<E>,
    moment: Moment,
) -> bool
    ensures { IsTrue result → IsQuiet (E.seen endpoint.new) }
{
    match endpoint.flush_until(rt, clock, moment) {
        Ok(done) => done,
        Err(_) => false,
    }
}

/// Whether so many messages came by the moment, or `None` where the clock can't be read or memory lacks.
pub fn came_by<R: Wait, C: Clock, E: Calls + Drop>(
    rt: &R,
    clock: &mut C,
    endpoint: &mut EndpointOver<E>,
    moment: Moment,
    n: u64,
) -> Option<bool>
    ensures came { IfSome result (λ came. IsTrue came → n ≤ (tally_of (E.seen endpoint.new).held.state.counters Class.Recv).ok) }
    ensures late { IfSome result (λ came. came ≡ false → moment.nanos ≤ (C.told clock.new).last) }
{
    match endpoint.cntr_wait_until(rt, clock, moment, Class::Recv, n) {
        Ok(came) => Some(came),
        Err(_) => None,
    }
}

/// Sends a message by the moment. One that is not accepted comes back, with the same bytes, whatever the fault is.
pub fn send_by<R: Wait, C: Clock, E: Calls + Drop>(
    rt: &R,
    clock: &mut C,
    endpoint: &mut EndpointOver<E>,
    moment: Moment,
    dest: u32,
    buf: Buf,
    ctx: u64,
) -> Option<Buf>
    ensures kept { IfSome result (λ back. back ≡ buf) }
    ensures sent { IfNone result (SendsInTime E.fixed dest buf ctx (E.seen endpoint.old) (E.seen endpoint.new)) }
{
    match endpoint.send_until(rt, clock, moment, dest, buf, None, ctx, COMPLETES) {
        Ok(()) => None,
        Err(refused) => Some(refused.buf),
    }
}

fn is_for_now(why: TryFault) -> bool
    ensures { IsTrue result → IsForNow why }
{
    match why {
        TryFault::Refused(Fault::Again(_)) => true,
        _ => false,
    }
}

/// Posts a receive under the tag by the moment, and tells whether it was refused for now: then the moment has passed.
pub fn is_crowded<R: Wait, C: Clock, E: Calls + Drop>(
    rt: &R,
    clock: &mut C,
    endpoint: &mut EndpointOver<E>,
    moment: Moment,
    tag: u64,
    buf: Buf,
    ctx: u64,
) -> bool
    ensures { IsTrue result → moment.nanos ≤ (C.told clock.new).last }
{
    match endpoint.trecv_until(rt, clock, moment, None, tag, 0, buf, ctx) {
        Ok(()) => false,
        Err(refused) => is_for_now(refused.why),
    }
}
