//! The ports of a table.
ghost use Rattle.std.specs.Prelude.{◌≡◌, ◌<◌, ◌≤◌, IfOk};
ghost use Rattle.fab_ring.specs.Ports.{peers_of, out_of};
ghost use Rattle.fab_port_suite.specs.Lanes.{AreBetween, IsReady};

use crate::ring_ports::{pair_gathered, two_ports};
use crate::rows::SHORT;
use fab_base::NoMemory;
use fab_link::{Port, PostRefused};
use fab_port_suite::{
    Message, come_all_the_way, exchange, fills, gives_rest, gives_stream, goes_on_when_full, lends,
    pattern, post, send_on_their_way, stay_apart, take, talk_in_threads, three,
};
use fab_ring::{RingPort, Rings};
use std::alloc::Global;
use std::sync::Wait;
use std::test::Fail;
use std::thread::Threads;

/// The ports of three peers, in order.
fn three_ports(
    alloc: Global,
    lane: u32,
    pool: u32,
) -> Result<(RingPort, RingPort, RingPort), NoMemory>
    requires lane { (0 < lane) × (lane ≤ 1024) }
    requires pool { (0 < pool) × (pool ≤ 1024) }
    ensures { IfOk result (λ r. ((peers_of r.0 ≡ 3) × AreBetween (out_of r.0)) × ((peers_of r.1 ≡ 3) × AreBetween (out_of r.1)) × ((peers_of r.2 ≡ 3) × AreBetween (out_of r.2))) }
{
    let rings = Rings::new(alloc, 3, lane, pool)?;
    let ports = rings.ports(alloc)?;
    match three(ports, 3) {
        Some(ports) => Ok(ports),
        None => Err(NoMemory),
    }
}

fn lane_of_two_goes_on(alloc: Global, bytes: &[u8]) -> bool {
    match two_ports(alloc, 2, 1) {
        Ok((zero, one)) => goes_on_when_full(zero, one, &SHORT, bytes),
        Err(_) => false,
    }
}

fn three_stay_apart(alloc: Global, bytes: &[u8]) -> bool {
    match three_ports(alloc, 4, 1) {
        Ok((zero, one, two)) => stay_apart(zero, one, two, bytes),
        Err(_) => false,
    }
}

/// How many messages each of two threads sends to the other.
const COUNT: u64 = 20_000;

fn ports_talk<R: Threads + Wait + Sync>(rt: &R, alloc: Global, bytes: &[u8]) -> bool {
    match two_ports(alloc, 16, 8) {
        Ok((zero, one)) => talk_in_threads(rt, zero, one, COUNT, bytes),
        Err(_) => false,
    }
}

#[test]
fn ports_of_a_table_pass_the_suite(rt: HostRuntime) -> Result<(), Fail> {
    let all = pattern(rt.alloc())?;
    let bytes = all.as_slice();
    assert!(rt; lane_of_two_goes_on(rt.alloc(), bytes));
    assert!(rt; three_stay_apart(rt.alloc(), bytes));
    assert!(rt; ports_talk(&rt, rt.alloc(), bytes));
    Ok(())
}

/// A message that takes a slot of its receiver's pool, as each of more than 64 bytes does.
const LONG: Message = Message { tag: 1, len: 65 };

/// Another one.
const OTHER: Message = Message { tag: 2, len: 65 };

/// A message that takes none.
const INLINE: Message = Message { tag: 3, len: 64 };

/// Whether the one slot of a pool is lent to one peer and then to another. Both lanes are open at once, and the one that was
/// opened first is taken last.
fn slot_is_handed_over<P: Port + Drop>(mut zero: P, mut one: P, mut two: P, bytes: &[u8]) -> bool
    requires zero { IsReady P.Port 3 zero }
    requires one { IsReady P.Port 3 one }
    requires two { IsReady P.Port 3 two }
{
    let claimed = post(&mut zero, 2, LONG, bytes).is_ok();
    let refused = post(&mut one, 2, OTHER, bytes) == Err(PostRefused::PoolFull);
    let inline = post(&mut one, 2, INLINE, bytes).is_ok();
    let opened = lends(&mut two, 0, LONG, bytes);
    let first = take(&mut two, 1, INLINE, bytes) == Some(true);
    let second = take(&mut two, 0, LONG, bytes) == Some(true);
    let free = post(&mut one, 2, OTHER, bytes).is_ok();
    let last = take(&mut two, 1, OTHER, bytes) == Some(true);
    claimed && refused && inline && opened && first && second && free && last
}

fn one_slot_is_handed_over(alloc: Global, bytes: &[u8]) -> bool {
    match three_ports(alloc, 4, 1) {
        Ok((zero, one, two)) => slot_is_handed_over(zero, one, two, bytes),
        Err(_) => false,
    }
}

#[test]
fn a_slot_is_handed_over(rt: HostRuntime) -> Result<(), Fail> {
    let bytes = pattern(rt.alloc())?;
    assert!(rt; one_slot_is_handed_over(rt.alloc(), bytes.as_slice()));
    Ok(())
}

fn full_lane_is_gathered(alloc: Global, bytes: &[u8]) -> bool {
    let Ok((mut zero, mut one)) = two_ports(alloc, 2, 1) else {
        return false;
    };
    let filled = fills(&mut zero, &mut one, &SHORT, bytes);
    let rest = match pair_gathered(alloc, zero, one) {
        Ok((_zero, mut one)) => gives_rest(&mut one, 0, &SHORT, bytes),
        Err(_) => false,
    };
    filled && rest
}

fn all_on_its_way_is_gathered(alloc: Global, bytes: &[u8]) -> bool {
    let Ok((mut zero, mut one)) = two_ports(alloc, 4, 2) else {
        return false;
    };
    let sent = send_on_their_way(&mut zero, &mut one, bytes);
    let came = match pair_gathered(alloc, zero, one) {
        Ok((mut zero, mut one)) => come_all_the_way(&mut zero, &mut one, bytes),
        Err(_) => false,
    };
    sent && came
}

/// How many frames each of two threads posts, and how many of the other's it takes. The others are still on
/// their way when the ports are gathered.
const POSTED: u64 = 20_000;

const TAKEN: u64 = 19_960;

fn stream_is_gathered<R: Threads + Wait + Sync>(rt: &R, alloc: Global, bytes: &[u8]) -> bool {
    let Ok((zero, one)) = two_ports(alloc, 64, 64) else {
        return false;
    };
    let ((zero, from_one), (one, from_zero)) = exchange(rt, zero, one, POSTED, TAKEN, bytes);
    let rest = match pair_gathered(alloc, zero, one) {
        Ok((mut zero, mut one)) => {
            gives_stream(&mut one, 0, TAKEN, POSTED, bytes)
                && gives_stream(&mut zero, 1, TAKEN, POSTED, bytes)
        }
        Err(_) => false,
    };
    from_one == TAKEN && from_zero == TAKEN && rest
}

#[test]
fn what_is_on_its_way_is_gathered(rt: HostRuntime) -> Result<(), Fail> {
    let all = pattern(rt.alloc())?;
    let bytes = all.as_slice();
    assert!(rt; full_lane_is_gathered(rt.alloc(), bytes));
    assert!(rt; all_on_its_way_is_gathered(rt.alloc(), bytes));
    assert!(rt; stream_is_gathered(&rt, rt.alloc(), bytes));
    Ok(())
}
