//! The ports over queues.
ghost use Rattle.std.specs.Prelude.{◌≡◌, ◌<◌, ◌≤◌, length, IfOk};
ghost use Rattle.fab_queue.specs.Ports.{number_of, peers_of, lanes_of, out_of};
ghost use Rattle.fab_queue.specs.Gather.{AreAll, Gathered};
ghost use Rattle.fab_port_suite.specs.Lanes.{AreBetween, IsEnd};
ghost use Rattle.fab_port_tests.specs.Pairs.{ArePaired};

use crate::gathered::both;
use crate::rows::SHORT;
use fab_base::NoMemory;
use fab_link::PlainPort;
use fab_port_suite::{
    come_all_the_way, fills, gives_rest, goes_on_when_full, pattern, send_on_their_way, stay_apart,
    talk_in_threads, three,
};
use fab_queue::{QueuePort, Queues, gather};
use std::alloc::Global;
use std::sync::Wait;
use std::test::Fail;
use std::thread::Threads;

/// The ports of two peers.
fn two_ports<R: Wait + Copy>(
    alloc: Global,
    rt: R,
    lane: u32,
) -> Result<(QueuePort<R>, QueuePort<R>), NoMemory>
    requires lane { (0 < lane) × (lane ≤ 1024) }
    ensures { IfOk result (λ r. IsEnd 0 (number_of r.0) (peers_of r.0) (out_of r.0) × IsEnd 1 (number_of r.1) (peers_of r.1) (out_of r.1) × ArePaired (lanes_of r.0) (lanes_of r.1)) }
{
    let queues = Queues::new(alloc, rt, 2, lane)?;
    let mut ports = queues.ports(alloc)?;
    let Some(one) = ports.pop() else {
        return Err(NoMemory);
    };
    let Some(zero) = ports.pop() else {
        return Err(NoMemory);
    };
    Ok((zero, one))
}

/// The ports of three peers, in order.
fn three_ports<R: Wait + Copy>(
    alloc: Global,
    rt: R,
    lane: u32,
) -> Result<(QueuePort<R>, QueuePort<R>, QueuePort<R>), NoMemory>
    requires lane { (0 < lane) × (lane ≤ 1024) }
    ensures { IfOk result (λ r. ((peers_of r.0 ≡ 3) × AreBetween (out_of r.0)) × ((peers_of r.1 ≡ 3) × AreBetween (out_of r.1)) × ((peers_of r.2 ≡ 3) × AreBetween (out_of r.2))) }
{
    let queues = Queues::new(alloc, rt, 3, lane)?;
    let ports = queues.ports(alloc)?;
    match three(ports, 3) {
        Some(ports) => Ok(ports),
        None => Err(NoMemory),
    }
}

fn lane_of_one_goes_on<R: Wait + Copy>(alloc: Global, rt: R, bytes: &[u8]) -> bool {
    match two_ports(alloc, rt, 1) {
        Ok((zero, one)) => goes_on_when_full(zero, one, &SHORT[..2], bytes),
        Err(_) => false,
    }
}

fn three_stay_apart<R: Wait + Copy>(alloc: Global, rt: R, bytes: &[u8]) -> bool {
    match three_ports(alloc, rt, 4) {
        Ok((zero, one, two)) => stay_apart(zero, one, two, bytes),
        Err(_) => false,
    }
}

/// How many messages each of two threads sends to the other.
const COUNT: u64 = 10_000;

fn ports_talk<R: Threads + Wait + Copy + Send + Sync>(rt: &R, alloc: Global, bytes: &[u8]) -> bool {
    match two_ports(alloc, *rt, 16) {
        Ok((zero, one)) => talk_in_threads(rt, zero, one, COUNT, bytes),
        Err(_) => false,
    }
}

#[test]
fn ports_over_queues_pass_the_suite(rt: HostRuntime) -> Result<(), Fail> {
    let all = pattern(rt.alloc())?;
    let bytes = all.as_slice();
    assert!(rt; lane_of_one_goes_on(rt.alloc(), rt, bytes));
    assert!(rt; three_stay_apart(rt.alloc(), rt, bytes));
    assert!(rt; ports_talk(&rt, rt.alloc(), bytes));
    Ok(())
}

/// Gathers ports. A refused call hands them all back, and is made once more with them.
fn gather_again<R: Wait + Copy>(
    alloc: Global,
    ports: Vec<QueuePort<R>>,
) -> Result<Vec<PlainPort>, NoMemory>
    requires { AreAll ports.items }
    ensures { IfOk result (λ v. Gathered ports.items v.items) }
{
    let refused = match gather(alloc, ports) {
        Ok(plain) => return Ok(plain),
        Err(refused) => refused,
    };
    match gather(alloc, refused.ports) {
        Ok(again) => Ok(again),
        Err(_refused) => Err(NoMemory),
    }
}

/// The plain ports of two peers, gathered of theirs.
fn pair_gathered<R: Wait + Copy>(
    alloc: Global,
    zero: QueuePort<R>,
    one: QueuePort<R>,
) -> Result<(PlainPort, PlainPort), NoMemory>
    requires zero { (number_of zero ≡ 0) × (peers_of zero ≡ 2) }
    requires one { (number_of one ≡ 1) × (peers_of one ≡ 2) }
    requires lanes { ArePaired (lanes_of zero) (lanes_of one) }
    ensures { IfOk result (λ r. (length r.0.lanes ≡ 2) × (length r.1.lanes ≡ 2)) }
{
    let mut ports = Vec::with_capacity(alloc, 2)?;
    ports.push(zero)?;
    ports.push(one)?;
    let plain = gather_again(alloc, ports)?;
    let pair = both(plain)?;
    Ok(pair)
}

fn full_lane_is_gathered<R: Wait + Copy>(alloc: Global, rt: R, bytes: &[u8]) -> bool {
    let Ok((mut zero, mut one)) = two_ports(alloc, rt, 1) else {
        return false;
    };
    let filled = fills(&mut zero, &mut one, &SHORT[..2], bytes);
    let rest = match pair_gathered(alloc, zero, one) {
        Ok((_zero, mut one)) => gives_rest(&mut one, 0, &SHORT[..2], bytes),
        Err(_) => false,
    };
    filled && rest
}

fn all_on_its_way_is_gathered<R: Wait + Copy>(alloc: Global, rt: R, bytes: &[u8]) -> bool {
    let Ok((mut zero, mut one)) = two_ports(alloc, rt, 4) else {
        return false;
    };
    let sent = send_on_their_way(&mut zero, &mut one, bytes);
    let came = match pair_gathered(alloc, zero, one) {
        Ok((mut zero, mut one)) => come_all_the_way(&mut zero, &mut one, bytes),
        Err(_) => false,
    };
    sent && came
}

#[test]
fn what_is_on_its_way_is_gathered(rt: HostRuntime) -> Result<(), Fail> {
    let all = pattern(rt.alloc())?;
    let bytes = all.as_slice();
    assert!(rt; full_lane_is_gathered(rt.alloc(), rt, bytes));
    assert!(rt; all_on_its_way_is_gathered(rt.alloc(), rt, bytes));
    Ok(())
}
