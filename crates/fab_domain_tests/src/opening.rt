//! Endpoints over lanes are named where they are opened and closed: what is tested is generic.
use crate::calls::{Calls, registers};
use crate::rows::{Row, Sizes};
use fab_base::{Api, Caps, Hints, Info};
use fab_domain::{RingEndpoint, endpoints};
use fab_info::getinfo;
use fab_mr::Regions;
use std::alloc::Global;
use std::test::Fail;

/// All that is on offer, for two peers, with these sizes.
fn granted(api: Api, sizes: Sizes) -> Option<Info> {
    let hints = Hints {
        caps: Caps::none(),
        peers: Some(2),
        lane: Some(sizes.lane),
        pool: Some(sizes.lane),
        tx: Some(sizes.tx),
        rx: None,
        cq: Some(sizes.cq),
        log: sizes.log,
        inject: None,
        message: None,
    };
    getinfo(api, Some(&hints)).ok()
}

/// The endpoints of both peers of a row, in order.
fn opened(alloc: Global, row: Row) -> Vec<RingEndpoint> {
    let Some(info) = granted(row.api(), row.sizes()) else {
        return Vec::new(alloc);
    };
    match endpoints(alloc, &info, false) {
        Ok(both) => both,
        Err(_) => Vec::new(alloc),
    }
}

/// Whether the row holds between these two.
fn holds_between<E: Calls + Drop>(alloc: Global, row: Row, mut both: Vec<E>) -> bool {
    match (both.pop(), both.pop()) {
        (Some(mut one), Some(mut zero)) => row.holds(alloc, &mut zero, &mut one),
        _ => false,
    }
}

/// Whether the row holds between two new endpoints.
fn holds(alloc: Global, row: Row) -> bool {
    holds_between(alloc, row, opened(alloc, row))
}

/// The last of these endpoints, once a region is registered with it.
fn registered<E: Calls + Drop>(alloc: Global, mut both: Vec<E>) -> Option<E> {
    let mut endpoint = both.pop()?;
    if registers(alloc, &mut endpoint, 9, b"01234567") {
        Some(endpoint)
    } else {
        None
    }
}

/// Whether the region has these bytes.
fn has(regions: &Regions, bytes: &[u8]) -> bool {
    regions.bytes(9) == Some(bytes)
}

/// Whether an endpoint that is closed gives back the region that was registered, and the addresses of both peers.
fn gives_back(endpoint: RingEndpoint) -> bool {
    let closed = endpoint.close();
    let known = (closed.av.index_of(0), closed.av.index_of(1)) == (Some(0), Some(1));
    known && has(&closed.regions, b"01234567")
}

/// The same of a new endpoint.
fn new_gives_back(alloc: Global) -> bool {
    match registered(alloc, opened(alloc, Row::Served)) {
        Some(endpoint) => gives_back(endpoint),
        None => false,
    }
}

#[test]
fn a_closed_endpoint_gives_back(rt: HostRuntime) -> Result<(), Fail> {
    assert!(rt; new_gives_back(rt.alloc()));
    Ok(())
}

#[test]
fn a_message_under_way(rt: HostRuntime) -> Result<(), Fail> {
    assert!(rt; holds(rt.alloc(), Row::UnderWay));
    Ok(())
}

#[test]
fn everything_full(rt: HostRuntime) -> Result<(), Fail> {
    assert!(rt; holds(rt.alloc(), Row::AllFull));
    Ok(())
}

#[test]
fn a_full_completion_queue(rt: HostRuntime) -> Result<(), Fail> {
    assert!(rt; holds(rt.alloc(), Row::QueueFull));
    Ok(())
}

#[test]
fn a_full_log(rt: HostRuntime) -> Result<(), Fail> {
    assert!(rt; holds(rt.alloc(), Row::LogFull));
    Ok(())
}

#[test]
fn a_counter_at_its_end(rt: HostRuntime) -> Result<(), Fail> {
    assert!(rt; holds(rt.alloc(), Row::CountedOut));
    Ok(())
}

#[test]
fn a_directed_receive(rt: HostRuntime) -> Result<(), Fail> {
    assert!(rt; holds(rt.alloc(), Row::Directed));
    Ok(())
}

#[test]
fn a_region_is_written_and_read(rt: HostRuntime) -> Result<(), Fail> {
    assert!(rt; holds(rt.alloc(), Row::Served));
    Ok(())
}

#[test]
fn a_message_too_long(rt: HostRuntime) -> Result<(), Fail> {
    assert!(rt; holds(rt.alloc(), Row::Longest));
    Ok(())
}

#[test]
fn a_fence_waits_for_an_answer(rt: HostRuntime) -> Result<(), Fail> {
    assert!(rt; holds(rt.alloc(), Row::Fenced));
    Ok(())
}

#[test]
fn a_fence_waits_for_a_match(rt: HostRuntime) -> Result<(), Fail> {
    assert!(rt; holds(rt.alloc(), Row::Unmatched));
    Ok(())
}

#[test]
fn replies_pass_what_a_fence_holds(rt: HostRuntime) -> Result<(), Fail> {
    assert!(rt; holds(rt.alloc(), Row::Crossed));
    Ok(())
}

#[test]
fn the_greatest_message_is_cut(rt: HostRuntime) -> Result<(), Fail> {
    assert!(rt; holds(rt.alloc(), Row::Greatest));
    Ok(())
}

#[test]
fn requests_count_at_their_target(rt: HostRuntime) -> Result<(), Fail> {
    assert!(rt; holds(rt.alloc(), Row::Counted) && holds(rt.alloc(), Row::Uncounted));
    Ok(())
}
