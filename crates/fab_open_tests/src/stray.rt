//! A reply that no operation awaits is taken, and nothing comes of it.
ghost use Rattle.std.specs.Prelude.{◌≡◌, length, None, IfSome};
ghost use Rattle.fab_link.specs.Frames.{MayCome};
ghost use Rattle.fab_open_tests.specs.Came.{IsNew};

use crate::carried::Carried;
use crate::opening::Fresh;
use fab_base::{Ack, Buf, Class, Fault, Frame, FrameHead, ItemHead, Kind, Outcome};
use fab_face::calls::{Counters, Progress};
use fab_link::PlainPort;
use fab_open::Endpoint;
use std::alloc::Global;
use std::test::Fail;

/// A reply of no bytes to operation 7.
fn reply(alloc: Global) -> Option<Frame>
    ensures { IfSome result (λ f. MayCome None f) }
{
    let bytes = Buf::zeros(alloc, 0).ok()?;
    let item = ItemHead {
        kind: Kind::Reply,
        op: 7,
        tag: 0,
        imm: None,
        ack: Ack::Nothing,
        key: 0,
        at: 0,
        count: 0,
        atom: None,
        outcome: Outcome::Done,
        total: 0,
    };
    let head = FrameHead {
        item,
        from: 0,
        len: 0,
    };
    Some(Frame { head, bytes })
}

/// Whether progress of four frames takes one, and nothing is complete then.
fn takes_it<E: Progress>(endpoint: &mut E) -> bool {
    let moved = match endpoint.progress(4) {
        Ok(moved) => moved.taken == 1 && moved.posted == 0,
        Err(_) => false,
    };
    let popped = match endpoint.cq_pop() {
        Err(Fault::NoEntry) => true,
        _ => false,
    };
    moved && popped
}

/// Whether nothing of the class was counted.
fn is_zero<E: Counters>(endpoint: &E, class: Class) -> bool {
    endpoint.cntr_read(class) == 0 && endpoint.cntr_readerr(class) == 0
}

fn counts_nothing<E: Counters>(endpoint: &E) -> bool {
    is_zero(endpoint, Class::Send)
        && is_zero(endpoint, Class::Recv)
        && is_zero(endpoint, Class::Read)
        && is_zero(endpoint, Class::Write)
        && is_zero(endpoint, Class::RemoteRead)
        && is_zero(endpoint, Class::RemoteWrite)
}

/// Whether the reply comes to an endpoint that awaits none, and changes nothing that is told.
fn passes_over<E: Progress + Counters + Carried>(alloc: Global, endpoint: &mut E) -> bool
    requires { IsNew 2 (E.seen endpoint.old) }
{
    let Some(frame) = reply(alloc) else {
        return false;
    };
    endpoint.hand_in(1, frame) && takes_it(endpoint) && counts_nothing(endpoint)
}

fn passes_over_new<E: Fresh + Progress + Counters + Carried + Drop>(alloc: Global) -> bool {
    match E::fresh(alloc, 0, 2) {
        Some(mut zero) => passes_over(alloc, &mut zero),
        None => false,
    }
}

#[test]
fn a_reply_that_nothing_awaits_changes_nothing(rt: HostRuntime) -> Result<(), Fail> {
    assert!(rt; passes_over_new::<Endpoint<PlainPort>>(rt.alloc()));
    Ok(())
}
