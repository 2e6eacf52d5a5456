//! Plain ports: frames that are carried, brought, taken out and answered.
ghost use Rattle.std.specs.Prelude.{◌≡◌, ◌<◌, None, length, replicate, IfSome};
ghost use Rattle.fab_link.specs.Frames.{IsSound, MayCome};
ghost use Rattle.fab_link.specs.Carry.{AreAll};
ghost use Rattle.fab_link.specs.Plain.{fresh_lane};

use crate::rows::SHORT;
use fab_base::{Ack, Buf, Frame, FrameHead, ItemHead, Kind, Outcome};
use fab_link::carry::carry;
use fab_link::{PlainPort, Port};
use fab_port_suite::{
    Message, OF_ONE, OF_TWO, answer, gives_all, gives_each, gives_none, is_peer, item, pattern,
    posts_all, whole,
};
use std::alloc::Global;
use std::test::Fail;

/// The ports of two peers, between which the one message that is posted was carried.
fn carried(alloc: Global, message: Message, bytes: &[u8]) -> Option<Vec<PlainPort>>
    ensures all { IfSome result (λ ports. AreAll ports.items) }
    ensures two { IfSome result (λ ports. length ports.items ≡ 2) }
{
    let bytes = message.bytes(bytes);
    let mut sender = PlainPort::new(alloc, 0, 2).ok()?;
    let head = whole(message.tag, bytes.len() as u32);
    if sender.post(1, head, bytes).is_err() {
        return None;
    }
    let receiver = PlainPort::new(alloc, 1, 2).ok()?;
    let mut ports = vec![in alloc; sender, receiver].ok()?;
    match carry(alloc, &mut ports) {
        Ok(1) => Some(ports),
        _ => None,
    }
}

fn frame_is_carried(alloc: Global, bytes: &[u8]) -> bool {
    match carried(alloc, SHORT[0], bytes) {
        Some(mut ports) => gives_all(&mut ports[1], 0, &SHORT[..1], bytes),
        None => false,
    }
}

/// The ports of two peers, between which nothing was carried.
fn none_carried(alloc: Global) -> Option<Vec<PlainPort>>
    ensures all { IfSome result (λ ports. AreAll ports.items) }
    ensures two { IfSome result (λ ports. length ports.items ≡ 2) }
{
    let first = PlainPort::new(alloc, 0, 2).ok()?;
    let second = PlainPort::new(alloc, 1, 2).ok()?;
    let mut ports = vec![in alloc; first, second].ok()?;
    match carry(alloc, &mut ports) {
        Ok(0) => Some(ports),
        _ => None,
    }
}

fn no_frame_is_carried(alloc: Global) -> bool {
    match none_carried(alloc) {
        Some(mut ports) => gives_none(&mut ports[1], 0),
        None => false,
    }
}

fn no_port_is_carried(alloc: Global) -> bool {
    let mut no_ports: [PlainPort; 0] = [];
    match carry(alloc, &mut no_ports) {
        Ok(moved) => moved == 0,
        Err(_) => false,
    }
}

#[test]
fn what_was_posted_is_carried(rt: HostRuntime) -> Result<(), Fail> {
    let bytes = pattern(rt.alloc())?;
    assert!(rt; frame_is_carried(rt.alloc(), bytes.as_slice()));
    assert!(rt; no_frame_is_carried(rt.alloc()));
    assert!(rt; no_port_is_carried(rt.alloc()));
    Ok(())
}

/// Whether the second frame of a message has this head, and so many bytes.
fn gives_so_many(port: &mut PlainPort, src: u32, head: FrameHead, count: usize) -> bool
    requires { src < length port.old.lanes }
{
    match port.front(src) {
        Some(frame) => frame.head == head && frame.bytes.len() == count,
        None => false,
    }
}

/// Whether the second frame of a message comes to a port that goes on behind the first one.
fn goes_on(alloc: Global) -> bool {
    let item = item(7, 5000);
    let first = FrameHead {
        item,
        from: 0,
        len: 4096,
    };
    let head = FrameHead {
        item,
        from: 4096,
        len: 904,
    };
    let Ok(bytes) = Buf::zeros(alloc, 904) else {
        return false;
    };
    match PlainPort::new_after(alloc, 1, 2, &[None, None], &[Some(first), None]) {
        Ok(mut port) => {
            port.bring(0, Frame { head, bytes }).is_ok() && gives_so_many(&mut port, 0, head, 904)
        }
        Err(_) => false,
    }
}

#[test]
fn a_port_goes_on_behind_a_frame(rt: HostRuntime) -> Result<(), Fail> {
    assert!(rt; goes_on(rt.alloc()));
    Ok(())
}

/// The frame of a message.
fn frame_of(alloc: Global, message: Message, bytes: &[u8]) -> Option<Frame>
    ensures { IfSome result (λ f. MayCome None f) }
{
    let bytes = message.bytes(bytes);
    let head = whole(message.tag, bytes.len() as u32);
    match Buf::copy(alloc, bytes) {
        Ok(bytes) => Some(Frame { head, bytes }),
        Err(_) => None,
    }
}

/// Whether frames of peers 1 and 2 come to a new port, the second's first.
fn brings_both(port: &mut PlainPort, of_one: Frame, of_two: Frame) -> bool
    requires new { port.old ≡ record { number = 0; lanes = replicate 3 (fresh_lane None None) } }
    requires one { MayCome None of_one }
    requires two { MayCome None of_two }
    ensures { length port.new.lanes ≡ 3 }
{
    port.bring(2, of_two).is_ok() && port.bring(1, of_one).is_ok()
}

/// Whether a new port gives each of two frames as that of its peer.
fn stay_apart(alloc: Global, of_one: Frame, of_two: Frame, bytes: &[u8]) -> bool
    requires one { MayCome None of_one }
    requires two { MayCome None of_two }
{
    match PlainPort::new(alloc, 0, 3) {
        Ok(mut port) => brings_both(&mut port, of_one, of_two) && gives_each(&mut port, bytes),
        Err(_) => false,
    }
}

fn frames_stay_apart(alloc: Global, bytes: &[u8]) -> bool {
    match (
        frame_of(alloc, OF_ONE, bytes),
        frame_of(alloc, OF_TWO, bytes),
    ) {
        (Some(of_one), Some(of_two)) => stay_apart(alloc, of_one, of_two, bytes),
        _ => false,
    }
}

#[test]
fn frames_of_two_peers_stay_apart(rt: HostRuntime) -> Result<(), Fail> {
    let bytes = pattern(rt.alloc())?;
    assert!(rt; frames_stay_apart(rt.alloc(), bytes.as_slice()));
    Ok(())
}

/// Whether the oldest frame posted to peer 1 is taken out, and is this message.
fn takes_out(port: &mut PlainPort, message: Message, bytes: &[u8]) -> bool
    requires { length port.old.lanes ≡ 2 }
    ensures { length port.new.lanes ≡ 2 }
{
    let bytes = message.bytes(bytes);
    let head = whole(message.tag, bytes.len() as u32);
    match port.take_out(1) {
        Some(frame) => frame.head == head && frame.bytes.as_slice() == bytes,
        None => false,
    }
}

fn takes_none(port: &mut PlainPort) -> bool
    requires { length port.old.lanes ≡ 2 }
{
    port.take_out(1).is_none()
}

fn oldest_is_first(alloc: Global, bytes: &[u8]) -> bool {
    match PlainPort::new(alloc, 0, 2) {
        Ok(mut port) => {
            is_peer(&port, 0, 2)
                && posts_all(&mut port, 1, &SHORT[..2], bytes)
                && takes_out(&mut port, SHORT[0], bytes)
                && takes_out(&mut port, SHORT[1], bytes)
                && takes_none(&mut port)
        }
        Err(_) => false,
    }
}

#[test]
fn the_oldest_frame_is_taken_out_first(rt: HostRuntime) -> Result<(), Fail> {
    let bytes = pattern(rt.alloc())?;
    assert!(rt; oldest_is_first(rt.alloc(), bytes.as_slice()));
    Ok(())
}

/// The head of the one frame of a request of no bytes.
fn request_head() -> FrameHead
    ensures total { result.item.total ≡ 0 }
    ensures from { result.from ≡ 0 }
    ensures len { result.len ≡ 0 }
    ensures sound { IsSound result.item }
{
    let item = ItemHead {
        kind: Kind::WriteReq,
        op: 7,
        tag: 0,
        imm: None,
        ack: Ack::Nothing,
        key: 0,
        at: 0,
        count: 0,
        atom: None,
        outcome: Outcome::Done,
        total: 0,
    };
    FrameHead {
        item,
        from: 0,
        len: 0,
    }
}

/// Whether a port answers the request that came from peer 0.
fn answers(alloc: Global) -> bool {
    let Ok(bytes) = Buf::zeros(alloc, 0) else {
        return false;
    };
    let head = request_head();
    match PlainPort::new(alloc, 1, 2) {
        Ok(mut port) => port.bring(0, Frame { head, bytes }).is_ok() && answer(&mut port, 0),
        Err(_) => false,
    }
}

#[test]
fn a_request_is_answered(rt: HostRuntime) -> Result<(), Fail> {
    assert!(rt; answers(rt.alloc()));
    Ok(())
}
