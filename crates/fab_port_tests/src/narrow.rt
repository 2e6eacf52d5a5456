//! A port that can be full, and whose one frame stands there from the start.
ghost use Rattle.std.specs.Prelude.{◌≤◌, length};

use fab_link::{Port, PostRefused};
use fab_port_suite::{NarrowPort, gives_none, is_peer, whole};
use std::alloc::Global;
use std::test::Fail;

/// How a port with room for so many frames takes one of these bytes.
fn taken_by(alloc: Global, room: u32, bytes: &[u8]) -> Option<Result<(), PostRefused>>
    requires { length bytes.now ≤ 4096 }
{
    match NarrowPort::new(alloc, room) {
        Ok(mut port) => Some(port.post(0, whole(1, bytes.len() as u32), bytes)),
        Err(_) => None,
    }
}

/// Whether a narrow port is that of peer 0 alone.
fn is_of_one(alloc: Global) -> bool {
    match NarrowPort::new(alloc, 0) {
        Ok(port) => is_peer(&port, 0, 1),
        Err(_) => false,
    }
}

/// Whether the next frame is an empty message.
fn gives_empty(port: &mut NarrowPort) -> bool {
    match port.front(0) {
        Some(frame) => {
            frame.head.item.total == 0 && frame.head.len == 0 && frame.bytes.is_empty()
        }
        None => false,
    }
}

/// Whether it is given once more, and stepped over.
fn steps_over(port: &mut NarrowPort) -> bool {
    if port.front(0).is_none() {
        return false;
    }
    port.advance(0);
    true
}

fn is_given_until_stepped_over(alloc: Global) -> bool {
    match NarrowPort::new(alloc, 0) {
        Ok(mut port) => {
            gives_empty(&mut port) && steps_over(&mut port) && gives_none(&mut port, 0)
        }
        Err(_) => false,
    }
}

#[test]
fn a_full_port_takes_no_frame(rt: HostRuntime) -> Result<(), Fail> {
    assert!(rt; is_of_one(rt.alloc()));
    assert!(rt; taken_by(rt.alloc(), 0, b"") == Some(Err(PostRefused::LaneFull)));
    assert!(rt; taken_by(rt.alloc(), 1, b"") == Some(Ok(())));
    assert!(rt; taken_by(rt.alloc(), 1, b"a") == Some(Err(PostRefused::PoolFull)));
    Ok(())
}

#[test]
fn one_frame_is_given_until_it_is_stepped_over(rt: HostRuntime) -> Result<(), Fail> {
    assert!(rt; is_given_until_stepped_over(rt.alloc()));
    Ok(())
}
