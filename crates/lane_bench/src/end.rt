//! A port that speaks with one other peer.
ghost use Rattle.std.specs.Prelude.{◌≡◌, ◌<◌, ◌≤◌, ℕ, length, false};
ghost use Rattle.lane_bench.specs.Between.{AreBetween};
ghost use Rattle.fab_link.specs.Frames.{IsSound};
ghost use Rattle.fab_link.specs.Owing.{begins_reply};
ghost use Rattle.fab_link.specs.Cut.{IsBetweenItems};
ghost use Rattle.fab_link.specs.Meaning.{end_of};
ghost use Rattle.fab_ring.specs.Ports.{peers_of, out_of};

use fab_base::{Ack, FrameHead, ItemHead, Kind, Outcome};
use fab_bench::runs::Party;
use fab_link::Port;
use fab_ring::RingPort;

/// A port, and the one peer that it speaks with. Each message is one frame.
#[derive(Drop)]
pub struct End {
    port: RingPort,
    other: u32,
    ghost below: { other < peers_of port },
    ghost between: { AreBetween (out_of port) },
}

/// The head of the one frame of a tagged message.
fn whole(tag: u64, total: u32) -> FrameHead
    requires { total ≤ 4096 }
    ensures from { result.from ≡ 0 }
    ensures len { result.len ≡ total }
    ensures total { result.item.total ≡ total }
    ensures sound { IsSound result.item }
    ensures message { begins_reply result ≡ false }
{
    let item = ItemHead {
        kind: Kind::TagMsg,
        op: 0,
        tag,
        imm: None,
        ack: Ack::Nothing,
        key: 0,
        at: 0,
        count: 0,
        atom: None,
        outcome: Outcome::Done,
        total,
    };
    FrameHead {
        item,
        from: 0,
        len: total,
    }
}

/// Posts a message of one frame.
fn post(port: &mut RingPort, dest: u32, bytes: &[u8]) -> bool
    requires below { dest < peers_of port.old }
    requires short { length bytes.now ≤ 4096 }
    requires between { (d : ℕ) → IsBetweenItems (end_of (out_of port.old d)) }
    ensures peers { peers_of port.new ≡ peers_of port.old }
    ensures between { (d : ℕ) → IsBetweenItems (end_of (out_of port.new d)) }
{
    port.post(dest, whole(7, bytes.len() as u32), bytes).is_ok()
}

/// Copies the next frame of a peer and steps over it.
fn copy_next(port: &mut RingPort, src: u32, into: &mut [u8]) -> bool
    requires { src < peers_of port.old }
    ensures peers { peers_of port.new ≡ peers_of port.old }
    ensures out { out_of port.new ≡ out_of port.old }
{
    let Some(frame) = port.front(src) else {
        return false;
    };
    let len = frame.bytes.len().min(into.len());
    into[..len].copy_from_slice(&frame.bytes[..len]);
    port.advance(src);
    true
}

impl End {
    /// The end towards this peer of a port all of whose lanes end with a whole item.
    pub fn new(port: RingPort, other: u32) -> End
        requires below { other < peers_of port }
        requires between { (d : ℕ) → IsBetweenItems (end_of (out_of port d)) }
    {
        End { port, other }
    }
}

impl Party for End {
    fn put(&mut self, bytes: &[u8]) -> bool {
        if bytes.len() > 4096 {
            return false;
        }
        post(&mut self.port, self.other, bytes)
    }

    fn take(&mut self, into: &mut [u8]) -> bool {
        copy_next(&mut self.port, self.other, into)
    }
}
