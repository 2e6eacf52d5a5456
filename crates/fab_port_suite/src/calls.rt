//! Calls of a port of any kind.
ghost use Rattle.std.specs.Prelude.{◌≡◌, ◌<◌};
ghost use Rattle.fab_port_suite.specs.Lanes.{AreBetween, IsSame};

use crate::messages::{Message, whole};
use fab_link::{Port, PostRefused};

/// Whether a port is that of this peer, one of so many.
pub fn is_peer<P: Port>(port: &P, me: u32, peers: u32) -> bool {
    port.me() == me && port.peers() == peers
}

/// Posts a message.
pub fn post<P: Port>(
    port: &mut P,
    dest: u32,
    message: Message,
    pattern: &[u8],
) -> Result<(), PostRefused>
    requires below { dest < P.peer_count port.old }
    requires between { AreBetween (P.outs port.old) }
    ensures same { IsSame P.Port port.old port.new }
    ensures between { AreBetween (P.outs port.new) }
{
    let bytes = message.bytes(pattern);
    port.post(dest, whole(message.tag, bytes.len() as u32), bytes)
}

/// Whether all of these are posted.
pub fn posts_all<P: Port>(port: &mut P, dest: u32, messages: &[Message], pattern: &[u8]) -> bool
    requires below { dest < P.peer_count port.old }
    requires between { AreBetween (P.outs port.old) }
    ensures same { IsSame P.Port port.old port.new }
    ensures between { AreBetween (P.outs port.new) }
{
    let mut all = true;
    for message in messages {
        all = post(port, dest, *message, pattern).is_ok() && all;
    }
    all
}

/// Whether the next frame of a peer is this message. It is not stepped over.
pub fn lends<P: Port>(port: &mut P, src: u32, message: Message, pattern: &[u8]) -> bool
    requires { src < P.peer_count port.old }
    ensures same { IsSame P.Port port.old port.new }
    ensures outs { P.outs port.new ≡ P.outs port.old }
{
    let bytes = message.bytes(pattern);
    let head = whole(message.tag, bytes.len() as u32);
    match port.front(src) {
        Some(frame) => frame.head == head && frame.bytes == bytes,
        None => false,
    }
}

/// Steps over the next frame of a peer, and tells whether it was this message. None where there is no frame.
pub fn take<P: Port>(port: &mut P, src: u32, message: Message, pattern: &[u8]) -> Option<bool>
    requires { src < P.peer_count port.old }
    ensures same { IsSame P.Port port.old port.new }
    ensures outs { P.outs port.new ≡ P.outs port.old }
{
    let bytes = message.bytes(pattern);
    let head = whole(message.tag, bytes.len() as u32);
    let frame = port.front(src)?;
    let was = frame.head == head && frame.bytes == bytes;
    port.advance(src);
    Some(was)
}

/// Whether there is no frame of a peer.
pub fn gives_none<P: Port>(port: &mut P, src: u32) -> bool
    requires { src < P.peer_count port.old }
    ensures same { IsSame P.Port port.old port.new }
    ensures outs { P.outs port.new ≡ P.outs port.old }
{
    port.front(src).is_none()
}

/// Whether these come of a peer, in order, and then nothing. Each is lent, and lent again as it is stepped over.
pub fn gives_all<P: Port>(port: &mut P, src: u32, messages: &[Message], pattern: &[u8]) -> bool
    requires { src < P.peer_count port.old }
    ensures same { IsSame P.Port port.old port.new }
    ensures outs { P.outs port.new ≡ P.outs port.old }
{
    let mut all = true;
    for message in messages {
        let lent = lends(port, src, *message, pattern);
        all = take(port, src, *message, pattern) == Some(true) && lent && all;
    }
    gives_none(port, src) && all
}
