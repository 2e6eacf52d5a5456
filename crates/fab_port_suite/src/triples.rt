//! Frames of two peers to a third.
ghost use Rattle.std.specs.Prelude.{◌<◌, IfSome};
ghost use Rattle.fab_port_suite.specs.Lanes.{AreReady, IsReady};

use crate::calls::{gives_none, lends, post};
use crate::messages::Message;
use fab_link::Port;

/// The message that peer 1 sends.
pub const OF_ONE: Message = Message { tag: 4, len: 1 };

/// The message that peer 2 sends.
pub const OF_TWO: Message = Message { tag: 5, len: 1 };

/// The last of some ports.
fn last<P: Port + Drop>(ports: &mut Vec<P>, peers: u32) -> Option<P>
    requires { AreReady P.Port peers ports.old.items }
    ensures rest { AreReady P.Port peers ports.new.items }
    ensures last { IfSome result (IsReady P.Port peers) }
{
    ports.pop()
}

/// The last three of some ports, in order.
pub fn three<P: Port + Drop>(mut ports: Vec<P>, peers: u32) -> Option<(P, P, P)>
    requires { AreReady P.Port peers ports.items }
    ensures { IfSome result (λ r. IsReady P.Port peers r.0 × IsReady P.Port peers r.1 × IsReady P.Port peers r.2) }
{
    let two = last(&mut ports, peers)?;
    let one = last(&mut ports, peers)?;
    let zero = last(&mut ports, peers)?;
    Some((zero, one, two))
}

/// Whether the port of peer 0 gives the messages of peers 1 and 2 each as that of its peer, and none of its own.
pub fn gives_each<P: Port>(port: &mut P, pattern: &[u8]) -> bool
    requires { 2 < P.peer_count port.old }
{
    let first = lends(port, 1, OF_ONE, pattern);
    let second = lends(port, 2, OF_TWO, pattern);
    let own = gives_none(port, 0);
    first && second && own
}

/// Whether the frames of two peers stay apart at a third, though the second's comes first.
pub fn stay_apart<P: Port + Drop>(mut zero: P, mut one: P, mut two: P, pattern: &[u8]) -> bool
    requires zero { IsReady P.Port 3 zero }
    requires one { IsReady P.Port 3 one }
    requires two { IsReady P.Port 3 two }
{
    let second = post(&mut two, 0, OF_TWO, pattern).is_ok();
    let first = post(&mut one, 0, OF_ONE, pattern).is_ok();
    let each = gives_each(&mut zero, pattern);
    first && second && each
}
