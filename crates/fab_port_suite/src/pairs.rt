//! What comes of messages between the ports of two peers.
ghost use Rattle.std.specs.Prelude.{◌≡◌, ◌<◌};
ghost use Rattle.fab_port_suite.specs.Lanes.{AreBetween, IsEnd, IsSame};

use crate::calls::{gives_all, gives_none, is_peer, lends, post, posts_all, take};
use crate::messages::Message;
use fab_link::{Port, PostRefused};

/// Whether the lane from peer 0 to peer 1 holds all of these messages but the last, refuses that one while it is full, and
/// takes it once the first is taken. The lane from peer 1 to itself stays empty.
pub fn fills<P: Port>(zero: &mut P, one: &mut P, messages: &[Message], pattern: &[u8]) -> bool
    requires zero { (P.peer_count zero.old ≡ 2) × AreBetween (P.outs zero.old) }
    requires one { P.peer_count one.old ≡ 2 }
    ensures zero { IsSame P.Port zero.old zero.new }
    ensures one { IsSame P.Port one.old one.new }
{
    let Some((last, others)) = messages.split_last() else {
        return false;
    };
    let Some(first) = others.first() else {
        return false;
    };
    let held = posts_all(zero, 1, others, pattern);
    let refused = post(zero, 1, *last, pattern) == Err(PostRefused::LaneFull);
    let taken = take(one, 0, *first, pattern) == Some(true);
    let goes_on = post(zero, 1, *last, pattern).is_ok();
    let apart = gives_none(one, 1);
    held && refused && taken && goes_on && apart
}

/// Whether these come of a peer but the first, in order, and then nothing.
pub fn gives_rest<P: Port>(port: &mut P, src: u32, messages: &[Message], pattern: &[u8]) -> bool
    requires { src < P.peer_count port.old }
    ensures { IsSame P.Port port.old port.new }
{
    match messages.split_first() {
        Some((_first, rest)) => gives_all(port, src, rest, pattern),
        None => false,
    }
}

/// Whether a lane between two ports that holds all of these messages but the last goes on once it was full.
pub fn goes_on_when_full<P: Port + Drop>(
    mut zero: P,
    mut one: P,
    messages: &[Message],
    pattern: &[u8],
) -> bool
    requires zero { IsEnd 0 (P.number zero) (P.peer_count zero) (P.outs zero) }
    requires one { IsEnd 1 (P.number one) (P.peer_count one) (P.outs one) }
{
    let numbered = is_peer(&zero, 0, 2) && is_peer(&one, 1, 2);
    let filled = fills(&mut zero, &mut one, messages, pattern);
    let rest = gives_rest(&mut one, 0, messages, pattern);
    numbered && filled && rest
}

/// Messages to peer 1, of which a port over a table keeps the first and the third in their cells, and the others in slots.
const TO_ONE: [Message; 4] = [
    Message { tag: 1, len: 1 },
    Message { tag: 2, len: 100 },
    Message { tag: 3, len: 64 },
    Message { tag: 4, len: 65 },
];

/// A message from peer 1 to peer 0.
const TO_ZERO: Message = Message { tag: 5, len: 2 };

/// A message from peer 0 to itself.
const OWN: Message = Message { tag: 6, len: 4 };

/// Whether messages are sent between two ports, such that most are on their way: of those to peer 1 the first is taken, and
/// the second lies lent.
pub fn send_on_their_way<P: Port>(zero: &mut P, one: &mut P, pattern: &[u8]) -> bool
    requires zero { (P.peer_count zero.old ≡ 2) × AreBetween (P.outs zero.old) }
    requires one { (P.peer_count one.old ≡ 2) × AreBetween (P.outs one.old) }
    ensures zero { IsSame P.Port zero.old zero.new }
    ensures one { IsSame P.Port one.old one.new }
{
    let sent = posts_all(zero, 1, &TO_ONE, pattern);
    let own = post(zero, 0, OWN, pattern).is_ok();
    let back = post(one, 0, TO_ZERO, pattern).is_ok();
    let taken = take(one, 0, TO_ONE[0], pattern) == Some(true);
    let lent = lends(one, 0, TO_ONE[1], pattern);
    sent && own && back && taken && lent
}

/// Whether those messages come to two ports, and no others: the ports that they were sent between, or those that go on behind
/// these.
pub fn come_all_the_way<P: Port>(zero: &mut P, one: &mut P, pattern: &[u8]) -> bool
    requires zero { P.peer_count zero.old ≡ 2 }
    requires one { P.peer_count one.old ≡ 2 }
{
    let numbered = is_peer(zero, 0, 2) && is_peer(one, 1, 2);
    let rest = gives_rest(one, 0, &TO_ONE, pattern);
    let apart = gives_none(one, 1);
    let own = gives_all(zero, 0, &[OWN], pattern);
    let back = gives_all(zero, 1, &[TO_ZERO], pattern);
    numbered && rest && apart && own && back
}
