//! Items that come in: whether one is a reply, asks for one, or is whole.
ghost use Rattle.std.specs.Prelude.{◌≡◌, ◌+◌, ◌≤◌};
ghost use Rattle.fab_base.specs.Replies.{is_reply};
ghost use Rattle.fab_link.specs.Joined.{is_last};
ghost use Rattle.fab_settling.specs.Orders.{asks};

use fab_base::{FrameHead, ItemHead, Kind};

pub fn is_reply(kind: Kind) -> bool
    ensures { result ≡ is_reply kind }
{
    match kind {
        Kind::Reply => true,
        _ => false,
    }
}

/// Whether the frame is the last one of its item. Its bytes are within the item.
pub fn is_last(head: &FrameHead) -> bool
    requires { head.now.from + head.now.len ≤ head.now.item.total }
    ensures { result ≡ is_last head.now }
{
    head.from + head.len == head.item.total
}

/// Whether the item asks for a reply: a request does, and a message may.
pub fn asks(head: &ItemHead) -> bool
    ensures { result ≡ asks head.now }
{
    match head.kind {
        Kind::Msg | Kind::TagMsg => head.ack.at_either(),
        Kind::WriteReq | Kind::ReadReq | Kind::AtomicReq => true,
        Kind::Reply => false,
    }
}
