//! A caller that answers what it takes.
ghost use Rattle.std.specs.Prelude.{◌≡◌, ◌<◌, ℕ, IfSome};
ghost use Rattle.fab_link.specs.Frames.{Continues};
ghost use Rattle.fab_link.specs.Owing.{ends_owing};
ghost use Rattle.fab_link.specs.Meaning.{Owes, end_of};
ghost use Rattle.fab_port_suite.specs.Answering.{HasLent, reply_head};

use fab_base::{Ack, FrameHead, ItemHead, Kind, Outcome};
use fab_link::Port;

/// The head of the next frame of a peer, which is lent then.
fn next_head<P: Port>(port: &mut P, src: u32) -> Option<FrameHead>
    requires { src < P.peer_count port.old }
    ensures lent { IfSome result (λ head. HasLent (P.ins port.new src) head) }
    ensures taken { (P.ins port.new src).taken ≡ (P.ins port.old src).taken }
    ensures outs { P.outs port.new ≡ P.outs port.old }
    ensures peers { P.peer_count port.new ≡ P.peer_count port.old }
{
    match port.front(src) {
        Some(frame) => Some(frame.head),
        None => None,
    }
}

/// Whether a reply is owed once this frame is taken.
fn ends_owing(head: &FrameHead) -> bool
    ensures { result ≡ ends_owing head.now }
{
    let item = &head.item;
    let is_last = head.from as u64 + head.len as u64 == item.total as u64;
    let owes = match (item.kind, item.ack) {
        (Kind::WriteReq | Kind::ReadReq | Kind::AtomicReq, _) => true,
        (Kind::Msg | Kind::TagMsg, Ack::Delivery | Ack::Match) => true,
        (Kind::Msg | Kind::TagMsg, Ack::Nothing) => false,
        (Kind::Reply, _) => false,
    };
    is_last && owes
}

/// The head of a reply of no bytes.
fn reply_head(op: u64) -> FrameHead
    ensures { result ≡ reply_head op }
{
    let item = ItemHead {
        kind: Kind::Reply,
        op,
        tag: 0,
        imm: None,
        ack: Ack::Nothing,
        key: 0,
        at: 0,
        count: 0,
        atom: None,
        outcome: Outcome::Done,
        total: 0,
    };
    FrameHead {
        item,
        from: 0,
        len: 0,
    }
}

/// Steps over the next frame of a peer, where it is the last one of an item that owes a reply, and posts the
/// reply. Over a port that tells what it owes, the reply may not go before that frame is taken.
pub fn answer<P: Port>(port: &mut P, peer: u32) -> bool
    requires below { peer < P.peer_count port.old }
    requires continues { (op : ℕ) → Continues (end_of (P.outs port.old peer)) (reply_head op) }
    requires owed { (op : ℕ) → Owes (P.outs port.old peer) (P.ins port.old peer) op 0 }
{
    let Some(request) = next_head(port, peer) else {
        return false;
    };
    if !ends_owing(&request) {
        return false;
    }
    port.advance(peer);
    port.post(peer, reply_head(request.item.op), &[]).is_ok()
}
