//! A receive from one of two peers that sent under one tag.
ghost use Rattle.std.specs.Prelude.{◌≡◌, ◌≢◌, ◌<◌, ℕ, length, true, None, IfSome};
ghost use Rattle.fab_base.specs.declared.items.Kind.TheVariants.{TagMsg};
ghost use Rattle.fab_link.specs.Frames.{MayCome};
ghost use Rattle.fab_open_tests.specs.Came.{IsNew, Keeps, came, message_head, piece_head};

use crate::carried::Carried;
use crate::frames::{COMPLETES, message};
use crate::opening::Fresh;
use fab_base::{Buf, Entry, Frame, FrameHead, Kind, PeekHow};
use fab_face::calls::{Looks, Messages, Progress, Receives};
use fab_link::PlainPort;
use fab_open::Endpoint;
use std::alloc::Global;
use std::test::Fail;

/// Whether the frame has these bytes of the message.
fn is_piece(frame: &Frame, from: u32, len: u32) -> bool
    ensures head { result ≡ true → frame.now.head ≡ piece_head (message_head TagMsg 4 1) from len }
    ensures bytes { result ≡ true → length frame.now.bytes ≡ len }
{
    let item = message(Kind::TagMsg, 4, 1);
    frame.head == FrameHead { item, from, len } && frame.bytes.as_slice().len() == len as usize
}

/// Whether these bytes are sent to peer 0.
#[tactic(auto, using(crate::proofs::Keeping::keeps_sent, crate::proofs::Keeping::keeps_unsent))]
fn sends<E: Messages>(alloc: Global, endpoint: &mut E, bytes: &[u8]) -> bool
    ensures { Keeps (E.seen endpoint.old) (E.seen endpoint.new) }
{
    let Ok(buf) = Buf::copy(alloc, bytes) else {
        return false;
    };
    match endpoint.tsend(0, 4, buf, None, 3, COMPLETES) {
        Ok(()) => true,
        Err(_) => false,
    }
}

/// The one frame of a message of one byte, which is sent.
fn frame<E: Messages + Carried>(alloc: Global, endpoint: &mut E, bytes: &[u8]) -> Option<Frame>
    requires { 0 < (E.seen endpoint.old).lanes.peers }
    ensures { IfSome result (λ f. MayCome None f) }
{
    if !sends(alloc, endpoint, bytes) {
        return None;
    }
    let only = endpoint.hand_out(0)?;
    if is_piece(&only, 0, 1) {
        Some(only)
    } else {
        None
    }
}

/// Whether the first message of a peer is brought to another endpoint.
fn brings<E: Messages + Carried>(
    alloc: Global,
    zero: &mut E,
    peer: &mut E,
    number: u32,
    bytes: &[u8],
) -> bool
    requires below { number < (E.seen zero.old).lanes.peers }
    requires first { came (E.seen zero.old) number ≡ None }
    requires peer { 0 < (E.seen peer.old).lanes.peers }
    ensures peers { (E.seen zero.new).lanes.peers ≡ (E.seen zero.old).lanes.peers }
    ensures others { (s : ℕ) → result ≡ true → s ≢ number → came (E.seen zero.new) s ≡ came (E.seen zero.old) s }
{
    match frame(alloc, peer, bytes) {
        Some(frame) => zero.hand_in(number, frame),
        None => false,
    }
}

/// Whether progress takes two frames, and posts none.
fn takes_both<E: Progress>(endpoint: &mut E) -> bool {
    match endpoint.progress(8) {
        Ok(moved) => moved.taken == 2 && moved.posted == 0,
        Err(_) => false,
    }
}

/// Whether a receive from peer 2 is posted.
fn receives<E: Receives>(alloc: Global, endpoint: &mut E) -> bool {
    let Ok(buf) = Buf::copy(alloc, b"....") else {
        return false;
    };
    endpoint.trecv(Some(2), 4, 0, buf, 1).is_ok()
}

/// Whether an entry tells of the message of peer 2.
fn is_second(entry: Entry) -> bool {
    match entry {
        Entry::Received {
            ctx,
            source,
            tag,
            imm,
            len,
            buf,
        } => {
            ctx == 1
                && source == 2
                && tag == Some(4)
                && imm.is_none()
                && len == 1
                && buf.as_slice() == b"b...".as_slice()
        }
        _ => false,
    }
}

/// Whether the message of peer 2 is the next completion.
fn reads_second<E: Progress>(endpoint: &mut E) -> bool {
    match endpoint.cq_read(8) {
        Ok(entry) => is_second(entry),
        Err(_) => false,
    }
}

/// Whether it is looked for a message of any peer.
fn looks<E: Looks>(endpoint: &mut E) -> bool {
    endpoint.peek(None, 4, 0, 2).is_ok()
}

/// Whether an entry tells that the message of peer 1 was found.
fn is_found(entry: Entry) -> bool {
    match entry {
        Entry::Peeked {
            ctx,
            how,
            source,
            tag,
            imm,
            len,
        } => {
            ctx == 2 && how == PeekHow::Peek && source == 1 && tag == 4 && imm.is_none() && len == 1
        }
        _ => false,
    }
}

/// Whether the message of peer 1 is found.
fn finds_first<E: Progress>(endpoint: &mut E) -> bool {
    match endpoint.cq_read(8) {
        Ok(entry) => is_found(entry),
        Err(_) => false,
    }
}

/// Whether the message of peer 2 is received, and that of peer 1 stays.
fn receives_second<E: Receives + Looks + Progress>(alloc: Global, zero: &mut E) -> bool {
    takes_both(zero)
        && receives(alloc, zero)
        && reads_second(zero)
        && looks(zero)
        && finds_first(zero)
}

/// The same once peers 1 and 2 have sent.
fn directs<E: Messages + Receives + Looks + Progress + Carried>(
    alloc: Global,
    zero: &mut E,
    one: &mut E,
    two: &mut E,
) -> bool
    requires zero { IsNew 3 (E.seen zero.old) }
    requires one { IsNew 3 (E.seen one.old) }
    requires two { IsNew 3 (E.seen two.old) }
{
    brings(alloc, zero, one, 1, b"a")
        && brings(alloc, zero, two, 2, b"b")
        && receives_second(alloc, zero)
}

/// The same between peers 0 and 1 and a new peer 2.
fn directs_with_new<E: Fresh + Messages + Receives + Looks + Progress + Carried + Drop>(
    alloc: Global,
    mut zero: E,
    mut one: E,
) -> bool
    requires zero { IsNew 3 (E.seen zero) }
    requires one { IsNew 3 (E.seen one) }
{
    match E::fresh(alloc, 2, 3) {
        Some(mut two) => directs(alloc, &mut zero, &mut one, &mut two),
        None => false,
    }
}

/// The same between peer 0 and two new peers.
fn directs_with_two_new<E: Fresh + Messages + Receives + Looks + Progress + Carried + Drop>(
    alloc: Global,
    zero: E,
) -> bool
    requires { IsNew 3 (E.seen zero) }
{
    match E::fresh(alloc, 1, 3) {
        Some(one) => directs_with_new::<E>(alloc, zero, one),
        None => false,
    }
}

/// The same between three new peers.
fn directs_between_new<E: Fresh + Messages + Receives + Looks + Progress + Carried + Drop>(
    alloc: Global,
) -> bool {
    match E::fresh(alloc, 0, 3) {
        Some(zero) => directs_with_two_new::<E>(alloc, zero),
        None => false,
    }
}

#[test]
fn a_directed_receive_leaves_the_message_of_another(rt: HostRuntime) -> Result<(), Fail> {
    assert!(rt; directs_between_new::<Endpoint<PlainPort>>(rt.alloc()));
    Ok(())
}
