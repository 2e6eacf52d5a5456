//! A message is claimed and taken while its second frame is still to come.
ghost use Rattle.std.specs.Prelude.{◌≡◌, ◌<◌, length, true, None, Some, IfSome};
ghost use Rattle.fab_base.specs.declared.items.Kind.TheVariants.{TagMsg};
ghost use Rattle.fab_link.specs.Frames.{MayCome};
ghost use Rattle.fab_open_tests.specs.Came.{IsNew, Keeps, message_head, piece_head};

use crate::carried::Carried;
use crate::frames::{COMPLETES, LEN, message, reads_nothing, takes_frame};
use crate::opening::Fresh;
use fab_base::{Buf, Entry, Frame, FrameHead, Kind, PeekHow};
use fab_face::calls::{Looks, Messages, Progress};
use fab_link::PlainPort;
use fab_open::Endpoint;
use std::alloc::Global;
use std::test::Fail;

/// Whether the frame has these bytes of the message.
fn is_piece(frame: &Frame, from: u32, len: u32) -> bool
    ensures head { result ≡ true → frame.now.head ≡ piece_head (message_head TagMsg 4 5000) from len }
    ensures bytes { result ≡ true → length frame.now.bytes ≡ len }
{
    let item = message(Kind::TagMsg, 4, LEN);
    frame.head == FrameHead { item, from, len } && frame.bytes.as_slice().len() == len as usize
}

/// Whether the message is sent to peer 0.
#[tactic(auto, using(crate::proofs::Keeping::keeps_sent, crate::proofs::Keeping::keeps_unsent))]
fn sends<E: Messages>(alloc: Global, endpoint: &mut E) -> bool
    ensures { Keeps (E.seen endpoint.old) (E.seen endpoint.new) }
{
    let Ok(buf) = Buf::zeros(alloc, LEN as u64) else {
        return false;
    };
    match endpoint.tsend(0, 4, buf, None, 1, COMPLETES) {
        Ok(()) => true,
        Err(_) => false,
    }
}

/// The two frames of the message, which is sent.
fn frames<E: Messages + Carried>(alloc: Global, endpoint: &mut E) -> Option<(Frame, Frame)>
    requires { 0 < (E.seen endpoint.old).lanes.peers }
    ensures first { IfSome result (λ two. MayCome None two.0) }
    ensures second { IfSome result (λ two. MayCome (Some two.0.head) two.1) }
{
    if !sends(alloc, endpoint) {
        return None;
    }
    let first = endpoint.hand_out(0)?;
    let second = endpoint.hand_out(0)?;
    if is_piece(&first, 0, 4096) && is_piece(&second, 4096, 904) {
        Some((first, second))
    } else {
        None
    }
}

/// Whether the message is claimed.
#[tactic(auto, using(crate::proofs::Keeping::keeps_received, crate::proofs::Keeping::keeps_refused))]
fn claims<E: Looks>(endpoint: &mut E) -> bool
    ensures { Keeps (E.seen endpoint.old) (E.seen endpoint.new) }
{
    match endpoint.claim(None, 4, 0, 9) {
        Ok(()) => true,
        Err(_) => false,
    }
}

/// Whether an entry tells of the claim.
fn is_claim(entry: Entry) -> bool {
    match entry {
        Entry::Peeked {
            ctx,
            how,
            source,
            len,
            ..
        } => ctx == 9 && how == PeekHow::Claim && source == 1 && len == LEN,
        _ => false,
    }
}

/// Whether the claim is the first completion.
#[tactic(auto, using(crate::proofs::Keeping::keeps_popped, crate::proofs::Keeping::keeps_same))]
fn reads_claim<E: Progress>(endpoint: &mut E) -> bool
    ensures { Keeps (E.seen endpoint.old) (E.seen endpoint.new) }
{
    match endpoint.cq_pop() {
        Ok(entry) => is_claim(entry),
        Err(_) => false,
    }
}

/// Whether the message that is claimed is received.
#[tactic(auto, using(crate::proofs::Keeping::keeps_received, crate::proofs::Keeping::keeps_refused))]
fn takes<E: Looks>(alloc: Global, endpoint: &mut E) -> bool
    ensures { Keeps (E.seen endpoint.old) (E.seen endpoint.new) }
{
    let Ok(buf) = Buf::zeros(alloc, LEN as u64) else {
        return false;
    };
    match endpoint.take(buf, 9) {
        Ok(()) => true,
        Err(_) => false,
    }
}

/// Whether an entry tells of the whole message.
fn is_message(entry: Entry) -> bool {
    match entry {
        Entry::Received {
            ctx,
            source,
            len,
            buf,
            ..
        } => ctx == 9 && source == 1 && len == LEN && buf.as_slice().len() == LEN as usize,
        _ => false,
    }
}

/// Whether the whole message is the next completion.
fn reads_message<E: Progress>(endpoint: &mut E) -> bool {
    match endpoint.cq_read(8) {
        Ok(entry) => is_message(entry),
        Err(_) => false,
    }
}

/// Whether the message is claimed and taken, and not yet whole.
fn claims_early<E: Looks + Progress>(alloc: Global, endpoint: &mut E) -> bool
    ensures { Keeps (E.seen endpoint.old) (E.seen endpoint.new) }
{
    takes_frame(endpoint)
        && claims(endpoint)
        && reads_claim(endpoint)
        && takes(alloc, endpoint)
        && reads_nothing(endpoint)
}

/// Whether a message of peer 1 is taken by peer 0 between its two frames, and then completes.
fn completes<E: Messages + Looks + Progress + Carried>(
    alloc: Global,
    zero: &mut E,
    one: &mut E,
) -> bool
    requires zero { IsNew 2 (E.seen zero.old) }
    requires one { IsNew 2 (E.seen one.old) }
{
    let Some((first, second)) = frames(alloc, one) else {
        return false;
    };
    zero.hand_in(1, first)
        && claims_early(alloc, zero)
        && zero.hand_in(1, second)
        && reads_message(zero)
}

/// The same between peer 0 and a new peer 1.
fn completes_with_new<E: Fresh + Messages + Looks + Progress + Carried + Drop>(
    alloc: Global,
    mut zero: E,
) -> bool
    requires { IsNew 2 (E.seen zero) }
{
    match E::fresh(alloc, 1, 2) {
        Some(mut one) => completes(alloc, &mut zero, &mut one),
        None => false,
    }
}

/// The same between two new peers.
fn completes_between_new<E: Fresh + Messages + Looks + Progress + Carried + Drop>(
    alloc: Global,
) -> bool {
    match E::fresh(alloc, 0, 2) {
        Some(zero) => completes_with_new::<E>(alloc, zero),
        None => false,
    }
}

#[test]
fn a_claimed_message_is_taken_before_it_is_whole(rt: HostRuntime) -> Result<(), Fail> {
    assert!(rt; completes_between_new::<Endpoint<PlainPort>>(rt.alloc()));
    Ok(())
}
