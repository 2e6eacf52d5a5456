//! A receive into which a message is under way is not cancelled.
ghost use Rattle.std.specs.Prelude.{◌≡◌, ◌<◌, length, true, None, Some, IfSome};
ghost use Rattle.fab_base.specs.declared.items.Kind.TheVariants.{Msg};
ghost use Rattle.fab_link.specs.Frames.{MayCome};
ghost use Rattle.fab_open_tests.specs.Came.{IsNew, Keeps, message_head, piece_head};

use crate::carried::Carried;
use crate::frames::{COMPLETES, LEN, message, reads_nothing, takes_frame};
use crate::opening::Fresh;
use fab_base::{Buf, Entry, Fault, Frame, FrameHead, Kind};
use fab_face::calls::{Messages, Progress, Receives};
use fab_link::PlainPort;
use fab_open::Endpoint;
use std::alloc::Global;
use std::test::Fail;

/// How many bytes the receive takes.
const SPACE: u32 = 8000;

/// Whether the frame has these bytes of the message.
fn is_piece(frame: &Frame, from: u32, len: u32) -> bool
    ensures head { result ≡ true → frame.now.head ≡ piece_head (message_head Msg 0 5000) from len }
    ensures bytes { result ≡ true → length frame.now.bytes ≡ len }
{
    let item = message(Kind::Msg, 0, LEN);
    frame.head == FrameHead { item, from, len } && frame.bytes.as_slice().len() == len as usize
}

/// Whether the message is sent to peer 0.
#[tactic(auto, using(crate::proofs::Keeping::keeps_sent, crate::proofs::Keeping::keeps_unsent))]
fn sends<E: Messages>(alloc: Global, endpoint: &mut E) -> bool
    ensures { Keeps (E.seen endpoint.old) (E.seen endpoint.new) }
{
    let Ok(buf) = Buf::zeros(alloc, LEN as u64) else {
        return false;
    };
    match endpoint.send(0, buf, None, 2, COMPLETES) {
        Ok(()) => true,
        Err(_) => false,
    }
}

/// The two frames of the message, which is sent.
fn frames<E: Messages + Carried>(alloc: Global, endpoint: &mut E) -> Option<(Frame, Frame)>
    requires { 0 < (E.seen endpoint.old).lanes.peers }
    ensures first { IfSome result (λ two. MayCome None two.0) }
    ensures second { IfSome result (λ two. MayCome (Some two.0.head) two.1) }
{
    if !sends(alloc, endpoint) {
        return None;
    }
    let first = endpoint.hand_out(0)?;
    let second = endpoint.hand_out(0)?;
    if is_piece(&first, 0, 4096) && is_piece(&second, 4096, 904) {
        Some((first, second))
    } else {
        None
    }
}

/// Whether the receive is posted.
#[tactic(auto, using(crate::proofs::Keeping::keeps_received, crate::proofs::Keeping::keeps_refused))]
fn receives<E: Receives>(alloc: Global, endpoint: &mut E) -> bool
    ensures { Keeps (E.seen endpoint.old) (E.seen endpoint.new) }
{
    let Ok(buf) = Buf::zeros(alloc, SPACE as u64) else {
        return false;
    };
    match endpoint.recv(None, buf, 1) {
        Ok(()) => true,
        Err(_) => false,
    }
}

/// Whether the receive is none that can be cancelled.
#[tactic(auto, using(crate::proofs::Keeping::keeps_received, crate::proofs::Keeping::keeps_refused))]
fn cancels_not<E: Receives>(endpoint: &mut E) -> bool
    ensures { Keeps (E.seen endpoint.old) (E.seen endpoint.new) }
{
    match endpoint.cancel(1) {
        Err(Fault::NoEntry) => true,
        _ => false,
    }
}

/// Whether an entry tells of the whole message.
fn is_message(entry: Entry) -> bool {
    match entry {
        Entry::Received {
            ctx,
            source,
            tag,
            imm,
            len,
            buf,
        } => {
            ctx == 1
                && source == 1
                && tag.is_none()
                && imm.is_none()
                && len == LEN
                && buf.as_slice().len() == SPACE as usize
        }
        _ => false,
    }
}

/// Whether the whole message is the next completion.
fn reads_message<E: Progress>(endpoint: &mut E) -> bool {
    match endpoint.cq_read(8) {
        Ok(entry) => is_message(entry),
        Err(_) => false,
    }
}

/// Whether the first frame is taken, and the receive neither completes nor is cancelled.
fn is_under_way<E: Receives + Progress>(endpoint: &mut E) -> bool
    ensures { Keeps (E.seen endpoint.old) (E.seen endpoint.new) }
{
    takes_frame(endpoint) && reads_nothing(endpoint) && cancels_not(endpoint)
}

/// Whether a receive of peer 0 waits for the second frame of a message of peer 1, and then completes.
fn fills<E: Messages + Receives + Progress + Carried>(
    alloc: Global,
    zero: &mut E,
    one: &mut E,
) -> bool
    requires zero { IsNew 2 (E.seen zero.old) }
    requires one { IsNew 2 (E.seen one.old) }
{
    let Some((first, second)) = frames(alloc, one) else {
        return false;
    };
    receives(alloc, zero)
        && zero.hand_in(1, first)
        && is_under_way(zero)
        && zero.hand_in(1, second)
        && reads_message(zero)
}

/// The same between peer 0 and a new peer 1.
fn fills_with_new<E: Fresh + Messages + Receives + Progress + Carried + Drop>(
    alloc: Global,
    mut zero: E,
) -> bool
    requires { IsNew 2 (E.seen zero) }
{
    match E::fresh(alloc, 1, 2) {
        Some(mut one) => fills(alloc, &mut zero, &mut one),
        None => false,
    }
}

/// The same between two new peers.
fn fills_between_new<E: Fresh + Messages + Receives + Progress + Carried + Drop>(
    alloc: Global,
) -> bool {
    match E::fresh(alloc, 0, 2) {
        Some(zero) => fills_with_new::<E>(alloc, zero),
        None => false,
    }
}

#[test]
fn a_receive_that_is_filled_is_not_cancelled(rt: HostRuntime) -> Result<(), Fail> {
    assert!(rt; fills_between_new::<Endpoint<PlainPort>>(rt.alloc()));
    Ok(())
}
