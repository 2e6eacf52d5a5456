//! Looks at tagged messages, and cancels: fi_rdm_tagged_peek, fi_recv_cancel.
use fabric::{ErrKind, PeekHow};
use fabtests_calls::Completion::{Failed, Found, Nothing, Received};
use fabtests_calls::Deed::{Look, PostsTagged, SendsTagged};
use fabtests_calls::Look::{
    Cancels, CancelsFirst, CancelsNone, DropsClaimed, HasNoFirst, Looks, Probes, TakesClaimed,
};
use fabtests_calls::Row;
use fabtests_calls::Step::{AtZero, Carry, One, Zero};

/// A look finds the message under its tag and leaves it there, sets it aside for a receive of its own, or throws it away, at
/// once or later.
#[rattlefmt::skip]
pub const RDM_TAGGED_PEEK: &[Row] = &[
    (Zero(Look(Looks(PeekHow::Peek, 5, 10))), "a look is accepted before a message came"),
    (AtZero(Failed(10, ErrKind::NoMsg, None)), "and finds nothing"),
    (One(SendsTagged(4, b"four", None, 1)), "a message is accepted"),
    (One(SendsTagged(5, b"five", None, 2)), "a second one is accepted"),
    (One(SendsTagged(6, b"six.", None, 3)), "a third one is accepted"),
    (One(SendsTagged(7, b"last", None, 4)), "a last one is accepted"),
    (Carry, "both go on"),
    (Zero(Look(Looks(PeekHow::Peek, 5, 11))), "a look is accepted"),
    (AtZero(Found(11, PeekHow::Peek, 5, 4)), "and finds the message under its tag"),
    (Zero(Look(Looks(PeekHow::Peek, 5, 12))), "another look is accepted"),
    (AtZero(Found(12, PeekHow::Peek, 5, 4)), "the message stays"),
    (Zero(Look(Probes(5, 4))), "the look that is answered at once finds it, too"),
    (Zero(Look(Looks(PeekHow::Claim, 5, 13))), "a claim is accepted"),
    (AtZero(Found(13, PeekHow::Claim, 5, 4)), "and finds it"),
    (Zero(Look(Looks(PeekHow::Peek, 5, 14))), "a look behind the claim is accepted"),
    (AtZero(Failed(14, ErrKind::NoMsg, None)), "the message was set aside"),
    (Zero(Look(TakesClaimed(13))), "a receive of the claimed message is accepted"),
    (AtZero(Received(13, Some(5), None, 4, b"five")), "and has its bytes"),
    (Zero(Look(Looks(PeekHow::Discard, 4, 15))), "a discard is accepted"),
    (AtZero(Found(15, PeekHow::Discard, 4, 4)), "and finds a message"),
    (Zero(Look(Looks(PeekHow::Peek, 4, 16))), "a look behind the discard is accepted"),
    (AtZero(Failed(16, ErrKind::NoMsg, None)), "the message was thrown away"),
    (Zero(Look(Looks(PeekHow::Claim, 6, 17))), "another claim is accepted"),
    (AtZero(Found(17, PeekHow::Claim, 6, 4)), "and finds a message"),
    (Zero(Look(DropsClaimed(17))), "it may be thrown away"),
    (AtZero(Found(17, PeekHow::Discard, 6, 4)), "and is"),
    (Zero(PostsTagged(7, 4, 18)), "a receive is posted"),
    (AtZero(Received(18, Some(7), None, 4, b"last")), "and takes what no look took"),
    (AtZero(Nothing), "nothing else completes"),
];

/// A receive that is cancelled hands its buffer back and takes no message; others are not touched.
#[rattlefmt::skip]
pub const RECV_CANCEL: &[Row] = &[
    (Zero(PostsTagged(1, 8, 1)), "a receive is posted"),
    (Zero(PostsTagged(2, 4, 2)), "another one is posted"),
    (Zero(Look(CancelsNone(3))), "none is cancelled under another context"),
    (Zero(Look(Cancels(1))), "the first is cancelled"),
    (AtZero(Failed(1, ErrKind::Canceled, Some(8))), "its buffer comes back"),
    (Zero(Look(CancelsNone(1))), "and once"),
    (One(SendsTagged(1, b"one.", None, 3)), "a message for it is accepted"),
    (One(SendsTagged(2, b"two.", None, 4)), "one for the other is accepted"),
    (Carry, "both go on"),
    (AtZero(Received(2, Some(2), None, 4, b"two.")), "the other takes its message"),
    (AtZero(Nothing), "the cancelled one takes none"),
    (Zero(PostsTagged(1, 4, 5)), "a new one is posted"),
    (AtZero(Received(5, Some(1), None, 4, b"one.")), "and takes it"),
    (Zero(PostsTagged(3, 4, 6)), "two more are posted"),
    (Zero(PostsTagged(4, 2, 7)), "the second of them"),
    (Zero(Look(CancelsFirst)), "the first is cancelled, whatever its context"),
    (AtZero(Failed(6, ErrKind::Canceled, Some(4))), "it is the first"),
    (Zero(Look(CancelsFirst)), "the next one, too"),
    (AtZero(Failed(7, ErrKind::Canceled, Some(2))), "it is the second"),
    (Zero(Look(HasNoFirst)), "then none is posted"),
];
