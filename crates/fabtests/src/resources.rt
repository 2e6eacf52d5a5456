//! Lists that are full: fi_resmgmt_test, fi_flood. A lane holds one frame, and two operations may be under way, two receives posted and
//! two completions unread.
use fabric::{Busy, Class, ErrKind, Fault, PeekHow};
use fabtests_calls::Completion::{Failed, Nothing, Received, Sent};
use fabtests_calls::Count::Reaches;
use fabtests_calls::Deed::{
    Count, HasUnderWay, Injects, Look, Posts, PostsWithin, Refuses, SendsArrived, SendsWithin,
};
use fabtests_calls::Look::Looks;
use fabtests_calls::Refusal::{Inject, OfLook, Post, PostWithin, SendWithin};
use fabtests_calls::Row;
use fabtests_calls::Step::{AtOne, AtZero, Carry, One, Zero};

/// A call for which a list has no room is refused for now, and nothing of what was accepted is lost. Progress makes room for a
/// receive that is tried again, if a message comes.
#[rattlefmt::skip]
pub const RESMGMT: &[Row] = &[
    (One(Injects(b"a", None)), "a message is accepted that the lane holds"),
    (One(Injects(b"b", None)), "a message is accepted that waits"),
    (One(Injects(b"c", None)), "another one that waits"),
    (One(Refuses(Inject(0, Fault::Again(Busy::TxFull(2))))), "one more is refused for now"),
    (Zero(Posts(1, 1)), "a receive is posted"),
    (Zero(Posts(1, 2)), "a second one is posted"),
    (Zero(Refuses(Post(Fault::Again(Busy::PostedFull(2))))), "one more is refused for now, with its buffer"),
    (Carry, "both go on"),
    (One(Injects(b"d", None)), "once there is room the message is accepted"),
    (AtZero(Received(1, None, None, 1, b"a")), "the first message came"),
    (AtZero(Received(2, None, None, 1, b"b")), "the second one came"),
    (Zero(Look(Looks(PeekHow::Peek, 1, 8))), "a look is accepted"),
    (Zero(Look(Looks(PeekHow::Peek, 1, 8))), "another look is accepted"),
    (Zero(Refuses(OfLook(Fault::Again(Busy::CqFull(2))))), "one more is refused for now, since no completion was read"),
    (AtZero(Failed(8, ErrKind::NoMsg, None)), "the first look found nothing"),
    (Zero(Posts(1, 3)), "with room for one completion a receive is accepted"),
    (Carry, "both go on"),
    (AtZero(Failed(8, ErrKind::NoMsg, None)), "the second look found nothing"),
    (AtZero(Received(3, None, None, 1, b"c")), "the third message came"),
    (Zero(Posts(1, 4)), "a receive is accepted"),
    (AtZero(Received(4, None, None, 1, b"d")), "the fourth message came"),
    (AtZero(Nothing), "each came once"),
    (Zero(Posts(1, 5)), "a receive is posted again"),
    (Zero(Posts(1, 6)), "and a second one"),
    (Zero(Refuses(PostWithin(2, Fault::Again(Busy::PostedFull(2))))), "where nothing comes, one that is tried again is refused, with its buffer"),
    (One(Injects(b"e", None)), "a fifth message is accepted"),
    (Zero(PostsWithin(1, 7)), "it makes room for a receive that is tried again"),
    (AtZero(Received(5, None, None, 1, b"e")), "the fifth message came"),
];

/// A sender whose peer does nothing is refused for now once its list is full, and goes on where the peer does.
#[rattlefmt::skip]
pub const FLOOD: &[Row] = &[
    (One(SendsArrived(b"a", 1)), "a message is accepted that is to be answered"),
    (One(SendsArrived(b"b", 2)), "a second one"),
    (One(HasUnderWay(2)), "both are under way"),
    (One(Refuses(SendWithin(2, Fault::Again(Busy::TxFull(2))))), "while its peer does nothing one that is tried again is refused, with its buffer"),
    (Zero(Posts(1, 3)), "a receive is posted"),
    (Zero(Count(Reaches(Class::Recv, 100, false))), "the peer goes on"),
    (One(SendsWithin(1, b"c", 4)), "its answer makes room for a message that is tried again"),
    (AtZero(Received(3, None, None, 1, b"a")), "the first message came"),
    (AtOne(Sent(1, b"a")), "its sender is told"),
    (Carry, "both go on"),
    (AtOne(Sent(4, b"c")), "the third one is transmitted"),
    (AtOne(Sent(2, b"b")), "the second one is answered"),
    (One(HasUnderWay(0)), "none is under way"),
    (Zero(Posts(1, 5)), "a receive is posted"),
    (AtZero(Received(5, None, None, 1, b"b")), "the second message came"),
    (Zero(Posts(1, 6)), "another receive is posted"),
    (AtZero(Received(6, None, None, 1, b"c")), "the third one came"),
    (AtZero(Nothing), "each came once"),
];
