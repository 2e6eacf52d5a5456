//! Completion queues and counters: fi_cq_test, fi_cntr_test.
use fabric::{Class, ErrKind};
use fabtests_calls::Completion::{Cut, Failed, Nothing, Received};
use fabtests_calls::Count::{Adds, CountsNone, Has, Reaches, Takes};
use fabtests_calls::Deed::{Count, Injects, Posts, Request};
use fabtests_calls::Request::Reads;
use fabtests_calls::Row;
use fabtests_calls::Step::{AtOne, AtZero, Carry, One, Zero};

/// Completions are read in their order, one or many at a time, each once; an error is read by itself.
#[rattlefmt::skip]
pub const CQ_TEST: &[Row] = &[
    (Zero(Posts(1, 1)), "a receive is posted"),
    (Zero(Posts(1, 2)), "a second one is posted"),
    (Zero(Posts(1, 3)), "a third one is posted"),
    (Zero(Posts(1, 4)), "a fourth one is posted"),
    (Zero(Posts(1, 5)), "and one more"),
    (One(Injects(b"a", None)), "a message is accepted"),
    (One(Injects(b"b", None)), "a second one is accepted"),
    (One(Injects(b"c", None)), "a third one is accepted"),
    (One(Injects(b"too long", None)), "one is too long"),
    (One(Injects(b"e", None)), "and one more is accepted"),
    (Carry, "both go on"),
    (Zero(Count(Takes(2, 1, 2))), "two are read where two are asked for"),
    (Zero(Count(Takes(8, 3, 1))), "and the next one, before the error"),
    (Zero(Count(Takes(8, 4, 0))), "no read gives the error"),
    (AtZero(Cut(4, 1, 7)), "but the one for errors"),
    (AtZero(Received(5, None, None, 1, b"e")), "what is behind it is read then"),
    (Zero(Count(Takes(8, 6, 0))), "nothing is left"),
    (AtZero(Nothing), "and nothing more comes"),
];

/// Counters begin at 0, count what succeeds and what fails by class, and may be added to.
#[rattlefmt::skip]
pub const CNTR_TEST: &[Row] = &[
    (Zero(Count(CountsNone)), "nothing is counted at first"),
    (One(Count(CountsNone)), "nor at the other peer"),
    (Zero(Posts(1, 1)), "a receive is posted"),
    (Zero(Posts(1, 2)), "another one is posted"),
    (One(Injects(b"a", None)), "a message is accepted"),
    (One(Injects(b"too long", None)), "another one is accepted"),
    (One(Request(Reads(1, 0, 4, 3))), "a read of no region is accepted"),
    (Carry, "both go on"),
    (One(Count(Has(Class::Send, 2, 0))), "two messages were sent"),
    (Zero(Count(Has(Class::Recv, 1, 1))), "one was received, and one cut off"),
    (One(Count(Has(Class::Read, 0, 1))), "the read failed"),
    (AtOne(Failed(3, ErrKind::NoKey, Some(4))), "and is told"),
    (One(Count(Reaches(Class::Send, 2, true))), "the count of messages is reached"),
    (One(Count(Reaches(Class::Send, 3, false))), "and no more"),
    (One(Count(Adds(Class::Send, 5))), "a counter is added to"),
    (One(Count(Has(Class::Send, 7, 0))), "what is added counts"),
    (One(Count(Has(Class::Recv, 0, 0))), "in no other class"),
];
