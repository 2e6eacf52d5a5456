//! Messages: fi_rdm, fi_cq_data, fi_inj_complete, fi_unexpected_msg, fi_multi_recv.
use fabtests_calls::Completion::{Cut, Nothing, Part, Received, Released, RemoteData, Sent};
use fabtests_calls::Deed::{
    HasPart, Injects, Posts, PostsMany, PostsTagged, Request, Sends, SendsAll, SendsCopied,
    SendsData, SendsTagged, TakesAll,
};
use fabtests_calls::Request::{InjectsWrite, Registers};
use fabtests_calls::Step::{AtOne, AtZero, Carry, One, Zero};
use fabtests_calls::{BOTH, Row};

/// A receive that is posted takes the message that comes, and both sides are told.
#[rattlefmt::skip]
pub const RDM: &[Row] = &[
    (Zero(Posts(8, 1)), "a receive is posted"),
    (One(Sends(0, b"Hello", 2)), "a message is accepted"),
    (Carry, "both go on"),
    (AtOne(Sent(2, b"Hello")), "its sender is told, and has the buffer back"),
    (AtZero(Received(1, None, None, 5, b"Hello\0\0\0")), "the receive has the bytes, their number and the sender's"),
    (AtZero(Nothing), "nothing else completes"),
    (AtOne(Nothing), "nor at the sender"),
    (Zero(Posts(3, 3)), "a short receive is posted"),
    (One(Sends(0, b"Hello", 4)), "a longer message is accepted"),
    (Carry, "both go on"),
    (AtZero(Cut(3, 3, 2)), "three bytes are placed and two cut off"),
];

/// The data of a message comes with its completion, and the data of a write tells its target.
#[rattlefmt::skip]
pub const CQ_DATA: &[Row] = &[
    (Zero(Posts(2, 1)), "a receive is posted"),
    (Zero(Posts(2, 2)), "another one is posted"),
    (One(SendsData(b"ab", u64::MAX, 3)), "a message with data is accepted"),
    (One(Injects(b"cd", Some(7))), "an injected one with data is accepted"),
    (Carry, "both go on"),
    (AtZero(Received(1, None, Some(u64::MAX), 2, b"ab")), "the data comes with the message"),
    (AtZero(Received(2, None, Some(7), 2, b"cd")), "that of the injected one, too"),
    (One(SendsTagged(9, b"ef", Some(0), 4)), "a tagged message with data is accepted"),
    (Carry, "both go on"),
    (Zero(PostsTagged(9, 2, 5)), "a tagged receive takes it"),
    (AtZero(Received(5, Some(9), Some(0), 2, b"ef")), "its data comes with it"),
    (Zero(Request(Registers(5, BOTH, b"\0\0\0\0"))), "a region is registered"),
    (One(Request(InjectsWrite(5, 0, b"ab", Some(77)))), "a write with data is accepted"),
    (Carry, "both go on"),
    (AtZero(RemoteData(77)), "the write's data tells its target"),
];

/// A message that asks for a completion at inject level completes although its peer did nothing.
#[rattlefmt::skip]
pub const INJ_COMPLETE: &[Row] = &[
    (One(SendsCopied(b"now", 1)), "a message is accepted"),
    (AtOne(Sent(1, b"now")), "it completes while its peer does nothing"),
    (AtOne(Nothing), "and once"),
    (Carry, "both go on"),
    (Zero(Posts(3, 2)), "a receive is posted after it came"),
    (AtZero(Received(2, None, None, 3, b"now")), "the receive has the bytes"),
];

/// Messages that come before any receive is posted are kept, whole and in order, and tagged ones apart from the others.
#[rattlefmt::skip]
pub const UNEXPECTED_MSG: &[Row] = &[
    (One(SendsAll(false)), "untagged messages are accepted"),
    (One(SendsAll(true)), "tagged messages are accepted"),
    (Carry, "both go on"),
    (AtZero(Nothing), "nothing completes where no receive is posted"),
    (Zero(TakesAll(true)), "tagged receives take them whole and in order"),
    (Zero(TakesAll(false)), "untagged receives take them whole and in order"),
    (AtZero(Nothing), "each came once"),
];

/// Messages lie behind one another in one buffer, which comes back once too little of it is free.
#[rattlefmt::skip]
pub const MULTI_RECV: &[Row] = &[
    (Zero(PostsMany(9)), "a buffer for many messages is posted"),
    (One(Injects(b"one", None)), "the first message is accepted"),
    (One(Injects(b"two", None)), "the second message is accepted"),
    (Carry, "both go on"),
    (AtZero(Part(9, 0, 3)), "the first is told to lie at the buffer's begin"),
    (Zero(HasPart(9, 0, b"one", 3)), "and lies there"),
    (AtZero(Part(9, 3, 3)), "the second is told to lie behind it"),
    (Zero(HasPart(9, 3, b"two", 3)), "and lies there"),
    (AtZero(Nothing), "the buffer stays while enough of it is free"),
    (One(Injects(b"thirteen", None)), "the third message is accepted"),
    (Carry, "both go on"),
    (AtZero(Part(9, 6, 8)), "the third is told to lie behind these"),
    (Zero(HasPart(9, 6, b"thirteen", 8)), "and lies there"),
    (AtZero(Released(9, 14, b"onetwothirteen\0\0")), "the buffer comes back, with all their bytes"),
];
