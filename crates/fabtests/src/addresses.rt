//! The address vector: fi_av_test, fi_av_xfer.
use fabric::Fault;
use fabtests_calls::Completion::Received;
use fabtests_calls::Deed::{Name, Posts, Refuses, Sends};
use fabtests_calls::Name::{Finds, Inserts, Removes, RemovesNone};
use fabtests_calls::Refusal::Inject;
use fabtests_calls::Row;
use fabtests_calls::Step::{AtZero, Carry, One, Zero};

/// Names of peers have an index each, others none. An index is never given twice.
#[rattlefmt::skip]
pub const AV_TEST: &[Row] = &[
    (Zero(Name(Finds(1, Some(1)))), "each peer stands at the index of its number"),
    (Zero(Name(Inserts("shm://1", Some(1)))), "a name that stands keeps its index"),
    (Zero(Name(Inserts("shm://2", None))), "a name of no peer has none"),
    (Zero(Name(Inserts("localhost", None))), "nor has what is no name"),
    (Zero(Name(Removes(1))), "an address is removed"),
    (Zero(Name(RemovesNone(1))), "and once"),
    (Zero(Name(RemovesNone(9))), "none is removed where none stands"),
    (Zero(Name(Finds(1, None))), "the peer has no index then"),
    (Zero(Name(Inserts("shm://1", Some(2)))), "a new one has the next index"),
    (Zero(Name(Finds(1, Some(2)))), "under which the peer is found"),
];

/// Messages go to a peer while an address of it stands: not to an index that was removed, and to the new one.
#[rattlefmt::skip]
pub const AV_XFER: &[Row] = &[
    (Zero(Posts(3, 1)), "a receive is posted"),
    (Zero(Posts(3, 2)), "another one is posted"),
    (One(Sends(0, b"1st", 1)), "a message to the peer's index is accepted"),
    (One(Name(Removes(0))), "the address is removed"),
    (One(Refuses(Inject(0, Fault::Invalid))), "a message to it is refused"),
    (One(Name(Inserts("shm://0", Some(2)))), "the address is inserted again"),
    (One(Sends(2, b"2nd", 2)), "a message to the new index is accepted"),
    (One(Refuses(Inject(0, Fault::Invalid))), "the old one is still refused"),
    (Carry, "both go on"),
    (AtZero(Received(1, None, None, 3, b"1st")), "what was accepted before came"),
    (AtZero(Received(2, None, None, 3, b"2nd")), "what was sent to the new index came"),
];
