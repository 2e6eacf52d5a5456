//! What a peer asks of its endpoint, and an endpoint of its machine.
use fab_face::calls::{
    Addresses, Counters, Logs, Looks, Messages, Multis, Progress, Receives, Regions, Requests,
};
use fab_face::keeping::{Addressing, Counting};
use fab_face::looking::Looking;
use fab_face::multis::MultiReceiving;
use fab_face::requesting::Requesting;
use fab_face::targets::Targets;

/// An endpoint with the calls of all lines.
pub trait LineCalls: Messages
    + Requests
    + Receives
    + Looks
    + Multis
    + Regions
    + Counters
    + Addresses
    + Progress
    + Logs {}

impl<
    E: Messages
        + Requests
        + Receives
        + Looks
        + Multis
        + Regions
        + Counters
        + Addresses
        + Progress
        + Logs,
> LineCalls for E {}

/// A machine whose endpoint has these calls.
pub trait Machinery: Looking + MultiReceiving + Requesting + Targets + Counting + Addressing {}

impl<C: Looking + MultiReceiving + Requesting + Targets + Counting + Addressing> Machinery for C {}
