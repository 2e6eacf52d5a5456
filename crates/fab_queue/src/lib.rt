//! Ports over bounded queues, one queue for each ordered pair of peers.
//!
//! [`Queues`] makes the queues, and from them a [`QueuePort`] for each peer. A port meets the contract of all
//! ports. A full and an empty lane are told as the queue's own push and pop of the same call found them. Its calls
//! may wait for a peer that is inside a call on the same queue.
//!
//! `lane` has the queue of one lane and its rule, `outlet` and `inlet` the two ends of a lane, `port` what a
//! peer does at its ends, and `meaning` says it in the words of all ports. `laying` makes the lanes.
//!
//! [`gather`] makes plain ports of the ports of all peers: `rooms` takes the memory, and `emptying` takes what is
//! inside the lanes.
#![tactic(auto)]

mod emptying;
mod gathering;
mod inlet;
mod lane;
mod laying;
mod meaning;
mod outlet;
mod port;
mod queues;
mod rooms;

pub use gathering::{QueuesRefused, gather};
pub use port::QueuePort;
pub use queues::Queues;
