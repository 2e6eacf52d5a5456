//! Ports over the one table of lanes and pools.
//!
//! [`Rings`] makes the table, and from it a [`RingPort`] for each peer. A port meets the contract of all
//! ports, takes no memory after it is made, never waits, and tries nothing again: a full lane, a full pool
//! and an empty lane are told exactly as a step of the same call showed them.
//!
//! `sending` and `receiving` have what a call does at the seat, `calls` what it does to a port, and
//! `meaning` says it in the words of all ports. A port's places in hand are a ring over the sources
//! (specs/Hands).
//!
//! [`gather`] makes plain ports of the ports of all peers: `rooms` takes the memory, `joining` makes one seat
//! of all, and `emptying` takes what is inside the lanes.
#![tactic(auto)]

mod calls;
mod emptying;
mod gathering;
mod joining;
mod meaning;
mod port;
mod receiving;
mod rings;
mod rooms;
mod sending;

pub use gathering::{GatherRefused, gather};
pub use port::{RingPort, Rings};
