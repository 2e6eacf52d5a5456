//! What a target does with the reads, writes and atomics of other peers (fi_rma(3), fi_atomic(3), fi_mr(3)).
//!
//! A [`Target`] owns the regions of an endpoint. At the first frame of a request
//! [`make_room`](Target::make_room) takes the memory for its reply, and at its last one
//! [`perform`](Target::perform) does it, whole or not at all, without any more memory.
//!
//! | file | what it does |
//! |---|---|
//! | `room` | room for the bytes of one reply |
//! | `elements` | an atomic over a copy of its range |
//! | `target` | the regions, and requests judged and performed |
#![tactic(auto)]

mod elements;
mod room;
mod target;

pub use target::{Reply, Target};
