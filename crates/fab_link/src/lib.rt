//! Items in a lane, and the port between peers: frames in order, for each ordered pair of peers.
//!
//! An item is cut into frames of 4,096 bytes, the last one shorter, and an item of no bytes has one frame of no bytes. A
//! [`Cutter`] gives the heads of an item's frames, a [`Joiner`] says which part of its item a frame is; neither keeps a byte or
//! takes memory. In specs/, `Frames` says which frame may come next in a lane, `Cut` and `Joined` how items become frames and
//! frames items, `Merged` how the posts and takes of all peers are put into one order. The laws over them are the contracts of
//! the functions of `laws`.
//!
//! A [`Port`] posts frames to every peer and lends those that came from each. Whatever carries
//! them, what a port takes of a peer is what that peer posted to it, in order. Contracts see, for
//! each peer, one record for what was posted to it and one for what came from it (specs/Meaning),
//! and never what a frame means.
//!
//! [`PlainPort`] is the port over lists, which is never full; [`carry`](carry::carry) moves what plain ports
//! posted to their receivers.
#![tactic(auto)]

pub mod carry;
mod cutter;
mod joiner;
mod lane;
mod laws;
mod moves;
pub mod plain;
pub mod port;

pub use cutter::Cutter;
pub use joiner::{Joined, Joiner};
pub use laws::{law_cut_is_lane, law_cut_joins, law_heads_tell, law_prefix_joins, law_stamped};
pub use moves::Move;
pub use plain::PlainPort;
pub use port::{Port, PostRefused};
