//! Who of the peers sleeps, and how they are woken.
//!
//! ```text
//! Words      one word a peer: whether it says that it sleeps; and how many say so
//!        |  Bell::for_all
//! Bell       of an endpoint: ring wakes each peer that says that it sleeps
//!        |  sleeper
//! Sleeper    of the thread that waits: say, then the last look, then doze, then wake
//! ```
//!
//! That no wake is lost rests on the order of two words. The page has the argument, step by step.
#![tactic(auto)]

mod bell;
mod sleeper;

pub use bell::Bell;
pub use sleeper::{Sleeper, Sleeps};
