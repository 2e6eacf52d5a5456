//! The text of a report, part by part: its first line, the part of each peer, and its last line. And the schedule that a text tells.
//!
//! It knows what a peer's lines did, what it read and which steps it took, and nothing of how it came to
//! that.
#![tactic(auto)]

mod cut;
mod reading;
mod report;

pub use reading::read_schedule;
pub use report::{add_bytes, add_first, add_last, add_peer};
