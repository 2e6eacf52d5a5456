//! A run as a sequence chart, in SVG: a line for each peer, what it did from top to bottom, and an arrow for each message or reply
//! from where it was transmitted to where it was whole.
//!
//! [`chart`] takes plain values: which peers took the turns, in their order, the steps of each peer, and the report that tells
//! them. Whether they are those of a lawful run is for its caller to know.
#![tactic(auto)]

mod events;
mod picture;

pub use events::{Event, events_of, lines_of, sent_at};
pub use picture::chart;
