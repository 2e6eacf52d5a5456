//! The one table of a fabric: lanes of cells between each two peers, and a pool of slots for each
//! peer, over words that change in single atomic steps.
//!
//! For two peers and one pool slot each, a lane from s to d written `s>d`:
//!
//! ```text
//! words    0>0 put got   1>0 put got   0>1 put got   1>1 put got   pool 0: word   pool 1: word
//! places   0>0 cells     1>0 cells     0>1 cells     1>1 cells     pool 0: slot   pool 1: slot
//! ```
//!
//! `put` counts the frames that s posted to d, `got` those that d has taken. The cell of the k-th
//! frame is the one of number k modulo `room`. A cell holds a frame's command: its head, its number,
//! and up to 64 bytes, or the number of a slot of d's pool that has its bytes. A pool word is 0 while
//! its slot is free, and 1 + s from the time when s claimed it until d gives it back.
//!
//! Each peer has a seat, with which alone it steps. A place is in the hand of one seat or at home, and
//! only who has it in hand reads or writes it, as plain memory. Each hot word stands 128 bytes from the
//! next. The lanes to one receiver lie side by side, since it looks at all of them in turn. The rule that
//! holds between any two steps is in specs/Rule, and `laws` says what it comes to; what a step tells its
//! peer is in specs/Plays. This crate has one function for each kind of step (`steps`), and those that
//! touch the place in hand (`hand`).
#![tactic(auto)]

mod hand;
mod kinds;
mod lane_table;
mod laws;
mod making;
mod rule;
mod steps;
mod words;

pub use kinds::{Command, In, Layout, Out, Part, Sent, Slot, View};
pub use lane_table::{LaneTable, PeerSeat};
pub use laws::law_lane_rule;
pub use making::blank;
pub use rule::LaneRule;
