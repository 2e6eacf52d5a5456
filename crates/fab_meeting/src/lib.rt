//! A meeting place for the threads that run side by side.
//!
//! Each member has a seat. At a meeting each member says a word, and each is answered the words of all, joined by `or`.
//! A member waits until all have said theirs. Nothing says that this comes to an end, so a roll call before the first
//! meeting tells whether all members have threads.
//!
//! Read `specs/Accounts` (what a member knows), then `specs/Gather` (what is known of all members once they are together
//! again). The rule that holds between any two steps is in `specs/Rule`.
#![tactic(auto)]

mod board;
mod gathering;
mod kinds;
mod meeting;
mod roll;
mod rule;
mod steps;

pub use board::{Meeting, MeetingSeat};
pub use kinds::Account;
pub use roll::RollCall;
