//! Checks a report: whether it is the report of a lawful schedule.
//!
//! It follows the one schedule that the report tells, with a plain machine over lists for each peer
//! (`fab_checker_machine`), and writes the report of that schedule to compare (`fab_report`). It uses no endpoint,
//! no matching store and no port, so it shares with what made the report nothing but the definitions and
//! the words.
#![tactic(auto)]

mod actor;
mod completions;
mod lines;
mod opening;
mod ready;
mod rest;
mod turns;
mod verdicts;
mod writing;

pub use verdicts::{Verdict, check, order_of};
