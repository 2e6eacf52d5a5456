//! Tests of what the program's commands stand on: members that meet, windows, the words and lines of workloads, the text of reports, the outside over
//! memory, and the program's own adapters and ends.
//!
//! They stand in a crate of their own, so that none of the crates that they test is proved twice. Each value is made, told and dropped in a function that
//! gives a `bool`.
#![tactic(auto)]

#[cfg(test)]
mod adapters;
#[cfg(test)]
mod ends;
#[cfg(test)]
mod meeting;
#[cfg(test)]
mod meetings;
#[cfg(test)]
mod memory;
pub mod playing;
#[cfg(test)]
mod reports;
#[cfg(test)]
mod seats;
#[cfg(test)]
mod windows;
#[cfg(test)]
mod words;
