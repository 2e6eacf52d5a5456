//! A peer of a script over any endpoint: it does its lines in turns, keeps what it reads, and keeps its schedule.
//!
//! It is proved over the endpoint's public face alone (`fab_face`), whatever the endpoint and the port.
#![tactic(auto)]

pub mod calls;
mod keeping;
mod lines;
mod looks;
pub mod peer;
mod reading;
mod regions;
mod requests;
mod spare;
