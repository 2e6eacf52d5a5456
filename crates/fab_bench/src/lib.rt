//! Exchanges between two threads, and calls in one, timed: what `lane_bench` and `endpoint_bench` share.
#![tactic(auto)]

pub mod alone;
pub mod runs;
pub mod table;
