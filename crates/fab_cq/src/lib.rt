//! The completion queue and the counters of an endpoint (fi_cq(3), fi_cntr(3)).
//!
//! A [`Queue`] holds the completions that are not read yet, at most as many as its size. Contracts see all that were
//! ever written, each with the number of its call; of these numbers, and of what was read, nothing is stored.
//! [`Counters`] are two numbers for each class of operations, successes and errors, which stay at their last value.
//!
//! All memory is reserved when a queue is made. No other call takes any.
#![tactic(auto)]

mod counters;
mod queue;

pub use counters::Counters;
pub use queue::Queue;
