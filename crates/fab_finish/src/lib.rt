//! All peers of a script over plain ports, in one thread: they take turns, and what they posted is carried after each
//! round, until nothing moves. Where all lines are done then, the receives that are still posted are cancelled.
//!
//! It is proved for any machine behind the endpoints: what the turns of all peers do is an order of their steps.
#![tactic(auto)]

pub mod carrying;
pub mod finish;
pub mod rounds;
