//! The definitions of the matching machine, and the laws over them.
//!
//! The definitions stand in `specs/`: what each call, arrival and step makes of a peer's state, the
//! replay of a schedule, and the report of a script. `proofs/` has worked scripts and the laws; the
//! functions here do nothing, and each one's contract is a law.
#![tactic(auto)]

pub mod laws;
