//! What the shares of a collective come to (fi_collective(3)): which kinds there are ([`Coll`]), and what a rank makes of its own
//! share and of those that it received ([`outcome`]).
//!
//! The definitions are in specs/Shares: who needs whose share, and what shares come to. Rounds in files and scripts stand on
//! them (`fab_workloads`), and so do collectives between threads (`fab_collectives`).
#![tactic(auto)]

mod coll;
mod outcomes;

pub use coll::{Coll, MOST_SHARE, is_reducing};
pub use outcomes::outcome;
