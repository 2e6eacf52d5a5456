//! The laws of the scripts that `pingpong`, `bandwidth`, `gen` and `coll` run: each is settled, and its answer does all lines.
//! So no lawful schedule of such a script rests with a line left. In rounds of collectives every rank gets what the round
//! comes to, and no rank passes a barrier before all have come to it.
//!
//! Read `src/laws.rt` and `src/coll_laws.rt` first: functions that do nothing, and whose contracts are the laws.
#![tactic(auto)]

pub mod coll_laws;
pub mod laws;
