//! The two phases of a run: rounds in threads over the lanes of one table, in each of which every peer takes one turn, and then,
//! over the ports gathered into plain ones, turns in one thread until nothing moves.
//!
//! Read `specs/Rounds` first (the turns of one peer, one after another), then `src/runner.rt` (a peer with what its last
//! turn told), `src/rounds.rt`, and for the threads that stay `specs/Staying` and `src/staying.rt`; then `specs/Phases` (what goes
//! over from the one phase to the other) and `src/phases.rt`. `src/scripts.rt` runs a whole script so.
#![tactic(auto)]

mod crossing;
mod opening;
pub mod phases;
pub mod rounds;
pub mod runner;
pub mod scripts;
mod seating;
pub mod starting;
mod staying;
