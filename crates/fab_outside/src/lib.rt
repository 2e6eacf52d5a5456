//! What a command has to do with the world outside the program: its words, its files, its output and its clock.
//!
//! What lies outside is handed in as three traits: a [`Depot`] gives files, a [`Sink`] takes the text, a
//! [`Clock`] tells the time. Each tells what it did in ghost members, among them a count of faults, so that a
//! fault in the answer is never made up. [`MemoryDepot`], [`MemorySink`] and [`MemoryClock`] are the same over
//! memory, and tell everything.
//!
//! [`load_script`](loading::load_script) loads a script and its payload files, in the order of their lines;
//! [`write_all`] hands a whole text to a sink; `commands` reads words, and `info` makes the text of what is granted.
#![tactic(auto)]

pub mod commands;
pub mod info;
pub mod loading;
mod memory;
mod outside;
mod writing;

pub use memory::{MemoryClock, MemoryDepot, MemorySink};
pub use outside::{Clock, Depot, Failed, LoadRefused, Sink};
pub use writing::write_all;
