//! What tests of commands share: gates for turns of rounds, and what the texts in the rows of a program spell.
#![tactic(auto)]

mod gates;
mod rows;

pub use gates::{InOrder, Meeting, OpenGate};
pub use rows::add_spelled;
