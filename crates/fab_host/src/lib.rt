//! The outside world of the program: the real files, output and clock behind the traits of `fab_outside`, the words
//! of the command line, the exit status, and the line on standard error.
//!
//! A `main` asks for the words ([`words_of`]), makes the real files, outputs and clock, and calls [`carry_out`], which
//! takes any, or [`refuse`] where there are no words. What happens between the words and the end is `fab_top::run`.
#![tactic(auto)]

mod adapters;
mod command;
mod ending;

pub use adapters::{FileDepot, OpenGate, OutSink, WallClock};
pub use command::{Ended, WordsRefused, carry_out, refuse, words_of};
pub use ending::end;
