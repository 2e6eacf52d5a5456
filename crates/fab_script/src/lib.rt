//! Scripts: from the bytes of a file to the lines of each peer.
//!
//! [`parse`] reads a text by the grammar of docs/SCRIPT.md, which is in the crate `fab_grammar`. It goes over the text
//! once, line by line. [`bind`] puts a script and its payload files together, and [`lines`] gives the lines of a peer
//! with their bytes. [`print`], of the crate `fab_spell`, writes a script such that it reads again.
#![tactic(auto)]

mod binding;
mod bound_lines;
mod grammar;
mod parts;
mod reader;
mod refused;

pub use binding::bind;
pub use bound_lines::lines;
pub use fab_spell::print;
pub use grammar::parse;
pub use refused::ParseRefused;
