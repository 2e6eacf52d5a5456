//! The words of a script (docs/SCRIPT.md): a text cut into lines, a line cut into words, and what one word says.
//!
//! The definitions are in specs/: `Rows` cuts a text into lines and a line into words, `Words` says what a number,
//! an index or a source is, `Bytes` how a word names bytes, and `Misreads` which of two goes first.
#![tactic(auto)]

mod bytes;
mod cut;
mod misread;
mod rows;
mod words;

pub use bytes::{bytes_size, read_bytes};
pub use cut::first_part;
pub use misread::{Misread, Read, both};
pub use rows::{Lines, all_text};
pub use words::{
    Words, is, number, numeral, read_index, read_number, read_source, read_text, read_up_to,
};
