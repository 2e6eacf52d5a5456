//! How a script is written (docs/SCRIPT.md), such that it reads again: the words of an operation and of a setting, and the whole text.
//!
//! The text is defined in specs/Print.antt: the header, the settings in a fixed order, the payload files, and the lines of each peer that has
//! some.
#![tactic(auto)]

mod bytes;
mod lines;
mod settings;
mod values;
mod words;
mod writing;

pub use bytes::add_bytes;
pub use lines::add_line;
pub use settings::{add_caps_line, add_payload, add_peers, add_selective, add_size};
pub use values::add_values;
pub use writing::print;
