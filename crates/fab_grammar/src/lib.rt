//! The grammar of scripts (docs/SCRIPT.md), and what one line says.
//!
//! The grammar is in specs/: `Verbs` has the first words of lines, `Settings` and `Lines` say what one line asks
//! for (with `Options`, `Sends`, `Atomics` and `Capabilities`), `Rules` for which reason a line is refused,
//! `Versions` what differs between the versions, and `Grammar` puts a script together. The code reads one line.
//!
//! A new kind of line has its definition in specs/Lines.antt and its reader in lines.rt, or in the files of its
//! subject, as Atomics and Sends.
#![tactic(auto)]

mod atomics;
mod capabilities;
mod items;
mod lines;
mod options;
mod sends;
mod settings;
mod verbs;
mod versions;

pub use atomics::{atom_name, atom_named, greatest, num_name, num_named, read_elements};
pub use capabilities::{cap_name, no_caps, read_caps};
pub use items::Item;
pub use lines::{class_name, read_op};
pub use options::{Allowed, Optional, Options};
pub use settings::{Setting, Settings, asking, read_peer, read_setting};
pub use verbs::{Verb, VerbKind};
pub use versions::{most_bytes, most_in_all, read_header, version_of};
