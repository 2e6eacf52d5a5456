//! The parts of a small MPI that need no endpoint: how a rank and a tag are told to one, and what ended and is not yet waited for.
#![tactic(auto)]

mod ended;
mod tags;

pub use ended::{Ended, take_ended};
pub use tags::{ANY_SOURCE, ANY_TAG, TAG_UB, Wrong, tag_of, wanted, wrong_with};
