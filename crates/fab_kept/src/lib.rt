//! The completions that a peer read and that no `wait` took (fi_cq(3)).
//!
//! [`KeptList`] has them in the order in which they were read, and finds the first of a context without a search: each
//! stands at a place, an index has the places of each context, and a place whose completion is taken out is empty.
#![tactic(auto)]

mod index;
mod list;

pub use list::{KeptList, ctx_of};
