//! What one message, one receive, one call and one request are to the machine over plain lists (`fab_checker_machine`).
//!
//! Nothing here knows a peer: each function is an equation with a definition of `fab_model` on plain values.
//!
//! | file | what it is of |
//! |---|---|
//! | `matching` | which message a receive takes |
//! | `receives` | one receive, and what it has left |
//! | `entries` | completions |
//! | `orders` | transmit calls, and the items that they make |
//! | `atomics`, `target` | what a request does to the regions of its target |
//! | `lists` | members of lists, and numbers that stay within their types |
#![tactic(auto)]

pub mod atomics;
pub mod entries;
pub mod lists;
pub mod matching;
pub mod orders;
pub mod receives;
pub mod target;
