//! The matching machine of one peer over plain lists: its two halves (`fab_checker_halves`), put together.
//!
//! It does what the definitions of `fab_model` say, step by step and in their order, with no index, no
//! port and nothing left out: the contract of each step is one equation with its definition. It is what a
//! report is checked with, beside the endpoint that made it.
//!
//! Nothing here has an invariant. A list by peer is looked at where it may have no such member, and a
//! number that would pass 64 bits is answered as want of memory: no script is long enough for that.
#![tactic(auto)]

mod addresses;
pub mod calls;
mod cancelling;
mod completing;
mod looking;
pub mod receiving;
mod regions;
mod room;
mod sending;
pub mod state;
mod tails;
