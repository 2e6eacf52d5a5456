//! The matching machine of one endpoint: its halves, its completion queue and its counters, put together.
//!
//! [`Core`] is the [`Machine`](fab_face::machine::Machine) under an endpoint. A call is judged here, by
//! `fab_settling` where no state is needed, and done by the half that it belongs to. No half calls another: what a
//! half hands out is written, counted and booked there, too.
//!
//! | file | what it does |
//! |---|---|
//! | `parts` | what a core is made of |
//! | `sending` | messages are judged and accepted |
//! | `receives` | receives are posted and cancelled |
//! | `taking` | frames come in |
//! | `requests` | reads, writes and atomics are judged and accepted |
//! | `looks` | unexpected messages are looked at and set aside, claimed ones taken and dropped |
//! | `probing` | the first unexpected message, told at once |
//! | `draws` | multi-receives take unexpected messages |
//! | `multis` | multi-receives are judged and posted, and bytes of them lent |
//! | `keeping` | counters and addresses |
//! | `machine`, `looking`, `receiving` | all of it as the endpoint's machine |
//! | `callers` | to which call a completion belongs, for contracts |
//! | `targets` | the regions, as their owner calls them |
#![tactic(auto)]

mod callers;
mod draws;
mod keeping;
mod looking;
mod looks;
mod machine;
mod multis;
mod parts;
mod probing;
mod receives;
mod receiving;
mod requests;
mod sending;
mod taking;
mod targets;

pub use parts::Core;
