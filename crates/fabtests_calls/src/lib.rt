//! Tests as tables: what two endpoints do step by step, and what holds if that goes as it should.
//!
//! Each call stands in a function of its own that tells it in short, so that what walks a table carries no clauses of calls.
#![tactic(auto)]

mod atomics;
mod calls;
mod completions;
mod counters;
mod deeds;
mod exchanging;
mod lengths;
mod looks;
mod names;
mod pings;
mod refusals;
mod remote;
mod steps;
mod windows;

pub use crate::atomics::{Atomic, BEFORE};
pub use crate::calls::{Verdict, check};
pub use crate::completions::Completion;
pub use crate::counters::Count;
pub use crate::deeds::Deed;
pub use crate::exchanging::{Exchange, exchanges};
pub use crate::looks::Look;
pub use crate::names::Name;
pub use crate::refusals::Refusal;
pub use crate::remote::{BOTH, READ_ONLY, Request};
pub use crate::steps::{Row, Step, walks};
