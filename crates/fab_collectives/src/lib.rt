//! Collectives between threads (fi_collective(3)), over the application's endpoint and without a script: a barrier, a
//! broadcast, an allgather and an allreduce that are begun, driven and done. None of the calls waits.
//!
//! ```text
//! Group           the ranks of a domain; begins collectives, on each rank in one order
//!        |  barrier, broadcast, allgather, allreduce
//! Collective      drive, as long as it gives nothing; and offer what is read of the completion queue
//! ```
//!
//! From [`DOUBLING_FROM`] ranks on messages go by doubling, in log rounds (`fab_topology`); otherwise each rank sends its share to every
//! rank that needs it. Each folds what it received itself. Tags and contexts from [`COLLECTIVE`] on are those of collectives.
#![tactic(auto)]

mod calls;
mod collective;
mod group;
mod laws;
mod offers;
mod routes;
mod shares;

pub use collective::Collective;
pub use fab_fold::{Coll, MOST_SHARE, is_reducing};
pub use group::{COLLECTIVE, Group};
pub use laws::{law_folded, law_offered};
pub use routes::DOUBLING_FROM;
