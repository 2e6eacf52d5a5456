//! Waits by a clock that sleep where nothing comes (fi_cq_sread(3), fi_cntr_wait(3)).
//!
//! They stand over an application's endpoint (`fab_app`) and over who sleeps for its peer (`fab_bell`): a wait looks a while as
//! `wait_until` does, and then says that it sleeps, looks once more, and sleeps where nothing is left to move.
#![tactic(auto)]

mod counting;
mod resting;
mod waiting;

pub use counting::cntr_wait_asleep;
pub use resting::with_sleeper;
pub use waiting::wait_asleep;
