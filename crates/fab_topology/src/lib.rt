//! Who tells whom in each round of a collective (fi_collective(3)): straight, or by doubling in as many rounds as the number of
//! ranks has powers of two below it. It knows no messages, shares or endpoints.
//!
//! ```text
//!                 each has something for each       one has something for all
//! straight        Mesh                              Star
//! by doubling     Dissemination                     Tree
//! ```
//!
//! That each message has one receiver who waits for it, and that all hear of all, is [`law_rounds`]; that none is done before all have begun, [`law_begun`].
#![tactic(auto)]

mod around;
mod hearing;
mod kinds;
mod laws;

pub use around::{ahead, behind};
pub use hearing::{distance, hears, round_from, rounds, source, target, tells, waits_for, width};
pub use kinds::{Topology, is_doubling};
pub use laws::{law_begun, law_rounds};
