//! The endpoints of all peers of one domain (fi_domain(3)), over lanes in memory that they share: what an
//! application of many threads begins with.
//!
//! ```text
//! fab_info     getinfo        what is granted
//!        |  endpoints
//! one RingEndpoint a peer     moved to the thread that speaks for the peer; its calls are the traits of fab_face
//! ```
#![tactic(auto)]

mod endpoint;
mod opening;

pub use endpoint::RingEndpoint;
pub use opening::{endpoints, endpoints_that_sleep};
