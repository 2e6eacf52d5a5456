//! Endpoints as an application opens them (fi_endpoint(3)), over any port.
//!
//! ```text
//! fab_link, fab_ring   a port to each peer
//! fab_av               an address vector
//! fab_info             what was negotiated
//!        |  open
//! Endpoint             sends, receives, progress and completions: the traits of fab_face
//!        |  close
//! Closed               the port, the address vector and the regions
//! ```
//!
//! The machine behind an endpoint is `BinMachine`: that of `fab_core`, with matching in hashed bins.
#![tactic(auto)]

mod closing;
mod machine;
mod opening;

pub use closing::{Closed, close};
pub use machine::BinMachine;
pub use opening::{Endpoint, OpenRefused, is_granted, open};
