//! The endpoint over any port (fi_endpoint(3)).
//!
//! It stands between a machine, which keeps the state of one endpoint and knows the rules of libfabric,
//! and a port, which carries frames. A call of the machine is logged; a frame of the port is handed to the
//! machine, and a piece of the machine's next item to the port. What is promised of each call is said in
//! `fab_face`.
#![tactic(auto)]

mod calls;
mod drawing;
pub mod endpoint;
mod frames;
mod keeping;
mod lanes;
mod looking;
mod multis;
mod plain;
mod probing;
mod receiving;
mod regions;
mod requests;
pub mod seats;
mod sending;
