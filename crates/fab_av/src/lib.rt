//! The address vector of an endpoint (fi_av(3)), of type FI_AV_TABLE.
//!
//! A peer is named by the text `shm://K`, where K is its number in decimal: names in the manner of fi_shm(7). What an
//! insertion and a removal make of a vector is defined in `fab_model`, as calls of an endpoint.
#![tactic(auto)]

mod addresses;
mod names;

pub use addresses::{Av, InsertReport};
