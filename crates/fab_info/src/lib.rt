//! Negotiation (fi_getinfo(3)): what an application is granted of what it asks for.
//!
//! What is granted is defined in `fab_model`, over the one table of limits and offered capabilities
//! of `fab_base`; the code reads this table and has no number of its own.
#![tactic(auto)]

mod capabilities;
mod negotiation;
mod sizes;

pub use negotiation::getinfo;
