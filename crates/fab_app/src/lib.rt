//! An endpoint as an application holds it: nobody reads its log, so none of its calls is refused for want of room in it.
//!
//! It is generic over the traits of `fab_face`, and proved over these alone. `fabric` names it over lanes in memory.
#![tactic(auto)]

pub mod clock;
pub mod completions;
pub mod endpoint;
pub mod memory;
pub mod messages;
pub mod moving;
pub mod peers;
pub mod probing;
pub mod receives;
pub mod receiving;
pub mod requests;
pub mod trying;
pub mod trying_until;
pub mod until;
