//! The two halves of a peer's machine over plain lists: what it received, and what it transmits.
//!
//! They do what the definitions of `fab_model` say of these halves, with no index and nothing left out: the
//! contract of each step is one equation with its definition. The machine of a peer, `fab_checker_machine`, puts
//! them together.
//!
//! Nothing here has an invariant. A list by peer is looked at where it may have no such member, and a
//! number that would pass 64 bits is answered as want of memory: no script is long enough for that.
#![tactic(auto)]

mod arrivals;
mod cancelling;
mod filling;
mod halves;
mod keeping;
mod messages;
mod sending;
mod under_way;

pub use filling::take_made;
pub use halves::{Receiving, Transmitting};
