//! The memory regions of an endpoint: bytes under keys, which other peers reach by their offset (fi_mr(3)).
//!
//! [`Regions`] is a finite map from a key to the rights that a region gives and to its bytes. It
//! finds a key by its hash. Contracts see the list of the regions in the order in which they were
//! registered, with no key twice, as `fab_model` does; specs/Regions reads it as a map.
#![tactic(auto)]

mod regions;

pub use regions::Regions;
