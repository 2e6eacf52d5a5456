//! The integer atomics of fi_atomic(3), over bytes in memory.
//!
//! [`apply`] does every element of a range: little-endian, in two's complement where the type is
//! signed, with sums and products modulo 2 to the number of bits. What an element becomes is one
//! definition of `fab_model` for all operations and types, `element`; here a number of up to 64 bits
//! is loaded, changed and stored, whatever the type.
#![tactic(auto)]

mod numbers;
mod ranges;

pub use ranges::apply;
