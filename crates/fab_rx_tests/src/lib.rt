//! Tests of the receive half, `fab_rx`.
//!
//! They stand in a crate of their own, so that `fab_rx` isn't proved twice. Each call stands in a small function
//! that tells no more than the calls behind it ask for: a test whose calls tell all is dear to prove.
#![tactic(auto)]

#[cfg(test)]
mod calls;
#[cfg(test)]
mod claims;
#[cfg(test)]
mod messages;
#[cfg(test)]
mod multis;
