//! Tests of `fab_rounds`: peers that take their turns side by side, over queues. Over lanes they do in rows of `run_examples`.
//!
//! They stand in a crate of their own, so that `fab_rounds` isn't proved twice.
#![tactic(auto)]

#[cfg(test)]
mod opening;
#[cfg(test)]
mod ports;
#[cfg(test)]
mod rounds;
