//! The calls of endpoints over plain ports, tested.
//!
//! What is tested is written over the traits of `fab_face`, and an endpoint is named only where it is opened. They stand
//! in a crate of their own, so that `fab_open` isn't proved twice.
#![tactic(auto)]

#[cfg(test)]
mod carried;
#[cfg(test)]
mod claims;
#[cfg(test)]
mod closing;
#[cfg(test)]
mod directed;
#[cfg(test)]
mod filling;
#[cfg(test)]
mod frames;
#[cfg(test)]
mod multis;
#[cfg(test)]
mod opening;
#[cfg(test)]
mod refusals;
#[cfg(test)]
mod stray;
