//! The uses of `fabric`, run.
//!
//! They stand in a crate of their own, so that `fabric_uses` isn't proved twice.
#![tactic(auto)]

#[cfg(test)]
mod moments;
#[cfg(test)]
mod sleeping;
#[cfg(test)]
mod uses;
