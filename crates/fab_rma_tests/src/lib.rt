//! Tests of what one-sided requests are served by: atomics and folds of shares by them, regions, and a target with its requests.
//!
//! They stand in a crate of their own, so that none of these parts is proved twice.
#![tactic(auto)]

#[cfg(test)]
mod atomics;
#[cfg(test)]
mod folds;
#[cfg(test)]
mod regions;
#[cfg(test)]
mod requests;
