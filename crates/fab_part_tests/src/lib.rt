//! Tests of the parts that know one subject each: addresses, the arrows of a chart, the completion queue and the counters, frames,
//! completions that are kept, negotiation, and records.
//!
//! They stand in a crate of their own, so that none of the parts is proved twice.
#![tactic(auto)]

#[cfg(test)]
mod addresses;
#[cfg(test)]
mod charts;
#[cfg(test)]
mod completions;
#[cfg(test)]
mod frames;
#[cfg(test)]
mod kept;
#[cfg(test)]
mod negotiation;
#[cfg(test)]
mod records;
