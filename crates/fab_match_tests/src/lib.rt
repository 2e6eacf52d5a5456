//! Tests of the matching stores, over lists and over bins (one table of calls, whose answers both give), and of the transmit half, `fab_tx`.
//!
//! They stand in a crate of their own, so that those below aren't proved twice.
#![tactic(auto)]

#[cfg(test)]
mod calls;
#[cfg(test)]
mod drawn;
#[cfg(test)]
mod lists;
#[cfg(test)]
mod operations;
#[cfg(test)]
mod stores;
