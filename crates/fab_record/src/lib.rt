//! A record of the past: a value that only contracts see.
//!
//! An endpoint promises things about all that it ever accepted and wrote, and keeps only what it still
//! needs. What it no longer holds stands in a [`Record`](record::Record): contracts see its value, no code
//! stores it, and a note changes it by one load of one word that nobody else uses.
//!
//! A record says nothing by itself, since any note may be made. What counts is what its owner promises: an
//! equation for each call, and an invariant that ties what is stored to the value.
#![tactic(auto)]

pub mod caller;
pub mod record;
