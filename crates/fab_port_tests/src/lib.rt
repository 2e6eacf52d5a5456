//! Tests of all ports: the suite of `fab_port_suite` over plain ports, those of a table and those over queues, and what is
//! special to each.
//!
//! They stand in a crate of their own, so that what is tested isn't proved twice. Two ports of a table, and the plain ports
//! that they are gathered into, are for the crate above too, which tests endpoints over them.
#![tactic(auto)]

mod gathered;
mod ring_ports;

pub use ring_ports::{pair_gathered, two_ports};

#[cfg(test)]
mod narrow;
#[cfg(test)]
mod plain;
#[cfg(test)]
mod queue;
#[cfg(test)]
mod ring;
#[cfg(test)]
mod rows;
