//! The calls of endpoints over lanes that peers share, tested, and endpoints whose ports are gathered into plain ports, and that go on over these.
//!
//! They stand in a crate of their own, so that `fab_domain` isn't proved twice.
#![tactic(auto)]

#[cfg(test)]
mod calls;
#[cfg(test)]
mod crossing;
#[cfg(test)]
mod opening;
#[cfg(test)]
mod rows;
