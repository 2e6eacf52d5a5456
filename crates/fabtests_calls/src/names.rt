//! The address vector.
use fabric::{Calls, EndpointOver, Fault, Text};
use std::alloc::Global;

/// A call for the address vector.
#[derive(Clone, Copy, Drop)]
pub enum Name {
    /// A name that is inserted has this index, or none.
    Inserts(&'static str, Option<u32>),
    /// The address at this index is removed, or there is none.
    Removes(u32),
    RemovesNone(u32),
    /// A peer has this index, or none.
    Finds(u32, Option<u32>),
}

impl Name {
    /// Whether it is so.
    pub(crate) fn goes<E: Calls + Drop>(
        self,
        alloc: Global,
        endpoint: &mut EndpointOver<E>,
    ) -> bool {
        match self {
            Name::Inserts(name, index) => inserts(alloc, endpoint, name) == index,
            Name::Removes(index) => removes(endpoint, index) == Ok(()),
            Name::RemovesNone(index) => removes(endpoint, index) == Err(Fault::NoEntry),
            Name::Finds(peer, index) => endpoint.index_of(peer) == index,
        }
    }
}

/// The index of a name that is inserted, if it has one.
fn inserts<E: Calls + Drop>(
    alloc: Global,
    endpoint: &mut EndpointOver<E>,
    name: &str,
) -> Option<u32> {
    let name = Text::copy(alloc, name).ok()?;
    let report = endpoint.insert(&[name]).ok()?;
    report.indices.as_slice().first().copied().flatten()
}

/// Why an address is not removed.
fn removes<E: Calls + Drop>(endpoint: &mut EndpointOver<E>, index: u32) -> Result<(), Fault> {
    endpoint.remove(index)
}
