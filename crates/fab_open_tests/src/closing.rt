//! An endpoint that is closed gives back what the application lent it.
use crate::opening::Fresh;
use fab_av::Av;
use fab_base::{Access, Buf};
use fab_face::calls::{Addresses, Regions};
use fab_link::{PlainPort, Port};
use fab_mr::Regions as Registered;
use fab_open::{Closed, Endpoint, close};
use std::alloc::Global;
use std::test::Fail;

/// Whether a region is registered under the key 9, and bytes are put into it.
fn registers<E: Regions>(alloc: Global, endpoint: &mut E) -> bool {
    let Ok(buf) = Buf::copy(alloc, b"01234567") else {
        return false;
    };
    let access = Access {
        remote_read: true,
        remote_write: true,
    };
    endpoint.reg(9, access, buf).is_ok() && endpoint.put(9, 2, b"ab").is_ok()
}

/// Whether the address of peer 0 is removed.
fn removes<E: Addresses>(endpoint: &mut E) -> bool {
    endpoint.remove(0).is_ok()
}

/// Whether the region has these bytes, and no other is there.
fn has(regions: &Registered, bytes: &[u8]) -> bool {
    regions.bytes(9) == Some(bytes) && regions.bytes(8).is_none()
}

/// Whether peer 1 alone is among the two addresses.
fn knows(av: &Av) -> bool {
    av.peers() == 2 && av.index_of(0).is_none() && av.index_of(1) == Some(1)
}

/// The endpoint of peer 1, once the region is registered with it and the address of peer 0 is removed.
fn changed<E: Fresh + Regions + Addresses + Drop>(alloc: Global) -> Option<E> {
    let mut endpoint = E::fresh(alloc, 1, 2)?;
    if registers(alloc, &mut endpoint) && removes(&mut endpoint) {
        Some(endpoint)
    } else {
        None
    }
}

/// Whether the port of peer 1, its addresses and its region were given back.
fn is_given_back(closed: Closed<PlainPort>) -> bool {
    closed.port.me() == 1 && knows(&closed.av) && has(&closed.regions, b"01ab4567")
}

/// Whether they are by an endpoint that is closed.
fn gives_back(endpoint: Option<Endpoint<PlainPort>>) -> bool {
    match endpoint {
        Some(endpoint) => is_given_back(close(endpoint)),
        None => false,
    }
}

#[test]
fn a_closed_endpoint_gives_its_regions_and_addresses_back(rt: HostRuntime) -> Result<(), Fail> {
    assert!(rt; gives_back(changed(rt.alloc())));
    Ok(())
}
