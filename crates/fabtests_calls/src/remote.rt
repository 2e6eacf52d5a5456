//! Regions, reads and writes.
use crate::calls::{carries, filled};
use crate::completions::Completion;
use fabric::{Access, Buf, COMPLETES, Calls, EndpointOver, Fault};
use std::alloc::Global;

/// What a peer may read and write.
pub const BOTH: Access = Access {
    remote_read: true,
    remote_write: true,
};

/// What a peer may read.
pub const READ_ONLY: Access = Access {
    remote_read: true,
    remote_write: false,
};

/// A call for regions of one's own, or for those of peer 0: it is accepted, but where it is said otherwise. Each begins with
/// the region's key.
#[derive(Clone, Copy, Drop)]
pub enum Request {
    /// A region of these bytes.
    Registers(u64, Access, &'static [u8]),
    /// A region whose key is in use: the bytes come back.
    RegistersNone(u64, &'static [u8]),
    /// The region has these bytes.
    Holds(u64, &'static [u8]),
    /// Bytes are put at this place of a region of one's own, or why not.
    Puts(u64, u64, &'static [u8]),
    PutsNone(u64, u64, &'static [u8], Fault),
    /// The region is closed, and had these bytes, or there is none.
    Closes(u64, &'static [u8]),
    ClosesNone(u64),
    /// A write of these bytes at this place, with this context.
    Writes(u64, u64, &'static [u8], u64),
    /// An injected write, with data if there is some.
    InjectsWrite(u64, u64, &'static [u8], Option<u64>),
    /// A read at this place, of so many bytes, with this context.
    Reads(u64, u64, u64, u64),
}

impl Request {
    /// Whether it is so.
    pub(crate) fn goes<E: Calls + Drop>(
        self,
        alloc: Global,
        endpoint: &mut EndpointOver<E>,
    ) -> bool {
        match self {
            Request::Registers(key, access, bytes) => {
                registers(alloc, endpoint, key, access, bytes) == Ok(())
            }
            Request::RegistersNone(key, bytes) => {
                registers(alloc, endpoint, key, BOTH, bytes) == Err(Fault::NoKey)
            }
            Request::Holds(key, bytes) => has(endpoint, key, bytes),
            Request::Puts(key, at, bytes) => puts(endpoint, key, at, bytes) == Ok(()),
            Request::PutsNone(key, at, bytes, why) => puts(endpoint, key, at, bytes) == Err(why),
            Request::Closes(key, bytes) => closes(endpoint, key, bytes),
            Request::ClosesNone(key) => closes_none(endpoint, key),
            Request::Writes(key, at, bytes, ctx) => writes(alloc, endpoint, key, at, bytes, ctx),
            Request::InjectsWrite(key, at, bytes, imm) => {
                endpoint.inject_write(0, key, at, bytes, imm).is_ok()
            }
            Request::Reads(key, at, len, ctx) => reads(alloc, endpoint, key, at, len, ctx),
        }
    }
}

/// Why a region of these bytes is not registered.
fn registers<E: Calls + Drop>(
    alloc: Global,
    endpoint: &mut EndpointOver<E>,
    key: u64,
    access: Access,
    bytes: &[u8],
) -> Result<(), Fault> {
    let Ok(buf) = Buf::copy(alloc, bytes) else {
        return Err(Fault::NoMemory);
    };
    match endpoint.reg(key, access, buf) {
        Ok(()) => Ok(()),
        Err(refused) => why_if_back(refused.why, &refused.buf, bytes),
    }
}

/// Why a region was refused, where these are its bytes.
fn why_if_back(why: Fault, buf: &Buf, bytes: &[u8]) -> Result<(), Fault> {
    if buf.as_slice() == bytes {
        Err(why)
    } else {
        Err(Fault::Invalid)
    }
}

pub(crate) fn has<E: Calls + Drop>(endpoint: &EndpointOver<E>, key: u64, bytes: &[u8]) -> bool {
    endpoint.region_bytes(key) == Some(bytes)
}

/// Why bytes are not put into a region of one's own.
pub(crate) fn puts<E: Calls + Drop>(
    endpoint: &mut EndpointOver<E>,
    key: u64,
    at: u64,
    bytes: &[u8],
) -> Result<(), Fault> {
    endpoint.put(key, at, bytes)
}

fn closes<E: Calls + Drop>(endpoint: &mut EndpointOver<E>, key: u64, bytes: &[u8]) -> bool {
    match endpoint.close_region(key) {
        Ok(buf) => buf.as_slice() == bytes,
        Err(_) => false,
    }
}

fn closes_none<E: Calls + Drop>(endpoint: &mut EndpointOver<E>, key: u64) -> bool {
    match endpoint.close_region(key) {
        Ok(_) => false,
        Err(why) => why == Fault::NoKey,
    }
}

fn writes<E: Calls + Drop>(
    alloc: Global,
    endpoint: &mut EndpointOver<E>,
    key: u64,
    at: u64,
    bytes: &[u8],
    ctx: u64,
) -> bool {
    match Buf::copy(alloc, bytes) {
        Ok(buf) => endpoint
            .write(0, key, at, buf, None, ctx, COMPLETES)
            .is_ok(),
        Err(_) => false,
    }
}

fn reads<E: Calls + Drop>(
    alloc: Global,
    endpoint: &mut EndpointOver<E>,
    key: u64,
    at: u64,
    len: u64,
    ctx: u64,
) -> bool {
    match Buf::zeros(alloc, len) {
        Ok(buf) => endpoint.read(0, key, at, buf, ctx).is_ok(),
        Err(_) => false,
    }
}

/// Whether a region of so many bytes is registered.
fn registers_filled<E: Calls + Drop>(alloc: Global, zero: &mut EndpointOver<E>, len: u32) -> bool {
    match filled(alloc, len, b'o') {
        Some(buf) => zero.reg(7, BOTH, buf).is_ok(),
        None => false,
    }
}

/// Whether a write and a read of so many bytes bring them there and back.
pub(crate) fn goes_and_comes<E: Calls + Drop>(
    alloc: Global,
    zero: &mut EndpointOver<E>,
    one: &mut EndpointOver<E>,
    len: u32,
) -> bool {
    match filled(alloc, len, b'n') {
        Some(new) => registers_filled(alloc, zero, len) && swaps(alloc, zero, one, new.as_slice()),
        None => false,
    }
}

/// Whether these bytes are written over a region, and read from it.
fn swaps<E: Calls + Drop>(
    alloc: Global,
    zero: &mut EndpointOver<E>,
    one: &mut EndpointOver<E>,
    new: &[u8],
) -> bool {
    let written = writes(alloc, one, 7, 0, new, 1);
    let read = reads(alloc, one, 7, 0, new.len() as u64, 2);
    let carried = carries(zero, one);
    written && read && carried && is_told(one, new) && closes(zero, 7, new)
}

fn is_told<E: Calls + Drop>(one: &mut EndpointOver<E>, new: &[u8]) -> bool {
    Completion::Wrote(1, new).is_next(one) && Completion::Read(2, new).is_next(one)
}
