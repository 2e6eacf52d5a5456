//! Bytes of a buffer for many messages are lent.
use crate::opening::Fresh;
use fab_base::Buf;
use fab_face::calls::Multis;
use fab_link::PlainPort;
use fab_open::Endpoint;
use std::alloc::Global;
use std::test::Fail;

/// Whether a multi-receive of ten bytes is posted under the context 3.
fn posts<E: Multis>(alloc: Global, endpoint: &mut E) -> bool {
    let Ok(buf) = Buf::copy(alloc, b"0123456789") else {
        return false;
    };
    endpoint.recv_multi(None, buf, 1, 3).is_ok()
}

/// Whether these bytes are lent.
fn lends<E: Multis>(endpoint: &E, ctx: u64, at: u32, len: u32, bytes: &[u8]) -> bool {
    endpoint.multi_bytes(ctx, at, len) == Some(bytes)
}

/// Whether nothing is lent.
fn lends_none<E: Multis>(endpoint: &E, ctx: u64, at: u32, len: u32) -> bool {
    endpoint.multi_bytes(ctx, at, len).is_none()
}

/// Whether bytes of a multi-receive are lent, and none behind its end or of another context.
fn lends_own<E: Multis>(alloc: Global, endpoint: &mut E) -> bool {
    posts(alloc, endpoint)
        && lends(endpoint, 3, 0, 10, b"0123456789")
        && lends(endpoint, 3, 4, 3, b"456")
        && lends_none(endpoint, 3, 1, 10)
        && lends_none(endpoint, 4, 0, 1)
}

/// The same of a new endpoint.
fn new_lends_own<E: Fresh + Multis + Drop>(alloc: Global) -> bool {
    match E::fresh(alloc, 0, 2) {
        Some(mut endpoint) => lends_own(alloc, &mut endpoint),
        None => false,
    }
}

#[test]
fn bytes_of_a_multi_receive_are_lent(rt: HostRuntime) -> Result<(), Fail> {
    assert!(rt; new_lends_own::<Endpoint<PlainPort>>(rt.alloc()));
    Ok(())
}
