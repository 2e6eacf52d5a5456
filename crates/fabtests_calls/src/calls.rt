//! Calls for messages, each told in short.
use fabric::{Buf, COMPLETES, Calls, EndpointOver, Flags, Level};
use std::alloc::Global;

/// What a test found: all holds, or the check that fails.
pub type Verdict = Result<(), &'static str>;

/// How often two endpoints go on by turns: more than the longest message here takes.
const TURNS: u32 = 64;

/// For a message that is complete once it is copied.
pub(crate) const COPIED: Flags = Flags {
    completion: true,
    level: Level::Inject,
    fence: false,
};

/// For a message that is complete once it is whole at its peer.
pub(crate) const ARRIVED: Flags = Flags {
    completion: true,
    level: Level::Delivery,
    fence: false,
};

/// Whether a check holds.
pub fn check(holds: bool, what: &'static str) -> Verdict {
    if holds { Ok(()) } else { Err(what) }
}

/// Whether both endpoints go on by turns.
pub(crate) fn carries<E: Calls + Drop>(
    one: &mut EndpointOver<E>,
    other: &mut EndpointOver<E>,
) -> bool {
    let mut all = true;
    for _ in 0..TURNS {
        let first = one.progress(64).is_ok();
        let second = other.progress(64).is_ok();
        all = all && first && second;
    }
    all
}

/// So many bytes that are all this one.
pub(crate) fn filled(alloc: Global, len: u32, byte: u8) -> Option<Buf> {
    match vec![in alloc; byte; len as usize] {
        Ok(bytes) => Some(Buf::from_vec(bytes)),
        Err(_) => None,
    }
}

/// Whether a receive of so many bytes is posted.
pub(crate) fn posts<E: Calls + Drop>(
    alloc: Global,
    endpoint: &mut EndpointOver<E>,
    len: u64,
    ctx: u64,
) -> bool {
    match Buf::zeros(alloc, len) {
        Ok(buf) => endpoint.recv(None, buf, ctx).is_ok(),
        Err(_) => false,
    }
}

/// Whether a receive of so many bytes under this tag is posted.
pub(crate) fn posts_tagged<E: Calls + Drop>(
    alloc: Global,
    endpoint: &mut EndpointOver<E>,
    tag: u64,
    len: u64,
    ctx: u64,
) -> bool {
    match Buf::zeros(alloc, len) {
        Ok(buf) => endpoint.trecv(None, tag, 0, buf, ctx).is_ok(),
        Err(_) => false,
    }
}

/// Whether a receive of one byte is posted, once it is tried so often.
pub(crate) fn posts_within<E: Calls + Drop>(
    alloc: Global,
    endpoint: &mut EndpointOver<E>,
    times: u32,
    ctx: u64,
) -> bool {
    match Buf::zeros(alloc, 1) {
        Ok(buf) => endpoint.recv_within(times, None, buf, ctx).is_ok(),
        Err(_) => false,
    }
}

/// Whether a buffer of 16 bytes for many messages is posted, which comes back once fewer than four are free.
pub(crate) fn posts_many<E: Calls + Drop>(
    alloc: Global,
    endpoint: &mut EndpointOver<E>,
    ctx: u64,
) -> bool {
    match Buf::zeros(alloc, 16) {
        Ok(buf) => endpoint.recv_multi(None, buf, 4, ctx).is_ok(),
        Err(_) => false,
    }
}

/// Whether a message of these bytes is accepted, with these flags.
pub(crate) fn sends<E: Calls + Drop>(
    alloc: Global,
    endpoint: &mut EndpointOver<E>,
    dest: u32,
    bytes: &[u8],
    imm: Option<u64>,
    ctx: u64,
    flags: Flags,
) -> bool {
    match Buf::copy(alloc, bytes) {
        Ok(buf) => endpoint.send(dest, buf, imm, ctx, flags).is_ok(),
        Err(_) => false,
    }
}

/// Whether a message of these bytes for peer 0 is accepted, once it is tried so often.
pub(crate) fn sends_within<E: Calls + Drop>(
    alloc: Global,
    endpoint: &mut EndpointOver<E>,
    times: u32,
    bytes: &[u8],
    ctx: u64,
) -> bool {
    match Buf::copy(alloc, bytes) {
        Ok(buf) => endpoint
            .send_within(times, 0, buf, None, ctx, COMPLETES)
            .is_ok(),
        Err(_) => false,
    }
}

/// Whether a message of these bytes for peer 0 is accepted under this tag.
pub(crate) fn sends_tagged<E: Calls + Drop>(
    alloc: Global,
    endpoint: &mut EndpointOver<E>,
    tag: u64,
    bytes: &[u8],
    imm: Option<u64>,
    ctx: u64,
) -> bool {
    match Buf::copy(alloc, bytes) {
        Ok(buf) => endpoint.tsend(0, tag, buf, imm, ctx, COMPLETES).is_ok(),
        Err(_) => false,
    }
}

/// Whether an injected message of these bytes is accepted for peer 0.
pub(crate) fn injects<E: Calls + Drop>(
    endpoint: &mut EndpointOver<E>,
    bytes: &[u8],
    imm: Option<u64>,
) -> bool {
    endpoint.inject(0, bytes, imm).is_ok()
}
