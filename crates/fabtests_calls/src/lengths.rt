//! Messages of several lengths.
use crate::calls::{filled, posts, posts_tagged, sends, sends_tagged};
use crate::completions::Completion;
use fabric::{COMPLETES, Calls, EndpointOver};
use std::alloc::Global;

/// Without bytes, one frame, several.
const LENGTHS: [u32; 5] = [0, 1, 64, 4096, 10_000];

/// The tag of those that have one.
const TAG: u64 = 6;

/// Whether messages of each length are accepted, under a tag or without.
pub(crate) fn sends_all<E: Calls + Drop>(
    alloc: Global,
    endpoint: &mut EndpointOver<E>,
    is_tagged: bool,
) -> bool {
    let mut all = true;
    for len in LENGTHS {
        all = all && sends_filled(alloc, endpoint, is_tagged, len);
    }
    all
}

fn sends_filled<E: Calls + Drop>(
    alloc: Global,
    endpoint: &mut EndpointOver<E>,
    is_tagged: bool,
    len: u32,
) -> bool {
    match filled(alloc, len, byte_of(is_tagged)) {
        Some(bytes) if is_tagged => {
            sends_tagged(alloc, endpoint, TAG, bytes.as_slice(), None, 1)
        }
        Some(bytes) => sends(alloc, endpoint, 0, bytes.as_slice(), None, 1, COMPLETES),
        None => false,
    }
}

fn byte_of(is_tagged: bool) -> u8 {
    if is_tagged { b't' } else { b'u' }
}

/// Whether receives of each length take the messages in the order sent, and whole.
pub(crate) fn takes_all<E: Calls + Drop>(
    alloc: Global,
    endpoint: &mut EndpointOver<E>,
    is_tagged: bool,
) -> bool {
    let mut all = true;
    for len in LENGTHS {
        all = all && takes_filled(alloc, endpoint, is_tagged, len);
    }
    all
}

fn takes_filled<E: Calls + Drop>(
    alloc: Global,
    endpoint: &mut EndpointOver<E>,
    is_tagged: bool,
    len: u32,
) -> bool {
    let posted = posts_so(alloc, endpoint, is_tagged, u64::from(len));
    match filled(alloc, len, byte_of(is_tagged)) {
        Some(bytes) => posted && comes(endpoint, is_tagged, len, bytes.as_slice()),
        None => false,
    }
}

fn posts_so<E: Calls + Drop>(
    alloc: Global,
    endpoint: &mut EndpointOver<E>,
    is_tagged: bool,
    len: u64,
) -> bool {
    if is_tagged {
        posts_tagged(alloc, endpoint, TAG, len, 2)
    } else {
        posts(alloc, endpoint, len, 2)
    }
}

fn comes<E: Calls + Drop>(
    endpoint: &mut EndpointOver<E>,
    is_tagged: bool,
    len: u32,
    bytes: &[u8],
) -> bool {
    let tag = if is_tagged { Some(TAG) } else { None };
    Completion::Received(2, tag, None, len, bytes).is_next(endpoint)
}
