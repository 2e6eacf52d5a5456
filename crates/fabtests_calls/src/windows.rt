//! Windows of messages, each acknowledged.
use crate::exchanging::{Done, PATIENCE, Verdict, check, goes_out, waits};
use fabric::{Buf, COMPLETES, Calls, EndpointOver};
use std::alloc::Global;

/// How many messages make a window, how many windows there are, and how long each message is.
const WINDOW: u32 = 32;

const WINDOWS: u32 = 16;

const LENGTH: u32 = 1000;

/// The tag of the acknowledgement of a window.
const ACKNOWLEDGED: u64 = 1000;

/// The bytes of each message of a window.
fn byte_of(window: u32) -> u8 {
    (window % 251) as u8
}

/// A message of a window.
fn message_of(alloc: Global, window: u32) -> Option<Buf> {
    match vec![in alloc; byte_of(window); LENGTH as usize] {
        Ok(bytes) => Some(Buf::from_vec(bytes)),
        Err(_) => None,
    }
}

/// Whether a message of a window is accepted, as soon as there is room.
fn sends_one<E: Calls + Drop>(
    alloc: Global,
    endpoint: &mut EndpointOver<E>,
    window: u32,
    tag: u64,
) -> bool {
    match message_of(alloc, window) {
        Some(buf) => endpoint
            .tsend_within(PATIENCE, 1, tag, buf, None, tag, COMPLETES)
            .is_ok(),
        None => false,
    }
}

/// Whether a message was sent, or the acknowledgement came.
fn is_sent_or_acknowledged(done: Done) -> bool {
    match done {
        Done::Sent(ctx, tagged, buf) => {
            tagged && ctx < u64::from(WINDOW) && buf.as_slice().len() == LENGTH as usize
        }
        Done::Came(_, tag, _, _) => tag == Some(ACKNOWLEDGED),
    }
}

/// Whether the next completion is that of a message which was sent, or of the acknowledgement.
fn goes_on<E: Calls + Drop>(endpoint: &mut EndpointOver<E>) -> bool {
    match waits(endpoint) {
        Some(done) => is_sent_or_acknowledged(done),
        None => false,
    }
}

/// Whether all messages of a window were sent, and acknowledged.
fn is_acknowledged<E: Calls + Drop>(endpoint: &mut EndpointOver<E>) -> bool {
    let mut all = true;
    for _ in 0..=WINDOW {
        all = all && goes_on(endpoint);
    }
    all
}

/// Whether a receive of the acknowledgement is posted.
fn awaits<E: Calls + Drop>(alloc: Global, endpoint: &mut EndpointOver<E>, window: u32) -> bool {
    match Buf::zeros(alloc, 1) {
        Ok(buf) => endpoint
            .trecv(None, ACKNOWLEDGED, 0, buf, u64::from(window))
            .is_ok(),
        Err(_) => false,
    }
}

/// Whether each message of a window is accepted.
fn sends_all<E: Calls + Drop>(alloc: Global, endpoint: &mut EndpointOver<E>, window: u32) -> bool {
    let mut sent = true;
    for tag in 0..WINDOW {
        sent = sent && sends_one(alloc, endpoint, window, u64::from(tag));
    }
    sent
}

/// Sends all windows, each after the one before was acknowledged.
pub(crate) fn streams<E: Calls + Drop>(alloc: Global, endpoint: &mut EndpointOver<E>) -> Verdict {
    for window in 0..WINDOWS {
        check(
            awaits(alloc, endpoint, window),
            "a receive of the acknowledgement is posted",
        )?;
        check(
            sends_all(alloc, endpoint, window),
            "each message of a window is accepted",
        )?;
        check(
            is_acknowledged(endpoint),
            "each is sent, and the window acknowledged",
        )?;
    }
    Ok(())
}

/// Whether a receive of a message of a window is posted, under its tag, as soon as there is room.
fn posts_one<E: Calls + Drop>(alloc: Global, endpoint: &mut EndpointOver<E>, tag: u64) -> bool {
    match Buf::zeros(alloc, u64::from(LENGTH)) {
        Ok(buf) => endpoint
            .trecv_within(PATIENCE, None, tag, 0, buf, tag)
            .is_ok(),
        Err(_) => false,
    }
}

/// Whether the receives of a window are posted.
fn posts_all<E: Calls + Drop>(alloc: Global, endpoint: &mut EndpointOver<E>) -> bool {
    let mut posted = true;
    for tag in 0..WINDOW {
        posted = posted && posts_one(alloc, endpoint, u64::from(tag));
    }
    posted
}

/// Whether this is the message of a window, under the tag of its receive.
fn is_of_window(done: Done, message: &Buf) -> bool {
    match done {
        Done::Came(ctx, tag, _, buf) => tag == Some(ctx) && buf.as_slice() == message.as_slice(),
        Done::Sent(..) => false,
    }
}

/// Whether the next message of a window comes.
fn gets_one<E: Calls + Drop>(endpoint: &mut EndpointOver<E>, message: &Buf) -> bool {
    match waits(endpoint) {
        Some(done) => is_of_window(done, message),
        None => false,
    }
}

/// Whether so many of these messages come.
fn gets_each<E: Calls + Drop>(endpoint: &mut EndpointOver<E>, message: &Buf) -> bool {
    let mut came = true;
    for _ in 0..WINDOW {
        came = came && gets_one(endpoint, message);
    }
    came
}

/// Whether each message of a window comes.
fn gets_all<E: Calls + Drop>(alloc: Global, endpoint: &mut EndpointOver<E>, window: u32) -> bool {
    match message_of(alloc, window) {
        Some(message) => gets_each(endpoint, &message),
        None => false,
    }
}

/// Whether the acknowledgement goes out.
fn acknowledges<E: Calls + Drop>(endpoint: &mut EndpointOver<E>) -> bool {
    endpoint.tinject(0, ACKNOWLEDGED, b"!", None).is_ok() && goes_out(endpoint)
}

/// Receives all windows, and acknowledges each.
pub(crate) fn sinks<E: Calls + Drop>(alloc: Global, endpoint: &mut EndpointOver<E>) -> Verdict {
    for window in 0..WINDOWS {
        check(
            posts_all(alloc, endpoint),
            "the receives of a window are posted",
        )?;
        check(
            gets_all(alloc, endpoint, window),
            "each message comes, with its bytes, where its tag is asked for",
        )?;
        check(acknowledges(endpoint), "the acknowledgement goes out")?;
    }
    Ok(())
}
