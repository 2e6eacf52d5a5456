//! The server: it sleeps until a request is there, and answers it with the bytes that it has.
use crate::stopped::Stopped;
use crate::waits::{ANSWER, BYTES, REQUEST, REQUESTS, Waiter, next, post, send};
use fabric::{Buf, Calls, Clock, EndpointOver};
use std::alloc::Global;
use std::sync::Wait;

/// How many receives are posted ahead.
const AHEAD: u32 = 8;

/// How many turns the server makes progress until its last answers are on their way.
const LONG: u32 = u32::MAX;

/// How many requests were answered.
#[derive(Clone, Copy, Drop)]
pub(crate) struct Served {
    pub requests: u32,
}

/// Posts receives ahead, whoever sends.
fn post_ahead<E: Calls + Drop>(
    alloc: Global,
    endpoint: &mut EndpointOver<E>,
) -> Result<(), Stopped> {
    for _ in 0..AHEAD {
        let buf = Buf::zeros(alloc, BYTES)?;
        post(endpoint, None, REQUEST, buf)?;
    }
    Ok(())
}

/// Answers the next request. The buffer that it came in is posted again.
fn serve<R: Wait, C: Clock + Drop, E: Calls + Drop>(
    rt: &R,
    endpoint: &mut EndpointOver<E>,
    waiter: &mut Waiter<C>,
) -> Result<(), Stopped> {
    let request = next(rt, endpoint, waiter)?;
    send(rt, endpoint, request.source, ANSWER, request.buf.as_slice())?;
    post(endpoint, None, REQUEST, request.buf)
}

/// Serves until each client has made its last request, and all answers are on their way.
pub(crate) fn run<R: Wait, C: Clock + Drop, E: Calls + Drop>(
    rt: &R,
    alloc: Global,
    endpoint: &mut EndpointOver<E>,
    waiter: &mut Waiter<C>,
) -> Result<Served, Stopped> {
    post_ahead(alloc, endpoint)?;
    let clients = endpoint.peers().saturating_sub(1);
    let mut served = Served { requests: 0 };
    for _ in 0..clients.saturating_mul(REQUESTS) {
        serve(rt, endpoint, waiter)?;
        served.requests = served.requests.saturating_add(1);
    }
    endpoint.flush(LONG)?;
    Ok(served)
}
