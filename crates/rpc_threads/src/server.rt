//! The server: it answers each request, one of each client late, and says with each answer how many requests of the client it holds back.
use crate::words::{ANSWER, BYTES, LAST, LONG, NUMBERS, REQUEST, SLOW, send};
use fabric::{Buf, Calls, EndpointOver, Entry, Fault, Polled};
use std::alloc::Global;
use std::sync::Wait;

/// How many receives are posted ahead.
const AHEAD: u32 = 8;

/// How many requests came, and how many of them were held back for a time.
#[derive(Clone, Copy, Drop)]
pub(crate) struct Served {
    pub requests: u32,
    pub held: u32,
}

/// A request that came.
#[derive(Clone, Copy, Drop)]
struct Request {
    client: u32,
    number: u64,
}

/// Posts a receive of a request, whoever sends it.
fn post<E: Calls + Drop>(endpoint: &mut EndpointOver<E>, buf: Buf) -> Result<(), Fault> {
    match endpoint.trecv(None, REQUEST, NUMBERS, buf, 0) {
        Ok(()) => Ok(()),
        Err(refused) => Err(refused.why),
    }
}

/// Posts receives ahead: as many requests come without being unexpected.
fn post_ahead<E: Calls + Drop>(alloc: Global, endpoint: &mut EndpointOver<E>) -> Result<(), Fault> {
    for _ in 0..AHEAD {
        let buf = Buf::zeros(alloc, BYTES)?;
        post(endpoint, buf)?;
    }
    Ok(())
}

/// The next request. The buffer that it came in is posted again.
fn next<E: Calls + Drop>(endpoint: &mut EndpointOver<E>) -> Result<Request, Fault> {
    let polled = endpoint.wait(LONG)?;
    match polled {
        Polled::Entry(
            Entry::Received {
                source,
                tag: Some(tag),
                buf,
                ..
            },
        ) => {
            post(endpoint, buf)?;
            Ok(Request {
                client: source,
                number: tag & NUMBERS,
            })
        }
        _ => Err(Fault::Avail),
    }
}

/// How many requests of a client are held back.
fn held_of(held: &[Request], client: u32) -> u64 {
    held.iter().filter(|one| one.client == client).count() as u64
}

/// Answers a request by its number times itself, and says how many requests of the client are held back.
fn answer<R: Wait, E: Calls + Drop>(
    rt: &R,
    endpoint: &mut EndpointOver<E>,
    held: &[Request],
    request: Request,
) -> Result<(), Fault> {
    let Request { client, number } = request;
    let value = number.wrapping_mul(number);
    send(
        rt,
        endpoint,
        client,
        ANSWER | number,
        value,
        Some(held_of(held, client)),
    )
}

/// Takes the first request of a client out of those that are held back.
fn take(held: &mut Vec<Request>, client: u32) -> Option<Request> {
    let at = held.iter().position(|one| one.client == client)?;
    Some(held.swap_remove(at))
}

/// Answers the requests of a client that were held back.
fn answer_held<R: Wait, E: Calls + Drop>(
    rt: &R,
    endpoint: &mut EndpointOver<E>,
    held: &mut Vec<Request>,
    client: u32,
) -> Result<(), Fault> {
    for _ in 0..held.len() {
        if let Some(request) = take(held, client) {
            answer(rt, endpoint, held, request)?;
        }
    }
    Ok(())
}

/// Does what a request asks for, at once or later, and tells whether it is held back.
fn serve<R: Wait, E: Calls + Drop>(
    rt: &R,
    endpoint: &mut EndpointOver<E>,
    held: &mut Vec<Request>,
    request: Request,
) -> Result<bool, Fault> {
    if request.number == SLOW {
        held.push(request)?;
        return Ok(true);
    }
    if request.number == LAST {
        answer_held(rt, endpoint, held, request.client)?;
    }
    answer(rt, endpoint, held, request)?;
    Ok(false)
}

/// Serves until each client has made its last request, and all answers are on their way.
pub(crate) fn run<R: Wait, E: Calls + Drop>(
    rt: &R,
    alloc: Global,
    endpoint: &mut EndpointOver<E>,
) -> Result<Served, Fault> {
    post_ahead(alloc, endpoint)?;
    let mut held = Vec::new(alloc);
    let mut served = Served {
        requests: 0,
        held: 0,
    };
    let mut clients = endpoint.peers().saturating_sub(1);
    for _ in rt.forever() {
        if clients == 0 {
            break;
        }
        let request = next(endpoint)?;
        served.requests = served.requests.saturating_add(1);
        clients = clients.saturating_sub(u32::from(request.number == LAST));
        if serve(rt, endpoint, &mut held, request)? {
            served.held = served.held.saturating_add(1);
        }
    }
    endpoint.flush(LONG)?;
    Ok(served)
}
