//! Calls that are refused.
use fabric::{Buf, COMPLETES, Calls, EndpointOver, Fault};
use std::alloc::Global;

/// A call that is refused for this reason. A buffer that it has comes back.
#[derive(Clone, Copy, Drop)]
pub enum Refusal {
    /// An injected message to this index.
    Inject(u32, Fault),
    /// A message that is tried so often.
    SendWithin(u32, Fault),
    /// A receive.
    Post(Fault),
    /// A receive that is tried so often.
    PostWithin(u32, Fault),
    /// A look.
    OfLook(Fault),
}

impl Refusal {
    /// Whether it is refused so.
    pub(crate) fn is_given<E: Calls + Drop>(
        self,
        alloc: Global,
        endpoint: &mut EndpointOver<E>,
    ) -> bool {
        match self {
            Refusal::Inject(dest, why) => endpoint.inject(dest, b"?", None) == Err(why),
            Refusal::SendWithin(times, why) => of_send_within(alloc, endpoint, times) == Some(why),
            Refusal::Post(why) => of_post(alloc, endpoint) == Some(why),
            Refusal::PostWithin(times, why) => of_post_within(alloc, endpoint, times) == Some(why),
            Refusal::OfLook(why) => endpoint.peek(None, 1, 0, 9) == Err(why),
        }
    }
}

/// Why a call was refused, where this is its buffer.
fn if_back(why: Fault, buf: &Buf) -> Option<Fault> {
    if buf.as_slice() == b"!".as_slice() {
        Some(why)
    } else {
        None
    }
}

fn of_send_within<E: Calls + Drop>(
    alloc: Global,
    endpoint: &mut EndpointOver<E>,
    times: u32,
) -> Option<Fault> {
    let buf = Buf::copy(alloc, b"!").ok()?;
    match endpoint.send_within(times, 0, buf, None, 9, COMPLETES) {
        Ok(()) => None,
        Err(refused) => if_back(refused.why, &refused.buf),
    }
}

fn of_post<E: Calls + Drop>(alloc: Global, endpoint: &mut EndpointOver<E>) -> Option<Fault> {
    let buf = Buf::copy(alloc, b"!").ok()?;
    match endpoint.recv(None, buf, 9) {
        Ok(()) => None,
        Err(refused) => if_back(refused.why, &refused.buf),
    }
}

fn of_post_within<E: Calls + Drop>(
    alloc: Global,
    endpoint: &mut EndpointOver<E>,
    times: u32,
) -> Option<Fault> {
    let buf = Buf::copy(alloc, b"!").ok()?;
    match endpoint.recv_within(times, None, buf, 9) {
        Ok(()) => None,
        Err(refused) => if_back(refused.why, &refused.buf),
    }
}
