//! Looks for messages, what is done with one that was claimed, and cancels.
use fabric::{Buf, Calls, EndpointOver, Fault, PeekHow};
use std::alloc::Global;

/// A call of an endpoint for a message that came, or for a receive that it takes back.
#[derive(Clone, Copy, Drop)]
pub enum Look {
    /// A look under this tag is accepted, with this context.
    Looks(PeekHow, u64, u64),
    /// The look that is answered at once finds a message of peer 1 under this tag, of so many bytes.
    Probes(u64, u32),
    /// A receive of four bytes for the message that was claimed in this context is accepted.
    TakesClaimed(u64),
    /// The message that was claimed in this context may be thrown away.
    DropsClaimed(u64),
    /// A receive is cancelled, or none has this context.
    Cancels(u64),
    CancelsNone(u64),
    /// The first receive is cancelled, whatever its context, or there is none.
    CancelsFirst,
    HasNoFirst,
}

impl Look {
    /// Whether it is so.
    pub(crate) fn goes<E: Calls + Drop>(
        self,
        alloc: Global,
        endpoint: &mut EndpointOver<E>,
    ) -> bool {
        match self {
            Look::Looks(how, tag, ctx) => looks(endpoint, how, tag, ctx),
            Look::Probes(tag, len) => probes(endpoint, tag, len),
            Look::TakesClaimed(ctx) => takes_claimed(alloc, endpoint, ctx),
            Look::DropsClaimed(ctx) => endpoint.drop_claimed(ctx).is_ok(),
            Look::Cancels(ctx) => cancels(endpoint, ctx) == Ok(()),
            Look::CancelsNone(ctx) => cancels(endpoint, ctx) == Err(Fault::NoEntry),
            Look::CancelsFirst => cancels_first(endpoint) == Ok(()),
            Look::HasNoFirst => cancels_first(endpoint) == Err(Fault::NoEntry),
        }
    }
}

fn looks<E: Calls + Drop>(
    endpoint: &mut EndpointOver<E>,
    how: PeekHow,
    tag: u64,
    ctx: u64,
) -> bool {
    match how {
        PeekHow::Peek => endpoint.peek(None, tag, 0, ctx).is_ok(),
        PeekHow::Claim => endpoint.claim(None, tag, 0, ctx).is_ok(),
        PeekHow::Discard => endpoint.discard(None, tag, 0, ctx).is_ok(),
    }
}

fn probes<E: Calls + Drop>(endpoint: &EndpointOver<E>, tag: u64, len: u32) -> bool {
    match endpoint.probe(None, tag, 0) {
        Ok(Some(probed)) => probed.tag == tag && probed.len == len && probed.source == 1,
        _ => false,
    }
}

fn takes_claimed<E: Calls + Drop>(alloc: Global, endpoint: &mut EndpointOver<E>, ctx: u64) -> bool {
    match Buf::zeros(alloc, 4) {
        Ok(buf) => endpoint.take(buf, ctx).is_ok(),
        Err(_) => false,
    }
}

/// Why a receive of this context is not cancelled.
fn cancels<E: Calls + Drop>(endpoint: &mut EndpointOver<E>, ctx: u64) -> Result<(), Fault> {
    endpoint.cancel(ctx)
}

/// Why no receive is cancelled.
fn cancels_first<E: Calls + Drop>(endpoint: &mut EndpointOver<E>) -> Result<(), Fault> {
    endpoint.cancel_first()
}
