//! Messages that go out.
ghost use Rattle.std.specs.Prelude.{◌≡◌, ◌<◌, ◌≤◌, true, false, OnOk, IfErr, IfSome, IsTrue, length, replicate};
ghost use Rattle.fabric.specs.State.{in_use};
ghost use Rattle.fabric_uses.specs.Uses.{IsQuiet, SendsCopy, SendsMessage, is_again, may_refuse_send, most_in};

use fabric::{Buf, Busy, COMPLETES, Calls, EndpointOver, Fault, Refused};

/// Sends a copy of the bytes, and wipes them at once: they are free.
pub fn inject_and_wipe<E: Calls + Drop>(
    endpoint: &mut EndpointOver<E>,
    dest: u32,
    bytes: &mut [u8],
) -> Result<(), Fault>
    ensures sent { OnOk result (SendsCopy E.fixed dest bytes.old (E.seen endpoint.old) (E.seen endpoint.new)) }
    ensures wiped { bytes.new ≡ replicate (length bytes.old) 0 }
{
    let answer = endpoint.inject(dest, bytes, None);
    bytes.fill(0);
    answer
}

/// How many operations may be under way, where the fault is that as many are. No other list is full, nor the log.
fn most_of(why: Fault) -> Option<u32>
    requires { may_refuse_send why ≡ true }
    ensures { result ≡ most_in why }
{
    match why {
        Fault::Again(busy) => match busy {
            Busy::TxFull(most) => Some(most),
            Busy::PostedFull(_) | Busy::CqFull(_) | Busy::LogFull(_) => unreachable!(),
        },
        _ => None,
    }
}

/// Sends a message, and tells how many operations may be under way, where it is refused for now. It is so for one reason
/// alone: as many are.
pub fn most_under_way<E: Calls + Drop>(
    endpoint: &mut EndpointOver<E>,
    dest: u32,
    buf: Buf,
    ctx: u64,
) -> Option<u32>
    ensures most { IfSome result (λ most. most ≡ (E.seen endpoint.new).held.state.most_tx) }
    ensures full { IfSome result (λ most. most ≤ in_use (E.seen endpoint.new).held.state.tx) }
{
    match endpoint.send(dest, buf, None, ctx, COMPLETES) {
        Ok(()) => None,
        Err(refused) => most_of(refused.why),
    }
}

/// Sends a message where no operation is under way, as after a flush: it is not refused for now.
pub fn send_when_quiet<E: Calls + Drop>(
    endpoint: &mut EndpointOver<E>,
    dest: u32,
    buf: Buf,
    ctx: u64,
) -> Result<(), Refused>
    requires { IsQuiet (E.seen endpoint.old) }
    ensures { 0 < (E.seen endpoint.old).held.state.most_tx → IfErr result (λ r. is_again r.why ≡ false) }
{
    endpoint.send(dest, buf, None, ctx, COMPLETES)
}

/// Whether a message is accepted.
pub(crate) fn sends<E: Calls + Drop>(
    endpoint: &mut EndpointOver<E>,
    dest: u32,
    buf: Buf,
    ctx: u64,
) -> bool
    ensures { IsTrue result → SendsMessage E.fixed dest buf ctx (E.seen endpoint.old) (E.seen endpoint.new) }
{
    match endpoint.send(dest, buf, None, ctx, COMPLETES) {
        Ok(()) => true,
        Err(_) => false,
    }
}
