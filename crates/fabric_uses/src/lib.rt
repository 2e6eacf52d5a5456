//! Uses of `fabric`, as an application writes them. Each is proved from the public clauses alone. The first is the one to read.
//!
//! They are written over any endpoint (`E: Calls`), as a program's own functions are: over the endpoint of lanes in memory the
//! clauses of all its parts would be carried through each.
#![tactic(auto)]

ghost use Rattle.std.specs.Prelude.{◌≡◌, IfSome, IfNone};
ghost use Rattle.fabric_uses.specs.Uses.{SendsMessage};

use fabric::{Buf, COMPLETES, Calls, EndpointOver};

/// Sends a message. A refused one comes back, with the same bytes; an accepted one comes back in its completion.
pub fn send_or_keep<E: Calls + Drop>(
    endpoint: &mut EndpointOver<E>,
    dest: u32,
    buf: Buf,
    ctx: u64,
) -> Option<Buf>
    ensures kept { IfSome result (λ back. back ≡ buf) }
    ensures sent { IfNone result (SendsMessage E.fixed dest buf ctx (E.seen endpoint.old) (E.seen endpoint.new)) }
{
    match endpoint.send(dest, buf, None, ctx, COMPLETES) {
        Ok(()) => None,
        Err(refused) => Some(refused.buf),
    }
}

// ---- more uses
pub mod completing;
pub mod ending;
pub mod moving;
pub mod receiving;
pub mod regions;
pub mod sending;
pub mod waiting;
