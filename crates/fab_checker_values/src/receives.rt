//! One receive, and one message that it takes (fi_msg(3), fi_tagged(3)).
ghost use Rattle.std.specs.Prelude.{◌≡◌, ℕ, IfOk};
ghost use Rattle.fab_base.specs.declared.operations.Receive.{Receive};
ghost use Rattle.fab_model.specs.Arrivals.{stays, used_up};
ghost use Rattle.fab_model.specs.Receiving.{draws, peeked};

use crate::lists::narrowed;
use crate::matching::takes_any;
use fab_base::{Arrival, Entry, NoMemory, PeekHow, Receive};

/// How many bytes of the receive are given away once it took a message of this length.
pub fn used_up(total: u32, receive: &Receive) -> Result<u32, NoMemory>
    ensures { IfOk result (λ used. used_up total receive.now ≡ record receive.now { used = used }) }
{
    let used = receive.used as usize;
    let free = receive.buf.as_slice().len().saturating_sub(used);
    narrowed(used + free.min(total as usize))
}

/// Whether the receive stays posted when so many of its bytes are given away: a multi-receive does while
/// it has its least free space left.
pub fn stays(used: u32, receive: &Receive) -> bool
    ensures { (total : ℕ) → used_up total receive.now ≡ record receive.now { used = used } → result ≡ stays total receive.now }
{
    match receive.least {
        None => false,
        Some(least) => {
            receive.buf.as_slice().len().saturating_sub(used as usize) >= least as usize
        }
    }
}

pub fn copied(receive: &Receive) -> Result<Receive, NoMemory>
    ensures { IfOk result (λ copy. copy ≡ receive.now) }
{
    let buf = receive.buf.clone()?;
    Ok(Receive {
        call: receive.call,
        want: receive.want,
        buf,
        ctx: receive.ctx,
        least: receive.least,
        used: receive.used,
    })
}

/// Whether the multi-receive takes one of these arrivals.
pub fn draws(unexpected: &[Arrival], receive: &Receive) -> bool
    ensures { result ≡ draws unexpected.now receive.now }
{
    receive.least.is_some() && takes_any(unexpected, &receive.want)
}

/// What a look tells of the message that it found.
pub fn peeked(how: PeekHow, ctx: u64, arrival: &Arrival) -> Entry
    ensures { result ≡ peeked how ctx arrival.now }
{
    Entry::Peeked {
        ctx,
        how,
        source: arrival.source,
        tag: arrival.head.tag,
        imm: arrival.head.imm,
        len: arrival.head.total,
    }
}
