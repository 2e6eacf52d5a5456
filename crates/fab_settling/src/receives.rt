//! Receives: one is withdrawn and its cancellation told, and a buffer for many messages is told apart (fi_msg(3), fi_cancel
//! of fi_endpoint(3)).
ghost use Rattle.std.specs.Prelude.{◌≡◌, ◌+◌, ◌==◌, ◌<◌, ◌≤◌, ◌||◌, length, take, drop, nat_lt, Some, IfNone, IfSome};
ghost use Rattle.std.specs.Option.{option_map};
ghost use Rattle.fab_base.specs.declared.entries.ErrKind.TheVariants.{Canceled};
ghost use Rattle.fab_model.specs.Complete.{error};
ghost use Rattle.fab_model.specs.Receiving.{cancellable, without_posted};
ghost use Rattle.fab_rx.specs.Arriving.{with_receiving};
ghost use Rattle.fab_rx.specs.Leaving.{is_meant};
ghost use Rattle.fab_rx.specs.Results.{cancelled};

use fab_base::{Buf, ErrEntry, ErrKind, Taken};
use fab_match::Matcher;
use fab_rx::{Cancelled, Inbox};

/// The first posted receive of this context to which nothing is under way leaves, of any where none is named.
pub fn withdraw<M: Matcher>(rx: &mut Inbox<M>, ctx: Option<u64>) -> Option<Cancelled>
    ensures found { result ≡ option_map (cancelled rx.old) (cancellable (is_meant ctx) rx.old.rx) }
    ensures rest { rx.new ≡ with_receiving (without_posted (is_meant ctx) rx.old.rx) rx.old }
{
    match ctx {
        Some(ctx) => rx.cancel(ctx),
        None => rx.cancel_first(),
    }
}

/// The completion of a receive that was cancelled, with its buffer.
pub fn canceled(left: Cancelled) -> Taken
    ensures { result ≡ error (Some left.ctx) Canceled (Some left.buf) }
{
    let Cancelled { ctx, buf, .. } = left;
    Taken::Failure(ErrEntry {
        ctx: Some(ctx),
        kind: ErrKind::Canceled,
        source: None,
        tag: None,
        imm: None,
        at: None,
        len: 0,
        olen: 0,
        buf: Some(buf),
    })
}

/// Whether fewer bytes than these must be free, which are none or more than the buffer has.
pub fn least_is_wrong(least: u32, buf: &Buf) -> bool
    ensures { result ≡ ((least == 0) || nat_lt (length buf.now) least) }
{
    least == 0 || buf.as_slice().len() < least as usize
}

/// So many bytes from the place on, `None` exactly where there are fewer.
pub fn part_of(bytes: &[u8], at: u32, len: u32) -> Option<&[u8]>
    ensures some { IfSome result (λ part. (at + len ≤ length bytes.now) × (part.now ≡ take len (drop at bytes.now))) }
    ensures none { IfNone result (length bytes.now < at + len) }
{
    let start = at as usize;
    let end = start + len as usize;
    if end > bytes.len() {
        return None;
    }
    Some(&bytes[start..end])
}
