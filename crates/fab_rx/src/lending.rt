//! The buffers of multi-receives, lent while messages come (FI_MULTI_RECV of fi_msg(3)).
ghost use Rattle.std.specs.Prelude.{◌≡◌, ◌||◌, None, IfNone, IfSome, IsSomeAnd};
ghost use Rattle.fab_match.specs.Matcher.{has_id};
ghost use Rattle.fab_rx.specs.Arriving.{open_under};
ghost use Rattle.fab_rx.specs.Opened.{AreOpened};

use crate::inbox::Inbox;
use crate::multis::is_closing;
use fab_match::Matcher;

/// Whether a receive stands under an id, posted or closing.
fn stands<M: Matcher>(matcher: &M, closing: &[(u32, u64)], id: u32) -> bool
    ensures { result ≡ (has_id id (M.posted matcher.now) || has_id id closing.now) }
{
    matcher.has_posted(id) || is_closing(closing, id)
}

impl<M: Matcher> Inbox<M> {
    /// What holds of the receives that are posted or closing. It costs nothing.
    pub fn opened(&self)
        ensures { AreOpened self.now }
    {
        let _ = &self.past;
    }

    /// The bytes of the multi-receive under an id that is posted or closing. A message that is still arriving
    /// has not changed them. `None` exactly where none stands under the id.
    pub fn buffer_of(&self, id: u32) -> Option<&[u8]>
        ensures some { IfSome result (λ bytes. IsSomeAnd (open_under id self.now) (λ r. r.buf ≡ bytes.now)) }
        ensures none { IfNone result (open_under id self.now ≡ None) }
    {
        if !stands(&self.matcher, self.closing.as_slice(), id) {
            return None;
        }
        let Some(waiting) = self.seats.get(id) else {
            return None;
        };
        if waiting.multi.is_none() {
            return None;
        }
        Some(waiting.seat.buf.as_slice())
    }
}
