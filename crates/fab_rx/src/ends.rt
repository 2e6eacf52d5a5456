//! Whether the end of an item brings the buffer of a multi-receive back, told before it ends
//! (FI_MULTI_RECV of fi_msg(3)).
ghost use Rattle.std.specs.Prelude.{◌≡◌, ◌<◌, None, is_some, length, slice_index_or, slice_set};
ghost use Rattle.std.specs.List.{list_any};
ghost use Rattle.fab_rx.specs.Arriving.{arriving, begun_of};
ghost use Rattle.fab_rx.specs.Homes.{is_fed_by, part_in};
ghost use Rattle.fab_rx.specs.Results.{last_of};

use crate::cancelling::is_fed;
use crate::inbox::Inbox;
use crate::multis::{closes, is_closing, multi_at};
use crate::stored::Begun;
use fab_base::ItemHead;
use fab_match::{Matcher, sign_of};

/// The id of the multi-receive to which the item of a source goes.
fn part_from(coming: &[Option<Begun>], source: u32) -> Option<u32>
    requires { source < length coming.now }
    ensures { result ≡ part_in (slice_index_or coming.now source None) }
{
    match &coming[source as usize] {
        None => None,
        Some(begun) => begun.part_id(),
    }
}

/// Whether an item of another source is under way to the multi-receive under an id.
fn is_fed_besides(coming: &[Option<Begun>], source: u32, id: u32) -> bool
    requires { source < length coming.now }
    ensures { result ≡ list_any (is_fed_by id) (slice_set coming.now source None) }
{
    let place = source as usize;
    is_fed(&coming[..place], id) || is_fed(&coming[place + 1..], id)
}

impl<M: Matcher> Inbox<M> {
    /// Whether the end of the item that is begun brings the buffer of a multi-receive back.
    pub fn closes(&self, source: u32) -> bool
        requires { source < length self.now.begun }
        ensures { result ≡ is_some (last_of source self.now) }
    {
        let Some(id) = part_from(self.coming.as_slice(), source) else {
            return false;
        };
        !is_fed_besides(self.coming.as_slice(), source, id)
            && is_closing(self.closing.as_slice(), id)
    }

    /// The same of an item that comes now with its first frame. Nothing of the source may be under way.
    pub fn first_closes(&self, source: u32, head: &ItemHead) -> bool
        requires source { source < length self.now.begun }
        requires nothing { begun_of self.now source ≡ None }
        ensures { result ≡ is_some (last_of source (arriving source head.now self.now)) }
    {
        let Inbox {
            matcher,
            seats,
            coming,
            ..
        } = self;
        if !head.kind.is_message() {
            return false;
        }
        let Some(id) = matcher.first_posted(&sign_of(source, head)) else {
            return false;
        };
        if multi_at(seats, id).is_none() {
            return false;
        }
        closes(seats, coming.as_slice(), id, head.total)
    }
}
