//! Unexpected messages that posted multi-receives match (FI_MULTI_RECV of fi_msg(3)): a draw is due for each.
//! No draw takes memory.
ghost use Rattle.std.specs.Prelude.{◌≡◌, true, false, find};
ghost use Rattle.fab_model.specs.Receiving.{draw_due};
ghost use Rattle.fab_match.specs.Matcher.{ids};
ghost use Rattle.fab_rx.specs.Draws.{draws_at};
ghost use Rattle.fab_rx.specs.Drawing.{drawing, drawn, entries_drawn};

use crate::filling::{gone_on, put_begun, take_begun};
use crate::inbox::Inbox;
use crate::multis::{close, closes, give_room, multi_at, part};
use crate::past::Draws;
use crate::results::Drawn;
use crate::stored::{Parcel, Waiting};
use crate::table::Table;
use fab_match::{IdTest, Matcher};

/// Whether the receive under an id is a multi-receive that matches an unexpected message.
fn draws<M: Matcher>(seats: &Table<Waiting>, matcher: &M, id: u32) -> bool
    ensures { result ≡ draws_at seats.now (M.unexpected matcher.now) id }
{
    let Some(multi) = multi_at(seats, id) else {
        return false;
    };
    matcher.first_unexpected(&multi.want).is_some()
}

/// A multi-receive passes that matches an unexpected message.
#[derive(Drop)]
struct CanDraw<'a, M> {
    seats: &'a Table<Waiting>,
    matcher: &'a M,
}

impl<'a, M: Matcher> IdTest for CanDraw<'a, M> {
    ghost passes = { λ test id. draws_at test.seats.now (M.unexpected test.matcher.now) id };

    fn passes(&self, id: u32) -> bool {
        draws(self.seats, self.matcher, id)
    }
}

/// The id of the first such multi-receive, in the order posted.
fn first_drawing<M: Matcher>(seats: &Table<Waiting>, matcher: &M) -> Option<u32>
    ensures { result ≡ find (draws_at seats.now (M.unexpected matcher.now)) (ids (M.posted matcher.now)) }
{
    matcher.first_where(&CanDraw { seats, matcher })
}

impl<M: Matcher> Inbox<M> {
    /// Whether a posted multi-receive matches an unexpected message. Takes no time where no multi-receive was
    /// ever posted, and where no message is unexpected.
    pub fn is_draw_due(&self) -> bool
        ensures { result ≡ draw_due self.now.rx }
    {
        if self.is_still() {
            return false;
        }
        first_drawing(&self.seats, &self.matcher).is_some()
    }

    /// Whether no draw is due because no multi-receive was posted, or because no message is unexpected or
    /// claimed.
    fn is_still(&self) -> bool
        ensures { result ≡ true → draw_due self.now.rx ≡ false }
    {
        !self.shares || self.parcels.is_empty()
    }

    /// How many completions [`draw`](Inbox::draw) hands out, that of a buffer which comes back counted: at most
    /// two, and none where no draw is due.
    pub fn draw_entries(&self) -> u32
        ensures { result ≡ entries_drawn (drawn self.now) }
    {
        if self.is_still() {
            return 0;
        }
        let Some(id) = first_drawing(&self.seats, &self.matcher) else {
            return 0;
        };
        let Some(multi) = multi_at(&self.seats, id) else {
            unreachable!()
        };
        let Some(message) = self.matcher.first_unexpected(&multi.want) else {
            unreachable!()
        };
        let Some(parcel) = self.parcels.get(message) else {
            unreachable!()
        };
        if parcel.bytes.is_none() {
            return 0;
        }
        if closes(&self.seats, self.coming.as_slice(), id, parcel.head.total) {
            return 2;
        }
        1
    }

    /// Makes the draw that is due: the first multi-receive that matches an unexpected message takes the first
    /// one that it matches, at the place behind what it gave away. A message that is whole completes now, with
    /// the buffer where it was the last one; of another one the rest comes into the multi-receive.
    pub fn draw(&mut self) -> Drawn
        requires due { draw_due self.old.rx ≡ true }
        ensures new { self.new ≡ drawing self.old }
        ensures outcome { result ≡ drawn self.old }
    {
        let Inbox {
            past,
            matcher,
            seats,
            parcels,
            coming,
            closing,
            ..
        } = self;
        let Some(id) = first_drawing(seats, matcher) else {
            unreachable!()
        };
        let Some(multi) = multi_at(seats, id) else {
            unreachable!()
        };
        let Some(message) = matcher.first_unexpected(&multi.want) else {
            unreachable!()
        };
        matcher.remove_unexpected(message);
        let Some(parcel) = parcels.take(message) else {
            unreachable!()
        };
        past.note::<(), Draws>(&());
        let Parcel {
            source,
            head,
            bytes,
        } = parcel;
        let Some(bytes) = bytes else {
            let Some(begun) = take_begun(coming, source) else {
                unreachable!()
            };
            put_begun(coming, source, gone_on(begun, id, multi.used));
            give_room(matcher, seats, closing, id, head.total);
            return Drawn::GoesOn;
        };
        let completed = part(seats, id, multi.used, source, &head);
        if closes(seats, coming.as_slice(), id, head.total) {
            matcher.remove_posted(id);
            let over = close(seats, id, head.total, multi.used, bytes.as_slice());
            return Drawn::Last(completed, over);
        }
        give_room(matcher, seats, closing, id, head.total);
        seats.place(id, multi.used, bytes.as_slice());
        Drawn::Part(completed)
    }
}
