//! The receive half of an endpoint (fi_msg(3), fi_tagged(3)).
ghost use Rattle.std.specs.Prelude.{◌≡◌, ◌==◌, ◌+◌, ◌<◌, ◌≤◌, ◌^◌, true, false, None, Some, length, IfOk, IfSome, IsSomeAnd, OnOk, OnErr, Option, find, is_some, nat_le, replicate, unwrap_or};
ghost use Rattle.std.specs.Option.{option_map};
ghost use Rattle.fab_model.specs.Matching.{takes};
ghost use Rattle.fab_base.specs.Kinds.{is_message};
ghost use Rattle.fab_model.specs.State.{coming_from};
ghost use Rattle.fab_model.specs.Arrivals.{taker, way_of};
ghost use Rattle.fab_model.specs.Receiving.{cancellable, without_posted};
ghost use Rattle.fab_rx.specs.Arriving.{Arriving, IsArriving, arriving, begun_of, finishing, growing, multi_by, nothing_arrived, opening, posting, receive_by, with_receiving};
ghost use Rattle.fab_rx.specs.Leaving.{cancelling, is_meant};
ghost use Rattle.fab_base.specs.declared.operations.Receive.{Receive};
ghost use Rattle.fab_rx.specs.declared.results.Finished.TheVariants.{Received};
ghost use Rattle.fab_rx.specs.Results.{cancelled, ended, entries_due, handed, last_of, posted_as, released as released_as};

use crate::cancelling::first_meant;
use crate::filling::{complete, fill, put_begun, take_begun};
use crate::multis::{give_room, multi_at, part, release};
use crate::outgoing::give;
use crate::past::{Arrives, Cancels, Finishes, Grows, Opens, Past, Posts, Shares};
use crate::results::{Cancelled, Completed, Finished, Posted, Released};
use crate::stored::{Begun, Multi, Parcel, Seat, Waiting, Way};
use crate::table::Table;
use fab_base::{Buf, Item, ItemHead, Kind, NoMemory, Want};
use fab_match::{Matcher, sign_of};
use fab_record::caller::Caller;
use fab_record::record::Record;
use std::alloc::Global;
use std::marker::Model;

/// The receives that are posted, the multi-receives that are closing, the messages that none of them took,
/// those of them that are claimed, and of each source the item that has arrived and is not whole.
///
/// Contracts see the machine's own lists. Stored is only what is still needed: numbers of calls and of
/// places, and the bytes that a buffer had no room for, stand in the record alone.
///
/// Only [`new`](Inbox::new) and [`arrive`](Inbox::arrive) take memory.
#[derive(Drop)]
pub struct Inbox<M: Matcher> {
    pub(crate) past: Record<(u32, u32), Past, Opens>,
    pub(crate) matcher: M,
    pub(crate) seats: Table<Waiting>,
    pub(crate) parcels: Table<Parcel>,
    pub(crate) coming: Vec<Option<Begun>>,
    pub(crate) claims: Vec<(u32, u64)>,
    pub(crate) closing: Vec<(u32, u64)>,
    pub(crate) shares: bool,
    pub(crate) alloc: Global,
}

impl<M: Matcher> Model for Inbox<M> {
    ghost use Rattle.fab_rx.specs.Arriving.{Arriving};
    ghost use Rattle.std.specs.Prelude.{vec_capacity};
    ghost use Rattle.fab_rx.specs.Whole.{IsInbox};

    ghost Value = { Arriving };

    ghost view = { λ i. i.past };

    ghost invariant = { λ i. IsInbox (M.posted i.matcher) (M.unexpected i.matcher) (M.room i.matcher) i.seats i.parcels i.coming.items i.claims.items (vec_capacity i.claims) i.closing.items (vec_capacity i.closing) i.shares i.past };
}

impl<M: Matcher> Inbox<M> {
    /// The receive half of an endpoint with so many peers, where so many receives may be posted.
    pub fn new(alloc: Global, peers: u32, most: u32) -> Result<Inbox<M>, NoMemory>
        ensures { IfOk result (λ inbox. inbox ≡ nothing_arrived peers most) }
    {
        // One for each receive, and one for each peer, whose item may close a multi-receive.
        let seats = Table::with_room(alloc, most as usize + peers as usize)?;
        let coming = nothing_coming(alloc, peers)?;
        let closing = Vec::with_capacity(alloc, peers as usize)?;
        let past = Record::new(alloc, &(peers, most))?;
        let matcher = M::new(alloc, most)?;
        Ok(Inbox {
            past,
            matcher,
            seats,
            parcels: Table::new(alloc),
            coming,
            claims: Vec::new(alloc),
            closing,
            shares: false,
            alloc,
        })
    }

    /// What holds between calls. Costs nothing.
    pub fn known(&self)
        ensures { IsArriving self.now }
    {
        let _ = &self.past;
    }

    /// Whether as many receives are posted as may be.
    pub fn is_full(&self) -> bool
        ensures { result ≡ nat_le self.now.most (length self.now.rx.posted) }
    {
        self.matcher.is_full()
    }

    /// Whether a posted receive takes an item of this source with this head.
    pub fn takes(&self, source: u32, head: &ItemHead) -> bool
        ensures { result ≡ is_some (taker source head.now self.now.rx) }
    {
        if !head.kind.is_message() {
            return false;
        }
        self.matcher.first_posted(&sign_of(source, head)).is_some()
    }

    /// Whether the first unexpected message that matches is whole, `None` exactly where none matches.
    pub fn found(&self, want: &Want) -> Option<bool>
        ensures { result ≡ option_map (λ a. is_some a.bytes) (find (takes want.now) self.now.rx.unexpected) }
    {
        let Some(id) = self.matcher.first_unexpected(want) else {
            return None;
        };
        let Some(parcel) = self.parcels.get(id) else {
            unreachable!()
        };
        Some(parcel.bytes.is_some())
    }

    /// How many completions of messages [`finish`](Inbox::finish) hands out for the item that is begun. The
    /// buffer of a multi-receive comes besides.
    pub fn writes(&self, source: u32) -> u32
        requires { source < length self.now.begun }
        ensures { result ≡ entries_due (coming_from self.now.rx source) }
    {
        match &self.coming[source as usize] {
            None => 0,
            Some(begun) => begun.entries(),
        }
    }

    /// The first frame of an item: a message goes to the first posted receive that matches it, else to
    /// the unexpected messages. Memory for its bytes is taken, as for a request or an answer, but for a
    /// message that a receive for one message gets.
    /// Nothing of the source may be under way. `NoMemory` changes nothing.
    pub fn arrive(&mut self, source: u32, head: &ItemHead) -> Result<(), NoMemory>
        requires source { source < length self.old.begun }
        requires nothing { begun_of self.old source ≡ None }
        ensures ok { OnOk result (self.new ≡ arriving source head.now self.old) }
        ensures err { OnErr result (self.new ≡ self.old) }
    {
        if !head.kind.is_message() {
            return self.gather(source, head);
        }
        if self.match_posted(source, head)? {
            return Ok(());
        }
        self.keep(source, head)
    }

    /// A request or an answer arrives.
    fn gather(&mut self, source: u32, head: &ItemHead) -> Result<(), NoMemory>
        requires source { source < length self.old.begun }
        requires nothing { begun_of self.old source ≡ None }
        requires other { is_message head.now.kind ≡ false }
        ensures ok { OnOk result (self.new ≡ arriving source head.now self.old) }
        ensures err { OnErr result (self.new ≡ self.old) }
    {
        let Inbox {
            past,
            coming,
            alloc,
            ..
        } = self;
        let bytes = Vec::with_capacity(*alloc, head.total as usize)?;
        past.note::<(u32, &ItemHead), Arrives>(&(source, head));
        let begun = Begun {
            head: *head,
            got: 0,
            way: Way::Gather(bytes),
        };
        put_begun(coming, source, begun);
        Ok(())
    }

    /// A message arrives, where a posted receive takes it, else nothing happens. `NoMemory`, only where a
    /// multi-receive takes it, changes nothing.
    fn match_posted(&mut self, source: u32, head: &ItemHead) -> Result<bool, NoMemory>
        requires source { source < length self.old.begun }
        requires nothing { begun_of self.old source ≡ None }
        requires message { is_message head.now.kind ≡ true }
        ensures taken { IfOk result (λ yes. yes ≡ is_some (taker source head.now self.old.rx)) }
        ensures yes { IfOk result (λ yes. yes ≡ true → self.new ≡ arriving source head.now self.old) }
        ensures no { IfOk result (λ yes. yes ≡ false → self.new ≡ self.old) }
        ensures err { OnErr result (self.new ≡ self.old) }
    {
        let Inbox {
            past,
            matcher,
            seats,
            coming,
            closing,
            alloc,
            ..
        } = self;
        let Some(id) = matcher.first_posted(&sign_of(source, head)) else {
            return Ok(false);
        };
        if let Some(multi) = multi_at(seats, id) {
            let bytes = Vec::with_capacity(*alloc, head.total as usize)?;
            give_room(matcher, seats, closing, id, head.total);
            past.note::<(u32, &ItemHead), Arrives>(&(source, head));
            let at = multi.used;
            put_begun(
                coming,
                source,
                Begun::new(head, Way::Part { id, at, bytes }),
            );
            return Ok(true);
        }
        matcher.remove_posted(id);
        let Some(Waiting { seat, .. }) = seats.take(id) else {
            unreachable!()
        };
        past.note::<(u32, &ItemHead), Arrives>(&(source, head));
        put_begun(coming, source, Begun::new(head, Way::Into(seat)));
        Ok(true)
    }

    /// A message arrives that no posted receive takes.
    fn keep(&mut self, source: u32, head: &ItemHead) -> Result<(), NoMemory>
        requires source { source < length self.old.begun }
        requires nothing { begun_of self.old source ≡ None }
        requires message { is_message head.now.kind ≡ true }
        requires untaken { taker source head.now self.old.rx ≡ None }
        ensures ok { OnOk result (self.new ≡ arriving source head.now self.old) }
        ensures err { OnErr result (self.new ≡ self.old) }
    {
        let Inbox {
            past,
            matcher,
            parcels,
            coming,
            claims,
            alloc,
            ..
        } = self;
        let bytes = Vec::with_capacity(*alloc, head.total as usize)?;
        parcels.make_room()?;
        let more = parcels.len() + 1 - claims.len();
        claims.reserve(more)?;
        let id = parcels.put(Parcel {
            source,
            head: *head,
            bytes: None,
        });
        if let Err(no_memory) = matcher.add_unexpected(id, sign_of(source, head)) {
            parcels.take(id);
            return Err(no_memory);
        }
        past.note::<(u32, &ItemHead), Arrives>(&(source, head));
        let begun = Begun {
            head: *head,
            got: 0,
            way: Way::Keep { id, bytes },
        };
        put_begun(coming, source, begun);
        Ok(())
    }

    /// More bytes of the item that is begun, no more than its head says. Of a message that a receive
    /// took they go straight into its buffer, as far as they fit.
    pub fn fill(&mut self, source: u32, bytes: &[u8])
        requires source { source < length self.old.begun }
        requires fits { IsSomeAnd (begun_of self.old source) (λ item. length item.bytes + length bytes.now ≤ item.head.total) }
        ensures { self.new ≡ growing source bytes.now self.old }
    {
        let Inbox { past, coming, .. } = self;
        past.note::<(u32, &[u8]), Grows>(&(source, bytes));
        fill(coming, source, bytes);
    }

    /// The item that is begun is whole: its receive completes, or it is kept, thrown away or handed
    /// out, by where it went. The last message of a multi-receive that is closing brings its buffer back.
    pub fn finish(&mut self, source: u32) -> Finished
        requires source { source < length self.old.begun }
        requires whole { IsSomeAnd (begun_of self.old source) (λ item. length item.bytes ≡ item.head.total) }
        ensures new { self.new ≡ finishing source self.old }
        ensures outcome { IfSome (begun_of self.old source) (λ item. result ≡ handed self.old (last_of source self.old) (ended (coming_from self.old.rx source) source item)) }
    {
        let Inbox {
            past,
            seats,
            parcels,
            coming,
            closing,
            ..
        } = self;
        let Some(begun) = take_begun(coming, source) else {
            unreachable!()
        };
        past.note::<u32, Finishes>(&source);
        let Begun { head, way, .. } = begun;
        match way {
            Way::Into(seat) => Finished::Received(complete(seat, source, &head)),
            Way::Part { id, at, bytes } => {
                let completed = part(seats, id, at, source, &head);
                seats.place(id, at, bytes.as_slice());
                let released = release(seats, closing, coming.as_slice(), id);
                received(completed, released)
            }
            Way::Keep { id, bytes } => {
                let parcel = Parcel {
                    source,
                    head,
                    bytes: Some(Buf::from_vec(bytes)),
                };
                parcels.set(id, parcel);
                Finished::Kept(head)
            }
            Way::Throw => Finished::Thrown(head),
            Way::Gather(bytes) => {
                let item = Item {
                    head,
                    bytes: Buf::from_vec(bytes),
                };
                gathered(item)
            }
        }
    }

    /// A receive for one message. It gets the first unexpected message that matches, with the rest of it
    /// where it is not whole, else it is posted. Where none matches, fewer receives must be posted than
    /// may be. `C` says by which number its call goes, above that of each receive posted before.
    pub fn post<X, C: Caller<X>>(&mut self, about: &X, want: Want, buf: Buf, ctx: u64) -> Posted
        requires room { find (takes want) self.old.rx.unexpected ≡ None → length self.old.rx.posted < self.old.most }
        requires later { self.old.next ≤ unwrap_or (C.call about.now) 0 }
        ensures new { self.new ≡ posting (receive_by (C.call about.now) want buf ctx) self.old }
        ensures outcome { result ≡ posted_as (receive_by (C.call about.now) want buf ctx) (find (takes want) self.old.rx.unexpected) }
    {
        let Inbox {
            past,
            matcher,
            seats,
            parcels,
            coming,
            ..
        } = self;
        past.note::<(&X, &Want, &Buf, u64), Posts<C>>(&(about, &want, &buf, ctx));
        let Some(id) = matcher.first_unexpected(&want) else {
            let seat = Seat { buf, ctx };
            let id = seats.put(Waiting { seat, multi: None });
            matcher.add_posted(id, want);
            return Posted::Joined;
        };
        matcher.remove_unexpected(id);
        give(parcels, coming, id, buf, ctx)
    }

    /// A receive for many untagged messages, one behind the other in its buffer, until fewer than `least`
    /// bytes are free (FI_MULTI_RECV of fi_msg(3)). It is posted, whatever has arrived: what it matches it
    /// gets by draws. Fewer receives must be posted than may be. `C` says by which number its call goes,
    /// above that of each receive posted before. Answers the id under which it stands until its buffer comes
    /// back, no other's meanwhile.
    pub fn post_multi<X, C: Caller<X>>(
        &mut self,
        about: &X,
        want: Want,
        buf: Buf,
        least: u32,
        ctx: u64,
    ) -> u32
        requires room { length self.old.rx.posted < self.old.most }
        requires later { self.old.next ≤ unwrap_or (C.call about.now) 0 }
        requires small { length buf < 2 ^ 32 }
        ensures { self.new ≡ opening result (multi_by (C.call about.now) want buf least ctx) self.old }
    {
        let Inbox {
            past,
            matcher,
            seats,
            shares,
            ..
        } = self;
        let seat = Seat { buf, ctx };
        let multi = Some(Multi {
            want,
            least,
            used: 0,
        });
        let id = seats.put(Waiting { seat, multi });
        let Some(waiting) = seats.get(id) else {
            unreachable!()
        };
        past.note::<(&X, &Want, &Buf, u32, u64, u32), Shares<C>>(&(
            about,
            &want,
            &waiting.seat.buf,
            least,
            ctx,
            id,
        ));
        matcher.add_posted(id, want);
        *shares = true;
        id
    }

    /// Whether a receive is posted to which nothing is under way, of this context where one is named.
    pub fn may_cancel(&self, ctx: Option<u64>) -> bool
        ensures { result ≡ is_some (cancellable (is_meant ctx) self.now.rx) }
    {
        first_meant(&self.matcher, &self.seats, self.coming.as_slice(), ctx).is_some()
    }

    /// The first posted receive of this context to which nothing is under way leaves, with its buffer
    /// (fi_cancel of fi_endpoint(3)). `None`, and nothing changes, exactly where there is none.
    pub fn cancel(&mut self, ctx: u64) -> Option<Cancelled>
        ensures found { result ≡ option_map (cancelled self.old) (cancellable (λ r. r.ctx == ctx) self.old.rx) }
        ensures rest { self.new ≡ with_receiving (without_posted (λ r. r.ctx == ctx) self.old.rx) self.old }
    {
        self.leave(Some(ctx))
    }

    /// The first posted receive to which nothing is under way leaves, with its buffer. `None`, and nothing
    /// changes, exactly where there is none.
    pub fn cancel_first(&mut self) -> Option<Cancelled>
        ensures found { result ≡ option_map (cancelled self.old) (cancellable (λ r. true) self.old.rx) }
        ensures rest { self.new ≡ with_receiving (without_posted (λ r. true) self.old.rx) self.old }
    {
        self.leave(None)
    }

    /// The first posted receive to which nothing is under way leaves, of this context where one is named.
    fn leave(&mut self, ctx: Option<u64>) -> Option<Cancelled>
        ensures found { result ≡ option_map (cancelled self.old) (cancellable (is_meant ctx) self.old.rx) }
        ensures rest { self.new ≡ cancelling ctx self.old }
    {
        let Inbox {
            past,
            matcher,
            seats,
            coming,
            ..
        } = self;
        let Some(meant) = first_meant(matcher, seats, coming.as_slice(), ctx) else {
            return None;
        };
        matcher.remove_posted(meant);
        let Some(Waiting { seat, multi }) = seats.take(meant) else {
            unreachable!()
        };
        past.note::<Option<u64>, Cancels>(&ctx);
        Some(Cancelled {
            id: id_where(multi, meant),
            ctx: seat.ctx,
            buf: seat.buf,
        })
    }
}

/// Nothing is under way of any peer.
fn nothing_coming(alloc: Global, peers: u32) -> Result<Vec<Option<Begun>>, NoMemory>
    ensures { IfOk result (λ coming. coming.items ≡ replicate peers None) }
{
    let mut coming = Vec::with_capacity(alloc, peers as usize)?;
    for _peer in 0..peers {
        coming.push(None)?;
    }
    Ok(coming)
}

/// The id, where it is that of a multi-receive.
fn id_where(multi: Option<Multi>, id: u32) -> Option<u32>
    ensures { result ≡ option_map (λ m. id) multi }
{
    match multi {
        Some(_) => Some(id),
        None => None,
    }
}

/// A message of a multi-receive is whole, the last one where the buffer comes back.
fn received(completed: Completed, released: Option<Released>) -> Finished
    ensures { (v : Arriving) (r : Option Receive) → released ≡ option_map (released_as v) r → result ≡ handed v r (Received completed) }
{
    match released {
        None => Finished::Received(completed),
        Some(released) => Finished::Last(completed, released),
    }
}

/// A request or an answer is whole.
fn gathered(item: Item) -> Finished
    ensures { result ≡ ended (Some (way_of item.head.kind)) 0 item }
{
    if item.head.kind == Kind::Reply {
        return Finished::Answer(item);
    }
    Finished::Request(item)
}
