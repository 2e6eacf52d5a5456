//! Unexpected messages are looked at, claimed, taken and dropped (FI_PEEK, FI_CLAIM and FI_DISCARD of
//! fi_tagged(3)). None of these calls takes memory.
ghost use Rattle.std.specs.Prelude.{◌≡◌, ◌≤◌, true, Some, find, is_some, unwrap_or};
ghost use Rattle.std.specs.Option.{option_map};
ghost use Rattle.fab_model.specs.Matching.{takes};
ghost use Rattle.fab_rx.specs.Arriving.{receive_by};
ghost use Rattle.fab_rx.specs.Claims.{any_tagged, claim_under, claiming_first, discarding, dropping, seen, taking};
ghost use Rattle.fab_rx.specs.Results.{posted_as};

use crate::claims::{claimed_id, give_up};
use crate::inbox::Inbox;
use crate::outgoing::{give, throw};
use crate::past::{Claims, Discards, Drops, Takes};
use crate::results::{Posted, Seen};
use fab_base::{Buf, Want};
use fab_match::Matcher;
use fab_record::caller::Caller;

impl<M: Matcher> Inbox<M> {
    /// The first unexpected message that matches. It stays. `None` exactly where none matches.
    pub fn peek(&self, want: &Want) -> Option<Seen>
        ensures { result ≡ option_map seen (find (takes want.now) self.now.rx.unexpected) }
    {
        let Some(id) = self.matcher.first_unexpected(want) else {
            return None;
        };
        let Some(parcel) = self.parcels.get(id) else {
            unreachable!()
        };
        Some(parcel.seen())
    }

    /// Sets the first unexpected message that matches aside under a context: no posted receive gets it
    /// from now on. `None`, and nothing changes, exactly where none matches.
    pub fn claim(&mut self, want: &Want, ctx: u64) -> Option<Seen>
        ensures new { self.new ≡ claiming_first want.now ctx self.old }
        ensures seen { result ≡ option_map seen (find (takes want.now) self.old.rx.unexpected) }
    {
        let Inbox {
            past,
            matcher,
            parcels,
            claims,
            ..
        } = self;
        let Some(id) = matcher.first_unexpected(want) else {
            return None;
        };
        let Some(parcel) = parcels.get(id) else {
            unreachable!()
        };
        matcher.remove_unexpected(id);
        claims.push_reserved((id, ctx));
        past.note::<(&Want, u64), Claims>(&(want, ctx));
        Some(parcel.seen())
    }

    /// Throws the first unexpected message that matches away, with the rest of it as it comes where it
    /// is not whole. `None`, and nothing changes, exactly where none matches.
    pub fn discard(&mut self, want: &Want) -> Option<Seen>
        ensures new { self.new ≡ discarding want.now self.old }
        ensures seen { result ≡ option_map seen (find (takes want.now) self.old.rx.unexpected) }
    {
        let Inbox {
            past,
            matcher,
            parcels,
            coming,
            ..
        } = self;
        let Some(id) = matcher.first_unexpected(want) else {
            return None;
        };
        matcher.remove_unexpected(id);
        past.note::<&Want, Discards>(&want);
        Some(throw(parcels, coming, id))
    }

    /// The message that stands claimed under a context. `None` exactly where none does.
    pub fn claimed(&self, ctx: u64) -> Option<Seen>
        ensures { result ≡ option_map seen (claim_under ctx self.now.rx) }
    {
        let Some(id) = claimed_id(self.claims.as_slice(), ctx) else {
            return None;
        };
        let Some(parcel) = self.parcels.get(id) else {
            unreachable!()
        };
        Some(parcel.seen())
    }

    /// A receive of the message that stands claimed under the context, with the rest of it where it is
    /// not whole. One must stand there. `C` says by which number the call goes, above that of each
    /// receive posted before.
    pub fn take<X, C: Caller<X>>(&mut self, about: &X, buf: Buf, ctx: u64) -> Posted
        requires claimed { is_some (claim_under ctx self.old.rx) ≡ true }
        requires later { self.old.next ≤ unwrap_or (C.call about.now) 0 }
        ensures new { self.new ≡ taking (receive_by (C.call about.now) any_tagged buf ctx) self.old }
        ensures outcome { result ≡ posted_as (receive_by (C.call about.now) any_tagged buf ctx) (claim_under ctx self.old.rx) }
    {
        let Inbox {
            past,
            parcels,
            coming,
            claims,
            ..
        } = self;
        past.note::<(&X, &Buf, u64), Takes<C>>(&(about, &buf, ctx));
        let Some(id) = give_up(claims, ctx) else {
            unreachable!()
        };
        give(parcels, coming, id, buf, ctx)
    }

    /// Throws the message that stands claimed under the context away, with the rest of it as it comes
    /// where it is not whole. `None`, and nothing changes, exactly where none stands there.
    pub fn drop_claimed(&mut self, ctx: u64) -> Option<Seen>
        ensures new { self.new ≡ dropping ctx self.old }
        ensures seen { result ≡ option_map seen (claim_under ctx self.old.rx) }
    {
        let Inbox {
            past,
            parcels,
            coming,
            claims,
            ..
        } = self;
        let Some(id) = give_up(claims, ctx) else {
            return None;
        };
        past.note::<u64, Drops>(&ctx);
        Some(throw(parcels, coming, id))
    }
}
