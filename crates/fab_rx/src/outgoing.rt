//! Messages that were kept leave: into a receive, or nowhere.
ghost use Rattle.std.specs.Prelude.{◌≡◌, ◌+◌, ℕ, List, None, Some, IsSome, length, slice_index_or, slice_set};
ghost use Rattle.std.specs.Option.{option_map};
ghost use Rattle.fab_base.specs.declared.operations.Arrival.{Arrival};
ghost use Rattle.fab_base.specs.declared.operations.Receive.{Receive};
ghost use Rattle.fab_rx.specs.Arriving.{IsSingle};
ghost use Rattle.fab_rx.specs.Claims.{seen};
ghost use Rattle.fab_rx.specs.Results.{given_as};
ghost use Rattle.fab_rx.specs.Stored.{IsKeptAs, parcel_of, redirected, seat_of, thrown_on, turned};
ghost use Rattle.fab_rx.specs.Table.{at};

use crate::filling::{complete, placed, put_begun, redirected, take_begun, thrown};
use crate::results::{Posted, Seen};
use crate::stored::{Begun, Parcel, Seat};
use crate::table::Table;
use fab_base::Buf;

/// Gives the message under an id to a receive, with the rest of it as it comes where it is not whole.
pub fn give(
    parcels: &mut Table<Parcel>,
    coming: &mut Vec<Option<Begun>>,
    id: u32,
    buf: Buf,
    ctx: u64,
) -> Posted
    requires there { IsSome (at parcels.old id) }
    requires partly { (a : Arrival) → at parcels.old id ≡ Some (parcel_of a) → a.bytes ≡ None → IsKeptAs id (slice_index_or coming.old.items a.source None) }
    ensures cells { parcels.new.cells ≡ slice_set parcels.old.cells id None }
    ensures spare { parcels.new.spare ≡ parcels.old.spare + 1 }
    ensures coming { (a : Arrival) → at parcels.old id ≡ Some (parcel_of a) → coming.new.items ≡ turned (option_map (redirected buf ctx)) a.bytes a.source coming.old.items }
    ensures outcome { (a : Arrival) (r : Receive) → at parcels.old id ≡ Some (parcel_of a) → IsSingle r → seat_of r ≡ record { buf = buf; ctx = ctx } → result ≡ given_as a.bytes a r }
{
    let Some(parcel) = parcels.take(id) else {
        unreachable!()
    };
    let Parcel {
        source,
        head,
        bytes,
    } = parcel;
    match bytes {
        Some(bytes) => {
            let seat = Seat {
                buf: placed(buf, 0, bytes.as_slice()),
                ctx,
            };
            Posted::Whole(complete(seat, source, &head))
        }
        None => {
            let Some(begun) = take_begun(coming, source) else {
                unreachable!()
            };
            put_begun(coming, source, redirected(begun, buf, ctx));
            Posted::GoesOn
        }
    }
}

/// Throws the message under an id away, with the rest of it as it comes where it is not whole.
pub fn throw(parcels: &mut Table<Parcel>, coming: &mut Vec<Option<Begun>>, id: u32) -> Seen
    requires there { IsSome (at parcels.old id) }
    requires partly { (a : Arrival) → at parcels.old id ≡ Some (parcel_of a) → a.bytes ≡ None → IsKeptAs id (slice_index_or coming.old.items a.source None) }
    ensures cells { parcels.new.cells ≡ slice_set parcels.old.cells id None }
    ensures spare { parcels.new.spare ≡ parcels.old.spare + 1 }
    ensures coming { (a : Arrival) → at parcels.old id ≡ Some (parcel_of a) → coming.new.items ≡ turned (option_map thrown_on) a.bytes a.source coming.old.items }
    ensures outcome { (a : Arrival) → at parcels.old id ≡ Some (parcel_of a) → result ≡ seen a }
{
    let Some(parcel) = parcels.take(id) else {
        unreachable!()
    };
    let seen = parcel.seen();
    if seen.whole {
        return seen;
    }
    let Some(begun) = take_begun(coming, seen.source) else {
        unreachable!()
    };
    put_begun(coming, seen.source, thrown(begun));
    seen
}
