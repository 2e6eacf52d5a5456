//! The calls of the receive half, each by itself.
ghost use Rattle.std.specs.Prelude.{◌≡◌, ◌+◌, ◌<◌, ◌≤◌, true, None, Some, IfSome, IsSomeAnd, length};
ghost use Rattle.fab_rx.specs.Arriving.{begun_of};
ghost use Rattle.fab_rx_tests.specs.Begun.{begun_at, ended_at, longer_at, none_begun};

use fab_base::{Ack, Buf, Entry, ItemHead, Kind, Outcome, Taken, Want};
use fab_match::{ListMatcher, Matcher};
use fab_record::caller::Caller;
use fab_rx::{Finished, Inbox, Posted};
use std::alloc::Global;
use std::snapshot::Snapshot;

/// The first call whose number is above that of each receive posted before.
struct NextCall;

impl<M: Matcher> Caller<Snapshot<Inbox<M>>> for NextCall {
    ghost call = { λ told. Some told.value.next };
}

pub(crate) const ANY: Want = Want {
    tagged: false,
    tag: 0,
    ignore: 0,
    source: None,
};

/// An untagged message of three bytes.
pub(crate) const THREE: ItemHead = ItemHead {
    kind: Kind::Msg,
    op: 5,
    tag: 0,
    imm: None,
    ack: Ack::Nothing,
    key: 0,
    at: 0,
    count: 0,
    atom: None,
    outcome: Outcome::Done,
    total: 3,
};

/// The receive half of an endpoint of two peers, where two receives may be posted.
pub(crate) fn inbox_of_two(alloc: Global) -> Option<Inbox<ListMatcher>>
    ensures { IfSome result (λ inbox. inbox.begun ≡ none_begun) }
{
    match Inbox::new(alloc, 2, 2) {
        Ok(inbox) => Some(inbox),
        Err(_) => None,
    }
}

/// Whether the first frame of the message comes.
pub(crate) fn begins<M: Matcher>(inbox: &mut Inbox<M>, source: u32) -> bool
    requires source { source < length inbox.old.begun }
    requires nothing { begun_of inbox.old source ≡ None }
    ensures { result ≡ true → inbox.new.begun ≡ begun_at source inbox.old.begun }
{
    inbox.arrive(source, &THREE).is_ok()
}

/// More bytes of it come.
pub(crate) fn comes<M: Matcher>(inbox: &mut Inbox<M>, source: u32, bytes: &[u8])
    requires source { source < length inbox.old.begun }
    requires fits { IsSomeAnd (begun_of inbox.old source) (λ item. length item.bytes + length bytes.now ≤ item.head.total) }
    ensures { inbox.new.begun ≡ longer_at source bytes.now inbox.old.begun }
{
    inbox.fill(source, bytes);
}

/// It is whole.
pub(crate) fn ends<M: Matcher>(inbox: &mut Inbox<M>, source: u32) -> Finished
    requires source { source < length inbox.old.begun }
    requires whole { IsSomeAnd (begun_of inbox.old source) (λ item. length item.bytes ≡ item.head.total) }
    ensures { inbox.new.begun ≡ ended_at source inbox.old.begun }
{
    inbox.finish(source)
}

/// Whether the message is kept for a receive.
pub(crate) fn is_kept(finished: Finished) -> bool {
    matches!(finished, Finished::Kept(_))
}

/// Whether a receive into a buffer of these bytes is posted, under the context 7.
pub(crate) fn joins<M: Matcher>(alloc: Global, inbox: &mut Inbox<M>, bytes: &[u8]) -> bool {
    match post(alloc, inbox, bytes) {
        Some(Posted::Joined) => true,
        _ => false,
    }
}

/// Whether a receive into four bytes that are 9 gets the message of three bytes that came before it.
pub(crate) fn receives<M: Matcher>(alloc: Global, inbox: &mut Inbox<M>) -> bool {
    match post(alloc, inbox, &[9, 9, 9, 9]) {
        Some(posted) => is_received(posted),
        None => false,
    }
}

/// A receive into a buffer of these bytes, where it may be posted.
fn post<M: Matcher>(alloc: Global, inbox: &mut Inbox<M>, bytes: &[u8]) -> Option<Posted> {
    if inbox.is_full() {
        return None;
    }
    let buf = Buf::copy(alloc, bytes).ok()?;
    let told = Snapshot::of(inbox);
    Some(inbox.post::<Snapshot<Inbox<M>>, NextCall>(&told, ANY, buf, 7))
}

/// The id of a multi-receive into a buffer of these bytes, under the context 3, where it may be posted.
pub(crate) fn posts_multi<M: Matcher>(
    alloc: Global,
    inbox: &mut Inbox<M>,
    bytes: &[u8],
    least: u32,
) -> Option<u32>
    requires { length bytes.now ≤ 8 }
    ensures { inbox.new.begun ≡ inbox.old.begun }
{
    if inbox.is_full() {
        return None;
    }
    let buf = Buf::copy(alloc, bytes).ok()?;
    let told = Snapshot::of(inbox);
    Some(inbox.post_multi::<Snapshot<Inbox<M>>, NextCall>(&told, ANY, buf, least, 3))
}

/// Whether the message that is claimed under the context 7 is received into four bytes that are 9.
pub(crate) fn takes<M: Matcher>(alloc: Global, inbox: &mut Inbox<M>) -> bool {
    if inbox.claimed(7).is_none() {
        return false;
    }
    let Ok(buf) = Buf::copy(alloc, &[9, 9, 9, 9]) else {
        return false;
    };
    let told = Snapshot::of(inbox);
    is_received(inbox.take::<Snapshot<Inbox<M>>, NextCall>(&told, buf, 7))
}

/// Whether a receive of four bytes got a message of three.
fn is_received(posted: Posted) -> bool {
    match posted {
        Posted::Whole(done) => done.good && is_success(&done.entry),
        _ => false,
    }
}

fn is_success(entry: &Taken) -> bool {
    match entry {
        Taken::Success(Entry::Received { buf, len, .. }) => {
            *len == 3 && buf.as_slice() == [1, 2, 3, 9].as_slice()
        }
        _ => false,
    }
}
