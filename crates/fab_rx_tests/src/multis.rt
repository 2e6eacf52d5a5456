//! Multi-receives: messages side by side in one buffer, which comes back with the last one.
ghost use Rattle.std.specs.Prelude.{◌≡◌, ◌<◌, ◌∷◌, [], true, None, length};
ghost use Rattle.fab_rx.specs.Arriving.{begun_of};
ghost use Rattle.fab_rx_tests.specs.Begun.{begun_at, longer_at, none_begun};

use crate::calls::{THREE, begins, comes, ends, inbox_of_two, posts_multi};
use fab_base::{Entry, ErrKind, Taken};
use fab_match::Matcher;
use fab_rx::{Cancelled, Completed, Finished, Inbox, Released};
use std::alloc::Global;
use std::test::Fail;

fn is_part(done: &Completed, at: u32, len: u32) -> bool {
    match &done.entry {
        Taken::Success(
            Entry::Part {
                ctx: 3,
                at: from,
                len: count,
                ..
            },
        ) => done.good && *from == at && *count == len,
        _ => false,
    }
}

/// Whether so many bytes came from the place on, and so many were cut off.
fn is_cut(done: &Completed, at: u32, len: u32, olen: u32) -> bool {
    match &done.entry {
        Taken::Failure(entry) => {
            !done.good
                && entry.kind == ErrKind::Truncated
                && entry.at == Some(at)
                && entry.len == len
                && entry.olen == olen
        }
        Taken::Success(_) => false,
    }
}

/// Whether the buffer comes back with these bytes, of which so many were given away.
fn is_over(released: &Released, used: u32, bytes: &[u8]) -> bool {
    released.ctx == 3 && released.used == used && released.buf.as_slice() == bytes
}

/// Whether the item was the last message, whole at this place, and these bytes come back.
fn is_last_part(finished: Finished, at: u32, len: u32, used: u32, bytes: &[u8]) -> bool {
    match finished {
        Finished::Last(done, released) => {
            is_part(&done, at, len) && is_over(&released, used, bytes)
        }
        _ => false,
    }
}

/// Whether the item was the last message, of which so many bytes were cut off, and these bytes come back.
fn is_last_cut(finished: Finished, at: u32, len: u32, olen: u32, bytes: &[u8]) -> bool {
    match finished {
        Finished::Last(done, released) => {
            is_cut(&done, at, len, olen) && is_over(&released, 4, bytes)
        }
        _ => false,
    }
}

/// Whether the item was a message of the multi-receive, and not its last one.
fn is_placed(finished: Finished, at: u32, len: u32) -> bool {
    match finished {
        Finished::Received(done) => is_part(&done, at, len),
        _ => false,
    }
}

/// Whether these bytes are lent under the id.
fn is_lent<M: Matcher>(inbox: &Inbox<M>, id: u32, bytes: &[u8]) -> bool {
    match inbox.buffer_of(id) {
        Some(lent) => lent == bytes,
        None => false,
    }
}

fn is_none_lent<M: Matcher>(inbox: &Inbox<M>, id: u32) -> bool {
    inbox.buffer_of(id).is_none()
}

fn may_cancel<M: Matcher>(inbox: &Inbox<M>, ctx: Option<u64>) -> bool {
    inbox.may_cancel(ctx)
}

/// Whether the item that is begun brings the buffer back.
fn closes<M: Matcher>(inbox: &Inbox<M>, source: u32) -> bool
    requires { source < length inbox.now.begun }
{
    inbox.closes(source)
}

/// Whether the first frame of the message would bring the buffer back at its end.
fn first_closes<M: Matcher>(inbox: &Inbox<M>, source: u32) -> bool
    requires source { source < length inbox.now.begun }
    requires nothing { begun_of inbox.now source ≡ None }
{
    inbox.first_closes(source, &THREE)
}

fn is_left(cancelled: Option<Cancelled>, bytes: &[u8]) -> bool {
    match cancelled {
        Some(cancelled) => {
            cancelled.id.is_some() && cancelled.ctx == 3 && cancelled.buf.as_slice() == bytes
        }
        None => false,
    }
}

fn cancels<M: Matcher>(inbox: &mut Inbox<M>, bytes: &[u8]) -> bool {
    is_left(inbox.cancel(3), bytes)
}

/// Whether two messages come side by side, peer 1's first, and the buffer has neither yet.
fn comes_side_by_side<M: Matcher>(inbox: &mut Inbox<M>, id: u32) -> bool
    requires { inbox.old.begun ≡ none_begun }
    ensures { result ≡ true → inbox.new.begun ≡ longer_at 1 (1 ∷ 2 ∷ 3 ∷ []) (longer_at 0 (4 ∷ 5 ∷ []) (begun_at 0 (begun_at 1 none_begun))) }
{
    if !begins(inbox, 1) || may_cancel(inbox, Some(3)) {
        return false;
    }
    if first_closes(inbox, 0) || !begins(inbox, 0) {
        return false;
    }
    comes(inbox, 0, &[4, 5]);
    comes(inbox, 1, &[1, 2, 3]);
    is_lent(inbox, id, &[9, 9, 9, 9, 9, 9, 9, 9])
}

/// Whether both become whole, and the buffer comes back with the second one.
fn comes_back<M: Matcher>(inbox: &mut Inbox<M>, id: u32) -> bool
    requires { inbox.old.begun ≡ longer_at 1 (1 ∷ 2 ∷ 3 ∷ []) (longer_at 0 (4 ∷ 5 ∷ []) (begun_at 0 (begun_at 1 none_begun))) }
{
    comes(inbox, 0, &[6]);
    !closes(inbox, 0)
        && is_placed(ends(inbox, 0), 3, 3)
        && is_lent(inbox, id, &[9, 9, 9, 4, 5, 6, 9, 9])
        && closes(inbox, 1)
        && is_last_part(ends(inbox, 1), 0, 3, 6, &[1, 2, 3, 4, 5, 6, 9, 9])
        && !may_cancel(inbox, None)
        && is_none_lent(inbox, id)
}

fn comes_back_from_new(alloc: Global) -> bool {
    match inbox_of_two(alloc) {
        Some(mut inbox) => match posts_multi(alloc, &mut inbox, &[9, 9, 9, 9, 9, 9, 9, 9], 3) {
            Some(id) => comes_side_by_side(&mut inbox, id) && comes_back(&mut inbox, id),
            None => false,
        },
        None => false,
    }
}

#[test]
fn the_buffer_comes_back_once_its_last_message_is_whole(rt: HostRuntime) -> Result<(), Fail> {
    assert!(rt; comes_back_from_new(rt.alloc()));
    Ok(())
}

/// Whether a message of peer 1 is placed at the start of the buffer, which stays.
fn places<M: Matcher>(inbox: &mut Inbox<M>) -> bool
    requires { inbox.old.begun ≡ none_begun }
    ensures { result ≡ true → inbox.new.begun ≡ none_begun }
{
    if !begins(inbox, 1) {
        return false;
    }
    comes(inbox, 1, &[1, 2, 3]);
    is_placed(ends(inbox, 1), 0, 3)
}

/// Whether the next message is cut off at the one byte that is free.
fn cuts<M: Matcher>(inbox: &mut Inbox<M>) -> bool
    requires { inbox.old.begun ≡ none_begun }
{
    if !first_closes(inbox, 1) || !begins(inbox, 1) {
        return false;
    }
    comes(inbox, 1, &[4, 5, 6]);
    is_last_cut(ends(inbox, 1), 3, 1, 2, &[1, 2, 3, 4])
}

fn is_cut_in_new(alloc: Global) -> bool {
    match inbox_of_two(alloc) {
        Some(mut inbox) => {
            posts_multi(alloc, &mut inbox, &[9, 9, 9, 9], 1).is_some()
                && places(&mut inbox)
                && cuts(&mut inbox)
        }
        None => false,
    }
}

#[test]
fn a_message_is_cut_off_at_what_is_free(rt: HostRuntime) -> Result<(), Fail> {
    assert!(rt; is_cut_in_new(rt.alloc()));
    Ok(())
}

fn is_cancelled_in_new(alloc: Global) -> bool {
    match inbox_of_two(alloc) {
        Some(mut inbox) => {
            posts_multi(alloc, &mut inbox, &[9, 9, 9, 9], 1).is_some()
                && places(&mut inbox)
                && cancels(&mut inbox, &[1, 2, 3, 9])
        }
        None => false,
    }
}

#[test]
fn one_that_is_cancelled_has_what_came(rt: HostRuntime) -> Result<(), Fail> {
    assert!(rt; is_cancelled_in_new(rt.alloc()));
    Ok(())
}
