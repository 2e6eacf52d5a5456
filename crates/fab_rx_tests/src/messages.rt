//! Messages that come before and after their receives, and receives that are cancelled.
ghost use Rattle.std.specs.Prelude.{◌≡◌};
ghost use Rattle.fab_rx_tests.specs.Begun.{none_begun};

use crate::calls::{ANY, begins, comes, ends, inbox_of_two, is_kept, joins, receives};
use fab_match::Matcher;
use fab_rx::{Cancelled, Inbox};
use std::alloc::Global;
use std::test::Fail;

/// Whether the buffer that comes back has these bytes.
fn is_left(cancelled: Option<Cancelled>, bytes: &[u8]) -> bool {
    match cancelled {
        Some(cancelled) => cancelled.buf.as_slice() == bytes,
        None => false,
    }
}

fn cancels<M: Matcher>(inbox: &mut Inbox<M>, bytes: &[u8]) -> bool {
    is_left(inbox.cancel(7), bytes)
}

fn cancels_no_other<M: Matcher>(inbox: &mut Inbox<M>) -> bool {
    inbox.cancel(6).is_none()
}

fn cancels_no_first<M: Matcher>(inbox: &mut Inbox<M>) -> bool {
    inbox.cancel_first().is_none()
}

/// Whether the first receive that is posted is cancelled, by its own context alone.
fn is_cancelled<M: Matcher>(alloc: Global, inbox: &mut Inbox<M>) -> bool {
    joins(alloc, inbox, &[9, 8])
        && cancels_no_other(inbox)
        && cancels(inbox, &[9, 8])
        && cancels_no_first(inbox)
}

fn is_cancelled_in_new(alloc: Global) -> bool {
    match inbox_of_two(alloc) {
        Some(mut inbox) => is_cancelled(alloc, &mut inbox),
        None => false,
    }
}

#[test]
fn the_first_posted_is_cancelled_with_its_buffer(rt: HostRuntime) -> Result<(), Fail> {
    assert!(rt; is_cancelled_in_new(rt.alloc()));
    Ok(())
}

/// Whether a message that comes first is kept, and its receive then gets it.
fn is_kept_for_receive<M: Matcher>(alloc: Global, inbox: &mut Inbox<M>) -> bool
    requires { inbox.old.begun ≡ none_begun }
{
    if !begins(inbox, 1) {
        return false;
    }
    comes(inbox, 1, &[1, 2, 3]);
    is_kept(ends(inbox, 1)) && inbox.found(&ANY) == Some(true) && receives(alloc, inbox)
}

fn is_kept_in_new(alloc: Global) -> bool {
    match inbox_of_two(alloc) {
        Some(mut inbox) => is_kept_for_receive(alloc, &mut inbox),
        None => false,
    }
}

#[test]
fn a_message_that_came_first_is_kept_for_its_receive(rt: HostRuntime) -> Result<(), Fail> {
    assert!(rt; is_kept_in_new(rt.alloc()));
    Ok(())
}
