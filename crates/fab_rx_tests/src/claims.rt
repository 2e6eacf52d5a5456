//! Unexpected messages that are looked at, claimed, taken, dropped and discarded.
ghost use Rattle.std.specs.Prelude.{◌≡◌, true};
ghost use Rattle.fab_rx_tests.specs.Begun.{none_begun};

use crate::calls::{ANY, THREE, begins, comes, ends, inbox_of_two, is_kept, takes};
use fab_match::Matcher;
use fab_rx::{Finished, Inbox, Seen};
use std::alloc::Global;
use std::test::Fail;

/// Whether the message of peer 1 was met, of which all bytes came or not.
fn is_met(seen: Option<Seen>, whole: bool) -> bool {
    match seen {
        Some(seen) => seen.source == 1 && seen.head == THREE && seen.whole == whole,
        None => false,
    }
}

/// Whether a look meets the message, of which not all bytes came.
fn peeks<M: Matcher>(inbox: &Inbox<M>) -> bool {
    is_met(inbox.peek(&ANY), false)
}

fn peeks_none<M: Matcher>(inbox: &Inbox<M>) -> bool {
    inbox.peek(&ANY).is_none()
}

/// Whether a claim under the context 7 meets the message, of which not all bytes came.
fn claims<M: Matcher>(inbox: &mut Inbox<M>) -> bool
    ensures { inbox.new.begun ≡ inbox.old.begun }
{
    is_met(inbox.claim(&ANY, 7), false)
}

fn claims_none<M: Matcher>(inbox: &mut Inbox<M>) -> bool
    ensures { inbox.new.begun ≡ inbox.old.begun }
{
    inbox.claim(&ANY, 7).is_none()
}

/// Whether the message stands claimed under the context 7 alone, and is whole.
fn stands_whole<M: Matcher>(inbox: &Inbox<M>) -> bool {
    inbox.claimed(6).is_none() && is_met(inbox.claimed(7), true)
}

fn stands_none<M: Matcher>(inbox: &Inbox<M>) -> bool {
    inbox.claimed(7).is_none()
}

/// Whether a message is claimed once its first frame came, and not met any more.
fn is_claimed<M: Matcher>(inbox: &mut Inbox<M>) -> bool
    ensures { inbox.new.begun ≡ inbox.old.begun }
{
    peeks(inbox) && claims(inbox) && peeks_none(inbox)
}

/// Whether a message that is claimed is left for its own receive.
fn is_left<M: Matcher>(alloc: Global, inbox: &mut Inbox<M>) -> bool
    requires { inbox.old.begun ≡ none_begun }
{
    if !peeks_none(inbox) || !claims_none(inbox) || !begins(inbox, 1) || !is_claimed(inbox) {
        return false;
    }
    comes(inbox, 1, &[1, 2, 3]);
    is_kept(ends(inbox, 1)) && stands_whole(inbox) && takes(alloc, inbox) && stands_none(inbox)
}

fn is_left_in_new(alloc: Global) -> bool {
    match inbox_of_two(alloc) {
        Some(mut inbox) => is_left(alloc, &mut inbox),
        None => false,
    }
}

#[test]
fn a_message_that_is_claimed_is_left_for_its_own_receive(rt: HostRuntime) -> Result<(), Fail> {
    assert!(rt; is_left_in_new(rt.alloc()));
    Ok(())
}

fn is_thrown(finished: Finished) -> bool {
    matches!(finished, Finished::Thrown(_))
}

fn drops<M: Matcher>(inbox: &mut Inbox<M>) -> bool
    ensures { inbox.new.begun ≡ inbox.old.begun }
{
    is_met(inbox.drop_claimed(7), false)
}

fn drops_no_other<M: Matcher>(inbox: &mut Inbox<M>) -> bool
    ensures { inbox.new.begun ≡ inbox.old.begun }
{
    inbox.drop_claimed(6).is_none()
}

fn discards<M: Matcher>(inbox: &mut Inbox<M>) -> bool
    ensures { inbox.new.begun ≡ inbox.old.begun }
{
    is_met(inbox.discard(&ANY), false)
}

fn discards_none<M: Matcher>(inbox: &mut Inbox<M>) -> bool
    ensures { inbox.new.begun ≡ inbox.old.begun }
{
    inbox.discard(&ANY).is_none()
}

/// Whether what still comes of a message is thrown away that is dropped after its first frame.
fn drops_rest<M: Matcher>(inbox: &mut Inbox<M>) -> bool
    requires { inbox.old.begun ≡ none_begun }
    ensures { result ≡ true → inbox.new.begun ≡ none_begun }
{
    if !begins(inbox, 1) || !claims(inbox) || !drops_no_other(inbox) || !drops(inbox) {
        return false;
    }
    comes(inbox, 1, &[1, 2, 3]);
    is_thrown(ends(inbox, 1))
}

/// Whether the same goes for a message that is discarded after its first byte.
fn discards_rest<M: Matcher>(inbox: &mut Inbox<M>) -> bool
    requires { inbox.old.begun ≡ none_begun }
{
    if !begins(inbox, 1) {
        return false;
    }
    comes(inbox, 1, &[1]);
    if !discards(inbox) || !discards_none(inbox) {
        return false;
    }
    comes(inbox, 1, &[2, 3]);
    is_thrown(ends(inbox, 1))
}

fn rest_is_thrown_in_new(alloc: Global) -> bool {
    match inbox_of_two(alloc) {
        Some(mut inbox) => drops_rest(&mut inbox) && discards_rest(&mut inbox),
        None => false,
    }
}

#[test]
fn what_still_comes_of_a_dropped_message_is_thrown_away(rt: HostRuntime) -> Result<(), Fail> {
    assert!(rt; rest_is_thrown_in_new(rt.alloc()));
    Ok(())
}
