//! One store, timed.
use crate::moments::{RUNS, tenths_since};
use fab_base::{NoMemory, Sign, Want};
use fab_match::Matcher;
use std::alloc::Global;
use std::io;
use std::time::{Clock, Instant};

/// What a store is filled with: receives that are posted, or messages that are unexpected.
#[derive(Clone, Copy, Drop)]
pub(crate) enum Kept {
    Posted,
    Unexpected,
}

fn want_of(tag: u64) -> Want {
    Want {
        tagged: true,
        tag,
        ignore: 0,
        source: Some(1),
    }
}

fn sign_of(tag: u64) -> Sign {
    Sign {
        tagged: true,
        tag,
        source: 1,
    }
}

/// Posts a receive, where there is room and its id is new.
fn post<M: Matcher>(matcher: &mut M, id: u32, tag: u64) {
    if !matcher.is_full() && !matcher.has_posted(id) {
        matcher.add_posted(id, want_of(tag));
    }
}

/// Adds a message, where its id is new.
fn add<M: Matcher>(matcher: &mut M, id: u32, tag: u64) {
    if !matcher.has_unexpected(id) {
        let _ = matcher.add_unexpected(id, sign_of(tag));
    }
}

/// Puts one in whose tag is its id.
fn put<M: Matcher>(matcher: &mut M, kept: Kept, id: u32) {
    match kept {
        Kept::Posted => post(matcher, id, u64::from(id)),
        Kept::Unexpected => add(matcher, id, u64::from(id)),
    }
}

/// A store with so many of these.
fn filled<M: Matcher + Drop>(alloc: Global, kept: Kept, count: u32) -> Result<M, NoMemory> {
    let mut matcher = M::new(alloc, 4096)?;
    for id in 0..count {
        put(&mut matcher, kept, id);
    }
    Ok(matcher)
}

/// Takes the receive with this tag out, and posts it again.
fn turn_posted<M: Matcher>(matcher: &mut M, tag: u64) {
    let Some(id) = matcher.first_posted(&sign_of(tag)) else {
        return;
    };
    matcher.remove_posted(id);
    if !matcher.is_full() {
        matcher.add_posted(id, want_of(tag));
    }
}

/// Takes the message with this tag out, and adds it again.
fn turn_unexpected<M: Matcher>(matcher: &mut M, tag: u64) {
    let Some(id) = matcher.first_unexpected(&want_of(tag)) else {
        return;
    };
    matcher.remove_unexpected(id);
    let _ = matcher.add_unexpected(id, sign_of(tag));
}

/// The next tag below a count: all of them come in turn, in no order.
fn next_tag(tag: u64, count: u32) -> u64 {
    (tag.wrapping_mul(5).wrapping_add(1)) % u64::from(count.max(1))
}

/// So many turns with receives.
fn turns_posted<M: Matcher>(matcher: &mut M, count: u32, turns: u64) {
    let mut tag = 0;
    for _turn in 0..turns {
        tag = next_tag(tag, count);
        turn_posted(matcher, tag);
    }
}

/// So many turns with messages.
fn turns_unexpected<M: Matcher>(matcher: &mut M, count: u32, turns: u64) {
    let mut tag = 0;
    for _turn in 0..turns {
        tag = next_tag(tag, count);
        turn_unexpected(matcher, tag);
    }
}

/// So many turns with these.
fn make_turns<M: Matcher>(matcher: &mut M, kept: Kept, count: u32, turns: u64) {
    match kept {
        Kept::Posted => turns_posted(matcher, count, turns),
        Kept::Unexpected => turns_unexpected(matcher, count, turns),
    }
}

/// The best time of a turn in a store with so many of these, in tenths of a nanosecond; 0 where memory is lacking.
pub(crate) fn timed<M: Matcher + Drop, R: Clock>(
    rt: &R,
    alloc: Global,
    kept: Kept,
    count: u32,
    turns: u64,
) -> io::Result<u64> {
    let Ok(mut matcher) = filled::<M>(alloc, kept, count) else {
        return Ok(0);
    };
    let mut best = u64::MAX;
    for _run in 0..RUNS {
        let start = Instant::now(rt)?;
        make_turns(&mut matcher, kept, count, turns);
        best = best.min(tenths_since(rt, &start, turns)?);
    }
    Ok(best)
}
