//! Completions that are taken out by their contexts.
use fab_base::{Entry, Kept, Taken};
use fab_kept::KeptList;
use std::alloc::Global;

/// What is done, in order: a completion of the context is pushed, under a number above 0, or one is taken out, which has
/// the second number, or 0 where there is none.
const ROWS: [(Option<u64>, u32, u32); 13] = [
    (Some(1), 10, 0),
    (Some(2), 11, 0),
    (Some(1), 12, 0),
    (None, 13, 0),
    (Some(1), 0, 10),
    (Some(1), 0, 12),
    (Some(1), 0, 0),
    (Some(1), 14, 0),
    (None, 15, 0),
    (None, 0, 13),
    (Some(3), 0, 0),
    (None, 0, 15),
    (Some(1), 0, 14),
];

/// A completion of this context, or without one, under a number.
fn completion(ctx: Option<u64>, number: u32) -> Kept {
    let entry = match ctx {
        Some(ctx) => Entry::Part {
            ctx,
            source: 0,
            imm: None,
            at: number,
            len: 0,
        },
        None => Entry::RemoteData {
            source: number,
            imm: 0,
        },
    };
    Kept {
        entry: Taken::Success(entry),
        bytes: None,
    }
}

fn number_of(kept: &Kept) -> u32 {
    match &kept.entry {
        Taken::Success(Entry::Part { at, .. }) => *at,
        Taken::Success(Entry::RemoteData { source, .. }) => *source,
        _ => 0,
    }
}

fn number_taken(list: &mut KeptList, ctx: Option<u64>) -> u32 {
    match list.take(ctx) {
        Some(kept) => number_of(&kept),
        None => 0,
    }
}

fn is_done(list: &mut KeptList, ctx: Option<u64>, pushed: u32, taken: u32) -> bool {
    if pushed > 0 {
        return list.push(completion(ctx, pushed)).is_ok();
    }
    number_taken(list, ctx) == taken
}

fn are_done(list: &mut KeptList) -> bool {
    for (ctx, pushed, taken) in ROWS {
        if !is_done(list, ctx, pushed, taken) {
            return false;
        }
    }
    true
}

/// Whether completion 11 is left, and no other place is used.
fn is_left(places: &[Option<Kept>]) -> bool {
    match places {
        [None, Some(kept)] => number_of(kept) == 11,
        _ => false,
    }
}

fn is_kept(mut list: KeptList) -> bool {
    are_done(&mut list) && is_left(list.places())
}

#[test]
fn each_context_has_its_first(rt: HostRuntime) {
    assert!(rt; is_kept(KeptList::new(rt.alloc())));
}

/// Whether the rows go so where contexts 0 and 1 are low.
fn are_low_kept(alloc: Global) -> bool {
    match KeptList::with_room(alloc, 2) {
        Ok(list) => is_kept(list),
        Err(_) => false,
    }
}

#[test]
fn each_low_context_has_its_first(rt: HostRuntime) {
    assert!(rt; are_low_kept(rt.alloc()));
}
