//! Both stores give the answers of each list of calls.
ghost use Rattle.std.specs.Prelude.{◌≡◌};
ghost use Rattle.fab_model.specs.Matching.{remove_first};
ghost use Rattle.fab_match.specs.Signs.{fits};

use crate::calls::{Step, gives_all, post};
use crate::lists::{LISTS, OF_THREE, RANDOM};
use fab_base::{Sign, Want};
use fab_match::{BinMatcher, ListMatcher, Matcher, take_posted};
use std::alloc::Global;
use std::process::Abort;
use std::test::Fail;

/// Whether a new store of this kind, with room for so many receives, answers each call of the list as told.
fn gives<M: Matcher + Drop>(alloc: Global, room: u32, list: &[Step]) -> bool {
    match M::new(alloc, room) {
        Ok(mut store) => gives_all(&mut store, list),
        Err(_) => false,
    }
}

/// Whether both stores do.
fn both_give(alloc: Global, room: u32, list: &[Step]) -> bool {
    gives::<ListMatcher>(alloc, room, list) && gives::<BinMatcher>(alloc, room, list)
}

/// Each list gives its answers over both stores.
fn all_give(rt: &impl Abort, alloc: Global, room: u32, lists: &[&[Step]]) {
    for (at, list) in lists.iter().enumerate() {
        assert!(rt; both_give(alloc, room, list), "list {at}");
    }
}

#[test]
fn each_list_of_calls_gives_its_answers(rt: HostRuntime) -> Result<(), Fail> {
    for lists in LISTS {
        all_give(&rt, rt.alloc(), 4, lists);
    }
    all_give(&rt, rt.alloc(), 3, &OF_THREE);
    Ok(())
}

#[test]
fn random_lists_give_their_answers(rt: HostRuntime) -> Result<(), Fail> {
    for lists in RANDOM {
        all_give(&rt, rt.alloc(), 4, lists);
    }
    Ok(())
}

/// What a caller knows of a store of a known kind: the first match is out, and nothing else is.
fn take_of_lists(store: &mut ListMatcher, sign: &Sign) -> Option<u32>
    ensures { store.new ≡ record store.old { posted = remove_first (λ p. fits p.1 sign.now) store.old.posted } }
{
    take_posted(store, sign)
}

const SIGN: Sign = Sign {
    tagged: true,
    tag: 5,
    source: 3,
};

const WANT: Want = Want {
    tagged: true,
    tag: 4,
    ignore: 1,
    source: None,
};

/// Whether two receives are posted.
fn posts_two<M: Matcher>(store: &mut M) -> bool {
    post(store, 8, WANT) && post(store, 9, WANT)
}

/// Whether the first of them is taken, and the second is then the first.
fn takes_first(store: &mut ListMatcher) -> bool {
    take_of_lists(store, &SIGN) == Some(8) && store.first_posted(&SIGN) == Some(9)
}

fn new_takes_first(alloc: Global) -> bool {
    match ListMatcher::new(alloc, 2) {
        Ok(mut store) => posts_two(&mut store) && takes_first(&mut store),
        Err(_) => false,
    }
}

#[test]
fn the_first_match_is_taken_and_the_rest_stays(rt: HostRuntime) -> Result<(), Fail> {
    assert!(rt; new_takes_first(rt.alloc()));
    Ok(())
}
