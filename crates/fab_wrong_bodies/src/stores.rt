//! Calls of any matching store.
ghost use Rattle.std.specs.Prelude.{◌≡◌, find};
ghost use Rattle.fab_match.specs.Signs.{fits};
ghost use Rattle.fab_match.specs.Matcher.{first_id, ids, without};

use fab_base::{Sign, Want};
use fab_match::{IdTest, Matcher};

/// [`Matcher::first_posted`].
pub fn first_posted<M: Matcher>(store: &M, sign: &Sign) -> Option<u32>
    ensures first { result ≡ first_id (λ want. fits want sign.now) (M.posted store.now) }
{
    store.first_posted(sign)
}

/// [`Matcher::first_unexpected`].
pub fn first_unexpected<M: Matcher>(store: &M, want: &Want) -> Option<u32>
    ensures first { result ≡ first_id (λ sign. fits want.now sign) (M.unexpected store.now) }
{
    store.first_unexpected(want)
}

/// [`Matcher::first_where`].
pub fn first_where<M: Matcher, T: IdTest>(store: &M, test: &T) -> Option<u32>
    ensures first { result ≡ find (T.passes test.now) (ids (M.posted store.now)) }
{
    store.first_where(test)
}

/// [`Matcher::remove_posted`].
pub fn remove_posted<M: Matcher>(store: &mut M, id: u32) -> bool
    ensures rest { M.posted store.new ≡ without id (M.posted store.old) }
    ensures unexpected { M.unexpected store.new ≡ M.unexpected store.old }
{
    store.remove_posted(id)
}

/// [`Matcher::remove_unexpected`].
pub fn remove_unexpected<M: Matcher>(store: &mut M, id: u32) -> bool
    ensures rest { M.unexpected store.new ≡ without id (M.unexpected store.old) }
    ensures posted { M.posted store.new ≡ M.posted store.old }
{
    store.remove_unexpected(id)
}
