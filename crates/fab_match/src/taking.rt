//! The first match, taken out of a store.
ghost use Rattle.std.specs.Prelude.{◌≡◌};
ghost use Rattle.fab_model.specs.Matching.{remove_first};
ghost use Rattle.fab_match.specs.Signs.{fits};
ghost use Rattle.fab_match.specs.Matcher.{first_id};

use crate::matcher::Matcher;
use fab_base::{Sign, Want};

/// Takes the first posted receive that may take a message with this sign, and answers its id. All
/// other receives stay, in their order.
pub fn take_posted<M: Matcher>(store: &mut M, sign: &Sign) -> Option<u32>
    ensures found { result ≡ first_id (λ want. fits want sign.now) (M.posted store.old) }
    ensures rest { M.posted store.new ≡ remove_first (λ p. fits p.1 sign.now) (M.posted store.old) }
    ensures unexpected { M.unexpected store.new ≡ M.unexpected store.old }
    ensures room { M.room store.new ≡ M.room store.old }
{
    let id = store.first_posted(sign)?;
    store.remove_posted(id);
    Some(id)
}

/// Takes the first unexpected message that a receive that wants this may take, and answers its id.
/// All other messages stay, in their order.
pub fn take_unexpected<M: Matcher>(store: &mut M, want: &Want) -> Option<u32>
    ensures found { result ≡ first_id (λ sign. fits want.now sign) (M.unexpected store.old) }
    ensures rest { M.unexpected store.new ≡ remove_first (λ p. fits want.now p.1) (M.unexpected store.old) }
    ensures posted { M.posted store.new ≡ M.posted store.old }
    ensures room { M.room store.new ≡ M.room store.old }
{
    let id = store.first_unexpected(want)?;
    store.remove_unexpected(id);
    Some(id)
}
