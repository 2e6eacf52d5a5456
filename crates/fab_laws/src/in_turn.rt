//! Receives of one want get the messages of it in turn, and their entries stand in that order.
//!
//! `law_in_turn` says so of any program of `fab_laws` (`specs/InTurn.antt`). `proofs/Words` has what is so of a peer at each moment,
//! `Calls`, `Own` and `Elsewhere` what a deed makes of it, and `Turning` that it is so wherever turns lead.
ghost use Rattle.fab_laws.specs.InTurn.{AllToldInTurn};

/// A peer that neither cancels a receive, nor looks at messages, nor takes or drops one: of the receives that want just this, of one source,
/// where no other receive matches what they do, the first gets the first message of that source that the want matches, the second the
/// second, and so on; and the entries that tell them are these, in this order, and no others.
pub fn law_in_turn()
    ensures told { AllToldInTurn }
{}
