//! What progress comes to over many calls, as the contract of a function that does nothing.
ghost use Rattle.fab_face.specs.Fairness.{EachHasItsTurn};

use crate::calls::Sees;

/// In calls of progress that move twice as many frames as there are peers, each lane has a turn: a frame of it
/// moves, or at some time none could, or memory lacked for it.
///
/// The calls are of one endpoint, each from the lane that the one before left next. Progress and `cq_read` pass
/// turns on, and no other call does.
pub fn law_turns<E: Sees>()
    ensures { EachHasItsTurn E.Home E.fixed }
{}
