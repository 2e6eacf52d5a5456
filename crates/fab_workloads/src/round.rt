//! Rounds and their shares.
use fab_base::{Buf, List};
use fab_fold::Coll;

/// A round: the number of its line in the file, what is done, and the shares in order of ranks. A barrier has none, and a
/// broadcast the root's alone.
#[derive(Drop)]
pub struct Round {
    pub line: u32,
    pub coll: Coll,
    pub shares: List<Buf>,
}

/// The rounds of so many ranks, in order.
#[derive(Drop)]
pub struct CollScript {
    pub peers: u32,
    pub rounds: List<Round>,
}
