//! Peers are threads: what each did alone is an order of all their steps.
//!
//! Read `specs/` in this order: `Pasts` (a peer since the opening, and the acts that led there), then `Law` (what is
//! known once the threads are joined, and what follows). `proofs/Threads` has the law, of peers of any kind: the order is
//! that in which the moves of all ports merge; `proofs/Reaching` has it of the peers of a script. `proofs/rows` has two
//! peers as each knows itself, with the order that follows.
#![tactic(auto)]

ghost use Rattle.fab_merging.specs.Law.{ThreadsJoin, ThreadsReach};

/// What peers in threads did is lawful.
///
/// Each peer knows of itself the acts that it did, with the frames that it posted and took among them, and its port
/// tells its moves. Where the moves of all ports merge, and the frames taken of each peer are the first of those that it
/// posted, all steps together were taken in some order of turns, from the opening to the peers as they are. And what
/// each peer holds then agrees with all frames that it took and posted.
pub fn law_threads()
    ensures reached { ThreadsReach }
    ensures joined { ThreadsJoin }
{}
