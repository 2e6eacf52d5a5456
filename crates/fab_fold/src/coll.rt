//! What ranks do together.
ghost use Rattle.std.specs.Prelude.{◌≡◌};
ghost use Rattle.fab_fold.specs.Shares.{is_reducing};

use fab_base::{AtomicOp, Num};

/// How many bytes a rank's share has at most.
pub const MOST_SHARE: usize = 4_096;

/// What the ranks do together in a round (fi_collective(3)).
#[derive(Clone, Copy, Drop)]
pub enum Coll {
    /// No rank goes on before all have come (fi_barrier).
    Barrier,
    /// Each rank gets the root's share (fi_broadcast).
    Broadcast { root: u32 },
    /// Each rank gets all shares, in order of ranks (fi_allgather).
    Allgather,
    /// Each rank gets what all shares come to, element by element (fi_allreduce).
    Allreduce { op: AtomicOp, num: Num },
}

/// Whether an allreduce may have this operation: it takes an operand and gives a result of both (fi_atomic(3)).
pub fn is_reducing(op: AtomicOp) -> bool
    ensures { result ≡ is_reducing op }
{
    matches!(
        op,
        AtomicOp::Min
            | AtomicOp::Max
            | AtomicOp::Sum
            | AtomicOp::Prod
            | AtomicOp::Lor
            | AtomicOp::Land
            | AtomicOp::Lxor
            | AtomicOp::Bor
            | AtomicOp::Band
            | AtomicOp::Bxor
    )
}
