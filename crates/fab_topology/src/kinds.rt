//! The ways that messages of a collective go.
ghost use Rattle.std.specs.Prelude.{◌≡◌};
ghost use Rattle.fab_topology.specs.Rounds.{is_doubling};

/// Who tells whom.
#[derive(Clone, Copy, Drop)]
pub enum Topology {
    /// Each rank tells each other, straight.
    Mesh,
    /// Each rank tells one other in each round, twice as far off as in the round before, all that it has heard.
    Dissemination,
    /// The root tells each other rank, straight.
    Star { root: u32 },
    /// In each round each rank that has heard of the root tells one that has not (a binomial tree).
    Tree { root: u32 },
}

/// Whether twice as many have heard after each round. Otherwise each message goes straight to whom it is for.
pub fn is_doubling(topology: Topology) -> bool
    ensures { result ≡ is_doubling topology }
{
    match topology {
        Topology::Mesh | Topology::Star { .. } => false,
        Topology::Dissemination | Topology::Tree { .. } => true,
    }
}
