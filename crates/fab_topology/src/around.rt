//! Ranks in a ring: behind the last one comes the first.
ghost use Rattle.std.specs.Prelude.{◌≡◌};
ghost use Rattle.fab_topology.specs.Rounds.{ahead, behind};

/// The rank so many steps on.
pub fn ahead(peers: u32, rank: u32, steps: u32) -> u32
    ensures { result ≡ ahead peers rank steps }
{
    let rest = peers.saturating_sub(steps);
    if rank < rest {
        rank + steps
    } else {
        rank - rest
    }
}

/// The rank so many steps back; and how many steps on from the rank `steps` the rank `rank` is.
pub fn behind(peers: u32, rank: u32, steps: u32) -> u32
    ensures { result ≡ behind peers rank steps }
{
    if rank < steps {
        rank + peers.saturating_sub(steps)
    } else {
        rank - steps
    }
}
