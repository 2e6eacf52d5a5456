//! What the clauses of a collective's calls say together.
ghost use Rattle.fab_collectives.specs.Folded.{EachIsFolded, EachIsTheRoots};
ghost use Rattle.fab_collectives.specs.Offered.{EachIsOffered};

/// No rank is done before the message of each round in which it hears was offered to it, from the rank that it hears in it.
///
/// `drive` gives something only once no message is awaited (`waits`), those that are awaited at first are of the rounds in which the rank
/// hears (`IsFresh`), and only an `offer` changes which are (`awaited`). Straight those are the ranks whose shares are needed, and of a
/// barrier each other rank.
pub fn law_offered()
    ensures offered { EachIsOffered }
{}

/// What an allgather, an allreduce or a broadcast comes to is the same at all ranks, where what each rank heard in a round is the message
/// that the contract of its source's `drive` names (`message_of`). What a rank makes of it is the `made` of `drive`.
///
/// - `folded`: of an allgather and an allreduce it is the fold of all shares in order of ranks, where all shares have one length;
/// - `relayed`: of a broadcast it is the root's share, also where it came over other ranks. A rank that passes it on makes its message of
///   what it has heard by then: all of the rounds that the message waits for, and maybe some of others.
pub fn law_folded()
    ensures folded { EachIsFolded }
    ensures relayed { EachIsTheRoots }
{}
