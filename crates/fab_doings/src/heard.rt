//! What threads of a program heard of one another, by their own records.
//!
//! `law_heard` says it of any program whose threads' records are a run of the machine (`IsRun` of `fab_doings`): read `specs/Heard.antt`.
//! `proofs/Fixed` has what calls and arrivals leave as it was, `Walking` what a record tells of receives and of what was sent, and `Hearing` the law, by
//! `law_in_turn` of `fab_laws`.
ghost use Rattle.fab_doings.specs.Heard.{HeardInTurn, HeardIsSaid};

/// Of two threads that send and receive, and read entries: the messages that the one received under its contexts, of the other, by one want, are in
/// the order of its receives the first that the other sent and the want matches, in the order sent.
///
/// The entries that it read are told, by all that the two called: the first receive has the first message in its own buffer, or tells how much of it was
/// cut off, the second the second, and so on; and they were read in this order.
pub fn law_heard()
    ensures heard { HeardInTurn }
{}

/// The same in bytes, where each message that the one sent has room in each receive of the other: those that the other received are, in order,
/// the first of those that the one sent.
pub fn law_said()
    ensures said { HeardIsSaid }
{}
