//! The headline of a script, in one statement.
//!
//! `run` of `fab_top` ensures that what was written is the report of a lawful schedule, the one that
//! its trace lines tell. What that says of messages and completions stands in laws of `fab_model` and
//! `fab_laws`. Here they are joined: from a lawful schedule to all that the headline says. Read
//! `specs/Headline.antt`, which has one field for each thing that it says. `proofs/headline_rows` has a script
//! that meets the premises.
ghost use Rattle.std.specs.Prelude.{List};
ghost use Rattle.fab_base.specs.declared.peers.Step.{Step};
ghost use Rattle.fab_base.specs.declared.script.Bound.{Bound};
ghost use Rattle.fab_model.specs.Replay.{Lawful};
ghost use Rattle.fab_laws.specs.Headline.{Headline};

use crate::laws::{law_messages, law_scripts};
use crate::script_laws::{
    script_claims, script_history, script_l1, script_l2, script_l3, script_l4, script_messages,
    script_multi, script_receives, script_streams,
};
use fab_model::laws::law_l5;

/// The headline holds of every lawful schedule.
///
/// Some order of turns, in which each peer's steps are those of its schedule, leads to the end of
/// the replay; and whichever does, there it holds of each peer: what it has taken of each sender is a
/// prefix of what that sender posted to it; a message that a receive got was the first unclaimed
/// arrival that the matching rules allow; an entry that tells a message gives the bytes, source, tag
/// and length, or the truncation, of one that its receive got, and only that of a `take`, which is not
/// posted, of one that had been claimed under its context; what a receive got it completes with, or it is
/// still on its way; a buffer for many messages comes back with the bytes of each at its place, released once
/// its receive takes no more and all that came into it is whole; a claimed message goes only to the call
/// that takes or drops it, and no message is lost; each accepted operation has at most one final
/// completion, none before its level is reached, and exactly one once it has ended, as each has when the
/// peers have drained, unless suppressed.
pub fn law_headline()
    ensures headline { (bound : Bound) (schedule : List (List Step)) → Lawful bound schedule → Headline bound schedule }
{
    law_l5();
    script_streams();
    script_history();
    script_l3();
    script_l2();
    script_l1();
    script_messages();
    script_receives();
    script_multi();
    script_claims();
    script_l4();
    law_messages();
    law_scripts();
}
