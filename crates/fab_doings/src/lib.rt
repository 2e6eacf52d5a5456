//! What the threads of any program did with their endpoints was done in some order of turns, and what they heard of one another.
//!
//! Read `specs/` in this order: `Doings` (what a thread keeps of its endpoint's calls: the acts, with the calls
//! themselves), then `Law` (an endpoint since the opening, what is known once the threads are joined, and what follows).
//! `proofs/Keeping` says what a thread adds to its record at each call, from the call's contract; `proofs/Reaching` has the
//! order, in which the moves of all ports merge (the law of threads of `fab_merging`, of a program's endpoints), and
//! `proofs/Obeying` the laws of `fab_laws` over it.
//!
//! No value is kept while a thread runs. A function that calls an endpoint says by one clause how the record goes on that its
//! caller keeps: by the calls that it made, with what they answered, and the entries that it read (`specs/Recording.antt`).
//! `exchange` and `ask_both` show it of an endpoint, and `talk` of an application's. What follows of all records together, once
//! the threads are joined, is in `fab_library_laws`.
//!
//! `law_heard` says what threads heard of one another, by their own records, in any program whose records are a run of the
//! machine (`specs/Heard.antt`). `proofs/Fixed` has what calls and arrivals leave as it was, `Walking` what a record tells of
//! receives and of what was sent, and `Hearing` the law, by `law_in_turn` of `fab_laws`.
#![tactic(auto)]

mod application;
mod heard;
mod thread;

ghost use Rattle.fab_doings.specs.Law.{ProgramObeys, ProgramReaches};

pub use application::talk;
pub use heard::{law_heard, law_said};
pub use thread::{ask_both, exchange};

/// What the threads of a program did is a run of the program's machine.
///
/// Each thread keeps the doings of all calls of its endpoint, and the states after them, and its port tells its moves.
/// Where the moves of all ports merge, and the frames taken of each peer are the first of those that it posted, all
/// doings together were done in some order of turns, from the opening to the endpoints as they are (`reached`). Where
/// the endpoints started as the peers of a program do, each of the laws of matching, completion, fences, replies, streams
/// and messages holds of them at the end of these turns, and what an endpoint accepted, and which receives it was asked
/// for, is what its thread's own record says (`obeyed`).
pub fn law_doings()
    ensures reached { ProgramReaches }
    ensures obeyed { ProgramObeys }
{}
