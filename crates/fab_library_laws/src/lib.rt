//! The law of the library: what threads do with the endpoints of a domain obeys the laws of matching, completion, fences,
//! replies, streams and messages.
//!
//! `law_doings` of `fab_doings` says so of any endpoints, where the moves of all ports merge, and the frames taken of each peer are
//! the first of those that it posted. Here these premises are what the contracts of the library say: `endpoints` of
//! `fab_domain` opens the endpoints, each call says what it did, and `gather` of `fab_ring` joins the ports once the threads
//! are done. Read `specs/Library.antt`. Each thread's function says how the record goes on that its caller keeps (`fab_doings`);
//! `close_all` has the law of just these records in its contract (`specs/Closing.antt`), and `program` is a whole program that ends by it.
#![tactic(auto)]

ghost use Rattle.fab_library_laws.specs.Hearing.{LibraryHears};
ghost use Rattle.fab_library_laws.specs.Library.{LibraryObeys};

mod closing;
mod example;

pub use closing::{Unclosed, close_all};
pub use example::program;
use fab_doings::{law_doings, law_said};

/// Endpoints that a program opens, uses in threads and closes, whose ports are gathered, obey the laws.
///
/// All doings of the threads together were done in some order of turns of the program's machine, from the endpoints as
/// `endpoints` opens them to the endpoints as the threads leave them. Each law of `fab_laws` holds at the end of these turns,
/// and what an endpoint accepted, and which receives it was asked for, is what its thread's own record says.
pub fn law_library()
    ensures obeyed { LibraryObeys }
{
    law_doings();
}

/// What a thread received of another is, in order, the first of what that one sent to it, by their own records.
///
/// It holds of just the records of which `close_all` says that they are a run, where both threads only send, receive and read entries. It is
/// about the one's receives under some contexts: these all want the same messages of the other, no other receive of the one matches any of
/// them, and each of these has room for each of them.
pub fn law_library_heard()
    ensures heard { LibraryHears }
{
    law_said();
}
