//! Reliable-datagram messaging between threads, as an application uses it: the one crate that it lists and imports.
//!
//! ```text
//! Hints      what is asked for              fi_getinfo
//!        |  open
//! Domain     what is granted, and an endpoint for each peer, in order        fi_fabric .. fi_enable
//!        |  moved to the thread that speaks for the peer
//! Endpoint   send, receive, read, write, poll        fi_msg, fi_tagged, fi_rma, fi_atomic, fi_cq, fi_cntr, fi_mr, fi_av
//!        |  Group::of
//! Group      barrier, broadcast, allgather, allreduce        fi_collective
//!        |  close_all, once the threads are joined
//! what all of them did, in one order, and each law of it       fi_close
//! ```
//!
//! No call waits for another thread, and nothing moves unless a call is made: `poll` moves frames and gives the next
//! completion. A buffer moves in with a call and comes back with its completion, its error or its refusal; only that of an operation
//! that succeeds without a completion, as was asked for, is dropped.
#![tactic(auto)]

mod hints;
mod opening;

pub use fab_app::clock::{Clock, ClockFailed, Moment, NoClock, SystemClock};
pub use fab_app::completions::{Polled, ctx_of};
pub use fab_app::endpoint::{Calls, Endpoint as EndpointOver};
pub use fab_app::messages::COMPLETES;
pub use fab_app::moving::Next;
pub use fab_app::trying::again;
pub use fab_app::trying_until::{NotAccepted, TryFault};
pub use fab_app::until::WaitFault;
pub use fab_asleep::{cntr_wait_asleep, wait_asleep, with_sleeper};
pub use fab_av::{Av, InsertReport};
pub use fab_base::{
    Access, Api, AtomicOp, Buf, Busy, Cap, Caps, Class, Entry, ErrEntry, ErrKind, Fault, Flags,
    Info, Level, Limits, List, NoMemory, Num, PeekHow, Refused, Size, Text,
};
pub use fab_bell::{Sleeper, Sleeps};
pub use fab_collectives::{
    COLLECTIVE, Collective, DOUBLING_FROM, Group, MOST_SHARE, is_reducing, law_folded, law_offered,
};
pub use fab_face::laws::law_turns;
pub use fab_face::probing::Probed;
pub use fab_library_laws::{Unclosed, close_all, law_library_heard};
pub use fab_topology::{law_begun, law_rounds};
pub use hints::Hints;
pub use opening::{Closed, Domain, Endpoint, close, open};
