//! A small MPI over the crate `fabric`. Each rank is a thread with an endpoint, and all ranks are one world: there are no
//! communicators.
//!
//! ```text
//! World           a rank                             MPI_Init, MPI_Comm_rank, MPI_Comm_size, MPI_Finalize
//!        |  isend, irecv; ssend, iprobe; barrier, bcast, allreduce
//! Request         what was begun                     MPI_Request
//!        |  wait, waitall
//! Completed       the buffer, and a status           MPI_Status
//! ```
//!
//! A buffer moves in with a call, and comes back with its request's end. Calls that wait take a handle of the runtime; the others return
//! at once, whatever other ranks do. A rank that waits spins, or sleeps where the world was opened so (`Waiting`). What a
//! program needs of `fabric` besides, to open the endpoints of its ranks and to make buffers, is handed on.
#![tactic(auto)]

mod asleep;
mod begun;
mod collectives;
mod ended;
mod errors;
mod moving;
mod posting;
mod world;

pub use asleep::Waiting;
pub use ended::{Completed, Request, Status};
pub use errors::{Error, Failed};
pub use fabric::{AtomicOp, Buf, Calls, EndpointOver, Hints, NoMemory, Num, Sleeps, open};
pub use mini_mpi_parts::{ANY_SOURCE, ANY_TAG, TAG_UB};
pub use world::World;
