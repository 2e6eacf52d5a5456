//! Requests, and how they end.
ghost use Rattle.std.specs.Prelude.{◌≡◌, Ok};
ghost use Rattle.mini_mpi.specs.Requests.{completed_of, empty, ended_of, failed_of, tag_in, told};

use crate::errors::{Failed, kind_error};
use fabric::{Buf, Entry, ErrEntry, Polled, Probed};
use mini_mpi_parts::{ANY_SOURCE, ANY_TAG, tag_of};

/// An operation that was begun (MPI_Request), to be waited for in the world that began it.
#[derive(Drop)]
pub struct Request {
    pub(crate) id: u64,
}

/// What is told of a message (MPI_Status): the rank that it came from, its tag, and how many bytes it has. That of a send
/// is empty: `ANY_SOURCE`, `ANY_TAG` and 0.
#[derive(Clone, Copy, Debug, Drop, Eq, PartialEq)]
pub struct Status {
    pub source: Option<u32>,
    pub tag: Option<u32>,
    pub len: u32,
}

/// An operation that is complete: its buffer, of which a message takes the first `len` bytes, and its status.
#[derive(Drop)]
pub struct Completed {
    pub buf: Buf,
    pub status: Status,
}

/// How an operation ended that is not yet waited for.
pub(crate) type Ended = mini_mpi_parts::Ended<Result<Completed, Failed>>;

/// The status of a send.
const EMPTY: Status = Status {
    source: ANY_SOURCE,
    tag: ANY_TAG,
    len: 0,
};

/// The tag that a message brought, if it has one.
fn tag_in(bits: Option<u64>) -> Option<u32>
    ensures { result ≡ tag_in bits }
{
    match bits {
        Some(bits) => Some(tag_of(bits)),
        None => None,
    }
}

/// The operation of this number is complete.
fn completes(id: u64, buf: Buf, status: Status) -> Ended
    ensures { result ≡ record { id = id; end = Ok (record { buf = buf; status = status }) } }
{
    Ended {
        id,
        end: Ok(Completed { buf, status }),
    }
}

/// Which operation ended by this completion.
fn completed_by(entry: Entry) -> Option<Ended>
    ensures { result ≡ completed_of entry }
{
    match entry {
        Entry::Sent { ctx, buf, .. } => Some(completes(ctx, buf, EMPTY)),
        Entry::Received {
            ctx,
            source,
            tag,
            len,
            buf,
            ..
        } => {
            let status = Status {
                source: Some(source),
                tag: tag_in(tag),
                len,
            };
            Some(completes(ctx, buf, status))
        }
        _ => None,
    }
}

/// Which operation ended by this error.
fn failed_by(error: ErrEntry) -> Option<Ended>
    ensures { result ≡ failed_of error }
{
    let ErrEntry { ctx, kind, buf, .. } = error;
    match ctx {
        Some(id) => Some(Ended {
            id,
            end: Err(Failed {
                why: kind_error(kind),
                buf,
            }),
        }),
        None => None,
    }
}

/// Which operation ended by what was read, if one did.
pub(crate) fn ended_by(polled: Polled) -> Option<Ended>
    ensures { result ≡ ended_of polled }
{
    match polled {
        Polled::Entry(entry) => completed_by(entry),
        Polled::Error(error) => failed_by(error),
        Polled::Idle | Polled::More => None,
    }
}

/// What is told of a message that came and that no receive took.
pub(crate) fn told(met: Option<Probed>) -> Option<Status>
    ensures { result ≡ told met }
{
    match met {
        Some(met) => Some(Status {
            source: Some(met.source),
            tag: Some(tag_of(met.tag)),
            len: met.len,
        }),
        None => None,
    }
}
