//! Why a call of MPI fails, by MPI's names.
ghost use Rattle.std.specs.Prelude.{◌≡◌, None, Some};
ghost use Rattle.mini_mpi.specs.Errors.{error_of, fault_error, kind_error};
ghost use Rattle.mini_mpi.specs.declared.errors.Error.TheVariants.{NoMem};

use fabric::{Buf, ErrKind, Fault, NoMemory};
use mini_mpi_parts::Wrong;
use std::alloc::{AllocError, AllocFailed};

/// Why a call failed.
#[derive(Clone, Copy, Debug, Drop, Eq, PartialEq)]
pub enum Error {
    /// The message is longer than the buffer that received it (MPI_ERR_TRUNCATE).
    Truncate,
    /// There is no such rank (MPI_ERR_RANK).
    Rank,
    /// The tag is above `TAG_UB` (MPI_ERR_TAG).
    Tag,
    /// There is no such root (MPI_ERR_ROOT).
    Root,
    /// The operation does not reduce, or not elements of so many bytes (MPI_ERR_OP).
    Op,
    /// A message of more bytes than the provider carries, or shares of different lengths (MPI_ERR_COUNT).
    Count,
    /// Want of memory (MPI_ERR_NO_MEM).
    NoMem,
    /// The endpoint refused for a reason that MPI has no name for (MPI_ERR_OTHER).
    Other,
}

/// A call that failed, with the buffer that it took, where it took one and has it still.
#[derive(Drop)]
pub struct Failed {
    pub why: Error,
    pub buf: Option<Buf>,
}

impl Failed {
    /// A call that failed, with its buffer.
    pub(crate) fn with(why: Error, buf: Buf) -> Failed
        ensures { result ≡ record { why = why; buf = Some buf } }
    {
        Failed {
            why,
            buf: Some(buf),
        }
    }
}

/// Why the endpoint refuses a call, by MPI's name.
pub(crate) fn fault_error(fault: Fault) -> Error
    ensures { result ≡ fault_error fault }
{
    match fault {
        Fault::NoMemory => Error::NoMem,
        Fault::MsgSize => Error::Count,
        Fault::NoEntry => Error::Rank,
        Fault::Again(_)
        | Fault::NoData
        | Fault::Invalid
        | Fault::NoKey
        | Fault::Range
        | Fault::NotSupported
        | Fault::Avail => Error::Other,
    }
}

impl From<Fault> for Error {
    ghost from_gives = { λ fault error. error ≡ fault_error fault };

    fn from(fault: Fault) -> Error {
        fault_error(fault)
    }
}

/// Why an operation failed, by MPI's name.
pub(crate) fn kind_error(kind: ErrKind) -> Error
    ensures { result ≡ kind_error kind }
{
    match kind {
        ErrKind::Truncated => Error::Truncate,
        ErrKind::NoMsg | ErrKind::Canceled | ErrKind::NoKey | ErrKind::Access | ErrKind::Range =>
            Error::Other,
    }
}

impl From<NoMemory> for Error {
    ghost from_gives = { λ _ error. error ≡ NoMem };

    fn from(_lacks: NoMemory) -> Error {
        Error::NoMem
    }
}

impl From<AllocError> for Error {
    ghost from_gives = { λ _ error. error ≡ NoMem };

    fn from(_lacks: AllocError) -> Error {
        Error::NoMem
    }
}

impl<T: Drop> From<AllocFailed<T>> for Error {
    fn from(_lacks: AllocFailed<T>) -> Error {
        Error::NoMem
    }
}

impl From<Failed> for Error {
    /// The buffer is dropped.
    fn from(failed: Failed) -> Error {
        failed.why
    }
}

impl From<Error> for Failed {
    ghost from_gives = { λ why failed. failed ≡ record { why = why; buf = None } };

    fn from(why: Error) -> Failed {
        Failed { why, buf: None }
    }
}

/// What is wrong, by MPI's name.
pub(crate) fn error_of(wrong: Wrong) -> Error
    ensures { result ≡ error_of wrong }
{
    match wrong {
        Wrong::Rank => Error::Rank,
        Wrong::Tag => Error::Tag,
    }
}
