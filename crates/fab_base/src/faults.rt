//! Why a call is refused (fi_errno(3)).
ghost use Rattle.std.specs.Prelude.{◌≡◌};
ghost use Rattle.fab_base.specs.declared.faults.Fault.TheVariants.{NoMemory as LacksMemory};

use crate::buffers::Buf;
use std::alloc::{AllocError, AllocFailed};

/// Want of memory: the refusal of calls that have no other.
#[derive(Clone, Copy, Debug, Drop, Eq, PartialEq)]
pub struct NoMemory;

impl From<AllocError> for NoMemory {
    fn from(_error: AllocError) -> NoMemory {
        NoMemory
    }
}

impl<T: Drop> From<AllocFailed<T>> for NoMemory {
    fn from(_error: AllocFailed<T>) -> NoMemory {
        NoMemory
    }
}

/// The list that is full, with the stated size that was reached. The call may be made again later.
#[derive(Clone, Copy, Debug, Drop, Eq, PartialEq)]
pub enum Busy {
    /// As many transmit operations are under way as `tx` says.
    TxFull(u32),
    /// As many receives are posted as `rx` says.
    PostedFull(u32),
    /// The completion queue has no room for the entries of this call, or for those of messages that have to be put into a buffer
    /// for many before it.
    CqFull(u32),
    /// The log has fewer than two free places.
    LogFull(u32),
}

/// Why a call is refused. A refused call changes nothing, unless its own page says what moved before.
#[derive(Clone, Copy, Debug, Drop, Eq, PartialEq)]
pub enum Fault {
    /// A list is full: FI_EAGAIN.
    Again(Busy),
    /// Want of memory: FI_ENOMEM.
    NoMemory,
    /// What was asked for is not offered: FI_ENODATA.
    NoData,
    /// An argument is out of its range: FI_EINVAL.
    Invalid,
    /// The key is not there, or in use: FI_ENOKEY.
    NoKey,
    /// The place is beyond the region's end.
    Range,
    /// Too many bytes: FI_EMSGSIZE.
    MsgSize,
    /// A capability is not granted: FI_EOPNOTSUPP.
    NotSupported,
    /// There is no such entry, receive or address: FI_ENOENT.
    NoEntry,
    /// The next completion is an error: FI_EAVAIL.
    Avail,
}

impl From<NoMemory> for Fault {
    ghost from_gives = { λ _ fault. fault ≡ LacksMemory };

    fn from(_error: NoMemory) -> Fault {
        Fault::NoMemory
    }
}

impl<T: Drop> From<AllocFailed<T>> for Fault {
    ghost from_gives = { λ _ fault. fault ≡ LacksMemory };

    fn from(_error: AllocFailed<T>) -> Fault {
        Fault::NoMemory
    }
}

/// A refusal that hands the buffer back, equal to what came.
#[derive(Drop)]
pub struct Refused {
    pub why: Fault,
    pub buf: Buf,
}
