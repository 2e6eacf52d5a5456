//! Why a peer stopped.
use fabric::{ClockFailed, Fault, NoMemory, WaitFault};

/// Why a peer stopped before its last request had ended.
#[derive(Clone, Copy, Debug, Drop)]
pub(crate) enum Stopped {
    /// A call was refused, or what it told was not expected.
    Refused(Fault),
    /// The clock can't be read.
    ClockFailed,
    /// Nothing came in so long that it never will.
    Silent,
}

impl From<Fault> for Stopped {
    fn from(why: Fault) -> Stopped {
        Stopped::Refused(why)
    }
}

impl From<NoMemory> for Stopped {
    fn from(_error: NoMemory) -> Stopped {
        Stopped::Refused(Fault::NoMemory)
    }
}

impl From<ClockFailed> for Stopped {
    fn from(_error: ClockFailed) -> Stopped {
        Stopped::ClockFailed
    }
}

impl From<WaitFault> for Stopped {
    fn from(fault: WaitFault) -> Stopped {
        match fault {
            WaitFault::ClockFailed => Stopped::ClockFailed,
            WaitFault::NoMemory => Stopped::Refused(Fault::NoMemory),
        }
    }
}
