//! What a peer is told and what it did.
use crate::buffers::Buf;
use crate::entries::Kept;
use crate::faults::Fault;

/// When a message operation completes (fi_cq(3)): at `Inject` and `Transmit` when it is transmitted,
/// at `Delivery` when it is whole at the target, at `Match` when a receive took it besides, or the target threw it away.
#[derive(Clone, Copy, Drop, Eq, PartialEq)]
pub enum Level {
    Inject,
    Transmit,
    Delivery,
    Match,
}

/// The flags of a transmit call: whether it asks for a completion (FI_COMPLETION), at which level, and whether it waits for
/// the operations accepted before it for the same peer (FI_FENCE).
#[derive(Clone, Copy, Drop, Eq, PartialEq)]
pub struct Flags {
    pub completion: bool,
    pub level: Level,
    pub fence: bool,
}

/// One step of a peer's schedule.
#[derive(Clone, Copy, Drop, Eq, PartialEq)]
pub enum Step {
    /// The peer's next line takes effect.
    Do,
    /// The next item of this peer arrives.
    Head(u32),
    /// The bytes of the item that arrived from this peer are whole.
    Tail(u32),
    /// The oldest item for this peer that is not transmitted is transmitted.
    Sent(u32),
    /// A multi-receive takes an unexpected message.
    Draw,
    /// The first unread completion is read.
    Read,
    /// The first posted receive is cancelled at the end.
    Final,
}

/// What a line did.
#[derive(Drop)]
pub enum LineResult {
    Done,
    Refused(Fault),
    Waited(Kept),
    Index(Option<u32>),
    Bytes(Buf),
    Count { ok: u64, err: u64 },
}

/// What is told when a peer begins and ends its turn of a round, in the thread that runs it. Rounds
/// are numbered from 1.
pub trait Gate: Sync {
    fn enter(&self, peer: u32, round: u32);

    fn leave(&self, peer: u32, round: u32);
}
