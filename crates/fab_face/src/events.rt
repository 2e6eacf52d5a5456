//! What the calls of an endpoint tell besides their answers.

/// What an endpoint logs: that a call is Ok, that an item of a peer arrived or is whole, that the next
/// item for a peer is transmitted, that a multi-receive took an unexpected message.
#[derive(Clone, Copy, Drop)]
pub enum Event {
    Call,
    Head(u32),
    Tail(u32),
    Sent(u32),
    Draw,
}

/// Why progress ended: nothing was left to move, as many frames were moved as asked for, something waits
/// for room in the completion queue, the log has fewer than two free places.
#[derive(Clone, Copy, Debug, Drop, Eq, PartialEq)]
pub enum Stop {
    Idle,
    Budget,
    CqFull,
    LogFull,
}

/// What progress did: how many frames it took and posted, and why it ended.
#[derive(Clone, Copy, Debug, Drop, Eq, PartialEq)]
pub struct Moved {
    pub taken: u32,
    pub posted: u32,
    pub stop: Stop,
}
