//! What the receive half hands out, for others to write, count and book.
use fab_base::{Buf, Item, ItemHead, Taken};

/// A receive that got its message. The entry belongs to the receive's call. It counts as a success
/// where `good`, else as an error (fi_cntr(3)). `head.ack` says whether `source` is owed a reply.
#[derive(Drop)]
pub struct Completed {
    pub entry: Taken,
    pub good: bool,
    pub source: u32,
    pub head: ItemHead,
}

/// What became of a receive call: it is posted, or it got an unexpected message whose rest still
/// comes, or one that is whole.
#[derive(Drop)]
pub enum Posted {
    Joined,
    GoesOn,
    Whole(Completed),
}

/// A message that a look or a drop met: who sent it, its head, and whether it is whole. One that is
/// whole and leaves is owed its reply now, where `head.ack` asks for one at its match.
#[derive(Clone, Copy, Drop)]
pub struct Seen {
    pub source: u32,
    pub head: ItemHead,
    pub whole: bool,
}

/// A multi-receive that is over, with its buffer, of which so many bytes were given away. The id is free from
/// now on.
#[derive(Drop)]
pub struct Released {
    pub id: u32,
    pub ctx: u64,
    pub used: u32,
    pub buf: Buf,
}

/// What became of an item that is whole: a receive got it (the last one of a multi-receive), it is kept
/// among the unexpected messages, it was thrown away, or it is a request or the answer to one.
#[derive(Drop)]
pub enum Finished {
    Received(Completed),
    Last(Completed, Released),
    Kept(ItemHead),
    Thrown(ItemHead),
    Request(Item),
    Answer(Item),
}

/// What a draw brought a multi-receive: a message whose rest still comes, one that is whole, or one that is
/// whole and the last. One that is whole is owed its reply now, where `head.ack` asks for one at its match.
#[derive(Drop)]
pub enum Drawn {
    GoesOn,
    Part(Completed),
    Last(Completed, Released),
}

/// A receive that was cancelled (fi_cancel of fi_endpoint(3)), with its buffer. That of many messages had an
/// id, which is free from now on.
#[derive(Drop)]
pub struct Cancelled {
    pub id: Option<u32>,
    pub ctx: u64,
    pub buf: Buf,
}
