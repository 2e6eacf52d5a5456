//! What an endpoint keeps of its operations: receives, arrivals, transmit operations, and what it wrote.
use crate::buffers::Buf;
use crate::entries::Taken;
use crate::items::{Item, ItemHead, Want};
use crate::peers::Level;

/// A receive that is posted, or into which an item goes. `call` is the number of its call.
///
/// A multi-receive (FI_MULTI_RECV) has in `least` the free space below which it is given up, and in
/// `used` how many bytes from its start are given away.
#[derive(Drop)]
pub struct Receive {
    pub call: u64,
    pub want: Want,
    pub buf: Buf,
    pub ctx: u64,
    pub least: Option<u32>,
    pub used: u32,
}

/// A message that has arrived and went to no receive. `place` is its number among the items that
/// its source accepted for this peer, from 0. It has its bytes once it is whole.
#[derive(Drop)]
pub struct Arrival {
    pub source: u32,
    pub place: u64,
    pub head: ItemHead,
    pub bytes: Option<Buf>,
}

/// Where an item goes that has arrived and is not whole: into a receive from a place on, to the
/// unexpected messages, nowhere, to the memory regions, or to the operation that it answers.
#[derive(Drop)]
pub enum Coming {
    Into(Receive, u32),
    Keep,
    Throw,
    Request,
    Answer,
}

/// A transmit operation that has not ended. `place` is its item's number among those that go out to
/// `dest`, from 0. A silent one writes no completion when it succeeds.
#[derive(Drop)]
pub struct Operation {
    pub call: u64,
    pub dest: u32,
    pub place: u64,
    pub head: ItemHead,
    pub level: Level,
    pub ctx: Option<u64>,
    pub buf: Option<Buf>,
    pub silent: bool,
}

/// A transmit operation that a fence holds back (FI_FENCE of fi_msg(3)): its own fence, or that of
/// one accepted before it for the same peer. Its item has no place yet.
#[derive(Drop)]
pub struct Held {
    pub call: u64,
    pub item: Item,
    pub level: Level,
    pub ctx: Option<u64>,
    pub buf: Option<Buf>,
    pub silent: bool,
    pub fence: bool,
}

/// A completion with the number of the call that it belongs to, if any.
#[derive(Drop)]
pub struct Written {
    pub call: Option<u64>,
    pub entry: Taken,
}

/// The two numbers of a counter, successes and errors (fi_cntr(3)). Each stays at 2^64 - 1.
#[derive(Clone, Copy, Drop, Eq, PartialEq)]
pub struct Tally {
    pub ok: u64,
    pub err: u64,
}
