//! What lies in the table, and what a seat knows of it.
use fab_base::{Buf, Frame, FrameHead, INLINE_BYTES};
use fab_link::Move;
use std::collections::LinkedList;

/// What a cell of a lane holds: a frame's head, its number, and the pool slot that has its bytes. A
/// frame of at most [`INLINE_BYTES`] bytes needs no slot: the first bytes of `inline` are its own.
#[derive(Drop)]
pub struct Command {
    pub number: u64,
    pub slot: Option<u64>,
    pub head: FrameHead,
    pub inline: [u8; INLINE_BYTES],
}

/// What a place of the table holds: a lane's cell has a command, a pool slot a buffer of [`FRAME_BYTES`](fab_base::FRAME_BYTES) bytes.
#[derive(Drop)]
pub enum Slot {
    Cell(Command),
    Pool(Buf),
}

/// How many peers there are, how many cells a lane has, and how many slots the pool of a peer.
#[derive(Clone, Copy, Drop)]
pub struct Layout {
    pub peers: u64,
    pub room: u64,
    pub pool: u64,
}

/// A frame as it was posted: with its number, and the pool slot that it got. No value of it is made.
pub struct Sent {
    pub frame: Frame,
    pub number: u64,
    pub slot: Option<u64>,
}

/// What a peer knows of the lane that it writes to another. No value of it is made.
pub struct Out {
    pub posted: LinkedList<Sent>,
    pub got_seen: u64,
    /// How many looks showed the lane full.
    pub full_seen: u64,
    /// For each slot of the target's pool, how many tries found it taken.
    pub tried: LinkedList<u64>,
    /// How many frames were posted when `full_seen`, or the least of `tried`, last rose.
    pub full_at: u64,
    /// Whether the cell of the next frame is in hand, and the slot that is.
    pub writing: bool,
    pub claim: Option<u64>,
}

/// What a peer knows of the lane that it reads of another. No value of it is made.
pub struct In {
    pub taken: LinkedList<Sent>,
    pub put_seen: u64,
    /// How many looks showed nothing new, and how many frames were taken at the last of them.
    pub empty_seen: u64,
    pub empty_at: u64,
    /// The oldest frame, where its cell is in hand, and whether its slot is too.
    pub opened: Option<Sent>,
    pub lent: bool,
}

/// What is known for one peer. No value of it is made.
pub struct Part {
    pub me: u64,
    pub peers: u64,
    pub room: u64,
    pub pool: u64,
    pub outs: LinkedList<Out>,
    pub ins: LinkedList<In>,
    pub moves: LinkedList<Move>,
}

/// What a seat knows: a part for each peer that it speaks for. No value of it is made.
pub struct View {
    pub parts: LinkedList<Part>,
}
