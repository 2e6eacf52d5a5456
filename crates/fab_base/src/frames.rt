//! Frames: the pieces in which an item goes through a lane.
use crate::buffers::Buf;
use crate::items::ItemHead;

/// The head of a frame: its item's head, the place of its first byte among the item's bytes, and
/// how many bytes it has, at most [`FRAME_BYTES`](crate::FRAME_BYTES).
#[derive(Clone, Copy, Drop, Eq, PartialEq)]
pub struct FrameHead {
    pub item: ItemHead,
    pub from: u32,
    pub len: u32,
}

/// A frame with its bytes.
#[derive(Drop)]
pub struct Frame {
    pub head: FrameHead,
    pub bytes: Buf,
}

/// A frame that a port lends until it is advanced over.
#[derive(Clone, Copy)]
pub struct FrameRef<'a> {
    pub head: FrameHead,
    pub bytes: &'a [u8],
}
