//! What a peer does in its lanes, in order.

/// A frame posted to a peer, or one taken of a peer, with the number under which the frame was posted.
#[derive(Clone, Copy, Drop, Eq, PartialEq)]
pub enum Move {
    Post { dest: u32, number: u64 },
    Take { src: u32, number: u64 },
}
