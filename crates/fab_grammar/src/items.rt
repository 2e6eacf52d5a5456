//! What the lines of the peers' parts say.
use fab_base::Line;

/// A line of a peer's part.
#[derive(Drop)]
pub enum Item {
    /// `peer K` opens the part of this peer.
    Peer(u64),
    /// A line that the open peer does.
    Does(Line),
}
