//! The lanes of a port, whose turns progress gives in a circle: to peer 0, from peer 0, to peer 1 and so on.

/// A lane of a port.
#[derive(Clone, Copy, Debug, Drop, Eq, PartialEq)]
pub enum Lane {
    /// The lane to this peer: frames are posted to it.
    To(u32),
    /// The lane from this peer: its frames are taken.
    From(u32),
}
