//! An item is cut into frames.
ghost use Rattle.std.specs.Prelude.{◌≡◌, ◌∷◌, [], MatchOption};
ghost use Rattle.fab_link.specs.Cut.{cut_heads};

use fab_base::{FRAME_BYTES, FrameHead, ItemHead};
use std::marker::Model;

/// The frames of an item that are still to come, in order. Contracts see it as the list of their
/// heads. It keeps nothing of the item's size.
#[derive(Drop)]
pub struct Cutter {
    item: ItemHead,
    /// The place of the next frame's first byte, or `None` after the last frame.
    next: Option<u32>,
}

impl Model for Cutter {
    ghost use Rattle.std.specs.Prelude.{List, IfSome, ◌≤◌};
    ghost use Rattle.fab_base.specs.declared.frames.FrameHead.{FrameHead};
    ghost use Rattle.fab_link.specs.Cut.{heads_at};

    ghost Value = { List FrameHead };

    ghost view = { λ c. heads_at c.item c.next };

    ghost invariant = { λ c. IfSome c.next (λ from. from ≤ c.item.total) };
}

impl Cutter {
    /// All frames of the item of this head. Takes no memory.
    pub fn new(head: ItemHead) -> Cutter
        ensures { result ≡ cut_heads head }
    {
        Cutter {
            item: head,
            next: Some(0),
        }
    }

    /// The head of the next frame, or `None` after the last one. Takes no memory.
    pub fn next(&mut self) -> Option<FrameHead>
        ensures { MatchOption result ((self.old ≡ []) × (self.new ≡ [])) (λ head. self.old ≡ head ∷ self.new) }
    {
        let from = self.next?;
        let left = self.item.total - from;
        let len = left.min(FRAME_BYTES);
        self.next = if len < left { Some(from + len) } else { None };
        Some(FrameHead {
            item: self.item,
            from,
            len,
        })
    }
}
