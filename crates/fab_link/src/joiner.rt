//! Frames are joined into items.
ghost use Rattle.std.specs.Prelude.{◌≡◌, Some, None};
ghost use Rattle.fab_link.specs.Frames.{Continues};

use fab_base::FrameHead;
use std::marker::Model;

/// Which part of its item a frame is.
#[derive(Clone, Copy, Debug, Drop, Eq, PartialEq)]
pub enum Joined {
    /// All of it.
    Whole,
    /// The first of several frames.
    First,
    /// Neither the first nor the last frame.
    Middle,
    /// The last of several frames.
    Last,
}

/// The end of a lane whose frames are taken one by one. Contracts see it as the head of the frame
/// that was taken last. It keeps no bytes.
#[derive(Drop)]
pub struct Joiner {
    last: Option<FrameHead>,
}

impl Model for Joiner {
    ghost use Rattle.std.specs.Prelude.{Option};
    ghost use Rattle.fab_base.specs.declared.frames.FrameHead.{FrameHead};

    ghost Value = { Option FrameHead };

    ghost view = { λ j. j.last };
}

impl Joiner {
    ghost use Rattle.fab_link.specs.Joined.{part_of};

    /// The end of a lane without frames. Takes no memory.
    pub fn new() -> Joiner
        ensures { result ≡ None }
    {
        Joiner { last: None }
    }

    /// Takes the next frame of the lane, and says which part of its item it is. Takes no memory.
    pub fn take(&mut self, head: &FrameHead) -> Joined
        requires { Continues self.old head.now }
        ensures part { result ≡ part_of head.now }
        ensures last { self.new ≡ Some head.now }
    {
        self.last = Some(*head);
        match (head.from == 0, head.from + head.len == head.item.total) {
            (true, true) => Joined::Whole,
            (true, false) => Joined::First,
            (false, false) => Joined::Middle,
            (false, true) => Joined::Last,
        }
    }
}
