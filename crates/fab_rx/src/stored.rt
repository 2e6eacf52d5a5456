//! What is stored of receives, of unexpected messages, and of items that are not whole.
ghost use Rattle.std.specs.Prelude.{◌≡◌};
ghost use Rattle.fab_rx.specs.Stored.{entries_by, seen_of};
ghost use Rattle.fab_rx.specs.Homes.{is_part_of, part_id};

use crate::results::Seen;
use fab_base::{Buf, ItemHead, Want};

/// A receive: its buffer with the bytes that came so far.
#[derive(Drop)]
pub struct Seat {
    pub buf: Buf,
    pub ctx: u64,
}

/// What a multi-receive has besides (FI_MULTI_RECV of fi_msg(3)): what it wants, how many bytes of its
/// buffer must be free for it to stay posted, and how many are given away, from the first on.
#[derive(Clone, Copy, Drop)]
pub struct Multi {
    pub want: Want,
    pub least: u32,
    pub used: u32,
}

/// A receive that is posted, or a multi-receive that was and has items under way.
#[derive(Drop)]
pub struct Waiting {
    pub seat: Seat,
    pub multi: Option<Multi>,
}

/// A message that no receive took. It has its bytes once it is whole.
#[derive(Drop)]
pub struct Parcel {
    pub source: u32,
    pub head: ItemHead,
    pub bytes: Option<Buf>,
}

impl Parcel {
    /// What is told of it.
    pub fn seen(&self) -> Seen
        ensures { result ≡ seen_of self.now }
    {
        Seen {
            source: self.source,
            head: self.head,
            whole: self.bytes.is_some(),
        }
    }
}

/// Where the bytes of an item go: into a receive, to a place of the multi-receive under an id (once they
/// are whole), to a message that is kept under an id, nowhere, or into a buffer of their own, as those of a
/// request or an answer.
#[derive(Drop)]
pub enum Way {
    Into(Seat),
    Part { id: u32, at: u32, bytes: Vec<u8> },
    Keep { id: u32, bytes: Vec<u8> },
    Throw,
    Gather(Vec<u8>),
}

/// An item that has arrived and is not whole. `got` is how many of its bytes came.
#[derive(Drop)]
pub struct Begun {
    pub head: ItemHead,
    pub got: u32,
    pub way: Way,
}

impl Begun {
    /// An item of which nothing came yet.
    pub fn new(head: &ItemHead, way: Way) -> Begun
        ensures { result ≡ record { head = head.now; got = 0; way = way } }
    {
        Begun {
            head: *head,
            got: 0,
            way,
        }
    }

    /// How many completions its end writes.
    pub fn entries(&self) -> u32
        ensures { result ≡ entries_by self.now.way }
    {
        match self.way {
            Way::Into(_) | Way::Part { .. } => 1,
            Way::Keep { .. } | Way::Throw | Way::Gather(_) => 0,
        }
    }

    /// The id of the multi-receive to which it goes.
    pub fn part_id(&self) -> Option<u32>
        ensures { result ≡ part_id self.now.way }
    {
        match self.way {
            Way::Part { id, .. } => Some(id),
            Way::Into(_) | Way::Keep { .. } | Way::Throw | Way::Gather(_) => None,
        }
    }

    /// Whether it goes to the multi-receive under an id.
    pub fn is_part_of(&self, id: u32) -> bool
        ensures { result ≡ is_part_of id self.now.way }
    {
        match self.way {
            Way::Part { id: other, .. } => other == id,
            Way::Into(_) | Way::Keep { .. } | Way::Throw | Way::Gather(_) => false,
        }
    }
}
