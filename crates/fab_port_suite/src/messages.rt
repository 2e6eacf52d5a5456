//! Messages of one frame, and bytes for them.
ghost use Rattle.std.specs.Prelude.{◌≡◌, ◌≤◌, length, false};
ghost use Rattle.fab_link.specs.Frames.{IsSound};
ghost use Rattle.fab_link.specs.Owing.{begins_reply};

use fab_base::{Ack, FrameHead, ItemHead, Kind, NoMemory, Outcome};
use std::alloc::Global;

/// A tagged message of one frame: its tag, and how many bytes it has, 4,096 at most.
#[derive(Clone, Copy)]
pub struct Message {
    pub tag: u64,
    pub len: usize,
}

/// Bytes to send: 4,400 of them, each unlike its neighbours.
pub fn pattern(alloc: Global) -> Result<Vec<u8>, NoMemory> {
    let mut all = Vec::with_capacity(alloc, 4400)?;
    for k in 0..4400u64 {
        all.push((k * 7 % 251) as u8)?;
    }
    Ok(all)
}

impl Message {
    /// The message of a stream that has this number: it has from 0 to 4,096 bytes.
    pub fn nth(number: u64) -> Message {
        Message {
            tag: number,
            len: (number % 4097 * 37 % 4097) as usize,
        }
    }

    /// Its bytes, out of the pattern: from a place on that its tag tells.
    pub fn bytes(self, pattern: &[u8]) -> &[u8]
        ensures { length result.now ≤ 4096 }
    {
        let from = (self.tag % 251) as usize;
        if self.len > 4096 || pattern.len() < from + 4096 {
            return &[];
        }
        &pattern[from..from + self.len]
    }
}

/// The head of a tagged message.
pub fn item(tag: u64, total: u32) -> ItemHead
    ensures kind { result.kind ≡ Kind.TagMsg }
    ensures total { result.total ≡ total }
    ensures sound { IsSound result }
{
    ItemHead {
        kind: Kind::TagMsg,
        op: 0,
        tag,
        imm: None,
        ack: Ack::Nothing,
        key: 0,
        at: 0,
        count: 0,
        atom: None,
        outcome: Outcome::Done,
        total,
    }
}

/// The head of the one frame of a tagged message.
pub fn whole(tag: u64, total: u32) -> FrameHead
    requires { total ≤ 4096 }
    ensures from { result.from ≡ 0 }
    ensures len { result.len ≡ total }
    ensures total { result.item.total ≡ total }
    ensures sound { IsSound result.item }
    ensures message { begins_reply result ≡ false }
{
    FrameHead {
        item: item(tag, total),
        from: 0,
        len: total,
    }
}
