//! The frames of items of several sizes.
ghost use Rattle.std.specs.Prelude.{◌≡◌, ◌≤◌};
ghost use Rattle.fab_link.specs.Frames.{IsSound};

use fab_base::{Ack, FrameHead, ItemHead, Kind, Outcome};
use fab_link::{Cutter, Joined, Joiner};

/// How many bytes a frame has, but for the last one of its item.
const FULL: u32 = 4_096;

/// How many bytes an item has, how many frames, and how many bytes the last of these.
const CUT: [(u32, u32, u32); 6] = [
    (0, 1, 0),
    (64, 1, 64),
    (65, 1, 65),
    (4_096, 1, 4_096),
    (4_097, 2, 1),
    (16_777_216, 4_096, 4_096),
];

/// The head of a message of so many bytes.
fn message(total: u32) -> ItemHead
    ensures total { result.total ≡ total }
    ensures sound { IsSound result }
{
    ItemHead {
        kind: Kind::Msg,
        op: 0,
        tag: 0,
        imm: None,
        ack: Ack::Nothing,
        key: 0,
        at: 0,
        count: 0,
        atom: None,
        outcome: Outcome::Done,
        total,
    }
}

/// Whether the next frame is this one of an item.
fn is_next(cutter: &mut Cutter, item: ItemHead, number: u32, len: u32) -> bool
    requires { number ≤ 4096 }
{
    let from = FULL * number;
    cutter.next() == Some(FrameHead { item, from, len })
}

/// Whether all frames of an item are full, but the last one has `last` bytes.
fn is_cut(total: u32, count: u32, last: u32) -> bool
    requires { count ≤ 4096 }
{
    let item = message(total);
    let mut cutter = Cutter::new(item);
    for number in 0..count {
        let len = if number == count - 1 { last } else { FULL };
        if !is_next(&mut cutter, item, number, len) {
            return false;
        }
    }
    cutter.next().is_none() && cutter.next().is_none()
}

#[test]
fn frames_have_their_places(rt: HostRuntime) {
    for (total, count, last) in CUT {
        assert!(rt; count <= 4_096 && is_cut(total, count, last), "{total}");
    }
}

/// The parts of an item of three frames, and of one without bytes behind it.
fn parts() -> [Joined; 4] {
    let mut joiner = Joiner::new();
    let item = message(8_193);
    let head = |from: u32, len: u32| FrameHead { item, from, len };
    [
        joiner.take(&head(0, FULL)),
        joiner.take(&head(FULL, FULL)),
        joiner.take(&head(8_192, 1)),
        joiner.take(&FrameHead {
            item: message(0),
            from: 0,
            len: 0,
        }),
    ]
}

#[test]
fn parts_are_told_by_their_heads(rt: HostRuntime) {
    assert!(rt; parts() == [Joined::First, Joined::Middle, Joined::Last, Joined::Whole]);
}
