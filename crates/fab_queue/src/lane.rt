//! The queue of a lane, and its rule.
ghost use Rattle.std.specs.Prelude.{[], IfOk, ◌≡◌, ◌<◌, true, false};
ghost use Rattle.crossbeam_queue.specs.Passes.{IsPassOf, ruled_capacity};
ghost use Rattle.fab_queue.specs.Lanes.{known, log};

use crossbeam_queue::protocol::{Join, Lesson, Outcome, Protocol, Split};
use crossbeam_queue::{Pass, RuledArrayQueue};
use fab_base::{Frame, NoMemory};
use std::alloc::Global;
use std::collections::LinkedList;

/// A frame on its way, with the number under which it was posted.
#[derive(Drop)]
pub struct Sent {
    pub frame: Frame,
    pub number: u64,
}

/// What a pass at a queue may do, and what it put in and got out. No value of it is made.
pub struct Log {
    pub puts: bool,
    pub gets: bool,
    pub put: LinkedList<Sent>,
    pub got: LinkedList<Sent>,
}

/// The rule of a lane.
pub struct InOrder;

impl Protocol<Sent, Log> for InOrder {
    ghost use Rattle.std.specs.Prelude.{true, []};
    ghost use Rattle.fab_queue.specs.Lanes.{log, Ordered};

    ghost holds = { Ordered };

    ghost first = { log true true [] [] };
}

/// One pass puts and another gets.
pub(crate) struct Roles;

impl Split<Log> for Roles {
    ghost use Rattle.std.specs.Prelude.{true, false, []};
    ghost use Rattle.fab_queue.specs.Lanes.{log};

    ghost left = { λ v. log true false v.put [] };

    ghost right = { λ v. log false true [] v.got };
}

impl Join<Log> for Roles {
    ghost use Rattle.std.specs.Prelude.{true, false, []};
    ghost use Rattle.fab_queue.specs.Lanes.{log};

    ghost both = { λ v w. log true true v.put w.got };

    ghost spent = { log false false [] [] };
}

/// One more is put in. What is inside is the last of what was put.
pub(crate) struct Puts;

impl Outcome<Sent, Log> for Puts {
    ghost use Rattle.fab_queue.specs.Lanes.{put_one};

    ghost then = { λ v x w. w ≡ put_one v x };
}

impl Lesson<Sent, Log> for Puts {
    ghost use Rattle.fab_queue.specs.Lanes.{EndsWith};

    ghost fact = { λ v items. EndsWith v.put items };
}

/// One more is got out: a frame that may come next, and the next of those put, where the pass may do both.
pub(crate) struct Gets;

impl Outcome<Sent, Log> for Gets {
    ghost use Rattle.fab_queue.specs.Lanes.{GotOne};

    ghost then = { GotOne };
}

impl Lesson<Sent, Log> for Gets {
    ghost use Rattle.fab_queue.specs.Lanes.{Holds};

    ghost fact = { Holds };
}

/// The queue of one lane.
pub(crate) type Lane = RuledArrayQueue<Sent, Log, InOrder>;

/// A queue of so many frames, with a pass that puts and one that gets.
pub(crate) fn open_lane(
    alloc: Global,
    room: u32,
) -> Result<(Lane, Pass<Sent, Log>, Pass<Sent, Log>), NoMemory>
    requires { 0 < room }
    ensures room { IfOk result (λ r. ruled_capacity r.0 ≡ room) }
    ensures passes { IfOk result (λ r. IsPassOf r.0 r.1 × IsPassOf r.0 r.2) }
    ensures logs { IfOk result (λ r. (known r.1 ≡ log true false [] []) × (known r.2 ≡ log false true [] [])) }
{
    let (lane, mut writer) = Lane::ruled(alloc, room as usize)?;
    let reader = lane.another::<Roles>(&mut writer);
    Ok((lane, writer, reader))
}
