//! The end of a lane at which one peer posts.
ghost use Rattle.std.specs.Prelude.{◌≡◌, ◌++◌, ◌∷◌, ◌≤◌, [], length, OnOk, OnErr, None};
ghost use Rattle.fab_link.specs.Frames.{last_head};
ghost use Rattle.fab_queue.specs.Lanes.{frames_of, Continues};
ghost use Rattle.fab_queue.specs.Ends.{seen_full};

use crate::lane::{Lane, Log, Puts, Sent};
use crossbeam_queue::Pass;
use fab_base::FrameHead;
use fab_record::record::{Begins, Change, Record};
use std::marker::Model;
use std::sync::{Arc, Wait};

/// How often a post found the lane full, and how many frames were posted at the last time. No value of it is made.
pub(crate) struct Fulls {
    unused: (),
}

impl Model for Fulls {
    ghost use Rattle.fab_queue.specs.Ends.{Sight, unseen};

    ghost Value = { Sight };

    ghost view = { λ _. unseen };
}

/// No post was made.
pub(crate) struct Unseen;

impl Begins<(), Fulls> for Unseen {
    ghost use Rattle.fab_queue.specs.Ends.{unseen};

    ghost first = { λ _. unseen };
}

/// A post found the lane full.
struct SawFull;

impl Change<Pass<Sent, Log>, Fulls> for SawFull {
    ghost use Rattle.std.specs.Prelude.{◌+◌, length};
    ghost use Rattle.fab_queue.specs.Lanes.{known};

    ghost after = { λ pass sight. record { seen = sight.seen + 1; at = length (known pass).put } };
}

/// The lane was full when a post looked.
#[derive(Drop)]
pub(crate) struct LaneIsFull;

/// The end of a lane at which one peer posts, and no other.
#[derive(Drop)]
pub(crate) struct Outlet {
    pub lane: Arc<Lane>,
    pub pass: Pass<Sent, Log>,
    /// The head of the last frame that was posted.
    pub end: Option<FrameHead>,
    pub fulls: Record<(), Fulls, Unseen>,
}

impl Model for Outlet {
    ghost use Rattle.std.specs.Prelude.{◌≤◌};
    ghost use Rattle.std.specs.Arc.{arc_value};
    ghost use Rattle.crossbeam_queue.specs.Passes.{IsPassOf, ruled_capacity};
    ghost use Rattle.fab_queue.specs.Lanes.{known};
    ghost use Rattle.fab_queue.specs.Ends.{Out, MayPut};

    ghost Value = { Out };

    ghost view = { λ a. record {
      lane = a.pass.table_id;
      room = ruled_capacity (arc_value a.lane);
      posted = (known a.pass).put;
      full_seen = a.fulls.seen;
      full_at = a.fulls.at;
    } };

    ghost invariant = { λ a. IsPassOf (arc_value a.lane) a.pass × MayPut (known a.pass) a.end × (ruled_capacity (arc_value a.lane) ≤ 1024) };
}

impl Outlet {
    /// Posts a frame that may come next, unless the lane is full when the queue's push looks.
    pub fn post<R: Wait>(&mut self, rt: &R, sent: Sent) -> Result<(), LaneIsFull>
        requires { Continues self.old.posted sent }
        ensures ok { OnOk result (self.new ≡ record self.old { posted = self.old.posted ++ sent ∷ [] }) }
        ensures err { OnErr result ((self.new ≡ seen_full self.old) × (self.old.room ≤ length self.old.posted)) }
    {
        let head = sent.frame.head;
        let lane = &self.lane;
        match lane.push_as::<Puts, R>(rt, &mut self.pass, sent) {
            Ok(()) => {
                self.end = Some(head);
                Ok(())
            }
            Err(_back) => {
                self.see_full();
                Err(LaneIsFull)
            }
        }
    }

    /// Records that a post found the lane full.
    pub fn see_full(&mut self)
        ensures { self.new ≡ seen_full self.old }
    {
        self.fulls.note::<Pass<Sent, Log>, SawFull>(&self.pass);
    }

    /// The head of the last frame that was posted.
    pub fn last_posted(&self) -> Option<FrameHead>
        ensures end { result ≡ last_head None (frames_of self.now.posted) }
        ensures few { self.now.room ≤ 1024 }
    {
        self.end
    }

    /// How many frames the lane holds at most.
    pub fn room(&self) -> usize
        ensures { (result ≡ self.now.room) × (self.now.room ≤ 1024) }
    {
        self.lane.capacity()
    }
}
