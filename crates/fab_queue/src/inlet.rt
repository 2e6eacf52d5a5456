//! The end of a lane at which one peer takes.
ghost use Rattle.std.specs.Prelude.{◌≡◌, ◌++◌, ◌∷◌, [], Some, None, IsSome, IfSome};
ghost use Rattle.fab_link.specs.Frames.{last_head, lent_frame, MayCome};
ghost use Rattle.fab_link.specs.Plain.{lent_frames};
ghost use Rattle.fab_queue.specs.declared.lane.Sent.{Sent};
ghost use Rattle.fab_queue.specs.Lanes.{frames_of};
ghost use Rattle.fab_queue.specs.Ends.{Looked, frame_in, taken_one};

use crate::lane::{Gets, Lane, Log, Sent};
use crossbeam_queue::Pass;
use fab_base::{FrameHead, FrameRef};
use fab_record::record::{Begins, Change, Record};
use std::marker::Model;
use std::sync::{Arc, Wait};

/// What was taken, how often a look found nothing, and how many frames were taken at the last time. No value of it is
/// made.
pub(crate) struct Past {
    unused: (),
}

impl Model for Past {
    ghost use Rattle.fab_queue.specs.Ends.{Taken, none_taken};

    ghost Value = { Taken };

    ghost view = { λ _. none_taken };
}

/// Nothing was taken.
pub(crate) struct NoneTaken;

impl Begins<(), Past> for NoneTaken {
    ghost use Rattle.fab_queue.specs.Ends.{none_taken};

    ghost first = { λ _. none_taken };
}

/// A look found nothing.
struct SawNone;

impl Change<(), Past> for SawNone {
    ghost use Rattle.std.specs.Prelude.{◌+◌, length};

    ghost after = { λ _ past. record { frames = past.frames; empty_seen = past.empty_seen + 1; empty_at = length past.frames } };
}

/// A frame was taken.
struct Takes;

impl Change<Sent, Past> for Takes {
    ghost use Rattle.std.specs.Prelude.{◌++◌, ◌∷◌, []};

    ghost after = { λ sent past. record past { frames = past.frames ++ sent ∷ [] } };
}

/// The end of a lane at which one peer takes, and no other.
#[derive(Drop)]
pub(crate) struct Inlet {
    pub lane: Arc<Lane>,
    pub pass: Pass<Sent, Log>,
    /// The frame that came out of the queue and was not stepped over.
    pub lent: Option<Sent>,
    /// The head of the last frame that was taken.
    pub end: Option<FrameHead>,
    pub past: Record<(), Past, NoneTaken>,
}

impl Model for Inlet {
    ghost use Rattle.std.specs.Arc.{arc_value};
    ghost use Rattle.crossbeam_queue.specs.Passes.{IsPassOf};
    ghost use Rattle.fab_queue.specs.Lanes.{known};
    ghost use Rattle.fab_queue.specs.Ends.{In, MayGet};

    ghost Value = { In };

    ghost view = { λ a. record {
      lane = a.pass.table_id;
      taken = a.past.frames;
      lent = a.lent;
      empty_seen = a.past.empty_seen;
      empty_at = a.past.empty_at;
    } };

    ghost invariant = { λ a. IsPassOf (arc_value a.lane) a.pass × MayGet (known a.pass) a.past.frames a.lent a.end };
}

impl Inlet {
    /// Looks for the next frame, unless one is lent: it is lent, or the queue's pop found none.
    pub fn look<R: Wait>(&mut self, rt: &R)
        ensures { Looked self.old self.new }
    {
        if self.lent.is_some() {
            return;
        }
        let lane = &self.lane;
        match lane.pop_as::<Gets, R>(rt, &mut self.pass) {
            Some(sent) => self.lent = Some(sent),
            None => self.past.note::<(), SawNone>(&()),
        }
    }

    /// The frame that is lent.
    pub fn lent(&self) -> Option<FrameRef<'_>>
        ensures lent { lent_frames result ≡ frame_in self.now.lent }
        ensures next { IfSome result (λ f. MayCome (last_head None (frames_of self.now.taken)) (lent_frame f)) }
    {
        let sent = self.lent.as_ref()?;
        Some(FrameRef {
            head: sent.frame.head,
            bytes: sent.frame.bytes.as_slice(),
        })
    }

    /// Steps over the frame that is lent, and gives its number.
    pub fn advance(&mut self) -> u64
        requires { IsSome self.old.lent }
        ensures { (x : Sent) → self.old.lent ≡ Some x → (result ≡ x.number) × (self.new ≡ taken_one self.old x) }
    {
        let Some(sent) = self.lent.take() else {
            unreachable!()
        };
        self.past.note::<Sent, Takes>(&sent);
        self.end = Some(sent.frame.head);
        sent.number
    }

    /// The head of the last frame that was taken.
    pub fn last_taken(&self) -> Option<FrameHead>
        ensures { result ≡ last_head None (frames_of self.now.taken) }
    {
        self.end
    }
}
