//! Progress, and how much is under way (FI_PROGRESS_MANUAL of fi_domain(3)): nothing moves unless a call is made.
ghost use Rattle.std.specs.Prelude.{◌≡◌, ◌&&◌, ◌==◌, IfOk, IsTrue, OnErr, true};
ghost use Rattle.fab_face.specs.Answers.{MayLack};
ghost use Rattle.fab_model.specs.State.{deferred_count, in_use};
ghost use Rattle.fab_app.specs.Cleared.{cleared};
ghost use Rattle.fab_app.specs.Progresses.{Moves, NextOf, Progresses, awaiting_of, is_flushed};
ghost use Rattle.fab_app.specs.Within.{MovesWithin};

use crate::endpoint::{Calls, Endpoint};
use fab_base::NoMemory;
use fab_face::events::{Moved, Stop};
use std::thread;

/// How many frames one progress moves at most, where no number is given.
pub const BUDGET: u32 = 64;

/// What progress tells.
#[derive(Clone, Copy, Debug, Drop, Eq, PartialEq)]
pub enum Next {
    /// Nothing is left to move until a peer does something or a call is made.
    Idle,
    /// More may be moved at once.
    More,
    /// The completion queue is full: read it.
    CqFull,
}

/// What is told of the progress.
fn next_of(moved: Result<Moved, NoMemory>) -> Result<Next, NoMemory>
    ensures { NextOf moved result }
{
    let moved = moved?;
    Ok(match moved.stop {
        Stop::Budget | Stop::LogFull => Next::More,
        Stop::Idle => Next::Idle,
        Stop::CqFull => Next::CqFull,
    })
}

impl<E: Calls + Drop> Endpoint<E> {
    /// Moves at most `budget` frames, and tells whether it is worth another call. `poll` reads besides. With a budget of 0 no frame
    /// moves, buffers for many get the messages that are due, and `More` is told. At `NoMemory` what moved stays moved.
    pub fn progress(&mut self, budget: u32) -> Result<Next, NoMemory>
        ensures { Moves E.fixed budget (cleared (E.seen self.old)) (E.seen self.new) result }
    {
        self.inner.log_clear();
        self.inner.known();
        next_of(self.inner.progress(budget))
    }

    /// How many operations are transmitted and await the answer of their peer.
    pub fn awaiting(&self) -> u32
        ensures { result ≡ awaiting_of (E.seen self.now).held.state }
    {
        self.inner.awaiting()
    }

    /// How many operations are not transmitted: their items wait for their lanes, or a fence holds them back (FI_FENCE).
    pub fn deferred(&self) -> u32
        ensures { result ≡ deferred_count (E.seen self.now).held.state.tx }
    {
        self.inner.deferred()
    }

    /// How many operations have not ended: those that are not transmitted, and those that await an answer.
    pub fn under_way(&self) -> u64
        ensures { result ≡ in_use (E.seen self.now).held.state.tx }
    {
        u64::from(self.deferred()) + u64::from(self.awaiting())
    }

    /// Whether no operation is under way: each that was accepted is transmitted and, where it asks for one, answered.
    pub fn is_flushed(&self) -> bool
        ensures flushed { result ≡ is_flushed (E.seen self.now).held.state }
        ensures ended { IsTrue result → in_use (E.seen self.now).held.state.tx ≡ 0 }
    {
        self.deferred() == 0 && self.awaiting() == 0
    }

    /// Makes progress, of at most 64 frames a time, until no operation is under way, at most so many times, lets other threads run
    /// between, and tells whether none is. Where the completion queue is full it has to be read before more can end. At `NoMemory`
    /// what moved stays moved.
    pub fn flush(&mut self, times: u32) -> Result<bool, NoMemory>
        ensures moved { Progresses (E.seen self.old) (E.seen self.new) }
        ensures lacks { OnErr result (MayLack E.fixed (E.seen self.new)) }
        ensures done { IfOk result (λ done. done ≡ is_flushed (E.seen self.new).held.state) }
        ensures ended { IfOk result (λ done. IsTrue done → in_use (E.seen self.new).held.state.tx ≡ 0) }
        ensures tries { IfOk result (λ done. MovesWithin E.fixed BUDGET times (E.seen self.old) (E.seen self.new) done) }
    {
        'times: for _time in 0..times {
            if self.is_flushed() {
                return Ok(true);
            }
            self.progress(BUDGET)?;
            thread::yield_now();
        }
        Ok(self.is_flushed())
    }
}
