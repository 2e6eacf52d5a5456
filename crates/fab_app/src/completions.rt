//! The completion queue (fi_cq(3)).
ghost use Rattle.std.specs.Prelude.{◌≡◌, ◌+◌, ◌*◌, ◌++◌, List, Some, OnErr, Ok, IfOk};
ghost use Rattle.fab_base.specs.declared.entries.Entry.{Entry as EntryValue};
ghost use Rattle.fab_base.specs.declared.entries.ErrEntry.{ErrEntry as ErrEntryValue};
ghost use Rattle.fab_base.specs.declared.entries.Taken.TheVariants.{Failure};
ghost use Rattle.fab_base.specs.declared.operations.Written.{Written};
ghost use Rattle.fab_model.specs.Peers.{ctx_of_entry, unread};
ghost use Rattle.fab_face.specs.Answers.{IsFailure, Pops};
ghost use Rattle.fab_app.specs.Cleared.{cleared};
ghost use Rattle.fab_app.specs.Polls.{has_come, EndsPoll, Polls, TakesFirst, Waits};
ghost use Rattle.fab_app.specs.declared.completions.Polled.TheVariants.{Error};
ghost use Rattle.fab_app.specs.Takes.{TakesMost};
ghost use Rattle.fab_app.specs.Within.{PollsWithin};

use crate::endpoint::{Calls, Endpoint};
use crate::moving::BUDGET;
use fab_base::{Entry, ErrEntry, Fault, NoMemory};
use fab_face::events::{Moved, Stop};
use std::{hint, thread};

/// What a poll told.
#[derive(Drop)]
pub enum Polled {
    /// An operation is complete (fi_cq_read). Its buffer comes back with it.
    Entry(Entry),
    /// An operation failed (fi_cq_readerr). Its buffer comes back with it, where it had one.
    Error(ErrEntry),
    /// There is no completion (FI_EAGAIN), and nothing is left to move until a peer does something or a call is made.
    Idle,
    /// There is no completion yet, and more may be moved at once.
    More,
}

/// The context of the call whose completion this is. None is of data that a peer wrote (FI_REMOTE_CQ_DATA).
pub fn ctx_of(entry: &Entry) -> Option<u64>
    ensures { result ≡ ctx_of_entry entry.now }
{
    match entry {
        Entry::Sent { ctx, .. } => Some(*ctx),
        Entry::Received { ctx, .. } => Some(*ctx),
        Entry::Part { ctx, .. } => Some(*ctx),
        Entry::Released { ctx, .. } => Some(*ctx),
        Entry::Peeked { ctx, .. } => Some(*ctx),
        Entry::Read { ctx, .. } => Some(*ctx),
        Entry::Wrote { ctx, .. } => Some(*ctx),
        Entry::Updated { ctx } => Some(*ctx),
        Entry::Fetched { ctx, .. } => Some(*ctx),
        Entry::RemoteData { .. } => None,
    }
}

/// What is told where there is no completion.
fn ended(moved: Result<Moved, NoMemory>) -> Result<Polled, NoMemory>
    ensures { EndsPoll moved result }
{
    let moved = moved?;
    Ok(match moved.stop {
        Stop::Budget | Stop::LogFull => Polled::More,
        Stop::Idle | Stop::CqFull => Polled::Idle,
    })
}

/// Takes the first completion, which is an error.
fn take_error<E: Calls>(endpoint: &mut E) -> Result<Polled, NoMemory>
    requires { (w : Written) × (unread (E.seen endpoint.old).held.state.cq ≡ Some w) × IsFailure w }
    ensures { (error : ErrEntryValue) × (result ≡ Ok (Error error)) × Pops (Failure error) (E.seen endpoint.old) (E.seen endpoint.new) }
{
    match endpoint.cq_readerr() {
        Ok(error) => Ok(Polled::Error(error)),
        Err(_) => unreachable!(),
    }
}

/// Takes the first completion, a success or an error, and tells it, or else the progress. Each answer is large, so it is asked
/// first whether there is one, and then for a success, which most are.
fn take_first<E: Calls>(
    endpoint: &mut E,
    moved: Result<Moved, NoMemory>,
) -> Result<Polled, NoMemory>
    ensures { TakesFirst moved (E.seen endpoint.old) (E.seen endpoint.new) result }
{
    if endpoint.cq_is_empty() {
        return ended(moved);
    }
    match endpoint.cq_pop() {
        Ok(entry) => Ok(Polled::Entry(entry)),
        Err(Fault::NoEntry) => ended(moved),
        Err(_) => take_error(endpoint),
    }
}

/// Whether there is no need to poll again.
pub(crate) fn is_settled(polled: &Result<Polled, NoMemory>) -> bool
    ensures { result ≡ has_come polled.now }
{
    match polled {
        Ok(Polled::Idle | Polled::More) => false,
        Ok(Polled::Entry(_) | Polled::Error(_)) | Err(_) => true,
    }
}

impl<E: Calls + Drop> Endpoint<E> {
    /// Makes progress with at most `budget` frames, and takes the first completion, if there is one (fi_cq_read and
    /// fi_cq_readerr). Where there is none it tells whether to call again at once. With a budget of 0 no frame moves, buffers for
    /// many get the messages that are due, and `More` is told where there is no completion. At `NoMemory` no completion is taken,
    /// and what moved stays moved.
    pub fn poll(&mut self, budget: u32) -> Result<Polled, NoMemory>
        ensures { Polls E.fixed budget (cleared (E.seen self.old)) (E.seen self.new) result }
    {
        self.inner.log_clear();
        self.inner.known();
        let moved = self.inner.progress(budget);
        self.inner.known();
        take_first(&mut self.inner, moved)
    }

    /// Takes the first completions, at most so many, and appends them (fi_cq_read with a count). It makes no progress, which
    /// fi_cq_read does: call `progress` before it. It ends before the first error or where none is left: `poll` tells which.
    /// Want of memory leaves all as it was, and none is wanted where the vector has room for `most` more. That room is made first,
    /// however few there are: there are never more than `Info.cq`.
    pub fn cq_take(&mut self, most: u32, into: &mut Vec<Entry>) -> Result<(), NoMemory>
        ensures took { IfOk result (λ _. (entries : List EntryValue) × (into.new.items ≡ into.old.items ++ entries) × TakesMost most entries (E.seen self.old) (E.seen self.new)) }
        ensures err { OnErr result ((into.new.items ≡ into.old.items) × (E.seen self.new ≡ E.seen self.old)) }
    {
        into.reserve(most as usize)?;
        'entries: for _took in 0..most {
            match self.inner.cq_pop() {
                Ok(entry) => into.push_reserved(entry),
                Err(_) => return Ok(()),
            }
        }
        Ok(())
    }

    /// Polls until there is a completion, at most so many times and once more, with a pause of the processor between.
    pub(crate) fn spin(&mut self, spins: u32) -> Result<Polled, NoMemory>
        ensures waits { Waits E.fixed BUDGET (E.seen self.old) (E.seen self.new) result }
        ensures tries { PollsWithin E.fixed BUDGET spins (E.seen self.old) (E.seen self.new) result }
    {
        'spins: for _spin in 0..spins {
            let polled = self.poll(BUDGET);
            if is_settled(&polled) {
                return polled;
            }
            hint::spin_loop();
        }
        self.poll(BUDGET)
    }

    /// Waits for a completion, an error among them, at most so many turns (fi_cq_sread(3)). A turn polls until there is
    /// one, `spins` times and once more, each of at most 64 frames, with a pause of the processor between; behind each turn other
    /// threads run, and behind the last one more poll is made. With no turns it is a poll.
    ///
    /// Few spins leave the processor to other threads, where there are more of them than processors. Many bring a
    /// completion sooner, where each has its own: to yield takes longer than a poll.
    ///
    /// `Idle` and `More` say that none came in so many turns. At `NoMemory` no completion is taken, and what moved stays moved.
    pub fn wait_turns(&mut self, turns: u32, spins: u32) -> Result<Polled, NoMemory>
        ensures waits { Waits E.fixed BUDGET (E.seen self.old) (E.seen self.new) result }
        ensures tries { PollsWithin E.fixed BUDGET (turns * (spins + 1)) (E.seen self.old) (E.seen self.new) result }
    {
        'turns: for _turn in 0..turns {
            let polled = self.spin(spins);
            if is_settled(&polled) {
                return polled;
            }
            thread::yield_now();
        }
        self.poll(BUDGET)
    }

    /// `wait_turns` without spins: polls until there is a completion, at most so many times and once more, and lets other
    /// threads run between.
    pub fn wait(&mut self, times: u32) -> Result<Polled, NoMemory>
        ensures waits { Waits E.fixed BUDGET (E.seen self.old) (E.seen self.new) result }
        ensures tries { PollsWithin E.fixed BUDGET times (E.seen self.old) (E.seen self.new) result }
    {
        self.wait_turns(times, 0)
    }
}
