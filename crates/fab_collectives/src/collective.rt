//! A collective that was begun.
ghost use Rattle.std.specs.Prelude.{◌≡◌, ◌<◌, ◌≤◌, ◌⊎◌, ◌||◌, false, true, [], length, replicate, None, Some, Err, IfOk, IfErr, IfSome, IsErr, IsNone, IsSome, IsTrue, OnOk, is_none, slice_set};
ghost use Rattle.fab_base.specs.declared.faults.Fault.TheVariants.{MsgSize, NoMemory as LacksMemory};
ghost use Rattle.fab_fold.specs.Shares.{AreReceived, outcome_of};
ghost use Rattle.fab_collectives.specs.Beginning.{IsFresh, hearings};
ghost use Rattle.fab_collectives.specs.Lengths.{AreWhole};
ghost use Rattle.fab_collectives.specs.Routes.{heard_by, others_of, rounds_in};
ghost use Rattle.fab_collectives.specs.Driving.{Drives, HasAll, IsDue, IsReady, NoOutcome};
ghost use Rattle.fab_collectives.specs.Offering.{awaited_after, failed_after, is_of, received_after, with_message, without_round};

use crate::calls::{ask_all, send_all};
use crate::offers::{Message, brought, is_of};
use crate::routes::{heard_by, hears_in, rounds_in, topology};
use crate::shares::made;
use fab_app::completions::Polled;
use fab_app::endpoint::{Calls, Endpoint};
use fab_base::{Buf, Fault, NoMemory, Refused};
use fab_fold::Coll;
use fab_topology::waits_for;
use std::alloc::Global;

/// What is done, by which rank of how many, and under which tag. Its receives have the tag as their context, too.
#[derive(Clone, Copy, Drop)]
pub struct Work {
    pub coll: Coll,
    pub rank: u32,
    pub peers: u32,
    pub tag: u64,
}

/// A collective that was begun. Whoever reads the completion queue of its endpoint offers it what was read, and drives it
/// until it is done.
///
/// Where it is dropped before, its receives stay posted.
#[derive(Drop)]
pub struct Collective {
    alloc: Global,
    work: Work,
    own: Buf,
    /// The message of each round. One that has not come is empty.
    received: Vec<Buf>,
    /// Of each round, whether its message is waited for and has not come.
    awaited: Vec<bool>,
    /// The round from which on receives have still to be posted.
    asked: u32,
    /// The round from which on messages have still to be sent.
    sent: u32,
    /// Whether a receive ended with an error, since its message was longer than the shares that it brings or it was cancelled, or
    /// brought a message that is not waited for.
    failed: bool,
}

/// So many empty buffers.
fn empty(alloc: Global, count: u32) -> Result<Vec<Buf>, NoMemory>
    ensures { IfOk result (λ all. all.items ≡ replicate count []) }
{
    let mut all = Vec::new(alloc);
    for _place in 0..count {
        all.push(Buf::empty(alloc))?;
    }
    Ok(all)
}

/// Of each round, whether the rank hears in it.
fn hearings(alloc: Global, work: Work, len: usize) -> Result<Vec<bool>, NoMemory>
    ensures { IfOk result (λ all. all.items ≡ hearings work len) }
{
    let mut all = Vec::new(alloc);
    for k in 0..rounds_in(work, len) {
        all.push(hears_in(work, len, k))?;
    }
    Ok(all)
}

impl Collective {
    /// The context of its receives and the tag of its messages.
    pub fn context(&self) -> u64
        ensures { result ≡ self.now.work.tag }
    {
        self.work.tag
    }

    /// The room for the message of each round, and in which rounds it hears.
    fn awaiting(alloc: Global, work: Work, len: usize) -> Result<(Vec<Buf>, Vec<bool>), NoMemory>
        ensures received { IfOk result (λ both. both.0.items ≡ replicate (rounds_in work len) []) }
        ensures awaited { IfOk result (λ both. both.1.items ≡ hearings work len) }
    {
        let received = empty(alloc, rounds_in(work, len))?;
        let awaited = hearings(alloc, work, len)?;
        Ok((received, awaited))
    }

    /// Begins it. Nothing is posted or sent before it is driven.
    pub(crate) fn begin(alloc: Global, work: Work, own: Buf) -> Result<Collective, Refused>
        ensures begun { IfOk result (λ begun. (begun.work ≡ work) × (begun.own ≡ own) × IsFresh begun) }
        ensures back { IfErr result (λ refused. (refused.buf ≡ own) × (refused.why ≡ LacksMemory)) }
    {
        match Collective::awaiting(alloc, work, own.as_slice().len()) {
            Ok((received, awaited)) => Ok(Collective {
                alloc,
                work,
                own,
                received,
                awaited,
                asked: 0,
                sent: 0,
                failed: false,
            }),
            Err(_) => Err(Refused {
                why: Fault::NoMemory,
                buf: own,
            }),
        }
    }

    /// Whether the message of each round in which it hears has come.
    fn has_all(&self) -> bool
        ensures yes { IsTrue result → HasAll self.now }
        ensures no { result ≡ false → HasAll self.now → ⊥ }
    {
        self.awaited.iter().all(|awaited| !*awaited)
    }

    /// How many rounds it has.
    fn rounds(&self) -> u32
        ensures { result ≡ rounds_in self.now.work (length self.now.own) }
    {
        rounds_in(self.work, self.own.as_slice().len())
    }

    /// Whether the messages came that the message of this round waits for.
    fn is_ready(&self, round: u32) -> bool
        ensures yes { IsTrue result → IsReady self.now round }
        ensures no { result ≡ false → IsReady self.now round → ⊥ }
    {
        let topology = topology(self.work, self.own.as_slice().len());
        let upto = (waits_for(topology, round) as usize).min(self.awaited.len());
        self.awaited[..upto].iter().all(|awaited| !*awaited)
    }

    /// Up to which round messages can be sent.
    fn due(&self) -> u32
        ensures { IsDue self.now result }
    {
        let rounds = self.rounds();
        for k in self.sent..rounds {
            if !self.is_ready(k) {
                return k;
            }
        }
        rounds
    }

    /// Posts the receives and sends the messages that are due, up to those that are refused for now, which the next drive makes. The
    /// message of a round is due once those came that it waits for. Once it is done it gives what it comes to, each time that it is asked:
    /// what `outcome` of `fab_fold` makes of the own share and of those of the others, in order of ranks. It makes no progress.
    ///
    /// `MsgSize` where a message is longer than the shares that it brings, where one of an allgather or an allreduce is shorter, or where one of the
    /// receives was cancelled or brought a message that is not waited for; a shorter share of a broadcast's root is given as it is. `NotSupported` where FI_TAGGED with
    /// FI_SEND and FI_RECV was not granted, `Invalid` where a rank does not stand at the index of its number. After
    /// `NoMemory` it may be driven on; after another error not, and its receives stay posted under `context`.
    pub fn drive<E: Calls + Drop>(
        &mut self,
        endpoint: &mut Endpoint<E>,
    ) -> Result<Option<Buf>, Fault>
        ensures made { IfOk result (λ done. IfSome done (λ bytes. bytes ≡ outcome_of self.old.work.coll self.old.work.rank self.old.own (others_of self.old.work self.old.own self.old.received.items))) }
        ensures waits { IfOk result (λ done. IsSome done → HasAll self.old × (self.old.failed ≡ false)) }
        ensures alike { IfOk result (λ done. IsSome done → AreReceived self.old.work.coll self.old.work.rank self.old.own (others_of self.old.work self.old.own self.old.received.items)) }
        ensures whole { IfOk result (λ done. IsSome done → AreWhole self.old.work self.old.own self.old.received.items) }
        ensures all { IfOk result (λ done. IsSome done → (rounds_in self.old.work (length self.old.own) ≤ self.new.asked) × (rounds_in self.old.work (length self.old.own) ≤ self.new.sent)) }
        ensures none { IfOk result (λ done. IsNone done → (HasAll self.old → ⊥) ⊎ (self.new.asked < rounds_in self.old.work (length self.old.own)) ⊎ (self.new.sent < rounds_in self.old.work (length self.old.own))) }
        ensures fails { self.old.failed ≡ true → IsErr result }
        ensures size { rounds_in self.old.work (length self.old.own) ≤ self.new.asked → rounds_in self.old.work (length self.old.own) ≤ self.new.sent → NoOutcome self.old → result ≡ Err MsgSize }
        ensures drives { Drives E.fixed self.old self.new (E.seen endpoint.old) (E.seen endpoint.new) result }
        ensures work { self.new.work ≡ self.old.work }
        ensures own { self.new.own ≡ self.old.own }
        ensures received { self.new.received.items ≡ self.old.received.items }
        ensures counts { (self.new.awaited.items ≡ self.old.awaited.items) × (self.new.failed ≡ self.old.failed) }
    {
        let rounds = self.rounds();
        let due = self.due();
        let own = self.own.as_slice();
        let received = self.received.as_slice();
        ask_all(endpoint, self.alloc, self.work, own.len(), &mut self.asked)?;
        send_all(
            endpoint,
            self.alloc,
            self.work,
            own,
            received,
            due,
            &mut self.sent,
        )?;
        if self.failed {
            return Err(Fault::MsgSize);
        }
        if !self.has_all() || self.asked < rounds || self.sent < rounds {
            return Ok(None);
        }
        self.outcome()
    }

    /// What it comes to.
    fn outcome(&self) -> Result<Option<Buf>, Fault>
        ensures made { IfOk result (λ done. IfSome done (λ bytes. bytes ≡ outcome_of self.now.work.coll self.now.work.rank self.now.own (others_of self.now.work self.now.own self.now.received.items))) }
        ensures some { IfOk result IsSome }
        ensures alike { OnOk result (AreReceived self.now.work.coll self.now.work.rank self.now.own (others_of self.now.work self.now.own self.now.received.items)) }
        ensures whole { OnOk result (AreWhole self.now.work self.now.own self.now.received.items) }
        ensures size { (AreWhole self.now.work self.now.own self.now.received.items → ⊥) → result ≡ Err MsgSize }
        ensures why { IfErr result (λ why. (why ≡ LacksMemory) ⊎ ((why ≡ MsgSize) × (AreWhole self.now.work self.now.own self.now.received.items → ⊥))) }
    {
        let bytes = made(self.alloc, self.work, self.own.as_slice(), &self.received)?;
        Ok(Some(bytes))
    }

    /// Takes a completion that is its own: the message is kept at the round in which the rank hears its source, and is awaited no
    /// more. A second one of a rank counts no other's as come. Any other completion is handed back.
    pub fn offer(&mut self, polled: Polled) -> Option<Polled>
        ensures back { is_of self.old.work.tag polled ≡ false → result ≡ Some polled }
        ensures taken { is_of self.old.work.tag polled ≡ true → result ≡ None }
        ensures received { self.new.received.items ≡ received_after self.old.work (length self.old.own) self.old.received.items polled }
        ensures awaited { self.new.awaited.items ≡ awaited_after self.old.work (length self.old.own) self.old.awaited.items polled }
        ensures failed { self.new.failed ≡ failed_after self.old.work (length self.old.own) self.old.failed polled }
        ensures calls { (self.new.asked ≡ self.old.asked) × (self.new.sent ≡ self.old.sent) }
        ensures work { self.new.work ≡ self.old.work }
        ensures own { self.new.own ≡ self.old.own }
    {
        if !is_of(self.work.tag, &polled) {
            return Some(polled);
        }
        match brought(polled) {
            Some(message) => self.keep(message),
            None => self.failed = true,
        }
        None
    }

    /// Keeps a message that came.
    fn keep(&mut self, message: Message)
        ensures received { self.new.received.items ≡ with_message self.old.received.items (heard_by self.old.work (length self.old.own) message.source) message.bytes }
        ensures awaited { self.new.awaited.items ≡ without_round self.old.awaited.items (heard_by self.old.work (length self.old.own) message.source) }
        ensures failed { self.new.failed ≡ self.old.failed || is_none (heard_by self.old.work (length self.old.own) message.source) }
        ensures calls { (self.new.asked ≡ self.old.asked) × (self.new.sent ≡ self.old.sent) }
        ensures work { self.new.work ≡ self.old.work }
        ensures own { self.new.own ≡ self.old.own }
    {
        let Message { source, bytes } = message;
        match heard_by(self.work, self.own.as_slice().len(), source) {
            Some(round) => self.keep_at(round as usize, bytes),
            None => self.failed = true,
        }
    }

    /// Keeps the message of a round.
    fn keep_at(&mut self, at: usize, bytes: Buf)
        ensures received { self.new.received.items ≡ slice_set self.old.received.items at bytes }
        ensures awaited { self.new.awaited.items ≡ slice_set self.old.awaited.items at false }
        ensures rest { (self.new.work ≡ self.old.work) × (self.new.own ≡ self.old.own) × (self.new.asked ≡ self.old.asked) × (self.new.sent ≡ self.old.sent) × (self.new.failed ≡ self.old.failed) }
    {
        if at < self.received.len() {
            self.received[at] = bytes;
        }
        if at < self.awaited.len() {
            self.awaited[at] = false;
        }
    }
}
