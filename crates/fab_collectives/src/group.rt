//! The ranks that do collectives together, and what each of them begins.
ghost use Rattle.std.specs.Prelude.{◌≡◌, ◌≤◌, ◌^◌, ◌⊎◌, [], length, None, Some, IfOk, IfErr, OnErr, OnOk};
ghost use Rattle.fab_base.specs.declared.faults.Fault.TheVariants.{NoMemory as LacksMemory};
ghost use Rattle.fab_fold.specs.declared.coll.Coll.TheVariants.{Barrier, Broadcast, Allgather, Allreduce};
ghost use Rattle.fab_collectives.specs.Beginning.{IsFresh, next_of, refusal_of, work_of};

use crate::collective::{Collective, Work};
use fab_app::endpoint::{Calls, Endpoint};
use fab_base::{AtomicOp, Buf, Fault, Num, Refused};
use fab_fold::{Coll, MOST_SHARE, is_reducing};
use std::alloc::Global;

/// The least tag and the least context of collectives, 2^63. An application that does collectives sends no message with a
/// tag from here on, ignores this bit of a tag in no receive, claim or discard, makes no call under a context from here on, and
/// does not call `cancel_first` while a collective is under way. So nothing of its own takes a message of a collective, and it
/// cancels none of a collective's receives.
pub const COLLECTIVE: u64 = 0x8000_0000_0000_0000;

/// A rank of a domain, and how many collectives it began. All ranks begin the same collectives in the same order
/// (fi_collective(3)); then those that belong together have the same tag.
#[derive(Drop)]
pub struct Group {
    alloc: Global,
    rank: u32,
    peers: u32,
    rounds: u64,
}

impl Group {
    /// The group of all peers of an endpoint, in which its own number is its rank. Each peer has to stand at the index of its
    /// number in the address vector, as `open` leaves it.
    pub fn of<E: Calls + Drop>(alloc: Global, endpoint: &Endpoint<E>) -> Group
        ensures rank { result.rank ≡ (E.seen endpoint.now).lanes.number }
        ensures peers { result.peers ≡ (E.seen endpoint.now).lanes.peers }
        ensures new { result.rounds ≡ 0 }
    {
        Group {
            alloc,
            rank: endpoint.me(),
            peers: endpoint.peers(),
            rounds: 0,
        }
    }

    /// This rank.
    pub fn rank(&self) -> u32
        ensures { result ≡ self.now.rank }
    {
        self.rank
    }

    /// How many ranks there are.
    pub fn peers(&self) -> u32
        ensures { result ≡ self.now.peers }
    {
        self.peers
    }

    /// Why a collective is not begun with a share of so many bytes, if it isn't.
    fn refusal(&self, coll: Coll, len: usize) -> Option<Fault>
        ensures { result ≡ refusal_of self.now.peers coll len }
    {
        if len > MOST_SHARE {
            return Some(Fault::MsgSize);
        }
        let is_right = match coll {
            Coll::Barrier | Coll::Allgather => true,
            Coll::Broadcast { root } => root < self.peers,
            Coll::Allreduce { op, num } => is_reducing(op) && len % num.element_size() == 0,
        };
        if is_right { None } else { Some(Fault::Invalid) }
    }

    /// Begins a collective with this share. Where it is refused, nothing changes.
    fn begin(&mut self, coll: Coll, share: Buf) -> Result<Collective, Refused>
        ensures begun { IfOk result (λ begun. (begun.own ≡ share) × (begun.work ≡ work_of self.old coll) × IsFresh begun) }
        ensures next { OnOk result ((self.new ≡ next_of self.old) × (refusal_of self.old.peers coll (length share) ≡ None)) }
        ensures why { IfErr result (λ refused. (refused.why ≡ LacksMemory) ⊎ (refusal_of self.old.peers coll (length share) ≡ Some refused.why)) }
        ensures back { IfErr result (λ refused. refused.buf ≡ share) }
        ensures same { OnErr result (self.new ≡ self.old) }
    {
        if let Some(why) = self.refusal(coll, share.as_slice().len()) {
            return Err(Refused { why, buf: share });
        }
        let work = Work {
            coll,
            rank: self.rank,
            peers: self.peers,
            tag: COLLECTIVE + self.rounds % COLLECTIVE,
        };
        let begun = Collective::begin(self.alloc, work, share)?;
        self.rounds = self.rounds.wrapping_add(1);
        Ok(begun)
    }

    /// No rank is done before all have begun (fi_barrier). What it comes to has no bytes.
    pub fn barrier(&mut self) -> Result<Collective, Refused>
        ensures begun { IfOk result (λ begun. (begun.own ≡ []) × (begun.work ≡ work_of self.old Barrier) × IsFresh begun) }
        ensures next { OnOk result (self.new ≡ next_of self.old) }
        ensures why { IfErr result (λ refused. refused.why ≡ LacksMemory) }
        ensures tag { IfOk result (λ begun. 2 ^ 63 ≤ begun.work.tag) }
        ensures same { OnErr result (self.new ≡ self.old) }
    {
        self.begin(Coll::Barrier, Buf::empty(self.alloc))
    }

    /// Each rank gets the root's bytes (fi_broadcast). On the other ranks `share` has as many bytes as are expected; what
    /// they are does not matter.
    ///
    /// `MsgSize` where it has more than [`MOST_SHARE`] bytes, `Invalid` where there is no such root.
    pub fn broadcast(&mut self, root: u32, share: Buf) -> Result<Collective, Refused>
        ensures begun { IfOk result (λ begun. (begun.own ≡ share) × (begun.work ≡ work_of self.old (Broadcast root)) × IsFresh begun) }
        ensures next { OnOk result ((self.new ≡ next_of self.old) × (refusal_of self.old.peers (Broadcast root) (length share) ≡ None)) }
        ensures why { IfErr result (λ refused. (refused.why ≡ LacksMemory) ⊎ (refusal_of self.old.peers (Broadcast root) (length share) ≡ Some refused.why)) }
        ensures tag { IfOk result (λ begun. 2 ^ 63 ≤ begun.work.tag) }
        ensures back { IfErr result (λ refused. refused.buf ≡ share) }
        ensures same { OnErr result (self.new ≡ self.old) }
    {
        self.begin(Coll::Broadcast { root }, share)
    }

    /// Each rank gets the bytes of all ranks, in order of ranks (fi_allgather). All shares have one length.
    ///
    /// `MsgSize` where it has more than [`MOST_SHARE`] bytes.
    pub fn allgather(&mut self, share: Buf) -> Result<Collective, Refused>
        ensures begun { IfOk result (λ begun. (begun.own ≡ share) × (begun.work ≡ work_of self.old Allgather) × IsFresh begun) }
        ensures next { OnOk result ((self.new ≡ next_of self.old) × (refusal_of self.old.peers Allgather (length share) ≡ None)) }
        ensures why { IfErr result (λ refused. (refused.why ≡ LacksMemory) ⊎ (refusal_of self.old.peers Allgather (length share) ≡ Some refused.why)) }
        ensures tag { IfOk result (λ begun. 2 ^ 63 ≤ begun.work.tag) }
        ensures back { IfErr result (λ refused. refused.buf ≡ share) }
        ensures same { OnErr result (self.new ≡ self.old) }
    {
        self.begin(Coll::Allgather, share)
    }

    /// Each rank gets what the elements of all ranks come to, one by one, in order of ranks (fi_allreduce). All shares have
    /// one length.
    ///
    /// `MsgSize` where it has more than [`MOST_SHARE`] bytes, `Invalid` where the operation does not reduce (`is_reducing`) or the
    /// share is no whole number of elements.
    pub fn allreduce(&mut self, op: AtomicOp, num: Num, share: Buf) -> Result<Collective, Refused>
        ensures begun { IfOk result (λ begun. (begun.own ≡ share) × (begun.work ≡ work_of self.old (Allreduce op num)) × IsFresh begun) }
        ensures next { OnOk result ((self.new ≡ next_of self.old) × (refusal_of self.old.peers (Allreduce op num) (length share) ≡ None)) }
        ensures why { IfErr result (λ refused. (refused.why ≡ LacksMemory) ⊎ (refusal_of self.old.peers (Allreduce op num) (length share) ≡ Some refused.why)) }
        ensures tag { IfOk result (λ begun. 2 ^ 63 ≤ begun.work.tag) }
        ensures back { IfErr result (λ refused. refused.buf ≡ share) }
        ensures same { OnErr result (self.new ≡ self.old) }
    {
        self.begin(Coll::Allreduce { op, num }, share)
    }
}
