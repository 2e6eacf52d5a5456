//! Looks are judged and made, and what is claimed is received or dropped (FI_PEEK, FI_CLAIM and FI_DISCARD
//! of fi_tagged(3)).
ghost use Rattle.std.specs.Prelude.{◌≡◌, ◌&&◌, is_some, IfErr, IsTrue, OnErr, OnOk, true, false};
ghost use Rattle.fab_base.specs.declared.faults.Fault.TheVariants.{Again};
ghost use Rattle.fab_base.specs.declared.faults.Busy.TheVariants.{CqFull};
ghost use Rattle.fab_model.specs.Receiving.{claim_of, is_claim};
ghost use Rattle.fab_cq.specs.Queues.{has_room};
ghost use Rattle.fab_rx.specs.Claims.{claim_under};
ghost use Rattle.fab_core.specs.Parts.{state_of};
ghost use Rattle.fab_core.specs.Passing.{is_held};
ghost use Rattle.fab_settling.specs.Orders.{look_want};
ghost use Rattle.fab_core.specs.Looks.{dropped_by, is_held_take, lacks_take, lasting_claimed, lasting_look, looked_by, taken_by};

use crate::parts::Core;
use fab_base::{Buf, Fault, PeekHow, Refused, Want};
use fab_face::looking::Look;
use fab_match::Matcher;
use fab_rx::Posted;
use fab_settling::calls::{CallRecord, ThisCall, call};
use fab_settling::handing::hand_over;
use fab_settling::looks::{is_claim, meet, part, part_by, told};
use std::snapshot::Snapshot;

impl<M: Matcher> Core<M> {
    /// Whether a message stands claimed under the context.
    fn has_claim(&self, ctx: u64) -> bool
        ensures { result ≡ is_some (claim_of ctx (state_of self.now)) }
    {
        self.rx.claimed(ctx).is_some()
    }

    /// Whether the look would claim under a context that is in use.
    fn claims_again(&self, look: &Look) -> bool
        ensures { result ≡ (is_claim look.now.how && is_some (claim_of look.now.ctx (state_of self.now))) }
    {
        if !is_claim(look.how) {
            return false;
        }
        self.has_claim(look.ctx)
    }

    /// Why a look is refused for a reason that does not pass.
    pub(crate) fn seek_fault(&self, look: &Look) -> Option<Fault>
        ensures { result ≡ lasting_look (state_of self.now) look.now }
    {
        if !self.may_receive(true) {
            return Some(Fault::NotSupported);
        }
        if !self.knows(look.source) {
            return Some(Fault::Invalid);
        }
        if self.claims_again(look) {
            return Some(Fault::Invalid);
        }
        None
    }

    /// Why a receive into so many bytes, or a drop, of the message claimed under the context is refused
    /// for a reason that does not pass.
    pub(crate) fn claimed_fault(&self, bytes: usize, ctx: u64) -> Option<Fault>
        ensures { result ≡ lasting_claimed (state_of self.now) bytes ctx }
    {
        if !self.may_receive(true) {
            return Some(Fault::NotSupported);
        }
        if bytes > self.most_message as usize {
            return Some(Fault::MsgSize);
        }
        if !self.has_claim(ctx) {
            return Some(Fault::NoEntry);
        }
        None
    }

    /// Looks for an unexpected message, where its completion has room.
    pub(crate) fn seek(&mut self, look: &Look) -> Result<(), Fault>
        ensures ok { OnOk result ((is_held 1 self.old ≡ false) × (self.new ≡ looked_by look.now.how (look_want (state_of self.old) look.now) look.now.ctx self.old)) }
        ensures err { IfErr result (λ why. (why ≡ Again (CqFull self.old.cq.size)) × (is_held 1 self.old ≡ true)) }
        ensures stays { OnErr result (self.new ≡ self.old) }
    {
        if self.is_held(1) {
            return Err(self.held());
        }
        let want = self.want(true, look.source, look.tag, look.ignore);
        self.see(look.how, &want, look.ctx);
        Ok(())
    }

    /// A look that is not refused.
    fn see(&mut self, how: PeekHow, want: &Want, ctx: u64)
        requires { IsTrue (has_room 1 self.old.cq) }
        ensures { self.new ≡ looked_by how want.now ctx self.old }
    {
        self.rx.known();
        self.tx.known();
        let about = Snapshot::of(&self.calls);
        let met = meet(&mut self.rx, how, want, ctx);
        call(&mut self.calls);
        self.cq
            .write::<Snapshot<CallRecord>, ThisCall>(&about, told(how, ctx, &met));
        part_by(self.alloc, &mut self.tx, how, &met);
    }

    /// Whether the completion of a receive of the message claimed under the context has no room.
    fn lacks_take(&self, ctx: u64) -> bool
        ensures { result ≡ lacks_take ctx self.now }
    {
        let whole = match self.rx.claimed(ctx) {
            Some(met) => met.whole,
            None => false,
        };
        whole && !self.cq.has_room(1)
    }

    /// Whether such a receive waits, for a draw or for room.
    fn is_held_take(&self, ctx: u64) -> bool
        ensures held { result ≡ is_held_take ctx self.now }
        ensures room { result ≡ false → lacks_take ctx self.now ≡ false }
    {
        self.rx.is_draw_due() || self.lacks_take(ctx)
    }

    /// Receives the message claimed under the context, where its completion has room if it is whole.
    pub(crate) fn take_aside(&mut self, buf: Buf, ctx: u64) -> Result<(), Refused>
        requires { is_some (claim_under ctx self.old.rx.rx) ≡ true }
        ensures ok { OnOk result ((is_held_take ctx self.old ≡ false) × (self.new ≡ taken_by buf ctx self.old)) }
        ensures err { IfErr result (λ r. (r.buf ≡ buf) × (r.why ≡ Again (CqFull self.old.cq.size)) × (is_held_take ctx self.old ≡ true)) }
        ensures stays { OnErr result (self.new ≡ self.old) }
    {
        if self.is_held_take(ctx) {
            let why = self.held();
            return Err(Refused { why, buf });
        }
        self.give_aside(buf, ctx);
        Ok(())
    }

    /// A receive of a claimed message that is not refused.
    fn give_aside(&mut self, buf: Buf, ctx: u64)
        requires claimed { is_some (claim_under ctx self.old.rx.rx) ≡ true }
        requires room { lacks_take ctx self.old ≡ false }
        ensures { self.new ≡ taken_by buf ctx self.old }
    {
        self.rx.known();
        self.tx.known();
        let about = Snapshot::of(&self.calls);
        let posted = self
            .rx
            .take::<Snapshot<CallRecord>, ThisCall>(&about, buf, ctx);
        call(&mut self.calls);
        if let Posted::Whole(completed) = posted {
            let Core {
                tx,
                cq,
                counters,
                alloc,
                ..
            } = self;
            let due = completed.head.ack.at_match();
            hand_over::<Snapshot<CallRecord>, ThisCall>(
                *alloc, cq, counters, tx, &about, due, completed,
            );
        }
    }

    /// Drops the message claimed under the context, where the completion has room.
    pub(crate) fn drop_aside(&mut self, ctx: u64) -> Result<(), Fault>
        ensures ok { OnOk result ((is_held 1 self.old ≡ false) × (self.new ≡ dropped_by ctx self.old)) }
        ensures err { IfErr result (λ why. (why ≡ Again (CqFull self.old.cq.size)) × (is_held 1 self.old ≡ true)) }
        ensures stays { OnErr result (self.new ≡ self.old) }
    {
        if self.is_held(1) {
            return Err(self.held());
        }
        self.let_fall(ctx);
        Ok(())
    }

    /// A drop that is not refused.
    fn let_fall(&mut self, ctx: u64)
        requires { IsTrue (has_room 1 self.old.cq) }
        ensures { self.new ≡ dropped_by ctx self.old }
    {
        self.rx.known();
        self.tx.known();
        let about = Snapshot::of(&self.calls);
        let met = self.rx.drop_claimed(ctx);
        call(&mut self.calls);
        self.cq
            .write::<Snapshot<CallRecord>, ThisCall>(&about, told(PeekHow::Discard, ctx, &met));
        part(self.alloc, &mut self.tx, &met);
    }
}
