//! Looking at the unexpected messages, and what becomes of those claimed (fi_tagged(3)).
ghost use Rattle.std.specs.Prelude.{◌≡◌, OnOk, IfOk, IfSome, find, true, is_some, replicate};
ghost use Rattle.std.specs.Option.{option_map_or};
ghost use Rattle.fab_model.specs.State as machine;
ghost use Rattle.fab_model.specs.State.{fits};
ghost use Rattle.fab_model.specs.Matching.{takes};
ghost use Rattle.fab_model.specs.Calls.{Look, TakeClaimed, DropClaimed, answer, do_call};
ghost use Rattle.fab_model.specs.Receiving.{claim_of, look_at, look, look_fault, take_claimed, drop_claimed, claimed_fault};
ghost use Rattle.fab_checker_machine.specs.Seen.{cq_of, state_of};
ghost use Rattle.fab_checker_machine.specs.Room.{has_room, entries_given};

use crate::receiving::entries_given;
use crate::state::State;
use fab_base::{Buf, ErrKind, Fault, LineResult, NoMemory, PeekHow, Receive, Taken, Want};
use fab_checker_values::entries::plain_error;
use fab_checker_values::matching::first_taken;
use fab_checker_values::receives::peeked;

impl State {
    /// What becomes of the first unexpected message that the want takes.
    fn look_at(&mut self, how: PeekHow, want: &Want, ctx: u64) -> Result<(), NoMemory>
        ensures { OnOk result (IfSome (find (takes want.now) self.old.rx.unexpected.items)
            (λ a. state_of self.new ≡ look_at how want.now ctx a (state_of self.old))) }
    {
        match how {
            PeekHow::Peek => Ok(()),
            PeekHow::Claim => match self.rx.take_unexpected(want) {
                None => Ok(()),
                Some(arrival) => self.rx.claim(ctx, arrival),
            },
            PeekHow::Discard => match self.rx.take_unexpected(want) {
                None => Ok(()),
                Some(arrival) => self.drop_arrival(arrival),
            },
        }
    }

    /// A look at the first unexpected message that the want takes: what it is is written, or that there
    /// is none.
    #[tactic(auto, unfolding(fab_model::specs::Receiving::look))]
    fn look(&mut self, how: PeekHow, want: &Want, ctx: u64) -> Result<(), NoMemory>
        ensures { OnOk result (state_of self.new ≡ look how want.now ctx (state_of self.old)) }
    {
        let call = Some(self.calls);
        self.accept_call()?;
        let Some(arrival) = first_taken(self.rx.unexpected.as_slice(), want) else {
            return self.write(call, plain_error(Some(ctx), ErrKind::NoMsg, None));
        };
        let entry = Taken::Success(peeked(how, ctx, arrival));
        self.write(call, entry)?;
        self.look_at(how, want, ctx)
    }

    /// Why the look is refused, the first reason first.
    #[tactic(auto, unfolding(fab_model::specs::Receiving::look_fault))]
    fn look_fault(&self, how: PeekHow, source: Option<u32>, ctx: u64) -> Option<Fault>
        ensures { (after : machine.State) → fits after.cq ≡ has_room 1 (cq_of self.now.cq) → result ≡ look_fault (state_of self.now) how source ctx after }
    {
        if !self.may_receive(true) {
            return Some(Fault::NotSupported);
        }
        let claims = match how {
            PeekHow::Claim => self.rx.claim_of(ctx).is_some(),
            PeekHow::Peek | PeekHow::Discard => false,
        };
        if !self.source_is_known(source) || claims {
            return Some(Fault::Invalid);
        }
        if self.lacks_room(1) {
            return Some(self.full());
        }
        None
    }

    /// A call of peek, claim or discard.
    #[tactic(auto, unfolding(fab_model::specs::Calls::do_call))]
    pub fn call_look(
        &mut self,
        how: PeekHow,
        source: Option<u32>,
        tag: u64,
        ignore: u64,
        ctx: u64,
    ) -> Result<LineResult, NoMemory>
        ensures { IfOk result (λ answer. (answer, state_of self.new) ≡ do_call (state_of self.old) (Look how source tag ignore ctx)) }
    {
        if let Some(fault) = self.look_fault(how, source, ctx) {
            return Ok(LineResult::Refused(fault));
        }
        let want = self.want_of(true, source, tag, ignore);
        self.look(how, &want, ctx)?;
        Ok(LineResult::Done)
    }

    /// Why the take or the drop is refused, the first reason first; a take has a buffer of `len` bytes.
    #[tactic(auto, unfolding(fab_model::specs::Receiving::claimed_fault))]
    fn claimed_fault(&self, len: u32, ctx: u64, entries: usize) -> Option<Fault>
        ensures { (after : machine.State) → (is_some (claim_of ctx (state_of self.now)) ≡ true → fits after.cq ≡ has_room entries (cq_of self.now.cq))
            → result ≡ claimed_fault (state_of self.now) (replicate len 0) ctx after }
    {
        if !self.may_receive(true) {
            return Some(Fault::NotSupported);
        }
        if len > self.most_message {
            return Some(Fault::MsgSize);
        }
        if self.rx.claim_of(ctx).is_none() {
            return Some(Fault::NoEntry);
        }
        if self.lacks_room(entries) {
            return Some(self.full());
        }
        None
    }

    /// How many entries a take of the message that is claimed under the context writes.
    fn entries_taken(&self, ctx: u64) -> usize
        ensures { result ≡ option_map_or entries_given (claim_of ctx (state_of self.now)) 0 }
    {
        match self.rx.claim_of(ctx) {
            None => 0,
            Some(arrival) => entries_given(arrival),
        }
    }

    /// The receive takes the message that is claimed under the context.
    #[tactic(auto, unfolding(fab_model::specs::Receiving::take_claimed))]
    fn take_claimed(&mut self, len: u32, ctx: u64) -> Result<(), NoMemory>
        ensures { OnOk result (state_of self.new ≡ take_claimed (state_of self.old) (replicate len 0) ctx) }
    {
        let buf = Buf::zeros(self.alloc, len as u64)?;
        let Some(arrival) = self.rx.take_claim(ctx) else {
            return Ok(());
        };
        let receive = Receive {
            call: self.calls,
            want: self.want_of(true, None, 0, 0),
            buf,
            ctx,
            least: None,
            used: 0,
        };
        self.accept_call()?;
        self.give(receive, 0, arrival)
    }

    /// A call of take.
    #[tactic(auto, unfolding(fab_model::specs::Calls::do_call))]
    pub fn call_take(&mut self, len: u32, ctx: u64) -> Result<LineResult, NoMemory>
        ensures { IfOk result (λ answer. (answer, state_of self.new) ≡ do_call (state_of self.old) (TakeClaimed (replicate len 0) ctx)) }
    {
        let entries = self.entries_taken(ctx);
        if let Some(fault) = self.claimed_fault(len, ctx, entries) {
            return Ok(LineResult::Refused(fault));
        }
        self.take_claimed(len, ctx)?;
        Ok(LineResult::Done)
    }

    /// The message that is claimed under the context is dropped.
    #[tactic(auto, unfolding(fab_model::specs::Receiving::drop_claimed))]
    fn drop_claimed(&mut self, ctx: u64) -> Result<(), NoMemory>
        ensures { OnOk result (state_of self.new ≡ drop_claimed (state_of self.old) ctx) }
    {
        let Some(arrival) = self.rx.take_claim(ctx) else {
            return Ok(());
        };
        let call = Some(self.calls);
        self.accept_call()?;
        self.write(
            call,
            Taken::Success(peeked(PeekHow::Discard, ctx, &arrival)),
        )?;
        self.drop_arrival(arrival)
    }

    /// A call of drop_claimed.
    #[tactic(auto, unfolding(fab_model::specs::Calls::do_call))]
    pub fn call_drop(&mut self, ctx: u64) -> Result<LineResult, NoMemory>
        ensures { IfOk result (λ answer. (answer, state_of self.new) ≡ do_call (state_of self.old) (DropClaimed ctx)) }
    {
        if let Some(fault) = self.claimed_fault(0, ctx, 1) {
            return Ok(LineResult::Refused(fault));
        }
        self.drop_claimed(ctx)?;
        Ok(LineResult::Done)
    }
}
