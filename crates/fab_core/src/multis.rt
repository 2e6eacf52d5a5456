//! Multi-receives (FI_MULTI_RECV of fi_msg(3)) are judged and posted, and their buffers lent.
ghost use Rattle.std.specs.Prelude.{◌≡◌, ◌<◌, ◌^◌, length, Some, None, IfErr, IfNone, IfSome, OnErr, OnOk};
ghost use Rattle.fab_face.specs.Answers.{multi_of};
ghost use Rattle.fab_core.specs.Parts.{held_of, state_of};
ghost use Rattle.fab_core.specs.Doing.{lasting_post};
ghost use Rattle.fab_settling.specs.Orders.{sharing_of};
ghost use Rattle.fab_core.specs.Multis.{HasBuffer, IsShared, passing_multi};

use crate::parts::Core;
use fab_base::{Buf, Busy, Fault, Refused};
use fab_face::multis::MultiAsk;
use fab_match::Matcher;
use fab_settling::calls::{CallRecord, ThisCall, call};
use fab_settling::places::Place;
use fab_settling::receives::least_is_wrong;
use std::snapshot::Snapshot;

impl<M: Matcher> Core<M> {
    /// Why a multi-receive is refused for a reason that does not pass.
    pub(crate) fn share_fault(&self, ask: &MultiAsk, buf: &Buf) -> Option<Fault>
        ensures { result ≡ lasting_post (state_of self.now) (sharing_of ask.now buf.now) }
    {
        if !self.may_receive(false) {
            return Some(Fault::NotSupported);
        }
        if buf.as_slice().len() > self.most_message as usize {
            return Some(Fault::MsgSize);
        }
        if !self.knows(ask.source) || least_is_wrong(ask.least, buf) {
            return Some(Fault::Invalid);
        }
        None
    }

    /// Why a multi-receive is refused now, that may pass later.
    fn share_again(&self) -> Option<Fault>
        ensures { result ≡ passing_multi self.now }
    {
        if self.rx.is_draw_due() {
            return Some(self.held());
        }
        if self.rx.is_full() {
            return Some(Fault::Again(Busy::PostedFull(self.most_rx)));
        }
        None
    }

    /// Posts a multi-receive, whatever has arrived.
    pub(crate) fn share(&mut self, ask: &MultiAsk, buf: Buf) -> Result<(), Refused>
        requires small { length buf < 2 ^ 32 }
        ensures ok { OnOk result ((passing_multi self.old ≡ None) × IsShared ask.now buf self.old self.new) }
        ensures err { IfErr result (λ r. (r.buf ≡ buf) × (passing_multi self.old ≡ Some r.why)) }
        ensures stays { OnErr result (self.new ≡ self.old) }
    {
        if let Some(why) = self.share_again() {
            return Err(Refused { why, buf });
        }
        self.open(ask, buf);
        Ok(())
    }

    /// A multi-receive that is not refused.
    fn open(&mut self, ask: &MultiAsk, buf: Buf)
        requires small { length buf < 2 ^ 32 }
        requires room { passing_multi self.old ≡ None }
        ensures { IsShared ask.now buf self.old self.new }
    {
        self.rx.known();
        self.rx.opened();
        self.cq.known();
        let want = self.want(false, ask.source, 0, 0);
        let about = Snapshot::of(&self.calls);
        let id = self
            .rx
            .post_multi::<Snapshot<CallRecord>, ThisCall>(&about, want, buf, ask.least, ask.ctx);
        self.rx.known();
        self.rx.opened();
        self.multis.enlist(&self.calls, id, ask.ctx);
        call(&mut self.calls);
    }

    /// The bytes of the oldest multi-receive of this context whose end was not read: its receive has them, or the
    /// unread entry that gives its buffer back.
    pub(crate) fn multi_buffer(&self, ctx: u64) -> Option<&[u8]>
        ensures some { IfSome result (λ bytes. HasBuffer (held_of self.now) ctx bytes.now) }
        ensures none { IfNone result (multi_of (held_of self.now) ctx ≡ None) }
    {
        let Some(place) = self.multis.place_of(ctx) else {
            return None;
        };
        match place {
            Place::Open(id) => self.rx.buffer_of(id),
            Place::Ended(before) => self.cq.buffer_at(before),
        }
    }
}
