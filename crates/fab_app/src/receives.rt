//! Receives, looks at unexpected messages, and cancels (fi_msg(3), fi_tagged(3), fi_endpoint(3)).
//!
//! `source` is the index under which the sender stands in the address vector. It counts where directed receives are granted
//! (FI_DIRECTED_RECV): that is where the hints ask for no capability at all, or for `Cap::DirectedRecv` among others. Where they are
//! not granted it is ignored, and any sender matches.
//!
//! A buffer moves in with the call, and comes back in the completion, in the error or in the refusal. It stays with the
//! endpoint until then, and is dropped with it.
//!
//! A call is refused by the first of these that applies: `NotSupported` where a capability was not granted; `MsgSize` where the
//! buffer has more than `Info.message` bytes; `Invalid` where no address stands at index `source`, if it counts, where `least` is 0
//! or above the buffer's length, or where a message is claimed under the context already; `NoEntry` where nothing is claimed under
//! the context, or nothing is there to be cancelled; `Again(CqFull)` where the completion queue has no room for the entry that the
//! call would write, or for those that have to come before it, of messages for a buffer for many; `Again(PostedFull)` where
//! `Info.rx` receives are posted. A refused call does nothing of what it was asked for. Before it was refused it may have put
//! messages that were due into buffers for many.
ghost use Rattle.std.specs.Prelude.{◌≡◌, Some, None, true, false, OnOk, IfErr, IfSome, IfNone};
ghost use Rattle.fab_base.specs.declared.entries.PeekHow.TheVariants.{Peek, Claim, Discard};
ghost use Rattle.fab_model.specs.Calls.{TakeClaimed, DropClaimed, Cancel, CancelFirst, Look};
ghost use Rattle.fab_face.specs.Answers.{receive_call, Lends, LendsNone};
ghost use Rattle.fab_app.specs.Cleared.{is_log_full};
ghost use Rattle.fab_app.specs.Late.{ReceivesLate, ReceivesLateNot};

use crate::endpoint::{Calls, Endpoint};
use crate::receiving::{Ask, Seek};
use fab_base::{Buf, Fault, PeekHow, Refused};

impl<E: Calls + Drop> Endpoint<E> {
    /// Posts a receive for an untagged message, or takes the first unexpected one that matches (fi_recv). The source is
    /// ignored unless FI_DIRECTED_RECV is granted.
    pub fn recv(&mut self, source: Option<u32>, buf: Buf, ctx: u64) -> Result<(), Refused>
        ensures ok { OnOk result (ReceivesLate (receive_call false source 0 0 buf None ctx) (E.seen self.old) (E.seen self.new)) }
        ensures err { IfErr result (λ r. (r.buf ≡ buf) × ReceivesLateNot (receive_call false source 0 0 buf None ctx) (E.seen self.old) (E.seen self.new) r.why) }
        ensures never { IfErr result (λ r. is_log_full r.why ≡ false) }
    {
        self.ask_on(Ask::Plain(source), ctx, buf)
    }

    /// Posts a receive for a tagged message, or takes the first unexpected one that matches (fi_trecv). Tags are compared in
    /// the bits where `ignore` is 0. The source is ignored unless FI_DIRECTED_RECV is granted.
    pub fn trecv(
        &mut self,
        source: Option<u32>,
        tag: u64,
        ignore: u64,
        buf: Buf,
        ctx: u64,
    ) -> Result<(), Refused>
        ensures ok { OnOk result (ReceivesLate (receive_call true source tag ignore buf None ctx) (E.seen self.old) (E.seen self.new)) }
        ensures err { IfErr result (λ r. (r.buf ≡ buf) × ReceivesLateNot (receive_call true source tag ignore buf None ctx) (E.seen self.old) (E.seen self.new) r.why) }
        ensures never { IfErr result (λ r. is_log_full r.why ≡ false) }
    {
        self.ask_on(Ask::Tagged(source, tag, ignore), ctx, buf)
    }

    /// Posts a buffer for many untagged messages, until fewer than `least` bytes are free (FI_MULTI_RECV). Each message is
    /// told as `Entry::Part`, and the buffer comes back in `Entry::Released`. The source is ignored unless FI_DIRECTED_RECV
    /// is granted.
    pub fn recv_multi(
        &mut self,
        source: Option<u32>,
        buf: Buf,
        least: u32,
        ctx: u64,
    ) -> Result<(), Refused>
        ensures ok { OnOk result (ReceivesLate (receive_call false source 0 0 buf (Some least) ctx) (E.seen self.old) (E.seen self.new)) }
        ensures err { IfErr result (λ r. (r.buf ≡ buf) × ReceivesLateNot (receive_call false source 0 0 buf (Some least) ctx) (E.seen self.old) (E.seen self.new) r.why) }
        ensures never { IfErr result (λ r. is_log_full r.why ≡ false) }
    {
        self.ask_on(Ask::Multi(source, least), ctx, buf)
    }

    /// Lends bytes of the oldest multi-receive of this context whose buffer has not come back, where `Entry::Part` said that
    /// a message lies. `None` exactly where there is no such multi-receive, or where the bytes would end behind its buffer.
    pub fn multi_bytes(&self, ctx: u64, at: u32, len: u32) -> Option<&[u8]>
        ensures some { IfSome result (λ bytes. Lends (E.seen self.now).held ctx at len bytes.now) }
        ensures none { IfNone result (LendsNone (E.seen self.now).held ctx at len) }
    {
        self.inner.multi_bytes(ctx, at, len)
    }

    /// Cancels the first posted receive of the context into which nothing is under way (fi_cancel). Its buffer comes back
    /// in the error entry, of the kind `ErrKind::Canceled`. `NoEntry` where there is none.
    pub fn cancel(&mut self, ctx: u64) -> Result<(), Fault>
        ensures ok { OnOk result (ReceivesLate (Cancel ctx) (E.seen self.old) (E.seen self.new)) }
        ensures err { IfErr result (λ why. ReceivesLateNot (Cancel ctx) (E.seen self.old) (E.seen self.new) why) }
        ensures never { IfErr result (λ why. is_log_full why ≡ false) }
    {
        self.seek_on(Seek::Cancels, ctx)
    }

    /// Cancels the first posted receive into which nothing is under way, whatever its context.
    pub fn cancel_first(&mut self) -> Result<(), Fault>
        ensures ok { OnOk result (ReceivesLate CancelFirst (E.seen self.old) (E.seen self.new)) }
        ensures err { IfErr result (λ why. ReceivesLateNot CancelFirst (E.seen self.old) (E.seen self.new) why) }
        ensures never { IfErr result (λ why. is_log_full why ≡ false) }
    {
        self.seek_on(Seek::CancelsFirst, 0)
    }

    /// Looks for an unexpected tagged message (FI_PEEK). The completion says what was found: `Entry::Peeked`, or an error
    /// of the kind `ErrKind::NoMsg`. The source is ignored unless FI_DIRECTED_RECV is granted.
    pub fn peek(
        &mut self,
        source: Option<u32>,
        tag: u64,
        ignore: u64,
        ctx: u64,
    ) -> Result<(), Fault>
        ensures ok { OnOk result (ReceivesLate (Look Peek source tag ignore ctx) (E.seen self.old) (E.seen self.new)) }
        ensures err { IfErr result (λ why. ReceivesLateNot (Look Peek source tag ignore ctx) (E.seen self.old) (E.seen self.new) why) }
        ensures never { IfErr result (λ why. is_log_full why ≡ false) }
    {
        self.seek_on(Seek::Message(PeekHow::Peek, source, tag, ignore), ctx)
    }

    /// Sets an unexpected tagged message aside under the context (FI_PEEK with FI_CLAIM), for `take` or `drop_claimed`. The
    /// completion is that of `peek`. The source is ignored unless FI_DIRECTED_RECV is granted.
    pub fn claim(
        &mut self,
        source: Option<u32>,
        tag: u64,
        ignore: u64,
        ctx: u64,
    ) -> Result<(), Fault>
        ensures ok { OnOk result (ReceivesLate (Look Claim source tag ignore ctx) (E.seen self.old) (E.seen self.new)) }
        ensures err { IfErr result (λ why. ReceivesLateNot (Look Claim source tag ignore ctx) (E.seen self.old) (E.seen self.new) why) }
        ensures never { IfErr result (λ why. is_log_full why ≡ false) }
    {
        self.seek_on(Seek::Message(PeekHow::Claim, source, tag, ignore), ctx)
    }

    /// Throws an unexpected tagged message away (FI_PEEK with FI_DISCARD). The completion is that of `peek`. The source is
    /// ignored unless FI_DIRECTED_RECV is granted.
    pub fn discard(
        &mut self,
        source: Option<u32>,
        tag: u64,
        ignore: u64,
        ctx: u64,
    ) -> Result<(), Fault>
        ensures ok { OnOk result (ReceivesLate (Look Discard source tag ignore ctx) (E.seen self.old) (E.seen self.new)) }
        ensures err { IfErr result (λ why. ReceivesLateNot (Look Discard source tag ignore ctx) (E.seen self.old) (E.seen self.new) why) }
        ensures never { IfErr result (λ why. is_log_full why ≡ false) }
    {
        self.seek_on(Seek::Message(PeekHow::Discard, source, tag, ignore), ctx)
    }

    /// Receives the message that was claimed under the context (FI_CLAIM).
    pub fn take(&mut self, buf: Buf, ctx: u64) -> Result<(), Refused>
        ensures ok { OnOk result (ReceivesLate (TakeClaimed buf ctx) (E.seen self.old) (E.seen self.new)) }
        ensures err { IfErr result (λ r. (r.buf ≡ buf) × ReceivesLateNot (TakeClaimed buf ctx) (E.seen self.old) (E.seen self.new) r.why) }
        ensures never { IfErr result (λ r. is_log_full r.why ≡ false) }
    {
        self.ask_on(Ask::Claimed, ctx, buf)
    }

    /// Throws the message away that was claimed under the context (FI_CLAIM with FI_DISCARD).
    pub fn drop_claimed(&mut self, ctx: u64) -> Result<(), Fault>
        ensures ok { OnOk result (ReceivesLate (DropClaimed ctx) (E.seen self.old) (E.seen self.new)) }
        ensures err { IfErr result (λ why. ReceivesLateNot (DropClaimed ctx) (E.seen self.old) (E.seen self.new) why) }
        ensures never { IfErr result (λ why. is_log_full why ≡ false) }
    {
        self.seek_on(Seek::DropsClaimed, ctx)
    }
}
