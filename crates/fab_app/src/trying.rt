//! Calls that are made again while they are refused for now. A thread that has other work meanwhile makes the call itself once
//! more.
ghost use Rattle.std.specs.Prelude.{◌≡◌, Some, None, true, false, OnOk, IfErr};
ghost use Rattle.fab_base.specs.declared.items.Kind.TheVariants.{Msg, TagMsg};
ghost use Rattle.fab_model.specs.Calls.{message};
ghost use Rattle.fab_face.specs.Answers.{Sends, SendsNot, receive_call};
ghost use Rattle.fab_app.specs.Cleared.{cleared, is_log_full};
ghost use Rattle.fab_app.specs.Late.{asked};
ghost use Rattle.fab_app.specs.Trying.{again_of, sent_by, ReceivesWithin, ReceivesWithinNot, SendsLate, SendsLateNot, TriesBusy};
ghost use Rattle.fab_app.specs.Within.{AsksWithin, AsksWithinNot, SendsWithin, SendsWithinNot};

use crate::endpoint::{Calls, Endpoint};
use crate::moving::BUDGET;
use crate::receiving::{Ask, Tried};
use fab_base::{Buf, Fault, Flags, Refused};
use std::thread;

/// The buffer of a refusal that passes (FI_EAGAIN), to be used again. The fault of another one, whose buffer is dropped.
pub fn again(refused: Refused) -> Result<Buf, Fault>
    ensures { result ≡ again_of refused.why refused.buf }
{
    match refused.why {
        Fault::Again(_) => Ok(refused.buf),
        why => Err(why),
    }
}

/// A message as it is asked for, without its bytes: untagged where there is no tag.
#[derive(Clone, Copy, Drop)]
pub struct Message {
    pub dest: u32,
    pub tag: Option<u64>,
    pub imm: Option<u64>,
    pub ctx: u64,
    pub flags: Flags,
}

/// The answer of one try.
pub(crate) fn one_try(answer: Result<(), Refused>) -> Tried
    ensures { TriesBusy answer result }
{
    match answer {
        Err(
            Refused {
                why: Fault::Again(_),
                buf,
            },
        ) => Tried::Late(buf),
        answer => Tried::Answered(answer),
    }
}

impl<E: Calls + Drop> Endpoint<E> {
    /// Makes the call once.
    pub(crate) fn send_once(&mut self, message: Message, buf: Buf) -> Result<(), Refused>
        ensures ok { OnOk result (Sends E.fixed (sent_by message buf) message.dest (cleared (E.seen self.old)) (E.seen self.new)) }
        ensures err { IfErr result (λ r. (r.buf ≡ buf) × SendsNot E.fixed (sent_by message buf) (cleared (E.seen self.old)) (E.seen self.new) r.why) }
        ensures never { IfErr result (λ r. is_log_full r.why ≡ false) }
    {
        let Message {
            dest,
            tag,
            imm,
            ctx,
            flags,
        } = message;
        match tag {
            None => self.send(dest, buf, imm, ctx, flags),
            Some(tag) => self.tsend(dest, tag, buf, imm, ctx, flags),
        }
    }

    /// Makes the call until it is not refused for now, at most so many times and once more.
    fn send_on(&mut self, times: u32, message: Message, buf: Buf) -> Result<(), Refused>
        ensures ok { OnOk result (SendsLate E.fixed (sent_by message buf) message.dest (E.seen self.old) (E.seen self.new)) }
        ensures err { IfErr result (λ r. (r.buf ≡ buf) × SendsLateNot E.fixed (sent_by message buf) (E.seen self.old) (E.seen self.new) r.why) }
        ensures never { IfErr result (λ r. is_log_full r.why ≡ false) }
        ensures tries { OnOk result (SendsWithin E.fixed BUDGET times (sent_by message buf) message.dest (E.seen self.old) (E.seen self.new)) }
        ensures gives_up { IfErr result (λ r. SendsWithinNot E.fixed BUDGET times (sent_by message buf) (E.seen self.old) (E.seen self.new) r.why) }
    {
        let mut buf = buf;
        'times: for _time in 0..times {
            match one_try(self.send_once(message, buf)) {
                Tried::Answered(answer) => return answer,
                Tried::Late(back) => buf = back,
            }
            let _ = self.progress(BUDGET);
            thread::yield_now();
        }
        self.send_once(message, buf)
    }

    /// `send`, again after progress where it is refused for now, at most `times` times, and other threads run between. Where the
    /// completion queue is full it has to be read first. A refusal hands the buffer back. That progress lacked memory is not told.
    pub fn send_within(
        &mut self,
        times: u32,
        dest: u32,
        buf: Buf,
        imm: Option<u64>,
        ctx: u64,
        flags: Flags,
    ) -> Result<(), Refused>
        ensures ok { OnOk result (SendsLate E.fixed (message Msg (Some ctx) dest 0 buf imm flags.level flags.completion flags.fence) dest (E.seen self.old) (E.seen self.new)) }
        ensures err { IfErr result (λ r. (r.buf ≡ buf) × SendsLateNot E.fixed (message Msg (Some ctx) dest 0 buf imm flags.level flags.completion flags.fence) (E.seen self.old) (E.seen self.new) r.why) }
        ensures never { IfErr result (λ r. is_log_full r.why ≡ false) }
        ensures tries { OnOk result (SendsWithin E.fixed BUDGET times (message Msg (Some ctx) dest 0 buf imm flags.level flags.completion flags.fence) dest (E.seen self.old) (E.seen self.new)) }
        ensures gives_up { IfErr result (λ r. SendsWithinNot E.fixed BUDGET times (message Msg (Some ctx) dest 0 buf imm flags.level flags.completion flags.fence) (E.seen self.old) (E.seen self.new) r.why) }
    {
        let message = Message {
            dest,
            tag: None,
            imm,
            ctx,
            flags,
        };
        self.send_on(times, message, buf)
    }

    /// `tsend`, again after progress where it is refused for now, as `send_within`.
    pub fn tsend_within(
        &mut self,
        times: u32,
        dest: u32,
        tag: u64,
        buf: Buf,
        imm: Option<u64>,
        ctx: u64,
        flags: Flags,
    ) -> Result<(), Refused>
        ensures ok { OnOk result (SendsLate E.fixed (message TagMsg (Some ctx) dest tag buf imm flags.level flags.completion flags.fence) dest (E.seen self.old) (E.seen self.new)) }
        ensures err { IfErr result (λ r. (r.buf ≡ buf) × SendsLateNot E.fixed (message TagMsg (Some ctx) dest tag buf imm flags.level flags.completion flags.fence) (E.seen self.old) (E.seen self.new) r.why) }
        ensures never { IfErr result (λ r. is_log_full r.why ≡ false) }
        ensures tries { OnOk result (SendsWithin E.fixed BUDGET times (message TagMsg (Some ctx) dest tag buf imm flags.level flags.completion flags.fence) dest (E.seen self.old) (E.seen self.new)) }
        ensures gives_up { IfErr result (λ r. SendsWithinNot E.fixed BUDGET times (message TagMsg (Some ctx) dest tag buf imm flags.level flags.completion flags.fence) (E.seen self.old) (E.seen self.new) r.why) }
    {
        let message = Message {
            dest,
            tag: Some(tag),
            imm,
            ctx,
            flags,
        };
        self.send_on(times, message, buf)
    }

    /// Makes the receive call until it is not refused for now, at most so many times and once more.
    fn ask_within(&mut self, times: u32, ask: Ask, ctx: u64, buf: Buf) -> Result<(), Refused>
        ensures ok { OnOk result (ReceivesWithin (asked ask ctx buf) (E.seen self.old) (E.seen self.new)) }
        ensures err { IfErr result (λ r. (r.buf ≡ buf) × ReceivesWithinNot (asked ask ctx buf) (E.seen self.old) (E.seen self.new) r.why) }
        ensures never { IfErr result (λ r. is_log_full r.why ≡ false) }
        ensures tries { OnOk result (AsksWithin E.fixed BUDGET times (asked ask ctx buf) (E.seen self.old) (E.seen self.new)) }
        ensures gives_up { IfErr result (λ r. AsksWithinNot E.fixed BUDGET times (asked ask ctx buf) (E.seen self.old) (E.seen self.new) r.why) }
    {
        let mut buf = buf;
        'times: for _time in 0..times {
            match one_try(self.ask_on(ask, ctx, buf)) {
                Tried::Answered(answer) => return answer,
                Tried::Late(back) => buf = back,
            }
            let _ = self.progress(BUDGET);
            thread::yield_now();
        }
        self.ask_on(ask, ctx, buf)
    }

    /// `recv`, again after progress where it is refused for now, at most `times` times, and other threads run between: a
    /// message that comes for a posted receive makes room for one more. Where the completion queue is full it has to be
    /// read first. A refusal hands the buffer back. That progress lacked memory is not told.
    pub fn recv_within(
        &mut self,
        times: u32,
        source: Option<u32>,
        buf: Buf,
        ctx: u64,
    ) -> Result<(), Refused>
        ensures ok { OnOk result (ReceivesWithin (receive_call false source 0 0 buf None ctx) (E.seen self.old) (E.seen self.new)) }
        ensures err { IfErr result (λ r. (r.buf ≡ buf) × ReceivesWithinNot (receive_call false source 0 0 buf None ctx) (E.seen self.old) (E.seen self.new) r.why) }
        ensures never { IfErr result (λ r. is_log_full r.why ≡ false) }
        ensures tries { OnOk result (AsksWithin E.fixed BUDGET times (receive_call false source 0 0 buf None ctx) (E.seen self.old) (E.seen self.new)) }
        ensures gives_up { IfErr result (λ r. AsksWithinNot E.fixed BUDGET times (receive_call false source 0 0 buf None ctx) (E.seen self.old) (E.seen self.new) r.why) }
    {
        self.ask_within(times, Ask::Plain(source), ctx, buf)
    }

    /// `trecv`, again after progress where it is refused for now, as `recv_within`.
    pub fn trecv_within(
        &mut self,
        times: u32,
        source: Option<u32>,
        tag: u64,
        ignore: u64,
        buf: Buf,
        ctx: u64,
    ) -> Result<(), Refused>
        ensures ok { OnOk result (ReceivesWithin (receive_call true source tag ignore buf None ctx) (E.seen self.old) (E.seen self.new)) }
        ensures err { IfErr result (λ r. (r.buf ≡ buf) × ReceivesWithinNot (receive_call true source tag ignore buf None ctx) (E.seen self.old) (E.seen self.new) r.why) }
        ensures never { IfErr result (λ r. is_log_full r.why ≡ false) }
        ensures tries { OnOk result (AsksWithin E.fixed BUDGET times (receive_call true source tag ignore buf None ctx) (E.seen self.old) (E.seen self.new)) }
        ensures gives_up { IfErr result (λ r. AsksWithinNot E.fixed BUDGET times (receive_call true source tag ignore buf None ctx) (E.seen self.old) (E.seen self.new) r.why) }
    {
        self.ask_within(times, Ask::Tagged(source, tag, ignore), ctx, buf)
    }
}
