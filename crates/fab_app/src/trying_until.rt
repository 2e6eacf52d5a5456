//! Calls that are made again until a moment.
//!
//! They are made again while they are refused for now, as those that count (`send_within` and its kin). The clock is read only
//! where a call was refused for now, and the call is made once more behind the reading that the moment has passed. None sleeps.
ghost use Rattle.std.specs.Prelude.{◌≡◌, None, true, false, Some, OnOk, IfErr};
ghost use Rattle.fab_base.specs.declared.items.Kind.TheVariants.{Msg, TagMsg};
ghost use Rattle.fab_model.specs.Calls.{message};
ghost use Rattle.fab_face.specs.Answers.{receive_call};
ghost use Rattle.fab_app.specs.Cleared.{is_log_full};
ghost use Rattle.fab_app.specs.Late.{asked};
ghost use Rattle.fab_app.specs.Progresses.{Progresses};
ghost use Rattle.fab_app.specs.Trying.{sent_by, ReceivesWithin, ReceivesWithinNot, SendsLate, SendsLateNot};
ghost use Rattle.fab_app.specs.Until.{timed};
ghost use Rattle.fab_app.specs.TryingUntil.{AskTells, AsksUntil, AsksUntilNot, IfRefused, SendTells, SendsUntil, SendsUntilNot, TellsAs};

use crate::clock::{Clock, Moment, has_passed};
use crate::endpoint::{Calls, Endpoint};
use crate::moving::BUDGET;
use crate::receiving::{Ask, Tried};
use crate::trying::{Message, one_try};
use fab_base::{Buf, Fault, Flags, Refused};
use std::sync::Wait;
use std::thread;

/// Why a call that is tried again by the clock was not accepted.
#[derive(Clone, Copy, Debug, Drop, Eq, PartialEq)]
pub enum TryFault {
    /// The last try was refused so: for now (`Fault::Again`) only where the moment has passed.
    Refused(Fault),
    /// The last try was refused for now, and the clock can't be read.
    ClockFailed,
}

/// A call that was not accepted hands the buffer back, equal to what came.
#[derive(Drop)]
pub struct NotAccepted {
    pub why: TryFault,
    pub buf: Buf,
}

/// The same answer, with the fault of a call that is tried again by the clock.
fn told(answer: Result<(), Refused>) -> Result<(), NotAccepted>
    ensures { TellsAs answer result }
{
    match answer {
        Ok(()) => Ok(()),
        Err(Refused { why, buf }) => Err(NotAccepted {
            why: TryFault::Refused(why),
            buf,
        }),
    }
}

/// The buffer back, where the clock can't be read.
fn clock_failed(buf: Buf) -> NotAccepted
    ensures kept { result.buf ≡ buf }
    ensures why { result.why ≡ TryFault.ClockFailed }
{
    NotAccepted {
        why: TryFault::ClockFailed,
        buf,
    }
}

impl<E: Calls + Drop> Endpoint<E> {
    /// Makes the call until it is not refused for now, and once more behind the moment.
    fn send_on_until<R: Wait, C: Clock>(
        &mut self,
        rt: &R,
        clock: &mut C,
        moment: Moment,
        message: Message,
        buf: Buf,
    ) -> Result<(), NotAccepted>
        ensures { SendTells E.fixed BUDGET moment.nanos (sent_by message buf) message.dest buf (timed (C.told clock.old) (E.seen self.old)) (timed (C.told clock.new) (E.seen self.new)) result }
    {
        let mut buf = buf;
        'turns: for _turn in rt.forever() {
            match one_try(self.send_once(message, buf)) {
                Tried::Answered(answer) => return told(answer),
                Tried::Late(back) => buf = back,
            }
            let _ = self.progress(BUDGET);
            let Ok(late) = has_passed(clock, moment) else {
                return Err(clock_failed(buf));
            };
            if late {
                return told(self.send_once(message, buf));
            }
            thread::yield_now();
        }
        unreachable!()
    }

    /// `send`, again after progress where it is refused for now, until the moment has passed, and other threads run between. Where
    /// the completion queue is full it has to be read first. That progress lacked memory is not told.
    pub fn send_until<R: Wait, C: Clock>(
        &mut self,
        rt: &R,
        clock: &mut C,
        moment: Moment,
        dest: u32,
        buf: Buf,
        imm: Option<u64>,
        ctx: u64,
        flags: Flags,
    ) -> Result<(), NotAccepted>
        ensures ok { OnOk result (SendsLate E.fixed (message Msg (Some ctx) dest 0 buf imm flags.level flags.completion flags.fence) dest (E.seen self.old) (E.seen self.new)) }
        ensures kept { IfErr result (λ r. r.buf ≡ buf) }
        ensures err { IfErr result (λ r. IfRefused r.why (SendsLateNot E.fixed (message Msg (Some ctx) dest 0 buf imm flags.level flags.completion flags.fence) (E.seen self.old) (E.seen self.new))) }
        ensures never { IfErr result (λ r. IfRefused r.why (λ why. is_log_full why ≡ false)) }
        ensures clock_failed { IfErr result (λ r. r.why ≡ TryFault.ClockFailed → Progresses (E.seen self.old) (E.seen self.new)) }
        ensures until { OnOk result (SendsUntil E.fixed BUDGET moment.nanos (message Msg (Some ctx) dest 0 buf imm flags.level flags.completion flags.fence) dest (timed (C.told clock.old) (E.seen self.old)) (timed (C.told clock.new) (E.seen self.new))) }
        ensures gives_up { IfErr result (λ r. IfRefused r.why (SendsUntilNot E.fixed BUDGET moment.nanos (message Msg (Some ctx) dest 0 buf imm flags.level flags.completion flags.fence) (timed (C.told clock.old) (E.seen self.old)) (timed (C.told clock.new) (E.seen self.new)))) }
    {
        let message = Message {
            dest,
            tag: None,
            imm,
            ctx,
            flags,
        };
        self.send_on_until(rt, clock, moment, message, buf)
    }

    /// `tsend`, again after progress where it is refused for now, as `send_until`.
    pub fn tsend_until<R: Wait, C: Clock>(
        &mut self,
        rt: &R,
        clock: &mut C,
        moment: Moment,
        dest: u32,
        tag: u64,
        buf: Buf,
        imm: Option<u64>,
        ctx: u64,
        flags: Flags,
    ) -> Result<(), NotAccepted>
        ensures ok { OnOk result (SendsLate E.fixed (message TagMsg (Some ctx) dest tag buf imm flags.level flags.completion flags.fence) dest (E.seen self.old) (E.seen self.new)) }
        ensures kept { IfErr result (λ r. r.buf ≡ buf) }
        ensures err { IfErr result (λ r. IfRefused r.why (SendsLateNot E.fixed (message TagMsg (Some ctx) dest tag buf imm flags.level flags.completion flags.fence) (E.seen self.old) (E.seen self.new))) }
        ensures never { IfErr result (λ r. IfRefused r.why (λ why. is_log_full why ≡ false)) }
        ensures clock_failed { IfErr result (λ r. r.why ≡ TryFault.ClockFailed → Progresses (E.seen self.old) (E.seen self.new)) }
        ensures until { OnOk result (SendsUntil E.fixed BUDGET moment.nanos (message TagMsg (Some ctx) dest tag buf imm flags.level flags.completion flags.fence) dest (timed (C.told clock.old) (E.seen self.old)) (timed (C.told clock.new) (E.seen self.new))) }
        ensures gives_up { IfErr result (λ r. IfRefused r.why (SendsUntilNot E.fixed BUDGET moment.nanos (message TagMsg (Some ctx) dest tag buf imm flags.level flags.completion flags.fence) (timed (C.told clock.old) (E.seen self.old)) (timed (C.told clock.new) (E.seen self.new)))) }
    {
        let message = Message {
            dest,
            tag: Some(tag),
            imm,
            ctx,
            flags,
        };
        self.send_on_until(rt, clock, moment, message, buf)
    }

    /// Makes the receive call until it is not refused for now, and once more behind the moment.
    fn ask_until<R: Wait, C: Clock>(
        &mut self,
        rt: &R,
        clock: &mut C,
        moment: Moment,
        ask: Ask,
        ctx: u64,
        buf: Buf,
    ) -> Result<(), NotAccepted>
        ensures { AskTells E.fixed BUDGET moment.nanos (asked ask ctx buf) buf (timed (C.told clock.old) (E.seen self.old)) (timed (C.told clock.new) (E.seen self.new)) result }
    {
        let mut buf = buf;
        'turns: for _turn in rt.forever() {
            match one_try(self.ask_on(ask, ctx, buf)) {
                Tried::Answered(answer) => return told(answer),
                Tried::Late(back) => buf = back,
            }
            let _ = self.progress(BUDGET);
            let Ok(late) = has_passed(clock, moment) else {
                return Err(clock_failed(buf));
            };
            if late {
                return told(self.ask_on(ask, ctx, buf));
            }
            thread::yield_now();
        }
        unreachable!()
    }

    /// `recv`, again after progress where it is refused for now, until the moment has passed, and other threads run between: a
    /// message that comes for a posted receive makes room for one more. Where the completion queue is full it has to be read
    /// first. That progress lacked memory is not told.
    pub fn recv_until<R: Wait, C: Clock>(
        &mut self,
        rt: &R,
        clock: &mut C,
        moment: Moment,
        source: Option<u32>,
        buf: Buf,
        ctx: u64,
    ) -> Result<(), NotAccepted>
        ensures ok { OnOk result (ReceivesWithin (receive_call false source 0 0 buf None ctx) (E.seen self.old) (E.seen self.new)) }
        ensures kept { IfErr result (λ r. r.buf ≡ buf) }
        ensures err { IfErr result (λ r. IfRefused r.why (ReceivesWithinNot (receive_call false source 0 0 buf None ctx) (E.seen self.old) (E.seen self.new))) }
        ensures never { IfErr result (λ r. IfRefused r.why (λ why. is_log_full why ≡ false)) }
        ensures clock_failed { IfErr result (λ r. r.why ≡ TryFault.ClockFailed → Progresses (E.seen self.old) (E.seen self.new)) }
        ensures until { OnOk result (AsksUntil E.fixed BUDGET moment.nanos (receive_call false source 0 0 buf None ctx) (timed (C.told clock.old) (E.seen self.old)) (timed (C.told clock.new) (E.seen self.new))) }
        ensures gives_up { IfErr result (λ r. IfRefused r.why (AsksUntilNot E.fixed BUDGET moment.nanos (receive_call false source 0 0 buf None ctx) (timed (C.told clock.old) (E.seen self.old)) (timed (C.told clock.new) (E.seen self.new)))) }
    {
        self.ask_until(rt, clock, moment, Ask::Plain(source), ctx, buf)
    }

    /// `trecv`, again after progress where it is refused for now, as `recv_until`.
    pub fn trecv_until<R: Wait, C: Clock>(
        &mut self,
        rt: &R,
        clock: &mut C,
        moment: Moment,
        source: Option<u32>,
        tag: u64,
        ignore: u64,
        buf: Buf,
        ctx: u64,
    ) -> Result<(), NotAccepted>
        ensures ok { OnOk result (ReceivesWithin (receive_call true source tag ignore buf None ctx) (E.seen self.old) (E.seen self.new)) }
        ensures kept { IfErr result (λ r. r.buf ≡ buf) }
        ensures err { IfErr result (λ r. IfRefused r.why (ReceivesWithinNot (receive_call true source tag ignore buf None ctx) (E.seen self.old) (E.seen self.new))) }
        ensures never { IfErr result (λ r. IfRefused r.why (λ why. is_log_full why ≡ false)) }
        ensures clock_failed { IfErr result (λ r. r.why ≡ TryFault.ClockFailed → Progresses (E.seen self.old) (E.seen self.new)) }
        ensures until { OnOk result (AsksUntil E.fixed BUDGET moment.nanos (receive_call true source tag ignore buf None ctx) (timed (C.told clock.old) (E.seen self.old)) (timed (C.told clock.new) (E.seen self.new))) }
        ensures gives_up { IfErr result (λ r. IfRefused r.why (AsksUntilNot E.fixed BUDGET moment.nanos (receive_call true source tag ignore buf None ctx) (timed (C.told clock.old) (E.seen self.old)) (timed (C.told clock.new) (E.seen self.new)))) }
    {
        let ask = Ask::Tagged(source, tag, ignore);
        self.ask_until(rt, clock, moment, ask, ctx, buf)
    }
}
