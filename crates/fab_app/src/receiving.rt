//! Receive calls, looks and cancels are made until their draws left them room in the log.
//!
//! A multi-receive that was posted draws the unexpected messages that it matches, a receive call makes the draws that are
//! due first, and each takes a place in the log. Where they filled it, the log is emptied and the call made again; each
//! time fewer messages are unexpected.
ghost use Rattle.std.specs.Prelude.{◌≡◌, false, OnOk, IfErr};
ghost use Rattle.fab_face.specs.Answers.{Receives, ReceivesNot};
ghost use Rattle.fab_app.specs.Cleared.{is_log_full};
ghost use Rattle.fab_app.specs.Late.{asked, sought, is_late, Tries, ReceivesLate, ReceivesLateNot};

use crate::endpoint::{Calls, Endpoint};
use fab_base::{Buf, Busy, Fault, PeekHow, Refused};

/// What a receive asks for, besides its buffer and its context.
#[derive(Clone, Copy, Drop)]
pub enum Ask {
    Plain(Option<u32>),
    Tagged(Option<u32>, u64, u64),
    Multi(Option<u32>, u32),
    Claimed,
}

/// What a call seeks that takes no buffer.
#[derive(Clone, Copy, Drop)]
pub enum Seek {
    Message(PeekHow, Option<u32>, u64, u64),
    DropsClaimed,
    Cancels,
    CancelsFirst,
}

/// What came of one go at a receive call: an answer, or draws filled the log, and the buffer is back.
#[derive(Drop)]
pub enum Tried {
    Answered(Result<(), Refused>),
    Late(Buf),
}

/// The answer of one go.
fn one_go(answer: Result<(), Refused>) -> Tried
    ensures { Tries answer result }
{
    match answer {
        Err(
            Refused {
                why: Fault::Again(Busy::LogFull(_)),
                buf,
            },
        ) => Tried::Late(buf),
        answer => Tried::Answered(answer),
    }
}

fn was_late(answer: &Result<(), Fault>) -> bool
    ensures { result ≡ is_late answer.now }
{
    match answer {
        Err(Fault::Again(Busy::LogFull(_))) => true,
        _ => false,
    }
}

/// Makes the receive call once.
fn ask_once<E: Calls>(endpoint: &mut E, ask: Ask, ctx: u64, buf: Buf) -> Result<(), Refused>
    ensures ok { OnOk result (Receives (asked ask ctx buf) (E.seen endpoint.old) (E.seen endpoint.new)) }
    ensures err { IfErr result (λ r. (r.buf ≡ buf) × ReceivesNot (asked ask ctx buf) (E.seen endpoint.old) (E.seen endpoint.new) r.why) }
{
    match ask {
        Ask::Plain(source) => endpoint.recv(source, buf, ctx),
        Ask::Tagged(source, tag, ignore) => endpoint.trecv(source, tag, ignore, buf, ctx),
        Ask::Multi(source, least) => endpoint.recv_multi(source, buf, least, ctx),
        Ask::Claimed => endpoint.take(buf, ctx),
    }
}

/// Makes the look once.
fn look_once<E: Calls>(
    endpoint: &mut E,
    how: PeekHow,
    source: Option<u32>,
    tag: u64,
    ignore: u64,
    ctx: u64,
) -> Result<(), Fault>
    ensures ok { OnOk result (Receives (sought (Seek.Message how source tag ignore) ctx) (E.seen endpoint.old) (E.seen endpoint.new)) }
    ensures err { IfErr result (λ why. ReceivesNot (sought (Seek.Message how source tag ignore) ctx) (E.seen endpoint.old) (E.seen endpoint.new) why) }
{
    match how {
        PeekHow::Peek => endpoint.peek(source, tag, ignore, ctx),
        PeekHow::Claim => endpoint.claim(source, tag, ignore, ctx),
        PeekHow::Discard => endpoint.discard(source, tag, ignore, ctx),
    }
}

/// Makes the call once.
fn seek_once<E: Calls>(endpoint: &mut E, seek: Seek, ctx: u64) -> Result<(), Fault>
    ensures ok { OnOk result (Receives (sought seek ctx) (E.seen endpoint.old) (E.seen endpoint.new)) }
    ensures err { IfErr result (λ why. ReceivesNot (sought seek ctx) (E.seen endpoint.old) (E.seen endpoint.new) why) }
{
    match seek {
        Seek::Message(how, source, tag, ignore) => {
            look_once(endpoint, how, source, tag, ignore, ctx)
        }
        Seek::DropsClaimed => endpoint.drop_claimed(ctx),
        Seek::Cancels => endpoint.cancel(ctx),
        Seek::CancelsFirst => endpoint.cancel_first(),
    }
}

impl<E: Calls + Drop> Endpoint<E> {
    /// Makes the receive call until the log has room for its draws.
    pub(crate) fn ask_on(&mut self, ask: Ask, ctx: u64, buf: Buf) -> Result<(), Refused>
        ensures ok { OnOk result (ReceivesLate (asked ask ctx buf) (E.seen self.old) (E.seen self.new)) }
        ensures err { IfErr result (λ r. (r.buf ≡ buf) × ReceivesLateNot (asked ask ctx buf) (E.seen self.old) (E.seen self.new) r.why) }
        ensures never { IfErr result (λ r. is_log_full r.why ≡ false) }
    {
        let mut buf = buf;
        'late: loop {
            self.inner.log_clear();
            self.inner.known();
            match one_go(ask_once(&mut self.inner, ask, ctx, buf)) {
                Tried::Answered(answer) => return answer,
                Tried::Late(back) => buf = back,
            }
        }
    }

    /// Makes a call that takes no buffer until the log has room for its draws.
    pub(crate) fn seek_on(&mut self, seek: Seek, ctx: u64) -> Result<(), Fault>
        ensures ok { OnOk result (ReceivesLate (sought seek ctx) (E.seen self.old) (E.seen self.new)) }
        ensures err { IfErr result (λ why. ReceivesLateNot (sought seek ctx) (E.seen self.old) (E.seen self.new) why) }
        ensures never { IfErr result (λ why. is_log_full why ≡ false) }
    {
        'late: loop {
            self.inner.log_clear();
            self.inner.known();
            let answer = seek_once(&mut self.inner, seek, ctx);
            if !was_late(&answer) {
                return answer;
            }
        }
    }
}
