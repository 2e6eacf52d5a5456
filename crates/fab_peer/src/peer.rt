//! A peer over any endpoint: it does its lines, in turns.
ghost use Rattle.std.specs.Prelude.{◌≡◌, ◌≢◌, ◌<◌, ◌≤◌, ◌||◌, ◌^◌, length, ℕ, Some, None, Ok, Err, IfOk, OnOk, OnErr, IfSome, IfNone, is_some, ◌+◌, [], true, false, Bool};
ghost use Rattle.fab_base.specs.declared.script.LineOp.TheVariants.{Wait, Recv, TRecv, MRecv, Send, TSend, Inject, TInject, Cancel};
ghost use Rattle.fab_base.specs.declared.script.BytesWord.{BytesWord};
ghost use Rattle.fab_base.specs.declared.faults.Fault.TheVariants.{NoMemory as LacksMemory};
ghost use Rattle.fab_av.specs.Addresses.{answer_of};
ghost use Rattle.fab_model.specs.Calls.{word_bytes};
ghost use Rattle.fab_model.specs.Peers.{do_next, is_finished};
ghost use Rattle.fab_model.specs.Receiving.{cancellable};
ghost use Rattle.fab_model.specs.Report.{pending_of, deferred_of};
ghost use Rattle.fab_peer.specs.Turns.{step_of, why_of};

pub mod seats;

use crate::calls::LineCalls;
use crate::lines::Lines;
use crate::spare::Spare;
use fab_base::{Buf, Fault, Flags, Line, LineOp, LineResult, NoMemory, Refused, Step};
use fab_face::events::Event;
use fab_kept::KeptList;
use std::alloc::Global;
use std::mem::replace;
use std::thread;

/// How many laps a turn makes at most besides its first.
const LAPS: u32 = 1_024;

/// After so many laps in a row that moved nothing, a peer lets other threads run before it looks again.
const SPINS: u32 = 8;

/// For how many steps of the schedule there is room ahead, a line: it takes effect, its message is sent or arrives, and its
/// completion is read.
const STEPS: usize = 4;

/// A peer with its endpoint, its lines, the results of those done, the completions kept, and its schedule.
///
/// The endpoint is open to whoever owns the peer: over a plain port its frames are carried by hand.
#[derive(Drop)]
pub struct Peer<E: LineCalls> {
    pub endpoint: E,
    pub(crate) lines: Lines,
    pub(crate) results: Vec<LineResult>,
    pub(crate) kept: KeptList,
    pub(crate) schedule: Vec<Step>,
    pub(crate) spare: Spare,
    pub(crate) alloc: Global,
}

/// What became of a line: whether it is done, and whether anything moved.
#[derive(Clone, Copy, Drop)]
pub(crate) struct Outcome {
    pub(crate) done: bool,
    pub(crate) moved: bool,
}

fn step_of(event: Event) -> Step
    ensures { result ≡ step_of event }
{
    match event {
        Event::Call => Step::Do,
        Event::Head(source) => Step::Head(source),
        Event::Tail(source) => Step::Tail(source),
        Event::Sent(dest) => Step::Sent(dest),
        Event::Draw => Step::Draw,
    }
}

pub(crate) fn why_of(answer: Result<(), Refused>) -> Result<(), Fault>
    ensures { result ≡ why_of answer }
{
    match answer {
        Ok(()) => Ok(()),
        Err(refused) => Err(refused.why),
    }
}

/// How many laps in a row moved nothing. From some on, other threads run before the next.
fn in_vain(before: u32, moved: bool) -> u32
    requires { before + 1 < 2 ^ 32 }
{
    if moved {
        return 0;
    }
    if before >= SPINS {
        thread::yield_now();
    }
    before + 1
}

impl<E: LineCalls> Peer<E> {
    ghost use Rattle.std.specs.Prelude.{List};
    ghost use Rattle.fab_peer.specs.Kinds.{is_send, is_inject, is_on_receives};
    ghost use Rattle.fab_face.specs.Acts.{Act};
    ghost use Rattle.fab_peer.specs.Turns.{MovedOn, Lined, Gone, told, actor_of, living_of, drained, is_some_event, IsRead, IsCounted, WentOn, Answered, Lived, IsStill, is_some_act, next_op, noted, Turned, Ended, IsQuiet};
    ghost use Rattle.fab_face.specs.Answers.{IsIdle};
    ghost use Rattle.fab_peer.specs.Left.{Left, LeftBy, Unwritten};
    ghost use Rattle.fab_peer.specs.Laps.{Lap, Laps, InLaps};

    /// A peer that is to do these lines over this endpoint. It takes no memory.
    pub fn new(alloc: Global, endpoint: E, lines: Vec<Line>) -> Peer<E>
        ensures told { told E.seen result ≡ record { seen = E.seen endpoint; lines = lines.items; results = []; kept = []; schedule = [] } }
        ensures endpoint { result.endpoint ≡ endpoint }
    {
        Peer {
            endpoint,
            lines: Lines::new(alloc, lines),
            results: Vec::new(alloc),
            kept: KeptList::new(alloc),
            schedule: Vec::new(alloc),
            spare: Spare::new(alloc),
            alloc,
        }
    }

    /// The same, with the buffers of the lines' calls, and with room for the results, the completions and the schedule. The
    /// buffers of sends are made with their bytes, until they have more bytes together than a file may have: at most one message
    /// more. The others are made while they have no more bytes together than a file may have. That room is written once, since a
    /// page of memory comes with the first write to it: so doing the lines takes little memory besides. Want of memory lets the
    /// endpoint and the lines go.
    pub fn with_buffers(alloc: Global, endpoint: E, lines: Vec<Line>) -> Result<Peer<E>, NoMemory>
    where
        E: Drop,
        ensures told { IfOk result (λ p. told E.seen p ≡ record { seen = E.seen endpoint; lines = lines.items; results = []; kept = []; schedule = [] }) }
        ensures endpoint { IfOk result (λ p. p.endpoint ≡ endpoint) }
    {
        let most = lines.len();
        let mut lines = Lines::new(alloc, lines);
        lines.fill()?;
        let mut spare = Spare::new(alloc);
        spare.make_for(lines.as_slice())?;
        let mut results = Vec::new(alloc);
        results.resize_with(most, || -> LineResult { LineResult::Done })?;
        results.clear();
        let mut schedule = Vec::new(alloc);
        schedule.resize(most.saturating_mul(STEPS), Step::Do)?;
        schedule.clear();
        Ok(Peer {
            endpoint,
            lines,
            results,
            kept: KeptList::with_room(alloc, most)?,
            schedule,
            spare,
            alloc,
        })
    }

    /// Empties the endpoint's log into the schedule. Whether there was an event.
    pub(crate) fn drain(&mut self) -> Result<bool, NoMemory>
        ensures drained { OnOk result (told E.seen self.new ≡ drained (told E.seen self.old)) }
        ensures any { IfOk result (λ any. any ≡ is_some_event (E.seen self.old.endpoint).log) }
        ensures left { OnErr result (Unwritten (told E.seen self.old) (told E.seen self.new)) }
    {
        let mut any = false;
        'events: while let Some(event) = self.endpoint.log_pop() {
            self.schedule.push(step_of(event))?;
            any = true;
        }
        Ok(any)
    }

    /// A call was answered: its line is done, unless the answer is to come again.
    pub(crate) fn answered(&mut self, answer: Result<(), Fault>) -> Result<bool, NoMemory>
        ensures told { IfOk result (λ done. Answered answer (told E.seen self.old) (told E.seen self.new) done) }
        ensures left { OnErr result (Unwritten (told E.seen self.old) (told E.seen self.new)) }
    {
        match answer {
            Ok(()) => {
                self.results.push(LineResult::Done)?;
                Ok(true)
            }
            Err(Fault::NoMemory) => Err(NoMemory),
            Err(Fault::Again(_)) => Ok(false),
            Err(fault) => {
                self.schedule.push(Step::Do)?;
                self.results.push(LineResult::Refused(fault))?;
                Ok(true)
            }
        }
    }

    /// A call that sends was answered: its events are in the schedule, and its line is done, unless the answer is to come again.
    pub(crate) fn transmitted(&mut self, answer: Result<(), Fault>) -> Result<Outcome, NoMemory>
        ensures answered { IfOk result (λ o. Answered answer (drained (told E.seen self.old)) (told E.seen self.new) o.done) }
        ensures moved { IfOk result (λ o. o.moved ≡ (o.done || (E.seen self.new.endpoint).pushed)) }
        ensures left { OnErr result (Unwritten (told E.seen self.old) (told E.seen self.new)) }
    {
        self.drain()?;
        let done = self.answered(answer)?;
        let pushed = self.endpoint.pushed();
        Ok(Outcome {
            done,
            moved: done | pushed,
        })
    }

    /// The same of a call on receives, which may have drawn.
    pub(crate) fn received(&mut self, answer: Result<(), Fault>) -> Result<Outcome, NoMemory>
        ensures answered { IfOk result (λ o. Answered answer (drained (told E.seen self.old)) (told E.seen self.new) o.done) }
        ensures moved { IfOk result (λ o. o.moved ≡ (o.done || is_some_event (E.seen self.old.endpoint).log)) }
        ensures left { OnErr result (Unwritten (told E.seen self.old) (told E.seen self.new)) }
    {
        let drew = self.drain()?;
        let done = self.answered(answer)?;
        Ok(Outcome {
            done,
            moved: done | drew,
        })
    }

    /// The next line is done by the peer alone, with this result.
    pub(crate) fn noted(&mut self, what: LineResult) -> Result<Outcome, NoMemory>
        ensures told { OnOk result (told E.seen self.new ≡ noted what (told E.seen self.old)) }
        ensures done { IfOk result (λ o. (o.done ≡ true) × (o.moved ≡ true)) }
        ensures left { OnErr result (Unwritten (told E.seen self.old) (told E.seen self.new)) }
    {
        self.schedule.push(Step::Do)?;
        self.results.push(what)?;
        Ok(Outcome {
            done: true,
            moved: true,
        })
    }

    /// A call that the peer does alone was answered, and the answer is not to come again: its line is done.
    pub(crate) fn settled(&mut self, answer: Result<(), Fault>) -> Result<Outcome, NoMemory>
        ensures told { OnOk result (told E.seen self.new ≡ noted (answer_of answer) (told E.seen self.old)) }
        ensures memory { OnOk result (answer ≢ Err LacksMemory) }
        ensures done { IfOk result (λ o. (o.done ≡ true) × (o.moved ≡ true)) }
        ensures left { OnErr result (Unwritten (told E.seen self.old) (told E.seen self.new)) }
    {
        match answer {
            Ok(()) => self.noted(LineResult::Done),
            Err(Fault::NoMemory) => Err(NoMemory),
            Err(fault) => self.noted(LineResult::Refused(fault)),
        }
    }

    /// The line `wait`.
    fn wait(&mut self, ctx: Option<u64>) -> Result<Outcome, NoMemory>
        requires log { (E.seen self.old.endpoint).log ≡ [] }
        requires next { next_op (told E.seen self.old) ≡ Some (Wait ctx) }
        ensures on { IfOk result (λ o. WentOn (told E.seen self.old) (told E.seen self.new) o.done o.moved) }
        ensures left { OnErr result (Left (told E.seen self.old) (told E.seen self.new)) }
    {
        let Some(kept) = self.kept.take(ctx) else {
            return Ok(Outcome {
                done: false,
                moved: false,
            });
        };
        self.schedule.push(Step::Do)?;
        self.results.push(LineResult::Waited(kept))?;
        Ok(Outcome {
            done: true,
            moved: true,
        })
    }

    /// The line `send`.
    fn send(
        &mut self,
        ctx: u64,
        dest: u32,
        buf: Buf,
        imm: Option<u64>,
        flags: Flags,
    ) -> Result<Outcome, NoMemory>
        requires log { (E.seen self.old.endpoint).log ≡ [] }
        requires next { (word : BytesWord) × (next_op (told E.seen self.old) ≡ Some (Send ctx dest word imm flags.level flags.completion flags.fence)) × (buf ≡ word_bytes word) }
        ensures on { IfOk result (λ o. WentOn (told E.seen self.old) (told E.seen self.new) o.done o.moved) }
        ensures left { OnErr result (Left (told E.seen self.old) (told E.seen self.new)) }
    {
        self.endpoint.known();
        let answer = self.endpoint.send(dest, buf, imm, ctx, flags);
        let why = why_of(answer);
        self.transmitted(why)
    }

    /// The line `tsend`.
    fn tsend(
        &mut self,
        ctx: u64,
        dest: u32,
        tag: u64,
        buf: Buf,
        imm: Option<u64>,
        flags: Flags,
    ) -> Result<Outcome, NoMemory>
        requires log { (E.seen self.old.endpoint).log ≡ [] }
        requires next { (word : BytesWord) × (next_op (told E.seen self.old) ≡ Some (TSend ctx dest tag word imm flags.level flags.completion flags.fence)) × (buf ≡ word_bytes word) }
        ensures on { IfOk result (λ o. WentOn (told E.seen self.old) (told E.seen self.new) o.done o.moved) }
        ensures left { OnErr result (Left (told E.seen self.old) (told E.seen self.new)) }
    {
        self.endpoint.known();
        let answer = self.endpoint.tsend(dest, tag, buf, imm, ctx, flags);
        let why = why_of(answer);
        self.transmitted(why)
    }

    /// The line `inject`.
    fn inject(&mut self, dest: u32, buf: &Buf, imm: Option<u64>) -> Result<Outcome, NoMemory>
        requires log { (E.seen self.old.endpoint).log ≡ [] }
        requires next { (word : BytesWord) × (next_op (told E.seen self.old) ≡ Some (Inject dest word imm)) × (buf.now ≡ word_bytes word) }
        ensures on { IfOk result (λ o. WentOn (told E.seen self.old) (told E.seen self.new) o.done o.moved) }
        ensures left { OnErr result (Left (told E.seen self.old) (told E.seen self.new)) }
    {
        self.endpoint.known();
        let why = self.endpoint.inject(dest, buf.as_slice(), imm);
        self.transmitted(why)
    }

    /// The line `tinject`.
    fn tinject(
        &mut self,
        dest: u32,
        tag: u64,
        buf: &Buf,
        imm: Option<u64>,
    ) -> Result<Outcome, NoMemory>
        requires log { (E.seen self.old.endpoint).log ≡ [] }
        requires next { (word : BytesWord) × (next_op (told E.seen self.old) ≡ Some (TInject dest tag word imm)) × (buf.now ≡ word_bytes word) }
        ensures on { IfOk result (λ o. WentOn (told E.seen self.old) (told E.seen self.new) o.done o.moved) }
        ensures left { OnErr result (Left (told E.seen self.old) (told E.seen self.new)) }
    {
        self.endpoint.known();
        let why = self.endpoint.tinject(dest, tag, buf.as_slice(), imm);
        self.transmitted(why)
    }

    /// The line `trecv`.
    fn trecv(
        &mut self,
        ctx: u64,
        source: Option<u32>,
        tag: u64,
        ignore: u64,
        len: u32,
    ) -> Result<Outcome, NoMemory>
        requires log { (E.seen self.old.endpoint).log ≡ [] }
        requires next { next_op (told E.seen self.old) ≡ Some (TRecv ctx source tag ignore len) }
        ensures on { IfOk result (λ o. WentOn (told E.seen self.old) (told E.seen self.new) o.done o.moved) }
        ensures left { OnErr result (Left (told E.seen self.old) (told E.seen self.new)) }
    {
        let buf = self.spare.zeros(len as u64)?;
        self.endpoint.known();
        let answer = self.endpoint.trecv(source, tag, ignore, buf, ctx);
        self.endpoint.known();
        let why = why_of(answer);
        self.received(why)
    }

    /// The line `recv`.
    fn recv(&mut self, ctx: u64, source: Option<u32>, len: u32) -> Result<Outcome, NoMemory>
        requires log { (E.seen self.old.endpoint).log ≡ [] }
        requires next { next_op (told E.seen self.old) ≡ Some (Recv ctx source len) }
        ensures on { IfOk result (λ o. WentOn (told E.seen self.old) (told E.seen self.new) o.done o.moved) }
        ensures left { OnErr result (Left (told E.seen self.old) (told E.seen self.new)) }
    {
        let buf = self.spare.zeros(len as u64)?;
        self.endpoint.known();
        let answer = self.endpoint.recv(source, buf, ctx);
        self.endpoint.known();
        let why = why_of(answer);
        self.received(why)
    }

    /// The line `mrecv`, with a buffer of zeros. Where it names no least free space, this is 64 bytes, or the length of the
    /// buffer if that is less.
    fn mrecv(
        &mut self,
        ctx: u64,
        source: Option<u32>,
        len: u32,
        min: Option<u32>,
    ) -> Result<Outcome, NoMemory>
        requires log { (E.seen self.old.endpoint).log ≡ [] }
        requires next { next_op (told E.seen self.old) ≡ Some (MRecv ctx source len min) }
        ensures on { IfOk result (λ o. WentOn (told E.seen self.old) (told E.seen self.new) o.done o.moved) }
        ensures left { OnErr result (Left (told E.seen self.old) (told E.seen self.new)) }
    {
        let buf = self.spare.zeros(len as u64)?;
        let least = min.unwrap_or(64_u32.min(len));
        self.endpoint.known();
        let answer = self.endpoint.recv_multi(source, buf, least, ctx);
        self.endpoint.known();
        let why = why_of(answer);
        self.received(why)
    }

    /// The line `cancel`.
    fn cancel(&mut self, ctx: u64) -> Result<Outcome, NoMemory>
        requires log { (E.seen self.old.endpoint).log ≡ [] }
        requires next { next_op (told E.seen self.old) ≡ Some (Cancel ctx) }
        ensures on { IfOk result (λ o. WentOn (told E.seen self.old) (told E.seen self.new) o.done o.moved) }
        ensures left { OnErr result (Left (told E.seen self.old) (told E.seen self.new)) }
    {
        self.endpoint.known();
        let answer = self.endpoint.cancel(ctx);
        self.endpoint.known();
        self.received(answer)
    }

    /// Does the next line, which is a send, if there is one.
    fn do_send(&mut self) -> Result<Outcome, NoMemory>
        requires log { (E.seen self.old.endpoint).log ≡ [] }
        requires kind { IfSome (next_op (told E.seen self.old)) (λ op. is_send op ≡ true) }
        ensures on { IfOk result (λ o. WentOn (told E.seen self.old) (told E.seen self.new) o.done o.moved) }
        ensures left { OnErr result (Left (told E.seen self.old) (told E.seen self.new)) }
    {
        let Some(line) = self.lines.as_slice().get(self.results.len()) else {
            return Ok(Outcome {
                done: false,
                moved: false,
            });
        };
        match line.op {
            LineOp::Send {
                ctx,
                dest,
                imm,
                level,
                completion,
                fence,
                ..
            } => {
                let buf = self.lines.buffer(self.results.len())?;
                let flags = Flags {
                    completion,
                    level,
                    fence,
                };
                self.send(ctx, dest, buf, imm, flags)
            }
            LineOp::TSend {
                ctx,
                dest,
                tag,
                imm,
                level,
                completion,
                fence,
                ..
            } => {
                let buf = self.lines.buffer(self.results.len())?;
                let flags = Flags {
                    completion,
                    level,
                    fence,
                };
                self.tsend(ctx, dest, tag, buf, imm, flags)
            }
            _ => unreachable!(),
        }
    }

    /// Does the next line, which is a send whose bytes are copied, if there is one.
    fn do_inject(&mut self) -> Result<Outcome, NoMemory>
        requires log { (E.seen self.old.endpoint).log ≡ [] }
        requires kind { IfSome (next_op (told E.seen self.old)) (λ op. is_inject op ≡ true) }
        ensures on { IfOk result (λ o. WentOn (told E.seen self.old) (told E.seen self.new) o.done o.moved) }
        ensures left { OnErr result (Left (told E.seen self.old) (told E.seen self.new)) }
    {
        let Some(line) = self.lines.as_slice().get(self.results.len()) else {
            return Ok(Outcome {
                done: false,
                moved: false,
            });
        };
        match line.op {
            LineOp::Inject {
                dest,
                ref bytes,
                imm,
            } => {
                let buf = self.spare.word(bytes)?;
                self.inject(dest, &buf, imm)
            }
            LineOp::TInject {
                dest,
                tag,
                ref bytes,
                imm,
            } => {
                let buf = self.spare.word(bytes)?;
                self.tinject(dest, tag, &buf, imm)
            }
            _ => unreachable!(),
        }
    }

    /// Does the next line, which is one on posted receives, if there is one.
    fn do_receive(&mut self) -> Result<Outcome, NoMemory>
        requires log { (E.seen self.old.endpoint).log ≡ [] }
        requires kind { IfSome (next_op (told E.seen self.old)) (λ op. is_on_receives op ≡ true) }
        ensures on { IfOk result (λ o. WentOn (told E.seen self.old) (told E.seen self.new) o.done o.moved) }
        ensures left { OnErr result (Left (told E.seen self.old) (told E.seen self.new)) }
    {
        let Some(line) = self.lines.as_slice().get(self.results.len()) else {
            return Ok(Outcome {
                done: false,
                moved: false,
            });
        };
        match line.op {
            LineOp::Recv { ctx, source, len } => self.recv(ctx, source, len),
            LineOp::TRecv {
                ctx,
                source,
                tag,
                ignore,
                len,
            } => self.trecv(ctx, source, tag, ignore, len),
            LineOp::MRecv {
                ctx,
                source,
                len,
                min,
            } => self.mrecv(ctx, source, len, min),
            LineOp::Cancel { ctx } => self.cancel(ctx),
            _ => unreachable!(),
        }
    }

    /// Does the next line, if there is one and it can be done.
    fn do_line(&mut self) -> Result<Outcome, NoMemory>
        requires log { (E.seen self.old.endpoint).log ≡ [] }
        ensures on { IfOk result (λ o. WentOn (told E.seen self.old) (told E.seen self.new) o.done o.moved) }
        ensures left { OnErr result (Left (told E.seen self.old) (told E.seen self.new)) }
    {
        let Some(line) = self.lines.as_slice().get(self.results.len()) else {
            return Ok(Outcome {
                done: false,
                moved: false,
            });
        };
        match line.op {
            LineOp::Wait { ctx } => self.wait(ctx),
            LineOp::Send { .. } | LineOp::TSend { .. } => self.do_send(),
            LineOp::Inject { .. } | LineOp::TInject { .. } => self.do_inject(),
            LineOp::Recv { .. } | LineOp::TRecv { .. } => self.do_receive(),
            LineOp::MRecv { .. } | LineOp::Cancel { .. } => self.do_receive(),
            LineOp::Peek { .. } | LineOp::Claim { .. } | LineOp::Discard { .. } => self.do_look(),
            LineOp::Take { .. } | LineOp::DropClaimed { .. } => self.do_look(),
            LineOp::Read { .. } | LineOp::Write { .. } | LineOp::WInject { .. } => self.do_remote(),
            LineOp::Atomic { .. } | LineOp::Fetch { .. } | LineOp::Compare { .. } => {
                self.do_atomic()
            }
            LineOp::Reg { .. } | LineOp::Close { .. } => self.do_region(),
            LineOp::Put { .. } | LineOp::Show { .. } => self.do_region(),
            LineOp::Count { .. } | LineOp::Reach { .. } => self.do_keeping(),
            LineOp::Insert { .. } | LineOp::Remove { .. } => self.do_keeping(),
        }
    }

    /// Does lines while the next one can be done, at most 16, and reads all completions after each. Whether
    /// anything moved.
    fn do_lines(&mut self) -> Result<bool, NoMemory>
        requires log { (E.seen self.old.endpoint).log ≡ [] }
        requires counted { IsCounted (living_of (told E.seen self.old)) }
        ensures on { IfOk result (λ moved. Lined (told E.seen self.old) (told E.seen self.new) moved) }
        ensures left { OnErr result (Left (told E.seen self.old) (told E.seen self.new)) }
    {
        let mut moved = false;
        for round in 0..16_u32 {
            let outcome = self.do_line()?;
            moved |= outcome.moved;
            if !outcome.done {
                return Ok(moved);
            }
            self.read_all()?;
        }
        Ok(moved)
    }

    /// Takes and posts up to 64 frames. Whether anything moved.
    fn go_on(&mut self) -> Result<bool, NoMemory>
        requires log { (E.seen self.old.endpoint).log ≡ [] }
        ensures on { IfOk result (λ moved. MovedOn E.fixed (told E.seen self.old) (told E.seen self.new) moved) }
        ensures left { OnErr result (Left (told E.seen self.old) (told E.seen self.new)) }
    {
        let moved = self.endpoint.progress(64)?;
        self.endpoint.known();
        let logged = self.drain()?;
        let took = moved.taken > 0;
        let posted = moved.posted > 0;
        Ok(took | posted | logged)
    }

    /// Does lines, where something moved before that they may have waited for. Whether anything moved.
    fn more_lines(&mut self, wanted: bool) -> Result<bool, NoMemory>
        requires log { (E.seen self.old.endpoint).log ≡ [] }
        requires counted { IsCounted (living_of (told E.seen self.old)) }
        requires held { wanted ≡ false → do_next (actor_of (told E.seen self.old)) ≡ None }
        ensures on { IfOk result (λ moved. Lined (told E.seen self.old) (told E.seen self.new) moved) }
        ensures left { OnErr result (Left (told E.seen self.old) (told E.seen self.new)) }
    {
        if wanted { self.do_lines() } else { Ok(false) }
    }

    /// Does lines where these are wanted, makes progress with up to 64 frames, and reads all completions. Whether
    /// anything moved.
    fn lap(&mut self, wanted: bool) -> Result<bool, NoMemory>
        requires log { (E.seen self.old.endpoint).log ≡ [] }
        requires counted { IsCounted (living_of (told E.seen self.old)) }
        requires read { IsRead (E.seen self.old.endpoint) }
        requires held { wanted ≡ false → do_next (actor_of (told E.seen self.old)) ≡ None }
        ensures gone { IfOk result (λ moved. Gone (told E.seen self.old) (told E.seen self.new) moved) }
        ensures lap { OnOk result (Lap E.fixed (told E.seen self.old) (told E.seen self.new)) }
        ensures left { OnErr result (Left (told E.seen self.old) (told E.seen self.new)) }
    {
        let done = self.more_lines(wanted)?;
        let went = self.go_on()?;
        let again = self.read_all()?;
        Ok(done | went | again)
    }

    /// Makes a lap, and then more of them until so many in a row moved nothing, or 1,024 more are made. Whether anything
    /// moved.
    fn laps(&mut self, looks: u32) -> Result<bool, NoMemory>
        requires log { (E.seen self.old.endpoint).log ≡ [] }
        requires counted { IsCounted (living_of (told E.seen self.old)) }
        requires read { IsRead (E.seen self.old.endpoint) }
        ensures gone { IfOk result (λ moved. Gone (told E.seen self.old) (told E.seen self.new) moved) }
        ensures laps { OnOk result ((more : ℕ) × (more ≤ 1_024) × (looks ≡ 0 → more ≡ 0) × Laps E.fixed more (told E.seen self.old) (told E.seen self.new)) }
        ensures left { OnErr result (Left (told E.seen self.old) (told E.seen self.new)) }
    {
        let first = self.lap(true)?;
        let mut moved = first;
        let mut last = first;
        let mut vain = 0;
        for round in 0..LAPS {
            if vain >= looks {
                return Ok(moved);
            }
            last = self.lap(last)?;
            moved |= last;
            vain = in_vain(vain, last);
        }
        Ok(moved)
    }

    /// Reads all completions and makes laps, more than one where there are to be looks. Whether anything moved.
    fn turn(&mut self, looks: u32) -> Result<bool, NoMemory>
        requires log { (E.seen self.old.endpoint).log ≡ [] }
        requires counted { IsCounted (living_of (told E.seen self.old)) }
        ensures log { OnOk result ((E.seen self.new.endpoint).log ≡ []) }
        ensures counted { OnOk result (IsCounted (living_of (told E.seen self.new))) }
        ensures turned { IfOk result (λ moved. (acts : List Act) × Turned (told E.seen self.old) (told E.seen self.new) acts × (moved ≡ is_some_act acts)) }
        ensures still { result ≡ Ok false → IsStill (told E.seen self.old) (told E.seen self.new) }
        ensures laps { OnOk result (InLaps E.fixed looks (told E.seen self.old) (told E.seen self.new)) }
        ensures left { OnErr result (Left (told E.seen self.old) (told E.seen self.new)) }
    {
        self.endpoint.known();
        let read = self.read_all()?;
        let went = self.laps(looks)?;
        self.endpoint.known();
        Ok(read | went)
    }

    /// A turn of the peer: it reads all completions, does up to 16 lines and reads after each, makes progress with up to
    /// 64 frames, and reads again. Whether anything moved.
    ///
    /// With `looks` it goes on so, up to 1,024 times, until it found nothing to do so many times in a row; after some of
    /// these it lets other threads run in between. Without, it goes on no more.
    ///
    /// Each lap, the first one and those that follow, has its share for both: it does lines while the next one can be done, 16
    /// at most, and then moves frames while there are any to move, 64 at most. So neither keeps the other from going on.
    ///
    /// Want of memory leaves the schedule as it was. All that was done till then stays, by the endpoint and by the peer, but
    /// that the result of the last line or the last completion read may not be kept.
    pub fn quantum(&mut self, looks: u32) -> Result<bool, NoMemory>
        requires log { (E.seen self.old.endpoint).log ≡ [] }
        requires counted { IsCounted (living_of (told E.seen self.old)) }
        ensures log { OnOk result ((E.seen self.new.endpoint).log ≡ []) }
        ensures counted { OnOk result (IsCounted (living_of (told E.seen self.new))) }
        ensures turned { IfOk result (λ moved. (acts : List Act) × Turned (told E.seen self.old) (told E.seen self.new) acts × (moved ≡ is_some_act acts)) }
        ensures still { result ≡ Ok false → IsStill (told E.seen self.old) (told E.seen self.new) }
        ensures laps { OnOk result (InLaps E.fixed looks (told E.seen self.old) (told E.seen self.new)) }
        ensures stays { OnErr result ((told E.seen self.new).schedule ≡ (told E.seen self.old).schedule) }
        ensures left { OnErr result (LeftBy (told E.seen self.old) (told E.seen self.new)) }
    {
        self.endpoint.known();
        let before = replace(&mut self.schedule, Vec::new(self.alloc));
        let answer = self.turn(looks);
        let mut steps = replace(&mut self.schedule, before);
        self.endpoint.known();
        let moved = answer?;
        self.schedule.append(&mut steps)?;
        Ok(moved)
    }

    /// Cancels the first posted receive that may be cancelled, if there is one.
    fn cancel_first(&mut self) -> Result<bool, NoMemory>
        requires quiet { IsQuiet (told E.seen self.old) }
        requires read { IsRead (E.seen self.old.endpoint) }
        ensures ended { OnOk result (Ended (told E.seen self.old) (told E.seen self.new)) }
        ensures quiet { OnOk result (IsQuiet (told E.seen self.new)) }
        ensures fewer { result ≡ Ok true → length (E.seen self.new.endpoint).held.state.rx.posted < length (E.seen self.old.endpoint).held.state.rx.posted }
        ensures none { result ≡ Ok false → cancellable (λ r. true) (E.seen self.new.endpoint).held.state.rx ≡ None }
        ensures same { result ≡ Ok false → (E.seen self.new.endpoint).held ≡ (E.seen self.old.endpoint).held }
    {
        self.endpoint.known();
        match self.endpoint.cancel_first() {
            Ok(()) => {
                self.endpoint.log_clear();
                self.schedule.push(Step::Final)?;
                Ok(true)
            }
            // All is read, so a cancel has room, and only the want of a receive refuses it.
            Err(_) => Ok(false),
        }
    }

    /// Cancels the posted receives that may be cancelled, in order, and reads all completions before and after each.
    fn cancel_each(&mut self) -> Result<(), NoMemory>
        requires quiet { IsQuiet (told E.seen self.old) }
        ensures ended { OnOk result (Ended (told E.seen self.old) (told E.seen self.new)) }
        ensures quiet { OnOk result (IsQuiet (told E.seen self.new)) }
        ensures read { OnOk result (IsRead (E.seen self.new.endpoint)) }
        ensures none { OnOk result (cancellable (λ r. true) (E.seen self.new.endpoint).held.state.rx ≡ None) }
    {
        self.read_all()?;
        'receives: while self.cancel_first()? {
            self.read_all()?;
        }
        Ok(())
    }

    /// Cancels the posted receives that may be cancelled, in order, and reads all completions before and after each
    /// (fi_cancel of fi_endpoint(3)). Its steps are these reads and cancels alone.
    ///
    /// Want of memory leaves the schedule as it was; of the rest of the peer nothing is known then.
    pub fn cancel_posted(&mut self) -> Result<(), NoMemory>
        requires quiet { IsQuiet (told E.seen self.old) }
        ensures ended { OnOk result (Ended (told E.seen self.old) (told E.seen self.new)) }
        ensures quiet { OnOk result (IsQuiet (told E.seen self.new)) }
        ensures read { OnOk result (IsRead (E.seen self.new.endpoint)) }
        ensures none { OnOk result (cancellable (λ r. true) (E.seen self.new.endpoint).held.state.rx ≡ None) }
        ensures stays { OnErr result ((told E.seen self.new).schedule ≡ (told E.seen self.old).schedule) }
    {
        let before = replace(&mut self.schedule, Vec::new(self.alloc));
        let answer = self.cancel_each();
        let mut steps = replace(&mut self.schedule, before);
        answer?;
        self.schedule.append(&mut steps)?;
        Ok(())
    }

    /// Whether all lines are done.
    pub fn finished(&self) -> bool
        ensures { result ≡ is_finished (actor_of (told E.seen self.now)) }
    {
        self.lines.as_slice().get(self.results.len()).is_none()
    }

    /// The peer's lines.
    pub fn lines(&self) -> &[Line]
        ensures { result.now ≡ (told E.seen self.now).lines }
    {
        self.lines.as_slice()
    }

    /// The results of the lines done, in order.
    pub fn results(&self) -> &[LineResult]
        ensures { result.now ≡ (told E.seen self.now).results }
    {
        self.results.as_slice()
    }

    /// The completions that were read and that no `wait` took, in the order of reading.
    pub fn kept(&self) -> &KeptList
        ensures { result.now ≡ (told E.seen self.now).kept }
    {
        &self.kept
    }

    /// The steps taken so far, in order.
    pub fn schedule(&self) -> &[Step]
        ensures { result.now ≡ (told E.seen self.now).schedule }
    {
        self.schedule.as_slice()
    }

    /// How many operations are transmitted and await the answer of their peer.
    pub fn awaiting(&self) -> u32
        ensures { result ≡ pending_of (actor_of (told E.seen self.now)) }
    {
        self.endpoint.awaiting()
    }

    /// How many operations are not transmitted: their items wait for their lanes, or a fence holds them back (FI_FENCE).
    pub fn deferred(&self) -> u32
        ensures { result ≡ deferred_of (actor_of (told E.seen self.now)) }
    {
        self.endpoint.deferred()
    }
}
