//! Reading completions (fi_cq(3)), and which bytes of a multi-receive are kept with one.
ghost use Rattle.std.specs.Prelude.{◌≡◌, ◌≤◌, ℕ, ◌+◌, Ok, IfOk, OnOk, OnErr, IfSome, IfNone, count_by, zip, true, false};
ghost use Rattle.fab_model.specs.Peers.{part_of, unread, is_multi_line};
ghost use Rattle.fab_face.specs.Answers.{Pops, IsSharing};
ghost use Rattle.fab_kept.specs.Places.{passes};
ghost use Rattle.fab_peer.specs.Turns.{hands_back, waited_back, multis_done};

use crate::calls::LineCalls;
use crate::peer::Peer;
use fab_base::{Buf, Entry, Fault, Kept, Line, LineOp, LineResult, NoMemory, Step, Taken};
use fab_kept::KeptList;

/// The context, place and length of a part of a multi-receive, or of a part that was cut off.
fn part_of(entry: &Taken) -> Option<(u64, u32, u32)>
    ensures { result ≡ part_of entry.now }
{
    match entry {
        Taken::Success(entry) => match *entry {
            Entry::Part { ctx, at, len, .. } => Some((ctx, at, len)),
            _ => None,
        },
        Taken::Failure(error) => match error.at {
            None => None,
            Some(at) => Some((error.ctx.unwrap_or(0), at, error.len)),
        },
    }
}

/// Whether the completion hands a buffer of this context back.
fn hands_back(kept: &Kept, ctx: u64) -> bool
    ensures { result ≡ hands_back ctx kept.now }
{
    match &kept.entry {
        Taken::Failure(_) => false,
        Taken::Success(entry) => match *entry {
            Entry::Released { ctx: own, .. } => own == ctx,
            _ => false,
        },
    }
}

/// Whether a wait took such a completion.
fn waited_back(outcome: &LineResult, ctx: u64) -> bool
    ensures { result ≡ waited_back ctx outcome.now }
{
    match outcome {
        LineResult::Waited(kept) => hands_back(kept, ctx),
        _ => false,
    }
}

/// Whether the line is a multi-receive of this context that was Ok.
fn is_multi_line(line: &Line, outcome: &LineResult, ctx: u64) -> bool
    ensures { result ≡ is_multi_line ctx (line.now, outcome.now) }
{
    match outcome {
        LineResult::Done => match line.op {
            LineOp::MRecv { ctx: own, .. } => own == ctx,
            _ => false,
        },
        _ => false,
    }
}

/// Whether a completion stands at the place, and hands a buffer of this context back.
fn place_hands_back(place: &Option<Kept>, ctx: u64) -> bool
    ensures { result ≡ passes (hands_back ctx) place.now }
{
    match place {
        Some(kept) => hands_back(kept, ctx),
        None => false,
    }
}

fn count_kept(kept: &KeptList, ctx: u64) -> usize
    ensures { result ≡ count_by (hands_back ctx) kept.now }
{
    kept.places()
        .iter()
        .filter(|place| place_hands_back(place, ctx))
        .count()
}

fn count_waited(results: &[LineResult], ctx: u64) -> usize
    ensures { result ≡ count_by (waited_back ctx) results.now }
{
    results.iter().filter(|r| waited_back(r, ctx)).count()
}

fn count_lines(lines: &[Line], results: &[LineResult], ctx: u64) -> usize
    ensures { result ≡ multis_done lines.now results.now ctx }
{
    lines
        .iter()
        .zip(results)
        .filter(|(line, outcome)| is_multi_line(line, outcome, ctx))
        .count()
}

/// Reads the first completion, a success or an error. Most often it is a success or none is there, so that is asked first.
fn next_entry<E: LineCalls>(endpoint: &mut E) -> Option<Taken>
    ensures some { IfSome result (λ entry. Pops entry (E.seen endpoint.old) (E.seen endpoint.new)) }
    ensures none { IfNone result ((E.seen endpoint.new ≡ E.seen endpoint.old) × (unread (E.seen endpoint.old).held.state.cq ≡ None)) }
    ensures sharing { IsSharing (E.seen endpoint.old).held }
{
    endpoint.sharing();
    match endpoint.cq_pop() {
        Ok(entry) => Some(Taken::Success(entry)),
        Err(Fault::NoEntry) => None,
        Err(_) => match endpoint.cq_readerr() {
            Ok(error) => Some(Taken::Failure(error)),
            Err(_) => unreachable!(),
        },
    }
}

impl<E: LineCalls> Peer<E> {
    ghost use Rattle.fab_peer.specs.Left.{Left};
    ghost use Rattle.fab_peer.specs.Turns.{told, living_of, is_only, Lent, HasRead, IsCounted, ReadOn, IsRead};

    /// Whether one multi-receive of the context, and no other, was not read to be released. The lines before that were
    /// Ok are counted, not the endpoint's buffers.
    fn is_only(&self, ctx: u64) -> bool
        requires few { count_by (hands_back ctx) self.now.kept + count_by (waited_back ctx) self.now.results.items ≤ multis_done self.now.lines self.now.results.items ctx }
        ensures { result ≡ is_only (told E.seen self.now) ctx }
    {
        let kept = count_kept(&self.kept, ctx);
        let waited = count_waited(self.results.as_slice(), ctx);
        let done = count_lines(self.lines.as_slice(), self.results.as_slice(), ctx);
        done - kept - waited == 1
    }

    /// The bytes to be kept with a part that was just read.
    fn bytes_of(&self, part: Option<(u64, u32, u32)>) -> Result<Option<Buf>, NoMemory>
        requires few { (ctx : ℕ) → count_by (hands_back ctx) self.now.kept + count_by (waited_back ctx) self.now.results.items ≤ multis_done self.now.lines self.now.results.items ctx }
        ensures { IfOk result (λ bytes. Lent (told E.seen self.now) part bytes) }
    {
        let Some((ctx, at, len)) = part else {
            return Ok(None);
        };
        if !self.is_only(ctx) {
            return Ok(None);
        }
        let Some(bytes) = self.endpoint.multi_bytes(ctx, at, len) else {
            return Ok(None);
        };
        let copy = Buf::copy(self.alloc, bytes)?;
        Ok(Some(copy))
    }

    /// Reads the first completion, if there is one, and keeps it. With a part it keeps the bytes that came, where one
    /// multi-receive of its context, and no other, was not read to be released.
    fn read_one(&mut self) -> Result<bool, NoMemory>
        requires counted { IsCounted (living_of (told E.seen self.old)) }
        ensures one { result ≡ Ok true → HasRead (told E.seen self.old) (told E.seen self.new) }
        ensures none { result ≡ Ok false → (told E.seen self.new ≡ told E.seen self.old) × (unread (E.seen self.old.endpoint).held.state.cq ≡ None) }
        ensures left { OnErr result (Left (told E.seen self.old) (told E.seen self.new)) }
    {
        let Some(entry) = next_entry(&mut self.endpoint) else {
            return Ok(false);
        };
        let bytes = self.bytes_of(part_of(&entry))?;
        self.kept.push(Kept { entry, bytes })?;
        self.schedule.push(Step::Read)?;
        Ok(true)
    }

    /// Reads completions until there is none, and keeps them. Whether there was one.
    pub(crate) fn read_all(&mut self) -> Result<bool, NoMemory>
        requires counted { IsCounted (living_of (told E.seen self.old)) }
        ensures on { IfOk result (λ any. ReadOn (told E.seen self.old) (told E.seen self.new) any) }
        ensures read { OnOk result (IsRead (E.seen self.new.endpoint)) }
        ensures left { OnErr result (Left (told E.seen self.old) (told E.seen self.new)) }
    {
        let mut any = false;
        'entries: while self.read_one()? {
            any = true;
        }
        self.endpoint.known();
        Ok(any)
    }
}
