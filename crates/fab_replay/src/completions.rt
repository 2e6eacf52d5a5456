//! Reading completions, with the bytes of parts of multi-receives.
ghost use Rattle.std.specs.Prelude.{◌≡◌, ℕ, find, count_by, zip, IfOk, Some, List};
ghost use Rattle.std.specs.Option.{option_map};
ghost use Rattle.fab_base.specs.declared.script.Bound.{Bound as BoundScript};
ghost use Rattle.fab_model.specs.Peers.{part_of, is_multi_line, is_release, same_ctx, released_buf, first_some, multi_buf, is_only_multi, bytes_kept, read_next};
ghost use Rattle.fab_checker_machine.specs.Seen.{state_of};
ghost use Rattle.fab_replay.specs.Seen.{actor_of, Took, is_made};

use crate::actor::{Actor, lines_in};
use fab_base::{
    Bound, Buf, Entry, Kept, Line, LineOp, LineResult, NoMemory, Receive, Taken, Written,
};
use fab_checker_machine::state::State;
use fab_checker_values::lists::split;

/// The context, the place and the length of a part, or of a truncated part.
fn part_of(entry: &Taken) -> Option<(u64, u32, u32)>
    ensures { result ≡ part_of entry.now }
{
    match entry {
        Taken::Success(entry) => match entry {
            Entry::Part { ctx, at, len, .. } => Some((*ctx, *at, *len)),
            _ => None,
        },
        Taken::Failure(error) => match error.at {
            None => None,
            Some(at) => Some((error.ctx.unwrap_or(0), at, error.len)),
        },
    }
}

/// Whether the line made a multi-receive of this context.
fn is_multi_line(ctx: u64, line: &Line, outcome: &LineResult) -> bool
    ensures { result ≡ is_multi_line ctx (line.now, outcome.now) }
{
    match outcome {
        LineResult::Done => match &line.op {
            LineOp::MRecv { ctx: own, .. } => *own == ctx,
            _ => false,
        },
        _ => false,
    }
}

/// How many lines made a multi-receive of this context.
fn multis_made(lines: &[Line], results: &[LineResult], ctx: u64) -> usize
    ensures { result ≡ count_by (is_multi_line ctx) (zip lines.now results.now) }
{
    let mut made: usize = 0;
    for (line, outcome) in lines.iter().zip(results) {
        if is_multi_line(ctx, line, outcome) {
            made += 1;
        }
    }
    made
}

/// Whether the completion releases a multi-receive of this context.
fn is_release(ctx: u64, written: &Written) -> bool
    ensures { result ≡ is_release ctx written.now }
{
    match &written.entry {
        Taken::Success(entry) => match entry {
            Entry::Released { ctx: own, .. } => *own == ctx,
            _ => false,
        },
        Taken::Failure(_) => false,
    }
}

/// How many of these completions release a multi-receive of this context.
fn releases(written: &[Written], ctx: u64) -> usize
    ensures { result ≡ count_by (is_release ctx) written.now }
{
    written.iter().filter(|w| is_release(ctx, w)).count()
}

/// Whether both are of the same call, or of none.
fn same_call(a: Option<u64>, b: Option<u64>) -> bool
    ensures { result ≡ same_ctx a b }
{
    match (a, b) {
        (None, None) => true,
        (Some(a), Some(b)) => a == b,
        (None, Some(_)) | (Some(_), None) => false,
    }
}

/// The receive that was made by this call.
fn made_by(receives: &[Receive], call: Option<u64>) -> Option<&Receive>
    ensures { option_map (λ r. r.now) result ≡ find (is_made call) receives.now }
{
    receives.iter().find(|r| same_call(call, Some(r.call)))
}

/// The buffer that the release or the cancel of this call handed back.
fn released_buf(call: Option<u64>, written: &Written) -> Option<&Buf>
    ensures { option_map (λ buf. buf.now) result ≡ released_buf call written.now }
{
    if !same_call(call, written.call) {
        return None;
    }
    match &written.entry {
        Taken::Success(entry) => match entry {
            Entry::Released { buf, .. } => Some(buf),
            _ => None,
        },
        Taken::Failure(error) => error.buf.as_ref(),
    }
}

/// The first buffer of this call that was handed back.
fn first_released(written: &[Written], call: Option<u64>) -> Option<&Buf>
    ensures { option_map (λ buf. buf.now) result ≡ first_some (released_buf call) written.now }
{
    for w in written {
        if let Some(buf) = released_buf(call, w) {
            return Some(buf);
        }
    }
    None
}

/// The buffer of the multi-receive made by this call.
fn multi_buf(state: &State, call: Option<u64>) -> &[u8]
    ensures { result.now ≡ multi_buf (state_of state.now) call }
{
    match made_by(state.rx.posted.as_slice(), call) {
        Some(receive) => receive.buf.as_slice(),
        None => match made_by(state.rx.closing.as_slice(), call) {
            Some(receive) => receive.buf.as_slice(),
            None => match first_released(state.cq.written.as_slice(), call) {
                Some(buf) => buf.as_slice(),
                None => &[],
            },
        },
    }
}

impl Actor {
    /// Whether one multi-receive of this context, and no other, is neither released nor read.
    fn is_only_multi(&self, bound: &Bound, ctx: u64) -> bool
        ensures { result ≡ is_only_multi (actor_of bound.now self.now) ctx }
    {
        let made = multis_made(lines_in(bound, self.number), self.results.as_slice(), ctx);
        let (read, _) = split(self.state.cq.written.as_slice(), self.state.cq.taken_out);
        made > 0 && made - 1 == releases(read, ctx)
    }

    /// The bytes that are copied when this completion is read: those of a part, where it is known which
    /// buffer they are in.
    #[tactic(auto, unfolding(fab_model::specs::Peers::bytes_kept))]
    fn bytes_kept(&self, bound: &Bound, written: &Written) -> Result<Option<Buf>, NoMemory>
        ensures { IfOk result (λ bytes. bytes ≡ bytes_kept (actor_of bound.now self.now) written.now) }
    {
        let Some((ctx, at, len)) = part_of(&written.entry) else {
            return Ok(None);
        };
        if !self.is_only_multi(bound, ctx) {
            return Ok(None);
        }
        let (_, rest) = split(multi_buf(&self.state, written.call), at as usize);
        let (part, _) = split(rest, len as usize);
        let bytes = Buf::copy(self.state.alloc, part)?;
        Ok(Some(bytes))
    }

    /// The first unread completion is read, where there is one.
    #[tactic(auto, unfolding(fab_model::specs::Peers::read_next))]
    pub fn read_next(&mut self, bound: &Bound) -> Result<bool, NoMemory>
        ensures { IfOk result (λ took. Took took (actor_of bound.now self.old) (actor_of bound.now self.new) (read_next (actor_of bound.now self.old))) }
    {
        let Some(written) = self.state.cq.written.get(self.state.cq.taken_out) else {
            return Ok(false);
        };
        let bytes = self.bytes_kept(bound, written)?;
        let entry = written.entry.clone()?;
        self.kept.push(Kept { entry, bytes })?;
        self.state.cq.taken_out += 1;
        Ok(true)
    }
}
