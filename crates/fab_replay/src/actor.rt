//! One peer of the replay: its machine, the results of its lines, and the completions that it read.
ghost use Rattle.std.specs.Prelude.{◌≡◌, ◌+◌, true, false, map, IfOk, MatchOption};
ghost use Rattle.std.specs.Option.{option_copied, option_map};
ghost use Rattle.fab_base.specs.declared.script.LineOp.TheVariants.{Reach};
ghost use Rattle.fab_base.specs.declared.script.Bound.{Bound as BoundScript};
ghost use Rattle.fab_model.specs.Peers.{is_again, wait_line, call_line, do_line, do_next, next_line, is_finished, sent_step, draw_step};
ghost use Rattle.fab_model.specs.Replay.{bind_line, lines_of};
ghost use Rattle.fab_model.specs.Report.{pending_of, deferred_of};
ghost use Rattle.fab_checker_machine.specs.Seen.{seen_call};
ghost use Rattle.fab_replay.specs.Seen.{actor_of, Took};

use crate::lines::call_of;
use fab_base::{Bound, Class, Fault, Line, LineOp, LineResult, NoMemory};
use fab_checker_machine::calls::Call;
use fab_checker_machine::state::State;
use fab_checker_values::lists::number_at;
use fab_kept::KeptList;

/// A peer of the replay. Its lines stand in the script, under its number.
#[derive(Drop)]
pub struct Actor {
    pub number: u32,
    pub state: State,
    pub results: Vec<LineResult>,
    pub kept: KeptList,
}

/// The lines of this peer, as they stand in the script.
pub fn lines_in(bound: &Bound, number: u32) -> &[Line]
    ensures { map (bind_line bound.now) result.now ≡ lines_of bound.now number }
{
    match bound.script.peers.as_slice().get(number as usize) {
        Some(lines) => lines.as_slice(),
        None => &[],
    }
}

/// The answer of a call that is not to be made again later.
fn final_answer(answer: LineResult) -> Option<LineResult>
    ensures { MatchOption result (is_again answer ≡ true) (λ is. (is ≡ answer) × (is_again answer ≡ false)) }
{
    match answer {
        LineResult::Refused(Fault::Again(_)) => None,
        answer => Some(answer),
    }
}

/// Both together, or want of memory where they pass 64 bits.
fn sum(number: u64, more: usize) -> Result<u64, NoMemory>
    ensures { IfOk result (λ all. all ≡ number + more) }
{
    match number.checked_add(more as u64) {
        Some(all) => Ok(all),
        None => Err(NoMemory),
    }
}

impl Actor {
    /// The line that comes next, as it stands in the script.
    fn next_line<'a>(&self, bound: &'a Bound) -> Option<&'a Line>
        ensures { option_map (bind_line bound.now) (option_copied result) ≡ next_line (actor_of bound.now self.now) }
    {
        lines_in(bound, self.number).get(self.results.len())
    }

    /// Whether all lines are done.
    pub fn is_finished(&self, bound: &Bound) -> bool
        ensures { result ≡ is_finished (actor_of bound.now self.now) }
    {
        self.next_line(bound).is_none()
    }

    /// A wait takes the oldest completion of its context that was read and that no wait took.
    #[tactic(auto, unfolding(fab_model::specs::Peers::wait_line))]
    fn wait(&mut self, ctx: Option<u64>) -> Result<bool, NoMemory>
        ensures { (bound : BoundScript) → IfOk result (λ took. Took took (actor_of bound self.old) (actor_of bound self.new) (wait_line (actor_of bound self.old) ctx)) }
    {
        let Some(kept) = self.kept.take(ctx) else {
            return Ok(false);
        };
        self.results.push(LineResult::Waited(kept))?;
        Ok(true)
    }

    /// A wait for a counter.
    fn reach(&mut self, class: Class, n: u64) -> Result<bool, NoMemory>
        ensures { (bound : BoundScript) → IfOk result (λ took. Took took (actor_of bound self.old) (actor_of bound self.new) (do_line (actor_of bound self.old) (Reach class n))) }
    {
        if self.state.tally_of(class).ok < n {
            return Ok(false);
        }
        self.results.push(LineResult::Done)?;
        Ok(true)
    }

    /// A call is made once it is not told to come again.
    #[tactic(auto, unfolding(fab_model::specs::Peers::call_line))]
    fn call(&mut self, call: Call) -> Result<bool, NoMemory>
        ensures { (bound : BoundScript) → IfOk result (λ took. Took took (actor_of bound self.old) (actor_of bound self.new) (call_line (actor_of bound self.old) (seen_call call))) }
    {
        let answer = self.state.do_call(call)?;
        match final_answer(answer) {
            None => Ok(false),
            Some(answer) => {
                self.results.push(answer)?;
                Ok(true)
            }
        }
    }

    /// The next line is done, where it can be.
    #[tactic(auto, unfolding(fab_model::specs::Peers::do_next))]
    pub fn do_next(&mut self, bound: &Bound) -> Result<bool, NoMemory>
        ensures { IfOk result (λ took. Took took (actor_of bound.now self.old) (actor_of bound.now self.new) (do_next (actor_of bound.now self.old))) }
    {
        let Some(line) = self.next_line(bound) else {
            return Ok(false);
        };
        match &line.op {
            LineOp::Wait { ctx } => self.wait(*ctx),
            LineOp::Reach { class, n } => self.reach(*class, *n),
            op => match call_of(self.state.alloc, bound, op)? {
                None => Ok(false),
                Some(call) => self.call(call),
            },
        }
    }

    /// The next item for the peer is transmitted, where it was accepted and its completion has room.
    #[tactic(auto, unfolding(fab_model::specs::Peers::sent_step))]
    pub fn sent(&mut self, to: u32) -> Result<bool, NoMemory>
        ensures { (bound : BoundScript) → IfOk result (λ took. Took took (actor_of bound self.old) (actor_of bound self.new) (sent_step (actor_of bound self.old) to)) }
    {
        let sent = number_at(self.state.tx.sent.as_slice(), to as usize);
        let entries = self.state.entries_at_sent(to);
        if sent >= self.state.tx.accepted_len(to) || !self.state.cq.has_room(entries) {
            return Ok(false);
        }
        self.state.do_sent(to)?;
        Ok(true)
    }

    /// A multi-receive takes an unexpected message, where a draw is due and its completions have room.
    #[tactic(auto, unfolding(fab_model::specs::Peers::draw_step))]
    pub fn draw(&mut self) -> Result<bool, NoMemory>
        ensures { (bound : BoundScript) → IfOk result (λ took. Took took (actor_of bound self.old) (actor_of bound self.new) (draw_step (actor_of bound self.old))) }
    {
        let entries = self.state.entries_at_draw()?;
        if !self.state.rx.draw_due() || !self.state.cq.has_room(entries) {
            return Ok(false);
        }
        self.state.do_draw()?;
        Ok(true)
    }

    /// How many operations await a reply.
    pub fn pending(&self) -> usize
        ensures { (bound : BoundScript) → result ≡ pending_of (actor_of bound self.now) }
    {
        let tx = &self.state.tx;
        tx.live.iter().filter(|o| tx.awaits(o)).count()
    }

    /// How many operations are not transmitted: those whose items wait, and those that a fence holds back.
    pub fn deferred(&self) -> Result<u64, NoMemory>
        ensures { (bound : BoundScript) → IfOk result (λ deferred. deferred ≡ deferred_of (actor_of bound self.now)) }
    {
        let tx = &self.state.tx;
        let mut deferred = tx.live.iter().filter(|o| !tx.awaits(o)).count() as u64;
        for held in tx.held.iter() {
            deferred = sum(deferred, held.as_slice().len())?;
        }
        Ok(deferred)
    }
}
