//! Every call of a peer.
ghost use Rattle.std.specs.Prelude.{◌≡◌, IfOk};
ghost use Rattle.fab_model.specs.Calls.{Count, do_call};
ghost use Rattle.fab_checker_machine.specs.Seen.{seen_call, state_of};

use crate::receiving::Posting;
use crate::state::State;
use fab_base::{Access, Buf, Class, LineResult, NoMemory, PeekHow, Text};
use fab_checker_values::orders::Order;

/// A call of an endpoint. The buffer of a take has `len` zeros.
#[derive(Drop)]
pub enum Call {
    Transmit(Order),
    Post(Posting),
    Look {
        how: PeekHow,
        source: Option<u32>,
        tag: u64,
        ignore: u64,
        ctx: u64,
    },
    TakeClaimed {
        len: u32,
        ctx: u64,
    },
    DropClaimed {
        ctx: u64,
    },
    Cancel {
        ctx: u64,
    },
    Insert {
        name: Text,
    },
    Remove {
        index: u32,
    },
    Reg {
        key: u64,
        access: Access,
        bytes: Buf,
    },
    Close {
        key: u64,
    },
    Put {
        key: u64,
        at: u64,
        bytes: Buf,
    },
    Show {
        key: u64,
    },
    Count {
        class: Class,
    },
}

impl State {
    /// A call of count.
    #[tactic(auto, unfolding(fab_model::specs::Calls::do_call))]
    fn call_count(&self, class: Class) -> LineResult
        ensures { (result, state_of self.now) ≡ do_call (state_of self.now) (Count class) }
    {
        let tally = self.tally_of(class);
        LineResult::Count {
            ok: tally.ok,
            err: tally.err,
        }
    }

    /// Makes the call: its answer, and the state after it.
    #[tactic(auto, unfolding(fab_model::specs::Calls::do_call))]
    pub fn do_call(&mut self, call: Call) -> Result<LineResult, NoMemory>
        ensures { IfOk result (λ answer. (answer, state_of self.new) ≡ do_call (state_of self.old) (seen_call call)) }
    {
        match call {
            Call::Transmit(order) => self.call_transmit(order),
            Call::Post(posting) => self.call_post(&posting),
            Call::Look {
                how,
                source,
                tag,
                ignore,
                ctx,
            } => self.call_look(how, source, tag, ignore, ctx),
            Call::TakeClaimed { len, ctx } => self.call_take(len, ctx),
            Call::DropClaimed { ctx } => self.call_drop(ctx),
            Call::Cancel { ctx } => self.call_cancel(Some(ctx)),
            Call::Insert { name } => self.call_insert(name.as_str()),
            Call::Remove { index } => Ok(self.call_remove(index)),
            Call::Reg { key, access, bytes } => self.call_reg(key, access, bytes),
            Call::Close { key } => Ok(self.call_close(key)),
            Call::Put { key, at, bytes } => self.call_put(key, at, bytes.as_slice()),
            Call::Show { key } => self.call_show(key),
            Call::Count { class } => Ok(self.call_count(class)),
        }
    }
}
