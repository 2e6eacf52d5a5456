//! What an endpoint keeps besides its port and its log: the machine's state, and what is unfinished.
ghost use Rattle.std.specs.Prelude.{◌≡◌, is_none, ◌<◌, ◌≤◌, ◌-◌, ℕ, Bool, true, false, List, length, min, Option, Some, None, Ok, nat_le, slice_index, OnOk, OnErr, IfOk, IfErr, IfSome, IfNone, IsSome, count_by};
ghost use Rattle.fab_base.specs.declared.limits.TheConstants.{FRAME_BYTES};
ghost use Rattle.fab_base.specs.declared.items.Item.{Item};
ghost use Rattle.fab_base.specs.declared.peers.LineResult.TheVariants.{Done, Refused as Answer};
ghost use Rattle.fab_base.specs.declared.entries.Taken.TheVariants.{Success, Failure};
ghost use Rattle.fab_link.specs.Frames.{frame, IsSound};
ghost use Rattle.fab_model.specs.State.{fits, in_use, awaits, deferred_count, lookup};
ghost use Rattle.fab_model.specs.Sending.{do_sent};
ghost use Rattle.fab_model.specs.Receiving.{draw_due};
ghost use Rattle.fab_model.specs.Arrivals.{do_draw};
ghost use Rattle.fab_model.specs.Calls.{do_call};
ghost use Rattle.fab_model.specs.Peers.{unread};
ghost use Rattle.fab_base.specs.declared.faults.Fault.TheVariants.{NoEntry};
ghost use Rattle.fab_base.specs.declared.operations.Written.{Written};
ghost use Rattle.fab_face.specs.Held.{Held, next_item, begun_of};
ghost use Rattle.fab_face.specs.Acts.{Goes, Took, Drew, DoesCall, has_read};
ghost use Rattle.fab_face.specs.Answers.{FrameLacks, MayNeed, PopsNot, PopsNotErr, is_final};
ghost use Rattle.fab_face.specs.Machine.{IsSteady, IsNext, StayNext, finished, gone_on, sending, asking, cancelling};

use fab_base::{Buf, Entry, ErrEntry, Fault, Flags, FrameHead, ItemHead, NoMemory, Refused};

/// A message to be sent. An inject call has no context.
#[derive(Clone, Copy, Drop)]
pub struct Message {
    pub tagged: bool,
    pub dest: u32,
    pub tag: u64,
    pub imm: Option<u64>,
    pub ctx: Option<u64>,
    pub flags: Flags,
}

/// What a receive asks for. The source is an index of the address vector.
#[derive(Clone, Copy, Drop)]
pub struct Ask {
    pub tagged: bool,
    pub source: Option<u32>,
    pub tag: u64,
    pub ignore: u64,
    pub ctx: u64,
}

/// The item that goes out next to a peer, lent.
#[derive(Clone, Copy, Drop)]
pub struct Next<'a> {
    pub head: &'a ItemHead,
    pub bytes: &'a [u8],
}

/// The matching machine of one endpoint: the state that its calls and frames change, by the rules of
/// libfabric, whatever the port and whatever the log. None of its calls but [`take`](Machine::take) takes memory.
pub trait Machine {
    ghost held: { Self → Held };

    /// Does nothing, and tells what holds between calls.
    fn known(&self)
        ensures { IsSteady (held self.now) };

    // ---- what goes out

    /// The item that is next for a peer. `None` exactly where nothing waits for it.
    fn next(&self, dest: u32) -> Option<Next<'_>>
        requires { dest < length (held self.now).places }
        ensures some { IfSome result (λ n. next_item (held self.now).state dest ≡ Some (record { head = n.head.now; bytes = n.bytes.now })) }
        ensures none { IfNone result (next_item (held self.now).state dest ≡ None) };

    /// How many bytes of it are posted.
    fn place(&self, dest: u32) -> u32
        requires { dest < length (held self.now).places }
        ensures { result ≡ slice_index (held self.now).places dest };

    /// Whether the completion queue has room for what the transmission of the next item writes.
    fn sent_fits(&self, dest: u32) -> bool
        requires { dest < length (held self.now).places }
        ensures { result ≡ fits (do_sent (held self.now).state dest).cq };

    /// A piece of the next item is posted up to this place, and it is not the last.
    fn go_on(&mut self, dest: u32, place: u32)
        requires below { dest < length (held self.old).places }
        requires within { (item : Item) × (next_item (held self.old).state dest ≡ Some item) × (place < item.head.total) }
        ensures { held self.new ≡ gone_on dest place (held self.old) };

    /// The last piece of the next item is posted: the item is transmitted.
    fn finish(&mut self, dest: u32)
        requires below { dest < length (held self.old).places }
        requires waits { IsSome (next_item (held self.old).state dest) }
        requires room { fits (do_sent (held self.old).state dest).cq ≡ true }
        ensures held { held self.new ≡ finished dest (held self.old) }
        ensures next { (d : ℕ) → (d ≡ dest → ⊥) → next_item (held self.new).state d ≡ next_item (held self.old).state d };

    // ---- what comes in

    /// Takes a frame of a peer: the next one of its item. False where it waits for room in the completion
    /// queue, and then nothing changes; nor does it after want of memory, which only a first frame may have.
    fn take(&mut self, source: u32, head: &FrameHead, bytes: &[u8]) -> Result<bool, NoMemory>
        requires below { source < length (held self.old).places }
        requires next { IsNext (begun_of (held self.old) source) (frame head.now bytes.now) }
        requires filled { length bytes.now ≡ head.now.len }
        requires cut { head.now.len ≡ min FRAME_BYTES (head.now.item.total - head.now.from) }
        requires sound { IsSound head.now.item }
        ensures yes { result ≡ Ok true → Goes None (held self.old) (Took source (frame head.now bytes.now)) (held self.new) }
        ensures next { result ≡ Ok true → StayNext (held self.old).state (held self.new).state }
        ensures places { (held self.new).places ≡ (held self.old).places }
        ensures no { result ≡ Ok false → FrameLacks (held self.old) source (frame head.now bytes.now) }
        ensures stays { result ≡ Ok false → held self.new ≡ held self.old }
        ensures err { OnErr result (held self.new ≡ held self.old) }
        ensures lacks { OnErr result (MayNeed (held self.old) (frame head.now bytes.now)) };

    // ---- draws (FI_MULTI_RECV of fi_msg(3))

    /// Whether a posted multi-receive matches an unexpected message.
    fn is_draw_due(&self) -> bool
        ensures { result ≡ draw_due (held self.now).state.rx };

    /// Makes the draw that is due: the first such multi-receive takes the first message that it matches. False
    /// where what this writes has no room in the completion queue, and then nothing changes.
    fn draw(&mut self) -> bool
        requires { draw_due (held self.old).state.rx ≡ true }
        ensures yes { result ≡ true → Goes None (held self.old) Drew (held self.new) }
        ensures next { StayNext (held self.old).state (held self.new).state }
        ensures no { result ≡ false → fits (do_draw (held self.old).state).cq ≡ false }
        ensures stays { result ≡ false → held self.new ≡ held self.old };

    // ---- messages

    /// Why a message is refused for a reason that does not pass. `None` exactly where it is not.
    fn send_fault(&self, message: &Message, bytes: &[u8]) -> Option<Fault>
        ensures some { IfSome result (λ why. do_call (held self.now).state (sending message.now bytes.now) ≡ (Answer why, (held self.now).state)) }
        ensures lasting { IfSome result (λ why. is_final (Answer why) ≡ true) }
        ensures none { IfNone result (is_final (do_call (held self.now).state (sending message.now bytes.now)).0 ≡ false) };

    /// Whether all transmit entries are in use.
    fn is_full(&self) -> bool
        ensures { result ≡ nat_le (held self.now).state.most_tx (in_use (held self.now).state.tx) };

    /// How many transmit entries there are.
    fn most_tx(&self) -> u32
        ensures { result ≡ (held self.now).state.most_tx };

    /// The peer at an index of the address vector.
    fn peer_at(&self, index: u32) -> Option<u32>
        ensures { result ≡ lookup (held self.now).state.av index };

    /// Accepts a message. Its buffer comes back with its completion.
    fn send(&mut self, message: &Message, buf: Buf)
        requires granted { is_final (do_call (held self.old).state (sending message.now buf)).0 ≡ false }
        requires room { nat_le (held self.old).state.most_tx (in_use (held self.old).state.tx) ≡ false }
        ensures { DoesCall (Some (sending message.now buf)) (held self.old) (held self.new) };

    /// Accepts a message whose bytes are copied: at most [`INJECT_BYTES`](fab_base::INJECT_BYTES), as no more are granted.
    fn inject(&mut self, message: &Message, bytes: &[u8])
        requires granted { is_final (do_call (held self.old).state (sending message.now bytes.now)).0 ≡ false }
        requires injected { message.now.ctx ≡ None }
        requires room { nat_le (held self.old).state.most_tx (in_use (held self.old).state.tx) ≡ false }
        ensures { DoesCall (Some (sending message.now bytes.now)) (held self.old) (held self.new) };

    // ---- receives

    /// Why a receive is refused for a reason that does not pass. `None` exactly where it is not.
    fn post_fault(&self, ask: &Ask, buf: &Buf) -> Option<Fault>
        ensures some { IfSome result (λ why. do_call (held self.now).state (asking ask.now buf.now) ≡ (Answer why, (held self.now).state)) }
        ensures lasting { IfSome result (λ why. is_final (Answer why) ≡ true) }
        ensures none { IfNone result (is_final (do_call (held self.now).state (asking ask.now buf.now)).0 ≡ false) };

    /// Posts a receive, or gives it the first unexpected message that matches. What is refused now may
    /// pass later.
    fn post(&mut self, ask: &Ask, buf: Buf) -> Result<(), Refused>
        requires granted { is_final (do_call (held self.old).state (asking ask.now buf)).0 ≡ false }
        ensures ok { OnOk result (DoesCall (Some (asking ask.now buf)) (held self.old) (held self.new)) }
        ensures next { StayNext (held self.old).state (held self.new).state }
        ensures err { IfErr result (λ r. (r.buf ≡ buf) × (do_call (held self.old).state (asking ask.now buf) ≡ (Answer r.why, (held self.old).state))) }
        ensures stays { OnErr result (held self.new ≡ held self.old) };

    /// Whether a posted receive of the context may be cancelled; of any context where none is given.
    fn may_cancel(&self, ctx: Option<u64>) -> bool
        ensures no { result ≡ false → do_call (held self.now).state (cancelling ctx) ≡ (Answer NoEntry, (held self.now).state) }
        ensures yes { result ≡ true → is_final (do_call (held self.now).state (cancelling ctx)).0 ≡ false };

    /// Cancels the first posted receive that may be cancelled.
    fn cancel(&mut self, ctx: Option<u64>) -> Result<(), Fault>
        requires there { is_final (do_call (held self.old).state (cancelling ctx)).0 ≡ false }
        ensures ok { OnOk result (DoesCall (Some (cancelling ctx)) (held self.old) (held self.new)) }
        ensures next { StayNext (held self.old).state (held self.new).state }
        ensures err { IfErr result (λ why. do_call (held self.old).state (cancelling ctx) ≡ (Answer why, (held self.old).state)) }
        ensures stays { OnErr result (held self.new ≡ held self.old) };

    // ---- completions and counters

    /// Whether no completion is unread: the next `pop` answers `NoEntry`.
    fn is_cq_empty(&self) -> bool
        ensures { result ≡ is_none (unread (held self.now).state.cq) };

    /// Takes the first completion where it is a success.
    fn pop(&mut self) -> Result<Entry, Fault>
        ensures ok { IfOk result (λ entry. (w : Written) × (unread (held self.old).state.cq ≡ Some w) × (w.entry ≡ Success entry) × (held self.new ≡ has_read w (held self.old))) }
        ensures err { IfErr result (λ why. PopsNot (held self.old).state.cq why) }
        ensures stays { OnErr result (held self.new ≡ held self.old) };

    /// Takes the first completion where it is an error.
    fn pop_error(&mut self) -> Result<ErrEntry, Fault>
        ensures ok { IfOk result (λ entry. (w : Written) × (unread (held self.old).state.cq ≡ Some w) × (w.entry ≡ Failure entry) × (held self.new ≡ has_read w (held self.old))) }
        ensures err { IfErr result (λ why. PopsNotErr (held self.old).state.cq why) }
        ensures stays { OnErr result (held self.new ≡ held self.old) };

    /// How many operations are transmitted and await the answer of their peer.
    fn awaiting(&self) -> u32
        ensures { result ≡ count_by (awaits (held self.now).state.tx) (held self.now).state.tx.live };

    /// How many operations are not transmitted: their items wait, or a fence holds them back.
    fn deferred(&self) -> u32
        ensures { result ≡ deferred_count (held self.now).state.tx };
}
