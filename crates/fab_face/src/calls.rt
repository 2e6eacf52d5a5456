//! The calls of an endpoint, by subject.
ghost use Rattle.std.specs.Prelude.{◌≡◌, is_none, ◌≢◌, ℕ, ◌+◌, ◌<◌, ◌≤◌, ◌^◌, ◌++◌, ◌∷◌, [], Bool, true, false, length, List, Option, Some, None, Ok, Err, OnOk, OnErr, IfOk, IfErr, IfSome, IfNone, IsTrue, map, count_by, nat_le, position};
ghost use Rattle.fab_base.specs.declared.items.Kind.TheVariants.{Msg, TagMsg, WriteReq, ReadReq};
ghost use Rattle.fab_base.specs.declared.items.Form.TheVariants.{Base, Fetch, Compare};
ghost use Rattle.fab_base.specs.declared.entries.PeekHow.TheVariants.{Peek, Claim, Discard};
ghost use Rattle.fab_base.specs.declared.entries.Taken.TheVariants.{Success, Failure};
ghost use Rattle.fab_base.specs.declared.peers.Level.TheVariants.{Inject};
ghost use Rattle.fab_base.specs.declared.peers.LineResult.TheVariants.{Done, Refused as Answer, Index, Bytes};
ghost use Rattle.fab_base.specs.declared.faults.Fault.TheVariants.{NoMemory as LacksMemory};
ghost use Rattle.fab_av.specs.Addresses.{inserting};
ghost use Rattle.fab_model.specs.Peers.{unread};
ghost use Rattle.fab_model.specs.State.{tally_of, awaits, deferred_count, add_capped};
ghost use Rattle.fab_model.specs.Calls.{do_call, TakeClaimed, DropClaimed, Cancel, CancelFirst, Look, Remove, Reg, Close, Put, message, request, atomic, is_peer, region_of};
ghost use Rattle.fab_face.specs.Held.{Seen, IsOpen, with_machine};
ghost use Rattle.fab_face.specs.Answers.{Sends, SendsNot, Receives, ReceivesNot, Progressed, Locally, Pops, PopsNot, PopsNotErr, ReadsOn, receive_call, atom, Inserts, adding, IsSharing, Lends, LendsNone};
ghost use Rattle.std.specs.Option.{option_map};

use crate::events::{Event, Moved};
use fab_av::InsertReport;
use fab_base::{
    Access, AtomicOp, Buf, Class, Entry, ErrEntry, Fault, Flags, NoMemory, Num, Refused, Text,
};

/// What contracts see of an endpoint.
pub trait Sees {
    // Whether the port takes no memory.
    ghost fixed: { Bool };

    // What no call of the port changes.
    ghost Home: { Type 0 };

    ghost seen: { Self → Seen Home };

    /// Does nothing, and tells what holds of an endpoint between its calls.
    fn known(&self)
        ensures { IsOpen (seen self.now) };
}

/// Messages that go out (fi_msg(3), fi_tagged(3)). None of these calls waits.
///
/// `Again` says that a size was reached: all transmit entries are in use, although this call posted what it
/// could, or the log has fewer than two free places.
pub trait Messages: Sees {
    /// Sends an untagged message (fi_send, and fi_senddata where `imm` is given). The buffer comes back in
    /// its completion, or in the refusal.
    fn send(
        &mut self,
        dest: u32,
        buf: Buf,
        imm: Option<u64>,
        ctx: u64,
        flags: Flags,
    ) -> Result<(), Refused>
        ensures ok { OnOk result (Sends Self.fixed (message Msg (Some ctx) dest 0 buf imm flags.level flags.completion flags.fence) dest (Self.seen self.old) (Self.seen self.new)) }
        ensures err { IfErr result (λ r. (r.buf ≡ buf) × SendsNot Self.fixed (message Msg (Some ctx) dest 0 buf imm flags.level flags.completion flags.fence) (Self.seen self.old) (Self.seen self.new) r.why) };

    /// Sends a tagged message (fi_tsend of fi_tagged(3), and fi_tsenddata). The buffer comes back in its
    /// completion, or in the refusal.
    fn tsend(
        &mut self,
        dest: u32,
        tag: u64,
        buf: Buf,
        imm: Option<u64>,
        ctx: u64,
        flags: Flags,
    ) -> Result<(), Refused>
        ensures ok { OnOk result (Sends Self.fixed (message TagMsg (Some ctx) dest tag buf imm flags.level flags.completion flags.fence) dest (Self.seen self.old) (Self.seen self.new)) }
        ensures err { IfErr result (λ r. (r.buf ≡ buf) × SendsNot Self.fixed (message TagMsg (Some ctx) dest tag buf imm flags.level flags.completion flags.fence) (Self.seen self.old) (Self.seen self.new) r.why) };

    /// Sends an untagged message of at most 4,096 bytes, which are copied (fi_inject, fi_injectdata): no
    /// completion is written.
    fn inject(&mut self, dest: u32, bytes: &[u8], imm: Option<u64>) -> Result<(), Fault>
        ensures ok { OnOk result (Sends Self.fixed (message Msg None dest 0 bytes.now imm Inject false false) dest (Self.seen self.old) (Self.seen self.new)) }
        ensures err { IfErr result (λ why. SendsNot Self.fixed (message Msg None dest 0 bytes.now imm Inject false false) (Self.seen self.old) (Self.seen self.new) why) };

    /// Sends a tagged message of at most 4,096 bytes, which are copied (fi_tinject, fi_tinjectdata): no
    /// completion is written.
    fn tinject(&mut self, dest: u32, tag: u64, bytes: &[u8], imm: Option<u64>) -> Result<(), Fault>
        ensures ok { OnOk result (Sends Self.fixed (message TagMsg None dest tag bytes.now imm Inject false false) dest (Self.seen self.old) (Self.seen self.new)) }
        ensures err { IfErr result (λ why. SendsNot Self.fixed (message TagMsg None dest tag bytes.now imm Inject false false) (Self.seen self.old) (Self.seen self.new) why) };
}

/// Reads, writes and atomics on regions of a peer (fi_rma(3), fi_atomic(3)).
pub trait Requests: Sees {
    /// Reads a region of the peer into the buffer, all of it (fi_read of fi_rma(3)).
    fn read(&mut self, dest: u32, key: u64, at: u64, buf: Buf, ctx: u64) -> Result<(), Refused>
        ensures ok { OnOk result (Sends Self.fixed (request ReadReq (Some ctx) dest key at (length buf) [] None true false (Some buf)) dest (Self.seen self.old) (Self.seen self.new)) }
        ensures err { IfErr result (λ r. (r.buf ≡ buf) × SendsNot Self.fixed (request ReadReq (Some ctx) dest key at (length buf) [] None true false (Some buf)) (Self.seen self.old) (Self.seen self.new) r.why) };

    /// Writes the buffer into a region of the peer (fi_write, fi_writedata).
    fn write(
        &mut self,
        dest: u32,
        key: u64,
        at: u64,
        buf: Buf,
        imm: Option<u64>,
        ctx: u64,
        flags: Flags,
    ) -> Result<(), Refused>
        ensures ok { OnOk result (Sends Self.fixed (request WriteReq (Some ctx) dest key at 0 buf imm flags.completion flags.fence (Some buf)) dest (Self.seen self.old) (Self.seen self.new)) }
        ensures err { IfErr result (λ r. (r.buf ≡ buf) × SendsNot Self.fixed (request WriteReq (Some ctx) dest key at 0 buf imm flags.completion flags.fence (Some buf)) (Self.seen self.old) (Self.seen self.new) r.why) };

    /// Writes at most 4,096 bytes, which are copied, into a region of the peer (fi_inject_write). A
    /// completion is written only where the peer refuses.
    fn inject_write(
        &mut self,
        dest: u32,
        key: u64,
        at: u64,
        bytes: &[u8],
        imm: Option<u64>,
    ) -> Result<(), Fault>
        ensures ok { OnOk result (Sends Self.fixed (request WriteReq None dest key at 0 bytes.now imm false false None) dest (Self.seen self.old) (Self.seen self.new)) }
        ensures err { IfErr result (λ why. SendsNot Self.fixed (request WriteReq None dest key at 0 bytes.now imm false false None) (Self.seen self.old) (Self.seen self.new) why) };

    /// Changes elements of a region of the peer (fi_atomic(3)).
    fn atomic(
        &mut self,
        dest: u32,
        key: u64,
        at: u64,
        op: AtomicOp,
        num: Num,
        operand: &[u8],
        ctx: u64,
        flags: Flags,
    ) -> Result<(), Fault>
        ensures ok { OnOk result (Sends Self.fixed (atomic ctx dest key at (atom op num Base) (length operand.now) operand.now [] flags.completion flags.fence None) dest (Self.seen self.old) (Self.seen self.new)) }
        ensures err { IfErr result (λ why. SendsNot Self.fixed (atomic ctx dest key at (atom op num Base) (length operand.now) operand.now [] flags.completion flags.fence None) (Self.seen self.old) (Self.seen self.new) why) };

    /// Changes elements of a region of the peer and gets the old ones (fi_fetch_atomic).
    fn fetch_atomic(
        &mut self,
        dest: u32,
        key: u64,
        at: u64,
        op: AtomicOp,
        num: Num,
        operand: &[u8],
        result_: Buf,
        ctx: u64,
    ) -> Result<(), Refused>
        ensures ok { OnOk result (Sends Self.fixed (atomic ctx dest key at (atom op num Fetch) (length result_) operand.now [] true false (Some result_)) dest (Self.seen self.old) (Self.seen self.new)) }
        ensures err { IfErr result (λ r. (r.buf ≡ result_) × SendsNot Self.fixed (atomic ctx dest key at (atom op num Fetch) (length result_) operand.now [] true false (Some result_)) (Self.seen self.old) (Self.seen self.new) r.why) };

    /// Changes elements of a region of the peer that compare as asked, and gets the old ones
    /// (fi_compare_atomic).
    fn compare_atomic(
        &mut self,
        dest: u32,
        key: u64,
        at: u64,
        op: AtomicOp,
        num: Num,
        operand: &[u8],
        compare: &[u8],
        result_: Buf,
        ctx: u64,
    ) -> Result<(), Refused>
        ensures ok { OnOk result (Sends Self.fixed (atomic ctx dest key at (atom op num Compare) (length result_) operand.now compare.now true false (Some result_)) dest (Self.seen self.old) (Self.seen self.new)) }
        ensures err { IfErr result (λ r. (r.buf ≡ result_) × SendsNot Self.fixed (atomic ctx dest key at (atom op num Compare) (length result_) operand.now compare.now true false (Some result_)) (Self.seen self.old) (Self.seen self.new) r.why) };
}

/// Receives (fi_msg(3), fi_tagged(3)). None of these calls takes memory.
pub trait Receives: Sees {
    /// Posts a receive for an untagged message, or takes the first unexpected one that matches (fi_recv).
    fn recv(&mut self, source: Option<u32>, buf: Buf, ctx: u64) -> Result<(), Refused>
        ensures ok { OnOk result (Receives (receive_call false source 0 0 buf None ctx) (Self.seen self.old) (Self.seen self.new)) }
        ensures err { IfErr result (λ r. (r.buf ≡ buf) × ReceivesNot (receive_call false source 0 0 buf None ctx) (Self.seen self.old) (Self.seen self.new) r.why) };

    /// Posts a receive for a tagged message, or takes the first unexpected one that matches (fi_trecv). Tags
    /// are compared in the bits where `ignore` is 0.
    fn trecv(
        &mut self,
        source: Option<u32>,
        tag: u64,
        ignore: u64,
        buf: Buf,
        ctx: u64,
    ) -> Result<(), Refused>
        ensures ok { OnOk result (Receives (receive_call true source tag ignore buf None ctx) (Self.seen self.old) (Self.seen self.new)) }
        ensures err { IfErr result (λ r. (r.buf ≡ buf) × ReceivesNot (receive_call true source tag ignore buf None ctx) (Self.seen self.old) (Self.seen self.new) r.why) };

    /// Cancels the first posted receive of the context into which nothing is under way (fi_cancel of
    /// fi_endpoint(3)). Its buffer comes back in the completion.
    fn cancel(&mut self, ctx: u64) -> Result<(), Fault>
        ensures ok { OnOk result (Receives (Cancel ctx) (Self.seen self.old) (Self.seen self.new)) }
        ensures err { IfErr result (λ why. ReceivesNot (Cancel ctx) (Self.seen self.old) (Self.seen self.new) why) };

    /// Cancels the first posted receive into which nothing is under way, whatever its context.
    fn cancel_first(&mut self) -> Result<(), Fault>
        ensures ok { OnOk result (Receives CancelFirst (Self.seen self.old) (Self.seen self.new)) }
        ensures err { IfErr result (λ why. ReceivesNot CancelFirst (Self.seen self.old) (Self.seen self.new) why) };
}

/// Unexpected messages looked at, and set aside (FI_PEEK, FI_CLAIM and FI_DISCARD of fi_tagged(3)). None of
/// these calls takes memory.
pub trait Looks: Sees {
    /// Looks for an unexpected message (FI_PEEK). The completion says what was found.
    fn peek(&mut self, source: Option<u32>, tag: u64, ignore: u64, ctx: u64) -> Result<(), Fault>
        ensures ok { OnOk result (Receives (Look Peek source tag ignore ctx) (Self.seen self.old) (Self.seen self.new)) }
        ensures err { IfErr result (λ why. ReceivesNot (Look Peek source tag ignore ctx) (Self.seen self.old) (Self.seen self.new) why) };

    /// Sets an unexpected message aside under the context (FI_PEEK with FI_CLAIM).
    fn claim(&mut self, source: Option<u32>, tag: u64, ignore: u64, ctx: u64) -> Result<(), Fault>
        ensures ok { OnOk result (Receives (Look Claim source tag ignore ctx) (Self.seen self.old) (Self.seen self.new)) }
        ensures err { IfErr result (λ why. ReceivesNot (Look Claim source tag ignore ctx) (Self.seen self.old) (Self.seen self.new) why) };

    /// Throws an unexpected message away (FI_PEEK with FI_DISCARD).
    fn discard(&mut self, source: Option<u32>, tag: u64, ignore: u64, ctx: u64) -> Result<(), Fault>
        ensures ok { OnOk result (Receives (Look Discard source tag ignore ctx) (Self.seen self.old) (Self.seen self.new)) }
        ensures err { IfErr result (λ why. ReceivesNot (Look Discard source tag ignore ctx) (Self.seen self.old) (Self.seen self.new) why) };

    /// Receives the message that was claimed under the context (FI_CLAIM).
    fn take(&mut self, buf: Buf, ctx: u64) -> Result<(), Refused>
        ensures ok { OnOk result (Receives (TakeClaimed buf ctx) (Self.seen self.old) (Self.seen self.new)) }
        ensures err { IfErr result (λ r. (r.buf ≡ buf) × ReceivesNot (TakeClaimed buf ctx) (Self.seen self.old) (Self.seen self.new) r.why) };

    /// Throws the message away that was claimed under the context (FI_CLAIM with FI_DISCARD).
    fn drop_claimed(&mut self, ctx: u64) -> Result<(), Fault>
        ensures ok { OnOk result (Receives (DropClaimed ctx) (Self.seen self.old) (Self.seen self.new)) }
        ensures err { IfErr result (λ why. ReceivesNot (DropClaimed ctx) (Self.seen self.old) (Self.seen self.new) why) };
}

/// Buffers for many untagged messages (FI_MULTI_RECV of fi_msg(3)).
pub trait Multis: Sees {
    /// Does nothing, and tells what holds of multi-receives between calls.
    fn sharing(&self)
        ensures { IsSharing (Self.seen self.now).held };

    /// Posts a buffer for many untagged messages, until fewer than `least` bytes are free (FI_MULTI_RECV).
    fn recv_multi(
        &mut self,
        source: Option<u32>,
        buf: Buf,
        least: u32,
        ctx: u64,
    ) -> Result<(), Refused>
        ensures ok { OnOk result (Receives (receive_call false source 0 0 buf (Some least) ctx) (Self.seen self.old) (Self.seen self.new)) }
        ensures err { IfErr result (λ r. (r.buf ≡ buf) × ReceivesNot (receive_call false source 0 0 buf (Some least) ctx) (Self.seen self.old) (Self.seen self.new) r.why) };

    /// Lends bytes of the oldest multi-receive of this context whose buffer has not come back. They are the bytes of
    /// messages that are whole; a message that is still arriving has not changed them. `None` exactly where there is no such
    /// multi-receive, or where the bytes would end behind its buffer.
    fn multi_bytes(&self, ctx: u64, at: u32, len: u32) -> Option<&[u8]>
        ensures some { IfSome result (λ bytes. Lends (Self.seen self.now).held ctx at len bytes.now) }
        ensures none { IfNone result (LendsNone (Self.seen self.now).held ctx at len) };
}

/// Progress and the completion queue (fi_cq(3)).
pub trait Progress: Sees {
    /// Moves at most `budget` frames, and makes the draws that are due, before the first frame and again
    /// behind the last: an endpoint moves only when it is called (FI_PROGRESS_MANUAL of fi_domain(3)). Lanes
    /// have their turns in a circle, from the one that is next on. What was moved before want of memory stays
    /// moved.
    fn progress(&mut self, budget: u32) -> Result<Moved, NoMemory>
        ensures { Progressed Self.fixed budget (Self.seen self.old) (Self.seen self.new) result };

    /// Whether no completion is unread: the next `cq_pop` answers `NoEntry`. It makes no progress.
    fn cq_is_empty(&self) -> bool
        ensures { result ≡ is_none (unread (Self.seen self.now).held.state.cq) };

    /// Takes the first completion (fi_cq_read). `NoEntry` where there is none, which is FI_EAGAIN there, and
    /// `Avail` where it is an error.
    fn cq_pop(&mut self) -> Result<Entry, Fault>
        ensures ok { IfOk result (λ entry. Pops (Success entry) (Self.seen self.old) (Self.seen self.new)) }
        ensures err { IfErr result (λ why. (Self.seen self.new ≡ Self.seen self.old) × PopsNot (Self.seen self.old).held.state.cq why) };

    /// Takes the first completion, which is an error (fi_cq_readerr). `NoEntry` where it is none.
    fn cq_readerr(&mut self) -> Result<ErrEntry, Fault>
        ensures ok { IfOk result (λ entry. Pops (Failure entry) (Self.seen self.old) (Self.seen self.new)) }
        ensures err { IfErr result (λ why. (Self.seen self.new ≡ Self.seen self.old) × PopsNotErr (Self.seen self.old).held.state.cq why) };

    /// Makes progress, and then takes the first completion. `NoEntry` where there is none: then `budget` frames
    /// were moved, or nothing is left to move, or the log has fewer than two free places.
    fn cq_read(&mut self, budget: u32) -> Result<Entry, Fault>
        ensures { ReadsOn Self.fixed budget (Self.seen self.old) (Self.seen self.new) result };
}

/// Counters (fi_cntr(3)). No call of theirs makes progress, which fi_cntr_read(3) may.
pub trait Counters: Sees {
    /// How many operations of the class succeeded (fi_cntr_read). It stays at 2^64 - 1.
    fn cntr_read(&self, class: Class) -> u64
        ensures { result ≡ (tally_of (Self.seen self.now).held.state.counters class).ok };

    /// How many operations of the class failed (fi_cntr_readerr). It stays at 2^64 - 1.
    fn cntr_readerr(&self, class: Class) -> u64
        ensures { result ≡ (tally_of (Self.seen self.now).held.state.counters class).err };

    /// Whether so many operations of the class succeeded.
    fn cntr_reached(&self, class: Class, n: u64) -> bool
        ensures { result ≡ nat_le n (tally_of (Self.seen self.now).held.state.counters class).ok };

    /// Adds to the successes of the class (fi_cntr_add).
    fn cntr_add(&mut self, class: Class, n: u64)
        ensures { Self.seen self.new ≡ record (Self.seen self.old) { held = with_machine (adding class n (Self.seen self.old).held.state) (Self.seen self.old).held } };
}

/// The address vector (fi_av(3)).
pub trait Addresses: Sees {
    /// Inserts names into the address vector (fi_av_insert). A name that is there already keeps
    /// its index. Want of memory leaves it as it was.
    fn insert(&mut self, names: &[Text]) -> Result<InsertReport, NoMemory>
        requires { length names.now < 2 ^ 32 }
        ensures ok { IfOk result (λ report. Inserts names.now report (Self.seen self.old) (Self.seen self.new)) }
        ensures err { OnErr result (Self.seen self.new ≡ Self.seen self.old) };

    /// Removes an address (fi_av_remove). What was accepted before is not touched.
    fn remove(&mut self, index: u32) -> Result<(), Fault>
        ensures ok { OnOk result (Locally (Remove index) Done (Self.seen self.old) (Self.seen self.new)) }
        ensures err { IfErr result (λ why. Locally (Remove index) (Answer why) (Self.seen self.old) (Self.seen self.new)) };

    /// The index under which the peer stands; None is FI_ADDR_NOTAVAIL.
    fn index_of(&self, peer: u32) -> Option<u32>
        ensures { result ≡ position (is_peer peer) (Self.seen self.now).held.state.av };
}

/// Memory regions (fi_mr(3)).
pub trait Regions: Sees {
    /// Registers a region under its key (fi_mr_reg). Want of memory is answered only where nothing else stands against it.
    fn reg(&mut self, key: u64, access: Access, buf: Buf) -> Result<(), Refused>
        ensures ok { OnOk result (Locally (Reg key access buf) Done (Self.seen self.old) (Self.seen self.new)) }
        ensures err { IfErr result (λ r. (r.buf ≡ buf) × (Self.seen self.new ≡ Self.seen self.old) × (r.why ≢ LacksMemory → Locally (Reg key access buf) (Answer r.why) (Self.seen self.old) (Self.seen self.new))) }
        ensures lacks { IfErr result (λ r. r.why ≡ LacksMemory → (do_call (Self.seen self.old).held.state (Reg key access buf)).0 ≡ Done) };

    /// Closes a region and hands its bytes back (fi_close of fi_mr(3)).
    fn close_region(&mut self, key: u64) -> Result<Buf, Fault>
        ensures ok { IfOk result (λ buf. Locally (Close key) (Bytes buf) (Self.seen self.old) (Self.seen self.new)) }
        ensures err { IfErr result (λ why. Locally (Close key) (Answer why) (Self.seen self.old) (Self.seen self.new)) };

    /// Lends the bytes of a region.
    fn region_bytes(&self, key: u64) -> Option<&[u8]>
        ensures { option_map (λ b. b.now) result ≡ option_map (λ r. r.bytes) (region_of (Self.seen self.now).held.state key) };

    /// Writes into a region of one's own.
    fn put(&mut self, key: u64, at: u64, src: &[u8]) -> Result<(), Fault>
        ensures ok { OnOk result (Locally (Put key at src.now) Done (Self.seen self.old) (Self.seen self.new)) }
        ensures err { IfErr result (λ why. Locally (Put key at src.now) (Answer why) (Self.seen self.old) (Self.seen self.new)) };
}

/// What the endpoint tells of itself.
pub trait Logs: Sees {
    /// Takes the oldest event. None exactly where the log is empty.
    fn log_pop(&mut self) -> Option<Event>
        ensures some { IfSome result (λ event. Self.seen self.old ≡ record (Self.seen self.new) { log = event ∷ (Self.seen self.new).log }) }
        ensures none { IfNone result (((Self.seen self.old).log ≡ []) × (Self.seen self.new ≡ Self.seen self.old)) };

    /// Empties the log.
    fn log_clear(&mut self)
        ensures { Self.seen self.new ≡ record (Self.seen self.old) { log = [] } };

    /// How many operations are transmitted and await the answer of their peer.
    fn awaiting(&self) -> u32
        ensures { result ≡ count_by (awaits (Self.seen self.now).held.state.tx) (Self.seen self.now).held.state.tx.live };

    /// How many operations are not transmitted: their items wait for their lanes, or a fence holds them back (FI_FENCE).
    fn deferred(&self) -> u32
        ensures { result ≡ deferred_count (Self.seen self.now).held.state.tx };

    /// Whether the last transmit call posted a frame.
    fn pushed(&self) -> bool
        ensures { result ≡ (Self.seen self.now).pushed };
}
