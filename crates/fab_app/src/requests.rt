//! Reads, writes and atomics on regions of a peer (fi_rma(3), fi_atomic(3)). `at` counts bytes from the region's start.
//!
//! A call is refused by the first of these that applies: `NotSupported` where a capability was not granted, `MsgSize` where there
//! are more than `Info.message` bytes, or more than `Info.inject` that are copied, operand and compare together, or that an atomic
//! brings back, `Invalid` where no address stands at index `dest`, or where an atomic is not of whole elements or has a form that
//! its operation has not, `Again(TxFull)` where `Info.tx` operations are under way. A refused call does nothing of what it was
//! asked for. Before it was refused it may have posted frames of earlier calls. What the peer refuses comes as an error: `NoKey`,
//! `Access`, `Range`.
ghost use Rattle.std.specs.Prelude.{◌≡◌, [], length, Some, None, true, false, OnOk, IfErr};
ghost use Rattle.fab_base.specs.declared.items.Kind.TheVariants.{ReadReq, WriteReq};
ghost use Rattle.fab_base.specs.declared.items.Form.TheVariants.{Base, Fetch, Compare};
ghost use Rattle.fab_model.specs.Calls.{request, atomic};
ghost use Rattle.fab_face.specs.Answers.{Sends, SendsNot, atom};
ghost use Rattle.fab_app.specs.Cleared.{cleared, is_log_full};

use crate::endpoint::{Calls, Endpoint};
use fab_base::{AtomicOp, Buf, Fault, Flags, Num, Refused};

impl<E: Calls + Drop> Endpoint<E> {
    /// Reads a region of the peer at index `dest` into the buffer, all of it (fi_read). The buffer comes back in
    /// `Entry::Read`, in the error, or in the refusal.
    pub fn read(&mut self, dest: u32, key: u64, at: u64, buf: Buf, ctx: u64) -> Result<(), Refused>
        ensures ok { OnOk result (Sends E.fixed (request ReadReq (Some ctx) dest key at (length buf) [] None true false (Some buf)) dest (cleared (E.seen self.old)) (E.seen self.new)) }
        ensures err { IfErr result (λ r. (r.buf ≡ buf) × SendsNot E.fixed (request ReadReq (Some ctx) dest key at (length buf) [] None true false (Some buf)) (cleared (E.seen self.old)) (E.seen self.new) r.why) }
        ensures never { IfErr result (λ r. is_log_full r.why ≡ false) }
    {
        self.inner.log_clear();
        self.inner.known();
        self.inner.read(dest, key, at, buf, ctx)
    }

    /// Writes the buffer into a region of the peer (fi_write, and fi_writedata where `imm` is given). The buffer comes back
    /// in `Entry::Wrote`, in the error, or in the refusal; of an endpoint with selective completion, and without
    /// `flags.completion`, it is dropped where the write succeeds. It ends once the peer has answered, whatever level the flags
    /// name.
    pub fn write(
        &mut self,
        dest: u32,
        key: u64,
        at: u64,
        buf: Buf,
        imm: Option<u64>,
        ctx: u64,
        flags: Flags,
    ) -> Result<(), Refused>
        ensures ok { OnOk result (Sends E.fixed (request WriteReq (Some ctx) dest key at 0 buf imm flags.completion flags.fence (Some buf)) dest (cleared (E.seen self.old)) (E.seen self.new)) }
        ensures err { IfErr result (λ r. (r.buf ≡ buf) × SendsNot E.fixed (request WriteReq (Some ctx) dest key at 0 buf imm flags.completion flags.fence (Some buf)) (cleared (E.seen self.old)) (E.seen self.new) r.why) }
        ensures never { IfErr result (λ r. is_log_full r.why ≡ false) }
    {
        self.inner.log_clear();
        self.inner.known();
        self.inner.write(dest, key, at, buf, imm, ctx, flags)
    }

    /// Writes at most 4,096 bytes, which are copied, into a region of the peer (fi_inject_write): the caller may use them
    /// again at once. A completion is written only where the peer refuses.
    pub fn inject_write(
        &mut self,
        dest: u32,
        key: u64,
        at: u64,
        bytes: &[u8],
        imm: Option<u64>,
    ) -> Result<(), Fault>
        ensures ok { OnOk result (Sends E.fixed (request WriteReq None dest key at 0 bytes.now imm false false None) dest (cleared (E.seen self.old)) (E.seen self.new)) }
        ensures err { IfErr result (λ why. SendsNot E.fixed (request WriteReq None dest key at 0 bytes.now imm false false None) (cleared (E.seen self.old)) (E.seen self.new) why) }
        ensures never { IfErr result (λ why. is_log_full why ≡ false) }
    {
        self.inner.log_clear();
        self.inner.known();
        self.inner.inject_write(dest, key, at, bytes, imm)
    }

    /// Changes elements of a region of the peer (fi_atomic), which gives `remote_write`. `at` is a multiple of an element's bytes.
    /// The operand has at most 4,096 bytes and is copied. The completion is `Entry::Updated`, once the peer has answered,
    /// whatever level the flags name.
    pub fn atomic(
        &mut self,
        dest: u32,
        key: u64,
        at: u64,
        op: AtomicOp,
        num: Num,
        operand: &[u8],
        ctx: u64,
        flags: Flags,
    ) -> Result<(), Fault>
        ensures ok { OnOk result (Sends E.fixed (atomic ctx dest key at (atom op num Base) (length operand.now) operand.now [] flags.completion flags.fence None) dest (cleared (E.seen self.old)) (E.seen self.new)) }
        ensures err { IfErr result (λ why. SendsNot E.fixed (atomic ctx dest key at (atom op num Base) (length operand.now) operand.now [] flags.completion flags.fence None) (cleared (E.seen self.old)) (E.seen self.new) why) }
        ensures never { IfErr result (λ why. is_log_full why ≡ false) }
    {
        self.inner.log_clear();
        self.inner.known();
        self.inner
            .atomic(dest, key, at, op, num, operand, ctx, flags)
    }

    /// Changes elements of a region of the peer and gets the old ones (fi_fetch_atomic), which come in `Entry::Fetched`.
    /// The region gives both rights. `result_` has as many bytes as the operand. That of `AtomicOp::AtomicRead` has none: there
    /// `result_` says how many are read, and the region gives `remote_read`.
    pub fn fetch_atomic(
        &mut self,
        dest: u32,
        key: u64,
        at: u64,
        op: AtomicOp,
        num: Num,
        operand: &[u8],
        result_: Buf,
        ctx: u64,
    ) -> Result<(), Refused>
        ensures ok { OnOk result (Sends E.fixed (atomic ctx dest key at (atom op num Fetch) (length result_) operand.now [] true false (Some result_)) dest (cleared (E.seen self.old)) (E.seen self.new)) }
        ensures err { IfErr result (λ r. (r.buf ≡ result_) × SendsNot E.fixed (atomic ctx dest key at (atom op num Fetch) (length result_) operand.now [] true false (Some result_)) (cleared (E.seen self.old)) (E.seen self.new) r.why) }
        ensures never { IfErr result (λ r. is_log_full r.why ≡ false) }
    {
        self.inner.log_clear();
        self.inner.known();
        self.inner
            .fetch_atomic(dest, key, at, op, num, operand, result_, ctx)
    }

    /// Changes elements of a region of the peer that compare as asked, and gets the old ones (fi_compare_atomic).
    /// The region gives both rights. Operand, compare and `result_` have as many bytes each, so at most 2,048.
    pub fn compare_atomic(
        &mut self,
        dest: u32,
        key: u64,
        at: u64,
        op: AtomicOp,
        num: Num,
        operand: &[u8],
        compare: &[u8],
        result_: Buf,
        ctx: u64,
    ) -> Result<(), Refused>
        ensures ok { OnOk result (Sends E.fixed (atomic ctx dest key at (atom op num Compare) (length result_) operand.now compare.now true false (Some result_)) dest (cleared (E.seen self.old)) (E.seen self.new)) }
        ensures err { IfErr result (λ r. (r.buf ≡ result_) × SendsNot E.fixed (atomic ctx dest key at (atom op num Compare) (length result_) operand.now compare.now true false (Some result_)) (cleared (E.seen self.old)) (E.seen self.new) r.why) }
        ensures never { IfErr result (λ r. is_log_full r.why ≡ false) }
    {
        self.inner.log_clear();
        self.inner.known();
        self.inner
            .compare_atomic(dest, key, at, op, num, operand, compare, result_, ctx)
    }
}
