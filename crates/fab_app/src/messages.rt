//! Messages that go out (fi_msg(3), fi_tagged(3)).
//!
//! A call is refused by the first of these that applies: `NotSupported` where a capability was not granted, `MsgSize` where there
//! are more than `Info.message` bytes, or more than `Info.inject` of an inject call, `Invalid` where no address stands at index
//! `dest`, `Again(TxFull)` where `Info.tx` operations are under way. A refused call does nothing of what it was asked for. Before it
//! was refused it may have posted frames of earlier calls.
ghost use Rattle.std.specs.Prelude.{◌≡◌, Some, None, true, false, OnOk, IfErr};
ghost use Rattle.fab_base.specs.declared.items.Kind.TheVariants.{Msg, TagMsg};
ghost use Rattle.fab_base.specs.declared.peers.Level.TheVariants.{Inject};
ghost use Rattle.fab_model.specs.Calls.{message};
ghost use Rattle.fab_face.specs.Answers.{Sends, SendsNot};
ghost use Rattle.fab_app.specs.Cleared.{cleared, is_log_full};

use crate::endpoint::{Calls, Endpoint};
use fab_base::{Buf, Fault, Flags, Level, Refused};

/// A completion is written once the last frame of the message is posted (FI_COMPLETION, FI_TRANSMIT_COMPLETE).
pub const COMPLETES: Flags = Flags {
    completion: true,
    level: Level::Transmit,
    fence: false,
};

impl<E: Calls + Drop> Endpoint<E> {
    /// Sends an untagged message (fi_send, and fi_senddata where `imm` is given) to the peer that stands at index `dest`
    /// of the address vector. The buffer moves in, and comes back in the completion (`Entry::Sent`) or in the refusal. Of an
    /// endpoint with selective completion, and without `flags.completion`, it is dropped when the operation ends, and does not
    /// come back.
    pub fn send(
        &mut self,
        dest: u32,
        buf: Buf,
        imm: Option<u64>,
        ctx: u64,
        flags: Flags,
    ) -> Result<(), Refused>
        ensures ok { OnOk result (Sends E.fixed (message Msg (Some ctx) dest 0 buf imm flags.level flags.completion flags.fence) dest (cleared (E.seen self.old)) (E.seen self.new)) }
        ensures err { IfErr result (λ r. (r.buf ≡ buf) × SendsNot E.fixed (message Msg (Some ctx) dest 0 buf imm flags.level flags.completion flags.fence) (cleared (E.seen self.old)) (E.seen self.new) r.why) }
        ensures never { IfErr result (λ r. is_log_full r.why ≡ false) }
    {
        self.inner.log_clear();
        self.inner.known();
        self.inner.send(dest, buf, imm, ctx, flags)
    }

    /// Sends a tagged message (fi_tsend, and fi_tsenddata where `imm` is given), else as `send`.
    pub fn tsend(
        &mut self,
        dest: u32,
        tag: u64,
        buf: Buf,
        imm: Option<u64>,
        ctx: u64,
        flags: Flags,
    ) -> Result<(), Refused>
        ensures ok { OnOk result (Sends E.fixed (message TagMsg (Some ctx) dest tag buf imm flags.level flags.completion flags.fence) dest (cleared (E.seen self.old)) (E.seen self.new)) }
        ensures err { IfErr result (λ r. (r.buf ≡ buf) × SendsNot E.fixed (message TagMsg (Some ctx) dest tag buf imm flags.level flags.completion flags.fence) (cleared (E.seen self.old)) (E.seen self.new) r.why) }
        ensures never { IfErr result (λ r. is_log_full r.why ≡ false) }
    {
        self.inner.log_clear();
        self.inner.known();
        self.inner.tsend(dest, tag, buf, imm, ctx, flags)
    }

    /// Sends an untagged message of at most 4,096 bytes, which are copied (fi_inject, fi_injectdata): the caller may use
    /// them again at once, and no completion is written.
    pub fn inject(&mut self, dest: u32, bytes: &[u8], imm: Option<u64>) -> Result<(), Fault>
        ensures ok { OnOk result (Sends E.fixed (message Msg None dest 0 bytes.now imm Inject false false) dest (cleared (E.seen self.old)) (E.seen self.new)) }
        ensures err { IfErr result (λ why. SendsNot E.fixed (message Msg None dest 0 bytes.now imm Inject false false) (cleared (E.seen self.old)) (E.seen self.new) why) }
        ensures never { IfErr result (λ why. is_log_full why ≡ false) }
    {
        self.inner.log_clear();
        self.inner.known();
        self.inner.inject(dest, bytes, imm)
    }

    /// Sends a tagged message of at most 4,096 bytes, which are copied (fi_tinject, fi_tinjectdata), else as `inject`.
    pub fn tinject(
        &mut self,
        dest: u32,
        tag: u64,
        bytes: &[u8],
        imm: Option<u64>,
    ) -> Result<(), Fault>
        ensures ok { OnOk result (Sends E.fixed (message TagMsg None dest tag bytes.now imm Inject false false) dest (cleared (E.seen self.old)) (E.seen self.new)) }
        ensures err { IfErr result (λ why. SendsNot E.fixed (message TagMsg None dest tag bytes.now imm Inject false false) (cleared (E.seen self.old)) (E.seen self.new) why) }
        ensures never { IfErr result (λ why. is_log_full why ≡ false) }
    {
        self.inner.log_clear();
        self.inner.known();
        self.inner.tinject(dest, tag, bytes, imm)
    }
}
