//! Messages that go out (fi_msg(3), fi_tagged(3)).
ghost use Rattle.std.specs.Prelude.{◌≡◌, ◌≢◌, ◌<◌, ◌≤◌, ◌+◌, ◌∷◌, [], length, Bool, true, false, Some, None, IfErr, OnOk, OnErr, Ok};
ghost use Rattle.std.specs.List.{list_any};
ghost use Rattle.fab_face.specs.Machine.{sending};
ghost use Rattle.fab_ep.specs.Value.{seen};
ghost use Rattle.std.specs.Prelude.{IfSome, IfNone, ℕ, nat_le};
ghost use Rattle.fab_model.specs.State.{in_use, lookup};
ghost use Rattle.fab_model.specs.Calls.{Transmit, do_call};
ghost use Rattle.fab_model.specs.Sending.{Order};
ghost use Rattle.fab_face.specs.Acts.{Went, Did};
ghost use Rattle.fab_face.specs.Answers.{Sends, SendsNot, is_final};
ghost use Rattle.fab_face.specs.declared.events.Event.TheVariants.{Call as Called};
ghost use Rattle.fab_face.specs.Held.{next_frame, next_item};
ghost use Rattle.fab_ep.specs.Tries.{left_for};
ghost use Rattle.fab_ep.specs.Sends.{Admits, LetsOutOne, LetsOut, IsOnly, IsFree, logging};

use crate::endpoint::{Endpoint, Tried, is_short};
use fab_base::{Buf, Busy, Fault, Flags, Level, Refused};
use fab_face::calls::Messages;
use fab_face::events::Event;
use fab_face::machine::{Machine, Message};
use fab_link::Port;

/// The flags of an inject call: it completes when it is transmitted, and writes no completion.
const SILENT: Flags = Flags {
    completion: false,
    level: Level::Inject,
    fence: false,
};

impl<P: Port, C: Machine> Endpoint<P, C> {
    /// Whether a transmit call may be accepted now that is not refused for good. Where all transmit entries
    /// are in use, what waits is posted first, as far as that may be.
    pub(crate) fn make_place(&mut self) -> Result<(), Fault>
        ensures ok { OnOk result ((o : Order) → is_final (do_call self.old.held.state (Transmit o)).0 ≡ false → Admits (Transmit o) (seen P.Port self.old) (seen P.Port self.new)) }
        ensures err { IfErr result (λ why. (o : Order) → is_final (do_call self.old.held.state (Transmit o)).0 ≡ false → SendsNot P.FIXED (Transmit o) (seen P.Port self.old) (seen P.Port self.new) why) }
    {
        self.pushed = false;
        if is_short(&self.log, self.log_size) {
            return Err(Fault::Again(Busy::LogFull(self.log_size)));
        }
        if !self.core.is_full() {
            return Ok(());
        }
        let most = self.core.most_tx();
        let Ok(()) = self.push() else {
            return Err(Fault::NoMemory);
        };
        if self.core.is_full() {
            return Err(Fault::Again(Busy::TxFull(most)));
        }
        Ok(())
    }

    /// Whether a message may be accepted now.
    fn admit(&mut self, message: &Message, bytes: &[u8]) -> Result<(), Fault>
        ensures ok { OnOk result (Admits (sending message.now bytes.now) (seen P.Port self.old) (seen P.Port self.new)) }
        ensures err { IfErr result (λ why. SendsNot P.FIXED (sending message.now bytes.now) (seen P.Port self.old) (seen P.Port self.new) why) }
    {
        if let Some(why) = self.core.send_fault(message, bytes) {
            self.pushed = false;
            return Err(why);
        }
        self.make_place()
    }

    /// Posts the next frame for a peer to which one item waits at most; whether it did.
    fn let_out_one(&mut self, dest: u32) -> bool
        requires below { dest < P.peer_count self.old.port }
        requires place { next_frame self.old.held dest ≢ None → length self.old.log + 1 ≤ self.old.log_size }
        ensures out { LetsOutOne P.FIXED (seen P.Port self.old) (seen P.Port self.new) dest result }
        ensures next { self.new.next ≡ self.old.next }
        ensures ins { P.ins self.new.port ≡ P.ins self.old.port }
        ensures less { result ≡ true → left_for self.new.held dest < left_for self.old.held dest }
    {
        self.core.known();
        let Ok(tried) = self.post_here(dest) else {
            return false;
        };
        let moved = tried == Tried::Moved;
        self.pushed |= moved;
        moved
    }

    /// Posts what may go at once of the only item that waits for a peer.
    pub(crate) fn let_out(&mut self, dest: u32)
        requires below { dest < P.peer_count self.old.port }
        requires place { length self.old.log + 1 ≤ self.old.log_size }
        requires only { IsOnly self.old.held dest }
        ensures out { LetsOut P.FIXED (seen P.Port self.old) (seen P.Port self.new) dest }
        ensures next { self.new.next ≡ self.old.next }
        ensures ins { P.ins self.new.port ≡ P.ins self.old.port }
    {
        while self.let_out_one(dest) {}
    }

    /// The peer at this index, where nothing waits for it.
    pub(crate) fn free_peer(&self, index: u32) -> Option<u32>
        ensures some { IfSome result (λ t. IsFree (seen P.Port self.now) index t) }
        ensures none { IfNone result ((t : ℕ) → lookup self.now.held.state.av index ≡ Some t → next_item self.now.held.state t ≢ None) }
    {
        self.core.known();
        let Some(peer) = self.core.peer_at(index) else {
            return None;
        };
        match self.core.next(peer) {
            Some(_item) => None,
            None => Some(peer),
        }
    }

    /// The message was accepted: the call is logged.
    pub(crate) fn log_call(&mut self)
        requires place { length self.old.log + 1 ≤ self.old.log_size }
        ensures { seen P.Port self.new ≡ logging Called (seen P.Port self.old) }
    {
        self.log.push_back_reserved(Event::Call);
    }

    /// Accepts a message, and logs the call.
    fn accept(&mut self, message: &Message, buf: Buf)
        requires granted { is_final (do_call self.old.held.state (sending message.now buf)).0 ≡ false }
        requires room { nat_le self.old.held.state.most_tx (in_use self.old.held.state.tx) ≡ false }
        requires place { length self.old.log + 1 ≤ self.old.log_size }
        ensures did { Went (Some (sending message.now buf)) (seen P.Port self.old) (seen P.Port self.new) (Did ∷ []) }
        ensures pushed { self.new.pushed ≡ self.old.pushed }
        ensures next { self.new.next ≡ self.old.next }
        ensures ins { P.ins self.new.port ≡ P.ins self.old.port }
    {
        self.core.known();
        self.core.send(message, buf);
        self.log_call();
    }

    /// Sends a message whose buffer comes back with its completion.
    pub(crate) fn send_message(&mut self, message: &Message, buf: Buf) -> Result<(), Refused>
        ensures ok { OnOk result (Sends P.FIXED (sending message.now buf) message.now.dest (seen P.Port self.old) (seen P.Port self.new)) }
        ensures err { IfErr result (λ r. (r.buf ≡ buf) × SendsNot P.FIXED (sending message.now buf) (seen P.Port self.old) (seen P.Port self.new) r.why) }
    {
        if let Err(why) = self.admit(message, buf.as_slice()) {
            return Err(Refused { why, buf });
        }
        let free = self.free_peer(message.dest);
        self.accept(message, buf);
        let Some(peer) = free else {
            return Ok(());
        };
        self.let_out(peer);
        Ok(())
    }

    /// Accepts a message whose bytes are copied, and logs the call.
    fn accept_copy(&mut self, message: &Message, bytes: &[u8])
        requires granted { is_final (do_call self.old.held.state (sending message.now bytes.now)).0 ≡ false }
        requires injected { message.now.ctx ≡ None }
        requires room { nat_le self.old.held.state.most_tx (in_use self.old.held.state.tx) ≡ false }
        requires place { length self.old.log + 1 ≤ self.old.log_size }
        ensures did { Went (Some (sending message.now bytes.now)) (seen P.Port self.old) (seen P.Port self.new) (Did ∷ []) }
        ensures pushed { self.new.pushed ≡ self.old.pushed }
        ensures next { self.new.next ≡ self.old.next }
        ensures ins { P.ins self.new.port ≡ P.ins self.old.port }
    {
        self.core.known();
        self.core.inject(message, bytes);
        self.log_call();
    }

    /// Sends a message whose bytes are copied, and which completes in silence.
    pub(crate) fn inject_message(&mut self, message: &Message, bytes: &[u8]) -> Result<(), Fault>
        requires injected { message.now.ctx ≡ None }
        ensures ok { OnOk result (Sends P.FIXED (sending message.now bytes.now) message.now.dest (seen P.Port self.old) (seen P.Port self.new)) }
        ensures err { IfErr result (λ why. SendsNot P.FIXED (sending message.now bytes.now) (seen P.Port self.old) (seen P.Port self.new) why) }
    {
        self.admit(message, bytes)?;
        let free = self.free_peer(message.dest);
        self.accept_copy(message, bytes);
        let Some(peer) = free else {
            return Ok(());
        };
        self.let_out(peer);
        Ok(())
    }
}

impl<P: Port, C: Machine> Messages for Endpoint<P, C> {
    fn send(
        &mut self,
        dest: u32,
        buf: Buf,
        imm: Option<u64>,
        ctx: u64,
        flags: Flags,
    ) -> Result<(), Refused> {
        let message = Message {
            tagged: false,
            dest,
            tag: 0,
            imm,
            ctx: Some(ctx),
            flags,
        };
        self.send_message(&message, buf)
    }

    fn tsend(
        &mut self,
        dest: u32,
        tag: u64,
        buf: Buf,
        imm: Option<u64>,
        ctx: u64,
        flags: Flags,
    ) -> Result<(), Refused> {
        let message = Message {
            tagged: true,
            dest,
            tag,
            imm,
            ctx: Some(ctx),
            flags,
        };
        self.send_message(&message, buf)
    }

    fn inject(&mut self, dest: u32, bytes: &[u8], imm: Option<u64>) -> Result<(), Fault> {
        let message = Message {
            tagged: false,
            dest,
            tag: 0,
            imm,
            ctx: None,
            flags: SILENT,
        };
        self.inject_message(&message, bytes)
    }

    fn tinject(
        &mut self,
        dest: u32,
        tag: u64,
        bytes: &[u8],
        imm: Option<u64>,
    ) -> Result<(), Fault> {
        let message = Message {
            tagged: true,
            dest,
            tag,
            imm,
            ctx: None,
            flags: SILENT,
        };
        self.inject_message(&message, bytes)
    }
}
