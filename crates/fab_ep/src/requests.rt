//! Reads, writes and atomics on regions of a peer (fi_rma(3), fi_atomic(3)).
ghost use Rattle.std.specs.Prelude.{◌≡◌, ◌+◌, ◌≤◌, ◌∷◌, ℕ, List, [], Option, Some, None, true, false, is_none, length, min, nat_le, IfErr, OnOk};
ghost use Rattle.fab_base.specs.declared.limits.TheConstants.{INJECT_BYTES};
ghost use Rattle.fab_model.specs.State.{in_use};
ghost use Rattle.fab_model.specs.Sending.{most_bytes};
ghost use Rattle.fab_model.specs.Calls.{do_call};
ghost use Rattle.fab_face.specs.Acts.{Went, Did};
ghost use Rattle.fab_face.specs.Answers.{Sends, SendsNot, is_final};
ghost use Rattle.fab_face.specs.Held.{Seen};
ghost use Rattle.fab_ep.specs.Value.{seen};
ghost use Rattle.fab_face.specs.Requesting.{kind_asked, requesting};
ghost use Rattle.fab_ep.specs.Sends.{Admits};

use crate::endpoint::Endpoint;
use fab_base::{Atom, AtomicOp, Buf, Fault, Flags, Form, Num, Refused};
use fab_face::calls::Requests;
use fab_face::requesting::{Asked, Request, Requesting};
use fab_link::Port;

impl<P: Port, C: Requesting> Endpoint<P, C> {
    /// Whether a request may be accepted now, whatever buffer comes back.
    fn admit_request(
        &mut self,
        request: &Request,
        bytes: &[u8],
        compared: &[u8],
    ) -> Result<(), Fault>
        ensures ok { OnOk result ((buf : Option (List ℕ)) → Admits (requesting request.now bytes.now compared.now buf) (seen P.Port self.old) (seen P.Port self.new)) }
        ensures err { IfErr result (λ why. (buf : Option (List ℕ)) → SendsNot P.FIXED (requesting request.now bytes.now compared.now buf) (seen P.Port self.old) (seen P.Port self.new) why) }
    {
        if let Some(why) = self.core.request_fault(request, bytes, compared) {
            self.pushed = false;
            return Err(why);
        }
        self.make_place()
    }

    /// Accepts a request whose bytes are its buffer, and logs the call.
    fn accept_owned(&mut self, request: &Request, buf: Buf)
        requires granted { is_final (do_call self.old.held.state (requesting request.now buf [] (Some buf))).0 ≡ false }
        requires room { nat_le self.old.held.state.most_tx (in_use self.old.held.state.tx) ≡ false }
        requires place { length self.old.log + 1 ≤ self.old.log_size }
        ensures did { Went (Some (requesting request.now buf [] (Some buf))) (seen P.Port self.old) (seen P.Port self.new) (Did ∷ []) }
        ensures pushed { self.new.pushed ≡ self.old.pushed }
        ensures next { self.new.next ≡ self.old.next }
        ensures ins { P.ins self.new.port ≡ P.ins self.old.port }
    {
        self.core.known();
        self.core.request_owned(request, buf);
        self.log_call();
    }

    /// Accepts a request whose bytes are copied, and logs the call.
    fn accept_copied(&mut self, request: &Request, bytes: &[u8], compared: &[u8], buf: Option<Buf>)
        requires granted { is_final (do_call self.old.held.state (requesting request.now bytes.now compared.now buf)).0 ≡ false }
        requires few { (most : ℕ) → min (most_bytes most (kind_asked request.now.asked) (is_none request.now.ctx)) (length bytes.now + length compared.now) ≤ INJECT_BYTES }
        requires room { nat_le self.old.held.state.most_tx (in_use self.old.held.state.tx) ≡ false }
        requires place { length self.old.log + 1 ≤ self.old.log_size }
        ensures did { Went (Some (requesting request.now bytes.now compared.now buf)) (seen P.Port self.old) (seen P.Port self.new) (Did ∷ []) }
        ensures pushed { self.new.pushed ≡ self.old.pushed }
        ensures next { self.new.next ≡ self.old.next }
        ensures ins { P.ins self.new.port ≡ P.ins self.old.port }
    {
        self.core.known();
        self.core.request_copied(request, bytes, compared, buf);
        self.log_call();
    }

    /// Asks for a write of a buffer, which comes back with its completion.
    fn ask_owned(&mut self, request: &Request, buf: Buf) -> Result<(), Refused>
        ensures ok { OnOk result (Sends P.FIXED (requesting request.now buf [] (Some buf)) request.now.dest (seen P.Port self.old) (seen P.Port self.new)) }
        ensures err { IfErr result (λ r. (r.buf ≡ buf) × SendsNot P.FIXED (requesting request.now buf [] (Some buf)) (seen P.Port self.old) (seen P.Port self.new) r.why) }
    {
        if let Err(why) = self.admit_request(request, buf.as_slice(), &[]) {
            return Err(Refused { why, buf });
        }
        let free = self.free_peer(request.dest);
        self.accept_owned(request, buf);
        let Some(peer) = free else {
            return Ok(());
        };
        self.let_out(peer);
        Ok(())
    }

    /// Accepts a request that was admitted, whose bytes are copied, and posts what may go at once.
    fn go_out(&mut self, request: &Request, bytes: &[u8], compared: &[u8], buf: Option<Buf>)
        requires granted { is_final (do_call self.old.held.state (requesting request.now bytes.now compared.now buf)).0 ≡ false }
        requires few { (most : ℕ) → min (most_bytes most (kind_asked request.now.asked) (is_none request.now.ctx)) (length bytes.now + length compared.now) ≤ INJECT_BYTES }
        requires room { nat_le self.old.held.state.most_tx (in_use self.old.held.state.tx) ≡ false }
        requires places { length self.old.log + 2 ≤ self.old.log_size }
        ensures { (first : Seen P.Home) → Admits (requesting request.now bytes.now compared.now buf) first (seen P.Port self.old)
            → Sends P.FIXED (requesting request.now bytes.now compared.now buf) request.now.dest first (seen P.Port self.new) }
    {
        let free = self.free_peer(request.dest);
        self.accept_copied(request, bytes, compared, buf);
        let Some(peer) = free else {
            return;
        };
        self.let_out(peer);
    }

    /// Asks for what comes back in a buffer.
    fn ask_into(
        &mut self,
        request: &Request,
        bytes: &[u8],
        compared: &[u8],
        buf: Buf,
    ) -> Result<(), Refused>
        requires few { (most : ℕ) → min (most_bytes most (kind_asked request.now.asked) (is_none request.now.ctx)) (length bytes.now + length compared.now) ≤ INJECT_BYTES }
        ensures ok { OnOk result (Sends P.FIXED (requesting request.now bytes.now compared.now (Some buf)) request.now.dest (seen P.Port self.old) (seen P.Port self.new)) }
        ensures err { IfErr result (λ r. (r.buf ≡ buf) × SendsNot P.FIXED (requesting request.now bytes.now compared.now (Some buf)) (seen P.Port self.old) (seen P.Port self.new) r.why) }
    {
        if let Err(why) = self.admit_request(request, bytes, compared) {
            return Err(Refused { why, buf });
        }
        self.go_out(request, bytes, compared, Some(buf));
        Ok(())
    }

    /// Asks for what gives no buffer back.
    fn ask(&mut self, request: &Request, bytes: &[u8]) -> Result<(), Fault>
        requires few { (most : ℕ) → min (most_bytes most (kind_asked request.now.asked) (is_none request.now.ctx)) (length bytes.now + 0) ≤ INJECT_BYTES }
        ensures ok { OnOk result (Sends P.FIXED (requesting request.now bytes.now [] None) request.now.dest (seen P.Port self.old) (seen P.Port self.new)) }
        ensures err { IfErr result (λ why. SendsNot P.FIXED (requesting request.now bytes.now [] None) (seen P.Port self.old) (seen P.Port self.new) why) }
    {
        self.admit_request(request, bytes, &[])?;
        self.go_out(request, bytes, &[], None);
        Ok(())
    }
}

impl<P: Port, C: Requesting> Requests for Endpoint<P, C> {
    fn read(&mut self, dest: u32, key: u64, at: u64, buf: Buf, ctx: u64) -> Result<(), Refused> {
        let request = Request {
            asked: Asked::Read,
            dest,
            key,
            at,
            count: buf.as_slice().len(),
            imm: None,
            ctx: Some(ctx),
            completion: true,
            fence: false,
        };
        self.ask_into(&request, &[], &[], buf)
    }

    fn write(
        &mut self,
        dest: u32,
        key: u64,
        at: u64,
        buf: Buf,
        imm: Option<u64>,
        ctx: u64,
        flags: Flags,
    ) -> Result<(), Refused> {
        let request = Request {
            asked: Asked::Write,
            dest,
            key,
            at,
            count: 0,
            imm,
            ctx: Some(ctx),
            completion: flags.completion,
            fence: flags.fence,
        };
        self.ask_owned(&request, buf)
    }

    fn inject_write(
        &mut self,
        dest: u32,
        key: u64,
        at: u64,
        bytes: &[u8],
        imm: Option<u64>,
    ) -> Result<(), Fault> {
        let request = Request {
            asked: Asked::Write,
            dest,
            key,
            at,
            count: 0,
            imm,
            ctx: None,
            completion: false,
            fence: false,
        };
        self.ask(&request, bytes)
    }

    fn atomic(
        &mut self,
        dest: u32,
        key: u64,
        at: u64,
        op: AtomicOp,
        num: Num,
        operand: &[u8],
        ctx: u64,
        flags: Flags,
    ) -> Result<(), Fault> {
        let form = Form::Base;
        let request = Request {
            asked: Asked::Atomic(Atom { op, num, form }),
            dest,
            key,
            at,
            count: operand.len(),
            imm: None,
            ctx: Some(ctx),
            completion: flags.completion,
            fence: flags.fence,
        };
        self.ask(&request, operand)
    }

    fn fetch_atomic(
        &mut self,
        dest: u32,
        key: u64,
        at: u64,
        op: AtomicOp,
        num: Num,
        operand: &[u8],
        result_: Buf,
        ctx: u64,
    ) -> Result<(), Refused> {
        let form = Form::Fetch;
        let request = Request {
            asked: Asked::Atomic(Atom { op, num, form }),
            dest,
            key,
            at,
            count: result_.as_slice().len(),
            imm: None,
            ctx: Some(ctx),
            completion: true,
            fence: false,
        };
        self.ask_into(&request, operand, &[], result_)
    }

    fn compare_atomic(
        &mut self,
        dest: u32,
        key: u64,
        at: u64,
        op: AtomicOp,
        num: Num,
        operand: &[u8],
        compare: &[u8],
        result_: Buf,
        ctx: u64,
    ) -> Result<(), Refused> {
        let form = Form::Compare;
        let request = Request {
            asked: Asked::Atomic(Atom { op, num, form }),
            dest,
            key,
            at,
            count: result_.as_slice().len(),
            imm: None,
            ctx: Some(ctx),
            completion: true,
            fence: false,
        };
        self.ask_into(&request, operand, compare, result_)
    }
}
