//! What an endpoint's machine asks of the regions of a peer.
ghost use Rattle.std.specs.Prelude.{◌≡◌, ◌+◌, ◌≤◌, ℕ, List, [], Option, Some, true, false, is_none, length, min, nat_le, IfSome, IfNone};
ghost use Rattle.fab_base.specs.declared.limits.TheConstants.{INJECT_BYTES};
ghost use Rattle.fab_base.specs.declared.peers.LineResult.TheVariants.{Refused as Answer};
ghost use Rattle.fab_model.specs.State.{in_use};
ghost use Rattle.fab_model.specs.Sending.{most_bytes};
ghost use Rattle.fab_model.specs.Calls.{do_call};
ghost use Rattle.fab_face.specs.Acts.{DoesCall};
ghost use Rattle.fab_face.specs.Answers.{is_final};
ghost use Rattle.fab_face.specs.Requesting.{kind_asked, requesting};

use crate::machine::Machine;
use fab_base::{Atom, Buf, Fault};

/// What is asked of a region.
#[derive(Clone, Copy, Drop)]
pub enum Asked {
    Read,
    Write,
    Atomic(Atom),
}

/// A read, a write or an atomic to be asked for of a peer (fi_rma(3), fi_atomic(3)). The peer is an index of
/// the address vector, and `at` the offset from the region's start. `count` says how many bytes a read asks
/// for, or an atomic reaches; it is 0 for a write. An inject call has no context.
#[derive(Clone, Copy, Drop)]
pub struct Request {
    pub asked: Asked,
    pub dest: u32,
    pub key: u64,
    pub at: u64,
    pub count: usize,
    pub imm: Option<u64>,
    pub ctx: Option<u64>,
    pub completion: bool,
    pub fence: bool,
}

/// The machine of an endpoint that asks for reads, writes and atomics. None of its calls takes memory.
pub trait Requesting: Machine {
    /// Why a request is refused for a reason that does not pass, whatever buffer comes back. `None` exactly
    /// where it is not.
    fn request_fault(&self, request: &Request, bytes: &[u8], compared: &[u8]) -> Option<Fault>
        ensures some { IfSome result (λ why. (buf : Option (List ℕ)) → do_call (Self.held self.now).state (requesting request.now bytes.now compared.now buf) ≡ (Answer why, (Self.held self.now).state)) }
        ensures lasting { IfSome result (λ why. is_final (Answer why) ≡ true) }
        ensures none { IfNone result ((buf : Option (List ℕ)) → is_final (do_call (Self.held self.now).state (requesting request.now bytes.now compared.now buf)).0 ≡ false) };

    /// Accepts a request whose bytes are its buffer, which comes back with its completion.
    fn request_owned(&mut self, request: &Request, buf: Buf)
        requires granted { is_final (do_call (Self.held self.old).state (requesting request.now buf [] (Some buf))).0 ≡ false }
        requires room { nat_le (Self.held self.old).state.most_tx (in_use (Self.held self.old).state.tx) ≡ false }
        ensures { DoesCall (Some (requesting request.now buf [] (Some buf))) (Self.held self.old) (Self.held self.new) };

    /// Accepts a request whose bytes are copied, at most [`INJECT_BYTES`](fab_base::INJECT_BYTES), with the buffer that comes back.
    fn request_copied(&mut self, request: &Request, bytes: &[u8], compared: &[u8], buf: Option<Buf>)
        requires granted { is_final (do_call (Self.held self.old).state (requesting request.now bytes.now compared.now buf)).0 ≡ false }
        requires few { min (most_bytes (Self.held self.old).state.most_message (kind_asked request.now.asked) (is_none request.now.ctx)) (length bytes.now + length compared.now) ≤ INJECT_BYTES }
        requires room { nat_le (Self.held self.old).state.most_tx (in_use (Self.held self.old).state.tx) ≡ false }
        ensures { DoesCall (Some (requesting request.now bytes.now compared.now buf)) (Self.held self.old) (Self.held self.new) };
}
