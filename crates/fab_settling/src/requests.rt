//! Reads, writes and atomics of a peer: their sizes and forms, and the items that they make (fi_rma(3), fi_atomic(3)).
ghost use Rattle.std.specs.Prelude.{◌≡◌, ◌<◌, ◌^◌, ◌+◌, [], None, is_none, length};
ghost use Rattle.fab_model.specs.State.{State};
ghost use Rattle.fab_model.specs.Sending.{head_of, is_silent, is_too_long, is_well_formed, most_bytes};
ghost use Rattle.fab_face.specs.Requesting.{atom_asked, kind_asked, order_asked};

use fab_base::{Ack, Atom, AtomicOp, Form, INJECT_BYTES, ItemHead, Kind, Outcome};
use fab_face::requesting::{Asked, Request};

fn kind_asked(asked: Asked) -> Kind
    ensures { result ≡ kind_asked asked }
{
    match asked {
        Asked::Read => Kind::ReadReq,
        Asked::Write => Kind::WriteReq,
        Asked::Atomic(_) => Kind::AtomicReq,
    }
}

fn atom_asked(asked: Asked) -> Option<Atom>
    ensures { result ≡ atom_asked asked }
{
    match asked {
        Asked::Read | Asked::Write => None,
        Asked::Atomic(atom) => Some(atom),
    }
}

/// The most bytes of a request, its buffer included, where a read or a write may have so many.
fn most_of_request(request: &Request, most: u32) -> usize
    ensures { result ≡ most_bytes most (kind_asked request.now.asked) (is_none request.now.ctx) }
{
    match request.asked {
        Asked::Atomic(_) => INJECT_BYTES as usize,
        Asked::Read | Asked::Write => {
            if request.ctx.is_none() {
                INJECT_BYTES as usize
            } else {
                most as usize
            }
        }
    }
}

/// Whether a request has or asks for more bytes than it may.
pub fn is_too_long(most: u32, request: &Request, bytes: &[u8], compared: &[u8]) -> bool
    ensures { result ≡ is_too_long most (order_asked request.now bytes.now compared.now None) }
{
    let most = most_of_request(request, most);
    bytes.len().saturating_add(compared.len()) > most || request.count > most
}

/// Whether a request is of whole elements, and has the bytes that its operation needs.
pub fn is_well_formed(request: &Request, bytes: &[u8], compared: &[u8]) -> bool
    ensures { result ≡ is_well_formed (order_asked request.now bytes.now compared.now None) (atom_asked request.now.asked) }
{
    let Asked::Atomic(atom) = request.asked else {
        return true;
    };
    let size = atom.num.element_size();
    let operand = match atom.op {
        AtomicOp::AtomicRead => 0,
        _ => request.count,
    };
    let compare = match atom.form {
        Form::Base | Form::Fetch => 0,
        Form::Compare => request.count,
    };
    request.at % size as u64 == 0
        && request.count % size == 0
        && atom.op.is_of_form(atom.form)
        && bytes.len() == operand
        && compared.len() == compare
}

/// The head of the item that a request makes, as the operation of this number.
#[tactic(auto, using(crate::proofs::Heads::asks_no_ack))]
pub fn request_head(request: &Request, op: u64, bytes: &[u8], compared: &[u8]) -> ItemHead
    requires count { request.now.count < 2 ^ 32 }
    requires total { length bytes.now + length compared.now < 2 ^ 32 }
    ensures { result ≡ head_of op (order_asked request.now bytes.now compared.now None) }
{
    ItemHead {
        kind: kind_asked(request.asked),
        op,
        tag: 0,
        imm: request.imm,
        ack: Ack::Nothing,
        key: request.key,
        at: request.at,
        count: request.count as u32,
        atom: atom_asked(request.asked),
        outcome: Outcome::Done,
        total: bytes.len() as u32 + compared.len() as u32,
    }
}

/// Whether no completion is written when the request succeeds, where completions are selective or not
/// (FI_SELECTIVE_COMPLETION of fi_endpoint(3)).
pub fn asks_silently(request: &Request, selective: bool) -> bool
    ensures { (s : State) → s.selective ≡ selective → result ≡ is_silent s (order_asked request.now [] [] None) }
{
    request.ctx.is_none() || (selective && !request.completion)
}
