//! Requests at their target, by hand: each outcome is the one that fi_rma(3) and the region's key, rights and length give, and each
//! element was computed on paper.
ghost use Rattle.std.specs.Prelude.{◌≡◌, ◌<◌, ◌≤◌, length, slice_index, true, None, Some, IfSome};
ghost use Rattle.fab_base.specs.declared.items.Ack.TheVariants.{Nothing};
ghost use Rattle.fab_base.specs.declared.items.Kind.TheVariants.{AtomicReq};
ghost use Rattle.fab_base.specs.declared.items.Outcome.TheVariants.{Done};
ghost use Rattle.fab_link.specs.Frames.{IsSound};
ghost use Rattle.fab_rma.specs.Serving.{is_request, room_for};

use fab_base::{Access, Ack, Atom, AtomicOp, Buf, Form, ItemHead, Kind, Num, Outcome};
use fab_rma::Target;
use std::alloc::Global;
use std::test::Fail;

const READ_WRITE: Access = Access {
    remote_read: true,
    remote_write: true,
};

const NO_WRITE: Access = Access {
    remote_read: true,
    remote_write: false,
};

/// A request of this kind, with no atomic.
fn head_of(kind: Kind, key: u64, at: u64, count: u32, total: u32) -> ItemHead
    ensures { result ≡ record { kind = kind; op = 0; tag = 0; imm = None; ack = Nothing; key = key; at = at; count = count; atom = None; outcome = Done; total = total } }
{
    ItemHead {
        kind,
        op: 0,
        tag: 0,
        imm: None,
        ack: Ack::Nothing,
        key,
        at,
        count,
        atom: None,
        outcome: Outcome::Done,
        total,
    }
}

/// Whether the request has this outcome, and hands these bytes back.
fn serves(
    target: &mut Target,
    head: &ItemHead,
    bytes: &[u8],
    outcome: Outcome,
    handed: &[u8],
) -> bool
    requires source { 0 < length target.old.rooms }
    requires request { is_request head.now.kind ≡ true }
    requires sound { IsSound head.now }
    requires whole { length bytes.now ≡ head.now.total }
    ensures { length target.new.rooms ≡ length target.old.rooms }
{
    match target.make_room(0, head) {
        Ok(()) => performs(target, head, bytes, outcome, handed),
        Err(_) => false,
    }
}

/// The same where there is room for what is handed back.
fn performs(
    target: &mut Target,
    head: &ItemHead,
    bytes: &[u8],
    outcome: Outcome,
    handed: &[u8],
) -> bool
    requires source { 0 < length target.old.rooms }
    requires request { is_request head.now.kind ≡ true }
    requires sound { IsSound head.now }
    requires whole { length bytes.now ≡ head.now.total }
    requires room { room_for head.now ≤ slice_index target.old.rooms 0 }
    ensures { length target.new.rooms ≡ length target.old.rooms }
{
    let reply = target.perform(0, head, bytes);
    reply.outcome == outcome && reply.bytes.as_slice() == handed
}

/// Whether a write has this outcome.
fn writes(target: &mut Target, key: u64, at: u64, bytes: &[u8], outcome: Outcome) -> bool
    requires source { 0 < length target.old.rooms }
    ensures { length target.new.rooms ≡ length target.old.rooms }
{
    if bytes.len() > 100 {
        return false;
    }
    let head = head_of(Kind::WriteReq, key, at, 0, bytes.len() as u32);
    serves(target, &head, bytes, outcome, b"")
}

/// Whether a read of so many bytes has this outcome, and hands these back.
fn reads(target: &mut Target, place: (u64, u64, u32), outcome: Outcome, handed: &[u8]) -> bool
    requires source { 0 < length target.old.rooms }
    ensures { length target.new.rooms ≡ length target.old.rooms }
{
    let (key, at, count) = place;
    let head = head_of(Kind::ReadReq, key, at, count, 0);
    serves(target, &head, b"", outcome, handed)
}

/// Whether region 5 has these bytes.
fn has_bytes(target: &Target, bytes: &[u8]) -> bool {
    target.bytes(5) == Some(bytes)
}

/// Whether a region 5 of these bytes is registered.
fn registers(alloc: Global, target: &mut Target, access: Access, bytes: &[u8]) -> bool
    ensures { length target.new.rooms ≡ length target.old.rooms }
{
    let Ok(buf) = Buf::copy(alloc, bytes) else {
        return false;
    };
    target.reg(5, access, buf).is_ok()
}

/// A target of one source whose region 5 has these bytes.
fn target_with(alloc: Global, access: Access, bytes: &[u8]) -> Option<Target>
    ensures { IfSome result (λ target. 0 < length target.rooms) }
{
    match Target::new(alloc, 1) {
        Ok(mut target) => {
            if registers(alloc, &mut target, access, bytes) {
                Some(target)
            } else {
                None
            }
        }
        Err(_) => None,
    }
}

/// Whether writes end within a region of eight bytes.
fn writes_end_within(target: &mut Target) -> bool
    requires source { 0 < length target.old.rooms }
    ensures { length target.new.rooms ≡ length target.old.rooms }
{
    writes(target, 5, 4, b"wxyz", Outcome::Done)
        && writes(target, 5, 5, b"WXYZ", Outcome::BadRange)
        && writes(target, 5, 8, b"", Outcome::Done)
        && writes(target, 5, u64::MAX, b"v", Outcome::BadRange)
        && writes(target, 6, u64::MAX, b"v", Outcome::BadKey)
}

/// Whether reads do.
fn reads_end_within(target: &mut Target) -> bool
    requires source { 0 < length target.old.rooms }
    ensures { length target.new.rooms ≡ length target.old.rooms }
{
    reads(target, (5, 2, 4), Outcome::Done, b"cdwx")
        && reads(target, (5, 8, 0), Outcome::Done, b"")
        && reads(target, (5, 8, 1), Outcome::BadRange, b"")
        && reads(target, (5, u64::MAX, 1), Outcome::BadRange, b"")
}

fn new_ends_within(alloc: Global) -> bool {
    match target_with(alloc, READ_WRITE, b"abcdefgh") {
        Some(mut target) => {
            writes_end_within(&mut target)
                && reads_end_within(&mut target)
                && has_bytes(&target, b"abcdwxyz")
        }
        None => false,
    }
}

#[test]
fn writes_and_reads_end_within_their_region(rt: HostRuntime) -> Result<(), Fail> {
    assert!(rt; new_ends_within(rt.alloc()));
    Ok(())
}

/// Whether a region that may be read alone is read, and written neither within nor behind its end.
fn new_judges_rights(alloc: Global) -> bool {
    match target_with(alloc, NO_WRITE, b"abcd") {
        Some(mut target) => {
            writes(&mut target, 5, 4, b"x", Outcome::BadAccess)
                && writes(&mut target, 5, 0, b"x", Outcome::BadAccess)
                && reads(&mut target, (5, 0, 4), Outcome::Done, b"abcd")
                && has_bytes(&target, b"abcd")
        }
        None => false,
    }
}

#[test]
fn a_right_is_judged_before_the_range(rt: HostRuntime) -> Result<(), Fail> {
    assert!(rt; new_judges_rights(rt.alloc()));
    Ok(())
}

/// An atomic on the first byte of region 5.
fn atomic_head(atom: Atom, total: u32) -> ItemHead
    ensures { result ≡ record { kind = AtomicReq; op = 0; tag = 0; imm = None; ack = Nothing; key = 5; at = 0; count = 1; atom = Some atom; outcome = Done; total = total } }
{
    ItemHead {
        kind: Kind::AtomicReq,
        op: 0,
        tag: 0,
        imm: None,
        ack: Ack::Nothing,
        key: 5,
        at: 0,
        count: 1,
        atom: Some(atom),
        outcome: Outcome::Done,
        total,
    }
}

/// Whether a fetching sum of a byte wraps, and answers the old element.
fn new_sums(alloc: Global) -> bool {
    let sum = Atom {
        op: AtomicOp::Sum,
        num: Num::I8,
        form: Form::Fetch,
    };
    match target_with(alloc, READ_WRITE, b"\x7fz") {
        Some(mut target) => {
            serves(
                &mut target,
                &atomic_head(sum, 1),
                b"\x01",
                Outcome::Done,
                b"\x7f",
            ) && has_bytes(&target, b"\x80z")
        }
        None => false,
    }
}

#[test]
fn a_fetching_sum_wraps_and_answers_the_old_element(rt: HostRuntime) -> Result<(), Fail> {
    assert!(rt; new_sums(rt.alloc()));
    Ok(())
}

/// Whether a masked swap takes its mask from the compare.
fn new_swaps(alloc: Global) -> bool {
    let swap = Atom {
        op: AtomicOp::Mswap,
        num: Num::U8,
        form: Form::Compare,
    };
    match target_with(alloc, READ_WRITE, b"\xf0") {
        Some(mut target) => {
            serves(
                &mut target,
                &atomic_head(swap, 2),
                b"\x3c\x0f",
                Outcome::Done,
                b"\xf0",
            ) && has_bytes(&target, b"\xfc")
        }
        None => false,
    }
}

#[test]
fn a_masked_swap_takes_its_mask_from_the_compare(rt: HostRuntime) -> Result<(), Fail> {
    assert!(rt; new_swaps(rt.alloc()));
    Ok(())
}
