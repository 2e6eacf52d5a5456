//! The elements of an atomic (fi_atomic(3)): each is read as a number, changed, and written.
ghost use Rattle.std.specs.Prelude.{◌≡◌, ◌+◌, ◌*◌, ◌^◌, ◌%◌, ◌<◌, ◌≤◌, ◌++◌, [], length, take, drop, IfOk, OnOk};
ghost use Rattle.fab_checker_values.specs.NewElements.{new_bytes};
ghost use Rattle.fab_base.specs.declared.items.AtomicOp.TheVariants.{Mswap};
ghost use Rattle.fab_model.specs.Target.{is_signed, span, rank, below, element, elements, number_of, bytes_of};

use crate::lists::split;
use fab_base::{Atom, AtomicOp, Buf, NoMemory, Num};
use std::alloc::Global;

fn is_signed(num: Num) -> bool
    ensures { result ≡ is_signed num }
{
    match num {
        Num::I8 | Num::I16 | Num::I32 | Num::I64 => true,
        Num::U8 | Num::U16 | Num::U32 | Num::U64 => false,
    }
}

/// How many values an element has.
fn span(num: Num) -> u128
    ensures span { result ≡ span num }
    ensures some { 2 ≤ result }
    ensures most { result ≤ 2 ^ 64 }
{
    match num {
        Num::I8 | Num::U8 => 0x100,
        Num::I16 | Num::U16 => 0x1_0000,
        Num::I32 | Num::U32 => 0x1_0000_0000,
        Num::I64 | Num::U64 => 0x1_0000_0000_0000_0000,
    }
}

/// A number in whose order the elements stand.
fn rank(num: Num, x: u64) -> u128
    ensures { result ≡ rank num x }
{
    if is_signed(num) {
        let span = span(num);
        (x as u128 + span / 2) % span
    } else {
        x as u128
    }
}

fn below(num: Num, x: u64, y: u64) -> bool
    ensures { result ≡ below num x y }
{
    rank(num, x) < rank(num, y)
}

/// The sum or the product, modulo the number of values.
fn wrapped(num: Num, x: u128) -> u64
    ensures { result ≡ x % span num }
{
    (x % span(num)) as u64
}

/// The bits of `b` where those of `c` are 1, and those of `t` elsewhere.
#[tactic(auto, unfolding(fab_model::specs::Target::element))]
fn masked(num: Num, t: u64, b: u64, c: u64) -> u64
    ensures { result ≡ element Mswap num t b c }
{
    let others = (span(num) - 1).saturating_sub(c as u128) as u64;
    (b & c) | (t & others)
}

/// The new element, of the old one `t`, the operand's `b` and the compare's `c`.
#[tactic(auto, unfolding(fab_model::specs::Target::element))]
fn element(op: AtomicOp, num: Num, t: u64, b: u64, c: u64) -> u64
    ensures { result ≡ element op num t b c }
{
    match op {
        AtomicOp::Min => if below(num, b, t) { b } else { t },
        AtomicOp::Max => if below(num, t, b) { b } else { t },
        AtomicOp::Sum => wrapped(num, t as u128 + b as u128),
        AtomicOp::Prod => wrapped(num, t as u128 * b as u128),
        AtomicOp::Lor => (t != 0 || b != 0) as u64,
        AtomicOp::Land => (t != 0 && b != 0) as u64,
        AtomicOp::Lxor => ((t != 0) != (b != 0)) as u64,
        AtomicOp::Bor => t | b,
        AtomicOp::Band => t & b,
        AtomicOp::Bxor => t ^ b,
        AtomicOp::AtomicRead => t,
        AtomicOp::AtomicWrite => b,
        AtomicOp::Cswap => if c == t { b } else { t },
        AtomicOp::CswapNe => if c == t { t } else { b },
        AtomicOp::CswapLe => if below(num, t, c) { t } else { b },
        AtomicOp::CswapLt => if below(num, c, t) { b } else { t },
        AtomicOp::CswapGe => if below(num, c, t) { t } else { b },
        AtomicOp::CswapGt => if below(num, t, c) { b } else { t },
        AtomicOp::Mswap => masked(num, t, b, c),
    }
}

/// The number that these bytes hold, low byte first.
fn number_of(bytes: &[u8]) -> Result<u64, NoMemory>
    ensures { IfOk result (λ number. number ≡ number_of bytes.now) }
{
    let mut number: u64 = 0;
    for at in 0..bytes.len() {
        let byte = bytes[bytes.len() - 1 - at] as u64;
        let Some(more) = number.checked_mul(256) else {
            return Err(NoMemory);
        };
        let Some(more) = more.checked_add(byte) else {
            return Err(NoMemory);
        };
        number = more;
    }
    Ok(number)
}

/// Appends the number's lowest bytes, low byte first.
fn push_number(out: &mut Vec<u8>, size: usize, number: u64) -> Result<(), NoMemory>
    ensures { OnOk result (out.new.items ≡ out.old.items ++ bytes_of size number) }
{
    let mut left = number;
    for _byte in 0..size {
        out.push((left % 256) as u8)?;
        left /= 256;
    }
    Ok(())
}

/// Appends the new first element, of the first elements of the range, the operand and the compare.
fn push_element(
    out: &mut Vec<u8>,
    atom: Atom,
    ts: &[u8],
    bs: &[u8],
    cs: &[u8],
) -> Result<(), NoMemory>
    ensures { OnOk result (out.new.items ≡ out.old.items ++ new_bytes atom ts.now bs.now cs.now) }
{
    let size = atom.num.element_size();
    let t = number_of(split(ts, size).0)?;
    let b = number_of(split(bs, size).0)?;
    let c = number_of(split(cs, size).0)?;
    push_number(out, size, element(atom.op, atom.num, t, b, c))
}

/// The elements of the range, one after another, each by the operand's and the compare's at its place.
pub fn elements(
    alloc: Global,
    atom: Atom,
    old: &[u8],
    operand: &[u8],
    compares: &[u8],
) -> Result<Buf, NoMemory>
    ensures { IfOk result (λ b. b ≡ elements (length old.now) atom old.now operand.now compares.now) }
{
    let size = atom.num.element_size();
    let mut out = Vec::new(alloc);
    let (mut ts, mut bs, mut cs) = (old, operand, compares);
    for _element in 0..old.len() {
        if ts.is_empty() {
            return Ok(Buf::from_vec(out));
        }
        push_element(&mut out, atom, ts, bs, cs)?;
        (_, ts) = split(ts, size);
        (_, bs) = split(bs, size);
        (_, cs) = split(cs, size);
    }
    Ok(Buf::from_vec(out))
}
