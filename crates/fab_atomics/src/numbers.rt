//! Numbers of up to 64 bits as the elements of an atomic.
ghost use Rattle.std.specs.Prelude.{◌≡◌, ◌+◌, ◌%◌, ◌<◌, ◌≤◌, ◌⊎◌, ◌++◌, [], length, take, drop};
ghost use Rattle.fab_base.specs.Elements.{element_size};
ghost use Rattle.fab_model.specs.Target.{is_signed, span, rank, below, element, bytes_of};
ghost use Rattle.fab_atomics.specs.Operands.{number_at};

use byteorder::{ByteOrder, LittleEndian};
use fab_base::{AtomicOp, Num};

/// The greatest number that an element holds: a one in each of its bits.
fn ones(num: Num) -> u64
    ensures { result + 1 ≡ span num }
{
    match num {
        Num::I8 | Num::U8 => 0xff,
        Num::I16 | Num::U16 => 0xffff,
        Num::I32 | Num::U32 => 0xffff_ffff,
        Num::I64 | Num::U64 => u64::MAX,
    }
}

fn is_signed(num: Num) -> bool
    ensures { result ≡ is_signed num }
{
    match num {
        Num::I8 | Num::I16 | Num::I32 | Num::I64 => true,
        Num::U8 | Num::U16 | Num::U32 | Num::U64 => false,
    }
}

/// The number modulo 2 to the number of the type's bits.
fn wrapped(num: Num, x: u64) -> u64
    ensures { result ≡ x % span num }
{
    x & ones(num)
}

/// A number in whose order the elements stand: a signed one moves up by half the span.
fn rank(num: Num, x: u64) -> u64
    ensures { result ≡ rank num x }
{
    if is_signed(num) {
        wrapped(num, x.wrapping_add(ones(num) / 2 + 1))
    } else {
        x
    }
}

fn below(num: Num, x: u64, y: u64) -> bool
    ensures { result ≡ below num x y }
{
    rank(num, x) < rank(num, y)
}

/// The new element, of the old one `t`, the operand's `b` and the compare's `c`. In the four ordered
/// comparisons the compare stands on the left (fi_atomic(3), FI_CSWAP_LE).
#[tactic(auto, unfolding(fab_model::specs::Target::element))]
pub(crate) fn element(op: AtomicOp, num: Num, t: u64, b: u64, c: u64) -> u64
    requires old { t < span num }
    requires operand { b < span num }
    requires compare { c < span num }
    ensures value { result ≡ element op num t b c }
    ensures fits { result < span num }
{
    match op {
        AtomicOp::Min => if below(num, b, t) { b } else { t },
        AtomicOp::Max => if below(num, t, b) { b } else { t },
        AtomicOp::Sum => wrapped(num, t.wrapping_add(b)),
        AtomicOp::Prod => wrapped(num, t.wrapping_mul(b)),
        AtomicOp::Lor => (t != 0 || b != 0) as u64,
        AtomicOp::Land => (t != 0 && b != 0) as u64,
        AtomicOp::Lxor => ((t != 0) != (b != 0)) as u64,
        AtomicOp::Bor => t | b,
        AtomicOp::Band => t & b,
        AtomicOp::Bxor => t ^ b,
        AtomicOp::AtomicRead => t,
        AtomicOp::AtomicWrite => b,
        AtomicOp::Cswap => if c == t { b } else { t },
        AtomicOp::CswapNe => if c == t { t } else { b },
        AtomicOp::CswapLe => if below(num, t, c) { t } else { b },
        AtomicOp::CswapLt => if below(num, c, t) { b } else { t },
        AtomicOp::CswapGe => if below(num, c, t) { t } else { b },
        AtomicOp::CswapGt => if below(num, t, c) { b } else { t },
        AtomicOp::Mswap => (b & c) | (t & (ones(num) - c)),
    }
}

/// The element that stands at this place, or 0 where there are no bytes at all.
pub(crate) fn number_at(bytes: &[u8], at: usize, num: Num) -> u64
    requires { (bytes.now ≡ []) ⊎ (at + element_size num ≤ length bytes.now) }
    ensures value { result ≡ number_at num bytes.now at }
    ensures fits { result < span num }
{
    if bytes.is_empty() {
        return 0;
    }
    match num {
        Num::I8 | Num::U8 => bytes[at] as u64,
        Num::I16 | Num::U16 => LittleEndian::read_u16(&bytes[at..]) as u64,
        Num::I32 | Num::U32 => LittleEndian::read_u32(&bytes[at..]) as u64,
        Num::I64 | Num::U64 => LittleEndian::read_u64(&bytes[at..]),
    }
}

/// Writes an element over the one that stands at this place.
pub(crate) fn put_number(bytes: &mut [u8], at: usize, num: Num, x: u64)
    requires within { at + element_size num ≤ length bytes.old }
    requires fits { x < span num }
    ensures bytes { bytes.new ≡ take at bytes.old ++ bytes_of (element_size num) x ++ drop (at + element_size num) bytes.old }
    ensures value { number_at num bytes.new at ≡ x }
{
    match num {
        Num::I8 | Num::U8 => bytes[at] = x as u8,
        Num::I16 | Num::U16 => LittleEndian::write_u16(&mut bytes[at..], x as u16),
        Num::I32 | Num::U32 => LittleEndian::write_u32(&mut bytes[at..], x as u32),
        Num::I64 | Num::U64 => LittleEndian::write_u64(&mut bytes[at..], x),
    }
}
