//! Atomics by a table whose elements were computed outside this program, and by hand.
//!
//! The rows of [`PLAIN`], [`SWAPS`] and [`MASKED`] come from a Python script that computes with
//! Python's integers of any size: `min(t, b)`, `t + b`, `t | b`, `b if c <= t else t`, `(b & c) | (t & ~c)` and so on, for `t` and `b`
//! over the values 0, 1, the greatest, the least and -1 (0, 1 and the greatest where the type is not
//! signed), `b` fastest, taken modulo 2 to the number of bits. A letter names each element: `0`, `1`,
//! `2`, `G` the greatest, `g` one less, `L` the least, `l` one more, `M` -1 and `N` -2. The script
//! checked that the four widths give the same letters.
ghost use Rattle.std.specs.Prelude.{◌≡◌};
ghost use Rattle.fab_atomics.specs.Operands.{operand_len, compare_len};

use fab_atomics::apply;
use fab_base::{AtomicOp, Num};
use std::process::Abort;
use std::test::Fail;

/// The types.
const NUMS: [Num; 8] = [
    Num::I8,
    Num::I16,
    Num::I32,
    Num::I64,
    Num::U8,
    Num::U16,
    Num::U32,
    Num::U64,
];

/// The ones of a type's bits, and whether it is signed.
fn ones_of(num: Num) -> (u64, bool) {
    match num {
        Num::I8 => (0xff, true),
        Num::I16 => (0xffff, true),
        Num::I32 => (0xffff_ffff, true),
        Num::I64 => (u64::MAX, true),
        Num::U8 => (0xff, false),
        Num::U16 => (0xffff, false),
        Num::U32 => (0xffff_ffff, false),
        Num::U64 => (u64::MAX, false),
    }
}

/// The operation, the place of the compare's element among the values, and the letters of the new
/// elements for signed and for unsigned types. An operation that does not compare has one row.
type Row = (AtomicOp, usize, &'static [u8], &'static [u8]);

/// What does not compare.
const PLAIN: [Row; 12] = [
    (AtomicOp::Min, 0, b"000LM011LM01GLMLLLLLMMMLM", b"00001101G"),
    (AtomicOp::Max, 0, b"01G0011G11GGGGG01GLM01GMM", b"01G11GGGG"),
    (AtomicOp::Sum, 0, b"01GLM12Ll0GLNMgLlM0GM0gGN", b"01G120G0g"),
    (
        AtomicOp::Prod,
        0,
        b"0000001GLM0G1Ll0LL0L0MlL1",
        b"00001G0G1",
    ),
    (AtomicOp::Lor, 0, b"0111111111111111111111111", b"011111111"),
    (
        AtomicOp::Land,
        0,
        b"0000001111011110111101111",
        b"000011011",
    ),
    (
        AtomicOp::Lxor,
        0,
        b"0111110000100001000010000",
        b"011100100",
    ),
    (AtomicOp::Bor, 0, b"01GLM11GlMGGGMMLlMLMMMMMM", b"01G11GGGG"),
    (
        AtomicOp::Band,
        0,
        b"000000110101G0G000LL01GLM",
        b"00001101G",
    ),
    (
        AtomicOp::Bxor,
        0,
        b"01GLM10glNGg0MLLlM0GMNLG0",
        b"01G10gGg0",
    ),
    (
        AtomicOp::AtomicRead,
        0,
        b"0000011111GGGGGLLLLLMMMMM",
        b"000111GGG",
    ),
    (
        AtomicOp::AtomicWrite,
        0,
        b"01GLM01GLM01GLM01GLM01GLM",
        b"01G01G01G",
    ),
];

/// What compares first.
const SWAPS: [Row; 30] = [
    (
        AtomicOp::Cswap,
        0,
        b"01GLM11111GGGGGLLLLLMMMMM",
        b"01G111GGG",
    ),
    (
        AtomicOp::Cswap,
        1,
        b"0000001GLMGGGGGLLLLLMMMMM",
        b"00001GGGG",
    ),
    (
        AtomicOp::Cswap,
        2,
        b"000001111101GLMLLLLLMMMMM",
        b"00011101G",
    ),
    (AtomicOp::Cswap, 3, b"0000011111GGGGG01GLMMMMMM", b""),
    (AtomicOp::Cswap, 4, b"0000011111GGGGGLLLLL01GLM", b""),
    (
        AtomicOp::CswapNe,
        0,
        b"0000001GLM01GLM01GLM01GLM",
        b"00001G01G",
    ),
    (
        AtomicOp::CswapNe,
        1,
        b"01GLM1111101GLM01GLM01GLM",
        b"01G11101G",
    ),
    (
        AtomicOp::CswapNe,
        2,
        b"01GLM01GLMGGGGG01GLM01GLM",
        b"01G01GGGG",
    ),
    (AtomicOp::CswapNe, 3, b"01GLM01GLM01GLMLLLLL01GLM", b""),
    (AtomicOp::CswapNe, 4, b"01GLM01GLM01GLM01GLMMMMMM", b""),
    (
        AtomicOp::CswapLe,
        0,
        b"01GLM01GLM01GLMLLLLLMMMMM",
        b"01G01G01G",
    ),
    (
        AtomicOp::CswapLe,
        1,
        b"0000001GLM01GLMLLLLLMMMMM",
        b"00001G01G",
    ),
    (
        AtomicOp::CswapLe,
        2,
        b"000001111101GLMLLLLLMMMMM",
        b"00011101G",
    ),
    (AtomicOp::CswapLe, 3, b"01GLM01GLM01GLM01GLM01GLM", b""),
    (AtomicOp::CswapLe, 4, b"01GLM01GLM01GLMLLLLL01GLM", b""),
    (
        AtomicOp::CswapLt,
        0,
        b"0000001GLM01GLMLLLLLMMMMM",
        b"00001G01G",
    ),
    (
        AtomicOp::CswapLt,
        1,
        b"000001111101GLMLLLLLMMMMM",
        b"00011101G",
    ),
    (
        AtomicOp::CswapLt,
        2,
        b"0000011111GGGGGLLLLLMMMMM",
        b"000111GGG",
    ),
    (AtomicOp::CswapLt, 3, b"01GLM01GLM01GLMLLLLL01GLM", b""),
    (AtomicOp::CswapLt, 4, b"01GLM01GLM01GLMLLLLLMMMMM", b""),
    (
        AtomicOp::CswapGe,
        0,
        b"01GLM11111GGGGG01GLM01GLM",
        b"01G111GGG",
    ),
    (
        AtomicOp::CswapGe,
        1,
        b"01GLM01GLMGGGGG01GLM01GLM",
        b"01G01GGGG",
    ),
    (
        AtomicOp::CswapGe,
        2,
        b"01GLM01GLM01GLM01GLM01GLM",
        b"01G01G01G",
    ),
    (AtomicOp::CswapGe, 3, b"0000011111GGGGG01GLMMMMMM", b""),
    (AtomicOp::CswapGe, 4, b"0000011111GGGGG01GLM01GLM", b""),
    (
        AtomicOp::CswapGt,
        0,
        b"0000011111GGGGG01GLM01GLM",
        b"000111GGG",
    ),
    (
        AtomicOp::CswapGt,
        1,
        b"01GLM11111GGGGG01GLM01GLM",
        b"01G111GGG",
    ),
    (
        AtomicOp::CswapGt,
        2,
        b"01GLM01GLMGGGGG01GLM01GLM",
        b"01G01GGGG",
    ),
    (AtomicOp::CswapGt, 3, b"0000011111GGGGGLLLLLMMMMM", b""),
    (AtomicOp::CswapGt, 4, b"0000011111GGGGG01GLMMMMMM", b""),
];

/// A swap under a mask.
const MASKED: [Row; 5] = [
    (
        AtomicOp::Mswap,
        0,
        b"0000011111GGGGGLLLLLMMMMM",
        b"000111GGG",
    ),
    (
        AtomicOp::Mswap,
        1,
        b"0110101101gGGgGLllLlNMMNM",
        b"011011gGG",
    ),
    (
        AtomicOp::Mswap,
        2,
        b"01G0G01G0G01G0GLlMLMLlMLM",
        b"01G01G01G",
    ),
    (AtomicOp::Mswap, 3, b"000LL111llGGGMM000LLGGGMM", b""),
    (AtomicOp::Mswap, 4, b"01GLM01GLM01GLM01GLM01GLM", b""),
];

fn operand_len(op: AtomicOp, len: usize) -> usize
    ensures { result ≡ operand_len op len }
{
    match op {
        AtomicOp::AtomicRead => 0,
        _ => len,
    }
}

fn compare_len(op: AtomicOp, len: usize) -> usize
    ensures { result ≡ compare_len op len }
{
    match op {
        AtomicOp::Cswap | AtomicOp::CswapNe | AtomicOp::CswapLe | AtomicOp::CswapLt => len,
        AtomicOp::CswapGe | AtomicOp::CswapGt | AtomicOp::Mswap => len,
        _ => 0,
    }
}

/// One element: the new one, and the old one that is handed back.
fn one(op: AtomicOp, num: Num, t: u64, b: u64, c: u64) -> (u64, u64) {
    let size = num.element_size();
    let mut target = t.to_le_bytes();
    let mut old = [0; 8];
    let operand = b.to_le_bytes();
    let compare = c.to_le_bytes();
    apply(
        op,
        num,
        &mut target[..size],
        &operand[..operand_len(op, size)],
        &compare[..compare_len(op, size)],
        &mut old[..size],
    );
    (u64::from_le_bytes(target), u64::from_le_bytes(old))
}

/// The letter of an element of a type with these ones.
fn letter(x: u64, ones: u64, is_signed: bool) -> u8 {
    let greatest = if is_signed { ones / 2 } else { ones };
    if x <= 2 {
        return [b'0', b'1', b'2'][x as usize];
    }
    if x <= greatest {
        return match greatest - x {
            0 => b'G',
            1 => b'g',
            _ => b'?',
        };
    }
    match (x - greatest, ones.saturating_sub(x)) {
        (1, _) => b'L',
        (2, _) => b'l',
        (_, 0) => b'M',
        (_, 1) => b'N',
        _ => b'?',
    }
}

/// Whether the new elements of one target have these letters, and the old one is handed back each time.
fn has_letters(op: AtomicOp, num: Num, t: u64, values: &[u64], compare: u64, want: &[u8]) -> bool {
    let (ones, is_signed) = ones_of(num);
    for (b, wanted) in values.iter().zip(want) {
        let (new, old) = one(op, num, t, *b, compare);
        if old != t || letter(new, ones, is_signed) != *wanted {
            return false;
        }
    }
    values.len() == want.len()
}

/// The same of each of the values as target, one behind the other.
fn have_letters(op: AtomicOp, num: Num, values: &[u64], compare: u64, want: &[u8]) -> bool {
    let mut rest = want;
    for t in values {
        let Some((letters, others)) = rest.split_at_checked(values.len()) else {
            return false;
        };
        if !has_letters(op, num, *t, values, compare, letters) {
            return false;
        }
        rest = others;
    }
    rest.is_empty()
}

/// The same where the place of the compare is one of the values.
fn have_letters_at(op: AtomicOp, num: Num, values: &[u64], place: usize, want: &[u8]) -> bool {
    match values.get(place) {
        Some(compare) => have_letters(op, num, values, *compare, want),
        None => true,
    }
}

/// Whether the elements of one type are those of a row.
fn is_row(row: &Row, num: Num) -> bool {
    let (op, place, signed, unsigned) = *row;
    let (ones, is_signed) = ones_of(num);
    if is_signed {
        let values = [0, 1, ones / 2, ones / 2 + 1, ones];
        return have_letters_at(op, num, &values, place, signed);
    }
    have_letters_at(op, num, &[0, 1, ones], place, unsigned)
}

/// Whether the elements of each type are those of the row.
fn is_row_of_all(row: &Row) -> bool {
    for num in NUMS {
        if !is_row(row, num) {
            return false;
        }
    }
    true
}

/// The elements of each type are those of each row.
fn are_rows(rt: &impl Abort, rows: &[Row]) {
    for (place, row) in rows.iter().enumerate() {
        assert!(rt; is_row_of_all(row), "row {place}");
    }
}

#[test]
fn elements_are_those_of_the_table(rt: HostRuntime) -> Result<(), Fail> {
    are_rows(&rt, &PLAIN);
    are_rows(&rt, &SWAPS);
    are_rows(&rt, &MASKED);
    Ok(())
}

/// Does an atomic, where the lengths belong together.
fn is_applied(
    op: AtomicOp,
    num: Num,
    target: &mut [u8],
    operand: &[u8],
    compare: &[u8],
    old: &mut [u8],
) -> bool {
    let len = target.len();
    if len % num.element_size() != 0
        || operand.len() != operand_len(op, len)
        || compare.len() != compare_len(op, len)
        || old.len() != len
    {
        return false;
    }
    apply(op, num, target, operand, compare, old);
    true
}

/// Whether an element of one byte becomes this one, and is handed back as it was.
fn becomes(op: AtomicOp, num: Num, from: u8, operand: u8, compare: &[u8], to: u8) -> bool {
    let mut target = [from];
    let mut old = [0];
    is_applied(op, num, &mut target, &[operand], compare, &mut old)
        && target == [to]
        && old == [from]
}

const FROM: [u8; 6] = [0xff, 0x00, 0x34, 0x12, 0xff, 0xff];

const TO: [u8; 6] = [0x00, 0x01, 0x36, 0x12, 0x00, 0x00];

/// Whether each element of a range is changed, and the range is handed back as it was.
fn range_becomes() -> bool {
    let mut target = FROM;
    let mut old = [0; 6];
    let operand = [1, 0, 2, 0, 1, 0];
    is_applied(
        AtomicOp::Sum,
        Num::U16,
        &mut target,
        &operand,
        &[],
        &mut old,
    ) && target == TO
        && old == FROM
}

/// Whether a range that is read is handed back, and stays.
fn range_is_read() -> bool {
    let mut target = TO;
    let mut old = FROM;
    is_applied(
        AtomicOp::AtomicRead,
        Num::U16,
        &mut target,
        &[],
        &[],
        &mut old,
    ) && target == TO
        && old == TO
}

fn no_range_is_read() -> bool {
    is_applied(AtomicOp::AtomicRead, Num::I64, &mut [], &[], &[], &mut [])
}

#[test]
fn ranges_are_done_whole(rt: HostRuntime) -> Result<(), Fail> {
    assert!(rt; becomes(AtomicOp::Sum, Num::I8, 0x7f, 1, &[], 0x80));
    assert!(rt; becomes(AtomicOp::CswapLe, Num::U8, 7, 1, &[5], 1));
    assert!(rt; becomes(AtomicOp::Mswap, Num::U8, 0xf0, 60, &[15], 0xfc));
    assert!(rt; range_becomes());
    assert!(rt; range_is_read());
    assert!(rt; no_range_is_read());
    Ok(())
}
