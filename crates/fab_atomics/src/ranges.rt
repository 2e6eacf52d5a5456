//! An atomic over a range of memory.
ghost use Rattle.std.specs.Prelude.{◌≡◌, ℕ, ◌+◌, ◌*◌, ◌%◌, ◌<◌, ◌≤◌, ◌++◌, length, take, drop};
ghost use Rattle.fab_base.specs.declared.items.Form.{Form};
ghost use Rattle.fab_base.specs.Elements.{element_size};
ghost use Rattle.fab_model.specs.Target.{span, element, elements, bytes_of};
ghost use Rattle.fab_atomics.specs.Operands.{operand_len, compare_len, atom, number_at, element_at};

use crate::numbers::{element, number_at, put_number};
use fab_base::{AtomicOp, Num};

/// Changes the element that stands at this place, by the operand's `b` and the compare's `c`.
fn change(op: AtomicOp, num: Num, target: &mut [u8], at: usize, b: u64, c: u64)
    requires within { at + element_size num ≤ length target.old }
    requires operand { b < span num }
    requires compare { c < span num }
    ensures bytes { target.new ≡ take at target.old
        ++ bytes_of (element_size num) (element op num (number_at num target.old at) b c)
        ++ drop (at + element_size num) target.old }
    ensures value { number_at num target.new at ≡ element op num (number_at num target.old at) b c }
{
    let old = number_at(target, at, num);
    let new = element(op, num, old, b, c);
    put_number(target, at, num, new);
}

/// Does an atomic to every element of `target` (fi_atomic(3)), and puts the old elements into
/// `results`. Takes no memory.
///
/// `target` and `results` have the same length in bytes, a multiple of the element's size. `operand`
/// has that length, and none for `AtomicRead`. `compare` has that length for the comparing operations
/// and `Mswap`, and is empty for the others. Elements are little-endian.
pub fn apply(
    op: AtomicOp,
    num: Num,
    target: &mut [u8],
    operand: &[u8],
    compare: &[u8],
    results: &mut [u8],
)
    requires whole { length target.old % element_size num ≡ 0 }
    requires operand { length operand.now ≡ operand_len op (length target.old) }
    requires compare { length compare.now ≡ compare_len op (length target.old) }
    requires room { length results.old ≡ length target.old }
    ensures changed { (form : Form) → target.new ≡ elements (length target.old) (atom op num form) target.old operand.now compare.now }
    ensures each { (i : ℕ) → (i + 1) * element_size num ≤ length target.old → element_at num target.new i
        ≡ element op num (element_at num target.old i) (element_at num operand.now i) (element_at num compare.now i) }
    ensures old { results.new ≡ target.old }
{
    results.copy_from_slice(target);
    let size = num.element_size();
    for i in 0..target.len() / size {
        let at = i * size;
        let b = number_at(operand, at, num);
        let c = number_at(compare, at, num);
        change(op, num, target, at, b, c);
    }
}
