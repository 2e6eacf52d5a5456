//! Atomics: fi_rdm_atomic. What each leaves is computed by hand.
use fabric::{AtomicOp, Num};
use fabtests_calls::Atomic::{Both, Compare, Fetch};
use fabtests_calls::Deed::Request;
use fabtests_calls::Request::Registers;
use fabtests_calls::Step::{Atomic, Zero};
use fabtests_calls::{BEFORE, BOTH, Row};

/// Each operation changes the elements at the target, which are 1, 5, 0 and 255 before, as it is defined to, and brings the old
/// ones where it is asked to.
#[rattlefmt::skip]
pub const RDM_ATOMIC: &[Row] = &[
    (Zero(Request(Registers(1, BOTH, BEFORE))), "a region is registered"),
    (Atomic(Both(AtomicOp::Min, Num::U8, &[2, 3, 1, 2], &[1, 3, 0, 2])), "the lesser stays"),
    (Atomic(Both(AtomicOp::Max, Num::U8, &[2, 3, 1, 2], &[2, 5, 1, 255])), "the greater stays"),
    (Atomic(Both(AtomicOp::Sum, Num::U8, &[2, 3, 1, 2], &[3, 8, 1, 1])), "the sum wraps"),
    (Atomic(Both(AtomicOp::Prod, Num::U8, &[2, 3, 1, 2], &[2, 15, 0, 254])), "the product wraps"),
    (Atomic(Both(AtomicOp::Lor, Num::U8, &[2, 3, 1, 2], &[1, 1, 1, 1])), "either is not 0"),
    (Atomic(Both(AtomicOp::Land, Num::U8, &[2, 3, 1, 2], &[1, 1, 0, 1])), "both are not 0"),
    (Atomic(Both(AtomicOp::Lxor, Num::U8, &[2, 3, 1, 2], &[0, 0, 1, 0])), "one alone is not 0"),
    (Atomic(Both(AtomicOp::Bor, Num::U8, &[2, 3, 1, 2], &[3, 7, 1, 255])), "bits of either"),
    (Atomic(Both(AtomicOp::Band, Num::U8, &[2, 3, 1, 2], &[0, 1, 0, 2])), "bits of both"),
    (Atomic(Both(AtomicOp::Bxor, Num::U8, &[2, 3, 1, 2], &[3, 6, 1, 253])), "bits of one alone"),
    (Atomic(Both(AtomicOp::AtomicWrite, Num::U8, &[2, 3, 1, 2], &[2, 3, 1, 2])), "the operand stands there"),
    (Atomic(Both(AtomicOp::Min, Num::I8, &[255, 6, 128, 1], &[255, 5, 128, 255])), "the lesser with its sign stays"),
    (Atomic(Both(AtomicOp::Max, Num::I8, &[255, 6, 128, 1], &[1, 6, 0, 1])), "the greater with its sign stays"),
    (Atomic(Both(AtomicOp::Sum, Num::U16, &[255, 0, 0, 1], &[0, 6, 0, 0])), "sums of two bytes carry"),
    (Atomic(Both(AtomicOp::Sum, Num::U32, &[255, 250, 255, 0], &[0, 0, 0, 0])), "a sum of four bytes carries"),
    (Atomic(Compare(AtomicOp::Cswap, &[1, 9, 9, 255])), "swapped where equal"),
    (Atomic(Compare(AtomicOp::CswapNe, &[9, 5, 0, 9])), "swapped where not equal"),
    (Atomic(Compare(AtomicOp::CswapLe, &[1, 9, 9, 9])), "swapped where what is compared is at most the old one"),
    (Atomic(Compare(AtomicOp::CswapLt, &[1, 5, 0, 9])), "swapped where it is less"),
    (Atomic(Compare(AtomicOp::CswapGe, &[9, 9, 9, 255])), "swapped where it is at least the old one"),
    (Atomic(Compare(AtomicOp::CswapGt, &[9, 5, 0, 255])), "swapped where it is greater"),
    (Atomic(Compare(AtomicOp::Mswap, &[1, 1, 0, 9])), "swapped where bits are set"),
    (Atomic(Fetch(AtomicOp::AtomicRead, Num::U16, b"", BEFORE)), "a read brings the elements, and changes none"),
];
