//! Atomics on the elements of a region of peer 0.
use crate::calls::carries;
use crate::completions::Completion;
use crate::remote::{has, puts};
use fabric::{AtomicOp, Buf, COMPLETES, Calls, EndpointOver, Num};
use std::alloc::Global;

/// The key of the region, which peers may read and write.
const ELEMENTS: u64 = 1;

/// What stands there before each operation.
pub const BEFORE: &[u8] = &[1, 5, 0, 255];

/// What is compared with the elements, and what is put where they compare as asked.
const COMPARE: &[u8] = &[2, 5, 0, 254];

const NINES: &[u8] = &[9, 9, 9, 9];

/// An atomic, and last what it leaves of the elements.
#[derive(Clone, Copy, Drop)]
pub enum Atomic {
    /// One of this type, with this operand: without a result, and with one.
    Both(AtomicOp, Num, &'static [u8], &'static [u8]),
    /// One that brings the old elements.
    Fetch(AtomicOp, Num, &'static [u8], &'static [u8]),
    /// One on bytes that compares, puts nines, and brings the old elements.
    Compare(AtomicOp, &'static [u8]),
}

impl Atomic {
    /// Whether it goes so.
    pub(crate) fn goes<E: Calls + Drop>(
        self,
        alloc: Global,
        zero: &mut EndpointOver<E>,
        one: &mut EndpointOver<E>,
    ) -> bool {
        match self {
            Atomic::Both(op, num, operand, after) => {
                updates(zero, one, op, num, operand, after)
                    && fetches(alloc, zero, one, op, num, operand, after)
            }
            Atomic::Fetch(op, num, operand, after) => {
                fetches(alloc, zero, one, op, num, operand, after)
            }
            Atomic::Compare(op, after) => compares(alloc, zero, one, op, after),
        }
    }
}

/// Whether the elements are those before each operation.
fn resets<E: Calls + Drop>(zero: &mut EndpointOver<E>) -> bool {
    puts(zero, ELEMENTS, 0, BEFORE) == Ok(())
}

/// Whether an operation ends with this completion, and leaves these elements.
fn ends<E: Calls + Drop>(
    zero: &mut EndpointOver<E>,
    one: &mut EndpointOver<E>,
    completion: Completion,
    after: &[u8],
) -> bool {
    carries(zero, one) && completion.is_next(one) && has(zero, ELEMENTS, after)
}

fn updates<E: Calls + Drop>(
    zero: &mut EndpointOver<E>,
    one: &mut EndpointOver<E>,
    op: AtomicOp,
    num: Num,
    operand: &[u8],
    after: &[u8],
) -> bool {
    let accepted = resets(zero)
        && one
            .atomic(0, ELEMENTS, 0, op, num, operand, 1, COMPLETES)
            .is_ok();
    accepted && ends(zero, one, Completion::Updated(1), after)
}

fn accepts_fetch<E: Calls + Drop>(
    alloc: Global,
    one: &mut EndpointOver<E>,
    op: AtomicOp,
    num: Num,
    operand: &[u8],
) -> bool {
    match Buf::zeros(alloc, 4) {
        Ok(buf) => one
            .fetch_atomic(0, ELEMENTS, 0, op, num, operand, buf, 2)
            .is_ok(),
        Err(_) => false,
    }
}

fn fetches<E: Calls + Drop>(
    alloc: Global,
    zero: &mut EndpointOver<E>,
    one: &mut EndpointOver<E>,
    op: AtomicOp,
    num: Num,
    operand: &[u8],
    after: &[u8],
) -> bool {
    resets(zero)
        && accepts_fetch(alloc, one, op, num, operand)
        && ends(zero, one, Completion::Fetched(2, BEFORE), after)
}

fn accepts_compare<E: Calls + Drop>(
    alloc: Global,
    one: &mut EndpointOver<E>,
    op: AtomicOp,
) -> bool {
    match Buf::zeros(alloc, 4) {
        Ok(buf) => one
            .compare_atomic(0, ELEMENTS, 0, op, Num::U8, NINES, COMPARE, buf, 2)
            .is_ok(),
        Err(_) => false,
    }
}

fn compares<E: Calls + Drop>(
    alloc: Global,
    zero: &mut EndpointOver<E>,
    one: &mut EndpointOver<E>,
    op: AtomicOp,
    after: &[u8],
) -> bool {
    resets(zero)
        && accepts_compare(alloc, one, op)
        && ends(zero, one, Completion::Fetched(2, BEFORE), after)
}
