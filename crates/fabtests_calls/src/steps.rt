//! Steps, and tables of them.
use crate::atomics::Atomic;
use crate::calls::{Verdict, carries, check};
use crate::completions::Completion;
use crate::deeds::Deed;
use crate::remote::goes_and_comes;
use fabric::{Calls, EndpointOver};
use std::alloc::Global;

/// A step of a test with two endpoints, those of peer 0 and peer 1.
#[derive(Clone, Copy, Drop)]
pub enum Step {
    /// Both go on by turns.
    Carry,
    /// One of them does something.
    Zero(Deed),
    One(Deed),
    /// The next completion of one of them.
    AtZero(Completion<'static>),
    AtOne(Completion<'static>),
    /// Peer 1 operates on elements of a region of peer 0.
    Atomic(Atomic),
    /// Peer 1 writes and reads a region of peer 0 of so many bytes.
    ThereAndBack(u32),
}

/// A step, and what holds if it goes as it should.
pub type Row = (Step, &'static str);

fn goes<E: Calls + Drop>(
    alloc: Global,
    zero: &mut EndpointOver<E>,
    one: &mut EndpointOver<E>,
    step: Step,
) -> bool {
    match step {
        Step::Carry => carries(zero, one),
        Step::Zero(deed) => deed.goes(alloc, zero),
        Step::One(deed) => deed.goes(alloc, one),
        Step::AtZero(completion) => completion.is_next(zero),
        Step::AtOne(completion) => completion.is_next(one),
        Step::Atomic(atomic) => atomic.goes(alloc, zero, one),
        Step::ThereAndBack(len) => goes_and_comes(alloc, zero, one, len),
    }
}

/// Takes the steps of a test in turn, up to the first that does not go as it should.
pub fn walks<E: Calls + Drop>(
    alloc: Global,
    zero: &mut EndpointOver<E>,
    one: &mut EndpointOver<E>,
    rows: &[Row],
) -> Verdict {
    for row in rows {
        let (step, what) = *row;
        check(goes(alloc, zero, one, step), what)?;
    }
    Ok(())
}
