//! Commands over memory: the one call that carries them out.
use crate::counting::{Counted, RANKS};
use fab_base::{Gate, Text};
use fab_host::{Ended, OpenGate, carry_out};
use fab_outside::{MemoryClock, MemoryDepot, MemorySink};
use fab_test_helpers::{InOrder, Meeting};
use std::alloc::Global;
use std::process::ExitCode;
use std::sync::Wait;
use std::sync::atomic::Ordering;
use std::thread::Threads;

/// What lets the turns of a run in.
#[derive(Clone, Copy, Drop)]
pub(crate) enum Turns {
    Open,
    /// In this round each of two turns waits until the other has begun.
    Meet(u32),
    /// In so many rounds the turns go in this order of their peers.
    Order(&'static [u32], u32),
    /// The same, and the turns are counted by rank and round.
    Count(&'static [u32], u32),
}

/// How a command ended: its exit status, how often the clock was asked, and how many turns saw another begin, or whether one
/// came late.
#[derive(Clone, Copy, Drop)]
pub(crate) struct End {
    pub(crate) code: u8,
    pub(crate) asked: u64,
    pub(crate) seen: u32,
    /// The turns of each rank, where they are counted: a digit for each round, the last one first.
    pub(crate) turns: Option<[u64; RANKS]>,
}

/// The number of an exit status.
fn number_of(code: ExitCode) -> u8 {
    for number in 0..8 {
        if code == ExitCode::from(number) {
            return number;
        }
    }
    u8::MAX
}

/// Carries out the command of these words, and tells its exit status and how often the clock was asked.
fn carry<R: Threads + Wait + Sync, G: Gate>(
    rt: &R,
    alloc: Global,
    words: &[Text],
    depot: &mut MemoryDepot,
    sink: &mut MemorySink,
    errors: &mut MemorySink,
    moments: Vec<u64>,
    gate: &G,
) -> (u8, u64) {
    let mut clock = MemoryClock::new(moments);
    let Ended { code, .. } = carry_out(rt, alloc, words, depot, sink, &mut clock, gate, errors);
    (number_of(code), clock.given)
}

/// The same under a gate that counts turns, and what it counted.
fn carry_counted<R: Threads + Wait + Sync>(
    rt: &R,
    alloc: Global,
    words: &[Text],
    depot: &mut MemoryDepot,
    sink: &mut MemorySink,
    errors: &mut MemorySink,
    moments: Vec<u64>,
    gate: &Counted,
) -> End {
    let (code, asked) = carry(rt, alloc, words, depot, sink, errors, moments, gate);
    let turns = [gate.turns(0), gate.turns(1), gate.turns(2), gate.turns(3)];
    End {
        code,
        asked,
        seen: u32::from(gate.is_late()),
        turns: Some(turns),
    }
}

/// The same, with its turns let in so.
pub(crate) fn carry_turns<R: Threads + Wait + Sync>(
    rt: &R,
    alloc: Global,
    words: &[Text],
    depot: &mut MemoryDepot,
    sink: &mut MemorySink,
    errors: &mut MemorySink,
    moments: Vec<u64>,
    turns: Turns,
) -> End {
    let ((code, asked), seen) = match turns {
        Turns::Open => {
            let carried = carry(rt, alloc, words, depot, sink, errors, moments, &OpenGate);
            (carried, 0)
        }
        Turns::Meet(round) => {
            let gate = Meeting::new(round);
            let carried = carry(rt, alloc, words, depot, sink, errors, moments, &gate);
            (carried, gate.seen.load(Ordering::SeqCst))
        }
        Turns::Order(order, rounds) => {
            let gate = InOrder::new(order, rounds);
            let carried = carry(rt, alloc, words, depot, sink, errors, moments, &gate);
            (carried, u32::from(gate.late.load(Ordering::SeqCst)))
        }
        Turns::Count(order, rounds) => {
            let gate = Counted::new(order, rounds);
            return carry_counted(rt, alloc, words, depot, sink, errors, moments, &gate);
        }
    };
    End {
        code,
        asked,
        seen,
        turns: None,
    }
}
