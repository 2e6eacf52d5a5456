//! What is measured, and how the runs are timed.
use crate::adding::{WORDS, add_by_seats, add_by_threads};
use crate::moments::{RUNS, tenths_since};
use fab_window::{Window, WindowSeat};
use std::alloc::{AllocError, Global};
use std::io;
use std::sync::atomic::{AtomicU64, Ordering};
use std::thread::Threads;
use std::time::{Clock, Instant};

/// Which words the threads add to: the place of a thread times the stride.
#[derive(Clone, Copy, Drop)]
pub(crate) struct Layout {
    pub(crate) name: &'static str,
    pub(crate) stride: usize,
}

pub(crate) const LAYOUTS: [Layout; 3] = [
    Layout {
        name: "one word",
        stride: 0,
    },
    Layout {
        name: "words side by side",
        stride: 1,
    },
    Layout {
        name: "words apart",
        stride: 16,
    },
];

/// The times of one addition in tenths of a nanosecond.
#[derive(Clone, Copy, Drop)]
pub(crate) struct Times {
    pub(crate) window_best: u64,
    pub(crate) window_median: u64,
    pub(crate) std_best: u64,
    pub(crate) std_median: u64,
}

/// How many additions of each thread a run has.
const ADDS: u32 = 200_000;

/// So many seats at a window of zeros; none where memory is lacking.
fn seats(alloc: Global, threads: usize) -> Result<Vec<WindowSeat>, AllocError> {
    let zeros = Vec::from_elem(alloc, 0u64, WORDS)?;
    let Ok(window) = Window::new(alloc, zeros.as_slice(), 4) else {
        return Err(AllocError);
    };
    let Ok(mut seats) = window.seats(alloc) else {
        return Err(AllocError);
    };
    seats.truncate(threads);
    Ok(seats)
}

fn atomics(alloc: Global) -> Result<Vec<AtomicU64>, AllocError> {
    let mut words = Vec::with_capacity(alloc, WORDS)?;
    for _ in 0..WORDS {
        words.push(AtomicU64::new(0))?;
    }
    Ok(words)
}

/// Tenths of a nanosecond for each addition of a run that began at this moment.
fn tenths<R: Clock>(rt: &R, start: &Instant) -> io::Result<u64> {
    tenths_since(rt, start, u64::from(ADDS))
}

/// The number at this place of a list, or 0.
fn at(list: &[u64], place: usize) -> u64 {
    if place < list.len() { list[place] } else { 0 }
}

/// The best and the median.
fn best_and_median(mut times: Vec<u64>) -> io::Result<(u64, u64)> {
    times.sort()?;
    let all = times.as_slice();
    Ok((at(all, 0), at(all, all.len() / 2)))
}

/// The times of so many threads at this layout. A run of one is followed by a run of the other.
pub(crate) fn timed<R: Threads + Clock + Sync>(
    rt: &R,
    alloc: Global,
    layout: &Layout,
    threads: usize,
) -> io::Result<Times> {
    let mut seats = seats(alloc, threads)?;
    let words = atomics(alloc)?;
    let mut places = Vec::from_elem(alloc, 0usize, threads)?;
    let mut by_seats = Vec::new(alloc);
    let mut by_std = Vec::new(alloc);
    for _run in 0..RUNS {
        let start = Instant::now(rt)?;
        add_by_seats(rt, seats.as_mut_slice(), layout.stride, ADDS);
        by_seats.push(tenths(rt, &start)?)?;
        let start = Instant::now(rt)?;
        add_by_threads(
            rt,
            words.as_slice(),
            places.as_mut_slice(),
            layout.stride,
            ADDS,
        );
        by_std.push(tenths(rt, &start)?)?;
    }
    let (window_best, window_median) = best_and_median(by_seats)?;
    let (std_best, std_median) = best_and_median(by_std)?;
    Ok(Times {
        window_best,
        window_median,
        std_best,
        std_median,
    })
}

/// How many additions these seats made.
fn made(seats: &[WindowSeat]) -> u64 {
    let mut all = 0u64;
    for seat in seats {
        all = all.wrapping_add(u64::from(seat.made()));
    }
    all
}

/// What these words come to.
fn sum(words: &[AtomicU64]) -> u64 {
    let mut all = 0u64;
    for word in words {
        all = all.wrapping_add(word.load(Ordering::SeqCst));
    }
    all
}

/// How many additions the seats of a window made, and what std's words came to, once four threads made 1,000 additions each.
pub(crate) fn check<R: Threads + Sync>(
    rt: &R,
    alloc: Global,
    layout: &Layout,
) -> Result<(u64, u64), AllocError> {
    let mut seats = seats(alloc, 4)?;
    let words = atomics(alloc)?;
    let mut places = Vec::from_elem(alloc, 0usize, 4)?;
    add_by_seats(rt, seats.as_mut_slice(), layout.stride, 1_000);
    add_by_threads(
        rt,
        words.as_slice(),
        places.as_mut_slice(),
        layout.stride,
        1_000,
    );
    Ok((made(seats.as_slice()), sum(words.as_slice())))
}
