//! Many additions, by one thread or by several at once.
ghost use Rattle.std.specs.Prelude.{◌≡◌, ◌<◌, length};
ghost use Rattle.fab_window.specs.Seats.{board_of, starts_of};

use fab_window::WindowSeat;
use std::sync::atomic::{AtomicU64, Ordering};
use std::thread;
use std::thread::Threads;

/// How many words there are.
pub(crate) const WORDS: usize = 64;

/// Adds 1 to a word so many times, as long as the seat may.
fn add_by_seat(seat: &mut WindowSeat, word: u32, adds: u32)
    requires { word < length (starts_of seat.old) }
    ensures { board_of seat.new ≡ board_of seat.old }
{
    let mut left = adds;
    'adding: while left > 0 {
        if seat.add(word, 1).is_err() {
            return;
        }
        left -= 1;
    }
}

/// Adds 1 to a word so many times.
fn add_to(words: &[AtomicU64], word: usize, adds: u32) {
    if word < words.len() {
        let own = &words[word];
        for _ in 0..adds {
            own.fetch_add(1, Ordering::SeqCst);
        }
    }
}

/// The turn of the thread at this place.
fn add_at(seat: &mut WindowSeat, place: usize, stride: usize, adds: u32) {
    let word = place.wrapping_mul(stride);
    if word < seat.word_count() as usize {
        add_by_seat(seat, word as u32, adds);
    }
}

/// The thread of each seat adds to the word at its place times the stride.
pub(crate) fn add_by_seats<R: Threads + Sync>(
    rt: &R,
    seats: &mut [WindowSeat],
    stride: usize,
    adds: u32,
) {
    let threads = seats.len();
    if threads == 0 {
        return;
    }
    thread::for_each_mut(
        rt,
        seats,
        threads,
        &|place: usize, seat: &mut WindowSeat| add_at(seat, place, stride, adds),
    );
}

/// The same with atomics of std, where so many threads are given by their places.
pub(crate) fn add_by_threads<R: Threads + Sync>(
    rt: &R,
    words: &[AtomicU64],
    places: &mut [usize],
    stride: usize,
    adds: u32,
) {
    let threads = places.len();
    if threads == 0 {
        return;
    }
    thread::for_each_mut(
        rt,
        places,
        threads,
        &|place: usize, _own: &mut usize| add_to(words, place.wrapping_mul(stride), adds),
    );
}
