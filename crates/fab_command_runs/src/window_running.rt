//! All peers, each in a thread of its own.
ghost use Rattle.std.specs.Prelude.{◌≡◌, ℕ, ◌+◌, ◌%◌, ◌^◌, ◌<◌, ◌≤◌, ◌++◌, length, slice_index_or, IfOk, string_bytes};
ghost use Rattle.std.specs.List.{All};
ghost use Rattle.fab_window.specs.declared.board.WindowSeat.{WindowSeat};
ghost use Rattle.fab_window.specs.declared.kinds.TheConstants.{MOST};
ghost use Rattle.fab_window.specs.Seats.{account_of, board_of, starts_of};
ghost use Rattle.fab_command_runs.specs.Planned.{planned, parts, totals as expected};
ghost use Rattle.fab_command_runs.specs.Commands.{IsWithin, asked_text};

use crate::asked::Asked;
use crate::drawing::draw_all;
use crate::writing::{add_first, add_rows};
use fab_base::{Gate, NoMemory};
use fab_window::{Window, WindowSeat, gather};
use std::alloc::Global;
use std::thread;
use std::thread::Threads;

/// The turn of one peer, by its number: it tells the gate that it begins, makes its additions, and tells that it ends. The
/// rounds of a script are numbered from 1; this turn has the round 0.
fn turn<G: Gate>(gate: &G, seat: &mut WindowSeat, place: usize, number: u64, words: u32, adds: u32)
    requires place { place < 2 ^ 32 }
    requires words { (0 < words) × (words ≤ length (starts_of seat.old)) }
    requires room { length (account_of seat.old).drawn + adds ≤ MOST }
    ensures window { board_of seat.new ≡ board_of seat.old }
    ensures drawn { parts (account_of seat.new).drawn ≡ parts (account_of seat.old).drawn ++ planned words ((number + place) % 2 ^ 64) adds }
{
    let own = place as u32;
    gate.enter(own, 0);
    draw_all(seat, number.wrapping_add(place as u64), words, adds);
    gate.leave(own, 0);
}

/// The turns of all peers at once, each in a thread of its own.
fn draw_each<G: Gate, R: Threads + Sync>(
    rt: &R,
    seats: &mut [WindowSeat],
    gate: &G,
    number: u64,
    words: u32,
    adds: u32,
)
    requires words { 0 < words }
    requires few { length seats.old < 2 ^ 32 }
    requires ready { All (λ s. (words ≤ length (starts_of s)) × (length (account_of s).drawn + adds ≤ MOST)) seats.old }
    ensures boards { (k : ℕ) (d : WindowSeat) → k < length seats.old → board_of (slice_index_or seats.new k d) ≡ board_of (slice_index_or seats.old k d) }
    ensures drawn { (k : ℕ) (d : WindowSeat) → k < length seats.old
        → parts (account_of (slice_index_or seats.new k d)).drawn ≡ parts (account_of (slice_index_or seats.old k d)).drawn ++ planned words ((number + k) % 2 ^ 64) adds }
{
    let threads = seats.len();
    if threads == 0 {
        return;
    }
    thread::for_each_mut(
        rt,
        seats,
        threads,
        &|place: usize, seat: &mut WindowSeat|
            requires place { place < 2 ^ 32 }
            requires words { (0 < words) × (words ≤ length (starts_of seat.old)) }
            requires room { length (account_of seat.old).drawn + adds ≤ MOST }
        { turn(gate, seat, place, number, words, adds) },
    );
}

/// What the words hold, by their numbers, once 1 to 32 peers made up to 100,000 additions each to 1 to 1,024 words: a
/// function of the four numbers.
///
/// Each peer calls the gate's `enter` first and its `leave` last, with its number and round 0, in its own thread.
///
/// # Errors
/// Want of memory. It may come before or after the additions.
pub fn totals<G: Gate, R: Threads + Sync>(
    rt: &R,
    alloc: Global,
    gate: &G,
    number: u64,
    peers: u32,
    words: u32,
    adds: u32,
) -> Result<Vec<u64>, NoMemory>
    requires peers { (0 < peers) × (peers ≤ 32) }
    requires words { (0 < words) × (words ≤ 1024) }
    requires adds { adds ≤ 100000 }
    ensures { IfOk result (λ v. v.items ≡ expected number peers words adds) }
{
    let zeros = Vec::from_elem(alloc, 0u64, words as usize)?;
    let window = Window::new(alloc, zeros.as_slice(), peers)?;
    let mut seats = window.seats(alloc)?;
    draw_each(rt, seats.as_mut_slice(), gate, number, words, adds);
    match gather(alloc, seats) {
        Ok(values) => Ok(values),
        Err(_refused) => Err(NoMemory),
    }
}

/// The text of the command: `window words W peers P adds A`, and `word I V` for each word, each with a line feed. It is a
/// function of what was asked alone. The gate is told as by [`totals`].
///
/// # Errors
/// Want of memory.
pub fn window_text<G: Gate, R: Threads + Sync>(
    rt: &R,
    alloc: Global,
    gate: &G,
    asked: Asked,
) -> Result<String, NoMemory>
    requires { IsWithin asked }
    ensures { IfOk result (λ t. string_bytes t ≡ asked_text asked) }
{
    let Asked {
        number,
        peers,
        words,
        adds,
    } = asked;
    let values = totals(rt, alloc, gate, number, peers, words, adds)?;
    let mut out = String::new(alloc);
    add_first(&mut out, words, peers, adds)?;
    add_rows(&mut out, values.as_slice())?;
    Ok(out)
}
