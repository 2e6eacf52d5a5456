//! A seat's calls, through a caller that sees the clauses of `fab_window` alone.
ghost use Rattle.std.specs.Prelude.{◌≡◌, ◌+◌, ◌<◌, ◌≤◌, [], length};
ghost use Rattle.fab_window.specs.Seats.{account_of, starts_of};

use fab_base::NoMemory;
use fab_window::{Window, WindowSeat};
use std::alloc::Global;

/// A look, an addition and a look again, and how many additions were made.
fn probe(seat: &mut WindowSeat) -> (u64, u64, u64, u32)
    requires word { 0 < length (starts_of seat.old) }
    requires fresh { (account_of seat.old).drawn ≡ [] }
    ensures grown { (result.0 ≤ result.2) × (result.1 + 3 ≤ result.2) }
    ensures made { result.3 ≡ 1 }
{
    let before = seat.load(0);
    let Ok(old) = seat.add(0, 3) else {
        unreachable!()
    };
    let after = seat.load(0);
    (before, old, after, seat.made())
}

fn probed(alloc: Global) -> Result<(u64, u64, u64, u32), NoMemory> {
    let window = Window::new(alloc, &[5], 1)?;
    let mut seats = window.seats(alloc)?;
    Ok(probe(&mut seats[0]))
}

#[test]
fn a_seat_looks_and_adds(rt: HostRuntime) -> Result<(), NoMemory> {
    assert_eq!(rt; probed(rt.alloc())?, (5, 5, 8, 1));
    Ok(())
}
