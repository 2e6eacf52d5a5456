//! What one peer adds.
ghost use Rattle.std.specs.Prelude.{◌≡◌, ◌+◌, ◌<◌, ◌≤◌, ◌++◌, length};
ghost use Rattle.fab_window.specs.Seats.{account_of, board_of, starts_of};
ghost use Rattle.fab_window.specs.declared.kinds.TheConstants.{MOST};
ghost use Rattle.fab_command_runs.specs.Planned.{operand, place, planned, parts};

use fab_window::WindowSeat;
use fab_workloads::next_drawn;

/// What the addition adds for which x stands, below 65,536.
fn amount(x: u64) -> u32
    ensures { result ≡ operand x }
{
    ((x >> 48) % 65_536) as u32
}

/// To which of so many words it adds.
fn target(x: u64, words: u32) -> u32
    requires { 0 < words }
    ensures value { result ≡ place words x }
    ensures below { result < words }
{
    ((x >> 33) % words as u64) as u32
}

/// Makes so many additions, for which the numbers stand that are drawn from this one on.
pub(crate) fn draw_all(seat: &mut WindowSeat, number: u64, words: u32, adds: u32)
    requires words { (0 < words) × (words ≤ length (starts_of seat.old)) }
    requires room { length (account_of seat.old).drawn + adds ≤ MOST }
    ensures window { board_of seat.new ≡ board_of seat.old }
    ensures drawn { parts (account_of seat.new).drawn ≡ parts (account_of seat.old).drawn ++ planned words number adds }
{
    let mut x = number;
    let mut left = adds;
    'adding: while left > 0 {
        x = next_drawn(x);
        let Ok(_) = seat.add(target(x, words), amount(x)) else {
            unreachable!()
        };
        left -= 1;
    }
}
