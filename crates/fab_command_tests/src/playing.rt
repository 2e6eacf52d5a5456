//! What the members do.
ghost use Rattle.std.specs.Prelude.{◌≡◌, ℕ, ◌+◌, ◌^◌, ◌<◌, length, slice_index_or};
ghost use Rattle.std.specs.List.{All};
ghost use Rattle.fab_meeting.specs.declared.board.MeetingSeat.{MeetingSeat};
ghost use Rattle.fab_meeting.specs.Seats.{account_of, AreAll, IsOf};

use fab_base::NoMemory;
use fab_meeting::{Meeting, MeetingSeat, RollCall};
use std::alloc::Global;
use std::sync::Wait;
use std::sync::atomic::{AtomicU32, Ordering};
use std::thread;
use std::thread::Threads;

/// The word of a member at a meeting: no bit or one.
fn word(member: u32, meeting: u32) -> u32 {
    let mixed = (member as u64 + 1).wrapping_mul(11_400_714_819_323_198_485)
        ^ (meeting as u64 + 1).wrapping_mul(13_787_848_793_156_543_929);
    let bit = (mixed >> 40) % 64;
    if bit < 32 { 1 << bit } else { 0 }
}

/// The words of all members at a meeting, joined.
fn expected(members: u32, meeting: u32) -> u32 {
    let mut all = 0;
    for member in 0..members {
        all |= word(member, meeting);
    }
    all
}

/// All meetings of one member, who counts the answers that are not as expected.
fn play<R: Wait>(
    rt: &R,
    meeting: &Meeting,
    seat: &mut MeetingSeat,
    wrong: &AtomicU32,
    member: u32,
    members: u32,
    meetings: u32,
)
    requires of { IsOf meeting.now seat.old }
    requires few { length (account_of seat.old).said + meetings < 2 ^ 32 }
    ensures of { IsOf meeting.now seat.new }
    ensures place { (account_of seat.new).place ≡ (account_of seat.old).place }
{
    let mut made = 0;
    while made < meetings {
        let answer = meeting.meet(rt, seat, word(member, made));
        if answer != expected(members, made) {
            wrong.fetch_add(1, Ordering::SeqCst);
        }
        made += 1;
    }
}

/// All meetings of all members, each in a thread of its own.
fn play_all<R: Threads + Wait + Sync>(
    rt: &R,
    meeting: &Meeting,
    seats: &mut [MeetingSeat],
    wrong: &AtomicU32,
    members: u32,
    meetings: u32,
)
    requires few { length seats.old < 2 ^ 32 }
    requires ready { All (λ s. IsOf meeting.now s × (length (account_of s).said + meetings < 2 ^ 32)) seats.old }
    ensures of { All (IsOf meeting.now) seats.new }
    ensures place { (k : ℕ) (d : MeetingSeat) → k < length seats.old → (account_of (slice_index_or seats.new k d)).place ≡ (account_of (slice_index_or seats.old k d)).place }
{
    let threads = seats.len();
    if threads == 0 {
        return;
    }
    thread::for_each_mut(
        rt,
        seats,
        threads,
        &|place: usize, seat: &mut MeetingSeat|
            requires place { place < 2 ^ 32 }
            requires of { IsOf meeting.now seat.old }
            requires few { length (account_of seat.old).said + meetings < 2 ^ 32 }
        { play(rt, meeting, seat, wrong, place as u32, members, meetings) },
    );
}

/// How many answers were not as expected, where so many members made so many meetings.
pub fn wrong_answers<R: Threads + Wait + Sync>(
    rt: &R,
    alloc: Global,
    members: u32,
    meetings: u32,
) -> Result<u32, NoMemory>
    requires members { 0 < members }
    requires few { meetings + 1 < 2 ^ 32 }
{
    let (meeting, mut seats) = Meeting::new(alloc, members)?;
    let wrong = AtomicU32::new(0);
    play_all(
        rt,
        &meeting,
        seats.as_mut_slice(),
        &wrong,
        members,
        meetings,
    );
    meeting.gather(seats);
    Ok(wrong.load(Ordering::SeqCst))
}

/// Calls the roll of so many members, of which so many come, each in a thread of its own.
fn call_roll<R: Threads + Wait + Sync>(
    rt: &R,
    roll: &RollCall,
    coming: &mut [u32],
    told: &AtomicU32,
) {
    let threads = coming.len();
    if threads == 0 {
        return;
    }
    thread::for_each_mut(
        rt,
        coming,
        threads,
        &|_place, answer| {
            if roll.all_here(rt) {
                *answer = told.fetch_add(1, Ordering::SeqCst);
            }
        },
    );
}

/// How many are told that all members are there, where so many of them come.
pub fn told_here<R: Threads + Wait + Sync>(
    rt: &R,
    alloc: Global,
    members: u32,
    coming: usize,
) -> Result<u32, NoMemory> {
    let mut coming = Vec::from_elem(alloc, 0u32, coming)?;
    let roll = RollCall::new(members);
    let told = AtomicU32::new(0);
    call_roll(rt, &roll, coming.as_mut_slice(), &told);
    Ok(told.load(Ordering::SeqCst))
}
