//! Peers whose threads stay: each takes its turns in one thread, and all meet after each turn.
ghost use Rattle.std.specs.Prelude.{◌≡◌, ◌+◌, ◌<◌, ◌≤◌, ◌^◌, ℕ, [], length, map};
ghost use Rattle.std.specs.List.{All};
ghost use Rattle.fab_ep.specs.Value.{seen};
ghost use Rattle.fab_peer.specs.Turns.{told};
ghost use Rattle.fab_meeting.specs.Seats.{members_of, AreNew};
ghost use Rattle.fab_rounds.specs.Rounds.{Each, between};
ghost use Rattle.fab_rounds.specs.Words.{goes};
ghost use Rattle.fab_rounds.specs.Staying.{account_in, IsSeated, IsLife, RanFor};

use crate::runner::Runner;
use crate::seating::{seat_all, unseat_all};
use fab_base::Gate;
use fab_link::Port;
use fab_meeting::{Meeting, MeetingSeat, RollCall};
use fab_peer::calls::Machinery;
use std::alloc::Global;
use std::sync::Wait;
use std::thread;
use std::thread::Threads;

/// How often in a row a peer looks in vain before it ends a turn, times the square of their number.
const LOOKS: u32 = 256;

/// Among more peers than these none looks again, since there may be fewer processors than peers.
const MOST_LOOKING: usize = 4;

/// How often each of so many peers looks so. A look goes over the lanes of all, and all peers look, so that all looks take as long
/// however many they are.
fn looks_among(peers: usize) -> u32 {
    if peers > MOST_LOOKING {
        return 0;
    }
    let looked = peers.saturating_mul(peers).max(4) as u32;
    LOOKS / looked
}

/// Whether all go on after they told this: some turn moved something, some lines are left, and memory ran out in none.
fn all_go_on(told: u32) -> bool
    ensures { result ≡ goes told }
{
    told % 2 == 1 && told / 2 % 2 == 1 && told / 4 % 2 == 0
}

/// All turns of one peer, in its thread: once all peers are there, it goes on until all stop, or to the limit.
fn live<P: Port, C: Machinery, G: Gate, R: Wait>(
    rt: &R,
    peer: &mut Runner<P, C>,
    gate: &G,
    roll: &RollCall,
    meeting: &Meeting,
    place: usize,
    looks: u32,
    limit: u32,
)
    requires place { place < 2 ^ 32 }
    requires seated { IsSeated meeting.now peer.old.seat }
    requires silent { (account_in peer.old.seat).said ≡ [] }
    ensures seated { IsSeated meeting.now peer.new.seat }
    ensures place { (account_in peer.new.seat).place ≡ (account_in peer.old.seat).place }
    ensures life { IsLife (between (told (seen P.Port) peer.old.peer) peer.old.moved peer.old.failed) (between (told (seen P.Port) peer.new.peer) peer.new.moved peer.new.failed) (account_in peer.new.seat) }
    ensures within { length (account_in peer.new.seat).said ≤ limit }
{
    let own = place as u32;
    let mut made = 0;
    let mut going = roll.all_here(rt);
    while going && made < limit {
        made += 1;
        gate.enter(own, made);
        let _kept = peer.quantum(looks);
        gate.leave(own, made);
        going = all_go_on(peer.meet(rt, meeting));
    }
}

/// All turns of all peers, each in a thread of its own that tells the gate when a turn begins and ends.
fn live_all<P: Port + Send, C: Machinery + Drop + Send, G: Gate, R: Threads + Wait + Sync>(
    rt: &R,
    peers: &mut [Runner<P, C>],
    gate: &G,
    roll: &RollCall,
    meeting: &Meeting,
    limit: u32,
)
    requires few { length peers.old < 2 ^ 32 }
    requires ready { All (λ p. IsSeated meeting.now p.seat × ((account_in p.seat).said ≡ [])) peers.old }
    ensures seated { All (λ p. IsSeated meeting.now p.seat) peers.new }
    ensures place { Each (λ a b. (account_in b.seat).place ≡ (account_in a.seat).place) peers.old peers.new }
    ensures life { Each (λ a b. IsLife (between (told (seen P.Port) a.peer) a.moved a.failed) (between (told (seen P.Port) b.peer) b.moved b.failed) (account_in b.seat)) peers.old peers.new }
    ensures within { All (λ p. length (account_in p.seat).said ≤ limit) peers.new }
{
    let threads = peers.len();
    if threads == 0 {
        return;
    }
    let looks = looks_among(threads);
    thread::for_each_mut(
        rt,
        peers,
        threads,
        &|place: usize, peer: &mut Runner<P, C>|
            requires place { place < 2 ^ 32 }
            requires seated { IsSeated meeting.now peer.old.seat }
            requires silent { (account_in peer.old.seat).said ≡ [] }
            ensures seated { IsSeated meeting.entry.now peer.new.seat }
            ensures place { (account_in peer.new.seat).place ≡ (account_in peer.old.seat).place }
            ensures life { IsLife (between (told (seen P.Port) peer.old.peer) peer.old.moved peer.old.failed) (between (told (seen P.Port) peer.new.peer) peer.new.moved peer.new.failed) (account_in peer.new.seat) }
            ensures within { length (account_in peer.new.seat).said ≤ limit }
        { live(rt, peer, gate, roll, meeting, place, looks, limit) },
    );
}

/// All turns of all peers, with a meeting after each. Answers how many rounds they are.
fn meet_all<P: Port + Send, C: Machinery + Drop + Send, G: Gate, R: Threads + Wait + Sync>(
    rt: &R,
    peers: &mut [Runner<P, C>],
    gate: &G,
    limit: u32,
    meeting: &Meeting,
    seats: Vec<MeetingSeat>,
) -> u32
    requires some { (0 < length peers.old) × (length peers.old < 2 ^ 32) }
    requires seats { AreNew meeting.now seats.items × (members_of meeting.now ≡ length peers.old) }
    ensures count { length peers.new ≡ length peers.old }
    ensures within { result ≤ limit }
    ensures ran { RanFor result (map (λ p. between (told (seen P.Port) p.peer) p.moved p.failed) peers.old) (map (λ p. between (told (seen P.Port) p.peer) p.moved p.failed) peers.new) }
{
    let roll = RollCall::new(peers.len() as u32);
    let room = seat_all(peers, seats);
    live_all(rt, peers, gate, &roll, meeting, limit);
    let seats = unseat_all(peers, room);
    let made = seats[0].made();
    meeting.gather(seats);
    made
}

/// Rounds in threads that stay, until one is to end with, or as many as asked for, and how many. None where some were made
/// before, where memory for the meeting place is lacking, or where some peer got no thread in time.
pub(crate) fn stay<P: Port + Send, C: Machinery + Drop + Send, G: Gate, R: Threads + Wait + Sync>(
    rt: &R,
    alloc: Global,
    peers: &mut [Runner<P, C>],
    gate: &G,
    made: u32,
    limit: u32,
) -> u32
    requires few { length peers.old < 2 ^ 32 }
    requires before { made ≤ limit }
    ensures count { length peers.new ≡ length peers.old }
    ensures within { made + result ≤ limit }
    ensures ran { RanFor result (map (λ p. between (told (seen P.Port) p.peer) p.moved p.failed) peers.old) (map (λ p. between (told (seen P.Port) p.peer) p.moved p.failed) peers.new) }
{
    let count = peers.len();
    if count == 0 || made > 0 {
        return 0;
    }
    let Ok((meeting, seats)) = Meeting::new(alloc, count as u32) else {
        return 0;
    };
    meet_all(rt, peers, gate, limit, &meeting, seats)
}
