//! Rounds of all peers.
ghost use Rattle.std.specs.Prelude.{◌≡◌, ◌≢◌, ℕ, ◌<◌, ◌≤◌, ◌^◌, ◌+◌, true, false, not, length, map, sum_by, List, IfOk, OnOk, OnErr, ◌↔◌};
ghost use Rattle.std.specs.List.{list_all, list_any};
ghost use Rattle.fab_ep.specs.Value.{seen};
ghost use Rattle.fab_model.specs.Peers.{fabric, is_finished};
ghost use Rattle.fab_model.specs.Orders.{Reached};
ghost use Rattle.fab_model.specs.Views.{IsPrefixOf, rule};
ghost use Rattle.fab_peer.specs.Turns.{told, actor_of, actor_in, IsStill, Living};
ghost use Rattle.fab_merging.specs.Pasts.{past_of};
ghost use Rattle.fab_merging.specs.Law.{schedules, actors, AreTogether};
ghost use Rattle.fab_rounds.specs.Opened.{Begins, AreGathered};
ghost use Rattle.fab_rounds.specs.Rounds.{Each, Rounded, LackedIn, TurnedFor, MadeFor, AtOnePort, between, size};
ghost use Rattle.fab_rounds.specs.Staying.{RanFor, Risen};

use crate::runner::Runner;
use crate::staying::stay;
use fab_base::{Gate, NoMemory};
use fab_link::Port;
use fab_peer::calls::Machinery;
use std::alloc::Global;
use std::sync::Wait;
use std::thread;
use std::thread::Threads;

/// Why no more rounds were made.
#[derive(Clone, Copy, Debug, Drop, Eq, PartialEq)]
pub enum RoundStop {
    /// The last round moved nothing.
    Still,
    /// All lines of all peers are done.
    Finished,
    /// As many rounds as asked for were made.
    Spent,
}

/// What rounds were made.
#[derive(Clone, Copy, Debug, Drop, Eq, PartialEq)]
pub struct Rounds {
    pub made: u32,
    /// So many of them, the first ones, were made by threads that stayed. None where some peer got no thread in time, or memory for the
    /// meeting place was lacking. (No clause says so.)
    pub stayed: u32,
    pub stop: RoundStop,
}

/// One turn of a peer, of which the gate is told when it begins and ends.
fn turn<P: Port, C: Machinery, G: Gate>(
    peer: &mut Runner<P, C>,
    gate: &G,
    place: usize,
    number: u32,
)
    requires place { place < 2 ^ 32 }
    ensures rounded { Rounded (between (told (seen P.Port) peer.old.peer) peer.old.moved peer.old.failed) (between (told (seen P.Port) peer.new.peer) peer.new.moved peer.new.failed) }
    ensures risen { Risen (between (told (seen P.Port) peer.old.peer) peer.old.moved peer.old.failed) (between (told (seen P.Port) peer.new.peer) peer.new.moved peer.new.failed) }
{
    let own = place as u32;
    gate.enter(own, number);
    let _kept = peer.quantum(0);
    gate.leave(own, number);
}

/// One turn of each peer, each in a thread of its own, which tells the gate when it begins and ends.
fn round<P: Port + Send, C: Machinery + Drop + Send, G: Gate, R: Threads + Wait + Sync>(
    rt: &R,
    peers: &mut [Runner<P, C>],
    gate: &G,
    number: u32,
)
    requires few { length peers.old < 2 ^ 32 }
    ensures rounded { Each (λ a b. Rounded (between (told (seen P.Port) a.peer) a.moved a.failed) (between (told (seen P.Port) b.peer) b.moved b.failed)) peers.old peers.new }
    ensures risen { Each (λ a b. Risen (between (told (seen P.Port) a.peer) a.moved a.failed) (between (told (seen P.Port) b.peer) b.moved b.failed)) peers.old peers.new }
{
    let threads = peers.len();
    if threads == 0 {
        return;
    }
    thread::for_each_mut(
        rt,
        peers,
        threads,
        &|place: usize, peer: &mut Runner<P, C>|
            requires place { place < 2 ^ 32 }
            ensures rounded { Rounded (between (told (seen P.Port) peer.old.peer) peer.old.moved peer.old.failed) (between (told (seen P.Port) peer.new.peer) peer.new.moved peer.new.failed) }
            ensures risen { Risen (between (told (seen P.Port) peer.old.peer) peer.old.moved peer.old.failed) (between (told (seen P.Port) peer.new.peer) peer.new.moved peer.new.failed) }
        { turn(peer, gate, place, number) },
    );
}

/// One round more or many, after so many, and how many, of which those of threads that stayed are noted. At first all peers try threads
/// that stay for all rounds; where these made none, and ever after, a round starts and joins a thread for each peer.
fn more_rounds<P: Port + Send, C: Machinery + Drop + Send, G: Gate, R: Threads + Wait + Sync>(
    rt: &R,
    alloc: Global,
    peers: &mut [Runner<P, C>],
    gate: &G,
    made: u32,
    limit: u32,
    noted: &mut u32,
) -> u32
    requires few { length peers.old < 2 ^ 32 }
    requires before { made < limit }
    ensures count { length peers.new ≡ length peers.old }
    ensures within { (0 < result) × (made + result ≤ limit) }
    ensures noted { noted.new ≤ noted.old + result }
    ensures ran { RanFor result (map (λ p. between (told (seen P.Port) p.peer) p.moved p.failed) peers.old) (map (λ p. between (told (seen P.Port) p.peer) p.moved p.failed) peers.new) }
{
    let stayed = stay(rt, alloc, peers, gate, made, limit);
    if stayed > 0 {
        *noted = stayed;
        return stayed;
    }
    round(rt, peers, gate, made + 1);
    1
}

/// Whether memory ran out in a turn of any peer.
fn any_failed<P: Port, C: Machinery>(peers: &[Runner<P, C>]) -> bool
    ensures { result ≡ list_any (λ p. p.failed) peers.now }
{
    peers.iter().any(|peer| peer.failed())
}

/// Whether the last turn of no peer moved anything.
fn none_moved<P: Port, C: Machinery>(peers: &[Runner<P, C>]) -> bool
    ensures { result ≡ list_all (λ p. not p.moved) peers.now }
{
    peers.iter().all(|peer| !peer.moved())
}

/// Whether all lines of all peers are done.
fn all_finished<P: Port, C: Machinery>(peers: &[Runner<P, C>]) -> bool
    ensures { result ≡ list_all (λ p. is_finished (actor_of (told (seen P.Port) p.peer))) peers.now }
{
    peers.iter().all(|peer| peer.finished())
}

/// Makes rounds until one moves nothing, all lines of all peers are done, or as many were made as asked for. In a round
/// every peer takes one turn, each in a thread of its own.
///
/// A thread stays for all rounds, and after each turn all peers meet. Where memory for the meeting place is lacking, or some
/// peer got no thread in time, each round starts and joins a thread for each peer, as far as threads can be had.
///
/// It ends after the first round of which one of these is so. Where memory ran out in a turn, the round goes on for the
/// other peers, and then the call ends; the schedule of each peer begins with the one before, and that of the peer that
/// lacked memory is what it was before the round. What its turn did till then stays, by its endpoint and by itself, but that
/// the result of its last line or the last completion read may not be kept.
///
/// Once the ports are gathered, so that their moves merge, some order of turns led from the opening to the peers as they
/// are, and they can go on in one thread.
pub fn run_rounds<P: Port + Send, C: Machinery + Drop + Send, G: Gate, R: Threads + Wait + Sync>(
    rt: &R,
    alloc: Global,
    peers: &mut [Runner<P, C>],
    gate: &G,
    limit: u32,
) -> Result<Rounds, NoMemory>
    requires few { length peers.old < 2 ^ 32 }
    ensures count { length peers.new ≡ length peers.old }
    ensures turned { IfOk result (λ r. Each (λ a b. (b.failed ≡ false → a.failed ≡ false) × TurnedFor r.made (told (seen P.Port) a.peer) (told (seen P.Port) b.peer)) peers.old peers.new) }
    ensures rounds { IfOk result (λ r. MadeFor r.made (map (λ p. between (told (seen P.Port) p.peer) p.moved p.failed) peers.old) (map (λ p. between (told (seen P.Port) p.peer) p.moved p.failed) peers.new)) }
    ensures lacked { OnErr result ((n : ℕ) × (0 < n) × (n ≤ limit) × MadeFor n (map (λ p. between (told (seen P.Port) p.peer) p.moved p.failed) peers.old) (map (λ p. between (told (seen P.Port) p.peer) p.moved p.failed) peers.new)) }
    ensures left { OnErr result ((n : ℕ) × (0 < n) × (n ≤ limit) × Each (λ a b. LackedIn n (between (told (seen P.Port) a.peer) a.moved a.failed) (between (told (seen P.Port) b.peer) b.moved b.failed)) peers.old peers.new) }
    ensures grows { Each (λ a b. IsPrefixOf (told (seen P.Port) a.peer).schedule (told (seen P.Port) b.peer).schedule) peers.old peers.new }
    ensures ports { Each (λ a b. b.failed ≡ false → AtOnePort (told (seen P.Port) a.peer) (told (seen P.Port) b.peer)) peers.old peers.new }
    ensures reached { OnOk result ((opening : List Living) → Begins opening (map (λ p. past_of (told (seen P.Port) p.peer)) peers.old) → AreGathered (map (λ p. past_of (told (seen P.Port) p.peer)) peers.new)
        → Reached (rule fabric) (map actor_in opening) (schedules (map (λ p. past_of (told (seen P.Port) p.peer)) peers.new)) (actors (map (λ p. past_of (told (seen P.Port) p.peer)) peers.new))
        × AreTogether (map (λ p. past_of (told (seen P.Port) p.peer)) peers.new)) }
    ensures still { IfOk result (λ r. (r.stop ≡ RoundStop.Still) ↔ ((0 < r.made) × (list_all (λ p. not p.moved) peers.new ≡ true))) }
    ensures idle { IfOk result (λ r. r.stop ≡ RoundStop.Still → Each (λ a b. IsStill (told (seen P.Port) a.peer) (told (seen P.Port) b.peer)) peers.old peers.new) }
    ensures finished { IfOk result (λ r. (r.stop ≡ RoundStop.Finished) ↔ ((r.stop ≢ RoundStop.Still) × (list_all (λ p. is_finished (actor_of (told (seen P.Port) p.peer))) peers.new ≡ true))) }
    ensures spent { IfOk result (λ r. (r.stop ≡ RoundStop.Spent) ↔ ((r.stop ≢ RoundStop.Still) × (r.stop ≢ RoundStop.Finished) × (r.made ≡ limit))) }
    ensures made { IfOk result (λ r. (r.made ≤ limit) × (0 < limit → 0 < r.made)) }
    ensures stayed { IfOk result (λ r. r.stayed ≤ r.made) }
    ensures ok { IfOk result (λ r. 0 < r.made → list_any (λ p. p.failed) peers.new ≡ false) }
    ensures err { OnErr result (list_any (λ p. p.failed) peers.new ≡ true) }
    ensures grew { IfOk result (λ r. r.stop ≡ RoundStop.Spent → sum_by (λ p. size (told (seen P.Port) p.peer)) peers.old + limit ≤ sum_by (λ p. size (told (seen P.Port) p.peer)) peers.new) }
{
    let mut made = 0;
    let mut stayed = 0;
    'rounds: while made < limit {
        made += more_rounds(rt, alloc, peers, gate, made, limit, &mut stayed);
        if any_failed(peers) {
            return Err(NoMemory);
        }
        if none_moved(peers) {
            return Ok(Rounds {
                made,
                stayed,
                stop: RoundStop::Still,
            });
        }
        if all_finished(peers) {
            return Ok(Rounds {
                made,
                stayed,
                stop: RoundStop::Finished,
            });
        }
    }
    let stop = if all_finished(peers) {
        RoundStop::Finished
    } else {
        RoundStop::Spent
    };
    Ok(Rounds { made, stayed, stop })
}
