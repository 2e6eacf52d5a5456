//! Rounds: each peer takes its turn, and then all frames are carried.
ghost use Rattle.std.specs.Prelude.{◌≡◌, ◌≢◌, ℕ, ◌<◌, List, [], length, nat_lt, slice_get, true, false, Ok, IfOk, OnErr, OnOk};
ghost use Rattle.fab_face.specs.Acts.{Act};
ghost use Rattle.fab_face.specs.Held.{IsOpen};
ghost use Rattle.fab_laws.specs.Work.{work};
ghost use Rattle.fab_peer.specs.Turns.{IsCounted, IsStill, Turned, is_some_act, living_of};
ghost use Rattle.fab_finish.specs.Freight.{Lowers};
ghost use Rattle.fab_finish.specs.Joined.{IsJoined, GoesOn, IsStillAt, AreStill, actors, seen_plain, told_of};
ghost use Rattle.fab_finish.specs.Wanting.{Grows, Leaves};

use crate::carrying::{carry, either};
use fab_base::NoMemory;
use fab_ep::endpoint::Endpoint;
use fab_face::calls::Sees;
use fab_link::PlainPort;
use fab_peer::calls::Machinery;
use fab_peer::peer::Peer;

/// What became of a turn or a round: whether anything moved, and whether a step was taken.
#[derive(Clone, Copy, Drop)]
struct Went {
    moved: bool,
    stepped: bool,
}

fn is_more(a: usize, b: usize) -> bool
    ensures { result ≡ nat_lt b a }
{
    a > b
}

/// One peer's turn, and whether its schedule grew.
fn take_turn<C: Machinery + Drop>(peer: &mut Peer<Endpoint<PlainPort, C>>) -> Result<Went, NoMemory>
    requires log { peer.old.endpoint.log ≡ [] }
    requires counted { IsCounted (living_of (told_of peer.old)) }
    ensures open { IsOpen (seen_plain peer.old.endpoint) }
    ensures log { OnOk result (peer.new.endpoint.log ≡ []) }
    ensures counted { OnOk result (IsCounted (living_of (told_of peer.new))) }
    ensures turned { IfOk result (λ w. (acts : List Act) × Turned (told_of peer.old) (told_of peer.new) acts × (w.moved ≡ is_some_act acts)) }
    ensures stays { OnErr result ((told_of peer.new).schedule ≡ (told_of peer.old).schedule) }
    ensures stepped { IfOk result (λ w. w.stepped ≡ nat_lt (length (told_of peer.old).schedule) (length (told_of peer.new).schedule)) }
    ensures still { IfOk result (λ w. w.moved ≡ false → IsStill (told_of peer.old) (told_of peer.new)) }
{
    peer.endpoint.known();
    let before = peer.schedule().len();
    let moved = peer.quantum(0)?;
    let after = peer.schedule().len();
    Ok(Went {
        moved,
        stepped: is_more(after, before),
    })
}

/// One peer's turn. If nothing moved, it can do nothing.
fn turn<C: Machinery + Drop>(
    peers: &mut [Peer<Endpoint<PlainPort, C>>],
    number: usize,
) -> Result<Went, NoMemory>
    requires joined { IsJoined peers.old }
    requires below { number < length peers.old }
    ensures joined { OnOk result (IsJoined peers.new) }
    ensures on { OnOk result (GoesOn peers.old peers.new) }
    ensures others { (k : ℕ) → k ≢ number → slice_get peers.new k ≡ slice_get peers.old k }
    ensures still { IfOk result (λ w. w.moved ≡ false → IsStillAt peers.new number) }
    ensures lowers { IfOk result (λ w. Lowers w.stepped w.moved peers.old peers.new) }
    ensures grows { Grows peers.old peers.new }
    ensures leaves { OnErr result (Leaves peers.old peers.new) }
{
    take_turn(&mut peers[number])
}

/// Each peer's turn, and then what they posted is carried. If nothing moved, no peer can do anything.
fn round<C: Machinery + Drop>(peers: &mut [Peer<Endpoint<PlainPort, C>>]) -> Result<Went, NoMemory>
    requires joined { IsJoined peers.old }
    ensures joined { OnOk result (IsJoined peers.new) }
    ensures on { OnOk result (GoesOn peers.old peers.new) }
    ensures still { IfOk result (λ w. w.moved ≡ false → AreStill peers.new) }
    ensures lowers { IfOk result (λ w. Lowers w.stepped w.moved peers.old peers.new) }
    ensures grows { Grows peers.old peers.new }
    ensures leaves { OnErr result (Leaves peers.old peers.new) }
{
    let mut moved = false;
    let mut stepped = false;
    for number in 0..peers.len() {
        let went = turn(peers, number)?;
        moved = either(moved, went.moved);
        stepped = either(stepped, went.stepped);
    }
    let carried = carry(peers)?;
    let any = either(moved, carried);
    Ok(Went {
        moved: any,
        stepped,
    })
}

/// Rounds until one takes a step, or moves nothing. Whether a step was taken: if not, no peer can do anything.
///
/// Each round that goes on moves frames of items that are begun, and so leaves fewer to move.
fn go_on<C: Machinery + Drop>(peers: &mut [Peer<Endpoint<PlainPort, C>>]) -> Result<bool, NoMemory>
    requires joined { IsJoined peers.old }
    ensures joined { OnOk result (IsJoined peers.new) }
    ensures on { OnOk result (GoesOn peers.old peers.new) }
    ensures still { result ≡ Ok false → AreStill peers.new }
    ensures less { result ≡ Ok true → work (actors peers.new) < work (actors peers.old) }
    ensures grows { Grows peers.old peers.new }
    ensures leaves { OnErr result (Leaves peers.old peers.new) }
{
    'rounds: loop {
        let went = round(peers)?;
        if went.stepped {
            return Ok(true);
        }
        if !went.moved {
            return Ok(false);
        }
    }
}

/// Rounds until one moves nothing. Each step lowers what the peers have still to do, so this ends.
pub(crate) fn settle<C: Machinery + Drop>(
    peers: &mut [Peer<Endpoint<PlainPort, C>>],
) -> Result<(), NoMemory>
    requires joined { IsJoined peers.old }
    ensures joined { OnOk result (IsJoined peers.new) }
    ensures on { OnOk result (GoesOn peers.old peers.new) }
    ensures still { OnOk result (AreStill peers.new) }
    ensures grows { Grows peers.old peers.new }
    ensures leaves { OnErr result (Leaves peers.old peers.new) }
{
    'steps: while go_on(peers)? {}
    Ok(())
}
