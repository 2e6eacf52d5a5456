//! What plain ports posted is carried to their receivers.
ghost use Rattle.std.specs.Prelude.{◌≡◌, ◌≢◌, ℕ, ◌+◌, ◌<◌, ◌≤◌, ◌⊎◌, ◌||◌, [], length, true, false, Ok, OnOk, IfOk};
ghost use Rattle.fab_link.specs.Plain.{left};
ghost use Rattle.fab_finish.specs.Freight.{freight, one_if};
ghost use Rattle.fab_finish.specs.Joined.{lane, IsJoined, actors, schedules};

use fab_base::NoMemory;
use fab_ep::endpoint::Endpoint;
use fab_link::PlainPort;
use fab_peer::calls::Machinery;
use fab_peer::peer::Peer;

pub(crate) fn either(a: bool, b: bool) -> bool
    ensures yes { result ≡ true → (a ≡ true) ⊎ (b ≡ true) }
    ensures no { result ≡ false → (a ≡ false) × (b ≡ false) }
    ensures is { result ≡ (a || b) }
{
    a || b
}

/// Moves one frame that a peer has left into the in list of its receiver, and says whether there was one.
/// After want of memory that frame is lost.
fn carry_one<C: Machinery + Drop>(
    peers: &mut [Peer<Endpoint<PlainPort, C>>],
    from: u32,
    to: u32,
) -> Result<bool, NoMemory>
    requires joined { IsJoined peers.old }
    requires from { from < length peers.old }
    requires to { to < length peers.old }
    ensures joined { OnOk result (IsJoined peers.new) }
    ensures actors { OnOk result (actors peers.new ≡ actors peers.old) }
    ensures schedules { schedules peers.new ≡ schedules peers.old }
    ensures others { OnOk result ((s r : ℕ) → (s ≢ from) ⊎ (r ≢ to) → left (lane peers.new s r) ≡ left (lane peers.old s r)) }
    ensures one { result ≡ Ok true → length (left (lane peers.new from to)) + 1 ≡ length (left (lane peers.old from to)) }
    ensures none { result ≡ Ok false → left (lane peers.new from to) ≡ [] }
    ensures same { result ≡ Ok false → peers.new ≡ peers.old }
    ensures less { IfOk result (λ moved. freight peers.new + one_if moved ≤ freight peers.old) }
{
    let Some(frame) = peers[from as usize].endpoint.take_out(to) else {
        return Ok(false);
    };
    match peers[to as usize].endpoint.bring(from, frame) {
        Ok(()) => Ok(true),
        Err(_frame) => Err(NoMemory),
    }
}

/// Moves all frames that one peer has left for another. Whether there was one.
fn carry_lane<C: Machinery + Drop>(
    peers: &mut [Peer<Endpoint<PlainPort, C>>],
    from: u32,
    to: u32,
) -> Result<bool, NoMemory>
    requires joined { IsJoined peers.old }
    requires from { from < length peers.old }
    requires to { to < length peers.old }
    ensures joined { OnOk result (IsJoined peers.new) }
    ensures actors { OnOk result (actors peers.new ≡ actors peers.old) }
    ensures schedules { schedules peers.new ≡ schedules peers.old }
    ensures others { OnOk result ((s r : ℕ) → (s ≢ from) ⊎ (r ≢ to) → left (lane peers.new s r) ≡ left (lane peers.old s r)) }
    ensures none { OnOk result (left (lane peers.new from to) ≡ []) }
    ensures same { result ≡ Ok false → peers.new ≡ peers.old }
    ensures less { IfOk result (λ moved. freight peers.new + one_if moved ≤ freight peers.old) }
{
    let mut moved = false;
    'frames: while carry_one(peers, from, to)? {
        moved = true;
    }
    Ok(moved)
}

/// Moves all frames that one peer has left. Whether there was one.
fn carry_from<C: Machinery + Drop>(
    peers: &mut [Peer<Endpoint<PlainPort, C>>],
    from: u32,
) -> Result<bool, NoMemory>
    requires joined { IsJoined peers.old }
    requires from { from < length peers.old }
    ensures joined { OnOk result (IsJoined peers.new) }
    ensures actors { OnOk result (actors peers.new ≡ actors peers.old) }
    ensures schedules { schedules peers.new ≡ schedules peers.old }
    ensures others { OnOk result ((s r : ℕ) → s ≢ from → left (lane peers.new s r) ≡ left (lane peers.old s r)) }
    ensures none { OnOk result ((r : ℕ) → r < length peers.new → left (lane peers.new from r) ≡ []) }
    ensures same { result ≡ Ok false → peers.new ≡ peers.old }
    ensures less { IfOk result (λ moved. freight peers.new + one_if moved ≤ freight peers.old) }
{
    let count = peers.len() as u32;
    let mut moved = false;
    for to in 0..count {
        let here = carry_lane(peers, from, to)?;
        moved = either(moved, here);
    }
    Ok(moved)
}

/// Moves all frames that any peer has left. Whether there was one.
pub(crate) fn carry<C: Machinery + Drop>(
    peers: &mut [Peer<Endpoint<PlainPort, C>>],
) -> Result<bool, NoMemory>
    requires joined { IsJoined peers.old }
    ensures joined { OnOk result (IsJoined peers.new) }
    ensures actors { OnOk result (actors peers.new ≡ actors peers.old) }
    ensures schedules { schedules peers.new ≡ schedules peers.old }
    ensures none { OnOk result ((s r : ℕ) → s < length peers.new → r < length peers.new → left (lane peers.new s r) ≡ []) }
    ensures same { result ≡ Ok false → peers.new ≡ peers.old }
    ensures less { IfOk result (λ moved. freight peers.new + one_if moved ≤ freight peers.old) }
{
    let count = peers.len() as u32;
    let mut moved = false;
    for from in 0..count {
        let here = carry_from(peers, from)?;
        moved = either(moved, here);
    }
    Ok(moved)
}
