//! What plain ports posted is carried to their receivers.
ghost use Rattle.std.specs.Prelude.{◌≡◌, ◌≢◌, ℕ, ◌+◌, ◌-◌, ◌^◌, ◌<◌, ◌≤◌, ◌⊎◌, length, min, [], true, false, Ok, IfOk, OnOk, OnErr};
ghost use Rattle.fab_link.specs.Plain.{left, incoming};
ghost use Rattle.fab_link.specs.Carry.{lane_of, pipe, left_count, AreAll, Continued, SameBeside};

use crate::plain::PlainPort;
use fab_base::NoMemory;
use std::alloc::Global;

/// Moves one frame that a port has left into the in list of its receiver, and says whether there
/// was one.
fn carry_one(alloc: Global, ports: &mut [PlainPort], from: u32, to: u32) -> Result<bool, NoMemory>
    requires all { AreAll ports.old }
    requires from { from < length ports.old }
    requires to { to < length ports.old }
    requires continued { Continued ports.old from to }
    ensures all { AreAll ports.new }
    ensures kept { (s r : ℕ) → pipe ports.new s r ≡ pipe ports.old s r }
    ensures same { (k d : ℕ) → SameBeside (lane_of ports.old k d) (lane_of ports.new k d) }
    ensures taken { (k d : ℕ) → (incoming (lane_of ports.new k d)).taken ≡ (incoming (lane_of ports.old k d)).taken }
    ensures others { (s r : ℕ) → (s ≢ from) ⊎ (r ≢ to)
        → (left (lane_of ports.new s r) ≡ left (lane_of ports.old s r))
        × ((lane_of ports.new r s).in_list ≡ (lane_of ports.old r s).in_list) }
    ensures continued { Continued ports.new from to }
    ensures none { result ≡ Ok false → left (lane_of ports.new from to) ≡ [] }
    ensures one { result ≡ Ok true → length (left (lane_of ports.new from to)) + 1
        ≡ length (left (lane_of ports.old from to)) }
    ensures unmoved { result ≡ Ok false → left_count ports.new ≡ left_count ports.old }
    ensures moved { result ≡ Ok true → left_count ports.new + 1 ≡ left_count ports.old }
{
    let Some(copy) = ports[from as usize].copy_of_first(alloc, to)? else {
        return Ok(false);
    };
    if let Err(_frame) = ports[to as usize].bring(from, copy) {
        return Err(NoMemory);
    }
    match ports[from as usize].take_out(to) {
        Some(_moved) => Ok(true),
        None => unreachable!(),
    }
}

/// Moves all frames that one port has left for another, and counts them.
fn carry_lane(alloc: Global, ports: &mut [PlainPort], from: u32, to: u32) -> Result<u64, NoMemory>
    requires all { AreAll ports.old }
    requires from { from < length ports.old }
    requires to { to < length ports.old }
    requires continued { Continued ports.old from to }
    ensures all { AreAll ports.new }
    ensures kept { (s r : ℕ) → pipe ports.new s r ≡ pipe ports.old s r }
    ensures same { (k d : ℕ) → SameBeside (lane_of ports.old k d) (lane_of ports.new k d) }
    ensures taken { (k d : ℕ) → (incoming (lane_of ports.new k d)).taken ≡ (incoming (lane_of ports.old k d)).taken }
    ensures others { (s r : ℕ) → (s ≢ from) ⊎ (r ≢ to)
        → (left (lane_of ports.new s r) ≡ left (lane_of ports.old s r))
        × ((lane_of ports.new r s).in_list ≡ (lane_of ports.old r s).in_list) }
    ensures continued { Continued ports.new from to }
    ensures none { OnOk result (left (lane_of ports.new from to) ≡ []) }
    ensures fewer { OnOk result (left_count ports.new ≤ left_count ports.old) }
    ensures moved { IfOk result (λ n. n ≡ min (left_count ports.old - left_count ports.new) (2 ^ 64 - 1)) }
{
    let mut moved: u64 = 0;
    'frames: loop {
        if !carry_one(alloc, ports, from, to)? {
            return Ok(moved);
        }
        moved = moved.saturating_add(1);
    }
}

/// Moves all frames that one port has left, and counts them.
fn carry_from(alloc: Global, ports: &mut [PlainPort], from: u32) -> Result<u64, NoMemory>
    requires all { AreAll ports.old }
    requires from { from < length ports.old }
    requires continued { (s r : ℕ) → s < length ports.old → r < length ports.old → Continued ports.old s r }
    ensures all { AreAll ports.new }
    ensures kept { (s r : ℕ) → pipe ports.new s r ≡ pipe ports.old s r }
    ensures same { (k d : ℕ) → SameBeside (lane_of ports.old k d) (lane_of ports.new k d) }
    ensures taken { (k d : ℕ) → (incoming (lane_of ports.new k d)).taken ≡ (incoming (lane_of ports.old k d)).taken }
    ensures others { (s r : ℕ) → s ≢ from → left (lane_of ports.new s r) ≡ left (lane_of ports.old s r) }
    ensures continued { (s r : ℕ) → s < length ports.new → r < length ports.new → Continued ports.new s r }
    ensures none { OnOk result ((r : ℕ) → r < length ports.new → left (lane_of ports.new from r) ≡ []) }
    ensures fewer { OnOk result (left_count ports.new ≤ left_count ports.old) }
    ensures moved { IfOk result (λ n. n ≡ min (left_count ports.old - left_count ports.new) (2 ^ 64 - 1)) }
{
    let peers = ports.len() as u32;
    let mut moved: u64 = 0;
    for to in 0..peers {
        let here = carry_lane(alloc, ports, from, to)?;
        moved = moved.saturating_add(here);
    }
    Ok(moved)
}

/// Moves all frames that plain ports have left into the in lists of their receivers, and answers how
/// many it moved: all that were left, or `u64::MAX` where there were more.
///
/// These are the ports of all peers, in order. For each pair the receiver's in list, followed by
/// what the sender has left for it, stays the same, and so does what was taken, also after want of
/// memory; then the call may be made again.
pub fn carry(alloc: Global, ports: &mut [PlainPort]) -> Result<u64, NoMemory>
    requires all { AreAll ports.old }
    requires continued { (s r : ℕ) → s < length ports.old → r < length ports.old → Continued ports.old s r }
    ensures all { AreAll ports.new }
    ensures kept { (s r : ℕ) → pipe ports.new s r ≡ pipe ports.old s r }
    ensures same { (k d : ℕ) → SameBeside (lane_of ports.old k d) (lane_of ports.new k d) }
    ensures taken { (k d : ℕ) → (incoming (lane_of ports.new k d)).taken ≡ (incoming (lane_of ports.old k d)).taken }
    ensures continued { (s r : ℕ) → s < length ports.new → r < length ports.new → Continued ports.new s r }
    ensures none { OnOk result ((s r : ℕ) → s < length ports.new → r < length ports.new
        → left (lane_of ports.new s r) ≡ []) }
    ensures moved { IfOk result (λ n. n ≡ min (left_count ports.old) (2 ^ 64 - 1)) }
{
    let peers = ports.len() as u32;
    let mut moved: u64 = 0;
    for from in 0..peers {
        let here = carry_from(alloc, ports, from)?;
        moved = moved.saturating_add(here);
    }
    Ok(moved)
}
