//! What messages bring and tell, and what is made of the shares.
ghost use Rattle.std.specs.Prelude.{◌≡◌, ◌≢◌, ◌⊎◌, ◌<◌, ◌+◌, ◌-◌, ◌*◌, ◌++◌, ◌∷◌, ◌==◌, if◌then◌else◌, false, IsTrue, Err, IfErr, IfOk, OnOk, length, map, take, drop, slice_index_or, []};
ghost use Rattle.std.specs.List.{concat, range_with_len};
ghost use Rattle.fab_base.specs.declared.faults.Fault.TheVariants.{MsgSize, NoMemory as LacksMemory};
ghost use Rattle.fab_fold.specs.Shares.{AreReceived, outcome_of};
ghost use Rattle.fab_topology.specs.Laws.{Tiles};
ghost use Rattle.fab_topology.specs.Rounds.{distance, width};
ghost use Rattle.fab_collectives.specs.Routes.{each_of, joined_of, message_of, others_of, rounds_in, share_of, told_of, topology_of};
ghost use Rattle.fab_collectives.specs.Lengths.{AreMessages, AreWhole};

use crate::collective::Work;
use crate::routes::{bytes_in, rounds_in, topology};
use fab_base::{Buf, Fault, NoMemory};
use fab_fold::{Coll, is_reducing, outcome};
use fab_topology::{behind, distance, waits_for, width};
use std::alloc::Global;

/// The bytes, and those of all these messages.
fn joined_with(alloc: Global, first: &[u8], received: &[Buf]) -> Result<Buf, NoMemory>
    ensures { IfOk result (λ bytes. bytes ≡ first.now ++ concat received.now) }
{
    let mut bytes = Vec::from_slice(alloc, first)?;
    for message in received {
        bytes.extend_from_slice(message.as_slice())?;
    }
    Ok(Buf::from_vec(bytes))
}

/// The own share and those that were heard, of the ranks from this one on; of a broadcast the root's.
fn joined(alloc: Global, work: Work, own: &[u8], received: &[Buf]) -> Result<Buf, NoMemory>
    ensures { IfOk result (λ bytes. bytes ≡ joined_of work own.now received.now) }
{
    match work.coll {
        Coll::Broadcast { root } => if work.rank == root {
            Buf::copy(alloc, own)
        } else {
            joined_with(alloc, &[], received)
        },
        Coll::Barrier | Coll::Allgather | Coll::Allreduce { .. } => joined_with(
            alloc, own, received,
        ),
    }
}

/// Appends so many first shares of the message of this round, if it came.
fn append_first(
    bytes: &mut Vec<u8>,
    received: &[Buf],
    round: u32,
    shares: u32,
    len: usize,
) -> Result<(), NoMemory>
    ensures { OnOk result (bytes.new.items ≡ bytes.old.items ++ take (shares * len) (slice_index_or received.now round [])) }
{
    let at = round as usize;
    if at < received.len() {
        let message = received[at].as_slice();
        let upto = (shares as usize).saturating_mul(len).min(message.len());
        bytes.extend_from_slice(&message[..upto])?;
    }
    Ok(())
}

/// The own share, and of the messages that it waits for the shares that are fewer steps ahead than the width of this round.
fn told(
    alloc: Global,
    work: Work,
    own: &[u8],
    received: &[Buf],
    round: u32,
) -> Result<Buf, NoMemory>
    requires { round < rounds_in work (length own.now) }
    ensures { IfOk result (λ bytes. bytes ≡ told_of work own.now received.now round) }
{
    let topology = topology(work, own.len());
    let width = width(topology, work.peers, round);
    let mut bytes = Vec::from_slice(alloc, own)?;
    for k in 0..waits_for(topology, round) {
        let ahead = width.saturating_sub(distance(topology, work.peers, k));
        append_first(&mut bytes, received, k, ahead, own.len())?;
    }
    Ok(Buf::from_vec(bytes))
}

/// What the rank tells in this round.
pub(crate) fn message(
    alloc: Global,
    work: Work,
    own: &[u8],
    received: &[Buf],
    round: u32,
) -> Result<Buf, NoMemory>
    requires { round < rounds_in work (length own.now) }
    ensures { IfOk result (λ bytes. bytes ≡ message_of work own.now received.now round) }
{
    match work.coll {
        Coll::Broadcast { .. } => joined(alloc, work, own, received),
        Coll::Barrier | Coll::Allgather | Coll::Allreduce { .. } => told(
            alloc, work, own, received, round,
        ),
    }
}

/// The share of rank s.
fn share_of(alloc: Global, work: Work, len: usize, joined: &[u8], s: u32) -> Result<Buf, NoMemory>
    ensures { IfOk result (λ share. share ≡ share_of work len joined.now s) }
{
    let steps = behind(work.peers, s, work.rank) as usize;
    let from = steps.saturating_mul(len).min(joined.len());
    let rest = &joined[from..];
    let upto = len.min(rest.len());
    Buf::copy(alloc, &rest[..upto])
}

/// Appends the shares of the ranks from one on, below another.
fn append_shares(
    all: &mut Vec<Buf>,
    alloc: Global,
    work: Work,
    len: usize,
    joined: &[u8],
    from: u32,
    to: u32,
) -> Result<(), NoMemory>
    ensures { OnOk result (all.new.items ≡ all.old.items ++ map (λ s. share_of work len joined.now s) (range_with_len from (to - from))) }
{
    for s in from..to {
        all.push(share_of(alloc, work, len, joined, s)?)?;
    }
    Ok(())
}

/// Appends the shares of the ranks behind this one.
fn append_behind(
    all: &mut Vec<Buf>,
    alloc: Global,
    work: Work,
    len: usize,
    joined: &[u8],
) -> Result<(), NoMemory>
    ensures { OnOk result (all.new.items ≡ all.old.items ++ map (λ s. share_of work len joined.now s) (range_with_len (work.rank + 1) (work.peers - (work.rank + 1)))) }
{
    if work.rank < work.peers {
        return append_shares(all, alloc, work, len, joined, work.rank + 1, work.peers);
    }
    Ok(())
}

/// The shares of each other rank, in order.
fn each_share(alloc: Global, work: Work, own: &[u8], received: &[Buf]) -> Result<Vec<Buf>, NoMemory>
    ensures { IfOk result (λ all. all.items ≡ each_of work own.now received.now) }
{
    let joined = joined(alloc, work, own, received)?;
    let bytes = joined.as_slice();
    let mut all = Vec::new(alloc);
    append_shares(&mut all, alloc, work, own.len(), bytes, 0, work.rank)?;
    append_behind(&mut all, alloc, work, own.len(), bytes)?;
    Ok(all)
}

/// The root's share, but at the root.
fn root_share(
    alloc: Global,
    work: Work,
    root: u32,
    own: &[u8],
    received: &[Buf],
) -> Result<Vec<Buf>, NoMemory>
    ensures { IfOk result (λ all. all.items ≡ (if work.rank == root then [] else joined_of work own.now received.now ∷ [])) }
{
    let mut all = Vec::new(alloc);
    if work.rank == root {
        return Ok(all);
    }
    all.push(joined(alloc, work, own, received)?)?;
    Ok(all)
}

/// The shares of the others, in order of ranks; of a broadcast the root's.
fn others(alloc: Global, work: Work, own: &[u8], received: &[Buf]) -> Result<Vec<Buf>, NoMemory>
    ensures { IfOk result (λ all. all.items ≡ others_of work own.now received.now) }
{
    match work.coll {
        Coll::Broadcast { root } => root_share(alloc, work, root, own, received),
        Coll::Barrier | Coll::Allgather | Coll::Allreduce { .. } => each_share(
            alloc, work, own, received,
        ),
    }
}

/// Whether there is a message of each round, as long as the shares that it brings.
fn are_all(work: Work, len: usize, rounds: u32, received: &[Buf]) -> bool
    requires { rounds ≡ rounds_in work len }
    ensures yes { IsTrue result → AreMessages work len received.now }
    ensures no { result ≡ false → AreMessages work len received.now → ⊥ }
{
    if received.len() != rounds as usize {
        return false;
    }
    for k in 0..rounds {
        if received[k as usize].as_slice().len() != bytes_in(work, len, k) {
            return false;
        }
    }
    true
}

/// Whether the lengths of these messages belong together.
fn are_whole(work: Work, own: &[u8], received: &[Buf]) -> bool
    ensures yes { IsTrue result → AreWhole work own.now received.now }
    ensures no { result ≡ false → AreWhole work own.now received.now → ⊥ }
    ensures tiles { Tiles (rounds_in work (length own.now)) (λ k. distance (topology_of work (length own.now)) k) (λ k. width (topology_of work (length own.now)) work.peers k) work.peers }
{
    let rounds = rounds_in(work, own.len());
    match work.coll {
        Coll::Barrier | Coll::Broadcast { .. } => true,
        Coll::Allgather => work.rank < work.peers && are_all(work, own.len(), rounds, received),
        Coll::Allreduce { op, num } => {
            is_reducing(op)
                && own.len() % num.element_size() == 0
                && work.rank < work.peers
                && are_all(work, own.len(), rounds, received)
        }
    }
}

/// What a rank makes of its own share and of the messages that it received. `MsgSize` where their lengths don't belong together.
pub(crate) fn made(alloc: Global, work: Work, own: &[u8], received: &[Buf]) -> Result<Buf, Fault>
    ensures made { IfOk result (λ bytes. bytes ≡ outcome_of work.coll work.rank own.now (others_of work own.now received.now)) }
    ensures alike { OnOk result (AreReceived work.coll work.rank own.now (others_of work own.now received.now)) }
    ensures whole { OnOk result (AreWhole work own.now received.now) }
    ensures size { (AreWhole work own.now received.now → ⊥) → result ≡ Err MsgSize }
    ensures why { IfErr result (λ why. (why ≡ LacksMemory) ⊎ ((why ≡ MsgSize) × (AreWhole work own.now received.now → ⊥))) }
{
    if !are_whole(work, own, received) {
        return Err(Fault::MsgSize);
    }
    let others = others(alloc, work, own, received)?;
    match outcome(alloc, work.coll, work.rank, own, others.as_slice()) {
        Ok(bytes) => Ok(bytes),
        Err(_) => Err(Fault::NoMemory),
    }
}
