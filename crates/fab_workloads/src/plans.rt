//! The script that does the rounds.
ghost use Rattle.std.specs.Prelude.{◌≡◌, ◌≤◌, ◌+◌, ◌++◌, [], ℕ, length, map, slice_index_or, IfOk, OnOk};
ghost use Rattle.fab_model.specs.Calls.{upto};
ghost use Rattle.fab_workloads.specs.declared.round.Round.{Round};
ghost use Rattle.fab_workloads.specs.Plan.{lines_with, plan_of, plan_ops, receive_of, receivers, round_ops, rounds_ops, send_to, senders, wait_of};
ghost use Rattle.fab_fold.specs.declared.coll.TheConstants.{MOST_SHARE};
ghost use Rattle.fab_fold.specs.Shares.{needs};
ghost use Rattle.fab_workloads.specs.Rounds.{AreWithin, share_of};

use crate::round::{CollScript, Round};
use crate::{all_numbered, conf_of, receive, send, wait};
use fab_base::{Bound, LineOp, List, NoMemory, Script};
use fab_fold::Coll;
use std::alloc::Global;

/// Whether rank t needs the share of rank s.
fn needs(coll: Coll, t: u32, s: u32) -> bool
    ensures { result ≡ needs coll t s }
{
    if t == s {
        return false;
    }
    match coll {
        Coll::Broadcast { root } => s == root,
        Coll::Barrier | Coll::Allgather | Coll::Allreduce { .. } => true,
    }
}

/// The share of this number, or no bytes.
fn share_at(round: &Round, at: usize) -> &[u8]
    ensures { result.now ≡ slice_index_or round.now.shares at [] }
{
    match round.shares.as_slice().get(at) {
        Some(share) => share.as_slice(),
        None => &[],
    }
}

/// The share of rank s, or no bytes.
pub fn share_of(round: &Round, s: u32) -> &[u8]
    ensures { result.now ≡ share_of round.now s }
{
    match round.coll {
        Coll::Broadcast { root } => if s == root { share_at(round, 0) } else { &[] },
        Coll::Barrier | Coll::Allgather | Coll::Allreduce { .. } => share_at(round, s as usize),
    }
}

/// The sends of rank r in round i.
fn add_sends(
    alloc: Global,
    ops: &mut Vec<LineOp>,
    peers: u32,
    i: u64,
    r: u32,
    round: &Round,
) -> Result<(), NoMemory>
    requires few { i ≤ 100 }
    requires most { peers ≤ 32 }
    ensures { OnOk result (ops.new.items ≡ ops.old.items ++ map (send_to i (share_of round.now r)) (receivers peers round.now.coll r)) }
{
    for t in 0..peers {
        if needs(round.coll, t, r) {
            ops.push(send(alloc, 128 * i + u64::from(t), t, i, share_of(round, r))?)?;
        }
    }
    Ok(())
}

/// The receives of rank r in round i.
fn add_receives(
    ops: &mut Vec<LineOp>,
    peers: u32,
    i: u64,
    r: u32,
    round: &Round,
) -> Result<(), NoMemory>
    requires few { i ≤ 100 }
    requires most { peers ≤ 32 }
    requires short { (s : ℕ) → length (share_of round.now s) ≤ MOST_SHARE }
    ensures { OnOk result (ops.new.items ≡ ops.old.items ++ map (receive_of i round.now) (senders peers round.now.coll r)) }
{
    for s in 0..peers {
        if needs(round.coll, r, s) {
            let len = share_of(round, s).len() as u32;
            ops.push(receive(128 * i + 64 + u64::from(s), s, i, len))?;
        }
    }
    Ok(())
}

/// The waits for them.
fn add_waits(ops: &mut Vec<LineOp>, peers: u32, i: u64, r: u32, coll: Coll) -> Result<(), NoMemory>
    requires few { i ≤ 100 }
    requires most { peers ≤ 32 }
    ensures { OnOk result (ops.new.items ≡ ops.old.items ++ map (wait_of i) (senders peers coll r)) }
{
    for s in 0..peers {
        if needs(coll, r, s) {
            ops.push(wait(128 * i + 64 + u64::from(s)))?;
        }
    }
    Ok(())
}

/// The lines of rank r in round i.
fn add_round(
    alloc: Global,
    ops: &mut Vec<LineOp>,
    peers: u32,
    i: u64,
    r: u32,
    round: &Round,
) -> Result<(), NoMemory>
    requires few { i ≤ 100 }
    requires most { peers ≤ 32 }
    requires short { (s : ℕ) → length (share_of round.now s) ≤ MOST_SHARE }
    ensures { OnOk result (ops.new.items ≡ ops.old.items ++ round_ops peers i r round.now) }
{
    add_sends(alloc, ops, peers, i, r, round)?;
    add_receives(ops, peers, i, r, round)?;
    add_waits(ops, peers, i, r, round.coll)?;
    Ok(())
}

/// How many lines of rank r in a round have to do with rank s: a send to it, and a receive and a wait for its share.
fn lines_with(coll: Coll, r: u32, s: u32) -> usize
    ensures value { result ≡ lines_with coll r s }
    ensures few { result ≤ 3 }
{
    let sends = if needs(coll, s, r) { 1 } else { 0 };
    let receives = if needs(coll, r, s) { 2 } else { 0 };
    sends + receives
}

/// How many lines rank r has in a round.
pub fn lines_in(peers: u32, r: u32, coll: Coll) -> usize
    requires { peers ≤ 32 }
    ensures value { (i : ℕ) (round : Round) → round.coll ≡ coll → length (round_ops peers i r round) ≡ result }
    ensures few { result ≤ 96 }
{
    let mut lines = 0;
    for s in 0..peers {
        lines += lines_with(coll, r, s);
    }
    lines
}

/// The lines of rank r.
fn rank_ops(alloc: Global, peers: u32, r: u32, rounds: &[Round]) -> Result<Vec<LineOp>, NoMemory>
    requires { AreWithin peers rounds.now }
    ensures { IfOk result (λ ops. ops.items ≡ rounds_ops peers 1 r rounds.now) }
{
    let mut ops = Vec::new(alloc);
    let mut i: u64 = 0;
    for round in rounds {
        i += 1;
        add_round(alloc, &mut ops, peers, i, r, round)?;
    }
    Ok(ops)
}

/// The lines of all ranks.
fn all_ops(alloc: Global, peers: u32, rounds: &[Round]) -> Result<Vec<Vec<LineOp>>, NoMemory>
    requires { AreWithin peers rounds.now }
    ensures { IfOk result (λ lists. map (λ ops. ops.items) lists.items ≡ plan_ops peers rounds.now) }
{
    let mut lists = Vec::new(alloc);
    for r in 0..peers {
        lists.push(rank_ops(alloc, peers, r, rounds)?)?;
    }
    Ok(lists)
}

/// The script that does these rounds by tagged messages: in each round a rank sends its share to every rank that needs
/// it, posts the receives of the shares that it needs, and waits for them.
#[tactic(auto, unfolding(crate::specs::Plan::plan_of))]
pub fn plan(alloc: Global, script: &CollScript) -> Result<Bound, NoMemory>
    requires { AreWithin script.now.peers script.now.rounds }
    ensures value { IfOk result (λ bound. bound ≡ plan_of script.now.peers script.now.rounds) }
    ensures sized { IfOk result (λ bound. (2 ≤ bound.script.conf.info.cq) × (4 ≤ bound.script.conf.info.log)) }
{
    let lists = all_ops(alloc, script.peers, script.rounds.as_slice())?;
    let peers = all_numbered(alloc, lists)?;
    Ok(Bound {
        script: Script {
            version: 1,
            conf: conf_of(script.peers),
            payloads: List::empty(alloc),
            peers,
        },
        files: List::empty(alloc),
    })
}
