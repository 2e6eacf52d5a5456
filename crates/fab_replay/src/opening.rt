//! All peers as they start.
ghost use Rattle.std.specs.Prelude.{◌≡◌, [], None, Some, map, replicate, length, IfOk};
ghost use Rattle.fab_model.specs.Calls.{upto};
ghost use Rattle.fab_model.specs.Replay.{fresh, newly, lines_of, start};
ghost use Rattle.fab_checker_halves.specs.Seen.{rx_of, tx_of};
ghost use Rattle.fab_checker_machine.specs.Seen.{state_of};
ghost use Rattle.fab_replay.specs.Seen.{actor_of, moment_of, steps_of};

use crate::actor::Actor;
use crate::turns::Peer;
use fab_base::{Bound, Coming, Conf, List, NoMemory, Step, Tally};
use fab_checker_halves::{Receiving, Transmitting};
use fab_checker_machine::state::{Completions, State};
use fab_kept::KeptList;
use std::alloc::Global;

/// Nothing is coming from any of so many peers.
fn nothing_coming(alloc: Global, peers: u32) -> Result<Vec<Option<Coming>>, NoMemory>
    ensures { IfOk result (λ coming. coming.items ≡ replicate peers None) }
{
    let mut coming = Vec::new(alloc);
    for peer in 0..peers {
        coming.push(None)?;
    }
    Ok(coming)
}

/// An empty list for each of so many peers.
fn empty_lists<T: Drop>(alloc: Global, peers: u32) -> Result<Vec<List<T>>, NoMemory>
    ensures { IfOk result (λ lists. lists.items ≡ replicate peers []) }
{
    let mut lists = Vec::new(alloc);
    for peer in 0..peers {
        lists.push(List::empty(alloc))?;
    }
    Ok(lists)
}

/// A 0 for each of so many peers.
fn zeros(alloc: Global, peers: u32) -> Result<Vec<u64>, NoMemory>
    ensures { IfOk result (λ numbers. numbers.items ≡ replicate peers 0) }
{
    let numbers = vec![in alloc; 0; peers as usize]?;
    Ok(numbers)
}

/// An address vector in which each peer has its own number.
fn everyone(alloc: Global, peers: u32) -> Result<Vec<Option<u32>>, NoMemory>
    ensures { IfOk result (λ av. av.items ≡ map Some (upto peers)) }
{
    let mut av = Vec::new(alloc);
    for peer in 0..peers {
        av.push(Some(peer))?;
    }
    Ok(av)
}

fn fresh_receiving(alloc: Global, peers: u32) -> Result<Receiving, NoMemory>
    ensures { IfOk result (λ rx. rx_of rx ≡ record { posted = []; closing = []; coming = replicate peers None; unexpected = []; claimed = []; heads = replicate peers 0; tails = replicate peers 0 }) }
{
    let coming = nothing_coming(alloc, peers)?;
    let heads = zeros(alloc, peers)?;
    let tails = zeros(alloc, peers)?;
    Ok(Receiving {
        posted: Vec::new(alloc),
        closing: Vec::new(alloc),
        coming,
        unexpected: Vec::new(alloc),
        claimed: Vec::new(alloc),
        heads,
        tails,
    })
}

fn fresh_transmitting(alloc: Global, peers: u32) -> Result<Transmitting, NoMemory>
    ensures { IfOk result (λ tx. tx_of tx ≡ record { accepted = replicate peers []; sent = replicate peers 0; live = []; held = replicate peers []; ops = 0 }) }
{
    let accepted = empty_lists(alloc, peers)?;
    let sent = zeros(alloc, peers)?;
    let held = empty_lists(alloc, peers)?;
    Ok(Transmitting {
        accepted,
        sent,
        live: Vec::new(alloc),
        held,
        ops: 0,
    })
}

/// A machine at the start.
fn fresh(alloc: Global, conf: &Conf) -> Result<State, NoMemory>
    ensures { IfOk result (λ state. state_of state ≡ fresh conf.now) }
{
    let av = everyone(alloc, conf.peers)?;
    let rx = fresh_receiving(alloc, conf.peers)?;
    let tx = fresh_transmitting(alloc, conf.peers)?;
    Ok(State {
        caps: conf.info.caps,
        selective: conf.selective,
        most_tx: conf.info.tx,
        most_rx: conf.info.rx,
        most_message: conf.info.message,
        av,
        regions: Vec::new(alloc),
        rx,
        tx,
        cq: Completions {
            written: Vec::new(alloc),
            taken_out: 0,
            size: conf.info.cq,
        },
        counters: [Tally { ok: 0, err: 0 }; 6],
        calls: 0,
        alloc,
    })
}

/// A peer at the start, with the steps that it is to take.
fn newly(alloc: Global, bound: &Bound, number: u32, steps: &List<Step>) -> Result<Peer, NoMemory>
    ensures actor { IfOk result (λ peer. actor_of bound.now peer.actor ≡ newly bound.now.script.conf (lines_of bound.now number)) }
    ensures steps { IfOk result (λ peer. peer.steps ≡ steps.now) }
    ensures taken { IfOk result (λ peer. peer.taken ≡ 0) }
{
    let steps = Vec::from_slice(alloc, steps.as_slice())?;
    let state = fresh(alloc, &bound.script.conf)?;
    Ok(Peer {
        actor: Actor {
            number,
            state,
            results: Vec::new(alloc),
            kept: KeptList::new(alloc),
        },
        steps: List::from_vec(steps),
        taken: 0,
    })
}

/// All peers of the script at the start, with the steps that each is to take.
pub fn open(alloc: Global, bound: &Bound, schedule: &[List<Step>]) -> Result<Vec<Peer>, NoMemory>
    requires { length schedule.now ≡ bound.now.script.conf.peers }
    ensures start { IfOk result (λ peers. moment_of bound.now peers.items ≡ start bound.now schedule.now) }
    ensures steps { IfOk result (λ peers. steps_of peers.items ≡ schedule.now) }
{
    let mut peers = Vec::new(alloc);
    for number in 0..bound.script.conf.peers {
        let peer = newly(alloc, bound, number, &schedule[number as usize])?;
        peers.push(peer)?;
    }
    Ok(peers)
}
