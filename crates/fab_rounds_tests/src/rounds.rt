//! Rounds over queues: what they report, and that turns are made side by side. (Of rounds over lanes rows of `run_examples`
//! show the same.)
//!
//! What is tested is written over any port and machine.
ghost use Rattle.std.specs.Prelude.{◌≡◌, ◌<◌, ◌^◌, length};
ghost use Rattle.std.specs.List.{All};
ghost use Rattle.fab_finish.specs.Joined.{start as start_of};
ghost use Rattle.fab_rounds_tests.specs.Opening.{IsSized, Begins};

use crate::opening::{bound_of, open};
use crate::ports::queues;
use fab_base::{Bound, Gate, NoMemory};
use fab_command_runs::machines;
use fab_link::Port;
use fab_peer::calls::{LineCalls, Machinery};
use fab_peer::peer::Peer;
use fab_report::{add_first, add_last, add_peer};
use fab_rounds::rounds::{RoundStop, Rounds, run_rounds};
use fab_rounds::runner::Runner;
use fab_test_helpers::{Meeting, OpenGate};
use std::alloc::Global;
use std::sync::Wait;
use std::sync::atomic::Ordering;
use std::test::Fail;
use std::thread::Threads;

/// A script, how rounds of its peers are to end, and what is reported of the peers then.
#[derive(Drop)]
struct Row {
    script: &'static str,
    stop: RoundStop,
    report: &'static str,
}

/// A message of three frames over a lane of one, and one back. Both are told of when they are matched, by replies.
const TALK: Row = Row {
    script: "fabric 1\n\
        peers 2\n\
        lane 1\n\
        pool 1\n\
        peer 0\n\
        trecv 1 1 7 0 8\n\
        wait 1\n\
        tsend 2 1 8 text:yes level=match\n\
        wait 2\n\
        peer 1\n\
        trecv 3 0 8 0 4\n\
        tsend 4 0 7 zero:9000 level=match\n\
        wait 4\n\
        wait 3\n",
    stop: RoundStop::Finished,
    report: "fabric 1 peers 2\n\
        peer 0\n\
        6 trecv ok\n\
        7 wait 1 error FI_ETRUNC from 1 tag 7 len 8 olen 8992 bytes 0000000000000000\n\
        8 tsend ok\n\
        9 wait 2 FI_TAGGED FI_SEND\n\
        trace\n\
        peer 1\n\
        11 trecv ok\n\
        12 tsend ok\n\
        13 wait 4 FI_TAGGED FI_SEND\n\
        14 wait 3 FI_TAGGED FI_RECV from 0 tag 8 len 3 bytes 796573\n\
        trace\n\
        end done\n",
};

const NO_LINES: Row = Row {
    script: "fabric 1\n\
        peers 2\n",
    stop: RoundStop::Still,
    report: "fabric 1 peers 2\n\
        peer 0\n\
        trace\n\
        peer 1\n\
        trace\n\
        end done\n",
};

/// How many rounds are made at most.
const LIMIT: u32 = 1_000;

/// Adds what a peer's lines did. Its steps are left out: they tell when a frame was seen.
fn add<E: LineCalls>(text: &mut String, number: usize, peer: &Peer<E>) -> Result<(), NoMemory> {
    let awaiting = u64::from(peer.awaiting());
    let deferred = u64::from(peer.deferred());
    let (lines, results) = (peer.lines(), peer.results());
    add_peer(
        text,
        number,
        lines,
        results,
        peer.kept(),
        awaiting,
        deferred,
        &[],
    )
}

/// What is reported of all peers.
fn report<P: Port, C: Machinery>(
    alloc: Global,
    runners: &[Runner<P, C>],
) -> Result<String, NoMemory> {
    let mut text = String::new(alloc);
    add_first(&mut text, 1, runners.len())?;
    for number in 0..runners.len() {
        add(&mut text, number, runners[number].peer())?;
    }
    add_last(&mut text, runners.iter().all(|runner| runner.finished()))?;
    Ok(text)
}

/// Whether these rounds ended so, and threads that stay made some of them: memory for the meeting place is there, and threads are.
fn ended_in_threads(rounds: Rounds, stop: RoundStop) -> bool {
    rounds.stop == stop && rounds.stayed > 0
}

/// What rounds of these peers are made.
fn rounds_of<P: Port + Send, C: Machinery + Drop + Send, G: Gate, R: Threads + Wait + Sync>(
    rt: &R,
    alloc: Global,
    runners: &mut [Runner<P, C>],
    gate: &G,
) -> Result<Rounds, NoMemory>
    requires { length runners.old < 2 ^ 32 }
{
    run_rounds(rt, alloc, runners, gate, LIMIT)
}

/// Whether rounds of a script's peers over these machines and ports end as they should, and are reported so.
fn run<P: Port + Drop + Send, C: Machinery + Drop + Send, G: Gate, R: Threads + Wait + Sync>(
    rt: &R,
    alloc: Global,
    bound: &Bound,
    machines: Vec<C>,
    ports: Vec<P>,
    gate: &G,
    row: &Row,
) -> Result<bool, NoMemory>
    requires sized { IsSized bound.now.script.conf }
    requires machines { length machines.items ≡ bound.now.script.conf.peers }
    requires start { All (λ m. C.held m ≡ start_of bound.now.script.conf) machines.items }
    requires ports { length ports.items ≡ bound.now.script.conf.peers }
    requires begin { All (λ p. Begins bound.now.script.conf.peers (P.peer_count p) (P.outs p) (P.ins p)) ports.items }
{
    let mut runners = open(alloc, bound, machines, ports)?;
    let rounds = rounds_of(rt, alloc, runners.as_mut_slice(), gate)?;
    let report = report(alloc, runners.as_slice())?;
    Ok(ended_in_threads(rounds, row.stop) && report.as_str() == row.report)
}

/// The same over queues.
fn run_over_queues<G: Gate, R: Threads + Wait + Sync + Copy + Send>(
    rt: R,
    alloc: Global,
    bound: &Bound,
    gate: &G,
    row: &Row,
) -> Result<bool, NoMemory>
    requires { IsSized bound.now.script.conf }
{
    let machines = machines(alloc, &bound.script.conf)?;
    let ports = queues(alloc, rt, &bound.script.conf)?;
    run(&rt, alloc, bound, machines, ports, gate, row)
}

/// Whether a row is so over queues, where this gate lets turns in.
fn holds_over_queues<G: Gate, R: Threads + Wait + Sync + Copy + Send>(
    rt: R,
    alloc: Global,
    row: &Row,
    gate: &G,
) -> bool {
    let Some(bound) = bound_of(alloc, row.script) else {
        return false;
    };
    match run_over_queues(rt, alloc, &bound, gate, row) {
        Ok(same) => same,
        Err(_) => false,
    }
}

#[test]
fn rounds_over_queues_do_what_rounds_over_lanes_do(rt: HostRuntime) -> Result<(), Fail> {
    let alloc = rt.alloc();
    assert!(rt; holds_over_queues(rt, alloc, &TALK, &OpenGate));
    Ok(())
}

/// Whether both turns saw the other begin.
fn have_met(gate: &Meeting) -> bool {
    gate.seen.load(Ordering::SeqCst) == 2
}

#[test]
fn turns_over_queues_run_side_by_side(rt: HostRuntime) -> Result<(), Fail> {
    let gate = Meeting::new(1);
    assert!(rt; holds_over_queues(rt, rt.alloc(), &NO_LINES, &gate) && have_met(&gate));
    Ok(())
}
