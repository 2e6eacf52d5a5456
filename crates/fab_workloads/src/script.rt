//! The script that a workload runs.
ghost use Rattle.std.specs.Prelude.{◌≡◌, ◌≤◌, ◌+◌, ◌++◌, [], ◌∷◌, sum_by, length, map, IfOk};
ghost use Rattle.fab_model.specs.Calls.{upto};
ghost use Rattle.fab_workloads.specs.Generator.{sends, receives};
ghost use Rattle.fab_workloads.specs.Commands.{IsWithin};
ghost use Rattle.fab_workloads.specs.Script.{bound_of, conf_of, hints_for, ops_of, payload_of, peers_of, numbered, all_numbered};

use crate::workload::Workload;
use crate::{generator, lines};
use fab_base::{Api, Bound, Buf, Caps, Conf, Hints, Line, LineOp, List, NoMemory, Script};
use fab_info::getinfo;
use std::alloc::Global;

/// The file's first bytes, followed by zeros where it is shorter.
fn payload_of(alloc: Global, size: u32, file: &[u8]) -> Result<Buf, NoMemory>
    ensures { IfOk result (λ payload. payload ≡ payload_of size file.now) }
{
    let mut payload = Buf::zeros(alloc, u64::from(size))?;
    payload.write_at(0, &file[..file.len().min(size as usize)]);
    Ok(payload)
}

/// Only the number of peers is asked for.
fn hints_for(peers: u32) -> Hints
    ensures { result ≡ hints_for peers }
{
    Hints {
        caps: Caps::none(),
        peers: Some(peers),
        lane: None,
        pool: None,
        tx: None,
        rx: None,
        cq: None,
        log: None,
        inject: None,
        message: None,
    }
}

/// The settings: what is granted (fi_getinfo(3)) to whoever asks for this number of peers.
pub fn conf_of(peers: u32) -> Conf
    requires least { 1 ≤ peers }
    requires most { peers ≤ 32 }
    ensures { result ≡ conf_of peers }
{
    let hints = hints_for(peers);
    let Ok(info) = getinfo(Api::One, Some(&hints)) else {
        unreachable!()
    };
    Conf {
        hints: Some(hints),
        info,
        peers,
        selective: false,
    }
}

fn peers_of(workload: Workload) -> u32
    ensures { result ≡ peers_of workload }
{
    match workload {
        Workload::Pingpong { .. } | Workload::Bandwidth { .. } => 2,
        Workload::Generated { peers, .. } => peers,
    }
}

/// A list of two.
fn two(alloc: Global, first: Vec<LineOp>, second: Vec<LineOp>) -> Result<Vec<Vec<LineOp>>, NoMemory>
    ensures { IfOk result (λ lists. map (λ ops. ops.items) lists.items ≡ first.items ∷ second.items ∷ []) }
{
    let mut lists = Vec::new(alloc);
    lists.push(first)?;
    lists.push(second)?;
    Ok(lists)
}

/// What the lines of each of these peers ask for.
fn generated(
    alloc: Global,
    number: u64,
    peers: u32,
    messages: u32,
) -> Result<Vec<Vec<LineOp>>, NoMemory>
    requires { 1 ≤ peers }
    ensures { IfOk result (λ lists. map (λ ops. ops.items) lists.items ≡ map (λ p. sends number peers messages p ++ receives number peers messages p) (upto peers)) }
{
    let mut lists = Vec::new(alloc);
    for p in 0..peers {
        lists.push(generator::lines(alloc, number, peers, messages, p)?)?;
    }
    Ok(lists)
}

/// What the lines of each peer ask for.
fn ops_of(alloc: Global, workload: Workload, file: &[u8]) -> Result<Vec<Vec<LineOp>>, NoMemory>
    requires { IsWithin workload }
    ensures { IfOk result (λ lists. map (λ ops. ops.items) lists.items ≡ ops_of workload file.now) }
{
    match workload {
        Workload::Pingpong { size, count } => {
            let payload = payload_of(alloc, size, file)?;
            let pings = lines::pings(alloc, size, payload.as_slice(), count)?;
            let pongs = lines::pongs(alloc, size, payload.as_slice(), count)?;
            two(alloc, pings, pongs)
        }
        Workload::Bandwidth {
            size,
            count,
            window,
        } => {
            let payload = payload_of(alloc, size, file)?;
            let n = lines::windows(count, window);
            let sendings = lines::sendings(alloc, count, window, payload.as_slice(), n)?;
            let receivings = lines::receivings(alloc, size, count, window, n)?;
            two(alloc, sendings, receivings)
        }
        Workload::Generated {
            number,
            peers,
            messages,
        } => generated(alloc, number, peers, messages),
    }
}

/// These lines, numbered from the first number on.
fn numbered(alloc: Global, first: u32, ops: Vec<LineOp>) -> Result<List<Line>, NoMemory>
    requires { first + length ops.items ≤ 4_294_967_295 }
    ensures { IfOk result (λ lines. lines ≡ numbered first ops.items) }
{
    let mut number = first;
    let mut lines = Vec::new(alloc);
    for op in ops {
        lines.push(Line { number, op })?;
        number += 1;
    }
    Ok(List::from_vec(lines))
}

/// All lines, numbered in order of peers.
pub fn all_numbered(alloc: Global, lists: Vec<Vec<LineOp>>) -> Result<List<List<Line>>, NoMemory>
    requires { sum_by (λ ops. length ops.items) lists.items ≤ 1_000_000_000 }
    ensures { IfOk result (λ peers. peers ≡ all_numbered 1 (map (λ ops. ops.items) lists.items)) }
{
    let mut first: u32 = 1;
    let mut peers = Vec::new(alloc);
    for ops in lists {
        let count = ops.len() as u32;
        peers.push(numbered(alloc, first, ops)?)?;
        first += count;
    }
    Ok(List::from_vec(peers))
}

/// The script of the workload, with its bytes in it: messages of `pingpong` and `bandwidth` have the file's first
/// bytes, followed by zeros where it is shorter. It asks for its number of peers and for nothing else, so the sizes are
/// the defaults of fi_getinfo(3). `gen` reads no file.
#[tactic(auto, unfolding(crate::specs::Script::bound_of))]
pub fn bound(alloc: Global, workload: Workload, file: &[u8]) -> Result<Bound, NoMemory>
    requires { IsWithin workload }
    ensures value { IfOk result (λ bound. bound ≡ bound_of workload file.now) }
    ensures sized { IfOk result (λ bound. (2 ≤ bound.script.conf.info.cq) × (4 ≤ bound.script.conf.info.log)) }
{
    let ops = ops_of(alloc, workload, file)?;
    let peers = all_numbered(alloc, ops)?;
    Ok(Bound {
        script: Script {
            version: 1,
            conf: conf_of(peers_of(workload)),
            payloads: List::empty(alloc),
            peers,
        },
        files: List::empty(alloc),
    })
}
