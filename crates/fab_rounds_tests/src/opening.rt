//! Peers at the start of their lines, over new ports of any kind.
ghost use Rattle.std.specs.Prelude.{◌≡◌, ◌<◌, ◌≤◌, ◌^◌, length, true, IfOk, IfSome};
ghost use Rattle.std.specs.List.{All};
ghost use Rattle.fab_finish.specs.Joined.{start as start_of};
ghost use Rattle.fab_rounds_tests.specs.Opening.{IsSized, Begins};

use fab_base::{Bound, Conf, Line, NoMemory};
use fab_link::Port;
use fab_peer::calls::Machinery;
use fab_rounds::runner::Runner;
use fab_rounds::starting::{Buffers, start};
use fab_script::{bind, lines, parse};
use std::alloc::Global;

/// Whether the sizes are such that ports and machines can be made.
fn is_sized(conf: &Conf) -> bool
    ensures { result ≡ true → IsSized conf.now }
{
    let peers = conf.peers > 0 && conf.peers <= 32;
    let lane = conf.info.lane > 0 && conf.info.lane <= 1024;
    peers && lane && conf.info.cq >= 2 && conf.info.log >= 4
}

/// A script without payload files.
pub fn bound_of(alloc: Global, text: &str) -> Option<Bound>
    ensures { IfSome result (λ bound. IsSized bound.script.conf) }
{
    let script = parse(alloc, text.as_bytes()).ok()?;
    if !is_sized(&script.conf) || !script.payloads.as_slice().is_empty() {
        return None;
    }
    bind(script, Vec::new(alloc)).ok()
}

/// A peer that is to do these lines over a new port.
fn open_one<P: Port + Drop, C: Machinery + Drop>(
    alloc: Global,
    conf: &Conf,
    lines: Vec<Line>,
    machine: C,
    port: P,
) -> Result<Runner<P, C>, NoMemory>
    requires log { 4 ≤ conf.now.info.log }
    requires start { C.held machine ≡ start_of conf.now }
    requires port { Begins conf.now.peers (P.peer_count port) (P.outs port) (P.ins port) }
{
    start(alloc, port, machine, conf.info.log, lines, Buffers::Ahead)
}

/// All peers of a script at the start of their lines.
pub fn open<P: Port + Drop, C: Machinery + Drop>(
    alloc: Global,
    bound: &Bound,
    mut machines: Vec<C>,
    mut ports: Vec<P>,
) -> Result<Vec<Runner<P, C>>, NoMemory>
    requires sized { IsSized bound.now.script.conf }
    requires machines { length machines.items ≡ bound.now.script.conf.peers }
    requires start { All (λ m. C.held m ≡ start_of bound.now.script.conf) machines.items }
    requires ports { length ports.items ≡ bound.now.script.conf.peers }
    requires begin { All (λ p. Begins bound.now.script.conf.peers (P.peer_count p) (P.outs p) (P.ins p)) ports.items }
    ensures few { IfOk result (λ runners. length runners.items < 2 ^ 32) }
{
    let mut runners = Vec::new(alloc);
    for peer in 0..bound.script.conf.peers {
        let lines = lines(alloc, bound, peer)?;
        let machine = machines.remove(0);
        let port = ports.remove(0);
        let runner = open_one(alloc, &bound.script.conf, lines, machine, port)?;
        runners.push(runner)?;
    }
    Ok(runners)
}
