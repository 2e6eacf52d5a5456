//! The machines that the endpoints of a script's peers are opened with.
ghost use Rattle.std.specs.Prelude.{◌≡◌, ◌≤◌, length, IfOk};
ghost use Rattle.std.specs.List.{All};
ghost use Rattle.fab_finish.specs.Joined.{start};
ghost use Rattle.fab_open.specs.Machine.{machine_held};

use fab_av::Av;
use fab_base::{Conf, NoMemory};
use fab_open::BinMachine;
use std::alloc::Global;

/// The machine of an endpoint that is opened: all peers are in its address vector.
fn machine(alloc: Global, conf: &Conf) -> Result<BinMachine, NoMemory>
    requires cq { 2 ≤ conf.now.info.cq }
    ensures { IfOk result (λ machine. machine_held machine ≡ start conf.now) }
{
    let av = Av::all(alloc, conf.peers)?;
    BinMachine::new(alloc, &conf.info, conf.selective, av).map_err(|_av| NoMemory)
}

/// The machines of all peers of a script, in order: what an endpoint holds when it is opened (fi_endpoint(3)).
pub fn machines(alloc: Global, conf: &Conf) -> Result<Vec<BinMachine>, NoMemory>
    requires cq { 2 ≤ conf.now.info.cq }
    ensures count { IfOk result (λ all. length all.items ≡ conf.now.peers) }
    ensures start { IfOk result (λ all. All (λ machine. machine_held machine ≡ start conf.now) all.items) }
{
    let mut all = Vec::new(alloc);
    for _peer in 0..conf.peers {
        let one = machine(alloc, conf)?;
        all.push(one)?;
    }
    Ok(all)
}
