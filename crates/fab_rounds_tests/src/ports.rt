//! New ports over queues, of all peers of a script.
ghost use Rattle.std.specs.Prelude.{◌≡◌, length, IfOk};
ghost use Rattle.std.specs.List.{All};
ghost use Rattle.fab_queue.specs.Ports as queue;
ghost use Rattle.fab_rounds_tests.specs.Opening.{IsSized, Begins};

use fab_base::{Conf, NoMemory};
use fab_queue::{QueuePort, Queues};
use std::alloc::Global;
use std::sync::Wait;

/// Ports over queues.
pub fn queues<R: Wait + Copy>(
    alloc: Global,
    rt: R,
    conf: &Conf,
) -> Result<Vec<QueuePort<R>>, NoMemory>
    requires { IsSized conf.now }
    ensures count { IfOk result (λ ports. length ports.items ≡ conf.now.peers) }
    ensures begin { IfOk result (λ ports. All (λ p. Begins conf.now.peers (queue.peers_of p) (queue.out_of p) (queue.in_of p)) ports.items) }
{
    let queues = Queues::new(alloc, rt, conf.peers, conf.info.lane)?;
    queues.ports(alloc)
}
