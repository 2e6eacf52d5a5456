//! Two ports of one table, as they are made and as they are gathered.
ghost use Rattle.std.specs.Prelude.{◌≡◌, ◌<◌, ◌≤◌, length, IfOk};
ghost use Rattle.fab_ring.specs.Ports.{number_of, peers_of, table_of, out_of};
ghost use Rattle.fab_ring.specs.Gather.{GoesOn};
ghost use Rattle.fab_port_suite.specs.Lanes.{IsEnd};
ghost use Rattle.fab_port_tests.specs.Pairs.{IsFresh};

use crate::gathered::both;
use fab_base::NoMemory;
use fab_link::PlainPort;
use fab_ring::{RingPort, Rings, gather};
use std::alloc::Global;

/// The ports of two peers.
pub fn two_ports(alloc: Global, lane: u32, pool: u32) -> Result<(RingPort, RingPort), NoMemory>
    requires lane { (0 < lane) × (lane ≤ 1024) }
    requires pool { (0 < pool) × (pool ≤ 1024) }
    ensures { IfOk result (λ r. IsEnd 0 (number_of r.0) (peers_of r.0) (out_of r.0) × IsEnd 1 (number_of r.1) (peers_of r.1) (out_of r.1) × (table_of r.1 ≡ table_of r.0) × (IsFresh r.0 × IsFresh r.1)) }
{
    let rings = Rings::new(alloc, 2, lane, pool)?;
    let mut ports = rings.ports(alloc)?;
    let Some(one) = ports.pop() else {
        return Err(NoMemory);
    };
    let Some(zero) = ports.pop() else {
        return Err(NoMemory);
    };
    Ok((zero, one))
}

/// The plain ports of two peers, gathered of theirs.
pub fn pair_gathered(
    alloc: Global,
    zero: RingPort,
    one: RingPort,
) -> Result<(PlainPort, PlainPort), NoMemory>
    requires zero { (number_of zero ≡ 0) × (peers_of zero ≡ 2) }
    requires one { (number_of one ≡ 1) × (table_of one ≡ table_of zero) }
    ensures goes_on { IfOk result (λ r. GoesOn zero r.0 × GoesOn one r.1) }
    ensures lanes { IfOk result (λ r. (length r.0.lanes ≡ 2) × (length r.1.lanes ≡ 2)) }
{
    let mut ports = Vec::with_capacity(alloc, 2)?;
    ports.push(zero)?;
    ports.push(one)?;
    let Ok(plain) = gather(alloc, ports) else {
        return Err(NoMemory);
    };
    let pair = both(plain)?;
    Ok(pair)
}
