//! The lanes between all peers, and their ports.
ghost use Rattle.std.specs.Prelude.{◌≡◌, ℕ, ◌^◌, ◌<◌, ◌≤◌, IfOk, length};
ghost use Rattle.fab_queue.specs.Laid.{AreLaid};
ghost use Rattle.fab_queue.specs.Made.{IsOpened, AreEmpty, AreMade};

use crate::inlet::Inlet;
use crate::laying::lay_all;
use crate::outlet::Outlet;
use crate::port::QueuePort;
use fab_base::NoMemory;
use fab_record::record::Record;
use std::alloc::Global;
use std::marker::Model;
use std::mem;
use std::sync::Wait;

/// The lanes between each two peers, before they have ports.
#[derive(Drop)]
pub struct Queues<R: Wait + Copy> {
    rt: R,
    peers: u32,
    lane: u32,
    outs: Vec<Vec<Outlet>>,
    ins: Vec<Vec<Inlet>>,
}

impl<R: Wait + Copy> Model for Queues<R> {
    ghost use Rattle.std.specs.Prelude.{◌≤◌};
    ghost use Rattle.fab_queue.specs.Made.{Between};
    ghost use Rattle.fab_queue.specs.Laid.{AreLaid};

    ghost Value = { Between };

    ghost view = { λ a. record { peers = a.peers; lane = a.lane } };

    ghost invariant = { λ a. (a.peers ≤ 32) × AreLaid a.lane a.peers a.peers a.outs.items a.ins.items };
}

impl<R: Wait + Copy> QueuePort<R> {
    /// A port over the ends of one peer's lanes, of which none was used.
    fn open(
        alloc: Global,
        rt: R,
        me: u32,
        outs: Vec<Outlet>,
        ins: Vec<Inlet>,
    ) -> Result<QueuePort<R>, NoMemory>
        requires count { (length ins.items ≡ length outs.items) × (length outs.items < 2 ^ 32) }
        requires empty { AreEmpty outs.items ins.items }
        ensures { IfOk result (IsOpened me outs.items ins.items) }
    {
        let moves = Record::new(alloc, &())?;
        Ok(QueuePort {
            rt,
            me,
            clock: 0,
            outs,
            ins,
            moves,
        })
    }
}

impl<R: Wait + Copy> Queues<R> {
    /// The lanes between so many peers, of `lane` frames each. The memory of the queues is taken here. Calls of the
    /// ports wait by `rt`.
    pub fn new(alloc: Global, rt: R, peers: u32, lane: u32) -> Result<Queues<R>, NoMemory>
        requires peers { (0 < peers) × (peers ≤ 32) }
        requires lane { (0 < lane) × (lane ≤ 1024) }
        ensures { IfOk result (λ q. (q.peers ≡ peers) × (q.lane ≡ lane)) }
    {
        let (outs, ins) = lay_all(alloc, peers, lane)?;
        Ok(Queues {
            rt,
            peers,
            lane,
            outs,
            ins,
        })
    }

    /// A port for each peer, in order: nothing was posted or taken, and no count was raised.
    pub fn ports(self, alloc: Global) -> Result<Vec<QueuePort<R>>, NoMemory>
        ensures { IfOk result (λ v. AreMade self.peers self.lane v.items) }
    {
        let Queues {
            rt,
            peers,
            outs,
            ins,
            ..
        } = self;
        open_all(alloc, rt, peers, outs, ins)
    }
}

/// A port over the ends of each peer's lanes, of which none was used.
fn open_all<R: Wait + Copy>(
    alloc: Global,
    rt: R,
    peers: u32,
    mut outs: Vec<Vec<Outlet>>,
    mut ins: Vec<Vec<Inlet>>,
) -> Result<Vec<QueuePort<R>>, NoMemory>
    requires { (room : ℕ) × AreLaid room peers peers outs.items ins.items }
    ensures { (room : ℕ) → AreLaid room peers peers outs.items ins.items → IfOk result (λ v. AreMade peers room v.items) }
{
    let mut all = Vec::with_capacity(alloc, peers as usize)?;
    for me in 0..peers {
        let own_outs = mem::replace(&mut outs[me as usize], Vec::new(alloc));
        let own_ins = mem::replace(&mut ins[me as usize], Vec::new(alloc));
        let port = QueuePort::open(alloc, rt, me, own_outs, own_ins)?;
        all.push(port)?;
    }
    Ok(all)
}
