//! How the lanes between all peers are made.
ghost use Rattle.std.specs.Prelude.{◌≡◌, ℕ, ◌<◌, ◌≤◌, [], IfOk, length};
ghost use Rattle.fab_queue.specs.Laid.{members, IsLaid, AreLaidFrom, AreLaid};

use crate::inlet::Inlet;
use crate::lane::open_lane;
use crate::outlet::Outlet;
use fab_base::NoMemory;
use fab_record::record::Record;
use std::alloc::Global;
use std::sync::Arc;

/// The ends of all lanes: by peer those at which it posts, and by peer those at which it takes.
pub(crate) type AllEnds = (Vec<Vec<Outlet>>, Vec<Vec<Inlet>>);

/// A lane of so many frames: the end at which one peer posts, and that at which another takes.
fn lay(alloc: Global, room: u32) -> Result<(Outlet, Inlet), NoMemory>
    requires { (0 < room) × (room ≤ 1024) }
    ensures { IfOk result (λ e. IsLaid room e.0 e.1) }
{
    let (lane, writer, reader) = open_lane(alloc, room)?;
    let lane = Arc::new(alloc, lane)?;
    let shared = Arc::try_clone(&lane)?;
    let fulls = Record::new(alloc, &())?;
    let past = Record::new(alloc, &())?;
    let outlet = Outlet {
        lane,
        pass: writer,
        end: None,
        fulls,
    };
    let inlet = Inlet {
        lane: shared,
        pass: reader,
        lent: None,
        end: None,
        past,
    };
    Ok((outlet, inlet))
}

/// The lanes from one peer to each: the ends at which it posts. Each of `ins` gets the other end of one.
fn lay_from(alloc: Global, room: u32, ins: &mut [Vec<Inlet>]) -> Result<Vec<Outlet>, NoMemory>
    requires { (0 < room) × (room ≤ 1024) }
    ensures { IfOk result (λ outs. AreLaidFrom room ins.old ins.new outs.items (length ins.old)) }
{
    let mut outs = Vec::with_capacity(alloc, ins.len())?;
    for dest in 0..ins.len() {
        let (outlet, inlet) = lay(alloc, room)?;
        outs.push(outlet)?;
        ins[dest].push(inlet)?;
    }
    Ok(outs)
}

/// So many lists, with no member in any.
pub(crate) fn no_lists<T: Drop>(alloc: Global, count: u32) -> Result<Vec<Vec<T>>, NoMemory>
    ensures count { IfOk result (λ v. length v.items ≡ count) }
    ensures none { IfOk result (λ v. (k : ℕ) → members v.items k ≡ []) }
{
    let mut lists = Vec::with_capacity(alloc, count as usize)?;
    for _list in 0..count {
        lists.push(Vec::new(alloc))?;
    }
    Ok(lists)
}

/// The lanes between so many peers.
pub(crate) fn lay_all(alloc: Global, peers: u32, room: u32) -> Result<AllEnds, NoMemory>
    requires { (0 < room) × (room ≤ 1024) }
    ensures { IfOk result (λ e. AreLaid room peers peers e.0.items e.1.items) }
{
    let mut ins = no_lists::<Inlet>(alloc, peers)?;
    let mut outs = Vec::with_capacity(alloc, peers as usize)?;
    for _peer in 0..peers {
        let own = lay_from(alloc, room, ins.as_mut_slice())?;
        outs.push(own)?;
    }
    Ok((outs, ins))
}
