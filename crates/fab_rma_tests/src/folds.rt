//! What a rank of three makes of a round of collectives. Expected bytes were computed by hand.
ghost use Rattle.std.specs.Prelude.{◌≡◌, [], ◌∷◌, IfOk};

use fab_base::{AtomicOp, Buf, NoMemory, Num};
use fab_fold::{Coll, is_reducing, outcome};
use std::alloc::Global;

fn two(alloc: Global, first: &[u8], second: &[u8]) -> Result<Vec<Buf>, NoMemory>
    ensures { IfOk result (λ shares. shares.items ≡ first.now ∷ second.now ∷ []) }
{
    let mut shares = Vec::new(alloc);
    shares.push(Buf::copy(alloc, first)?)?;
    shares.push(Buf::copy(alloc, second)?)?;
    Ok(shares)
}

/// What this rank makes of its own share and of two others that are as long.
fn made(
    alloc: Global,
    coll: Coll,
    rank: u32,
    own: &[u8],
    first: &[u8],
    second: &[u8],
) -> Option<Buf> {
    let Ok(received) = two(alloc, first, second) else {
        return None;
    };
    if rank > 2 || first.len() != own.len() || second.len() != own.len() {
        return None;
    }
    match coll {
        Coll::Barrier | Coll::Allgather => outcome(alloc, coll, rank, own, &received).ok(),
        Coll::Allreduce { op, num } if is_reducing(op) && own.len() % num.element_size() == 0 => {
            outcome(alloc, coll, rank, own, &received).ok()
        }
        Coll::Allreduce { .. } | Coll::Broadcast { .. } => None,
    }
}

/// Whether this rank makes these bytes of them.
fn makes(
    alloc: Global,
    coll: Coll,
    rank: u32,
    own: &[u8],
    first: &[u8],
    second: &[u8],
    bytes: &[u8],
) -> bool {
    made(alloc, coll, rank, own, first, second).is_some_and(|made| made.as_slice() == bytes)
}

/// What the ranks do, a rank, its own share and those of the two others, and what it makes of them.
type Row = (
    Coll,
    u32,
    &'static [u8],
    &'static [u8],
    &'static [u8],
    &'static [u8],
);

const SUM: Coll = Coll::Allreduce {
    op: AtomicOp::Sum,
    num: Num::U8,
};

const LEAST: Coll = Coll::Allreduce {
    op: AtomicOp::Min,
    num: Num::I16,
};

const PRODUCT: Coll = Coll::Allreduce {
    op: AtomicOp::Prod,
    num: Num::U16,
};

const ANY: Coll = Coll::Allreduce {
    op: AtomicOp::Lor,
    num: Num::U32,
};

const ROWS: [Row; 10] = [
    (SUM, 0, &[200], &[100], &[7], &[0x33]),
    (SUM, 1, &[100], &[200], &[7], &[0x33]),
    (SUM, 2, &[7], &[200], &[100], &[0x33]),
    (Coll::Allgather, 0, &[1], &[2], &[3], &[1, 2, 3]),
    (Coll::Allgather, 1, &[2], &[1], &[3], &[1, 2, 3]),
    (Coll::Allgather, 2, &[3], &[1], &[2], &[1, 2, 3]),
    (Coll::Barrier, 1, &[], &[], &[], &[]),
    (
        LEAST,
        1,
        &[0, 1, 5, 0],
        &[255, 255, 6, 0],
        &[0, 0, 4, 0],
        &[255, 255, 4, 0],
    ),
    (PRODUCT, 2, &[0, 1], &[0, 1], &[1, 0], &[0, 0]),
    (
        ANY,
        1,
        &[0, 0, 0, 0],
        &[0, 9, 0, 0],
        &[0, 0, 0, 0],
        &[1, 0, 0, 0],
    ),
];

#[test]
fn each_rank_makes_the_same(rt: HostRuntime) {
    for (coll, rank, own, first, second, bytes) in ROWS {
        assert!(rt;
            makes(rt.alloc(), coll, rank, own, first, second, bytes),
            "{bytes:?}"
        );
    }
}

/// The share of the root, which is rank 2.
const SHARE: &[u8] = &[6, 1];

const BROADCAST: Coll = Coll::Broadcast { root: 2 };

fn root_keeps_it(alloc: Global) -> bool {
    match outcome(alloc, BROADCAST, 2, SHARE, &[]) {
        Ok(made) => made.as_slice() == SHARE,
        Err(_) => false,
    }
}

fn one(alloc: Global, share: &[u8]) -> Result<Vec<Buf>, NoMemory>
    ensures { IfOk result (λ shares. shares.items ≡ share.now ∷ []) }
{
    let mut shares = Vec::new(alloc);
    shares.push(Buf::copy(alloc, share)?)?;
    Ok(shares)
}

fn another_gets_it(alloc: Global) -> bool {
    let Ok(received) = one(alloc, SHARE) else {
        return false;
    };
    match outcome(alloc, BROADCAST, 0, &[], &received) {
        Ok(made) => made.as_slice() == SHARE,
        Err(_) => false,
    }
}

#[test]
fn the_roots_share_is_every_ranks(rt: HostRuntime) {
    assert!(rt; root_keeps_it(rt.alloc()) && another_gets_it(rt.alloc()));
}
