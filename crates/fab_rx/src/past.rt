//! What is recorded of the receive half: contracts see it, no code stores it.
ghost use Rattle.std.specs.Prelude.{ℕ};
ghost use Rattle.fab_rx.specs.Leaving.{cancelling};
ghost use Rattle.fab_rx.specs.Arriving.{arriving, finishing, growing, multi_by, nothing_arrived, opening, posting, receive_by};
ghost use Rattle.fab_rx.specs.Drawing.{drawing};
ghost use Rattle.fab_rx.specs.Claims.{any_tagged, claiming_first, discarding, dropping, taking};

use fab_base::{Buf, ItemHead, Want};
use fab_record::caller::Caller;
use fab_record::record::{Begins, Change};
use std::marker::{Model, PhantomData};

/// The value. None is made.
pub struct Past {
    unused: (),
}

impl Model for Past {
    ghost use Rattle.fab_rx.specs.Arriving.{Arriving, nothing_arrived};

    ghost Value = { Arriving };

    ghost view = { λ _. nothing_arrived 0 0 };
}

/// Begins with nothing, by the number of peers and of receives that may be posted.
pub struct Opens;

impl Begins<(u32, u32), Past> for Opens {
    ghost first = { λ x. nothing_arrived x.0 x.1 };
}

pub struct Arrives;

impl<'a> Change<(u32, &'a ItemHead), Past> for Arrives {
    ghost after = { λ x v. arriving x.0 x.1.now v };
}

pub struct Grows;

impl<'a> Change<(u32, &'a [u8]), Past> for Grows {
    ghost after = { λ x v. growing x.0 x.1.now v };
}

pub struct Finishes;

impl Change<u32, Past> for Finishes {
    ghost after = { finishing };
}

pub struct Cancels;

impl Change<Option<u64>, Past> for Cancels {
    ghost after = { cancelling };
}

pub struct Posts<C> {
    caller: PhantomData<C>,
}

impl<'a, X, C: Caller<X>> Change<(&'a X, &'a Want, &'a Buf, u64), Past> for Posts<C> {
    ghost after = { λ x v. posting (receive_by (C.call x.0.now) x.1.now x.2.now x.3) v };
}

pub struct Shares<C> {
    caller: PhantomData<C>,
}

impl<'a, X, C: Caller<X>> Change<(&'a X, &'a Want, &'a Buf, u32, u64, u32), Past> for Shares<C> {
    ghost after = { λ x v. opening x.5 (multi_by (C.call x.0.now) x.1.now x.2.now x.3 x.4) v };
}

pub struct Claims;

impl<'a> Change<(&'a Want, u64), Past> for Claims {
    ghost after = { λ x v. claiming_first x.0.now x.1 v };
}

pub struct Discards;

impl<'a> Change<&'a Want, Past> for Discards {
    ghost after = { λ want v. discarding want.now v };
}

pub struct Takes<C> {
    caller: PhantomData<C>,
}

impl<'a, X, C: Caller<X>> Change<(&'a X, &'a Buf, u64), Past> for Takes<C> {
    ghost after = { λ x v. taking (receive_by (C.call x.0.now) any_tagged x.1.now x.2) v };
}

pub struct Draws;

impl Change<(), Past> for Draws {
    ghost after = { λ x v. drawing v };
}

pub struct Drops;

impl Change<u64, Past> for Drops {
    ghost after = { dropping };
}
