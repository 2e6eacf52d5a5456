//! The endpoint.
ghost use Rattle.std.specs.Prelude.{◌≡◌, IfOk};

use fab_base::NoMemory;
use fab_face::calls::{
    Addresses, Counters, Logs, Looks, Messages, Multis, Progress, Receives, Regions, Requests,
};
use fab_face::probing::{Places, Probes};
use std::alloc::Global;
use std::marker::Model;

/// The calls of an endpoint.
pub trait Calls: Messages
    + Requests
    + Receives
    + Looks
    + Multis
    + Progress
    + Counters
    + Addresses
    + Regions
    + Logs
    + Probes
    + Places {}

impl<
    E: Messages
        + Requests
        + Receives
        + Looks
        + Multis
        + Progress
        + Counters
        + Addresses
        + Regions
        + Logs
        + Probes
        + Places,
> Calls for E {}

/// An endpoint whose log nobody reads. Contracts see the endpoint that it holds.
#[derive(Drop)]
pub struct Endpoint<E: Drop> {
    pub(crate) inner: E,
}

impl<E: Drop> Model for Endpoint<E> {
    ghost Value = { E };

    ghost view = { λ e. e.inner };
}

impl<E: Drop> Endpoint<E> {
    /// Holds an endpoint so.
    pub fn new(inner: E) -> Endpoint<E>
        ensures { result ≡ inner }
    {
        Endpoint { inner }
    }

    /// The endpoint as it is without this.
    pub fn into_inner(self) -> E
        ensures { result ≡ self }
    {
        self.inner
    }
}

/// Holds endpoints so, in their order.
pub fn hold_all<E: Drop>(alloc: Global, endpoints: Vec<E>) -> Result<Vec<Endpoint<E>>, NoMemory>
    ensures { IfOk result (λ all. all.items ≡ endpoints.items) }
{
    let mut all = Vec::new(alloc);
    'endpoints: for endpoint in endpoints {
        all.push(Endpoint::new(endpoint))?;
    }
    Ok(all)
}
