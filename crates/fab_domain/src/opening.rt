//! All endpoints of a domain are opened.
ghost use Rattle.std.specs.Prelude.{◌≡◌, ◌++◌, [], length, map, true, IfOk, IfErr};
ghost use Rattle.std.specs.List.{All};
ghost use Rattle.fab_face.specs.Ports.{is_granted};
ghost use Rattle.fab_open.specs.Opening.{why_not};
ghost use Rattle.fab_domain.specs.Domain.{AreLanes, AreOpened, AreReady, IsOpened, IsReady, port_of};

use crate::endpoint::RingEndpoint;
use fab_av::Av;
use fab_base::{Fault, Info, NoMemory};
use fab_bell::Bell;
use fab_open::{is_granted, open};
use fab_ring::{RingPort, Rings};
use std::alloc::Global;

/// The bell of the next peer, if there are bells.
fn next_bell(bells: &mut Vec<Bell>) -> Option<Bell> {
    if bells.is_empty() {
        return None;
    }
    Some(bells.remove(0))
}

/// The endpoint over this port, with all peers in its address vector, each at the index of its number.
fn open_one(
    alloc: Global,
    port: RingPort,
    bell: Option<Bell>,
    info: &Info,
    selective: bool,
) -> Result<RingEndpoint, NoMemory>
    requires ready { IsReady info.now.peers port }
    requires granted { is_granted info.now info.now.peers ≡ true }
    ensures port { IfOk result (λ e. port_of e ≡ port) }
    ensures opened { IfOk result (IsOpened info.now selective) }
{
    let av = Av::all(alloc, info.peers)?;
    match open(alloc, port, av, info, selective) {
        Ok(inner) => Ok(RingEndpoint { inner, bell }),
        Err(_back) => Err(NoMemory),
    }
}

/// The endpoints over these ports, in their order.
fn open_all(
    alloc: Global,
    mut ports: Vec<RingPort>,
    mut bells: Vec<Bell>,
    info: &Info,
    selective: bool,
) -> Result<Vec<RingEndpoint>, NoMemory>
    requires ready { AreReady info.now.peers ports.items }
    requires granted { is_granted info.now info.now.peers ≡ true }
    ensures ports { IfOk result (λ all. map port_of all.items ≡ ports.items) }
    ensures opened { IfOk result (λ all. All (IsOpened info.now selective) all.items) }
{
    let mut all = Vec::new(alloc);
    while !ports.is_empty() {
        let port = ports.remove(0);
        let bell = next_bell(&mut bells);
        let endpoint = open_one(alloc, port, bell, info, selective)?;
        all.push(endpoint)?;
    }
    Ok(all)
}

/// A port for each peer, over lanes and pools of the sizes granted.
fn ports(alloc: Global, info: &Info) -> Result<Vec<RingPort>, NoMemory>
    requires granted { is_granted info.now info.now.peers ≡ true }
    ensures { IfOk result (λ v. AreLanes info.now v.items) }
{
    Rings::new(alloc, info.peers, info.lane, info.pool)?.ports(alloc)
}

/// A bell for each peer, or none where nobody sleeps.
fn bells(alloc: Global, info: &Info, sleeping: bool) -> Result<Vec<Bell>, NoMemory> {
    if sleeping {
        Bell::for_all(alloc, info.peers)
    } else {
        Ok(Vec::new(alloc))
    }
}

/// The endpoints of all peers of a domain, as `endpoints` opens them, with bells where peers may sleep (`sleeping`): then a call that
/// posts frames wakes the peers that say that they sleep, and reads one word while nobody does.
///
/// `Invalid` exactly where a number of `info` is outside its limits; else it may answer `NoMemory`.
pub fn endpoints_that_sleep(
    alloc: Global,
    info: &Info,
    selective: bool,
    sleeping: bool,
) -> Result<Vec<RingEndpoint>, Fault>
    ensures opened { IfOk result (λ all. AreOpened info.now selective all.items) }
    ensures granted { IfOk result (λ _. is_granted info.now info.now.peers ≡ true) }
    ensures why { IfErr result (λ why. why ≡ why_not (is_granted info.now info.now.peers)) }
{
    if !is_granted(info, info.peers) {
        return Err(Fault::Invalid);
    }
    let ports = ports(alloc, info)?;
    let bells = bells(alloc, info, sleeping)?;
    Ok(open_all(alloc, ports, bells, info, selective)?)
}

/// Opens the endpoints of all peers of a domain (fi_domain(3), fi_endpoint(3)): one for each number from 0 on, in
/// order, over lanes that they share, with what was negotiated (fi_getinfo(3)). Each has all peers in its address
/// vector, each at the index of its number (fi_av(3)). With `selective`, a message, write or atomic
/// that succeeds writes a completion only where its flags ask for one (FI_SELECTIVE_COMPLETION of fi_endpoint(3)).
///
/// All memory of the lanes is taken here. An endpoint may be moved to another thread.
///
/// `Invalid` exactly where a number of `info` is outside its limits; else it may answer `NoMemory`.
pub fn endpoints(alloc: Global, info: &Info, selective: bool) -> Result<Vec<RingEndpoint>, Fault>
    ensures opened { IfOk result (λ all. AreOpened info.now selective all.items) }
    ensures granted { IfOk result (λ _. is_granted info.now info.now.peers ≡ true) }
    ensures why { IfErr result (λ why. why ≡ why_not (is_granted info.now info.now.peers)) }
{
    endpoints_that_sleep(alloc, info, selective, false)
}
