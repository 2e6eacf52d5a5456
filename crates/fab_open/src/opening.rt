//! An endpoint is opened over a port.
ghost use Rattle.std.specs.Prelude.{◌≡◌, true, IfOk, IfErr};
ghost use Rattle.fab_base.specs.Offer.{limits_of};
ghost use Rattle.fab_face.specs.Ports.{IsFresh, is_granted, within};
ghost use Rattle.fab_ep.specs.Value.{opened};
ghost use Rattle.fab_open.specs.Opening.{why_not};

use crate::machine::BinMachine;
use fab_av::Av;
use fab_base::{Api, Fault, Info, Size};
use fab_link::Port;
use std::alloc::Global;

/// An endpoint over a port, with matching in hashed bins. Its calls are those of the traits of `fab_face`.
pub type Endpoint<P> = fab_ep::endpoint::Endpoint<P, BinMachine>;

/// Why an endpoint was not opened, with what it was to be opened over.
#[derive(Drop)]
pub struct OpenRefused<P: Port> {
    pub why: Fault,
    pub port: P,
    pub av: Av,
}

/// Whether the number is within the limits of its size in this version.
fn is_within(api: Api, size: Size, number: u32) -> bool
    ensures { result ≡ within (limits_of api size) number }
{
    let limits = size.limits(api);
    limits.least <= number && number <= limits.greatest
}

/// Whether the numbers are those of the offer in the version of `info` (fi_getinfo(3)), and for so many peers: within the
/// limits, with messages of as many bytes as may be.
pub fn is_granted(info: &Info, peers: u32) -> bool
    ensures { result ≡ is_granted info.now peers }
{
    info.peers == peers
        && is_within(info.api, Size::Peers, info.peers)
        && is_within(info.api, Size::Lane, info.lane)
        && is_within(info.api, Size::Pool, info.pool)
        && is_within(info.api, Size::Tx, info.tx)
        && is_within(info.api, Size::Rx, info.rx)
        && is_within(info.api, Size::Cq, info.cq)
        && is_within(info.api, Size::Log, info.log)
        && is_within(info.api, Size::Inject, info.inject)
        && info.message == Size::Message.limits(info.api).greatest
}

/// Opens an endpoint (fi_endpoint(3), with fi_ep_bind and fi_enable done) over a port that no frame has gone
/// through, with what was negotiated and the addresses of its peers. With `selective`, a message, write or
/// atomic that succeeds writes a completion only where its flags ask for one (FI_SELECTIVE_COMPLETION of fi_endpoint(3)).
///
/// It takes all memory that the endpoint's calls need, but for messages that come unexpected, for requests of
/// peers and for the replies that they are owed.
///
/// `Invalid` exactly where a number of `info` is not one of the offer, or not for as many peers as the port has;
/// else it may answer `NoMemory`. A refusal hands the port and the address vector back.
pub fn open<P: Port>(
    alloc: Global,
    port: P,
    av: Av,
    info: &Info,
    selective: bool,
) -> Result<Endpoint<P>, OpenRefused<P>>
    requires peers { av.peers ≡ P.peer_count port }
    requires fresh { IsFresh P.Port port }
    ensures opened { IfOk result (λ e. e ≡ opened port av info.now selective) }
    ensures granted { IfOk result (λ e. is_granted info.now (P.peer_count port) ≡ true) }
    ensures why { IfErr result (λ r. r.why ≡ why_not (is_granted info.now (P.peer_count port))) }
    ensures back { IfErr result (λ r. (r.port ≡ port) × (r.av ≡ av)) }
{
    if !is_granted(info, port.peers()) {
        return Err(OpenRefused {
            why: Fault::Invalid,
            port,
            av,
        });
    }
    let why = Fault::NoMemory;
    let machine = match BinMachine::new(alloc, info, selective, av) {
        Ok(machine) => machine,
        Err(av) => return Err(OpenRefused { why, port, av }),
    };
    match Endpoint::over(alloc, port, machine, info.log) {
        Ok(endpoint) => Ok(endpoint),
        Err((port, machine)) => {
            let (av, _regions) = machine.into_parts();
            Err(OpenRefused { why, port, av })
        }
    }
}
