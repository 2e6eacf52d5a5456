//! The calls of an endpoint that a drive makes.
ghost use Rattle.std.specs.Prelude.{◌<◌, ◌≤◌, length};
ghost use Rattle.fab_collectives.specs.Routes.{rounds_in};
ghost use Rattle.fab_collectives.specs.Driving.{Asks, AsksAll, AsksNot, Tells, TellsAll, TellsNot, Tries};

use crate::collective::Work;
use crate::routes::{bytes_in, hears_in, rounds_in, source_in, target_in, tells_in};
use crate::shares::message;
use fab_app::endpoint::{Calls, Endpoint};
use fab_base::{Buf, Fault};
use std::alloc::Global;

/// Posts the receive of this round, of as many bytes as its message brings, and tells whether it is posted, or refused for now.
fn ask<E: Calls + Drop>(
    endpoint: &mut Endpoint<E>,
    alloc: Global,
    work: Work,
    len: usize,
    round: u32,
) -> Result<bool, Fault>
    requires { round < rounds_in work len }
    ensures { Tries (Asks work len round) (AsksNot work len round) (E.seen endpoint.old) (E.seen endpoint.new) result }
{
    let buf = Buf::zeros(alloc, bytes_in(work, len, round) as u64)?;
    let source = source_in(work, len, round);
    match endpoint.trecv(Some(source), work.tag, 0, buf, work.tag) {
        Ok(()) => Ok(true),
        Err(refused) => match refused.why {
            Fault::Again(_) => Ok(false),
            why => Err(why),
        },
    }
}

/// Posts the receives of all rounds in which the rank hears, up to one that is refused.
pub(crate) fn ask_all<E: Calls + Drop>(
    endpoint: &mut Endpoint<E>,
    alloc: Global,
    work: Work,
    len: usize,
    asked: &mut u32,
) -> Result<(), Fault>
    ensures { AsksAll work len asked.old asked.new (E.seen endpoint.old) (E.seen endpoint.new) result }
{
    for k in *asked..rounds_in(work, len) {
        if hears_in(work, len, k) && !ask(endpoint, alloc, work, len, k)? {
            return Ok(());
        }
        *asked = k + 1;
    }
    Ok(())
}

/// Sends the message of this round, and tells whether it is accepted, or refused for now.
fn send<E: Calls + Drop>(
    endpoint: &mut Endpoint<E>,
    alloc: Global,
    work: Work,
    own: &[u8],
    received: &[Buf],
    round: u32,
) -> Result<bool, Fault>
    requires { round < rounds_in work (length own.now) }
    ensures { Tries (Tells E.fixed work own.now received.now round) (TellsNot E.fixed work own.now received.now round) (E.seen endpoint.old) (E.seen endpoint.new) result }
{
    let bytes = message(alloc, work, own, received, round)?;
    let target = target_in(work, own.len(), round);
    match endpoint.tinject(target, work.tag, bytes.as_slice(), None) {
        Ok(()) => Ok(true),
        Err(Fault::Again(_)) => Ok(false),
        Err(fault) => Err(fault),
    }
}

/// Sends the messages of the rounds before `due` in which the rank tells, up to one that is refused.
pub(crate) fn send_all<E: Calls + Drop>(
    endpoint: &mut Endpoint<E>,
    alloc: Global,
    work: Work,
    own: &[u8],
    received: &[Buf],
    due: u32,
    sent: &mut u32,
) -> Result<(), Fault>
    requires { due ≤ rounds_in work (length own.now) }
    ensures { TellsAll E.fixed work own.now received.now due sent.old sent.new (E.seen endpoint.old) (E.seen endpoint.new) result }
{
    for k in *sent..due {
        if tells_in(work, own.len(), k) && !send(endpoint, alloc, work, own, received, k)? {
            return Ok(());
        }
        *sent = k + 1;
    }
    Ok(())
}
