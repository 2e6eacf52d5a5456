//! Progress of a rank: what waits is posted, and the next completion is read.
ghost use Rattle.std.specs.Prelude.{◌≡◌, ◌<◌, [], IfErr, IfNone, IfOk, IfSome, OnErr, OnOk, vec_len, vec_capacity};
ghost use Rattle.mini_mpi.specs.Going.{Comes, Goes, LacksMemory, rank_of};
ghost use Rattle.mini_mpi.specs.Requests.{kept_of};

use crate::begun::Begun;
use crate::errors::Error;
use crate::posting::{post_receives, post_sends};
use fabric::{Calls, EndpointOver, Polled};

/// How often the completion queue is read besides, before other ranks run.
const SPINS: u32 = 8;

/// The completion, if one was there.
fn come(polled: Polled) -> Option<Polled>
    ensures some { IfSome result (λ same. same ≡ polled) }
    ensures none { IfNone result (kept_of polled ≡ []) }
{
    match polled {
        Polled::Idle | Polled::More => None,
        Polled::Entry(entry) => Some(Polled::Entry(entry)),
        Polled::Error(error) => Some(Polled::Error(error)),
    }
}

/// Reads the next completion, in at most so many turns with other ranks and one try more. There is room to keep its end.
fn read<E: Calls + Drop>(
    endpoint: &mut EndpointOver<E>,
    begun: &mut Begun,
    turns: u32,
) -> Result<Polled, Error>
    ensures room { OnOk result (vec_len begun.new.ended < vec_capacity begun.new.ended) }
    ensures ok { IfOk result (λ polled. Comes E.fixed polled (rank_of (E.seen endpoint.old) begun.old) (rank_of (E.seen endpoint.new) begun.new)) }
    ensures err { IfErr result (λ why. (why ≡ Error.NoMem) × Goes E.fixed (rank_of (E.seen endpoint.old) begun.old) (rank_of (E.seen endpoint.new) begun.new)) }
    ensures lacks { OnErr result (LacksMemory E.fixed (rank_of (E.seen endpoint.old) begun.old) (rank_of (E.seen endpoint.new) begun.new) begun.new) }
{
    begun.ended.reserve(1)?;
    let polled = endpoint.wait_turns(turns, SPINS)?;
    Ok(polled)
}

/// Reads the next completion, if one is there.
fn read_now<E: Calls + Drop>(
    endpoint: &mut EndpointOver<E>,
    begun: &mut Begun,
) -> Result<Option<Polled>, Error>
    ensures room { OnOk result (vec_len begun.new.ended < vec_capacity begun.new.ended) }
    ensures some { IfOk result (λ come. IfSome come (λ polled. Comes E.fixed polled (rank_of (E.seen endpoint.old) begun.old) (rank_of (E.seen endpoint.new) begun.new))) }
    ensures none { IfOk result (λ come. IfNone come (Goes E.fixed (rank_of (E.seen endpoint.old) begun.old) (rank_of (E.seen endpoint.new) begun.new))) }
    ensures err { IfErr result (λ why. (why ≡ Error.NoMem) × Goes E.fixed (rank_of (E.seen endpoint.old) begun.old) (rank_of (E.seen endpoint.new) begun.new)) }
    ensures lacks { OnErr result (LacksMemory E.fixed (rank_of (E.seen endpoint.old) begun.old) (rank_of (E.seen endpoint.new) begun.new) begun.new) }
{
    let polled = read(endpoint, begun, 0)?;
    Ok(come(polled))
}

/// Posts receives that wait, and reads the next completion, in at most so many turns with other ranks and one try more.
fn read_behind<E: Calls + Drop>(
    endpoint: &mut EndpointOver<E>,
    begun: &mut Begun,
    turns: u32,
) -> Result<Polled, Error>
    ensures room { OnOk result (vec_len begun.new.ended < vec_capacity begun.new.ended) }
    ensures ok { IfOk result (λ polled. Comes E.fixed polled (rank_of (E.seen endpoint.old) begun.old) (rank_of (E.seen endpoint.new) begun.new)) }
    ensures err { IfErr result (λ why. (why ≡ Error.NoMem) × Goes E.fixed (rank_of (E.seen endpoint.old) begun.old) (rank_of (E.seen endpoint.new) begun.new)) }
    ensures lacks { OnErr result (LacksMemory E.fixed (rank_of (E.seen endpoint.old) begun.old) (rank_of (E.seen endpoint.new) begun.new) begun.new) }
{
    post_receives(endpoint, begun)?;
    read(endpoint, begun, turns)
}

/// Posts what waits, and reads the next completion, in at most so many turns with other ranks and one try more. There is room
/// to keep its end.
///
/// Receives that wait are tried where no completion is there: each may take a message that came.
pub(crate) fn next<E: Calls + Drop>(
    endpoint: &mut EndpointOver<E>,
    begun: &mut Begun,
    turns: u32,
) -> Result<Polled, Error>
    ensures room { OnOk result (vec_len begun.new.ended < vec_capacity begun.new.ended) }
    ensures ok { IfOk result (λ polled. Comes E.fixed polled (rank_of (E.seen endpoint.old) begun.old) (rank_of (E.seen endpoint.new) begun.new)) }
    ensures err { IfErr result (λ why. (why ≡ Error.NoMem) × Goes E.fixed (rank_of (E.seen endpoint.old) begun.old) (rank_of (E.seen endpoint.new) begun.new)) }
    ensures lacks { OnErr result (LacksMemory E.fixed (rank_of (E.seen endpoint.old) begun.old) (rank_of (E.seen endpoint.new) begun.new) begun.new) }
{
    post_sends(endpoint, begun)?;
    match read_now(endpoint, begun) {
        Ok(Some(polled)) => Ok(polled),
        Ok(None) => read_behind(endpoint, begun, turns),
        Err(why) => Err(why),
    }
}

/// Makes progress, and keeps the end of a request for the wait for it.
pub(crate) fn progress<E: Calls + Drop>(
    endpoint: &mut EndpointOver<E>,
    begun: &mut Begun,
    turns: u32,
) -> Result<(), Error>
    ensures goes { Goes E.fixed (rank_of (E.seen endpoint.old) begun.old) (rank_of (E.seen endpoint.new) begun.new) }
    ensures err { IfErr result (λ why. why ≡ Error.NoMem) }
    ensures lacks { OnErr result (LacksMemory E.fixed (rank_of (E.seen endpoint.old) begun.old) (rank_of (E.seen endpoint.new) begun.new) begun.new) }
{
    let polled = next(endpoint, begun, turns)?;
    begun.keep(polled);
    Ok(())
}
