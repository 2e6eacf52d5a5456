//! Calls that the endpoint may refuse for now. They wait, in order, and are made again while progress is made.
//!
//! Sends go out in the order in which they were begun, so none is tried behind one that is refused. A receive that is
//! refused for now matches no message that is there; so those behind it are tried, too, and each takes the message that it would
//! have taken had it been posted before.
ghost use Rattle.std.specs.Prelude.{◌≡◌, ◌<◌, ◌≤◌, ◌⊎◌, ◌+◌, ◌++◌, ◌∷◌, [], true, false, Some, IfErr, OnErr, OnOk, vec_len, vec_capacity};
ghost use Rattle.std.specs.VecDeque.{deque_len, deque_capacity};
ghost use Rattle.mini_mpi.specs.Going.{Goes, HasNoMessage, IsFull, PostsAll, PostsEach, TakesTurn, left_of, never_of, rank_of};
ghost use Rattle.mini_mpi.specs.Posting.{BeginsReceive, BeginsSend, TriesReceive, TriesSend};

use crate::begun::{Begun, Receiving, Sending};
use crate::ended::Ended;
use crate::errors::{Error, Failed, fault_error};
use fabric::{Calls, EndpointOver, Fault, Flags, Level, Refused};
use mini_mpi_parts::{ANY_SOURCE, ANY_TAG, wanted};

/// What came of one try at a call.
#[derive(Drop)]
pub enum Tried<T> {
    /// It is accepted.
    Accepted,
    /// It is refused for now.
    Later(T),
    /// It is refused for good.
    Never(Failed),
}

/// The flags of a send that is complete at this level.
fn at(level: Level) -> Flags
    ensures { result ≡ record { completion = true; level = level; fence = false } }
{
    Flags {
        completion: true,
        level,
        fence: false,
    }
}

/// One try at a send.
pub(crate) fn try_send<E: Calls + Drop>(
    endpoint: &mut EndpointOver<E>,
    send: Sending,
) -> Tried<Sending>
    ensures { TriesSend E.fixed send (E.seen endpoint.old) (E.seen endpoint.new) result }
{
    let Sending {
        dest,
        tag,
        buf,
        id,
        level,
    } = send;
    let Err(refused) = endpoint.tsend(dest, u64::from(tag), buf, None, id, at(level)) else {
        return Tried::Accepted;
    };
    let Refused { why, buf } = refused;
    match why {
        Fault::Again(_) => Tried::Later(Sending {
            dest,
            tag,
            buf,
            id,
            level,
        }),
        why => Tried::Never(Failed::with(fault_error(why), buf)),
    }
}

/// One try at a receive.
pub(crate) fn try_receive<E: Calls + Drop>(
    endpoint: &mut EndpointOver<E>,
    receive: Receiving,
) -> Tried<Receiving>
    ensures { TriesReceive receive (E.seen endpoint.old) (E.seen endpoint.new) result }
{
    let Receiving {
        source,
        tag,
        buf,
        id,
    } = receive;
    let (bits, ignore) = wanted(tag);
    let Err(refused) = endpoint.trecv(source, bits, ignore, buf, id) else {
        return Tried::Accepted;
    };
    let Refused { why, buf } = refused;
    match why {
        Fault::Again(_) => Tried::Later(Receiving {
            source,
            tag,
            buf,
            id,
        }),
        why => Tried::Never(Failed::with(fault_error(why), buf)),
    }
}

/// Puts a send behind the others.
fn wait_to_send(begun: &mut Begun, send: Sending) -> Result<(), Failed>
    ensures ok { OnOk result (begun.new.sends.items ≡ begun.old.sends.items ++ send ∷ []) }
    ensures err { OnErr result (begun.new.sends.items ≡ begun.old.sends.items) }
    ensures back { IfErr result (λ failed. failed.buf ≡ Some send.buf) }
    ensures others { (begun.new.receives ≡ begun.old.receives) × (begun.new.ended ≡ begun.old.ended) × (begun.new.last ≡ begun.old.last) }
{
    match begun.sends.push_back(send) {
        Ok(()) => Ok(()),
        Err(back) => Err(Failed::with(Error::NoMem, back.value.buf)),
    }
}

/// Puts a receive behind the others.
fn wait_to_receive(begun: &mut Begun, receive: Receiving) -> Result<(), Failed>
    ensures ok { OnOk result (begun.new.receives.items ≡ begun.old.receives.items ++ receive ∷ []) }
    ensures err { OnErr result (begun.new.receives.items ≡ begun.old.receives.items) }
    ensures back { IfErr result (λ failed. failed.buf ≡ Some receive.buf) }
    ensures others { (begun.new.sends ≡ begun.old.sends) × (begun.new.ended ≡ begun.old.ended) × (begun.new.last ≡ begun.old.last) }
{
    match begun.receives.push_back(receive) {
        Ok(()) => Ok(()),
        Err(back) => Err(Failed::with(Error::NoMem, back.value.buf)),
    }
}

/// Begins a send: it is accepted, or waits behind all earlier ones.
pub(crate) fn begin_send<E: Calls + Drop>(
    endpoint: &mut EndpointOver<E>,
    begun: &mut Begun,
    send: Sending,
) -> Result<(), Failed>
    ensures ok { OnOk result (BeginsSend E.fixed send begun.old.sends.items begun.new.sends.items (E.seen endpoint.old) (E.seen endpoint.new)) }
    ensures err { OnErr result (begun.new.sends.items ≡ begun.old.sends.items) }
    ensures back { IfErr result (λ failed. failed.buf ≡ Some send.buf) }
    ensures others { (begun.new.receives ≡ begun.old.receives) × (begun.new.ended ≡ begun.old.ended) × (begun.new.last ≡ begun.old.last) }
{
    if !begun.sends.is_empty() {
        return wait_to_send(begun, send);
    }
    match try_send(endpoint, send) {
        Tried::Accepted => Ok(()),
        Tried::Later(send) => wait_to_send(begun, send),
        Tried::Never(failed) => Err(failed),
    }
}

/// Begins a receive: it is accepted, or waits behind all earlier ones.
pub(crate) fn begin_receive<E: Calls + Drop>(
    endpoint: &mut EndpointOver<E>,
    begun: &mut Begun,
    receive: Receiving,
) -> Result<(), Failed>
    ensures ok { OnOk result (BeginsReceive receive begun.old.receives.items begun.new.receives.items (E.seen endpoint.old) (E.seen endpoint.new)) }
    ensures err { OnErr result (begun.new.receives.items ≡ begun.old.receives.items) }
    ensures back { IfErr result (λ failed. failed.buf ≡ Some receive.buf) }
    ensures others { (begun.new.sends ≡ begun.old.sends) × (begun.new.ended ≡ begun.old.ended) × (begun.new.last ≡ begun.old.last) }
{
    if !begun.receives.is_empty() {
        return wait_to_receive(begun, receive);
    }
    match try_receive(endpoint, receive) {
        Tried::Accepted => Ok(()),
        Tried::Later(receive) => wait_to_receive(begun, receive),
        Tried::Never(failed) => Err(failed),
    }
}

/// What came of the first send: one that is refused for now is the first again, and one that is refused for good has ended. Whether the
/// one behind it may be tried.
fn put_send(begun: &mut Begun, id: u64, tried: Tried<Sending>) -> bool
    requires place { deque_len begun.old.sends < deque_capacity begun.old.sends }
    requires room { vec_len begun.old.ended < vec_capacity begun.old.ended }
    ensures sends { begun.new.sends.items ≡ left_of tried begun.old.sends.items }
    ensures receives { begun.new.receives ≡ begun.old.receives }
    ensures ended { begun.new.ended.items ≡ begun.old.ended.items ++ never_of id tried }
{
    match tried {
        Tried::Accepted => true,
        Tried::Later(send) => {
            begun.sends.push_front_reserved(send);
            false
        }
        Tried::Never(failed) => {
            begun.ended.push_reserved(Ended {
                id,
                end: Err(failed),
            });
            true
        }
    }
}

/// Makes the first send that waits, if one does. Whether the one behind it may be tried: not behind one that is refused for now.
fn post_send<E: Calls + Drop>(
    endpoint: &mut EndpointOver<E>,
    begun: &mut Begun,
) -> Result<bool, Error>
    ensures goes { Goes E.fixed (rank_of (E.seen endpoint.old) begun.old) (rank_of (E.seen endpoint.new) begun.new) }
    ensures err { IfErr result (λ why. why ≡ Error.NoMem) }
    ensures full { OnErr result (IsFull begun.new) }
{
    begun.ended.reserve(1)?;
    let Some(send) = begun.sends.pop_front() else {
        return Ok(false);
    };
    let id = send.id;
    let tried = try_send(endpoint, send);
    Ok(put_send(begun, id, tried))
}

/// Makes the sends that wait, in order, up to one that is refused for now.
pub(crate) fn post_sends<E: Calls + Drop>(
    endpoint: &mut EndpointOver<E>,
    begun: &mut Begun,
) -> Result<(), Error>
    ensures goes { Goes E.fixed (rank_of (E.seen endpoint.old) begun.old) (rank_of (E.seen endpoint.new) begun.new) }
    ensures err { IfErr result (λ why. why ≡ Error.NoMem) }
    ensures full { OnErr result (IsFull begun.new) }
{
    'sends: for _send in 0..begun.sends.len() {
        if !post_send(endpoint, begun)? {
            return Ok(());
        }
    }
    Ok(())
}

/// What came of the first receive, as of the first send.
fn put_receive(begun: &mut Begun, id: u64, tried: Tried<Receiving>) -> bool
    requires place { deque_len begun.old.receives < deque_capacity begun.old.receives }
    requires room { vec_len begun.old.ended < vec_capacity begun.old.ended }
    ensures sends { begun.new.sends ≡ begun.old.sends }
    ensures receives { begun.new.receives.items ≡ left_of tried begun.old.receives.items }
    ensures ended { begun.new.ended.items ≡ begun.old.ended.items ++ never_of id tried }
{
    match tried {
        Tried::Accepted => true,
        Tried::Later(receive) => {
            begun.receives.push_front_reserved(receive);
            false
        }
        Tried::Never(failed) => {
            begun.ended.push_reserved(Ended {
                id,
                end: Err(failed),
            });
            true
        }
    }
}

/// Makes the first receive that waits, if one does. Whether the one behind it may be tried so.
fn post_receive<E: Calls + Drop>(
    endpoint: &mut EndpointOver<E>,
    begun: &mut Begun,
) -> Result<bool, Error>
    ensures goes { Goes E.fixed (rank_of (E.seen endpoint.old) begun.old) (rank_of (E.seen endpoint.new) begun.new) }
    ensures err { IfErr result (λ why. why ≡ Error.NoMem) }
    ensures full { OnErr result (IsFull begun.new) }
{
    begun.ended.reserve(1)?;
    let Some(receive) = begun.receives.pop_front() else {
        return Ok(false);
    };
    let id = receive.id;
    let tried = try_receive(endpoint, receive);
    Ok(put_receive(begun, id, tried))
}

/// Makes the receives that wait, in order, up to one that is refused for now.
fn post_first_receives<E: Calls + Drop>(
    endpoint: &mut EndpointOver<E>,
    begun: &mut Begun,
) -> Result<(), Error>
    ensures goes { Goes E.fixed (rank_of (E.seen endpoint.old) begun.old) (rank_of (E.seen endpoint.new) begun.new) }
    ensures err { IfErr result (λ why. why ≡ Error.NoMem) }
    ensures full { OnErr result (IsFull begun.new) }
{
    'receives: for _receive in 0..begun.receives.len() {
        if !post_receive(endpoint, begun)? {
            return Ok(());
        }
    }
    Ok(())
}

/// What came of a receive in its turn: one that is refused for now goes behind all others.
fn put_behind(begun: &mut Begun, id: u64, tried: Tried<Receiving>)
    requires place { deque_len begun.old.receives < deque_capacity begun.old.receives }
    requires room { vec_len begun.old.ended < vec_capacity begun.old.ended }
    ensures sends { begun.new.sends ≡ begun.old.sends }
    ensures receives { begun.new.receives.items ≡ begun.old.receives.items ++ left_of tried [] }
    ensures ended { begun.new.ended.items ≡ begun.old.ended.items ++ never_of id tried }
    ensures rooms { (vec_len begun.new.ended ≤ vec_len begun.old.ended + 1) × (vec_capacity begun.new.ended ≡ vec_capacity begun.old.ended) }
{
    match tried {
        Tried::Accepted => {}
        Tried::Later(receive) => begun.receives.push_back_reserved(receive),
        Tried::Never(failed) => begun.ended.push_reserved(Ended {
            id,
            end: Err(failed),
        }),
    }
}

/// Makes the receive that is first in the queue, where there is one, and puts it behind the others where it is refused for now.
fn post_next<E: Calls + Drop>(endpoint: &mut EndpointOver<E>, begun: &mut Begun)
    requires room { vec_len begun.old.ended < vec_capacity begun.old.ended }
    ensures turn { TakesTurn (rank_of (E.seen endpoint.old) begun.old) (rank_of (E.seen endpoint.new) begun.new) }
    ensures rooms { (vec_len begun.new.ended ≤ vec_len begun.old.ended + 1) × (vec_capacity begun.new.ended ≡ vec_capacity begun.old.ended) }
{
    let Some(receive) = begun.receives.pop_front() else {
        return;
    };
    let id = receive.id;
    let tried = try_receive(endpoint, receive);
    put_behind(begun, id, tried);
}

/// Makes each receive that waits, in order. Those that are refused for now go on waiting, in order.
fn post_each_receive<E: Calls + Drop>(endpoint: &mut EndpointOver<E>, begun: &mut Begun)
    requires room { vec_len begun.old.ended + deque_len begun.old.receives ≤ vec_capacity begun.old.ended }
    ensures { PostsEach (rank_of (E.seen endpoint.old) begun.old) (rank_of (E.seen endpoint.new) begun.new) }
{
    'receives: for _receive in 0..begun.receives.len() {
        post_next(endpoint, begun);
    }
}

/// Whether a message came, of any rank and any tag of MPI, that no receive took. None is told where the endpoint was not opened for tagged
/// messages.
fn has_message<E: Calls + Drop>(endpoint: &EndpointOver<E>) -> bool
    ensures no { result ≡ false → HasNoMessage (E.seen endpoint.now) }
{
    let (bits, ignore) = wanted(ANY_TAG);
    match endpoint.probe(ANY_SOURCE, bits, ignore) {
        Ok(met) => met.is_some(),
        Err(_) => false,
    }
}

/// Whether receives behind one that is refused for now may take a message: some wait, and one came.
fn may_take<E: Calls + Drop>(endpoint: &EndpointOver<E>, begun: &Begun) -> bool
    ensures no { result ≡ false → (begun.now.receives.items ≡ []) ⊎ HasNoMessage (E.seen endpoint.now) }
{
    match begun.receives.front() {
        Some(_) => has_message(endpoint),
        None => false,
    }
}

/// Posts receives that wait: the first ones, and of those behind one that is refused for now each that takes a message which
/// came. Where none came there is nothing for these.
pub(crate) fn post_receives<E: Calls + Drop>(
    endpoint: &mut EndpointOver<E>,
    begun: &mut Begun,
) -> Result<(), Error>
    ensures goes { Goes E.fixed (rank_of (E.seen endpoint.old) begun.old) (rank_of (E.seen endpoint.new) begun.new) }
    ensures all { OnOk result (PostsAll E.fixed (rank_of (E.seen endpoint.old) begun.old) (rank_of (E.seen endpoint.new) begun.new)) }
    ensures err { IfErr result (λ why. why ≡ Error.NoMem) }
    ensures full { OnErr result (IsFull begun.new) }
{
    post_first_receives(endpoint, begun)?;
    if !may_take(endpoint, begun) {
        return Ok(());
    }
    begun.ended.reserve(begun.receives.len())?;
    post_each_receive(endpoint, begun);
    Ok(())
}
