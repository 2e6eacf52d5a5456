//! An application's part of a program, at an example: a thread's record goes on with the calls of `fab_app`, too.
ghost use Rattle.std.specs.Prelude.{Ok, IfOk, IfErr, OnErr};
ghost use Rattle.fab_doings.specs.Recording.{AreRecordedSome, IsRecorded, exchanged};
ghost use Rattle.fab_doings.specs.Talking.{Talks, TalksNot, talked};

use fab_app::completions::Polled;
use fab_app::endpoint::{Calls, Endpoint};
use fab_app::messages::COMPLETES;
use fab_base::{Buf, Fault};

/// Asks for a message of the other peer with this tag, sends it one, and waits for a completion, at most so many times.
pub fn talk<E: Calls + Drop>(
    endpoint: &mut Endpoint<E>,
    other: u32,
    tag: u64,
    room: Buf,
    bytes: Buf,
    times: u32,
) -> Result<Polled, Fault>
    ensures ok { IfOk result (λ polled. Talks E.fixed other tag room bytes (E.seen endpoint.old) (E.seen endpoint.new) (Ok polled)) }
    ensures err { IfErr result (λ why. TalksNot E.fixed other tag room bytes (E.seen endpoint.old) (E.seen endpoint.new) why) }
    ensures recorded { IfOk result (λ polled. IsRecorded (E.seen endpoint.old) (E.seen endpoint.new) (talked other tag room bytes polled)) }
    ensures some_recorded { OnErr result (AreRecordedSome (E.seen endpoint.old) (E.seen endpoint.new) (exchanged other tag room bytes)) }
{
    if let Err(refused) = endpoint.trecv(Some(other), tag, 0, room, tag) {
        return Err(refused.why);
    }
    if let Err(refused) = endpoint.tsend(other, tag, bytes, None, tag, COMPLETES) {
        return Err(refused.why);
    }
    match endpoint.wait(times) {
        Ok(polled) => Ok(polled),
        Err(_) => Err(Fault::NoMemory),
    }
}
