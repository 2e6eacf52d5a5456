//! A thread's part of a program, at two examples: its record goes on with the calls that it made, as the contracts of these say.
ghost use Rattle.std.specs.Prelude.{Ok, IfOk, IfErr, OnOk};
ghost use Rattle.fab_doings.specs.Recording.{AreRecordedSome, Exchanges, ExchangesNot, IsRecorded, asked_both, exchanged};
ghost use Rattle.fab_doings.specs.declared.thread.TheConstants.{BUDGET};

use fab_base::{Buf, Fault, Flags, Level};
use fab_face::calls::{Messages, Progress, Receives};
use fab_face::events::Moved;

/// So many frames are moved at most.
const BUDGET: u32 = 16;

/// Asks for a message of the other peer with this tag, sends it one, and makes progress.
pub fn exchange<E: Messages + Receives + Progress>(
    endpoint: &mut E,
    other: u32,
    tag: u64,
    room: Buf,
    bytes: Buf,
) -> Result<Moved, Fault>
    ensures ok { IfOk result (λ moved. Exchanges E.fixed other tag room bytes BUDGET (E.seen endpoint.old) (E.seen endpoint.new) (Ok moved)) }
    ensures err { IfErr result (λ why. ExchangesNot E.fixed other tag room bytes BUDGET (E.seen endpoint.old) (E.seen endpoint.new) why) }
    ensures recorded { OnOk result (IsRecorded (E.seen endpoint.old) (E.seen endpoint.new) (exchanged other tag room bytes)) }
    ensures some_recorded { AreRecordedSome (E.seen endpoint.old) (E.seen endpoint.new) (exchanged other tag room bytes) }
{
    if let Err(refused) = endpoint.trecv(Some(other), tag, 0, room, tag) {
        return Err(refused.why);
    }
    let flags = Flags {
        completion: true,
        level: Level::Transmit,
        fence: false,
    };
    if let Err(refused) = endpoint.tsend(other, tag, bytes, None, tag, flags) {
        return Err(refused.why);
    }
    match endpoint.progress(BUDGET) {
        Ok(moved) => Ok(moved),
        Err(_) => Err(Fault::NoMemory),
    }
}

/// Asks for two messages of the other peer, the first under the one tag, the second under the other.
pub fn ask_both<E: Receives>(
    endpoint: &mut E,
    other: u32,
    tags: (u64, u64),
    rooms: (Buf, Buf),
) -> Result<(), Fault>
    ensures recorded { OnOk result (IsRecorded (E.seen endpoint.old) (E.seen endpoint.new) (asked_both other tags.0 tags.1 rooms.0 rooms.1)) }
    ensures some_recorded { AreRecordedSome (E.seen endpoint.old) (E.seen endpoint.new) (asked_both other tags.0 tags.1 rooms.0 rooms.1) }
{
    let (first, second) = tags;
    let (room, other_room) = rooms;
    if let Err(refused) = endpoint.trecv(Some(other), first, 0, room, first) {
        return Err(refused.why);
    }
    match endpoint.trecv(Some(other), second, 0, other_room, second) {
        Ok(()) => Ok(()),
        Err(refused) => Err(refused.why),
    }
}
