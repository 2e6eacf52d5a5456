//! Messages as they are sent, and their frames as they come.
ghost use Rattle.std.specs.Prelude.{◌≡◌};
ghost use Rattle.fab_open_tests.specs.Came.{Keeps, message_head};

use fab_base::{Ack, Fault, Flags, ItemHead, Kind, Level, Outcome};
use fab_face::calls::Progress;

/// How many bytes a message of two frames has.
pub const LEN: u32 = 5000;

pub const COMPLETES: Flags = Flags {
    completion: true,
    level: Level::Transmit,
    fence: false,
};

/// The head of a message without remote data, which asks for no answer.
pub fn message(kind: Kind, tag: u64, total: u32) -> ItemHead
    ensures { result ≡ message_head kind tag total }
{
    ItemHead {
        kind,
        op: 0,
        tag,
        imm: None,
        ack: Ack::Nothing,
        key: 0,
        at: 0,
        count: 0,
        atom: None,
        outcome: Outcome::Done,
        total,
    }
}

/// Whether progress takes one frame, and posts none.
#[tactic(auto, using(crate::proofs::Keeping::keeps_progressed))]
pub fn takes_frame<E: Progress>(endpoint: &mut E) -> bool
    ensures { Keeps (E.seen endpoint.old) (E.seen endpoint.new) }
{
    match endpoint.progress(8) {
        Ok(moved) => moved.taken == 1 && moved.posted == 0,
        Err(_) => false,
    }
}

/// Whether nothing is complete.
#[tactic(auto, using(crate::proofs::Keeping::keeps_reading))]
pub fn reads_nothing<E: Progress>(endpoint: &mut E) -> bool
    ensures { Keeps (E.seen endpoint.old) (E.seen endpoint.new) }
{
    match endpoint.cq_read(8) {
        Err(Fault::NoEntry) => true,
        _ => false,
    }
}
