//! Messages that go out: their sizes, and the items that they make (fi_msg(3), fi_tagged(3)).
ghost use Rattle.std.specs.Prelude.{◌≡◌, ◌<◌, ◌^◌, true, false, length, List, ℕ};
ghost use Rattle.fab_model.specs.State.{State};
ghost use Rattle.fab_model.specs.Sending.{ack_of, head_of, is_silent};
ghost use Rattle.fab_face.specs.Machine.{kind_of};
ghost use Rattle.fab_settling.specs.Orders.{most_of, order_of};

use fab_base::{Ack, INJECT_BYTES, ItemHead, Kind, Level, Outcome};
use fab_face::machine::Message;

fn kind_of(tagged: bool) -> Kind
    ensures { result ≡ kind_of tagged }
{
    if tagged { Kind::TagMsg } else { Kind::Msg }
}

/// When the target owes a reply to a message of this level.
fn ack_of(level: Level) -> Ack
    ensures msg { result ≡ ack_of (kind_of false) level }
    ensures tagged { result ≡ ack_of (kind_of true) level }
{
    match level {
        Level::Inject | Level::Transmit => Ack::Nothing,
        Level::Delivery => Ack::Delivery,
        Level::Match => Ack::Match,
    }
}

/// The most bytes of this message, where one may have so many.
pub fn most_of_message(message: &Message, most: u32) -> usize
    ensures { result ≡ most_of most message.now }
{
    if message.ctx.is_none() {
        INJECT_BYTES as usize
    } else {
        most as usize
    }
}

/// How many bytes a message has.
pub fn len_of(bytes: &[u8]) -> u32
    requires { length bytes.now < 2 ^ 32 }
    ensures { result ≡ length bytes.now }
{
    bytes.len() as u32
}

/// The head of the item that a message makes, as the operation of this number.
pub fn message_head(message: &Message, op: u64, total: u32) -> ItemHead
    ensures { (bytes : List ℕ) → length bytes ≡ total → result ≡ head_of op (order_of message.now bytes) }
{
    ItemHead {
        kind: kind_of(message.tagged),
        op,
        tag: message.tag,
        imm: message.imm,
        ack: ack_of(message.flags.level),
        key: 0,
        at: 0,
        count: 0,
        atom: None,
        outcome: Outcome::Done,
        total,
    }
}

/// Whether no completion is written when the message succeeds, where completions are selective or not
/// (FI_SELECTIVE_COMPLETION of fi_endpoint(3)).
pub fn is_silent(message: &Message, selective: bool) -> bool
    ensures { (s : State) (bytes : List ℕ) → s.selective ≡ selective → result ≡ is_silent s (order_of message.now bytes) }
{
    message.ctx.is_none() || (selective && !message.flags.completion)
}
