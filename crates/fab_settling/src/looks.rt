//! Looks: what they do, tell and book (FI_PEEK, FI_CLAIM and FI_DISCARD of fi_tagged(3)).
ghost use Rattle.std.specs.Prelude.{◌≡◌, ◌<◌, length, slice_index, find, IfSome, true};
ghost use Rattle.std.specs.Option.{option_map};
ghost use Rattle.fab_base.specs.declared.entries.PeekHow.TheVariants.{Discard};
ghost use Rattle.fab_model.specs.Matching.{takes};
ghost use Rattle.fab_model.specs.Receiving.{is_claim};
ghost use Rattle.fab_rx.specs.Claims.{seen};
ghost use Rattle.fab_settling.specs.Looks.{is_due_now, looked, parted, parted_by, told};

use crate::handing::book;
use fab_base::{Entry, ErrEntry, ErrKind, PeekHow, Taken, Want};
use fab_match::Matcher;
use fab_rx::{Inbox, Seen};
use fab_tx::Outbox;
use std::alloc::Global;

/// The completion of a look, by the message that it met.
pub fn told(how: PeekHow, ctx: u64, met: &Option<Seen>) -> Taken
    ensures { result ≡ told how ctx met.now }
{
    match met {
        Some(met) => Taken::Success(Entry::Peeked {
            ctx,
            how,
            source: met.source,
            tag: met.head.tag,
            imm: met.head.imm,
            len: met.head.total,
        }),
        None => Taken::Failure(ErrEntry {
            ctx: Some(ctx),
            kind: ErrKind::NoMsg,
            source: None,
            tag: None,
            imm: None,
            at: None,
            len: 0,
            olen: 0,
            buf: None,
        }),
    }
}

pub fn is_claim(how: PeekHow) -> bool
    ensures { result ≡ is_claim how }
{
    match how {
        PeekHow::Claim => true,
        PeekHow::Peek | PeekHow::Discard => false,
    }
}

/// What a look does to the messages, and which one it met.
pub fn meet<M: Matcher>(rx: &mut Inbox<M>, how: PeekHow, want: &Want, ctx: u64) -> Option<Seen>
    ensures new { rx.new ≡ looked how want.now ctx rx.old }
    ensures met { result ≡ option_map seen (find (takes want.now) rx.old.rx.unexpected) }
{
    match how {
        PeekHow::Peek => rx.peek(want),
        PeekHow::Claim => rx.claim(want, ctx),
        PeekHow::Discard => rx.discard(want),
    }
}

/// Books the reply to a message that leaves, where it is whole and one is due at its match, in room that
/// was made for it.
pub fn part(alloc: Global, tx: &mut Outbox, met: &Option<Seen>)
    requires room { IfSome met.now (λ m. is_due_now m ≡ true → (m.source < length tx.old.tx.sent) × (0 < slice_index tx.old.rooms m.source)) }
    ensures { tx.new ≡ parted met.now tx.old }
{
    if let Some(met) = met {
        let due = met.whole && met.head.ack.at_match();
        book(alloc, tx, due, met.source, &met.head);
    }
}

/// The same after a look: a message leaves where it is discarded.
pub fn part_by(alloc: Global, tx: &mut Outbox, how: PeekHow, met: &Option<Seen>)
    requires room { how ≡ Discard → IfSome met.now (λ m. is_due_now m ≡ true → (m.source < length tx.old.tx.sent) × (0 < slice_index tx.old.rooms m.source)) }
    ensures { tx.new ≡ parted_by how met.now tx.old }
{
    match how {
        PeekHow::Peek | PeekHow::Claim => {}
        PeekHow::Discard => part(alloc, tx, met),
    }
}
