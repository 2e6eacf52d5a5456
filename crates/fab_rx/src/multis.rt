//! Multi-receives (FI_MULTI_RECV of fi_msg(3)): one buffer for many messages, one behind the other.
//!
//! A message under way to one gathers in a buffer of its own, and comes into the multi-receive's once it is
//! whole: so what is lent of that buffer does not change under a message that is not.
ghost use Rattle.std.specs.Prelude.{◌≡◌, ◌+◌, ◌-◌, ◌<◌, ◌≤◌, ◌==◌, ◌++◌, ◌∷◌, ℕ, List, [], true, false, None, Some, IsSome, IsSomeAnd, IfSome, OnSome, cond, length, is_some, position, slice_set, vec_capacity, vec_len};
ghost use Rattle.std.specs.Option.{option_map};
ghost use Rattle.fab_base.specs.declared.operations.Receive.{Receive};
ghost use Rattle.fab_match.specs.Matcher.{has_id, without};
ghost use Rattle.fab_rx.specs.declared.stored.Waiting.{Waiting};
ghost use Rattle.fab_rx.specs.Table.{at};
ghost use Rattle.fab_rx.specs.Sharing.{IsUsable, is_closed, is_over, is_spent, kept_or, left_by, multi_at, multi_in, placed_in, released_of, taken_in, used_in, used_up_by};
ghost use Rattle.fab_rx.specs.Results.{completed};

use crate::cancelling::is_fed;
use crate::filling::{placed, tag_of};
use crate::results::{Completed, Released};
use crate::stored::{Begun, Multi, Seat, Waiting};
use crate::table::Table;
use fab_base::{Entry, ErrEntry, ErrKind, ItemHead, Taken};
use fab_match::Matcher;

impl Waiting {
    /// So many more bytes are given away, as far as there are.
    fn used_up(self, total: u32) -> Waiting
        requires usable { IsUsable self }
        ensures { result ≡ used_up_by total self }
    {
        let Waiting { seat, multi } = self;
        let Some(multi) = multi else {
            return Waiting { seat, multi: None };
        };
        let free = seat.buf.as_slice().len() - multi.used as usize;
        let used = multi.used + (total as usize).min(free) as u32;
        Waiting {
            seat,
            multi: Some(Multi {
                want: multi.want,
                least: multi.least,
                used,
            }),
        }
    }

    /// Whether it has less free than it must have to stay posted.
    fn is_spent(&self) -> bool
        ensures { result ≡ is_spent self.now }
    {
        let Some(multi) = self.multi else {
            return false;
        };
        let free = self
            .seat
            .buf
            .as_slice()
            .len()
            .saturating_sub(multi.used as usize);
        free < multi.least as usize
    }

    /// Whether it has less free than it must have to stay posted, once so many more bytes are given away.
    fn leaves(&self, total: u32) -> bool
        requires usable { IsUsable self.now }
        ensures { result ≡ is_spent (used_up_by total self.now) }
    {
        let Some(multi) = self.multi else {
            return false;
        };
        let free = self.seat.buf.as_slice().len() - multi.used as usize;
        free - (total as usize).min(free) < multi.least as usize
    }

    /// The bytes come into its buffer from the place on, as many as fit.
    fn placed(self, start: u32, bytes: &[u8]) -> Waiting
        ensures { result ≡ placed_in start bytes.now self }
    {
        let Waiting { seat, multi } = self;
        let Seat { buf, ctx } = seat;
        Waiting {
            seat: Seat {
                buf: placed(buf, start as usize, bytes),
                ctx,
            },
            multi,
        }
    }
}

/// What the receive under an id has as a multi-receive.
pub fn multi_at(seats: &Table<Waiting>, id: u32) -> Option<Multi>
    ensures { result ≡ multi_at seats.now id }
{
    let Some(waiting) = seats.get(id) else {
        return None;
    };
    waiting.multi
}

impl Table<Waiting> {
    /// The multi-receive under an id gives so many more bytes away, as far as there are. Its context,
    /// where it must leave the posted receives.
    fn use_up(&mut self, id: u32, total: u32) -> Option<u64>
        requires usable { IsSomeAnd (at self.old id) IsUsable }
        ensures cells { self.new.cells ≡ slice_set self.old.cells id (option_map (used_up_by total) (at self.old id)) }
        ensures spare { self.new.spare ≡ self.old.spare }
        ensures left { result ≡ left_by total (at self.old id) }
    {
        let waiting = self.slab.remove(id as usize).used_up(total);
        let left = if waiting.is_spent() {
            Some(waiting.seat.ctx)
        } else {
            None
        };
        self.slab.insert_reserved(waiting);
        left
    }

    /// Bytes come into the buffer of the receive under an id, from the place on.
    pub fn place(&mut self, id: u32, start: u32, bytes: &[u8])
        requires { IsSome (at self.old id) }
        ensures cells { self.new.cells ≡ slice_set self.old.cells id (option_map (placed_in start bytes.now) (at self.old id)) }
        ensures spare { self.new.spare ≡ self.old.spare }
    {
        let waiting = self.slab.remove(id as usize);
        self.slab.insert_reserved(waiting.placed(start, bytes));
    }
}

/// The multi-receive under an id gives room to a message of this length. It leaves the posted receives,
/// for those that are closing, where too little is left.
pub fn give_room<M: Matcher>(
    matcher: &mut M,
    seats: &mut Table<Waiting>,
    closing: &mut Vec<(u32, u64)>,
    id: u32,
    total: u32,
)
    requires usable { IsSomeAnd (at seats.old id) IsUsable }
    requires room { is_some (left_by total (at seats.old id)) ≡ true → vec_len closing.old < vec_capacity closing.old }
    ensures cells { seats.new.cells ≡ slice_set seats.old.cells id (option_map (used_up_by total) (at seats.old id)) }
    ensures spare { seats.new.spare ≡ seats.old.spare }
    ensures posted { M.posted matcher.new ≡ kept_or (left_by total (at seats.old id)) (M.posted matcher.old) (without id (M.posted matcher.old)) }
    ensures gone { is_some (left_by total (at seats.old id)) ≡ true → has_id id (M.posted matcher.new) ≡ false }
    ensures unexpected { M.unexpected matcher.new ≡ M.unexpected matcher.old }
    ensures most { M.room matcher.new ≡ M.room matcher.old }
    ensures closing { (ctx : ℕ) → left_by total (at seats.old id) ≡ Some ctx → closing.new.items ≡ closing.old.items ++ (id, ctx) ∷ [] }
    ensures open { left_by total (at seats.old id) ≡ None → closing.new.items ≡ closing.old.items }
    ensures closable { vec_capacity closing.new ≡ vec_capacity closing.old }
{
    let Some(ctx) = seats.use_up(id, total) else {
        return;
    };
    matcher.remove_posted(id);
    closing.push_reserved((id, ctx));
}

/// The completion of a message in the multi-receive under an id, from the place on: a success, or
/// `Truncated` where it is longer than what was free (fi_cq(3)).
pub fn part(seats: &Table<Waiting>, id: u32, start: u32, source: u32, head: &ItemHead) -> Completed
    requires { IsSome (at seats.now id) }
    ensures { (w : Waiting) (r : Receive) (bytes : List ℕ) → at seats.now id ≡ Some w → is_some r.least ≡ true → w.seat.ctx ≡ r.ctx → length w.seat.buf ≡ length r.buf → result ≡ completed r start source head.now bytes }
{
    let Some(waiting) = seats.get(id) else {
        unreachable!()
    };
    let ctx = waiting.seat.ctx;
    let space = waiting
        .seat
        .buf
        .as_slice()
        .len()
        .saturating_sub(start as usize);
    if head.total as usize <= space {
        return Completed {
            entry: Taken::Success(Entry::Part {
                ctx,
                source,
                imm: head.imm,
                at: start,
                len: head.total,
            }),
            good: true,
            source,
            head: *head,
        };
    }
    let len = space as u32;
    Completed {
        entry: Taken::Failure(ErrEntry {
            ctx: Some(ctx),
            kind: ErrKind::Truncated,
            source: Some(source),
            tag: tag_of(head),
            imm: head.imm,
            at: Some(start),
            len,
            olen: head.total - len,
            buf: None,
        }),
        good: false,
        source,
        head: *head,
    }
}

/// Whether the multi-receive under an id is over once so many more bytes are given away: it must leave the
/// posted receives, and no item is under way to it.
pub fn closes(seats: &Table<Waiting>, coming: &[Option<Begun>], id: u32, total: u32) -> bool
    requires usable { IsSomeAnd (at seats.now id) IsUsable }
    ensures { result ≡ is_closed coming.now id total (at seats.now id) }
{
    let Some(waiting) = seats.get(id) else {
        unreachable!()
    };
    waiting.leaves(total) && !is_fed(coming, id)
}

/// The multi-receive under an id gets its last message, which is whole, and its buffer comes back.
pub fn close(seats: &mut Table<Waiting>, id: u32, total: u32, start: u32, bytes: &[u8]) -> Released
    requires usable { IsSomeAnd (at seats.old id) IsUsable }
    ensures buffer { Some result ≡ option_map (λ w. released_of id (taken_in total start bytes.now w)) (at seats.old id) }
    ensures cells { seats.new.cells ≡ slice_set seats.old.cells id None }
    ensures spare { seats.new.spare ≡ seats.old.spare + 1 }
{
    let Some(waiting) = seats.take(id) else {
        unreachable!()
    };
    let Waiting { seat, multi } = waiting.used_up(total).placed(start, bytes);
    Released {
        id,
        ctx: seat.ctx,
        used: given_away(multi),
        buf: seat.buf,
    }
}

fn given_away(multi: Option<Multi>) -> u32
    ensures { result ≡ used_in multi }
{
    match multi {
        Some(multi) => multi.used,
        None => 0,
    }
}

/// Whether the multi-receive under an id is closing.
pub fn is_closing(closing: &[(u32, u64)], id: u32) -> bool
    ensures { result ≡ has_id id closing.now }
{
    closing.iter().any(|closed| closed.0 == id)
}

fn place_of(closing: &[(u32, u64)], id: u32) -> Option<usize>
    ensures { result ≡ position (λ closed. closed.0 == id) closing.now }
{
    closing.iter().position(|closed| closed.0 == id)
}

/// The multi-receive under an id is over, where it is closing and no item is under way to it: its buffer
/// comes back.
pub fn release(
    seats: &mut Table<Waiting>,
    closing: &mut Vec<(u32, u64)>,
    coming: &[Option<Begun>],
    id: u32,
) -> Option<Released>
    requires there { has_id id closing.old.items ≡ true → IsSome (multi_at seats.old id) }
    ensures buffer { result ≡ cond (is_over coming.now closing.old.items id) (option_map (released_of id) (at seats.old id)) None }
    ensures cells { seats.new.cells ≡ cond (is_over coming.now closing.old.items id) (slice_set seats.old.cells id None) seats.old.cells }
    ensures spare { seats.new.spare ≡ cond (is_over coming.now closing.old.items id) (seats.old.spare + 1) (seats.old.spare) }
    ensures rest { closing.new.items ≡ cond (is_over coming.now closing.old.items id) (without id closing.old.items) closing.old.items }
    ensures closable { vec_capacity closing.new ≡ vec_capacity closing.old }
{
    if is_fed(coming, id) {
        return None;
    }
    let Some(place) = place_of(closing.as_slice(), id) else {
        return None;
    };
    closing.remove(place);
    let Some(Waiting { seat, multi }) = seats.take(id) else {
        unreachable!()
    };
    let Some(multi) = multi else { unreachable!() };
    Some(Released {
        id,
        ctx: seat.ctx,
        used: multi.used,
        buf: seat.buf,
    })
}
