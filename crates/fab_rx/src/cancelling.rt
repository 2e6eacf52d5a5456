//! Which posted receive a cancel takes out: the first, in the order posted, that it means and to which
//! nothing is under way.
ghost use Rattle.std.specs.Prelude.{◌≡◌, find};
ghost use Rattle.std.specs.List.{list_any};
ghost use Rattle.fab_match.specs.Matcher.{ids};
ghost use Rattle.fab_rx.specs.Table.{at};
ghost use Rattle.fab_rx.specs.Homes.{is_fed_by};
ghost use Rattle.fab_rx.specs.Leaving.{is_meant_at, may_leave_at};

use crate::stored::{Begun, Waiting};
use crate::table::Table;
use fab_match::{IdTest, Matcher};

/// Whether the receive under an id has this context, where one is named.
fn is_meant(seats: &Table<Waiting>, id: u32, ctx: Option<u64>) -> bool
    ensures { result ≡ is_meant_at ctx (at seats.now id) }
{
    let Some(waiting) = seats.get(id) else {
        return false;
    };
    match ctx {
        None => true,
        Some(ctx) => waiting.seat.ctx == ctx,
    }
}

fn is_part(begun: &Option<Begun>, id: u32) -> bool
    ensures { result ≡ is_fed_by id begun.now }
{
    match begun {
        None => false,
        Some(begun) => begun.is_part_of(id),
    }
}

/// Whether an item is under way to the multi-receive under an id.
pub fn is_fed(coming: &[Option<Begun>], id: u32) -> bool
    ensures { result ≡ list_any (is_fed_by id) coming.now }
{
    coming.iter().any(|begun| is_part(begun, id))
}

/// A receive passes that has this context, where one is named, and to which nothing is under way.
#[derive(Drop)]
struct MayLeave<'a> {
    seats: &'a Table<Waiting>,
    coming: &'a [Option<Begun>],
    ctx: Option<u64>,
}

impl<'a> IdTest for MayLeave<'a> {
    ghost passes = { λ test id. may_leave_at test.ctx test.seats.now test.coming.now id };

    fn passes(&self, id: u32) -> bool {
        is_meant(self.seats, id, self.ctx) && !is_fed(self.coming, id)
    }
}

/// The first id, in the order posted, whose receive has this context, where one is named, and to which
/// nothing is under way.
pub fn first_meant<M: Matcher>(
    matcher: &M,
    seats: &Table<Waiting>,
    coming: &[Option<Begun>],
    ctx: Option<u64>,
) -> Option<u32>
    ensures { result ≡ find (may_leave_at ctx seats.now coming.now) (ids (M.posted matcher.now)) }
{
    matcher.first_where(&MayLeave { seats, coming, ctx })
}
