//! The table's rule, and what each kind of step tells (specs/Plays).
use crate::kinds::{Layout, Slot, View};
use atomic_table::{Join, Play, Split, TableRule};

/// What holds between any two steps (specs/Rule).
pub struct LaneRule;

impl TableRule<Slot, View, Layout> for LaneRule {
    ghost use Rattle.fab_table.specs.Rule.{Ruled};
    ghost use Rattle.fab_table.specs.Views.{everyone};

    ghost holds = { Ruled };

    ghost first = { λ k. everyone k.peers k.room k.pool };
}

/// The sender's look.
pub struct SeeGot;

impl Play<Slot, View> for SeeGot {
    ghost use Rattle.fab_table.specs.Plays.{saw_got};

    ghost then = { saw_got };
}

/// The sender's next cell comes into hand without a look at what was given back.
pub struct Reserves;

impl Play<Slot, View> for Reserves {
    ghost use Rattle.fab_table.specs.Plays.{reserves_cell};

    ghost then = { λ st m r n. reserves_cell st m n };
}

/// A frame is published.
pub struct Posts;

impl Play<Slot, View> for Posts {
    ghost use Rattle.fab_table.specs.Plays.{posts};

    ghost then = { λ st m r n. posts st m n };
}

/// The receiver's look.
pub struct SeePut;

impl Play<Slot, View> for SeePut {
    ghost use Rattle.fab_table.specs.Plays.{saw_put};

    ghost then = { saw_put };
}

/// A frame is finished.
pub struct Takes;

impl Play<Slot, View> for Takes {
    ghost use Rattle.fab_table.specs.Plays.{takes_frame};

    ghost then = { λ st m r n. takes_frame st m n };
}

/// A seat is split.
pub struct Cut;

impl Split<View> for Cut {
    ghost use Rattle.fab_table.specs.Views.{but_first, only_first};

    ghost left = { but_first };

    ghost right = { only_first };
}

/// Two seats are joined.
pub struct Whole;

impl Join<View> for Whole {
    ghost use Rattle.fab_table.specs.Views.{both, nobody};

    ghost both = { both };

    ghost spent = { nobody };
}

/// One try on a pool slot.
pub struct Claims;

impl Play<Slot, View> for Claims {
    ghost use Rattle.fab_table.specs.Plays.{claims};

    ghost then = { claims };
}

/// A frame is published whose bytes are in the slot in hand.
pub struct PostsPooled;

impl Play<Slot, View> for PostsPooled {
    ghost use Rattle.fab_table.specs.Plays.{posts_pooled};

    ghost then = { λ st m r n. posts_pooled st m n };
}

/// The sender's cell goes back, unused.
pub struct Leaves;

impl Play<Slot, View> for Leaves {
    ghost use Rattle.fab_table.specs.Plays.{leaves};

    ghost then = { λ st m r n. leaves st m n };
}

/// A pool slot is freed.
pub struct Frees;

impl Play<Slot, View> for Frees {
    ghost use Rattle.fab_table.specs.Plays.{frees_pool};

    ghost then = { λ st m r n. frees_pool st m n };
}

/// A look that tells what holds between the parts of one seat.
pub struct Learns;

impl Play<Slot, View> for Learns {
    ghost use Rattle.fab_table.specs.Plays.{learned};

    ghost then = { λ st m r n. learned m n };
}
