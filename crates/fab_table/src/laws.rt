//! What the table's rule comes to, as the contract of a function that does nothing.
ghost use Rattle.std.specs.Prelude.{◌≡◌, ℕ, ◌+◌, ◌*◌, ◌<◌, ◌≤◌, ◌⊎◌, true, None, Some};
ghost use mathlib.Core.Option.{some};
ghost use lib.ListN.{get_elem?};
ghost use Rattle.atomic_table.specs.Table.{State};
ghost use Rattle.fab_table.specs.declared.kinds.Layout.{Layout};
ghost use Rattle.fab_table.specs.declared.kinds.Sent.{Sent};
ghost use Rattle.fab_table.specs.declared.kinds.Slot.{Slot};
ghost use Rattle.fab_table.specs.declared.kinds.View.{View};
ghost use Rattle.fab_table.specs.Views.{frames_of, out_at, in_at, part_at};
ghost use Rattle.fab_link.specs.Frames.{IsLane};
ghost use Rattle.fab_table.specs.Rule.{CellAt, Owes, Place, Ruled, SaidAt};
ghost use Rattle.fab_table.specs.Moments.{put, got, cell, IsNumbered, IsPartAt, IsTold, Owns, SlotStands, InStep, FirstOf};

/// What holds of the table between any two steps, whichever peers make them.
///
/// A lane has at most `room` frames inside: those posted and not taken. Each of them stands in its
/// cell with what its sender wrote, but for the oldest, which may be open in its receiver's hand. Each
/// other cell has some command and is at home, but for that of the next frame, which may be in its
/// sender's hand. The frames of a lane are cut as items are cut.
///
/// A pool slot is in just one of four places. Whoever has it, a sender that claimed it or a frame that was
/// posted, has it alone, until the receiver frees it: no slot is given again while it is held, and none
/// stays with a frame that was taken.
///
/// What a peer knows of its lanes is so: it knows all frames that it posted, and all that it took; and
/// the frames that one peer took of another are the first of those that the other posted to it. The
/// frames that a peer posts are numbered, and the numbers rise.
///
/// No reply is stray on a lane: no peer began more replies to another, to any operation, than it took
/// whole items of that operation of it that owe one. `law_no_stray` of `fab_laws` is the law over
/// replays: there a reply finds its operation, which awaits it.
pub fn law_lane_rule()
    ensures counts { (k : Layout) (t : State Slot View) → Ruled k t → (l : ℕ) → l < k.peers * k.peers
        → (got t l ≤ put t l) × (put t l ≤ got t l + k.room) }
    ensures inside { (k : Layout) (t : State Slot View) (r : Ruled k t) (l j : ℕ) (x : Sent) → l < k.peers * k.peers → got t l ≤ j
        → get_elem? (r.lane l).posted j ≡ some x
        → ((j ≡ got t l) × ((r.lane l).opened ≡ Some x)) ⊎ SaidAt x (cell k t l j) }
    ensures outside { (k : Layout) (t : State Slot View) (r : Ruled k t) (l j : ℕ) → l < k.peers * k.peers → put t l ≤ j → j < got t l + k.room
        → ((j ≡ put t l) × ((r.lane l).writing ≡ true)) ⊎ CellAt (cell k t l j) }
    ensures cut { (k : Layout) (t : State Slot View) (r : Ruled k t) (l : ℕ) → l < k.peers * k.peers → IsLane None (frames_of (r.lane l).posted) }
    ensures slots { (k : Layout) (t : State Slot View) (r : Ruled k t) (q : ℕ) → q < k.peers * k.pool → SlotStands k t r.lane q (r.place q) }
    ensures owned { (k : Layout) (t : State Slot View) (r : Ruled k t) (q : ℕ) (p : Place) → Owns k t r.lane q p → (q < k.peers * k.pool) × (r.place q ≡ p) }
    ensures one_owner { (k : Layout) (t : State Slot View) (r : Ruled k t) (q : ℕ) (a b : Place) → Owns k t r.lane q a → Owns k t r.lane q b → a ≡ b }
    ensures known { (k : Layout) (t : State Slot View) → Ruled k t → (j i : ℕ) (v : View) → IsPartAt t j i v
        → (e : ℕ) → e < k.peers → InStep k t (part_at v i) e }
    ensures told { (k : Layout) (t : State Slot View) (r : Ruled k t) (j i : ℕ) (v : View) → IsPartAt t j i v
        → (e : ℕ) → e < k.peers → IsTold k t r.lane (part_at v i) e }
    ensures numbered { (k : Layout) (t : State Slot View) → Ruled k t → (j i : ℕ) (v : View) → IsPartAt t j i v → IsNumbered k (part_at v i) }
    ensures taken { (k : Layout) (t : State Slot View) → Ruled k t → (j i j' i' : ℕ) (v v' : View) → IsPartAt t j i v → IsPartAt t j' i' v'
        → FirstOf (part_at v i) (part_at v' i') }
    ensures repaid { (k : Layout) (t : State Slot View) → Ruled k t → (j i : ℕ) (v : View) → IsPartAt t j i v
        → (d op : ℕ) → Owes (out_at (part_at v i) d) (in_at (part_at v i) d) op 0 }
{}
