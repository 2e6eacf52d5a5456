//! What holds of the definitions, each law as the contract of a function that does nothing.
ghost use Rattle.std.specs.Prelude.{◌≡◌, ℕ, ◌++◌, ◌∷◌, [], List, All, None, IsTrue, slice_index_or, Option};
ghost use mathlib.Core.List.{IsPrefix};
ghost use Rattle.fab_base.specs.declared.frames.Frame.{Frame};
ghost use Rattle.fab_base.specs.declared.frames.FrameHead.{FrameHead};
ghost use Rattle.fab_base.specs.declared.items.Item.{Item};
ghost use Rattle.fab_link.specs.declared.moves.Move.{Move};
ghost use Rattle.fab_link.specs.Cut.{cut_all, IsBetweenItems, IsItem};
ghost use Rattle.fab_link.specs.Frames.{IsLane, IsSound};
ghost use Rattle.fab_link.specs.Joined.{joined, AreFirst, Tells};
ghost use Rattle.fab_link.specs.Merged.{IsStamped, posts_to, takes_of, merges};

/// Joining what was cut gives the items.
pub fn law_cut_joins()
    ensures { (items : List Item) → All IsItem items
        → joined (cut_all items) ≡ record { whole = items; unfinished = None } }
{}

/// The first frames of what was cut join to the first of the items, with at most one unfinished.
pub fn law_prefix_joins()
    ensures { (items : List Item) → All IsItem items
        → (frames : List Frame) → IsPrefix frames (cut_all items) → AreFirst (joined frames) items }
{}

/// The head of a frame alone tells whether it is all of its item, or its first, a middle or its
/// last frame.
pub fn law_heads_tell()
    ensures { (frames : List Frame) (f : Frame) → IsLane None (frames ++ f ∷ [])
        → Tells f.head (joined frames) (joined (frames ++ f ∷ [])) }
{}

/// The frames of sound items follow one another, behind a lane that ends with a whole item.
pub fn law_cut_is_lane()
    ensures { (before : Option FrameHead) → IsBetweenItems before
        → (items : List Item) → All IsItem items → All (λ item. IsSound item.head) items
        → IsLane before (cut_all items) }
{}

/// Posts and takes merge, where every peer's list of them is stamped and, for each pair, the numbers
/// taken are the first of those posted. For a take that does not stand waits for a post whose peer
/// has a next take with a smaller number, and this cannot go on for ever.
pub fn law_stamped()
    ensures { (moves : List (List Move)) → All IsStamped moves
        → ((s d : ℕ) → IsPrefix (takes_of s (slice_index_or moves d [])) (posts_to d (slice_index_or moves s [])))
        → IsTrue (merges moves) }
{}
