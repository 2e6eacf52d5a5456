//! The contract of a matching store.
ghost use Rattle.std.specs.Prelude.{◌≡◌, ◌<◌, ◌≤◌, ◌↔◌, ◌++◌, ◌∷◌, ℕ, Bool, [], List, false, length, find, IsTrue, IfOk, OnOk, OnErr};
ghost use Rattle.fab_base.specs.declared.items.Want.{Want};
ghost use Rattle.fab_base.specs.declared.items.Sign.{Sign};
ghost use Rattle.fab_match.specs.Signs.{fits};
ghost use Rattle.fab_match.specs.Matcher.{first_id, has_id, ids, without, HasDistinctIds};

use fab_base::{NoMemory, Sign, Want};
use std::alloc::Global;

/// A test of posted receives by their ids.
pub trait IdTest {
    // Which ids pass.
    ghost passes: { Self → ℕ → Bool };

    /// Whether the id passes.
    fn passes(&self, id: u32) -> bool
        ensures { result ≡ passes self.now id };
}

/// The receives that are posted, and the messages that arrived and that no receive took.
///
/// Each stands under an id that its owner gave it, two lists with ids of their own. The receives are
/// in the order posted, the messages in the order of arrival, and a look-up answers the first that
/// matches, as fi_tagged(3) and fi_msg(3) ask: a later receive never gets a message that an earlier
/// one may take, however exact its tag.
///
/// Only [`new`](Matcher::new) and [`add_unexpected`](Matcher::add_unexpected) take memory.
pub trait Matcher {
    // The receives, in the order posted.
    ghost posted: { Self → List (ℕ × Want) };

    // The messages that no receive took, in the order of arrival.
    ghost unexpected: { Self → List (ℕ × Sign) };

    // How many receives may be posted at once.
    ghost room: { Self → ℕ };

    /// An empty store with room for `rx` posted receives.
    fn new(alloc: Global, rx: u32) -> Result<Self, NoMemory>
        ensures posted { IfOk result (λ store. posted store ≡ []) }
        ensures unexpected { IfOk result (λ store. unexpected store ≡ []) }
        ensures room { IfOk result (λ store. room store ≡ rx) };

    /// The id of the first posted receive that may take a message with this sign.
    fn first_posted(&self, sign: &Sign) -> Option<u32>
        ensures first { result ≡ first_id (λ want. fits want sign.now) (posted self.now) }
        ensures distinct { HasDistinctIds (posted self.now) };

    /// The first id, in the order posted, that passes a test of its owner's.
    fn first_where<T: IdTest>(&self, test: &T) -> Option<u32>
        ensures { result ≡ find (T.passes test.now) (ids (posted self.now)) };

    /// The id of the first unexpected message that a receive that wants this may take.
    fn first_unexpected(&self, want: &Want) -> Option<u32>
        ensures first { result ≡ first_id (λ sign. fits want.now sign) (unexpected self.now) }
        ensures distinct { HasDistinctIds (unexpected self.now) };

    /// Whether as many receives are posted as there is room for.
    fn is_full(&self) -> bool
        ensures full { IsTrue result ↔ (length (posted self.now) ≡ room self.now) }
        ensures within { length (posted self.now) ≤ room self.now };

    /// Whether a posted receive has this id.
    fn has_posted(&self, id: u32) -> bool
        ensures { result ≡ has_id id (posted self.now) };

    /// Whether an unexpected message has this id.
    fn has_unexpected(&self, id: u32) -> bool
        ensures { result ≡ has_id id (unexpected self.now) };

    /// Posts a receive, behind all others. Its id must be new among the posted, and the store must
    /// not be full.
    fn add_posted(&mut self, id: u32, want: Want)
        requires new { has_id id (posted self.old) ≡ false }
        requires not_full { length (posted self.old) < room self.old }
        ensures posted { posted self.new ≡ posted self.old ++ (id, want) ∷ [] }
        ensures unexpected { unexpected self.new ≡ unexpected self.old }
        ensures room { room self.new ≡ room self.old };

    /// Adds a message, behind all other unexpected ones. Its id must be new among them. Want of
    /// memory changes nothing.
    fn add_unexpected(&mut self, id: u32, sign: Sign) -> Result<(), NoMemory>
        requires new { has_id id (unexpected self.old) ≡ false }
        ensures ok { OnOk result (unexpected self.new ≡ unexpected self.old ++ (id, sign) ∷ []) }
        ensures err { OnErr result (unexpected self.new ≡ unexpected self.old) }
        ensures posted { posted self.new ≡ posted self.old }
        ensures room { room self.new ≡ room self.old };

    /// Takes out the receive of this id. The rest keeps its order. Answers false, and changes
    /// nothing, exactly where no posted receive has the id.
    fn remove_posted(&mut self, id: u32) -> bool
        ensures there { result ≡ has_id id (posted self.old) }
        ensures rest { posted self.new ≡ without id (posted self.old) }
        ensures not_there { result ≡ false → posted self.new ≡ posted self.old }
        ensures gone { has_id id (posted self.new) ≡ false }
        ensures unexpected { unexpected self.new ≡ unexpected self.old }
        ensures room { room self.new ≡ room self.old };

    /// Takes out the unexpected message of this id. The rest keeps its order. Answers false, and
    /// changes nothing, exactly where no unexpected message has the id.
    fn remove_unexpected(&mut self, id: u32) -> bool
        ensures there { result ≡ has_id id (unexpected self.old) }
        ensures rest { unexpected self.new ≡ without id (unexpected self.old) }
        ensures not_there { result ≡ false → unexpected self.new ≡ unexpected self.old }
        ensures gone { has_id id (unexpected self.new) ≡ false }
        ensures posted { posted self.new ≡ posted self.old }
        ensures room { room self.new ≡ room self.old };
}
