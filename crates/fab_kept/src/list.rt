//! Completions in order, found by their context.
ghost use Rattle.std.specs.Prelude.{◌≡◌, ◌<◌, ◌++◌, ◌∷◌, [], ℕ, Option, length, find, vec_len, vec_capacity, IfOk, OnOk, OnErr, IfNone};
ghost use Rattle.fab_model.specs.Matching.{remove_first};
ghost use Rattle.fab_model.specs.Peers.{ctx_of, is_of_ctx};
ghost use Rattle.fab_kept.specs.Places.{Agrees, Puts, ends_empty, places_of, somes};
ghost use Rattle.fab_kept.specs.Indices.{places_in};

use crate::index::Index;
use fab_base::{Entry, Kept, NoMemory, Taken};
use std::alloc::Global;
use std::marker::Model;

/// The context under which a completion comes, if any.
pub fn ctx_of(entry: &Taken) -> Option<u64>
    ensures { result ≡ ctx_of entry.now }
{
    match entry {
        Taken::Failure(error) => error.ctx,
        Taken::Success(entry) => match entry {
            Entry::Sent { ctx, .. }
            | Entry::Received { ctx, .. }
            | Entry::Part { ctx, .. }
            | Entry::Released { ctx, .. }
            | Entry::Peeked { ctx, .. }
            | Entry::Read { ctx, .. }
            | Entry::Wrote { ctx, .. }
            | Entry::Updated { ctx }
            | Entry::Fetched { ctx, .. } => Some(*ctx),
            Entry::RemoteData { .. } => None,
        },
    }
}

/// Completions in the order in which they were read. Contracts see them without the places.
///
/// A completion taken out leaves its place empty, which moves no other. Empty places behind the last completion go at
/// once.
#[derive(Drop)]
pub struct KeptList {
    places: Vec<Option<Kept>>,
    index: Index,
    alloc: Global,
}

impl Model for KeptList {
    ghost use Rattle.std.specs.Prelude.{List};
    ghost use Rattle.fab_base.specs.declared.entries.Kept.{Kept as OneKept};
    ghost use Rattle.fab_kept.specs.Places.{IsIndexed, somes};
    ghost use Rattle.fab_kept.specs.Indices.{places_in};

    ghost Value = { List OneKept };

    ghost view = { λ k. somes k.places.items };

    ghost invariant = { λ k. IsIndexed k.places.items (places_in k.index) };
}

/// Makes room for one place more, and files its number under its context.
fn file(
    places: &mut Vec<Option<Kept>>,
    index: &mut Index,
    alloc: Global,
    ctx: Option<u64>,
) -> Result<(), NoMemory>
    ensures places { places.new.items ≡ places.old.items }
    ensures room { OnOk result (vec_len places.new < vec_capacity places.new) }
    ensures ok { OnOk result (Puts (places_in index.old) (places_in index.new) ctx (places_in index.old ctx ++ vec_len places.old ∷ [])) }
    ensures err { OnErr result (Agrees (places_in index.old) (places_in index.new)) }
{
    places.reserve(1)?;
    index.put(alloc, ctx, places.len())
}

/// Whether the last place is empty.
fn ends_empty(places: &[Option<Kept>]) -> bool
    ensures { result ≡ ends_empty places.now }
{
    match places.last() {
        Some(None) => true,
        Some(Some(_)) | None => false,
    }
}

/// Lets the empty places at the end go.
fn trim(places: &mut Vec<Option<Kept>>)
    ensures kept { somes places.new.items ≡ somes places.old.items }
    ensures places { (ctx : Option ℕ) → places_of ctx places.new.items ≡ places_of ctx places.old.items }
{
    'ends: while ends_empty(places.as_slice()) {
        let _ = places.pop();
    }
}

impl KeptList {
    /// None. It takes no memory.
    pub fn new(alloc: Global) -> KeptList
        ensures { result ≡ [] }
    {
        KeptList {
            places: Vec::new(alloc),
            index: Index::new(alloc),
            alloc,
        }
    }

    /// None, with room for so many completions, whose contexts below so many are found without a hash. The room is written once,
    /// since a page of memory comes with the first write to it.
    pub fn with_room(alloc: Global, most: usize) -> Result<KeptList, NoMemory>
        ensures { IfOk result (λ k. k ≡ []) }
    {
        let mut places = Vec::new(alloc);
        places.resize_with(most, || -> Option<Kept> { None })?;
        places.clear();
        let index = Index::with_room(alloc, most)?;
        Ok(KeptList {
            places,
            index,
            alloc,
        })
    }

    /// The places in order. What stands there are the completions, and some places may be empty.
    pub fn places(&self) -> &[Option<Kept>]
        ensures { somes result.now ≡ self.now }
    {
        self.places.as_slice()
    }

    /// Puts a completion behind all others. Want of memory changes nothing.
    pub fn push(&mut self, kept: Kept) -> Result<(), NoMemory>
        ensures ok { OnOk result (self.new ≡ self.old ++ kept ∷ []) }
        ensures err { OnErr result (self.new ≡ self.old) }
    {
        let ctx = ctx_of(&kept.entry);
        file(&mut self.places, &mut self.index, self.alloc, ctx)?;
        self.places.push_reserved(Some(kept));
        Ok(())
    }

    /// Takes the first completion of a context out, or of those without a context. The others keep their order. It takes
    /// no memory.
    pub fn take(&mut self, ctx: Option<u64>) -> Option<Kept>
        ensures found { result ≡ find (is_of_ctx ctx) self.old }
        ensures rest { self.new ≡ remove_first (is_of_ctx ctx) self.old }
        ensures none { IfNone result (self.new ≡ self.old) }
    {
        let Some(place) = self.index.pop(ctx) else {
            return None;
        };
        let kept = self.places[place].take();
        trim(&mut self.places);
        kept
    }
}
