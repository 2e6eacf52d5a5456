//! Cards in the order in which they came, found by what they are filed under.
ghost use Rattle.std.specs.Prelude.{◌≡◌, ◌<◌, ◌≤◌, ◌==◌, ◌&&◌, ◌++◌, ◌∷◌, ℕ, Bool, List, [], length, find, IfOk, OnOk, OnErr, Option};
ghost use Rattle.std.specs.List.{list_any};
ghost use Rattle.std.specs.Option.{option_and_then};
ghost use Rattle.fab_model.specs.Matching.{remove_first};
ghost use Rattle.slab.specs.Slab.{Slab, get, slab_len};
ghost use Rattle.fab_match.specs.declared.bucket.Card.{Card};
ghost use Rattle.fab_match.specs.Bins.{bin};
ghost use Rattle.fab_match.specs.Chains.{IsChain, Covers};
ghost use Rattle.fab_match.specs.Bucket.{held, places, cards, IsKept, IsReady, HasRoom, StaysIn};

use crate::bins::bin;
use crate::chains::Chains;
use fab_base::NoMemory;
use slab::Slab;
use std::alloc::Global;

/// An item under an id, its number, and the bins that it is filed in.
#[derive(Clone, Copy, Drop)]
pub struct Card<X> {
    pub id: u32,
    pub item: X,
    /// The number of posting of a receive, and 0 for a message.
    pub number: u64,
    /// The bin of the first kind, which for a message is the narrower one.
    pub near: u32,
    /// The bin of the second kind, where the bucket has any.
    pub wide: u32,
}

/// A test of cards.
pub trait Test<X> {
    ghost passes: { Self → Card X → Bool };

    /// Whether the card passes.
    fn passes(&self, card: &Card<X>) -> bool
        ensures { result ≡ passes self.now card.now };
}

/// Cards in the order in which they came. Each stands in a chain of all, in one with those whose ids
/// have its hash, and in one for each of its two bins. A bucket may have no bins of the second kind.
#[derive(Drop)]
pub struct Bucket<X: Drop> {
    pub cards: Slab<Card<X>>,
    pub all: Chains,
    pub ids: Chains,
    pub near: Chains,
    pub wide: Chains,
}

#[derive(Drop)]
struct HasId(u32);

impl<X> Test<X> for HasId {
    ghost passes = { λ test card. card.id == test.0 };

    fn passes(&self, card: &Card<X>) -> bool {
        card.id == self.0
    }
}

fn passes_at<X: Drop, T: Test<X>>(cards: &Slab<Card<X>>, place: usize, test: &T) -> bool
    ensures { result ≡ held cards.now (λ card. T.passes test.now card) place }
{
    match cards.get(place) {
        None => false,
        Some(card) => test.passes(card),
    }
}

/// The first place of a chain whose card passes. No chain is longer than there are cards.
fn first_of<X: Drop, T: Test<X>>(
    cards: &Slab<Card<X>>,
    chains: &Chains,
    head: u32,
    test: &T,
) -> Option<usize>
    requires { (places : List ℕ) × IsChain chains.now head places × (length places ≤ slab_len cards.now) }
    ensures { (places : List ℕ) → IsChain chains.now head places → result ≡ find (held cards.now (λ card. T.passes test.now card)) places }
{
    let mut node = chains.links[head as usize].next;
    for _ in 0..cards.len() {
        if node < chains.heads {
            return None;
        }
        let place = (node - chains.heads) as usize;
        if passes_at(cards, place, test) {
            return Some(place);
        }
        node = chains.links[node as usize].next;
    }
    None
}

fn card_at<X: Copy + Drop>(cards: &Slab<Card<X>>, place: Option<usize>) -> Option<Card<X>>
    ensures { result ≡ option_and_then (get cards.now) place }
{
    cards.get(place?).copied()
}

/// Makes links in four kinds of chains for the places up to this one.
fn reserve_all(
    all: &mut Chains,
    ids: &mut Chains,
    near: &mut Chains,
    wide: &mut Chains,
    last: usize,
) -> Result<(), NoMemory>
    ensures all { StaysIn all.old all.new }
    ensures ids { StaysIn ids.old ids.new }
    ensures near { StaysIn near.old near.new }
    ensures wide { StaysIn wide.old wide.new }
    ensures covered { OnOk result ((place : ℕ) → place ≤ last → Covers all.new place × Covers ids.new place × Covers near.new place × Covers wide.new place) }
{
    all.reserve(last)?;
    ids.reserve(last)?;
    near.reserve(last)?;
    wide.reserve(last)
}

impl<X: Copy + Drop> Bucket<X> {
    /// An empty bucket with so many bins of the first kind and of the second, and memory for so many
    /// cards.
    pub fn new(alloc: Global, heads: u32, wide: u32, room: usize) -> Result<Bucket<X>, NoMemory>
        requires { 0 < heads }
        ensures kept { IfOk result (λ bucket. IsKept bucket) }
        ensures empty { IfOk result (λ bucket. cards bucket ≡ []) }
        ensures ready { IfOk result (λ bucket. IsReady bucket) }
        ensures room { IfOk result (λ bucket. room ≤ bucket.cards.capacity) }
        ensures near { IfOk result (λ bucket. bucket.near.heads ≡ heads) }
        ensures wide { IfOk result (λ bucket. bucket.wide.heads ≡ wide) }
    {
        let cards = Slab::with_capacity(alloc, room)?;
        let last = cards.capacity();
        let mut all = Chains::new(alloc, 1)?;
        let mut ids = Chains::new(alloc, heads)?;
        let mut near = Chains::new(alloc, heads)?;
        let mut wide = Chains::new(alloc, wide)?;
        reserve_all(&mut all, &mut ids, &mut near, &mut wide, last)?;
        Ok(Bucket {
            cards,
            all,
            ids,
            near,
            wide,
        })
    }

    /// The first card of a bin of the first kind that passes.
    pub fn first_near<T: Test<X>>(&self, head: u32, test: &T) -> Option<Card<X>>
        requires kept { IsKept self.now }
        requires head { head < self.now.near.heads }
        ensures { result ≡ find (λ card. (card.near == head) && T.passes test.now card) (cards self.now) }
    {
        card_at(&self.cards, first_of(&self.cards, &self.near, head, test))
    }

    /// The first card of a bin of the second kind that passes.
    pub fn first_wide<T: Test<X>>(&self, head: u32, test: &T) -> Option<Card<X>>
        requires kept { IsKept self.now }
        requires head { head < self.now.wide.heads }
        ensures { result ≡ find (λ card. (card.wide == head) && T.passes test.now card) (cards self.now) }
    {
        card_at(&self.cards, first_of(&self.cards, &self.wide, head, test))
    }

    /// The first card of all that passes.
    pub fn first<T: Test<X>>(&self, test: &T) -> Option<Card<X>>
        requires { IsKept self.now }
        ensures { result ≡ find (λ card. T.passes test.now card) (cards self.now) }
    {
        card_at(&self.cards, first_of(&self.cards, &self.all, 0, test))
    }

    fn place_of(&self, id: u32) -> Option<usize>
        requires { IsKept self.now }
        ensures first { result ≡ find (held self.now.cards (λ card. card.id == id)) (places self.now) }
        ensures within { bin self.now.ids.heads 0 id 0 < self.now.ids.heads }
    {
        let head = bin(self.ids.heads, 0, u64::from(id), 0);
        first_of(&self.cards, &self.ids, head, &HasId(id))
    }

    /// How many cards there are.
    pub fn len(&self) -> usize
        requires { IsKept self.now }
        ensures { result ≡ length (cards self.now) }
    {
        self.cards.len()
    }

    /// Whether a card has this id.
    pub fn has(&self, id: u32) -> bool
        requires { IsKept self.now }
        ensures { result ≡ list_any (λ card. card.id == id) (cards self.now) }
    {
        self.place_of(id).is_some()
    }

    /// Takes the memory that one more card needs, until it is removed again. Want of memory leaves
    /// the cards as they are.
    pub fn reserve(&mut self) -> Result<(), NoMemory>
        requires { IsKept self.old }
        ensures kept { IsKept self.new }
        ensures same { cards self.new ≡ cards self.old }
        ensures room { OnOk result (HasRoom self.new) }
        ensures near { self.new.near.heads ≡ self.old.near.heads }
        ensures wide { self.new.wide.heads ≡ self.old.wide.heads }
    {
        let place = self.cards.vacant_key();
        reserve_all(
            &mut self.all,
            &mut self.ids,
            &mut self.near,
            &mut self.wide,
            place,
        )?;
        self.cards.reserve(1)?;
        Ok(())
    }

    /// Puts a card behind all others. Takes no memory.
    pub fn add(&mut self, card: Card<X>)
        requires kept { IsKept self.old }
        requires room { HasRoom self.old }
        requires near { card.near < self.old.near.heads }
        requires wide { 0 < self.old.wide.heads → card.wide < self.old.wide.heads }
        ensures kept { IsKept self.new }
        ensures added { cards self.new ≡ cards self.old ++ card ∷ [] }
        ensures ready { IsReady self.old → IsReady self.new }
        ensures capacity { self.new.cards.capacity ≡ self.old.cards.capacity }
        ensures near { self.new.near.heads ≡ self.old.near.heads }
        ensures wide { self.new.wide.heads ≡ self.old.wide.heads }
    {
        let place = self.cards.insert_reserved(card);
        self.all.push(0, place);
        let head = bin(self.ids.heads, 0, u64::from(card.id), 0);
        self.ids.push(head, place);
        self.near.push(card.near, place);
        self.wide.push(card.wide, place);
    }

    /// Takes out the first card of this id, if there is one. The others keep their order. Takes no
    /// memory.
    pub fn remove(&mut self, id: u32) -> Option<Card<X>>
        requires { IsKept self.old }
        ensures kept { IsKept self.new }
        ensures there { result ≡ find (λ card. card.id == id) (cards self.old) }
        ensures rest { cards self.new ≡ remove_first (λ card. card.id == id) (cards self.old) }
        ensures ready { IsReady self.old → IsReady self.new }
        ensures capacity { self.new.cards.capacity ≡ self.old.cards.capacity }
        ensures near { self.new.near.heads ≡ self.old.near.heads }
        ensures wide { self.new.wide.heads ≡ self.old.wide.heads }
    {
        let Some(place) = self.place_of(id) else {
            return None;
        };
        let card = self.cards.try_remove(place);
        self.all.unlink(place);
        self.ids.unlink(place);
        self.near.unlink(place);
        self.wide.unlink(place);
        card
    }
}
