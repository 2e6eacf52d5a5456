//! Where the completions of each context stand.
ghost use Rattle.std.specs.Prelude.{◌≡◌, ◌<◌, ◌++◌, ◌∷◌, [], ℕ, Option, Some, false, length, replicate, option_to_list, IfOk, OnOk, OnErr, IfSome, IfNone};
ghost use Rattle.fab_kept.specs.Places.{Agrees, Pops, Puts, queue_of};
ghost use Rattle.fab_kept.specs.Indices.{is_low, places_in};

use fab_base::NoMemory;
use std::alloc::Global;
use std::collections::{HashMap, VecDeque};
use std::marker::Model;
use std::mem::replace;

/// The places of a context, in order. Most contexts have one at a time, so the first stands beside the others, which take no
/// memory while there are none.
#[derive(Drop)]
pub(crate) struct Queue {
    first: Option<usize>,
    others: VecDeque<usize>,
}

impl Model for Queue {
    ghost use Rattle.std.specs.Prelude.{◌≡◌, ◌++◌, List, [], ℕ, IfNone, option_to_list};

    ghost Value = { List ℕ };

    ghost view = { λ q. option_to_list q.first ++ q.others.items };

    ghost invariant = { λ q. IfNone q.first (q.others.items ≡ []) };
}

impl Queue {
    /// One place alone. It takes no memory.
    fn new(alloc: Global, place: usize) -> Queue
        ensures { result ≡ place ∷ [] }
    {
        Queue {
            first: Some(place),
            others: VecDeque::new(alloc),
        }
    }

    /// No place. It takes no memory.
    fn empty(alloc: Global) -> Queue
        ensures { result ≡ [] }
    {
        Queue {
            first: None,
            others: VecDeque::new(alloc),
        }
    }

    fn push(&mut self, place: usize) -> Result<(), NoMemory>
        ensures ok { OnOk result (self.new ≡ self.old ++ place ∷ []) }
        ensures err { OnErr result (self.new ≡ self.old) }
    {
        if self.first.is_none() {
            self.first = Some(place);
            return Ok(());
        }
        self.others.push_back(place)?;
        Ok(())
    }

    fn pop(&mut self) -> Option<usize>
        ensures first { self.old ≡ option_to_list result ++ self.new }
        ensures none { IfNone result (self.old ≡ []) }
    {
        let next = self.others.pop_front();
        replace(&mut self.first, next)
    }
}

/// The queues of contexts in a map. A context that has no place any more keeps its queue.
type Queues = HashMap<Option<u64>, Queue>;

/// Puts a place behind those of its context in the map. Want of memory leaves the places of all contexts.
fn put_in_map(
    map: &mut Queues,
    alloc: Global,
    ctx: Option<u64>,
    place: usize,
) -> Result<(), NoMemory>
    ensures ok { OnOk result (Puts (queue_of map.old) (queue_of map.new) ctx (queue_of map.old ctx ++ place ∷ [])) }
    ensures err { OnErr result (Agrees (queue_of map.old) (queue_of map.new)) }
{
    if let Some(queue) = map.get_mut(&ctx) {
        return queue.push(place);
    }
    map.insert(ctx, Queue::new(alloc, place))?;
    Ok(())
}

/// Takes the first place of a context out of the map.
fn pop_from_map(map: &mut Queues, ctx: Option<u64>) -> Option<usize>
    ensures { Pops (queue_of map.old) (queue_of map.new) ctx result }
{
    let Some(queue) = map.get_mut(&ctx) else {
        return None;
    };
    queue.pop()
}

/// So many queues without a place.
fn empty_queues(alloc: Global, count: usize) -> Result<Vec<Queue>, NoMemory>
    ensures { IfOk result (λ queues. queues.items ≡ replicate count []) }
{
    let mut queues = Vec::with_capacity(alloc, count)?;
    for n in 0..count {
        queues.push(Queue::empty(alloc))?;
    }
    Ok(queues)
}

/// The places of each context.
///
/// Scripts number their contexts from low numbers on, one after the other. So low contexts have their queues in a row, where one is
/// found without a hash, and next to the last one found. A map has those of all others.
#[derive(Drop)]
pub(crate) struct Index {
    row: Vec<Queue>,
    map: Queues,
}

impl Index {
    /// Without a place. It takes no memory.
    pub(crate) fn new(alloc: Global) -> Index
        ensures { (ctx : Option ℕ) → places_in result ctx ≡ [] }
    {
        Index {
            row: Vec::new(alloc),
            map: HashMap::new(alloc),
        }
    }

    /// Without a place. The contexts below so many are low.
    pub(crate) fn with_room(alloc: Global, most: usize) -> Result<Index, NoMemory>
        ensures { IfOk result (λ i. (ctx : Option ℕ) → places_in i ctx ≡ []) }
    {
        let row = empty_queues(alloc, most)?;
        Ok(Index {
            row,
            map: HashMap::new(alloc),
        })
    }

    /// The number of the context, where it is low.
    fn low(&self, ctx: Option<u64>) -> Option<usize>
        ensures some { IfSome result (λ n. (ctx ≡ Some n) × (n < length self.now.row.items)) }
        ensures none { IfNone result (is_low (length self.now.row.items) ctx ≡ false) }
    {
        let ctx = ctx?;
        if ctx < self.row.len() as u64 {
            Some(ctx as usize)
        } else {
            None
        }
    }

    /// Puts a place behind those of its context. Want of memory leaves the places of all contexts.
    pub(crate) fn put(
        &mut self,
        alloc: Global,
        ctx: Option<u64>,
        place: usize,
    ) -> Result<(), NoMemory>
        ensures ok { OnOk result (Puts (places_in self.old) (places_in self.new) ctx (places_in self.old ctx ++ place ∷ [])) }
        ensures err { OnErr result (Agrees (places_in self.old) (places_in self.new)) }
    {
        match self.low(ctx) {
            Some(ctx) => self.row[ctx].push(place),
            None => put_in_map(&mut self.map, alloc, ctx, place),
        }
    }

    /// Takes the first place of a context out.
    pub(crate) fn pop(&mut self, ctx: Option<u64>) -> Option<usize>
        ensures { Pops (places_in self.old) (places_in self.new) ctx result }
    {
        match self.low(ctx) {
            Some(ctx) => self.row[ctx].pop(),
            None => pop_from_map(&mut self.map, ctx),
        }
    }
}
