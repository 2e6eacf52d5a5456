//! The matching store over plain lists.
ghost use Rattle.std.specs.Prelude.{◌≡◌, ◌≤◌, ◌==◌, false, position, vec_len, vec_capacity};
ghost use Rattle.fab_match.specs.Matcher.{has_id, without, HasDistinctIds};

use crate::matcher::{IdTest, Matcher};
use crate::signs::fits;
use fab_base::{NoMemory, Sign, Want};
use std::alloc::Global;
use std::marker::Model;

/// A store that keeps its receives and messages in lists, and goes over them from the front.
#[derive(Drop)]
pub struct ListMatcher {
    posted: Vec<(u32, Want)>,
    unexpected: Vec<(u32, Sign)>,
    room: u32,
}

impl Model for ListMatcher {
    ghost use Rattle.fab_match.specs.Matcher.{Store};

    ghost Value = { Store };

    ghost use Rattle.fab_match.specs.ListMatcher.{IsKept};

    ghost view = { λ m. record { posted = m.posted.items; unexpected = m.unexpected.items; room = m.room } };

    ghost invariant = { IsKept };
}

fn place_of<X>(pairs: &[(u32, X)], id: u32) -> Option<usize>
    ensures { result ≡ position (λ pair. pair.0 == id) pairs.now }
{
    pairs.iter().position(|pair| pair.0 == id)
}

/// Takes out the pair of this id, and tells whether there was one.
fn remove_pair<X: Drop>(pairs: &mut Vec<(u32, X)>, id: u32) -> bool
    requires { HasDistinctIds pairs.old.items }
    ensures there { result ≡ has_id id pairs.old.items }
    ensures length { vec_len pairs.new ≤ vec_len pairs.old }
    ensures capacity { vec_capacity pairs.new ≡ vec_capacity pairs.old }
    ensures rest { pairs.new.items ≡ without id pairs.old.items }
    ensures distinct { HasDistinctIds pairs.new.items }
    ensures gone { has_id id pairs.new.items ≡ false }
    ensures not_there { result ≡ false → pairs.new.items ≡ pairs.old.items }
{
    let Some(at) = place_of(pairs, id) else {
        return false;
    };
    pairs.remove(at);
    true
}

impl Matcher for ListMatcher {
    ghost posted = { λ store. store.posted };

    ghost unexpected = { λ store. store.unexpected };

    ghost room = { λ store. store.room };

    fn new(alloc: Global, rx: u32) -> Result<ListMatcher, NoMemory> {
        Ok(ListMatcher {
            posted: Vec::with_capacity(alloc, rx as usize)?,
            unexpected: Vec::new(alloc),
            room: rx,
        })
    }

    fn first_posted(&self, sign: &Sign) -> Option<u32> {
        self.posted
            .iter()
            .find(|pair| fits(&pair.1, sign))
            .map(|pair| pair.0)
    }

    fn first_where<T: IdTest>(&self, test: &T) -> Option<u32> {
        self.posted
            .iter()
            .map(|pair| pair.0)
            .find(|id| test.passes(*id))
    }

    fn first_unexpected(&self, want: &Want) -> Option<u32> {
        self.unexpected
            .iter()
            .find(|pair| fits(want, &pair.1))
            .map(|pair| pair.0)
    }

    fn is_full(&self) -> bool {
        self.posted.len() == self.room as usize
    }

    fn has_posted(&self, id: u32) -> bool {
        self.posted.iter().any(|pair| pair.0 == id)
    }

    fn has_unexpected(&self, id: u32) -> bool {
        self.unexpected.iter().any(|pair| pair.0 == id)
    }

    fn add_posted(&mut self, id: u32, want: Want) {
        self.posted.push_reserved((id, want));
    }

    fn add_unexpected(&mut self, id: u32, sign: Sign) -> Result<(), NoMemory> {
        self.unexpected.push((id, sign))?;
        Ok(())
    }

    fn remove_posted(&mut self, id: u32) -> bool {
        remove_pair(&mut self.posted, id)
    }

    fn remove_unexpected(&mut self, id: u32) -> bool {
        remove_pair(&mut self.unexpected, id)
    }
}
