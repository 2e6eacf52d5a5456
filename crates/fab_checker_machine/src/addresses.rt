//! The calls on the address vector (fi_av(3)).
ghost use Rattle.std.specs.Prelude.{◌≡◌, ◌+◌, ◌++◌, position, codes, decimal, bytes_eq, IfOk};
ghost use Rattle.fab_model.specs.Calls.{peer_named, is_peer, insert_new, insert, remove};
ghost use Rattle.fab_checker_machine.specs.Seen.{state_of};

use crate::state::State;
use fab_base::{Fault, LineResult, MOST_INDICES, NoMemory};
use fab_checker_values::lists::narrowed;
use std::alloc::Global;

/// Whether the peer of this number has this name.
fn has_name(alloc: Global, peer: u32, name: &str) -> Result<bool, NoMemory>
    ensures { IfOk result (λ has. has ≡ bytes_eq (codes "shm://" ++ decimal peer) name.now) }
{
    let own = format!(in alloc; "shm://{peer}")?;
    Ok(own.as_bytes() == name.as_bytes())
}

/// The peer, of so many, that has this name.
fn peer_named(alloc: Global, peers: u32, name: &str) -> Result<Option<u32>, NoMemory>
    ensures { IfOk result (λ peer. peer ≡ peer_named peers name.now) }
{
    for peer in 0..peers {
        if has_name(alloc, peer, name)? {
            return Ok(Some(peer));
        }
    }
    Ok(None)
}

fn is_peer(peer: u32, stands: Option<u32>) -> bool
    ensures { result ≡ is_peer peer stands }
{
    match stands {
        None => false,
        Some(stands) => stands == peer,
    }
}

/// Where the peer stands in the address vector.
fn place_of_peer(av: &[Option<u32>], peer: u32) -> Option<usize>
    ensures { result ≡ position (is_peer peer) av.now }
{
    av.iter().position(|stands| is_peer(peer, *stands))
}

impl State {
    /// The peer gets an index behind the others, of which there are at most [`MOST_INDICES`].
    fn insert_new(&mut self, peer: u32) -> Result<LineResult, NoMemory>
        ensures { IfOk result (λ answer. (answer, state_of self.new) ≡ insert_new (state_of self.old) peer) }
    {
        let index = self.av.len();
        if index >= MOST_INDICES as usize {
            return Ok(LineResult::Index(None));
        }
        self.av.push(Some(peer))?;
        Ok(LineResult::Index(Some(index as u32)))
    }

    /// A call of insert: the index of the peer of this name.
    #[tactic(auto, unfolding(fab_model::specs::Calls::insert))]
    pub fn call_insert(&mut self, name: &str) -> Result<LineResult, NoMemory>
        ensures { IfOk result (λ answer. (answer, state_of self.new) ≡ insert (state_of self.old) name.now) }
    {
        let peers = narrowed(self.tx.sent.len())?;
        let Some(peer) = peer_named(self.alloc, peers, name)? else {
            return Ok(LineResult::Index(None));
        };
        match place_of_peer(self.av.as_slice(), peer) {
            Some(index) => {
                let index = narrowed(index)?;
                Ok(LineResult::Index(Some(index)))
            }
            None => self.insert_new(peer),
        }
    }

    /// A call of remove: nothing stands at the index any more.
    #[tactic(auto, unfolding(fab_model::specs::Calls::remove))]
    pub fn call_remove(&mut self, index: u32) -> LineResult
        ensures { (result, state_of self.new) ≡ remove (state_of self.old) index }
    {
        if self.lookup(index).is_none() {
            return LineResult::Refused(Fault::NoEntry);
        }
        if (index as usize) < self.av.len() {
            self.av[index as usize] = None;
        }
        LineResult::Done
    }
}
