//! The address vector.
ghost use Rattle.std.specs.Prelude.{◌≡◌, ℕ, ◌+◌, ◌<◌, ◌≤◌, ◌^◌, ◌++◌, List, Option, [], length, map, position, is_some, slice_set, IfOk, OnOk, IfErr, OnErr, IsSome, All, None, Some, vec_len, vec_capacity};
ghost use Rattle.std.specs.List.{count_by};
ghost use Rattle.fab_base.specs.declared.limits.TheConstants.{MOST_INDICES};
ghost use Rattle.fab_base.specs.declared.faults.Fault.TheVariants.{NoEntry};
ghost use Rattle.fab_base.specs.declared.peers.LineResult.TheVariants.{Index};
ghost use Rattle.fab_model.specs.State.{State, lookup};
ghost use Rattle.fab_model.specs.Calls.{insert, remove, is_peer, peer_named, upto};
ghost use Rattle.fab_av.specs.Addresses.{HasAddresses, IsTable, Extends, IsNamed, index_named, with_addresses, inserting, answer_of};

use crate::names::peer_named;
use fab_base::{Fault, List, MOST_INDICES, NoMemory, Text};
use std::alloc::Global;
use std::marker::Model;

/// An address vector. Contracts see how many peers there are, and of each index that was given the peer that
/// stands there.
///
/// An index is looked up by itself, and a peer by its number.
#[derive(Drop)]
pub struct Av {
    peers: u32,
    by_index: Vec<Option<u32>>,
    by_peer: Vec<Option<u32>>,
}

impl Model for Av {
    ghost use Rattle.fab_av.specs.Addresses.{Addresses, IsTable};

    ghost Value = { Addresses };

    ghost view = { λ a. record { peers = a.peers; indices = a.by_index.items } };

    ghost invariant = { λ a. IsTable a.peers a.by_index.items a.by_peer.items };
}

/// What an insertion answers: the index of each name, or none (FI_ADDR_NOTAVAIL), and how many have one.
#[derive(Drop)]
pub struct InsertReport {
    pub indices: List<Option<u32>>,
    pub inserted: u32,
}

/// What stands at this place, and nothing beyond the end.
fn entry_at(entries: &[Option<u32>], place: u32) -> Option<u32>
    ensures { result ≡ lookup entries.now place }
{
    entries.get(place as usize).copied().flatten()
}

/// The numbers of so many peers, in order.
fn numbered(alloc: Global, peers: u32) -> Result<Vec<Option<u32>>, NoMemory>
    ensures { IfOk result (λ all. all.items ≡ map Some (upto peers)) }
{
    let mut all = Vec::with_capacity(alloc, peers as usize)?;
    for peer in 0..peers {
        all.push(Some(peer))?;
    }
    Ok(all)
}

/// Inserts one name. Unless all indices are given, there is room for one more.
fn insert_one(
    peers: u32,
    by_index: &mut Vec<Option<u32>>,
    by_peer: &mut [Option<u32>],
    name: &str,
) -> Option<u32>
    requires table { IsTable peers by_index.old.items by_peer.old }
    requires room { vec_len by_index.old < MOST_INDICES → vec_len by_index.old < vec_capacity by_index.old }
    ensures table { IsTable peers by_index.new.items by_peer.new }
    ensures capacity { vec_capacity by_index.old ≤ vec_capacity by_index.new }
    ensures length { vec_len by_index.new ≤ vec_len by_index.old + 1 }
    ensures extended { (more : List (Option ℕ)) × (by_index.new.items ≡ by_index.old.items ++ more) }
    ensures index { result ≡ index_named (record { peers = peers; indices = by_index.new.items }) name.now }
    ensures all { length by_index.new.items < MOST_INDICES → IsNamed peers name.now → IsSome result }
    ensures machine { (s : State) → HasAddresses s (record { peers = peers; indices = by_index.old.items })
        → insert s name.now ≡ (Index result, record s { av = by_index.new.items }) }
{
    let peer = peer_named(peers, name)?;
    let index = by_peer[peer as usize];
    if index.is_some() {
        return index;
    }
    let is_full = by_index.len() >= MOST_INDICES as usize;
    if is_full {
        return None;
    }
    let index = by_index.len() as u32;
    by_index.push(Some(peer)).unwrap();
    by_peer[peer as usize] = Some(index);
    Some(index)
}

impl Av {
    /// An empty vector for `peers` peers. It takes memory for each of them.
    pub fn new(alloc: Global, peers: u32) -> Result<Av, NoMemory>
        ensures { IfOk result (λ av. av ≡ record { peers = peers; indices = [] }) }
    {
        Ok(Av {
            peers,
            by_index: Vec::new(alloc),
            by_peer: vec![in alloc; None; peers as usize]?,
        })
    }

    /// A vector in which each peer stands at the index of its number. It takes memory for each of them, and is
    /// refused as if there were none above [`MOST_INDICES`] peers, for whom there are no indices.
    pub fn all(alloc: Global, peers: u32) -> Result<Av, NoMemory>
        ensures { IfOk result (λ av. av ≡ record { peers = peers; indices = map Some (upto peers) }) }
    {
        if peers > MOST_INDICES {
            return Err(NoMemory);
        }
        let by_index = numbered(alloc, peers)?;
        let by_peer = numbered(alloc, peers)?;
        Ok(Av {
            peers,
            by_index,
            by_peer,
        })
    }

    /// Does nothing, and tells what holds between calls: whoever stands at an index is one of the peers.
    pub fn known(&self)
        ensures { (i peer : ℕ) → lookup self.now.indices i ≡ Some peer → peer < self.now.peers }
    {
        let _ = &self.by_index;
    }

    /// How many peers there are.
    pub fn peers(&self) -> u32
        ensures { result ≡ self.now.peers }
    {
        self.peers
    }

    /// Inserts the peers of these names (fi_av(3), fi_av_insert).
    ///
    /// The peer of a name gets the next index, from 0 on. One that stands already keeps its index, and counts as
    /// inserted. A name of no peer has no index, nor has a new one once [`MOST_INDICES`] indices are given. Want of memory
    /// leaves the vector as it was.
    pub fn insert(&mut self, names: &[Text]) -> Result<InsertReport, NoMemory>
        requires { length names.now < 2 ^ 32 }
        ensures machine { IfOk result (λ report. (s : State) → HasAddresses s self.old →
            inserting s names.now ≡ (map Index report.indices, with_addresses self.new s)) }
        ensures inserted { IfOk result (λ report. report.inserted ≡ count_by is_some report.indices) }

        // Each name is told the index at which its peer now stands. Who stood already still stands there.
        ensures indices { IfOk result (λ report. report.indices ≡ map (index_named self.new) names.now) }
        ensures all { IfOk result (λ report. length self.new.indices < MOST_INDICES →
            All (λ name. IsNamed self.old.peers name → IsSome (index_named self.new name)) names.now) }
        ensures extended { Extends self.new self.old }
        ensures limit { length self.new.indices ≤ MOST_INDICES }
        ensures peers { self.new.peers ≡ self.old.peers }
        ensures err { OnErr result (self.new ≡ self.old) }
    {
        let mut indices = Vec::with_capacity(*self.by_index.allocator(), names.len())?;
        let room = names.len().min(MOST_INDICES as usize - self.by_index.len());
        self.by_index.reserve(room)?;
        let mut inserted = 0;
        for name in names {
            let index = insert_one(
                self.peers,
                &mut self.by_index,
                &mut self.by_peer,
                name.as_str(),
            );
            inserted += u32::from(index.is_some());
            indices.push(index).unwrap();
        }
        Ok(InsertReport {
            indices: List::from_vec(indices),
            inserted,
        })
    }

    /// Removes the address at this index, which is never given again (fi_av(3), fi_av_remove).
    pub fn remove(&mut self, index: u32) -> Result<(), Fault>
        ensures machine { (s : State) → HasAddresses s self.old → remove s index ≡ (answer_of result, with_addresses self.new s) }
        ensures peers { self.new.peers ≡ self.old.peers }
        ensures stood { OnOk result (IsSome (lookup self.old.indices index)) }
        ensures gone { OnOk result (self.new.indices ≡ slice_set self.old.indices index None) }
        ensures no_entry { IfErr result (λ fault. (fault ≡ NoEntry) × (lookup self.old.indices index ≡ None)) }
        ensures err { OnErr result (self.new ≡ self.old) }
    {
        let peer = self.lookup(index)?;
        self.by_index[index as usize] = None;
        self.by_peer[peer as usize] = None;
        Ok(())
    }

    /// The peer that stands at this index (fi_av(3), fi_av_lookup), or `NoEntry`.
    pub fn lookup(&self, index: u32) -> Result<u32, Fault>
        ensures found { IfOk result (λ peer. lookup self.now.indices index ≡ Some peer) }
        ensures below { IfOk result (λ peer. peer < self.now.peers) }
        // No index before it has this peer.
        ensures once { IfOk result (λ peer. position (is_peer peer) self.now.indices ≡ Some index) }
        ensures no_entry { IfErr result (λ fault. (fault ≡ NoEntry) × (lookup self.now.indices index ≡ None)) }
    {
        match entry_at(&self.by_index, index) {
            Some(peer) => Ok(peer),
            None => Err(Fault::NoEntry),
        }
    }

    /// The index at which this peer stands.
    pub fn index_of(&self, peer: u32) -> Option<u32>
        ensures { result ≡ position (is_peer peer) self.now.indices }
    {
        entry_at(&self.by_peer, peer)
    }
}
