//! What the machine knows of one peer: its two halves (`fab_checker_halves`), and what else it has.
//!
//! Nothing is left out: all completions ever written are kept. A number that would pass its last value is
//! answered as want of memory: no script is long enough for that.
ghost use Rattle.std.specs.Prelude.{◌≡◌, ◌<◌, OnOk};
ghost use Rattle.fab_model.specs.State.{writing, class_place, tally_of, lookup, called, write, count};
ghost use Rattle.fab_checker_machine.specs.Room.{has_room};
ghost use Rattle.fab_checker_machine.specs.Seen.{cq_of, state_of};

use fab_base::{Caps, Class, NoMemory, Taken, Tally, Written};
use fab_checker_halves::{Receiving, Transmitting};
use fab_checker_values::lists::one_more;
use fab_checker_values::target::Region;
use std::alloc::Global;

/// All completions ever written, and how many of these are read.
#[derive(Drop)]
pub struct Completions {
    pub written: Vec<Written>,
    pub taken_out: usize,
    pub size: u32,
}

/// One peer's machine.
#[derive(Drop)]
pub struct State {
    pub caps: Caps,
    pub selective: bool,
    pub most_tx: u32,
    pub most_rx: u32,
    pub most_message: u32,
    pub av: Vec<Option<u32>>,
    pub regions: Vec<Region>,
    pub rx: Receiving,
    pub tx: Transmitting,
    pub cq: Completions,
    pub counters: [Tally; 6],
    pub calls: u64,
    pub alloc: Global,
}

impl Completions {
    /// Whether so many more entries may be written.
    pub fn has_room(&self, entries: usize) -> bool
        ensures { result ≡ has_room entries (cq_of self.now) }
    {
        let unread = (self.written.len() as u128 + entries as u128).saturating_sub(
            self.taken_out as u128,
        );
        unread <= self.size as u128
    }

    /// Writes an entry of this call.
    pub fn write(&mut self, call: Option<u64>, entry: Taken) -> Result<(), NoMemory>
        ensures { OnOk result (cq_of self.new ≡ writing call entry (cq_of self.old)) }
    {
        self.written.push(Written { call, entry })?;
        Ok(())
    }
}

/// Where the counter of this class stands.
fn class_place(class: Class) -> usize
    ensures place { result ≡ class_place class }
    ensures within { result < 6 }
{
    match class {
        Class::Send => 0,
        Class::Recv => 1,
        Class::Read => 2,
        Class::Write => 3,
        Class::RemoteRead => 4,
        Class::RemoteWrite => 5,
    }
}

impl State {
    /// The peer that stands at this index of the address vector.
    pub fn lookup(&self, index: u32) -> Option<u32>
        ensures { result ≡ lookup self.now.av.items index }
    {
        match self.av.get(index as usize) {
            Some(peer) => *peer,
            None => None,
        }
    }

    /// The counter of this class.
    pub fn tally_of(&self, class: Class) -> Tally
        ensures { result ≡ tally_of self.now.counters class }
    {
        self.counters[class_place(class)]
    }

    /// Counts a success or an error of this class. A number at its last value stays there.
    pub fn count(&mut self, class: Class, good: bool)
        ensures { state_of self.new ≡ count class good (state_of self.old) }
    {
        let tally = &mut self.counters[class_place(class)];
        if good {
            tally.ok = tally.ok.saturating_add(1);
        } else {
            tally.err = tally.err.saturating_add(1);
        }
    }

    /// Writes an entry of this call.
    pub fn write(&mut self, call: Option<u64>, entry: Taken) -> Result<(), NoMemory>
        ensures { OnOk result (state_of self.new ≡ write call entry (state_of self.old)) }
    {
        self.cq.write(call, entry)
    }

    /// One more call was accepted.
    pub fn accept_call(&mut self) -> Result<(), NoMemory>
        ensures { OnOk result (state_of self.new ≡ called (state_of self.old)) }
    {
        self.calls = one_more(self.calls)?;
        Ok(())
    }
}
