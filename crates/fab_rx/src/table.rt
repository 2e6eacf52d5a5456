//! A table that keeps values under ids of its own choice: a slab with keys of 32 bits.
ghost use Rattle.std.specs.Prelude.{◌≡◌, ◌==◌, ◌+◌, ◌<◌, ◌≤◌, ◌^◌, ℕ, [], length, Some, None, IsSome, IfOk, OnOk, OnSome, IfNone, slice_set};
ghost use Rattle.std.specs.Option.{option_copied};
ghost use Rattle.fab_rx.specs.Table.{at};

use fab_base::NoMemory;
use slab::Slab;
use std::alloc::Global;
use std::marker::Model;

/// How many ids of 32 bits there are.
const MOST_IDS: usize = 1 << 32;

/// Values under ids below 2^32. An id that is given back is given out again.
///
/// Only `with_room` and `make_room` take memory.
#[derive(Drop)]
pub struct Table<T> {
    pub(crate) slab: Slab<T>,
}

impl<T> Model for Table<T> {
    ghost use Rattle.fab_rx.specs.Table.{Cells, IsTable, table_of};

    ghost Value = { Cells T };

    ghost view = { λ t. table_of t.slab };

    ghost invariant = { λ t. IsTable t.slab };
}

impl<T: Drop> Table<T> {
    /// A table with no room. Takes no memory.
    pub fn new(alloc: Global) -> Table<T>
        ensures { result ≡ record { cells = []; spare = 0 } }
    {
        Table {
            slab: Slab::new(alloc),
        }
    }

    /// An empty table with room for so many values.
    pub fn with_room(alloc: Global, room: usize) -> Result<Table<T>, NoMemory>
        ensures room { IfOk result (λ table. room ≤ table.spare) }
        ensures few { IfOk result (λ table. length table.cells ≤ 2 ^ 32) }
    {
        let slab = Slab::with_capacity(alloc, room)?;
        if slab.capacity() > MOST_IDS {
            return Err(NoMemory);
        }
        Ok(Table { slab })
    }

    /// Makes sure that one more value fits, under an id of 32 bits. `NoMemory` changes no value.
    pub fn make_room(&mut self) -> Result<(), NoMemory>
        ensures room { OnOk result (0 < self.new.spare) }
        ensures few { OnOk result (length self.new.cells ≤ 2 ^ 32) }
        ensures more { length self.new.cells + self.old.spare ≡ length self.old.cells + self.new.spare }
        ensures same { (id : ℕ) → at self.new id ≡ at self.old id }
    {
        self.slab.reserve(1)?;
        if self.slab.capacity() > MOST_IDS {
            return Err(NoMemory);
        }
        Ok(())
    }

    /// Whether no id has a value.
    pub fn is_empty(&self) -> bool
        ensures { result ≡ (self.now.spare == length self.now.cells) }
    {
        self.slab.is_empty()
    }

    /// How many ids have a value.
    pub fn len(&self) -> usize
        ensures { result + self.now.spare ≡ length self.now.cells }
    {
        self.slab.len()
    }

    /// Puts a value under an id that has none, and answers it. There must be room.
    pub fn put(&mut self, value: T) -> u32
        requires room { 0 < self.old.spare }
        requires few { length self.old.cells ≤ 2 ^ 32 }
        ensures empty { at self.old result ≡ None }
        ensures within { result < length self.old.cells }
        ensures cells { self.new.cells ≡ slice_set self.old.cells result (Some value) }
        ensures spare { self.new.spare + 1 ≡ self.old.spare }
    {
        self.slab.insert_reserved(value) as u32
    }

    /// Takes the value out from under an id. Answers `None`, and changes nothing, exactly where there is
    /// none.
    pub fn take(&mut self, id: u32) -> Option<T>
        ensures value { result ≡ at self.old id }
        ensures cells { self.new.cells ≡ slice_set self.old.cells id None }
        ensures spare { OnSome result (self.new.spare ≡ self.old.spare + 1) }
        ensures none { IfNone result (self.new ≡ self.old) }
    {
        self.slab.try_remove(id as usize)
    }

    /// Puts another value under an id that has one.
    pub fn set(&mut self, id: u32, value: T)
        requires { IsSome (at self.old id) }
        ensures cells { self.new.cells ≡ slice_set self.old.cells id (Some value) }
        ensures spare { self.new.spare ≡ self.old.spare }
    {
        self.slab.remove(id as usize);
        self.slab.insert_reserved(value);
    }

    /// The value under an id.
    pub fn get(&self, id: u32) -> Option<&T>
        ensures { option_copied result ≡ at self.now id }
    {
        self.slab.get(id as usize)
    }
}
