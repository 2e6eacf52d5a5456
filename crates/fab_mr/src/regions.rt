//! Regions under their keys (fi_mr(3)).
ghost use Rattle.std.specs.Prelude.{◌≡◌, ◌++◌, ◌∷◌, ◌+◌, [], length, take, drop, IfErr, OnOk, OnErr, IfSome, MatchOption, nat_lt, if◌then◌else◌};
ghost use Rattle.std.specs.Option.{option_map, ok_or};
ghost use Rattle.fab_model.specs.Matching.{change_first, remove_first};
ghost use Rattle.fab_model.specs.Target.{is_keyed, put_range};
ghost use Rattle.fab_mr.specs.Regions.{region, region_at, reaches_past, KeepsOthers};

use fab_base::{Access, Buf, Fault, Refused};
use indexmap::IndexMap;
use std::alloc::Global;
use std::marker::Model;

/// What stands under a key.
#[derive(Drop)]
struct Held {
    access: Access,
    buf: Buf,
}

/// The regions of an endpoint, each under its key, a number of 64 bits that the caller picks
/// (FI_MR_PROV_KEY is not set). Contracts see a list of regions.
///
/// A look-up costs the same however many regions there are. To close one costs a step for each that
/// was registered after it.
#[derive(Drop)]
pub struct Regions {
    held: IndexMap<u64, Held>,
}

impl Model for Regions {
    ghost use Rattle.std.specs.Prelude.{List};
    ghost use Rattle.fab_model.specs.State.{Region};
    ghost use Rattle.fab_mr.specs.Regions.{regions_of};

    ghost Value = { List Region };

    ghost view = { λ r. regions_of r.held.entries };
}

impl Held {
    /// Writes the bytes from the offset `at` on, or answers `Range` where they would end behind the
    /// end, and then writes none.
    fn put(&mut self, at: u64, src: &[u8]) -> Result<(), Fault>
        ensures answer { result ≡ (if nat_lt (length self.old.buf) (at + length src.now) then Err Fault.Range else Ok tt) }
        ensures ok { OnOk result (self.new ≡ record self.old { buf = take at self.old.buf ++ src.now ++ drop (at + length src.now) self.old.buf }) }
        ensures err { OnErr result (self.new ≡ self.old) }
    {
        let len = self.buf.as_slice().len();
        if src.len() > len || at > (len - src.len()) as u64 {
            return Err(Fault::Range);
        }
        self.buf.write_at(at as usize, src);
        Ok(())
    }
}

impl Regions {
    /// No regions. Takes no memory.
    pub fn new(alloc: Global) -> Regions
        ensures { result ≡ [] }
    {
        Regions {
            held: IndexMap::new(alloc),
        }
    }

    /// Registers a buffer under a key that is free, with the rights that other peers have to it.
    ///
    /// Answers `NoKey` exactly where the key is in use, and otherwise fails with `NoMemory` alone. A
    /// refusal hands the buffer back and changes nothing.
    pub fn reg(&mut self, key: u64, access: Access, buf: Buf) -> Result<(), Refused>
        ensures in_use { IfSome (region_at self.old key) (λ r. result ≡ Err (record { why = Fault.NoKey; buf = buf })) }
        ensures free { region_at self.old key ≡ None → IfErr result (λ r. r ≡ record { why = Fault.NoMemory; buf = buf }) }
        ensures ok { OnOk result (self.new ≡ self.old ++ region key access buf ∷ []) }
        ensures err { OnErr result (self.new ≡ self.old) }
        ensures registered { OnOk result (region_at self.new key ≡ Some (region key access buf)) }
        ensures others { KeepsOthers key self.old self.new }
    {
        if self.held.contains_key(&key) {
            return Err(Refused {
                why: Fault::NoKey,
                buf,
            });
        }
        match self.held.insert(key, Held { access, buf }) {
            Ok(_) => Ok(()),
            Err(failed) => Err(Refused {
                why: Fault::NoMemory,
                buf: failed.value.1.buf,
            }),
        }
    }

    /// Closes the region and hands its bytes back, or answers `NoKey` exactly where no region has
    /// this key, and then changes nothing. Takes no memory.
    pub fn close(&mut self, key: u64) -> Result<Buf, Fault>
        ensures answer { result ≡ ok_or (option_map (λ r. r.bytes) (region_at self.old key)) Fault.NoKey }
        ensures rest { self.new ≡ remove_first (is_keyed key) self.old }
        ensures err { OnErr result (self.new ≡ self.old) }
        ensures closed { region_at self.new key ≡ None }
        ensures others { KeepsOthers key self.old self.new }
    {
        match self.held.shift_remove(&key) {
            Some(held) => Ok(held.buf),
            None => Err(Fault::NoKey),
        }
    }

    /// The rights that the region gives to other peers.
    pub fn access(&self, key: u64) -> Option<Access>
        ensures { result ≡ option_map (λ r. r.access) (region_at self.now key) }
    {
        match self.held.get(&key) {
            Some(held) => Some(held.access),
            None => None,
        }
    }

    /// The rights that the region gives to other peers, and its bytes, lent.
    pub fn find(&self, key: u64) -> Option<(Access, &[u8])>
        ensures access { option_map (λ x. x.0) result ≡ option_map (λ r. r.access) (region_at self.now key) }
        ensures bytes { option_map (λ x. x.1.now) result ≡ option_map (λ r. r.bytes) (region_at self.now key) }
    {
        match self.held.get(&key) {
            Some(held) => Some((held.access, held.buf.as_slice())),
            None => None,
        }
    }

    /// The bytes of the region, lent.
    pub fn bytes(&self, key: u64) -> Option<&[u8]>
        ensures { option_map (λ b. b.now) result ≡ option_map (λ r. r.bytes) (region_at self.now key) }
    {
        match self.held.get(&key) {
            Some(held) => Some(held.buf.as_slice()),
            None => None,
        }
    }

    /// Writes the bytes into the region, from the offset `at` on, in bytes from its start.
    ///
    /// Answers `NoKey` exactly where no region has this key, and `Range` exactly where the bytes would
    /// end behind the region's end. A refusal writes nothing. No bytes at the region's end are in
    /// range. Takes no memory.
    pub fn put(&mut self, key: u64, at: u64, src: &[u8]) -> Result<(), Fault>
        ensures answer { MatchOption (region_at self.old key) (result ≡ Err Fault.NoKey)
            (λ r. result ≡ (if reaches_past r at (length src.now) then Err Fault.Range else Ok tt)) }
        ensures ok { OnOk result (self.new ≡ change_first (is_keyed key) (put_range at src.now) self.old) }
        ensures err { OnErr result (self.new ≡ self.old) }
        ensures written { OnOk result (region_at self.new key ≡ option_map (put_range at src.now) (region_at self.old key)) }
        ensures others { KeepsOthers key self.old self.new }
    {
        match self.held.get_mut(&key) {
            Some(held) => held.put(at, src),
            None => Err(Fault::NoKey),
        }
    }
}
