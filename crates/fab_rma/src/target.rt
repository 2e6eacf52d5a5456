//! Requests of other peers, judged and performed.
ghost use Rattle.std.specs.Prelude.{◌≡◌, ◌≢◌, ◌+◌, ◌<◌, ◌≤◌, ◌∷◌, ◌++◌, [], length, take, drop, true, None, Some, Ok, IfOk, IfErr, IfSome, MatchOption, OnOk, OnErr, slice_index, slice_set, if◌then◌else◌};
ghost use Rattle.std.specs.Option.{option_map, ok_or};
ghost use Rattle.fab_link.specs.Frames.{IsSound};
ghost use Rattle.fab_model.specs.Matching.{change_first, remove_first};
ghost use Rattle.fab_model.specs.Target.{is_keyed, may_access, perform, put_range, reach_of};
ghost use Rattle.fab_base.specs.Kinds.{is_base, is_read_only};
ghost use Rattle.fab_mr.specs.Regions.{region, region_at, reaches_past};
ghost use Rattle.fab_rma.specs.Serving.{compared, is_request, nothing_served, outcome_at, room_for};

use crate::elements::Elements;
use crate::room::Room;
use fab_base::{Access, Atom, Buf, Fault, Form, ItemHead, Kind, NoMemory, Outcome, Refused};
use fab_mr::Regions;
use std::alloc::Global;
use std::marker::Model;

/// What became of a request: its outcome, and the bytes that are handed back. Of one that was not
/// done there are none.
#[derive(Drop)]
pub struct Reply {
    pub outcome: Outcome,
    pub bytes: Buf,
}

/// The regions of an endpoint, and for each source the memory for the bytes of one reply.
///
/// Only [`new`](Target::new), [`make_room`](Target::make_room) and [`reg`](Target::reg) take memory.
#[derive(Drop)]
pub struct Target {
    regions: Regions,
    rooms: Vec<Room>,
    elements: Elements,
    alloc: Global,
}

impl Model for Target {
    ghost use Rattle.fab_rma.specs.Serving.{Serving};

    ghost Value = { Serving };

    ghost view = { λ t. record { regions = t.regions; rooms = t.rooms.items } };
}

/// Whether the region gives the rights that the request needs.
fn may_access(access: Access, head: &ItemHead) -> bool
    ensures { result ≡ may_access access head.now }
{
    match head.kind {
        Kind::WriteReq => access.remote_write,
        Kind::ReadReq => access.remote_read,
        _ => {
            (head.is_base() || access.remote_read) && (head.is_read_only() || access.remote_write)
        }
    }
}

/// How many bytes of the region the request reaches.
fn reach_of(head: &ItemHead) -> u32
    ensures { result ≡ reach_of head.now }
{
    match head.kind {
        Kind::WriteReq => head.total,
        _ => head.count,
    }
}

/// How many bytes an atomic of this form compares with.
fn compared(count: u32, form: Form) -> usize
    ensures { result ≡ compared count form }
{
    match form {
        Form::Compare => count as usize,
        Form::Base | Form::Fetch => 0,
    }
}

/// How many bytes the reply to this request may hand back.
fn room_for(head: &ItemHead) -> u32
    ensures { result ≡ room_for head.now }
{
    match head.kind {
        Kind::ReadReq => head.count,
        Kind::AtomicReq => { if head.is_base() { 0 } else { head.count } }
        _ => 0,
    }
}

/// So many of the bytes, from the offset `at` on.
fn part(bytes: &[u8], at: u64, len: u32) -> &[u8]
    requires { at + len ≤ length bytes.now }
    ensures { result.now ≡ take len (drop at bytes.now) }
{
    let at = at as usize;
    &bytes[at..at + len as usize]
}

/// Room for no bytes of each source.
fn empty_rooms(alloc: Global, sources: u32) -> Result<Vec<Room>, NoMemory>
    ensures { IfOk result (λ rooms. rooms.items ≡ (nothing_served sources).rooms) }
{
    let mut rooms = Vec::with_capacity(alloc, sources as usize)?;
    for _ in 0..sources {
        rooms.push(Room::none(alloc))?;
    }
    Ok(rooms)
}

impl Target {
    /// No regions, and so many sources. Takes the memory for the elements of an atomic.
    pub fn new(alloc: Global, sources: u32) -> Result<Target, NoMemory>
        ensures { IfOk result (λ target. target ≡ nothing_served sources) }
    {
        let rooms = empty_rooms(alloc, sources)?;
        let elements = Elements::new(alloc)?;
        Ok(Target {
            regions: Regions::new(alloc),
            rooms,
            elements,
            alloc,
        })
    }

    // ---- the owner's calls

    /// Registers a buffer under a key that is free, with the rights that other peers have to it (fi_mr_reg of fi_mr(3)).
    ///
    /// Answers `NoKey` exactly where the key is in use, and otherwise fails with `NoMemory` alone. A
    /// refusal hands the buffer back and changes nothing.
    pub fn reg(&mut self, key: u64, access: Access, buf: Buf) -> Result<(), Refused>
        ensures in_use { IfSome (region_at self.old.regions key) (λ r. result ≡ Err (record { why = Fault.NoKey; buf = buf })) }
        ensures free { region_at self.old.regions key ≡ None → IfErr result (λ r. r ≡ record { why = Fault.NoMemory; buf = buf }) }
        ensures ok { OnOk result (self.new.regions ≡ self.old.regions ++ region key access buf ∷ []) }
        ensures err { OnErr result (self.new ≡ self.old) }
        ensures rooms { self.new.rooms ≡ self.old.rooms }
    {
        self.regions.reg(key, access, buf)
    }

    /// Closes the region and hands its bytes back (fi_close of fi_mr(3)), or answers `NoKey` exactly where no region has
    /// this key, and then changes nothing. Takes no memory.
    pub fn close(&mut self, key: u64) -> Result<Buf, Fault>
        ensures answer { result ≡ ok_or (option_map (λ r. r.bytes) (region_at self.old.regions key)) Fault.NoKey }
        ensures rest { self.new.regions ≡ remove_first (is_keyed key) self.old.regions }
        ensures err { OnErr result (self.new ≡ self.old) }
        ensures rooms { self.new.rooms ≡ self.old.rooms }
    {
        self.regions.close(key)
    }

    /// The bytes of the region, lent.
    pub fn bytes(&self, key: u64) -> Option<&[u8]>
        ensures { option_map (λ b. b.now) result ≡ option_map (λ r. r.bytes) (region_at self.now.regions key) }
    {
        self.regions.bytes(key)
    }

    /// Writes the bytes into the region, from the offset `at` on, in bytes from its start.
    ///
    /// Answers `NoKey` exactly where no region has this key, and `Range` exactly where the bytes would
    /// end behind the region's end. A refusal writes nothing. Takes no memory.
    pub fn put(&mut self, key: u64, at: u64, src: &[u8]) -> Result<(), Fault>
        ensures answer { MatchOption (region_at self.old.regions key) (result ≡ Err Fault.NoKey)
            (λ r. result ≡ (if reaches_past r at (length src.now) then Err Fault.Range else Ok tt)) }
        ensures ok { OnOk result (self.new.regions ≡ change_first (is_keyed key) (put_range at src.now) self.old.regions) }
        ensures err { OnErr result (self.new ≡ self.old) }
        ensures rooms { self.new.rooms ≡ self.old.rooms }
    {
        self.regions.put(key, at, src)
    }

    /// Gives up everything but the regions.
    pub fn into_regions(self) -> Regions
        ensures { result ≡ self.regions }
    {
        self.regions
    }

    // ---- the requests of other peers

    /// What becomes of the request (fi_rma(3)): `BadKey` where no region has its key, else `BadAccess`
    /// where the region does not give the rights, else `BadRange` where it reaches behind the region's
    /// end, in bytes. No bytes at the region's end are in range.
    pub fn outcome(&self, head: &ItemHead) -> Outcome
        ensures { result ≡ outcome_at self.now.regions head.now }
    {
        let Some((access, bytes)) = self.regions.find(head.key) else {
            return Outcome::BadKey;
        };
        if !may_access(access, head) {
            return Outcome::BadAccess;
        }
        let reach = reach_of(head) as usize;
        if reach > bytes.len() || head.at > (bytes.len() - reach) as u64 {
            return Outcome::BadRange;
        }
        Outcome::Done
    }

    /// Takes the memory for the reply to this request of the source, in place of what was taken before.
    /// `NoMemory` changes nothing.
    pub fn make_room(&mut self, source: u32, head: &ItemHead) -> Result<(), NoMemory>
        requires source { source < length self.old.rooms }
        ensures ok { OnOk result (self.new ≡ record self.old { rooms = slice_set self.old.rooms source (room_for head.now) }) }
        ensures err { OnErr result (self.new ≡ self.old) }
    {
        let room = Room::of(self.alloc, room_for(head))?;
        self.rooms[source as usize] = room;
        Ok(())
    }

    /// Performs a request whose bytes are whole (fi_read(3), fi_write(3), fi_atomic(3)), whole or not at
    /// all, and answers what its reply tells. Of an atomic the operand's bytes stand before the compare's.
    ///
    /// Takes no memory. A write costs a step for each of its bytes, whatever the region's length.
    pub fn perform(&mut self, source: u32, head: &ItemHead, bytes: &[u8]) -> Reply
        requires source { source < length self.old.rooms }
        requires request { is_request head.now.kind ≡ true }
        requires sound { IsSound head.now }
        requires whole { length bytes.now ≡ head.now.total }
        requires room { room_for head.now ≤ slice_index self.old.rooms source }
        ensures outcome { result.outcome ≡ (perform self.old.regions head.now bytes.now).outcome }
        ensures bytes { result.bytes ≡ (perform self.old.regions head.now bytes.now).bytes }
        ensures regions { self.new.regions ≡ (perform self.old.regions head.now bytes.now).regions }
        ensures rooms { self.new.rooms ≡ slice_set self.old.rooms source 0 }
        ensures judged { result.outcome ≡ outcome_at self.old.regions head.now }
        ensures few { length result.bytes ≤ room_for head.now }
        ensures refused { result.outcome ≢ Outcome.Done → result.bytes ≡ [] }
    {
        let outcome = self.outcome(head);
        let bytes = match outcome {
            Outcome::Done => self.done(source, head, bytes),
            _ => self.rooms[source as usize].fill(&[]),
        };
        Reply { outcome, bytes }
    }

    /// Performs a request that was judged.
    fn done(&mut self, source: u32, head: &ItemHead, bytes: &[u8]) -> Buf
        requires source { source < length self.old.rooms }
        requires request { is_request head.now.kind ≡ true }
        requires sound { IsSound head.now }
        requires whole { length bytes.now ≡ head.now.total }
        requires room { room_for head.now ≤ slice_index self.old.rooms source }
        requires judged { outcome_at self.old.regions head.now ≡ Outcome.Done }
        ensures bytes { result ≡ (perform self.old.regions head.now bytes.now).bytes }
        ensures few { length result ≤ room_for head.now }
        ensures rest { self.new ≡ record { regions = (perform self.old.regions head.now bytes.now).regions; rooms = slice_set self.old.rooms source 0 } }
    {
        match head.kind {
            Kind::ReadReq => self.hand_back(source, head),
            Kind::AtomicReq => {
                let Some(atom) = head.atom else {
                    unreachable!()
                };
                let old = if head.is_base() {
                    self.rooms[source as usize].fill(&[])
                } else {
                    self.hand_back(source, head)
                };
                self.change(head, atom, bytes);
                old
            }
            _ => {
                let _ = self.regions.put(head.key, head.at, bytes);
                self.rooms[source as usize].fill(&[])
            }
        }
    }

    /// Copies the range that the request reaches into the room for its reply.
    fn hand_back(&mut self, source: u32, head: &ItemHead) -> Buf
        requires source { source < length self.old.rooms }
        requires count { reach_of head.now ≡ head.now.count }
        requires room { head.now.count ≤ slice_index self.old.rooms source }
        requires judged { outcome_at self.old.regions head.now ≡ Outcome.Done }
        ensures bytes { IfSome (region_at self.old.regions head.now.key) (λ r. result ≡ take head.now.count (drop head.now.at r.bytes)) }
        ensures few { length result ≤ head.now.count }
        ensures rest { self.new ≡ record self.old { rooms = slice_set self.old.rooms source 0 } }
    {
        let Target { regions, rooms, .. } = self;
        let Some(bytes) = regions.bytes(head.key) else {
            unreachable!()
        };
        rooms[source as usize].fill(part(bytes, head.at, head.count))
    }

    /// Does the atomic to the range that it reaches.
    fn change(&mut self, head: &ItemHead, atom: Atom, bytes: &[u8])
        requires kind { head.now.kind ≡ Kind.AtomicReq }
        requires atom { head.now.atom ≡ Some atom }
        requires sound { IsSound head.now }
        requires whole { length bytes.now ≡ head.now.total }
        requires judged { outcome_at self.old.regions head.now ≡ Outcome.Done }
        ensures { self.new ≡ record self.old { regions = (perform self.old.regions head.now bytes.now).regions } }
    {
        let Target {
            regions,
            elements,
            ..
        } = self;
        let Some(range) = regions.bytes(head.key) else {
            unreachable!()
        };
        let (operand, compare) = bytes.split_at(bytes.len() - compared(head.count, atom.form));
        elements.change(atom, part(range, head.at, head.count), operand, compare);
        let _ = regions.put(head.key, head.at, elements.as_slice());
    }
}
