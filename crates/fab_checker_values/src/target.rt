//! What a request does to the regions of its target (fi_rma(3), fi_atomic(3), fi_mr(3)).
ghost use Rattle.std.specs.Prelude.{◌≡◌, [], find, position, IfNone, OnOk, IfOk, Some};
ghost use Rattle.std.specs.Option.{option_map};
ghost use Rattle.fab_base.specs.declared.items.Outcome.{Outcome};
ghost use Rattle.fab_checker_values.specs.Seen.{performed_of};
ghost use Rattle.fab_checker_values.specs.NewElements.{is_done};
ghost use Rattle.fab_model.specs.Matching.{change_first, remove_first};
ghost use Rattle.fab_model.specs.Target.{may_access, reach_of, outcome_of, is_keyed, changed_range, put_range, handed_back, perform};
ghost use Rattle.fab_base.specs.Kinds.{is_read_only, is_base};

use crate::atomics::elements;
use crate::lists::split;
use fab_base::{Access, Buf, Form, ItemHead, Kind, NoMemory, Outcome};
use std::alloc::Global;
use std::marker::Model;
use std::mem;

/// A memory region.
#[derive(Drop)]
pub struct Region {
    pub key: u64,
    pub access: Access,
    pub bytes: Buf,
}

impl Model for Region {
    ghost use Rattle.fab_model.specs.State.{Region as MachineRegion};

    ghost Value = { MachineRegion };

    ghost view = { λ r. record { key = r.key; access = r.access; bytes = r.bytes } };
}

/// What a request did: its outcome, and the bytes that the reply hands back.
#[derive(Drop)]
pub struct Performed {
    pub outcome: Outcome,
    pub bytes: Buf,
}

/// Whether the region gives the rights that the request needs.
fn may_access(access: Access, head: &ItemHead) -> bool
    ensures { result ≡ may_access access head.now }
{
    match head.kind {
        Kind::WriteReq => access.remote_write,
        Kind::ReadReq => access.remote_read,
        Kind::Msg | Kind::TagMsg | Kind::AtomicReq | Kind::Reply => {
            (head.is_base() || access.remote_read) && (head.is_read_only() || access.remote_write)
        }
    }
}

/// How many bytes of the region the request reaches.
fn reach_of(head: &ItemHead) -> u32
    ensures { result ≡ reach_of head.now }
{
    match head.kind {
        Kind::WriteReq => head.total,
        Kind::Msg | Kind::TagMsg | Kind::ReadReq | Kind::AtomicReq | Kind::Reply => head.count,
    }
}

/// What becomes of the request in this region, which its key names.
#[tactic(auto, unfolding(fab_model::specs::Target::outcome_of))]
fn outcome_in(region: &Region, head: &ItemHead) -> Outcome
    ensures { result ≡ outcome_of (Some region.now) head.now }
{
    if !may_access(region.access, head) {
        return Outcome::BadAccess;
    }
    let end = head.at as u128 + reach_of(head) as u128;
    if (region.bytes.as_slice().len() as u128) < end {
        Outcome::BadRange
    } else {
        Outcome::Done
    }
}

/// The range that the request reaches, as it is after it.
#[tactic(auto, unfolding(fab_model::specs::Target::changed_range))]
fn changed_range(alloc: Global, head: &ItemHead, bytes: &[u8], old: &[u8]) -> Result<Buf, NoMemory>
    ensures { IfOk result (λ b. b ≡ changed_range head.now bytes.now old.now) }
{
    match head.kind {
        Kind::WriteReq => Buf::copy(alloc, bytes),
        Kind::AtomicReq => match head.atom {
            None => Buf::copy(alloc, old),
            Some(atom) => {
                let compared = match atom.form {
                    Form::Base | Form::Fetch => 0,
                    Form::Compare => head.count as usize,
                };
                let (operand, compares) = split(bytes, bytes.len().saturating_sub(compared));
                elements(alloc, atom, old, operand, compares)
            }
        },
        Kind::Msg | Kind::TagMsg | Kind::ReadReq | Kind::Reply => Buf::copy(alloc, old),
    }
}

/// The bytes that the reply hands back: those read, or the old elements.
fn handed_back(alloc: Global, head: &ItemHead, old: &[u8]) -> Result<Buf, NoMemory>
    ensures { IfOk result (λ b. b ≡ handed_back head.now old.now) }
{
    let is_told = match head.kind {
        Kind::ReadReq => true,
        Kind::AtomicReq => !head.is_base(),
        Kind::Msg | Kind::TagMsg | Kind::WriteReq | Kind::Reply => false,
    };
    if is_told {
        Buf::copy(alloc, old)
    } else {
        Ok(Buf::empty(alloc))
    }
}

/// The region that the key names.
pub fn region_at(regions: &[Region], key: u64) -> Option<&Region>
    ensures { option_map (λ r. r.now) result ≡ find (is_keyed key) regions.now }
{
    regions.iter().find(|r| r.key == key)
}

/// Where the region stands that the key names.
pub fn place_of_region(regions: &[Region], key: u64) -> Option<usize>
    ensures { result ≡ position (is_keyed key) regions.now }
{
    regions.iter().position(|r| r.key == key)
}

/// What becomes of the request.
#[tactic(auto, unfolding(fab_model::specs::Target::outcome_of))]
pub fn outcome_of(regions: &[Region], head: &ItemHead) -> Outcome
    ensures { result ≡ outcome_of (find (is_keyed head.now.key) regions.now) head.now }
{
    match region_at(regions, head.key) {
        None => Outcome::BadKey,
        Some(region) => outcome_in(region, head),
    }
}

/// Writes the bytes over the region's, from the offset `at` on. Where they end behind its end, it grows.
fn put_range(alloc: Global, region: &mut Region, at: usize, bytes: &[u8]) -> Result<(), NoMemory>
    ensures { OnOk result (region.new ≡ put_range at bytes.now region.old) }
{
    let len = region.bytes.as_slice().len();
    if at <= len && bytes.len() <= len - at {
        region.bytes.write_at(at, bytes);
        return Ok(());
    }
    let mut grown = mem::replace(&mut region.bytes, Buf::empty(alloc)).into_vec();
    grown.truncate(at);
    grown.extend_from_slice(bytes)?;
    region.bytes = Buf::from_vec(grown);
    Ok(())
}

/// Writes the bytes over those of the region that the key names, from the offset `at` on.
pub fn put_at(
    alloc: Global,
    regions: &mut Vec<Region>,
    key: u64,
    at: usize,
    bytes: &[u8],
) -> Result<(), NoMemory>
    ensures { OnOk result (regions.new.items ≡ change_first (is_keyed key) (put_range at bytes.now) regions.old.items) }
{
    let Some(place) = place_of_region(regions.as_slice(), key) else {
        return Ok(());
    };
    put_range(alloc, &mut regions[place], at, bytes)?;
    Ok(())
}

/// Takes the region that the key names.
pub fn take_region(regions: &mut Vec<Region>, key: u64) -> Option<Region>
    ensures found { result ≡ find (is_keyed key) regions.old.items }
    ensures rest { regions.new.items ≡ remove_first (is_keyed key) regions.old.items }
    ensures none { IfNone result (regions.new.items ≡ regions.old.items) }
{
    let Some(at) = place_of_region(regions.as_slice(), key) else {
        return None;
    };
    Some(regions.remove(at))
}

fn is_done(outcome: Outcome) -> bool
    ensures { result ≡ is_done outcome }
{
    match outcome {
        Outcome::Done => true,
        Outcome::BadKey | Outcome::BadAccess | Outcome::BadRange => false,
    }
}

/// A request that is not performed: nothing is handed back.
fn refused(alloc: Global, outcome: Outcome) -> Performed
    ensures outcome { result.outcome ≡ outcome }
    ensures bytes { result.bytes ≡ [] }
{
    Performed {
        outcome,
        bytes: Buf::empty(alloc),
    }
}

/// Does the request: what becomes of it, the bytes that the reply hands back, and the regions after it.
pub fn perform(
    alloc: Global,
    regions: &mut Vec<Region>,
    head: &ItemHead,
    bytes: &[u8],
) -> Result<Performed, NoMemory>
    ensures { IfOk result (λ p. performed_of p regions.new.items ≡ perform regions.old.items head.now bytes.now) }
{
    let Some(region) = region_at(regions.as_slice(), head.key) else {
        return Ok(refused(alloc, Outcome::BadKey));
    };
    let outcome = outcome_in(region, head);
    if !is_done(outcome) {
        return Ok(refused(alloc, outcome));
    }
    let (_, behind) = split(region.bytes.as_slice(), head.at as usize);
    let (old, _) = split(behind, reach_of(head) as usize);
    let told = handed_back(alloc, head, old)?;
    let changed = changed_range(alloc, head, bytes, old)?;
    put_at(
        alloc,
        regions,
        head.key,
        head.at as usize,
        changed.as_slice(),
    )?;
    Ok(Performed {
        outcome,
        bytes: told,
    })
}
