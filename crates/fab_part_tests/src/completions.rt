//! A queue of two entries, entries of numbered calls, and counters at their ends.
ghost use Rattle.std.specs.Prelude.{◌≡◌, ◌^◌, ◌∷◌, [], None, Some, IfOk, map};
ghost use Rattle.fab_base.specs.declared.operations.Written.{Written};
ghost use Rattle.fab_cq.specs.Queues.{has_room};

use fab_base::{Class, Entry, ErrEntry, ErrKind, Fault, NoMemory, Taken};
use fab_cq::{Counters, Queue};
use fab_record::caller::Caller;
use std::alloc::Global;
use std::snapshot::Snapshot;
use std::test::Fail;

/// Of no call.
struct NoCall;

impl Caller<()> for NoCall {
    ghost use Rattle.std.specs.Prelude.{None};

    ghost call = { λ _. None };
}

/// Of the call whose number is the sum of the two that are told.
struct Summed;

impl Caller<Snapshot<(u64, u64)>> for Summed {
    ghost use Rattle.std.specs.Prelude.{Some, ◌+◌};

    ghost call = { λ told. Some (told.value.0 + told.value.1) };
}

fn updated(ctx: u64) -> Taken {
    Taken::Success(Entry::Updated { ctx })
}

fn no_message(ctx: u64) -> Taken {
    Taken::Failure(ErrEntry {
        ctx: Some(ctx),
        kind: ErrKind::NoMsg,
        source: None,
        tag: None,
        imm: None,
        at: None,
        len: 0,
        olen: 0,
        buf: None,
    })
}

/// Whether the entry is there, and has this context.
fn is_of(entry: Option<&Taken>, ctx: u64) -> bool {
    match entry {
        Some(Taken::Success(Entry::Updated { ctx: found })) => *found == ctx,
        _ => false,
    }
}

/// Whether the first entry has this context.
fn starts_with(queue: &Queue, ctx: u64) -> bool {
    is_of(queue.first(), ctx)
}

/// Whether it does, and is taken out.
fn pops(queue: &mut Queue, ctx: u64) -> bool {
    let entry = queue.pop();
    is_of(entry.as_ref(), ctx)
}

fn pops_none(queue: &mut Queue) -> bool {
    queue.pop().is_none()
}

/// Whether there are no entries.
fn is_empty(queue: &mut Queue) -> bool {
    queue.first().is_none() && pops_none(queue)
}

/// Whether there is room for so many entries and for no more.
fn has_room_for(queue: &Queue, entries: u32) -> bool {
    queue.has_room(entries) && !queue.has_room(entries.saturating_add(1))
}

/// Whether an entry has room, and is written.
fn writes(queue: &mut Queue, entry: Taken) -> bool {
    if !queue.has_room(1) {
        return false;
    }
    queue.write::<(), NoCall>(&(), entry);
    true
}

fn writes_success(queue: &mut Queue, ctx: u64) -> bool {
    writes(queue, updated(ctx))
}

fn writes_failure(queue: &mut Queue, ctx: u64) -> bool {
    writes(queue, no_message(ctx))
}

/// Whether two entries have room, and are written.
fn fills(queue: &mut Queue) -> bool {
    queue.size() == 2
        && has_room_for(queue, 2)
        && is_empty(queue)
        && writes_success(queue, 7)
        && has_room_for(queue, 1)
        && writes_success(queue, 8)
        && has_room_for(queue, 0)
}

/// Whether they are read in order, with one that is written meanwhile.
fn drains(queue: &mut Queue) -> bool {
    starts_with(queue, 7)
        && pops(queue, 7)
        && has_room_for(queue, 1)
        && writes_success(queue, 9)
        && pops(queue, 8)
        && pops(queue, 9)
        && pops_none(queue)
        && queue.has_room(2)
}

fn new_is_filled_and_read(alloc: Global) -> bool {
    match Queue::new(alloc, 2) {
        Ok(mut queue) => fills(&mut queue) && drains(&mut queue),
        Err(_) => false,
    }
}

#[test]
fn a_queue_of_two_is_filled_and_read(rt: HostRuntime) -> Result<(), Fail> {
    assert!(rt; new_is_filled_and_read(rt.alloc()));
    Ok(())
}

fn reads_none(queue: &mut Queue) -> bool {
    match queue.read() {
        Err(Fault::NoEntry) => true,
        _ => false,
    }
}

/// Whether the first entry is an error, so that it is not read as a success.
fn reads_avail(queue: &mut Queue) -> bool {
    match queue.read() {
        Err(Fault::Avail) => true,
        _ => false,
    }
}

fn reads_success(queue: &mut Queue, wanted: u64) -> bool {
    match queue.read() {
        Ok(Entry::Updated { ctx }) => ctx == wanted,
        _ => false,
    }
}

fn reads_failure(queue: &mut Queue, ctx: u64) -> bool {
    match queue.read_err() {
        Ok(entry) => entry.ctx == Some(ctx),
        Err(_) => false,
    }
}

fn reads_no_failure(queue: &mut Queue) -> bool {
    match queue.read_err() {
        Err(Fault::NoEntry) => true,
        _ => false,
    }
}

/// Whether a failure and a success behind it are each read as what they are.
fn reads_each(queue: &mut Queue) -> bool {
    reads_none(queue)
        && reads_no_failure(queue)
        && writes_failure(queue, 7)
        && writes_success(queue, 8)
        && reads_avail(queue)
        && !queue.has_room(1)
        && reads_failure(queue, 7)
        && reads_no_failure(queue)
        && reads_success(queue, 8)
}

fn new_reads_each(alloc: Global) -> bool {
    match Queue::new(alloc, 2) {
        Ok(mut queue) => reads_each(&mut queue),
        Err(_) => false,
    }
}

#[test]
fn an_error_is_read_as_an_error_alone(rt: HostRuntime) -> Result<(), Fail> {
    assert!(rt; new_reads_each(rt.alloc()));
    Ok(())
}

/// Writes two entries or, where both have no room, nothing.
fn write_both(queue: &mut Queue) -> bool
    ensures { result ≡ has_room 2 queue.old }
{
    if !queue.has_room(2) {
        return false;
    }
    queue.write::<(), NoCall>(&(), updated(1));
    queue.write::<(), NoCall>(&(), updated(2));
    true
}

/// Whether two entries are written into a queue of three, and two more are not.
fn writes_both_once(alloc: Global) -> bool {
    match Queue::new(alloc, 3) {
        Ok(mut queue) => { write_both(&mut queue) && !write_both(&mut queue) && queue.has_room(1) }
        Err(_) => false,
    }
}

#[test]
fn two_entries_are_written_where_both_have_room(rt: HostRuntime) -> Result<(), Fail> {
    assert!(rt; writes_both_once(rt.alloc()));
    Ok(())
}

/// Contracts know both numbers; what runs has the entries alone.
fn two_written(alloc: Global) -> Result<Queue, NoMemory>
    ensures { IfOk result (λ queue. map (λ (w : Written). w.call) queue.written ≡ None ∷ Some (2 ^ 64) ∷ []) }
{
    let mut queue = Queue::new(alloc, 2)?;
    queue.write::<(), NoCall>(&(), updated(7));
    let told = Snapshot::of(&(u64::MAX, 1));
    queue.write::<Snapshot<(u64, u64)>, Summed>(&told, updated(8));
    Ok(queue)
}

/// Whether both are read.
fn reads_two(alloc: Global) -> bool {
    match two_written(alloc) {
        Ok(mut queue) => pops(&mut queue, 7) && starts_with(&queue, 8),
        Err(_) => false,
    }
}

#[test]
fn an_entry_is_of_a_call_that_no_code_has(rt: HostRuntime) -> Result<(), Fail> {
    assert!(rt; reads_two(rt.alloc()));
    Ok(())
}

/// Whether the counter of a class counts so many successes and errors.
fn has_counted(counters: &Counters, class: Class, successes: u64, errors: u64) -> bool {
    counters.read(class) == successes && counters.read_err(class) == errors
}

/// Counts of three classes, one of them at its end.
fn counted() -> Counters {
    let mut counters = Counters::new();
    counters.add(Class::Send, u64::MAX);
    counters.count(Class::Send, true);
    counters.count(Class::Send, false);
    counters.count(Class::Recv, true);
    counters.add(Class::Recv, 4);
    counters.count(Class::RemoteWrite, false);
    counters
}

fn has_reached(counters: &Counters, class: Class, n: u64) -> bool {
    counters.reached(class, n)
}

#[test]
fn counters_count_by_class_and_stay_at_their_ends(rt: HostRuntime) {
    let counters = counted();
    let rows = [
        (Class::Send, u64::MAX, 1),
        (Class::Recv, 5, 0),
        (Class::Read, 0, 0),
        (Class::Write, 0, 0),
        (Class::RemoteRead, 0, 0),
        (Class::RemoteWrite, 0, 1),
    ];
    for (class, successes, errors) in rows {
        assert!(rt;
            has_counted(&counters, class, successes, errors),
            "{class:?}"
        );
    }
    assert!(rt; has_reached(&counters, Class::Recv, 5) && !has_reached(&counters, Class::Recv, 6));
}
