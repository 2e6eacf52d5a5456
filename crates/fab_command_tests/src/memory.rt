//! The depot, the sink and the clock over memory.
use fab_base::{Buf, Text};
use fab_outside::{
    Clock, Depot, Failed, LoadRefused, MemoryClock, MemoryDepot, MemorySink, Sink, write_all,
};
use std::alloc::Global;
use std::process::Abort;
use std::test::Fail;

/// A depot of two files, named by how many bytes they have, in which the loads of these numbers fail.
fn depot_of(alloc: Global, failing: &[u64]) -> Result<MemoryDepot, Fail> {
    let mut files = Vec::new(alloc);
    files.push((Text::copy(alloc, "five")?, Buf::copy(alloc, b"12345")?))?;
    files.push((Text::copy(alloc, "six")?, Buf::copy(alloc, b"123456")?))?;
    Ok(MemoryDepot::new(files, Vec::from_slice(alloc, failing)?))
}

/// The bytes that were loaded, all of a file's or its first ones.
fn bytes_of(loaded: &Result<Buf, LoadRefused>) -> Option<&[u8]> {
    match loaded {
        Ok(bytes) | Err(LoadRefused::TooLong(bytes)) => Some(bytes.as_slice()),
        Err(_) => None,
    }
}

fn is_failed(loaded: &Result<Buf, LoadRefused>) -> bool {
    matches!(loaded, Err(LoadRefused::Failed))
}

fn is_file(name: &Option<Text>, file: &str) -> bool {
    match name {
        Some(name) => name.as_str() == file,
        None => false,
    }
}

/// A file, a limit, the bytes that are loaded, and whether they are the whole file.
type Row = (&'static str, u32, &'static str, bool);

const ROWS: [Row; 4] = [
    ("five", 5, "12345", true),
    ("six", 5, "123456", false),
    ("six", 4, "12345", false),
    ("six", 6, "123456", true),
];

fn loads(rt: &impl Abort, alloc: Global, depot: &mut MemoryDepot, row: Row) -> Result<(), Fail> {
    let (file, limit, bytes, is_whole) = row;
    let name = Text::copy(alloc, file)?;
    let loaded = depot.load(alloc, &name, u64::from(limit));
    assert_eq!(rt; bytes_of(&loaded), Some(bytes.as_bytes()));
    assert_eq!(rt; loaded.is_ok(), is_whole);
    Ok(())
}

#[test]
fn a_file_is_loaded_up_to_the_limit(rt: HostRuntime) -> Result<(), Fail> {
    let mut depot = depot_of(rt.alloc(), &[])?;
    for row in ROWS {
        loads(&rt, rt.alloc(), &mut depot, row)?;
    }
    assert_eq!(rt; (depot.calls, depot.faults), (4, 0));
    assert!(rt; depot.failed.is_none());
    Ok(())
}

/// A load of this file fails, as so many did then.
fn fails(
    rt: &impl Abort,
    alloc: Global,
    depot: &mut MemoryDepot,
    file: &str,
    faults: u64,
) -> Result<(), Fail> {
    let name = Text::copy(alloc, file)?;
    assert!(rt; is_failed(&depot.load(alloc, &name, 9)));
    assert_eq!(rt; depot.faults, faults);
    assert!(rt; is_file(&depot.failed, file));
    Ok(())
}

#[test]
fn a_load_fails_at_a_listed_call_and_at_a_missing_file(rt: HostRuntime) -> Result<(), Fail> {
    let five = Text::copy(rt.alloc(), "five")?;
    let mut depot = depot_of(rt.alloc(), &[2])?;
    fails(&rt, rt.alloc(), &mut depot, "none", 1)?;
    fails(&rt, rt.alloc(), &mut depot, "five", 2)?;
    assert!(rt; depot.load(rt.alloc(), &five, 9).is_ok());
    Ok(())
}

#[test]
fn a_text_is_written_five_bytes_at_a_time(rt: HostRuntime) -> Result<(), Fail> {
    let mut sink = MemorySink::new(rt.alloc(), 5, Vec::new(rt.alloc()));
    assert!(rt; write_all(&mut sink, b"hello, world") == Ok(()));
    assert_eq!(rt; sink.bytes.as_slice(), b"hello, world".as_slice());
    assert_eq!(rt; (sink.calls, sink.faults), (3, 0));
    assert!(rt; write_all(&mut sink, b"") == Ok(()));
    assert_eq!(rt; sink.calls, 3);
    Ok(())
}

#[test]
fn a_failing_write_leaves_what_was_written(rt: HostRuntime) -> Result<(), Fail> {
    let failing = Vec::from_slice(rt.alloc(), &[2])?;
    let mut sink = MemorySink::new(rt.alloc(), 5, failing);
    assert!(rt; write_all(&mut sink, b"hello, world") == Err(Failed));
    assert_eq!(rt; sink.bytes.as_slice(), b"hello".as_slice());
    assert_eq!(rt; (sink.calls, sink.faults), (2, 1));
    assert!(rt; sink.write(b"!") == Ok(1));
    Ok(())
}

#[test]
fn a_clock_gives_its_moments_in_order(rt: HostRuntime) -> Result<(), Fail> {
    let mut clock = MemoryClock::new(Vec::from_slice(rt.alloc(), &[100, 140])?);
    for want in [100, 140, 140] {
        assert_eq!(rt; clock.now(), want);
        assert_eq!(rt; (clock.first, clock.last), (100, want));
    }
    assert_eq!(rt; clock.given, 3);
    Ok(())
}
