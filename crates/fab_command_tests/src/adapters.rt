//! The real files, an output and a clock behind the traits of `fab_outside`.
use fab_base::Text;
use fab_host::{FileDepot, OutSink, WallClock};
use fab_outside::{Clock, Depot, Failed, LoadRefused, Sink, write_all};
use std::alloc::Global;
use std::cell::Cell;
use std::io::{ErrorKind, Write};
use std::rt::Files;
use std::test::Fail;
use std::time::Duration;
use std::{fs, io, rt};

/// Whether these bytes are loaded as the whole file, or as the first ones of a longer one.
fn loads<R: Files>(depot: &mut FileDepot<R>, alloc: Global, name: &Text, whole: bool) -> bool {
    let limit = if whole { 6 } else { 4 };
    match depot.load(alloc, name, limit) {
        Ok(bytes) => whole && bytes.as_slice() == b"123456".as_slice(),
        Err(LoadRefused::TooLong(bytes)) => !whole && bytes.as_slice() == b"12345".as_slice(),
        Err(_) => false,
    }
}

/// Whether the load fails, and is told by its name.
fn fails<R: Files>(depot: &mut FileDepot<R>, alloc: Global, name: &Text) -> bool {
    let failed = matches!(depot.load(alloc, name, 6), Err(LoadRefused::Failed));
    let told = match &depot.failed {
        Some(file) => *file == *name,
        None => false,
    };
    failed && told && depot.faults == 1
}

#[test]
fn a_file_is_loaded_up_to_the_limit(rt: HostRuntime) -> Result<(), Fail> {
    let path = "fabric_depot_test.bin";
    let name = Text::copy(rt.alloc(), path)?;
    let mut depot = FileDepot::new(&rt);
    fs::write(&rt, path, b"123456")?;
    assert!(rt; loads(&mut depot, rt.alloc(), &name, true));
    assert!(rt; loads(&mut depot, rt.alloc(), &name, false));
    assert_eq!(rt; depot.faults, 0);
    fs::remove_file(&rt, path)?;
    assert!(rt; fails(&mut depot, rt.alloc(), &name));
    Ok(())
}

/// Takes at most four bytes in all.
struct Narrow {
    room: usize,
}

impl Write for Narrow {
    fn write(&mut self, buf: &[u8]) -> io::Result<usize> {
        let taken = buf.len().min(self.room);
        self.room -= taken;
        Ok(taken)
    }

    fn flush(&mut self) -> io::Result<()> {
        Ok(())
    }
}

#[test]
fn a_write_of_no_bytes_is_a_fault(rt: HostRuntime) -> Result<(), Fail> {
    let mut sink = OutSink::new(Narrow { room: 4 });
    assert!(rt; sink.write(b"abc") == Ok(3));
    assert!(rt; write_all(&mut sink, b"def") == Err(Failed));
    assert_eq!(rt; sink.faults, 1);
    let OutSink {
        out: Narrow { room },
        ..
    } = sink;
    assert_eq!(rt; room, 0);
    Ok(())
}

/// A clock of the system that gives 5 and 7 milliseconds, and can't be read from then on.
#[derive(Drop)]
struct TwoMoments {
    next: Cell<u64>,
}

impl rt::Clock for TwoMoments {
    fn monotonic(&self) -> io::Result<Duration> {
        let moment = self.next.get();
        if moment > 7 {
            return Err(io::Error::from(ErrorKind::Unsupported));
        }
        self.next.set(moment + 2);
        Ok(Duration::from_millis(moment))
    }

    fn since_1970(&self) -> io::Result<Duration> {
        Err(io::Error::from(ErrorKind::Unsupported))
    }
}

#[test]
fn a_clock_gives_microseconds_and_its_last_moment_again(rt: HostRuntime) {
    let times = TwoMoments { next: Cell::new(5) };
    let mut clock = WallClock::new(&times);
    for want in [5_000, 7_000, 7_000] {
        assert_eq!(rt; clock.now(), want);
    }
}
