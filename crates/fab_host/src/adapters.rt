//! The real files, output and clock, as the run sees them. They tell no contents, and count their faults.
ghost use Rattle.std.specs.Prelude.{◌≡◌, ◌+◌, ◌^◌, ◌<◌, ◌≤◌, IfOk, IfSome, OnErr, is_ok, if◌then◌else◌, None, length, take, vec_len};
ghost use Rattle.std.specs.Io.KnownBytes.{Appends, Keeps};
ghost use Rattle.fab_base.specs.Counts.{Rose, counted};
ghost use Rattle.fab_outside.specs.Refused.{IfTooLong};

use fab_base::{Buf, Gate, NoMemory, Text};
use fab_outside::{Clock, Depot, Failed, LoadRefused, Sink};
use std::alloc::{AllocError, Global};
use std::io::{Read, Write};
use std::rt::Files;
use std::{fs, rt};

/// Why a file was not read.
#[derive(Clone, Copy)]
enum ReadRefused {
    Failed,
    NoMemory,
}

impl From<AllocError> for ReadRefused {
    ghost use Rattle.fab_host.specs.declared.adapters.ReadRefused.{ReadRefused};

    ghost from_gives = { λ _ refused. refused ≡ ReadRefused.NoMemory };

    fn from(_error: AllocError) -> ReadRefused {
        ReadRefused::NoMemory
    }
}

/// The files of the system, by their paths.
#[derive(Drop)]
pub struct FileDepot<'a, R: Files> {
    rt: &'a R,
    /// How many loads failed.
    pub faults: u64,
    /// The name given to the load that failed last.
    pub failed: Option<Text>,
}

impl<'a, R: Files> FileDepot<'a, R> {
    pub fn new(rt: &'a R) -> FileDepot<'a, R>
        ensures faults { result.faults ≡ 0 }
        ensures failed { result.failed ≡ None }
    {
        FileDepot {
            rt,
            faults: 0,
            failed: None,
        }
    }
}

/// The first `most` bytes that a reader gives, or all where it gives fewer.
fn read_up_to<F: Read>(alloc: Global, file: &mut F, most: u64) -> Result<Vec<u8>, ReadRefused>
    ensures limit { IfOk result (λ bytes. vec_len bytes ≤ most) }
    ensures honest { IfOk result (λ bytes. IfSome (F.remaining file.old) (λ left. bytes.items ≡ take most left)) }
{
    let mut bytes = Vec::new(alloc);
    let mut chunk = [0u8; 4096];
    while (bytes.len() as u64) < most {
        let room = chunk.len().min((most - bytes.len() as u64) as usize);
        let Ok(count) = file.read(&mut chunk[..room]) else {
            return Err(ReadRefused::Failed);
        };
        if count == 0 {
            break;
        }
        bytes.extend_from_slice(&chunk[..count])?;
    }
    Ok(bytes)
}

/// All bytes that a reader gives, where they are at most `limit`.
fn read_whole<F: Read>(alloc: Global, file: &mut F, limit: u64) -> Result<Buf, LoadRefused>
    requires { limit + 1 < 2 ^ 64 }
    ensures ok { IfOk result (λ bytes. IfSome (F.remaining file.old) (λ left. bytes ≡ left)) }
    ensures ok_length { IfOk result (λ bytes. length bytes ≤ limit) }
    ensures too_long { IfTooLong result (λ bytes. IfSome (F.remaining file.old) (λ left. bytes ≡ take (limit + 1) left)) }
    ensures too_long_length { IfTooLong result (λ bytes. length bytes ≡ limit + 1) }
{
    match read_up_to(alloc, file, limit + 1) {
        Ok(bytes) => {
            if bytes.len() as u64 <= limit {
                Ok(Buf::from_vec(bytes))
            } else {
                Err(LoadRefused::TooLong(Buf::from_vec(bytes)))
            }
        }
        Err(ReadRefused::NoMemory) => Err(LoadRefused::NoMemory),
        Err(ReadRefused::Failed) => Err(LoadRefused::Failed),
    }
}

impl<R: Files> Depot for FileDepot<'_, R> {
    ghost files = { λ _. None };

    ghost faults = { λ depot. depot.faults };

    ghost failed_name = { λ depot. depot.failed };

    ghost loaded = { λ _. None };

    fn load(&mut self, alloc: Global, name: &Text, limit: u64) -> Result<Buf, LoadRefused> {
        let kept = name.clone()?;
        let loaded = match fs::open(self.rt, name.as_str()) {
            Ok(mut file) => read_whole(alloc, &mut file, limit),
            Err(_) => Err(LoadRefused::Failed),
        };
        if matches!(loaded, Err(LoadRefused::Failed)) {
            self.faults = self.faults.saturating_add(1);
            self.failed = Some(kept);
        }
        loaded
    }
}

/// An output, as the standard one. A write of no bytes counts as a fault.
#[derive(Drop)]
pub struct OutSink<W> {
    pub out: W,
    /// How many writes failed.
    pub faults: u64,
}

impl<W: Write> OutSink<W> {
    pub fn new(out: W) -> OutSink<W>
        ensures { result ≡ record { out = out; faults = 0 } }
    {
        OutSink { out, faults: 0 }
    }
}

impl<W: Write> Sink for OutSink<W> {
    ghost bytes = { λ _. None };

    ghost faults = { λ sink. sink.faults };

    fn write(&mut self, piece: &[u8]) -> Result<usize, Failed>
        requires { 0 < length piece.now }
        ensures never_falls { self.old.faults ≤ self.new.faults }
        ensures some { IfOk result (λ n. 0 < n) }
        ensures within { IfOk result (λ n. n ≤ length piece.now) }
        ensures failed { OnErr result (Rose self.old.faults self.new.faults) }

        // Where the output's bytes are known, they grew by those taken, and stayed where none were.
        ensures ok { IfOk result (λ n. Appends (W.contents self.old.out) (W.contents self.new.out) (take n piece.now)) }
        ensures err { OnErr result (Keeps (W.contents self.old.out) (W.contents self.new.out)) }
        ensures counted { self.new.faults ≡ (if is_ok result then self.old.faults else counted self.old.faults) }
    {
        match self.out.write(piece) {
            Ok(taken) if taken > 0 => Ok(taken),
            _ => {
                self.faults = self.faults.saturating_add(1);
                Err(Failed)
            }
        }
    }
}

/// The system's clock that never goes back, in microseconds. Where it can't be read, the last moment is
/// given again.
#[derive(Drop)]
pub struct WallClock<'a, R: rt::Clock> {
    rt: &'a R,
    given: u64,
    first: u64,
    last: u64,
}

impl<'a, R: rt::Clock> WallClock<'a, R> {
    pub fn new(rt: &'a R) -> WallClock<'a, R>
        ensures { result.given ≡ 0 }
    {
        WallClock {
            rt,
            given: 0,
            first: 0,
            last: 0,
        }
    }
}

impl<R: rt::Clock> Clock for WallClock<'_, R> {
    ghost given = { λ clock. clock.given };

    ghost first = { λ clock. clock.first };

    ghost last = { λ clock. clock.last };

    fn now(&mut self) -> u64 {
        if let Ok(time) = self.rt.monotonic() {
            self.last = u64::try_from(time.as_micros()).unwrap_or(u64::MAX);
        }
        if self.given == 0 {
            self.first = self.last;
        }
        self.given = self.given.saturating_add(1);
        self.last
    }
}

/// A gate at which no turn waits.
pub struct OpenGate;

impl Gate for OpenGate {
    fn enter(&self, _peer: u32, _round: u32) {}

    fn leave(&self, _peer: u32, _round: u32) {}
}
