//! What lies outside the program: files, the output, the time, and what each tells of itself.
ghost use Rattle.std.specs.Prelude.{◌≡◌, ◌≢◌, ℕ, ◌+◌, ◌^◌, ◌<◌, ◌≤◌, IfOk, IfErr, OnErr, IsErrOf, List, length, take, Option, Some};
ghost use Rattle.fab_outside.specs.Outside.{Next, CountsUnder, IsFile, BeginsFile, one_more};
ghost use Rattle.fab_base.specs.Counts.{Rose};
ghost use Rattle.std.specs.Io.KnownBytes.{append_known};
ghost use Rattle.fab_outside.specs.Refused.{IfTooLong};

use fab_base::{Buf, NoMemory, Text};
use std::alloc::{AllocError, Global};

/// The output failed: it took nothing of this piece.
#[derive(Clone, Copy, Drop, Eq, PartialEq)]
pub struct Failed;

/// Why a file was not loaded.
#[derive(Drop, Eq, PartialEq)]
pub enum LoadRefused {
    /// The file could not be read.
    Failed,
    /// The file is longer than the limit. These are its first `limit + 1` bytes.
    TooLong(Buf),
    /// Want of memory.
    NoMemory,
}

impl From<NoMemory> for LoadRefused {
    ghost use Rattle.std.specs.Prelude.{◌≡◌};
    ghost use Rattle.fab_outside.specs.declared.outside.LoadRefused.{LoadRefused};

    ghost from_gives = { λ _ refused. refused ≡ LoadRefused.NoMemory };

    fn from(_error: NoMemory) -> LoadRefused {
        LoadRefused::NoMemory
    }
}

impl From<AllocError> for LoadRefused {
    ghost use Rattle.std.specs.Prelude.{◌≡◌};
    ghost use Rattle.fab_outside.specs.declared.outside.LoadRefused.{LoadRefused};

    ghost from_gives = { λ _ refused. refused ≡ LoadRefused.NoMemory };

    fn from(_error: AllocError) -> LoadRefused {
        LoadRefused::NoMemory
    }
}

/// What gives files by their names.
///
/// It tells the files that it holds, or tells none; a count of its faults, which never falls; the name
/// given to the load in which that count last rose; and the names given to all loads, or tells none. A count that is stored in 64 bits stays at
/// its last value, where each fault counts as a rise; whoever makes a depot says that its count begins
/// at 0.
pub trait Depot {
    /// From a name's bytes to that file's bytes, where the depot tells its files.
    ghost files: { Self → Option (List ℕ → Option (List ℕ)) };

    ghost faults: { Self → ℕ };

    ghost failed_name: { Self → Option (List ℕ) };

    /// The names given to the loads so far, in order, where the depot tells them.
    ghost loaded: { Self → Option (List (List ℕ)) };

    /// The whole file of this name, of at most `limit` bytes. Whatever the answer, no file changes.
    ///
    /// # Errors
    ///
    /// `TooLong` where the file has more than `limit` bytes, `Failed` only where the count of faults
    /// rose in this call, and `NoMemory`, which may come before anything is read.
    fn load(&mut self, alloc: Global, name: &Text, limit: u64) -> Result<Buf, LoadRefused>
        requires { limit + 1 < 2 ^ 64 }
        ensures files { files self.new ≡ files self.old }
        ensures never_falls { faults self.old ≤ faults self.new }
        ensures counts { CountsUnder name.now (faults self.old) (faults self.new) (failed_name self.old) (failed_name self.new) }
        ensures ok { IfOk result (λ bytes. IsFile (files self.old) name.now bytes) }
        ensures ok_length { IfOk result (λ bytes. length bytes ≤ limit) }
        ensures too_long { IfTooLong result (λ bytes. BeginsFile (files self.old) name.now bytes) }
        ensures too_long_length { IfTooLong result (λ bytes. length bytes ≡ limit + 1) }
        ensures failed { IsErrOf result LoadRefused.Failed
            → Rose (faults self.old) (faults self.new) × (failed_name self.new ≡ Some name.now) }
        ensures loads { loaded self.new ≡ one_more (loaded self.old) name.now };
}

/// What takes the text.
///
/// It tells the bytes written so far, or tells none, and a count of its faults, which never falls, rises
/// as that of a [`Depot`] does, and begins at 0.
pub trait Sink {
    ghost bytes: { Self → Option (List ℕ) };

    ghost faults: { Self → ℕ };

    /// Takes some of these bytes, from the first on, and answers how many.
    ///
    /// # Errors
    ///
    /// `Failed` only where the count of faults rose in this call. No byte was taken then.
    fn write(&mut self, piece: &[u8]) -> Result<usize, Failed>
        requires { 0 < length piece.now }
        ensures never_falls { faults self.old ≤ faults self.new }
        ensures some { IfOk result (λ n. 0 < n) }
        ensures within { IfOk result (λ n. n ≤ length piece.now) }
        ensures ok { IfOk result (λ n. bytes self.new ≡ append_known (bytes self.old) (take n piece.now)) }
        ensures failed { OnErr result (Rose (faults self.old) (faults self.new)) }
        ensures err { OnErr result (bytes self.new ≡ bytes self.old) };
}

/// What tells the time.
///
/// It tells how many moments it has given, and the first and the last of them.
pub trait Clock {
    ghost given: { Self → ℕ };

    ghost first: { Self → ℕ };

    ghost last: { Self → ℕ };

    /// This moment, in microseconds after some moment that all of this clock's share.
    fn now(&mut self) -> u64
        ensures given { Next (given self.old) (given self.new) }
        ensures last { last self.new ≡ result }
        ensures first { given self.old ≡ 0 → first self.new ≡ result }
        ensures later { 0 < given self.old → first self.new ≡ first self.old };
}
