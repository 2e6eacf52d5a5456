//! A depot, a sink and a clock over memory. They tell everything, and fail where they are told to.
ghost use Rattle.std.specs.Prelude.{◌≡◌, ◌≢◌, ℕ, ◌+◌, ◌-◌, ◌^◌, ◌<◌, ◌≤◌, ◌⊎◌, ◌++◌, if◌then◌else◌, is_ok, slice_index, IfOk, IsOk, IsErr, OnOk, OnErr, IsErrOf, IfSome, Some, None, List, [], length, take, drop, min, Contains};
ghost use Rattle.std.specs.Option.{option_copied};
ghost use Rattle.fab_outside.specs.Outside.{file_of};
ghost use Rattle.fab_base.specs.Counts.{counted};

use crate::outside::{Clock, Depot, Failed, LoadRefused, Sink};
use fab_base::{Buf, Text};
use std::alloc::Global;

/// Files in memory. Of two files of one name the first counts.
#[derive(Drop)]
pub struct MemoryDepot {
    /// The files' names and bytes.
    pub files: Vec<(Text, Buf)>,
    /// The numbers, from 1, of the loads that are to fail.
    pub failing: Vec<u64>,
    /// How many loads were made.
    pub calls: u64,
    /// The name given to the load that failed last.
    pub failed: Option<Text>,
    /// How many loads failed.
    pub faults: u64,
}

impl MemoryDepot {
    /// A depot of these files, whose loads of these numbers fail. No load was made or failed.
    pub fn new(files: Vec<(Text, Buf)>, failing: Vec<u64>) -> MemoryDepot
        ensures { result ≡ record { files = files; failing = failing; calls = 0; failed = None; faults = 0 } }
    {
        MemoryDepot {
            files,
            failing,
            calls: 0,
            failed: None,
            faults: 0,
        }
    }

    fn find(&self, name: &Text) -> Option<&Buf>
        ensures { option_copied result ≡ file_of self.now.files.items name.now }
    {
        let file = self.files.iter().find(|file| file.0 == *name)?;
        Some(&file.1)
    }

    fn fail(&mut self, name: Text)
        ensures { self.new ≡ record self.old { failed = Some name; faults = counted self.old.faults } }
    {
        self.failed = Some(name);
        self.faults = self.faults.saturating_add(1);
    }
}

impl Depot for MemoryDepot {
    ghost use Rattle.fab_outside.specs.Outside.{CountsUnder, IsFile, BeginsFile, file_of, one_more};
    ghost use Rattle.fab_base.specs.Counts.{Rose};
    ghost use Rattle.fab_outside.specs.Refused.{IfTooLong};
    ghost use Rattle.fab_outside.specs.Memory.{IsToldToFail, is_failed};

    ghost files = { λ depot. Some (file_of depot.files.items) };

    ghost faults = { λ depot. depot.faults };

    ghost failed_name = { λ depot. depot.failed };

    ghost loaded = { λ _. None };

    /// The first file of this name. Fails where this load's number is listed, and where there is no
    /// such file, and nowhere else. Takes the memory of the name first. The name and the bytes are
    /// copied, so memory may be wanting at any load; such a load leaves all but the number of calls.
    fn load(&mut self, alloc: Global, name: &Text, limit: u64) -> Result<Buf, LoadRefused>
        requires { limit + 1 < 2 ^ 64 }
        ensures files { self.new.files ≡ self.old.files }
        ensures never_falls { self.old.faults ≤ self.new.faults }
        ensures counts { CountsUnder name.now self.old.faults self.new.faults self.old.failed self.new.failed }
        ensures ok { IfOk result (λ bytes. file_of self.old.files.items name.now ≡ Some bytes) }
        ensures ok_length { IfOk result (λ bytes. length bytes ≤ limit) }
        ensures too_long { IfTooLong result (λ bytes. BeginsFile (Some (file_of self.old.files.items)) name.now bytes) }
        ensures too_long_length { IfTooLong result (λ bytes. length bytes ≡ limit + 1) }
        ensures failed { IsErrOf result LoadRefused.Failed
            → Rose self.old.faults self.new.faults × (self.new.failed ≡ Some name.now) }

        ensures loads { None ≡ one_more None name.now }

        // It fails where it is told to, and counts exactly these failures.
        ensures told { IsErrOf result LoadRefused.Failed → IsToldToFail self.old name.now }
        ensures fails { IsToldToFail self.old name.now
            → IsErrOf result LoadRefused.Failed ⊎ IsErrOf result LoadRefused.NoMemory }
        ensures counted { self.new.faults ≡ (if is_failed result then counted self.old.faults else self.old.faults) }
        ensures calls { self.new.calls ≡ counted self.old.calls }
        ensures failing { self.new.failing ≡ self.old.failing }
    {
        self.calls = self.calls.saturating_add(1);
        let kept = name.clone()?;
        if self.failing.contains(&self.calls) {
            self.fail(kept);
            return Err(LoadRefused::Failed);
        }
        let Some(bytes) = self.find(name) else {
            self.fail(kept);
            return Err(LoadRefused::Failed);
        };
        let bytes = bytes.as_slice();
        if bytes.len() as u64 <= limit {
            Ok(Buf::copy(alloc, bytes)?)
        } else {
            let cut = Buf::copy(alloc, &bytes[..(limit + 1) as usize])?;
            Err(LoadRefused::TooLong(cut))
        }
    }
}

/// An output in memory.
#[derive(Drop)]
pub struct MemorySink {
    /// What was written.
    pub bytes: Vec<u8>,
    /// At most how many bytes a call takes, at least 1.
    pub most: u64,
    /// The numbers, from 1, of the calls that are to fail.
    pub failing: Vec<u64>,
    /// How many calls were made.
    pub calls: u64,
    /// How many calls failed.
    pub faults: u64,
    pub ghost takes_some: { 0 < most },
}

impl MemorySink {
    /// An empty output that takes at most so many bytes at a call, and whose calls of these numbers
    /// fail. No call was made or failed.
    pub fn new(alloc: Global, most: u64, failing: Vec<u64>) -> MemorySink
        requires { 0 < most }
        ensures empty { result.bytes.items ≡ [] }
        ensures most { result.most ≡ most }
        ensures failing { result.failing ≡ failing }
        ensures calls { result.calls ≡ 0 }
        ensures faults { result.faults ≡ 0 }
    {
        MemorySink {
            bytes: Vec::new(alloc),
            most,
            failing,
            calls: 0,
            faults: 0,
        }
    }
}

impl Sink for MemorySink {
    ghost use Rattle.fab_base.specs.Counts.{Rose};
    ghost use Rattle.fab_outside.specs.Memory.{IsListed, LacksRoom};

    ghost bytes = { λ sink. Some sink.bytes.items };

    ghost faults = { λ sink. sink.faults };

    /// Takes as many bytes as there are, but at most `most`. Fails where this call's number is listed,
    /// and else only where the bytes have no room and memory for more is wanting.
    fn write(&mut self, piece: &[u8]) -> Result<usize, Failed>
        requires { 0 < length piece.now }
        ensures never_falls { self.old.faults ≤ self.new.faults }
        ensures some { IfOk result (λ n. 0 < n) }
        ensures within { IfOk result (λ n. n ≤ length piece.now) }
        ensures ok { IfOk result (λ n. self.new.bytes.items ≡ self.old.bytes.items ++ take n piece.now) }
        ensures failed { OnErr result (Rose self.old.faults self.new.faults) }
        ensures err { OnErr result (self.new.bytes.items ≡ self.old.bytes.items) }

        ensures taken { IfOk result (λ n. n ≡ min self.old.most (length piece.now)) }
        ensures fails { IsListed self.old → IsErr result }
        ensures told { IsErr result → IsListed self.old ⊎ LacksRoom self.old (length piece.now) }
        ensures counted { self.new.faults ≡ (if is_ok result then self.old.faults else counted self.old.faults) }
        ensures calls { self.new.calls ≡ counted self.old.calls }
        ensures failing { self.new.failing ≡ self.old.failing }
        ensures most { self.new.most ≡ self.old.most }
    {
        self.calls = self.calls.saturating_add(1);
        let taken = piece.len().min(self.most as usize);
        if self.failing.contains(&self.calls) {
            self.faults = self.faults.saturating_add(1);
            return Err(Failed);
        }
        if self.bytes.extend_from_slice(&piece[..taken]).is_err() {
            self.faults = self.faults.saturating_add(1);
            return Err(Failed);
        }
        Ok(taken)
    }
}

/// A clock that gives the moments of a list in their order, and the last one from then on.
#[derive(Drop)]
pub struct MemoryClock {
    /// The moments, in microseconds.
    pub moments: Vec<u64>,
    /// How many moments were given.
    pub given: u64,
    /// The first moment given.
    pub first: u64,
    /// The last moment given.
    pub last: u64,
}

impl MemoryClock {
    /// A clock that gives these moments. It has given none.
    pub fn new(moments: Vec<u64>) -> MemoryClock
        ensures { result ≡ record { moments = moments; given = 0; first = 0; last = 0 } }
    {
        MemoryClock {
            moments,
            given: 0,
            first: 0,
            last: 0,
        }
    }
}

impl Clock for MemoryClock {
    ghost use Rattle.fab_outside.specs.Outside.{Next};

    ghost given = { λ clock. clock.given };

    ghost first = { λ clock. clock.first };

    ghost last = { λ clock. clock.last };

    /// The next moment of the list, the last one again at its end, and 0 where there is none.
    fn now(&mut self) -> u64
        ensures given { Next self.old.given self.new.given }
        ensures last { self.new.last ≡ result }
        ensures first { self.old.given ≡ 0 → self.new.first ≡ result }
        ensures later { 0 < self.old.given → self.new.first ≡ self.old.first }

        ensures listed { result ≡ slice_index self.old.moments.items
            (min self.old.given (length self.old.moments.items - 1)) }
        ensures counted { self.new.given ≡ counted self.old.given }
        ensures moments { self.new.moments ≡ self.old.moments }
    {
        let place = self
            .moments
            .len()
            .saturating_sub(1)
            .min(self.given as usize);
        let moment = self.moments.get(place).copied().unwrap_or(0);
        if self.given == 0 {
            self.first = moment;
        }
        self.given = self.given.saturating_add(1);
        self.last = moment;
        moment
    }
}
