//! A sum that keeps nothing, and a stamp that remembers what the sum was.
ghost use Rattle.std.specs.Prelude.{◌≡◌, ℕ, ◌+◌, IfOk};

use fab_base::NoMemory;
use fab_record::record::{Begins, Change, Record};
use std::alloc::Global;
use std::marker::Model;
use std::snapshot::Snapshot;

/// A number without end. No value of it is made.
pub struct Number {
    unused: (),
}

impl Model for Number {
    ghost use Rattle.std.specs.Prelude.{ℕ};

    ghost Value = { ℕ };

    ghost view = { λ _. 0 };
}

pub struct Counting;

impl Begins<(), Number> for Counting {
    ghost first = { λ _. 0 };
}

impl Change<u64, Number> for Counting {
    ghost after = { λ more sum. sum + more };
}

#[derive(Drop)]
pub struct Sum {
    past: Record<(), Number, Counting>,
}

impl Model for Sum {
    ghost use Rattle.std.specs.Prelude.{ℕ};

    ghost Value = { ℕ };

    ghost view = { λ s. s.past };
}

#[derive(Drop)]
pub struct Stamped {
    at: Snapshot<Sum>,
    text: u8,
}

impl Model for Stamped {
    ghost use Rattle.std.specs.Prelude.{ℕ};

    ghost Value = { ℕ };

    ghost view = { λ s. s.at.value };
}

impl Sum {
    fn new(alloc: Global) -> Result<Sum, NoMemory>
        ensures { IfOk result (λ s. s ≡ 0) }
    {
        Ok(Sum {
            past: Record::new(alloc, &())?,
        })
    }

    fn add(&mut self, more: u64)
        ensures { self.new ≡ self.old + more }
    {
        self.past.note::<u64, Counting>(&more);
    }

    fn stamp(&self, text: u8) -> Stamped
        ensures { result ≡ self.now }
    {
        Stamped {
            at: Snapshot::of(self),
            text,
        }
    }
}

/// Contracts know the sum at both moments; what runs has the text alone.
fn two(alloc: Global) -> Result<(Sum, Stamped), NoMemory>
    ensures { IfOk result (λ s. (s.0 ≡ 7) × (s.1 ≡ 4)) }
{
    let mut sum = Sum::new(alloc)?;
    sum.add(4);
    let stamp = sum.stamp(9);
    sum.add(3);
    Ok((sum, stamp))
}

#[test]
fn a_record_takes_notes(rt: HostRuntime) -> Result<(), NoMemory> {
    let (_sum, stamp) = two(rt.alloc())?;
    assert_eq!(rt; stamp.text, 9);
    Ok(())
}
