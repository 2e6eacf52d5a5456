//! An atomic over a copy of its range.
ghost use Rattle.std.specs.Prelude.{◌≡◌, ◌%◌, ◌≤◌, length, vec_capacity};
ghost use Rattle.fab_base.specs.declared.limits.TheConstants.{INJECT_BYTES};
ghost use Rattle.fab_base.specs.Elements.{element_size};
ghost use Rattle.fab_model.specs.Target.{elements};
ghost use Rattle.fab_atomics.specs.Operands.{operand_len, compare_len};

use fab_atomics::apply;
use fab_base::{Atom, INJECT_BYTES, NoMemory};
use std::alloc::Global;
use std::marker::Model;

/// Memory for the elements of an atomic, as they were and as they become. Contracts see what they became in the last one.
#[derive(Drop)]
pub(crate) struct Elements {
    becomes: Vec<u8>,
    was: Vec<u8>,
}

impl Model for Elements {
    ghost use Rattle.std.specs.Prelude.{List, ℕ, ◌≤◌, vec_capacity};
    ghost use Rattle.fab_base.specs.declared.limits.TheConstants.{INJECT_BYTES};

    ghost Value = { List ℕ };

    ghost view = { λ e. e.becomes.items };

    ghost invariant = { λ e. (INJECT_BYTES ≤ vec_capacity e.becomes) × (INJECT_BYTES ≤ vec_capacity e.was) };
}

/// Copies the bytes into memory that is there, in place of what it had.
fn refill(copy: &mut Vec<u8>, bytes: &[u8])
    requires few { length bytes.now ≤ INJECT_BYTES }
    requires room { INJECT_BYTES ≤ vec_capacity copy.old }
    ensures items { copy.new.items ≡ bytes.now }
    ensures room { INJECT_BYTES ≤ vec_capacity copy.new }
{
    copy.clear();
    let _ = copy.extend_from_slice(bytes);
}

impl Elements {
    /// Takes the memory for the longest range.
    pub(crate) fn new(alloc: Global) -> Result<Elements, NoMemory> {
        let becomes = Vec::with_capacity(alloc, INJECT_BYTES as usize)?;
        let was = Vec::with_capacity(alloc, INJECT_BYTES as usize)?;
        Ok(Elements { becomes, was })
    }

    /// Does the atomic to a copy of the range.
    pub(crate) fn change(&mut self, atom: Atom, range: &[u8], operand: &[u8], compare: &[u8])
        requires whole { length range.now % element_size atom.num ≡ 0 }
        requires few { length range.now ≤ INJECT_BYTES }
        requires operand { length operand.now ≡ operand_len atom.op (length range.now) }
        requires compare { length compare.now ≡ compare_len atom.op (length range.now) }
        ensures len { length self.new ≡ length range.now }
        ensures changed { self.new ≡ elements (length range.now) atom range.now operand.now compare.now }
    {
        refill(&mut self.becomes, range);
        refill(&mut self.was, range);
        apply(
            atom.op,
            atom.num,
            self.becomes.as_mut_slice(),
            operand,
            compare,
            self.was.as_mut_slice(),
        );
    }

    /// What the elements became, lent.
    pub(crate) fn as_slice(&self) -> &[u8]
        ensures { result.now ≡ self.now }
    {
        self.becomes.as_slice()
    }
}
