//! What the clauses of traits refuse, of any type that has the trait.
//!
//! A call of a trait has no body of its own that an edit could change. So such calls are handed on here as they are, with the clauses that
//! the theorems use, and the theorems (`proofs/`) say for all values what contradicts these clauses. Where the trait loses the clause, the
//! call handed on is not proved. `README.md` has the list.
#![tactic(auto)]

pub mod endpoints;
pub mod machines;
pub mod ports;
pub mod stores;
