//! A value that contracts see and that each note changes.
ghost use Rattle.std.specs.Prelude.{◌≡◌, ◌∷◌, IfOk};

use atomic_table::{Play, Seat, Table, TableRule};
use fab_base::NoMemory;
use std::alloc::Global;
use std::marker::{Brand, Model, PhantomData};

/// The value of a record that was just opened, by what it is told then.
pub trait Begins<K, V> {
    ghost first: { K → V };
}

/// What a note does to the value, by what it is told.
pub trait Change<X, V> {
    ghost after: { X → V → V };
}

/// What one load does to the value. The call of [`Record::note`] picks it.
pub trait Turn<V> {
    ghost next: { V → V };
}

impl<V> Turn<V> for Brand {
    ghost next = { λ v. v };
}

/// Nothing is asked of the word or the view: no other seat steps on the table.
pub struct Always<B> {
    first: PhantomData<B>,
}

impl<K, V, B: Begins<K, V>> TableRule<(), V, K> for Always<B> {
    ghost holds = { λ _ _. Unit {0} };

    ghost first = { B.first };
}

/// A load after which the view is the next value.
pub struct Turns<T> {
    turn: PhantomData<T>,
}

impl<V, T: Turn<V>> Play<(), V> for Turns<T> {
    ghost then = { λ _ me _ after. after ≡ (T.next me.0, me.1) };
}

/// Contracts see it as its value, of which nothing is stored.
///
/// `K` is what [`new`](Record::new) is told, `V` a type whose value is recorded (often one of which no
/// value is ever made), and `B` says how the value begins.
#[derive(Drop)]
pub struct Record<K, V, B: Begins<K, V>> {
    table: Table<(), V, K, Always<B>, Global>,
    seat: Seat<(), V>,
}

impl<K, V, B: Begins<K, V>> Model for Record<K, V, B> {
    ghost Value = { V };

    ghost view = { λ r. r.seat.me.0 };

    ghost invariant = { λ r. (r.seat.table_id ≡ r.table.shared.table_id) × (r.table.shared.table_id.words ≡ 1) };
}

impl<K, V, B: Begins<K, V>> Record<K, V, B> {
    /// Opens a record. It takes memory for one word, and answers `NoMemory` where there is none.
    pub fn new(alloc: Global, about: &K) -> Result<Record<K, V, B>, NoMemory>
        ensures { IfOk result (λ r. r ≡ B.first about.now) }
    {
        let (table, seat) = Table::of_words(alloc, &[0], about)?;
        Ok(Record { table, seat })
    }

    // `about` is for the pick alone.
    fn turn<X, T: Turn<V>>(&mut self, about: &X)
        ensures { self.new ≡ T.next self.old }
    {
        let _ = about;
        let table = &self.table;
        table.shared.load::<Turns<T>>(&mut self.seat, 0);
    }

    /// Changes the value by what `M` makes of `about`: one load, which takes no memory and can't fail.
    pub fn note<X, M: Change<X, V>>(&mut self, about: &X)
        ensures { self.new ≡ M.after about.now self.old }
    {
        self.turn::<X, Brand>(about);
    }
}
