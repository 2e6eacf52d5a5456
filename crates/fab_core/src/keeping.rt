//! Counters (fi_cntr(3)), and the address vector (fi_av(3)).
use crate::parts::Core;
use fab_av::InsertReport;
use fab_base::{Class, Fault, NoMemory, Text};
use fab_face::keeping::{Addressing, Counting};
use fab_match::Matcher;

impl<M: Matcher> Counting for Core<M> {
    fn successes(&self, class: Class) -> u64 {
        self.counters.read(class)
    }

    fn errors(&self, class: Class) -> u64 {
        self.counters.read_err(class)
    }

    fn count_up(&mut self, class: Class, n: u64) {
        self.counters.add(class, n);
    }
}

impl<M: Matcher> Addressing for Core<M> {
    fn insert(&mut self, names: &[Text]) -> Result<InsertReport, NoMemory> {
        let report = self.av.insert(names);
        self.av.known();
        report
    }

    fn remove(&mut self, index: u32) -> Result<(), Fault> {
        let removed = self.av.remove(index);
        self.av.known();
        removed
    }

    fn index_of(&self, peer: u32) -> Option<u32> {
        self.av.index_of(peer)
    }
}
