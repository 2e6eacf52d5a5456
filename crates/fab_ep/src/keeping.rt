//! Counters (fi_cntr(3)), and the address vector (fi_av(3)).
use crate::endpoint::Endpoint;
use fab_av::InsertReport;
use fab_base::{Class, Fault, NoMemory, Text};
use fab_face::calls::{Addresses, Counters};
use fab_face::keeping::{Addressing, Counting};
use fab_link::Port;

impl<P: Port, C: Counting> Counters for Endpoint<P, C> {
    fn cntr_read(&self, class: Class) -> u64 {
        self.core.successes(class)
    }

    fn cntr_readerr(&self, class: Class) -> u64 {
        self.core.errors(class)
    }

    fn cntr_reached(&self, class: Class, n: u64) -> bool {
        n <= self.core.successes(class)
    }

    fn cntr_add(&mut self, class: Class, n: u64) {
        self.core.count_up(class, n);
    }
}

impl<P: Port, C: Addressing> Addresses for Endpoint<P, C> {
    fn insert(&mut self, names: &[Text]) -> Result<InsertReport, NoMemory> {
        self.core.insert(names)
    }

    fn remove(&mut self, index: u32) -> Result<(), Fault> {
        self.core.remove(index)
    }

    fn index_of(&self, peer: u32) -> Option<u32> {
        self.core.index_of(peer)
    }
}
