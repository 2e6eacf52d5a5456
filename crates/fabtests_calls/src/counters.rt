//! Completion queues and counters.
use fabric::{Calls, Class, EndpointOver, Entry, ctx_of};
use std::alloc::Global;

const CLASSES: [Class; 6] = [
    Class::Send,
    Class::Recv,
    Class::Read,
    Class::Write,
    Class::RemoteRead,
    Class::RemoteWrite,
];

/// What a queue of completions has, or a counter.
#[derive(Clone, Copy, Drop)]
pub enum Count {
    /// A read of at most so many completions gives so many, of contexts that count up from this one.
    Takes(u32, u64, usize),
    /// Nothing is counted in any class.
    CountsNone,
    /// So many operations of a class succeeded, and so many failed.
    Has(Class, u64, u64),
    /// So many are added.
    Adds(Class, u64),
    /// Whether so many succeed before progress was made three times.
    Reaches(Class, u64, bool),
}

impl Count {
    /// Whether it is so.
    pub(crate) fn goes<E: Calls + Drop>(
        self,
        alloc: Global,
        endpoint: &mut EndpointOver<E>,
    ) -> bool {
        match self {
            Count::Takes(most, first, count) => takes(alloc, endpoint, most, first, count),
            Count::CountsNone => count_none(endpoint),
            Count::Has(class, ok, failed) => counts(endpoint, class) == (ok, failed),
            Count::Adds(class, n) => adds(endpoint, class, n),
            Count::Reaches(class, n, is_reached) => reaches(endpoint, class, n) == is_reached,
        }
    }
}

/// Whether these are so many completions, of contexts that count up from this one.
fn count_up(entries: &[Entry], first: u64, count: usize) -> bool {
    let mut all = entries.len() == count;
    let mut ctx = first;
    for entry in entries {
        all = all && ctx_of(entry) == Some(ctx);
        ctx = ctx.saturating_add(1);
    }
    all
}

fn takes<E: Calls + Drop>(
    alloc: Global,
    endpoint: &mut EndpointOver<E>,
    most: u32,
    first: u64,
    count: usize,
) -> bool {
    let mut entries = Vec::new(alloc);
    let taken = endpoint.cq_take(most, &mut entries).is_ok();
    taken && count_up(entries.as_slice(), first, count)
}

/// How many operations of a class succeeded, and how many failed.
fn counts<E: Calls + Drop>(endpoint: &EndpointOver<E>, class: Class) -> (u64, u64) {
    let failed = endpoint.cntr_readerr(class);
    (endpoint.cntr_read(class), failed)
}

fn count_none<E: Calls + Drop>(endpoint: &EndpointOver<E>) -> bool {
    let mut none = true;
    for class in CLASSES {
        none = none && counts(endpoint, class) == (0, 0);
    }
    none
}

fn adds<E: Calls + Drop>(endpoint: &mut EndpointOver<E>, class: Class, n: u64) -> bool {
    endpoint.cntr_add(class, n);
    true
}

fn reaches<E: Calls + Drop>(endpoint: &mut EndpointOver<E>, class: Class, n: u64) -> bool {
    endpoint.cntr_wait(class, n, 3) == Ok(true)
}
