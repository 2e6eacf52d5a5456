//! Matches in hashed bins beside matches in lists.
use crate::stores::{Kept, timed};
use fab_match::{BinMatcher, ListMatcher};
use std::alloc::Global;
use std::io;
use std::time::Clock;

/// How many receives are posted, or messages are unexpected.
const COUNTS: [u32; 13] = [1, 2, 4, 8, 16, 32, 64, 128, 256, 512, 1024, 2048, 4096];

/// Prints the times for so many, in bins and in lists, in nanoseconds.
fn print_line<R: Print + Clock>(rt: &R, alloc: Global, count: u32) -> io::Result<()> {
    let bins = timed::<BinMatcher, R>(rt, alloc, Kept::Posted, count, 50_000)?;
    let kept = timed::<BinMatcher, R>(rt, alloc, Kept::Unexpected, count, 50_000)?;
    let lists = timed::<ListMatcher, R>(rt, alloc, Kept::Posted, count, 1000)?;
    let list_kept = timed::<ListMatcher, R>(rt, alloc, Kept::Unexpected, count, 1000)?;
    println!(rt;
        "{count:>4}  bins: posted {}.{} ns  unexpected {}.{} ns  lists: posted {}.{} ns  unexpected {}.{} ns",
        bins / 10,
        bins % 10,
        kept / 10,
        kept % 10,
        lists / 10,
        lists % 10,
        list_kept / 10,
        list_kept % 10
    )
}

/// Prints a line for each count.
pub(crate) fn measure<R: Print + Clock>(rt: &R, alloc: Global) -> io::Result<()> {
    for count in COUNTS {
        print_line(rt, alloc, count)?;
    }
    Ok(())
}

/// Short runs of both stores in bins.
pub(crate) fn run_short<R: Print + Clock>(rt: &R, alloc: Global) -> io::Result<()> {
    let _bins = timed::<BinMatcher, R>(rt, alloc, Kept::Posted, 64, 100)?;
    let _kept = timed::<BinMatcher, R>(rt, alloc, Kept::Unexpected, 64, 100)?;
    println!(rt; "2 stores")
}
