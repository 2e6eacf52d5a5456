//! Additions to the words of a window beside those to atomics of std. tools/window_bench.c times the same in C.
use crate::timing::{LAYOUTS, Layout, check, timed};
use std::alloc::Global;
use std::io;
use std::thread::Threads;
use std::time::Clock;

/// Prints the times of one layout, in nanoseconds.
fn print_line<R: Print + Clock + Threads + Sync>(
    rt: &R,
    alloc: Global,
    layout: &Layout,
    threads: usize,
) -> io::Result<()> {
    let own = timed(rt, alloc, layout, threads)?;
    let name = layout.name;
    println!(rt;
        "{name:<18}  {threads} threads  window best {}.{} ns  median {}.{} ns  std best {}.{} ns  median {}.{} ns",
        own.window_best / 10,
        own.window_best % 10,
        own.window_median / 10,
        own.window_median % 10,
        own.std_best / 10,
        own.std_best % 10,
        own.std_median / 10,
        own.std_median % 10
    )
}

/// Prints a line for 1, 2 and 4 threads at one layout.
fn print_layout<R: Print + Clock + Threads + Sync>(
    rt: &R,
    alloc: Global,
    layout: &Layout,
) -> io::Result<()> {
    for threads in [1usize, 2, 4] {
        print_line(rt, alloc, layout, threads)?;
    }
    Ok(())
}

/// Prints the lines of each layout.
pub(crate) fn measure<R: Print + Clock + Threads + Sync>(rt: &R, alloc: Global) -> io::Result<()> {
    for layout in LAYOUTS {
        print_layout(rt, alloc, &layout)?;
    }
    Ok(())
}

/// Four threads make 1,000 additions each at each layout.
pub(crate) fn run_short<R: Print + Threads + Sync>(rt: &R, alloc: Global) -> io::Result<()> {
    for layout in LAYOUTS {
        let (window, beside) = check(rt, alloc, &layout)?;
        println!(rt; "{}: {window} and {beside}", layout.name)?;
    }
    Ok(())
}
