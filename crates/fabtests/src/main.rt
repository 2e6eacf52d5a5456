//! libfabric's functional tests of reliable-datagram endpoints, by their own names, over the crate `fabric`: one line for each,
//! which says that it passes or which check fails.
//!
//! What each asks of a provider is said at its function, in words of our own. A test whose endpoints do not wait for one another has
//! both in one thread, and lets them go on by turns; the others have a thread each.
#![tactic(auto)]

mod addresses;
mod atomics;
mod listing;
mod messages;
mod opening;
mod queues;
mod regions;
mod resources;
mod tagged;

use crate::listing::{LINES, Test};
use crate::opening::getinfo_test;
use fabric::{Domain, Hints, Info, open};
use fabtests_calls::Verdict;
use std::alloc::Global;
use std::io;
use std::thread::Threads;

/// How many peers the domains of fi_dom_test have.
const SIZES: [u32; 4] = [1, 2, 5, 32];

/// Whether this is what hints are granted.
fn is_granted(hints: Hints, told: Info) -> bool {
    hints.granted() == Ok(told)
}

/// Tries a test with the endpoints of a domain, which tells what its hints are granted. Endpoints over lanes are named here
/// alone.
fn with_domain<R: Threads + Sync>(rt: &R, alloc: Global, test: Test, domain: Domain) -> Verdict {
    let told = is_granted(test.hints(), domain.info());
    let verdict = test.run(rt, alloc, domain.endpoints);
    if told {
        verdict
    } else {
        Err("a domain tells what was granted")
    }
}

/// Tries a test with the endpoints of a new domain.
fn tried<R: Threads + Sync>(rt: &R, alloc: Global, test: Test) -> Verdict {
    match open(alloc, &test.hints()) {
        Ok(domain) => with_domain(rt, alloc, test, domain),
        Err(_) => Err("a domain is opened"),
    }
}

/// Tries domains of each size.
fn domains<R: Threads + Sync>(rt: &R, alloc: Global) -> Verdict {
    for peers in SIZES {
        tried(rt, alloc, Test::Dom(peers))?;
    }
    Ok(())
}

/// Prints the line of a test.
fn tells(rt: &impl Print, name: &str, verdict: Verdict) -> io::Result<()> {
    match verdict {
        Ok(()) => println!(rt; "{name} pass"),
        Err(what) => println!(rt; "{name} fails: {what}"),
    }
}

fn main(rt: HostRuntime) -> io::Result<()> {
    tells(&rt, "fi_getinfo_test", getinfo_test())?;
    tells(&rt, "fi_dom_test", domains(&rt, rt.alloc()))?;
    for (name, test) in LINES {
        tells(&rt, name, tried(&rt, rt.alloc(), test))?;
    }
    Ok(())
}
