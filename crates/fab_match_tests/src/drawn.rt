//! Calls that are drawn, which both stores answer alike.
ghost use Rattle.std.specs.Prelude.{◌<◌};

use crate::calls::{Call, apply};
use fab_base::{Sign, Want};
use fab_match::{BinMatcher, ListMatcher, Matcher};
use std::alloc::Global;
use std::test::Fail;

fn want(tag: u64, ignore: u64, source: Option<u32>) -> Want {
    Want {
        tagged: true,
        tag,
        ignore,
        source,
    }
}

fn plain(source: Option<u32>) -> Want {
    Want {
        tagged: false,
        tag: 0,
        ignore: 0,
        source,
    }
}

fn sign(tag: u64, source: u32) -> Sign {
    Sign {
        tagged: true,
        tag,
        source,
    }
}

fn plain_sign(source: u32) -> Sign {
    Sign {
        tagged: false,
        tag: 7,
        source,
    }
}

fn drawn(seed: &mut u64, below: u64) -> u64
    requires { 0 < below }
    ensures { result < below }
{
    *seed = seed
        .wrapping_mul(6_364_136_223_846_793_005)
        .wrapping_add(1_442_695_040_888_963_407);
    (*seed >> 33) % below
}

fn drawn_call(seed: &mut u64) -> Call {
    let id = drawn(seed, 40) as u32;
    let tag = drawn(seed, 4);
    let from = drawn(seed, 3) as u32;
    let source = if drawn(seed, 2) == 0 {
        None
    } else {
        Some(from)
    };
    let ignore = drawn(seed, 3) / 2;
    let tagged = drawn(seed, 4) != 0;
    let wanted = if tagged {
        want(tag, ignore, source)
    } else {
        plain(source)
    };
    let shown = if tagged {
        sign(tag, from)
    } else {
        plain_sign(from)
    };
    match drawn(seed, 6) {
        0 => Call::Post(id, wanted),
        1 => Call::Arrive(id, shown),
        2 => Call::FirstPosted(shown),
        3 => Call::FirstUnexpected(wanted),
        4 => Call::RemovePosted(id),
        _ => Call::RemoveUnexpected(id),
    }
}

/// Whether the two stores answer this call alike.
fn agree<A: Matcher, B: Matcher>(first: &mut A, second: &mut B, call: &Call) -> bool {
    match apply(first, call) {
        Some(answer) => apply(second, call) == Some(answer),
        None => false,
    }
}

/// Whether they answer each of 4,000 calls alike.
fn agree_on_many<A: Matcher, B: Matcher>(first: &mut A, second: &mut B) -> bool {
    let mut seed = 23;
    for _at in 0..4000 {
        let call = drawn_call(&mut seed);
        if !agree(first, second, &call) {
            return false;
        }
    }
    true
}

/// Whether two new stores do.
fn new_agree<A: Matcher + Drop, B: Matcher + Drop>(alloc: Global) -> bool {
    let Ok(mut first) = A::new(alloc, 16) else {
        return false;
    };
    let Ok(mut second) = B::new(alloc, 16) else {
        return false;
    };
    agree_on_many(&mut first, &mut second)
}

#[test]
fn both_stores_agree_on_many_calls(rt: HostRuntime) -> Result<(), Fail> {
    assert!(rt; new_agree::<ListMatcher, BinMatcher>(rt.alloc()));
    Ok(())
}
