//! Four ranks, each a thread: ranks 1 to 3 tell rank 0 lines under tags, and rank 0 listens to rank 1 under one tag, and to any rank under another.
//!
//! What came to the receive of rank 1 is the first text that rank 1 was given under that tag, whatever else is told. What a rank does is in `rank.rt`,
//! over any endpoint; here the endpoints are opened and closed, and the law is concluded.
#![tactic(auto)]

ghost use Rattle.std.specs.Prelude.{◌≡◌, IfOk};
ghost use Rattle.std.specs.List.{All};
ghost use Rattle.fabric.specs.Views.{IsPrefixOf};
ghost use Rattle.ranks_heard.specs.Ranks.{IsShort, under};
ghost use Rattle.ranks_heard.specs.declared.rank.TheConstants.{ONE};

mod rank;

use fabric::{Buf, Fault, Hints, close_all, law_library_heard, open};
use rank::{ANY, Four, Line, ONE, Told, talk};
use std::alloc::Global;
use std::str::from_utf8;
use std::sync::Wait;
use std::thread::Threads;

/// So many lines has a rank.
const LINES: u8 = 3;

/// Four ranks talk, of which 1, 2 and 3 are given these lines. What rank 0 tells.
///
/// What came to receives of rank 1 under the tag `ONE` is, in order, the first of the texts that rank 1 was given under it. One receive is posted: it gets the
/// first.
pub fn hear<R: Threads + Wait + Sync>(
    rt: &R,
    alloc: Global,
    one: Vec<Line>,
    two: Vec<Line>,
    three: Vec<Line>,
) -> Result<Told, Fault>
    requires { All IsShort one.items }
    ensures { IfOk result (λ told. IsPrefixOf told.came.items (under ONE one.items)) }
{
    law_library_heard();
    let domain = open(alloc, &Hints::new().peers(4))?;
    let Some(four) = talk(rt, alloc, domain.endpoints, one, two, three) else {
        return Err(Fault::NoMemory);
    };
    let Four { endpoints, told } = four;
    match close_all(alloc, endpoints) {
        Ok(_ports) => Ok(told),
        Err(_unclosed) => Err(Fault::NoMemory),
    }
}

/// The lines of a rank: the first under `ANY`, the others under `ONE`.
fn lines(alloc: Global, rank: u8) -> Result<Vec<Line>, Fault>
    ensures { IfOk result (λ lines. All IsShort lines.items) }
{
    let mut lines = Vec::new(alloc);
    for number in 0..LINES {
        let bytes = [b'0'.wrapping_add(rank), b'.', b'0'.wrapping_add(number)];
        let text = Buf::copy(alloc, &bytes)?;
        let tag = if number == 0 { ANY } else { ONE };
        lines.push(Line { tag, text })?;
    }
    Ok(lines)
}

/// What rank 0 tells, where ranks 1 to 3 have their lines.
fn told<R: Threads + Wait + Sync>(rt: &R, alloc: Global) -> Result<Told, Fault> {
    let one = lines(alloc, 1)?;
    let two = lines(alloc, 2)?;
    let three = lines(alloc, 3)?;
    hear(rt, alloc, one, two, three)
}

fn main(rt: HostRuntime) -> std::io::Result<()> {
    let Ok(told) = told(&rt, rt.alloc()) else {
        return println!(rt; "no endpoints, or no memory");
    };
    for message in told.came.iter() {
        println!(rt;
            "of rank 1 under {ONE}: {}",
            from_utf8(message.as_slice()).unwrap_or("?")
        )?;
    }
    println!(rt; "of any rank under {ANY}: {}", told.others.len())
}
