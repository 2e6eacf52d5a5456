//! From the bytes of a file to its rounds.
ghost use Rattle.std.specs.Prelude.{◌≡◌, Ok, IfOk, IfErr};
ghost use Rattle.fab_workloads.specs.Grammar.{rounds_said, verdict};
ghost use Rattle.fab_workloads.specs.Reading.{IsRefusal, IsVerdict, before_of};
ghost use Rattle.fab_workloads.specs.Rounds.{AreWithin};

use crate::reader::Reader;
use crate::round::CollScript;
use fab_base::{List, Why};
use fab_script::ParseRefused;
use fab_words::Lines;
use std::alloc::Global;

/// Reads a file of rounds. An `Err` that is not `NoMemory` says that the bytes are no such file: it names the first line
/// that breaks a rule, and the first rule that this line breaks. More lines than there are numbers for them, which is 2^32,
/// are `NoMemory`.
pub fn read_rounds(alloc: Global, bytes: &[u8]) -> Result<CollScript, ParseRefused>
    ensures script { IfOk result (λ script. verdict bytes.now ≡ Ok (script.peers, script.rounds)) }
    ensures within { IfOk result (λ script. AreWithin script.peers script.rounds) }
    ensures refused { IfErr result (λ e. IsRefusal e (verdict bytes.now)) }
{
    read(alloc, bytes)
}

/// The verdict of the grammar on a text, line by line.
fn read(alloc: Global, bytes: &[u8]) -> Result<CollScript, ParseRefused>
    ensures { IsVerdict (verdict bytes.now) result }
{
    let mut reader = Reader::new(alloc);
    let mut lines = Lines::new(bytes);
    while lines.count() < u32::MAX {
        let Some((number, line)) = lines.next() else {
            return rounds_of(lines.count(), reader);
        };
        if let Some(why) = reader.take(alloc, number, line)? {
            return Err(ParseRefused::Script { line: number, why });
        }
    }
    Err(ParseRefused::NoMemory)
}

/// The rounds of a file of this many lines, none of which is refused.
#[tactic(auto, unfolding(crate::specs::Grammar::rounds_said))]
fn rounds_of(count: u32, reader: Reader) -> Result<CollScript, ParseRefused>
    ensures { IsVerdict (rounds_said count (before_of reader)) result }
{
    if !reader.has_header {
        return Err(ParseRefused::Script {
            line: 0,
            why: Why::Header,
        });
    }
    let Some(peers) = reader.peers else {
        return Err(ParseRefused::Script {
            line: count,
            why: Why::Missing,
        });
    };
    let Reader { rounds, .. } = reader;
    Ok(CollScript {
        peers,
        rounds: List::from_vec(rounds),
    })
}
