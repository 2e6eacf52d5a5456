//! From the bytes of a file to its script.
ghost use Rattle.std.specs.Prelude.{◌≡◌, ◌≤◌, Some, None, map, IfOk, IfErr};
ghost use Rattle.fab_grammar.specs.Before.{Before};
ghost use Rattle.fab_grammar.specs.Grammar.{script_with, script_said, verdict, script_of, refusal_of};
ghost use Rattle.fab_script.specs.Parts.{Holds};
ghost use Rattle.fab_script.specs.Refused.{IsScript, IsRefusal, IsVerdict};

use crate::parts::Parts;
use crate::reader::Reader;
use crate::refused::{ParseRefused, Refused};
use fab_base::{Api, Conf, Line, List, NoMemory, Payload, Script, Why};
use fab_grammar::version_of;
use fab_info::getinfo;
use fab_words::Lines;
use std::alloc::Global;

/// Reads a script (docs/SCRIPT.md). An `Err` that is not `NoMemory` says that the text is no script; it
/// names the first line that breaks a rule, and the first rule that this line breaks.
#[tactic(auto, unfolding(fab_grammar::specs::Grammar::script_of, fab_grammar::specs::Grammar::refusal_of))]
pub fn parse(alloc: Global, bytes: &[u8]) -> Result<Script, ParseRefused>
    ensures script { IfOk result (λ script. script_of bytes.now ≡ Some script) }
    ensures refused { IfErr result (λ e. IsScript e → script_of bytes.now ≡ None) }
    ensures reason { IfErr result (λ e. IsRefusal e (refusal_of bytes.now)) }
    ensures sized { IfOk result (λ script. (2 ≤ script.conf.info.cq) × (4 ≤ script.conf.info.log)) }
{
    read(alloc, bytes)
}

/// The verdict of the grammar on a text, line by line.
fn read(alloc: Global, bytes: &[u8]) -> Result<Script, ParseRefused>
    ensures { IsVerdict (verdict bytes.now) result }
{
    let mut reader = Reader::new(alloc);
    let mut lines = Lines::new(bytes);
    while let Some((number, line)) = lines.next() {
        match reader.take(alloc, number, line) {
            Ok(()) => {}
            Err(Refused::Why(why)) => return Err(ParseRefused::Script { line: number, why }),
            Err(Refused::NoMemory) => return Err(ParseRefused::NoMemory),
        }
    }
    script(alloc, lines.count(), reader)
}

/// The script of a file of this many lines, none of which is refused.
fn script(alloc: Global, count: u32, reader: Reader) -> Result<Script, ParseRefused>
    ensures { (before : Before) → Holds reader before → IsVerdict (script_said count before) result }
{
    let Some(api) = reader.api else {
        return Err(ParseRefused::Script {
            line: 0,
            why: Why::Header,
        });
    };
    let Some(peers) = reader.settings.peers else {
        return Err(ParseRefused::Script {
            line: count,
            why: Why::Missing,
        });
    };
    let hints = reader.settings.hints();
    let Ok(info) = getinfo(api, Some(&hints)) else {
        return Err(ParseRefused::Script {
            line: count,
            why: Why::NoData,
        });
    };
    let conf = Conf {
        hints: Some(hints),
        info,
        peers,
        selective: reader.settings.is_selective,
    };
    Ok(script_with(alloc, api, conf, reader.payloads, reader.parts)?)
}

/// The script with these parts.
fn script_with(
    alloc: Global,
    api: Api,
    conf: Conf,
    payloads: Vec<Payload>,
    parts: Parts,
) -> Result<Script, NoMemory>
    ensures { IfOk result (λ s. s ≡ script_with api conf payloads.items (map (λ part. part.items) parts.lines.items)) }
{
    let Parts { lines, .. } = parts;
    let parts = lists(alloc, lines)?;
    Ok(Script {
        version: version_of(api),
        conf,
        payloads: List::from_vec(payloads),
        peers: List::from_vec(parts),
    })
}

fn lists(alloc: Global, parts: Vec<Vec<Line>>) -> Result<Vec<List<Line>>, NoMemory>
    ensures { IfOk result (λ lists. lists.items ≡ map (λ part. part.items) parts.items) }
{
    Ok(parts.into_iter().map(List::from_vec).collect(alloc)?)
}
