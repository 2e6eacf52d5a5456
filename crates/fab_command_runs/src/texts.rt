//! The lines of a rank, and the first and the last line.
//!
//! Each function appends to a text. After want of memory the text may have gained a part of what was to be appended.
ghost use Rattle.std.specs.Prelude.{◌≡◌, ◌++◌, ◌∷◌, [], drop, take, map, option_map, filter_map, IfOk, OnOk, string_bytes, decimal, codes};
ghost use Rattle.fab_model.specs.Words.{hex_or_dash, line_of, text_of};
ghost use Rattle.fab_fold.specs.Shares.{AreReceived, outcome_of};
ghost use Rattle.fab_workloads.specs.Rounds.{AreWithin, share_of};
ghost use Rattle.fab_workloads.specs.Text.{rank_lines, round_words, verb_word};
ghost use Rattle.fab_workload_laws.specs.CollLaws.{RankFolds, bytes_taken};

use fab_base::{Buf, Entry, LineResult, NoMemory, Taken};
use fab_fold::{Coll, outcome};
use fab_report::add_bytes;
use fab_workloads::{CollScript, Round, lines_in, share_of};
use std::alloc::Global;

/// The bytes that a wait took.
fn bytes_taken(line: &LineResult) -> Option<&Buf>
    ensures { option_map (λ bytes. bytes.now) result ≡ bytes_taken line.now }
{
    let LineResult::Waited(kept) = line else {
        return None;
    };
    match &kept.entry {
        Taken::Success(Entry::Received { buf, .. }) => Some(buf),
        _ => None,
    }
}

/// So many of the results from this one on, or as many as there are.
fn part(results: &[LineResult], from: usize, count: usize) -> &[LineResult]
    ensures { result.now ≡ take count (drop from results.now) }
{
    let behind = &results[results.len().min(from)..];
    &behind[..behind.len().min(count)]
}

/// The share that came, where this is a wait that took one.
fn add_taken(alloc: Global, shares: &mut Vec<Buf>, line: &LineResult) -> Result<(), NoMemory>
    ensures { OnOk result (shares.new.items ≡ shares.old.items ++ filter_map bytes_taken (line.now ∷ [])) }
{
    let Some(bytes) = bytes_taken(line) else {
        return Ok(());
    };
    let share = Buf::copy(alloc, bytes.as_slice())?;
    shares.push(share)?;
    Ok(())
}

/// The shares that came, in the order of their waits.
fn received(alloc: Global, results: &[LineResult]) -> Result<Vec<Buf>, NoMemory>
    ensures { IfOk result (λ shares. shares.items ≡ filter_map bytes_taken results.now) }
{
    let mut shares = Vec::new(alloc);
    for line in results {
        add_taken(alloc, &mut shares, line)?;
    }
    Ok(shares)
}

/// The verb of a round's line.
fn verb_word(coll: Coll) -> &'static str
    ensures { result.now ≡ verb_word coll }
{
    match coll {
        Coll::Barrier => "barrier",
        Coll::Broadcast { .. } => "broadcast",
        Coll::Allgather => "allgather",
        Coll::Allreduce { .. } => "allreduce",
    }
}

/// The number and the verb of a round's line.
fn add_verb(out: &mut String, round: &Round) -> Result<(), NoMemory>
    ensures { OnOk result (string_bytes out.new ≡ string_bytes out.old ++ decimal round.now.line ++ 32 ∷ verb_word round.now.coll) }
{
    let line = round.line;
    let verb = verb_word(round.coll);
    write!(out, "{line} {verb}")?;
    Ok(())
}

/// The line of a round: its number, its verb, and these bytes.
fn add_line(out: &mut String, round: &Round, bytes: &[u8]) -> Result<(), NoMemory>
    ensures { OnOk result (string_bytes out.new ≡ string_bytes out.old
        ++ line_of (decimal round.now.line ∷ verb_word round.now.coll ∷ hex_or_dash bytes.now ∷ [])) }
{
    add_verb(out, round)?;
    add_bytes(out, bytes)?;
    out.push('\n')?;
    Ok(())
}

/// The line of a round at rank r, whose lines of the round came to these results.
fn add_round(
    alloc: Global,
    out: &mut String,
    r: u32,
    round: &Round,
    results: &[LineResult],
) -> Result<(), NoMemory>
    requires { AreReceived round.now.coll r (share_of round.now r) (filter_map bytes_taken results.now) }
    ensures { OnOk result (string_bytes out.new ≡ string_bytes out.old
        ++ line_of (decimal round.now.line ∷ verb_word round.now.coll
        ∷ hex_or_dash (outcome_of round.now.coll r (share_of round.now r) (filter_map bytes_taken results.now)) ∷ [])) }
{
    let shares = received(alloc, results)?;
    let bytes = outcome(alloc, round.coll, r, share_of(round, r), &shares)?;
    add_line(out, round, bytes.as_slice())
}

/// The lines of all rounds at rank r, whose lines came to these results.
fn add_rounds(
    alloc: Global,
    out: &mut String,
    script: &CollScript,
    r: u32,
    results: &[LineResult],
) -> Result<(), NoMemory>
    requires within { AreWithin script.now.peers script.now.rounds }
    requires folds { RankFolds script.now.peers script.now.rounds r results.now }
    ensures { OnOk result (string_bytes out.new ≡ string_bytes out.old ++ text_of (map round_words script.now.rounds)) }
{
    let mut done = 0;
    for round in script.rounds.as_slice() {
        let lines = lines_in(script.peers, r, round.coll);
        add_round(alloc, out, r, round, part(results, done, lines))?;
        done += lines;
    }
    Ok(())
}

/// The line with the number of a rank.
fn add_peer(out: &mut String, r: u32) -> Result<(), NoMemory>
    ensures { OnOk result (string_bytes out.new ≡ string_bytes out.old ++ line_of (codes "peer" ∷ decimal r ∷ [])) }
{
    writeln!(out, "peer {r}")?;
    Ok(())
}

/// The part of rank r, whose lines came to these results.
pub(crate) fn add_rank(
    alloc: Global,
    out: &mut String,
    script: &CollScript,
    r: u32,
    results: &[LineResult],
) -> Result<(), NoMemory>
    requires within { AreWithin script.now.peers script.now.rounds }
    requires folds { RankFolds script.now.peers script.now.rounds r results.now }
    ensures { OnOk result (string_bytes out.new ≡ string_bytes out.old ++ text_of (rank_lines script.now.rounds r)) }
{
    add_peer(out, r)?;
    add_rounds(alloc, out, script, r, results)
}

/// The first line of a text over so many ranks.
pub(crate) fn add_first(out: &mut String, peers: u32) -> Result<(), NoMemory>
    ensures { OnOk result (string_bytes out.new ≡ string_bytes out.old
        ++ line_of (codes "coll" ∷ codes "1" ∷ codes "peers" ∷ decimal peers ∷ [])) }
{
    writeln!(out, "coll 1 peers {peers}")?;
    Ok(())
}

/// The last line of a text.
pub(crate) fn add_last(out: &mut String) -> Result<(), NoMemory>
    ensures { OnOk result (string_bytes out.new ≡ string_bytes out.old ++ line_of (codes "end" ∷ codes "done" ∷ [])) }
{
    out.push_str("end done\n")?;
    Ok(())
}
