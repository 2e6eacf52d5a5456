//! The schedule that a report tells.
ghost use Rattle.std.specs.Prelude.{◌≡◌, ℕ, List, IfOk, IfSome, true, false, MatchOption};
ghost use Rattle.fab_model.specs.Report.{bare, numbered, traces};
ghost use Rattle.fab_model.specs.Words.{pieces_at, read_decimal};
ghost use Rattle.fab_report.specs.Reading.{is_digit, names_peer, step_told, steps_told, steps_behind, lists_told, schedule_told};

use crate::cut::first_piece;
use fab_base::{List, NoMemory, Step};
use std::alloc::Global;

fn is_digit(byte: u8) -> bool
    ensures { result ≡ is_digit byte }
{
    byte >= b'0' && byte <= b'9'
}

/// The number of one of so many peers: decimal digits, with no 0 before them.
fn peer_in(digits: &[u8], peers: u32) -> Option<u32>
    ensures { MatchOption result (names_peer peers digits.now ≡ false) (λ peer. (names_peer peers digits.now ≡ true) × (peer ≡ read_decimal digits.now)) }
{
    if digits.is_empty() || (digits.len() > 1 && digits[0] == b'0') {
        return None;
    }
    let mut number: u64 = 0;
    for byte in digits {
        if !is_digit(*byte) || number >= u64::from(peers) {
            return None;
        }
        number = number * 10 + u64::from(*byte - b'0');
    }
    if number >= u64::from(peers) {
        return None;
    }
    Some(number as u32)
}

/// A step that is one letter.
fn bare(letter: u8) -> Option<Step>
    ensures { result ≡ bare letter }
{
    match letter {
        b'D' => Some(Step::Do),
        b'M' => Some(Step::Draw),
        b'R' => Some(Step::Read),
        b'X' => Some(Step::Final),
        _ => None,
    }
}

/// A step that names a peer.
fn numbered(letter: u8, peer: u32) -> Option<Step>
    ensures { (digits : List ℕ) → read_decimal digits ≡ peer → result ≡ numbered letter digits }
{
    match letter {
        b'H' => Some(Step::Head(peer)),
        b'T' => Some(Step::Tail(peer)),
        b'S' => Some(Step::Sent(peer)),
        _ => None,
    }
}

/// A word as a step.
#[tactic(auto, unfolding(crate::specs::Reading::step_told))]
fn step_in(word: &[u8], peers: u32) -> Option<Step>
    ensures { result ≡ step_told peers word.now }
{
    let Some((letter, digits)) = word.split_first() else {
        return None;
    };
    if digits.is_empty() {
        return bare(*letter);
    }
    match peer_in(digits, peers) {
        None => None,
        Some(peer) => numbered(*letter, peer),
    }
}

/// The words of a line as steps.
fn steps_in(alloc: Global, words: &[u8], peers: u32) -> Result<Option<List<Step>>, NoMemory>
    ensures { IfOk result (λ steps. steps ≡ steps_told peers (pieces_at 32 words.now)) }
{
    let mut steps = Vec::new(alloc);
    let mut left = Some(words);
    'words: while let Some(text) = left {
        let (word, rest) = first_piece(text, b' ');
        let Some(step) = step_in(word, peers) else {
            return Ok(None);
        };
        steps.push(step)?;
        left = rest;
    }
    Ok(Some(List::from_vec(steps)))
}

/// What follows the word `trace`.
#[tactic(auto, unfolding(crate::specs::Reading::steps_behind))]
fn steps_behind(alloc: Global, text: &[u8], peers: u32) -> Result<Option<List<Step>>, NoMemory>
    ensures { IfOk result (λ steps. steps ≡ steps_behind peers text.now) }
{
    let Some((byte, words)) = text.split_first() else {
        return Ok(Some(List::empty(alloc)));
    };
    if *byte != b' ' {
        return Ok(None);
    }
    steps_in(alloc, words, peers)
}

/// The steps of each line that begins with `trace`.
fn lists_in(alloc: Global, text: &[u8], peers: u32) -> Result<Option<List<List<Step>>>, NoMemory>
    ensures { IfOk result (λ lists. lists ≡ lists_told peers (pieces_at 10 text.now)) }
{
    let mut lists = Vec::new(alloc);
    let mut left = Some(text);
    'lines: while let Some(text) = left {
        let (line, rest) = first_piece(text, b'\n');
        left = rest;
        if let Some(behind) = line.strip_prefix(b"trace") {
            match steps_behind(alloc, behind, peers)? {
                None => return Ok(None),
                Some(steps) => lists.push(steps)?,
            }
        }
    }
    Ok(Some(List::from_vec(lists)))
}

/// The schedule that a report over this many peers tells: one list of steps for each peer, in the order of
/// the lines that begin with `trace`.
///
/// There is none exactly where these lines are not as many as the peers, or one of them is not the word
/// `trace` with steps in the form of a report behind it, each after one space: the numbers in them are
/// those of peers, in decimal without leading zeros.
#[tactic(auto, unfolding(crate::specs::Reading::schedule_told))]
pub fn read_schedule(
    alloc: Global,
    text: &[u8],
    peers: u32,
) -> Result<Option<List<List<Step>>>, NoMemory>
    ensures told { IfOk result (λ schedule. schedule ≡ schedule_told peers text.now) }
    ensures traces { IfOk result (λ schedule. IfSome schedule (λ lists. traces text.now ≡ lists)) }
{
    let Some(lists) = lists_in(alloc, text, peers)? else {
        return Ok(None);
    };
    if lists.as_slice().len() != peers as usize {
        return Ok(None);
    }
    Ok(Some(lists))
}
