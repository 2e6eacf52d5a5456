//! The shares of a round, as a file names them.
ghost use Rattle.std.specs.Prelude.{◌≡◌, ◌≤◌, ◌++◌, [], ◌∷◌, length, map, sum_by, true, Err, IfOk};
ghost use Rattle.hex.specs.Hex.{decode_of};
ghost use Rattle.fab_model.specs.Calls.{word_bytes};
ghost use Rattle.fab_words.specs.Bytes.{bytes_size};
ghost use Rattle.fab_workloads.specs.Grammar.{are_alike, are_short, first_size, of_hex, read_as, read_each, read_share};
ghost use Rattle.fab_workloads.specs.Reading.{with_fault, with_share};

use fab_base::{Buf, BytesWord, List, NoMemory, Num};
use fab_fold::MOST_SHARE;
use fab_grammar::read_elements;
use fab_words::{Misread, Read, Words, both, bytes_size, read_number};
use hex::FromHexError;
use std::alloc::Global;

/// How the shares of a round are written.
#[derive(Clone, Copy, Drop)]
pub(crate) enum Written {
    /// `text:`, `hex:` or `zero:N`.
    Bytes,
    /// Numbers, joined by commas.
    Elements { num: Num },
}

/// `text:`, `hex:` or `zero:N`, of any length.
#[tactic(auto, unfolding(crate::specs::Grammar::read_share))]
pub(crate) fn read_share(alloc: Global, word: &[u8]) -> Result<Read<BytesWord>, NoMemory>
    ensures { IfOk result (λ read. read ≡ read_share word.now) }
{
    if let Some(bytes) = word.strip_prefix(b"text:") {
        Ok(Ok(BytesWord::Text(Buf::copy(alloc, bytes)?)))
    } else if let Some(digits) = word.strip_prefix(b"hex:") {
        read_hex(alloc, digits)
    } else if let Some(len) = word.strip_prefix(b"zero:") {
        Ok(read_number(len).map(BytesWord::Zero))
    } else {
        Ok(Err(Misread::Words))
    }
}

/// Two hexadecimal digits a byte.
fn read_hex(alloc: Global, digits: &[u8]) -> Result<Read<BytesWord>, NoMemory>
    ensures { IfOk result (λ read. read ≡ of_hex (decode_of digits.now)) }
{
    match hex::decode(alloc, digits) {
        Ok(bytes) => Ok(Ok(BytesWord::Hex(Buf::from_vec(bytes)))),
        Err(FromHexError::OutOfMemory) => Err(NoMemory),
        Err(_) => Ok(Err(Misread::Words)),
    }
}

/// One share.
fn read_as(alloc: Global, written: Written, word: &[u8]) -> Result<Read<BytesWord>, NoMemory>
    ensures { IfOk result (λ read. read ≡ read_as written word.now) }
{
    match written {
        Written::Bytes => read_share(alloc, word),
        Written::Elements { num } => Ok(read_elements(alloc, num, word)?.map(BytesWord::Hex)),
    }
}

/// The fault that goes first.
fn first_fault(wrong: Option<Misread>, fault: Misread) -> Option<Misread>
    ensures { result ≡ with_fault wrong (Err fault) }
{
    let before = match wrong {
        Some(first) => Err(first),
        None => Ok(()),
    };
    both(before, Err::<(), Misread>(fault)).err()
}

/// Adds a share to these, where a word says one, and tells what is wrong so far.
fn add_share(
    shares: &mut List<BytesWord>,
    wrong: Option<Misread>,
    said: Read<BytesWord>,
) -> Result<Option<Misread>, NoMemory>
    ensures shares { IfOk result (λ _. shares.new ≡ with_share shares.old said) }
    ensures wrong { IfOk result (λ now. now ≡ with_fault wrong said) }
{
    match said {
        Ok(share) => {
            shares.push(share)?;
            Ok(wrong)
        }
        Err(fault) => Ok(first_fault(wrong, fault)),
    }
}

/// One share for each rank. Those that can be read are of one length, whatever is wrong with others.
pub(crate) fn read_each(
    alloc: Global,
    peers: u32,
    written: Written,
    words: &mut Words,
) -> Result<Read<List<BytesWord>>, NoMemory>
    ensures { IfOk result (λ read. read ≡ read_each peers written words.old) }
{
    let mut shares = List::empty(alloc);
    let mut wrong = None;
    for _ in 0..peers {
        let Some(word) = words.next() else {
            return Ok(Err(Misread::Words));
        };
        let said = read_as(alloc, written, word)?;
        wrong = add_share(&mut shares, wrong, said)?;
    }
    if !words.is_empty() || !are_alike(shares.as_slice()) {
        return Ok(Err(Misread::Words));
    }
    match wrong {
        None => Ok(Ok(shares)),
        Some(fault) => Ok(Err(fault)),
    }
}

fn first_size(shares: &[BytesWord]) -> u64
    ensures { result ≡ first_size shares.now }
{
    match shares.get(0) {
        Some(share) => bytes_size(share),
        None => 0,
    }
}

/// Whether all are as long as the first.
fn are_alike(shares: &[BytesWord]) -> bool
    ensures { result ≡ are_alike shares.now }
{
    let size = first_size(shares);
    shares.iter().all(|share| bytes_size(share) == size)
}

/// Whether none is too long.
pub(crate) fn are_short(shares: &[BytesWord]) -> bool
    ensures { result ≡ are_short shares.now }
{
    shares
        .iter()
        .all(|share| bytes_size(share) <= MOST_SHARE as u64)
}

/// How many bytes they have together.
pub(crate) fn size_of(shares: &[BytesWord]) -> u64
    requires few { length shares.now ≤ 32 }
    requires short { are_short shares.now ≡ true }
    ensures value { result ≡ sum_by bytes_size shares.now }
    ensures most { result ≤ 131_072 }
{
    let mut size = 0;
    for share in shares {
        size += bytes_size(share);
    }
    size
}

fn word_bytes(alloc: Global, word: BytesWord) -> Result<Buf, NoMemory>
    ensures { IfOk result (λ bytes. bytes ≡ word_bytes word) }
{
    match word {
        BytesWord::Text(bytes) | BytesWord::Hex(bytes) => Ok(bytes),
        BytesWord::Zero(len) => Buf::zeros(alloc, len),
        BytesWord::File { .. } => Ok(Buf::empty(alloc)),
    }
}

/// The bytes of each.
pub(crate) fn all_bytes(alloc: Global, shares: List<BytesWord>) -> Result<List<Buf>, NoMemory>
    ensures { IfOk result (λ all. all ≡ map word_bytes shares) }
{
    let mut all = Vec::new(alloc);
    for share in shares.into_vec() {
        all.push(word_bytes(alloc, share)?)?;
    }
    Ok(List::from_vec(all))
}
