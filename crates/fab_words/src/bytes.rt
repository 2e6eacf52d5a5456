//! How a line names bytes.
ghost use Rattle.std.specs.Prelude.{◌≡◌, ◌≢◌, [], ◌∷◌, length, IfOk, MatchOption};
ghost use Rattle.std.specs.List.{slice_split};
ghost use Rattle.fab_base.specs.declared.script.BytesWord.TheVariants.{Text, Zero};
ghost use Rattle.fab_words.specs.Bytes.{few_bytes, of_hex, is_colon, file_range, read_bytes, bytes_size};
ghost use Rattle.fab_words.specs.Misreads.{map_ok};
ghost use Rattle.fab_words.specs.Words.{read_up_to};
ghost use Rattle.hex.specs.Hex.{decode_of};

use crate::cut::first_part;
use crate::misread::{Misread, Read, both};
use crate::words::{read_number, read_up_to};
use fab_base::{Buf, BytesWord, NoMemory};
use hex::FromHexError;
use std::alloc::Global;

/// `text:`, `hex:`, `zero:N` or `file:ID:AT:LEN`, with at most `most` bytes.
#[tactic(auto, unfolding(crate::specs::Bytes::read_bytes))]
pub fn read_bytes(alloc: Global, most: u32, word: &[u8]) -> Result<Read<BytesWord>, NoMemory>
    ensures { IfOk result (λ read. read ≡ read_bytes most word.now) }
{
    if let Some(bytes) = word.strip_prefix(b"text:") {
        read_literal(alloc, most, bytes)
    } else if let Some(digits) = word.strip_prefix(b"hex:") {
        read_hex(alloc, most, digits)
    } else if let Some(len) = word.strip_prefix(b"zero:") {
        Ok(read_zeros(most, len))
    } else if let Some(range) = word.strip_prefix(b"file:") {
        Ok(read_range(most, range))
    } else {
        Ok(Err(Misread::Words))
    }
}

/// The bytes as they are written.
fn read_literal(alloc: Global, most: u32, bytes: &[u8]) -> Result<Read<BytesWord>, NoMemory>
    ensures { IfOk result (λ read. read ≡ few_bytes most bytes.now (Text bytes.now)) }
{
    if bytes.len() > most as usize {
        return Ok(Err(Misread::Limit));
    }
    Ok(Ok(BytesWord::Text(Buf::copy(alloc, bytes)?)))
}

/// Two hexadecimal digits a byte.
fn read_hex(alloc: Global, most: u32, digits: &[u8]) -> Result<Read<BytesWord>, NoMemory>
    ensures { IfOk result (λ read. read ≡ of_hex most (decode_of digits.now)) }
{
    match hex::decode(alloc, digits) {
        Ok(bytes) if bytes.len() > most as usize => Ok(Err(Misread::Limit)),
        Ok(bytes) => Ok(Ok(BytesWord::Hex(Buf::from_vec(bytes)))),
        Err(FromHexError::OutOfMemory) => Err(NoMemory),
        Err(_) => Ok(Err(Misread::Words)),
    }
}

fn read_zeros(most: u32, len: &[u8]) -> Read<BytesWord>
    ensures { result ≡ map_ok Zero (read_up_to most len.now) }
{
    Ok(BytesWord::Zero(u64::from(read_up_to(most, len)?)))
}

/// The parts between colons, where there are three.
#[tactic(auto, using(crate::proofs::CutLemmas::parts_filled))]
fn three_parts(text: &[u8]) -> Option<(&[u8], &[u8], &[u8])>
    ensures { MatchOption result (length (slice_split is_colon text.now) ≢ 3)
        (λ p. slice_split is_colon text.now ≡ p.0.now ∷ p.1.now ∷ p.2.now ∷ []) }
{
    let (first, rest) = first_part(text, b':');
    let (second, rest) = first_part(rest?, b':');
    let (third, rest) = first_part(rest?, b':');
    match rest {
        Some(_more) => None,
        None => Some((first, second, third)),
    }
}

/// `ID:AT:LEN`.
#[tactic(auto, using(crate::proofs::CutLemmas::file_range_other))]
fn read_range(most: u32, range: &[u8]) -> Read<BytesWord>
    ensures { result ≡ file_range most (slice_split is_colon range.now) }
{
    let (id, at, len) = three_parts(range).ok_or(Misread::Words)?;
    let ((id, at), len) = both(
        both(read_number(id), read_number(at)),
        read_up_to(most, len),
    )?;
    Ok(BytesWord::File {
        id,
        at,
        len: u64::from(len),
    })
}

/// How many bytes a word names.
pub fn bytes_size(word: &BytesWord) -> u64
    ensures { result ≡ bytes_size word.now }
{
    match word {
        BytesWord::Text(bytes) | BytesWord::Hex(bytes) => bytes.as_slice().len() as u64,
        BytesWord::Zero(len) | BytesWord::File { len, .. } => *len,
    }
}
