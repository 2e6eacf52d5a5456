//! The words of a line, and what one word says.
ghost use Rattle.std.specs.Prelude.{◌≡◌, ◌<◌, ◌≤◌, [], ◌∷◌, ◌^◌, MatchOption, bytes_eq, length, ◌≢◌, IfOk, IsTrue, ◌↔◌};
ghost use Rattle.fab_words.specs.Words.{numeral_of, number_of, read_number, read_up_to, read_index, read_source, read_text};

use crate::cut::cut_word;
use crate::misread::{Misread, Read};
use fab_base::{NoMemory, Text};
use std::alloc::Global;
use std::marker::Model;

/// The words that are left of a line.
#[derive(Drop)]
pub struct Words<'a> {
    rest: &'a [u8],
}

impl<'a> Model for Words<'a> {
    ghost use Rattle.std.specs.Prelude.{List, ℕ};
    ghost use Rattle.fab_words.specs.Rows.{blank_split};

    ghost Value = { List (List ℕ) };

    ghost view = { λ w. blank_split w.rest.now };
}

impl<'a> Words<'a> {
    ghost use Rattle.fab_words.specs.Rows.{words_of, is_comment};

    /// The words of a line: none where the line is a comment.
    #[tactic(auto, using(crate::proofs::WordLemmas::next_word))]
    pub fn of_line(line: &'a [u8]) -> Words<'a>
        ensures { result ≡ words_of line.now }
    {
        let words = Words { rest: line };
        if words.is_comment() {
            Words { rest: &[] }
        } else {
            words
        }
    }

    /// Whether the first word begins with `#`.
    fn is_comment(&self) -> bool
        ensures { result ≡ is_comment self.now }
    {
        Words { rest: self.rest }
            .next()
            .is_some_and(|word| word.starts_with(b"#"))
    }

    /// The next word.
    #[tactic(auto, using(crate::proofs::WordLemmas::next_word))]
    pub fn next(&mut self) -> Option<&'a [u8]>
        ensures { MatchOption result ((self.old ≡ []) × (self.new ≡ [])) (λ word. self.old ≡ word.now ∷ self.new) }
    {
        while !self.rest.is_empty() {
            let (word, after) = cut_word(self.rest);
            self.rest = after;
            if !word.is_empty() {
                return Some(word);
            }
        }
        None
    }

    /// The same words once more.
    pub fn again(&self) -> Words<'a>
        ensures { result ≡ self.now }
    {
        Words { rest: self.rest }
    }

    /// The one word that is left.
    pub fn one(&mut self) -> Option<&'a [u8]>
        ensures { MatchOption result (length self.old ≢ 1) (λ a. self.old ≡ a.now ∷ []) }
    {
        let word = self.next()?;
        self.is_empty().then_some(word)
    }

    /// The two words that are left.
    pub fn two(&mut self) -> Option<(&'a [u8], &'a [u8])>
        ensures { MatchOption result (length self.old ≢ 2) (λ w. self.old ≡ w.0.now ∷ w.1.now ∷ []) }
    {
        let first = self.next()?;
        let second = self.one()?;
        Some((first, second))
    }

    /// The three words that are left.
    pub fn three(&mut self) -> Option<(&'a [u8], &'a [u8], &'a [u8])>
        ensures { MatchOption result (length self.old ≢ 3) (λ w. self.old ≡ w.0.now ∷ w.1.now ∷ w.2.now ∷ []) }
    {
        let first = self.next()?;
        let second = self.next()?;
        let third = self.one()?;
        Some((first, second, third))
    }

    /// The four words that are left.
    pub fn four(&mut self) -> Option<(&'a [u8], &'a [u8], &'a [u8], &'a [u8])>
        ensures { MatchOption result (length self.old ≢ 4) (λ w. self.old ≡ w.0.now ∷ w.1.now ∷ w.2.now ∷ w.3.now ∷ []) }
    {
        let first = self.next()?;
        let second = self.next()?;
        let third = self.next()?;
        let fourth = self.one()?;
        Some((first, second, third, fourth))
    }

    /// The five words that are left.
    pub fn five(&mut self) -> Option<(&'a [u8], &'a [u8], &'a [u8], &'a [u8], &'a [u8])>
        ensures { MatchOption result (length self.old ≢ 5)
            (λ w. self.old ≡ w.0.now ∷ w.1.now ∷ w.2.now ∷ w.3.now ∷ w.4.now ∷ []) }
    {
        let first = self.next()?;
        let (second, third, fourth, fifth) = self.four()?;
        Some((first, second, third, fourth, fifth))
    }

    /// The first two words; the others are left.
    pub fn first_two(&mut self) -> Option<(&'a [u8], &'a [u8])>
        ensures { MatchOption result (length self.old < 2) (λ w. self.old ≡ w.0.now ∷ w.1.now ∷ self.new) }
    {
        let first = self.next()?;
        let second = self.next()?;
        Some((first, second))
    }

    /// The first three words; the others are left.
    pub fn first_three(&mut self) -> Option<(&'a [u8], &'a [u8], &'a [u8])>
        ensures { MatchOption result (length self.old < 3) (λ w. self.old ≡ w.0.now ∷ w.1.now ∷ w.2.now ∷ self.new) }
    {
        let first = self.next()?;
        let (second, third) = self.first_two()?;
        Some((first, second, third))
    }

    /// The first four words; the others are left.
    pub fn first_four(&mut self) -> Option<(&'a [u8], &'a [u8], &'a [u8], &'a [u8])>
        ensures { MatchOption result (length self.old < 4) (λ w. self.old ≡ w.0.now ∷ w.1.now ∷ w.2.now ∷ w.3.now ∷ self.new) }
    {
        let first = self.next()?;
        let (second, third, fourth) = self.first_three()?;
        Some((first, second, third, fourth))
    }

    /// The first five words; the others are left.
    pub fn first_five(&mut self) -> Option<(&'a [u8], &'a [u8], &'a [u8], &'a [u8], &'a [u8])>
        ensures { MatchOption result (length self.old < 5) (λ w. self.old ≡ w.0.now ∷ w.1.now ∷ w.2.now ∷ w.3.now ∷ w.4.now ∷ self.new) }
    {
        let first = self.next()?;
        let (second, third, fourth, fifth) = self.first_four()?;
        Some((first, second, third, fourth, fifth))
    }

    /// Whether no word is left.
    pub fn is_empty(&self) -> bool
        ensures { IsTrue result ↔ (self.now ≡ []) }
    {
        Words { rest: self.rest }.next().is_none()
    }
}

/// Whether the word is this text.
pub fn is(word: &[u8], name: &str) -> bool
    ensures { result ≡ bytes_eq word.now name.now }
{
    word == name.as_bytes()
}

/// The number that digits of this radix say, where there are one or more, at most `most`, and it is below 2^64.
#[tactic(auto, using(crate::proofs::NumberLemmas::no_number))]
pub fn numeral(radix: u32, most: usize, digits: &[u8]) -> Option<u64>
    requires least { 2 ≤ radix }
    requires greatest { radix ≤ 36 }
    ensures { result ≡ numeral_of radix most digits.now }
{
    if digits.is_empty() || digits.len() > most {
        return None;
    }
    let mut value: u64 = 0;
    for byte in digits {
        let digit = char::from(*byte).to_digit(radix)?;
        value = value
            .checked_mul(u64::from(radix))?
            .checked_add(u64::from(digit))?;
    }
    Some(value)
}

/// The number that 1 to 20 decimal digits say, or `0x` and 1 to 16 hexadecimal digits, below 2^64.
#[tactic(auto, unfolding(crate::specs::Words::number_of))]
pub fn number(word: &[u8]) -> Option<u64>
    ensures { result ≡ number_of word.now }
{
    match word.strip_prefix(b"0x") {
        Some(digits) => numeral(16, 16, digits),
        None => numeral(10, 20, word),
    }
}

/// A number in a number's place.
#[tactic(auto, unfolding(crate::specs::Words::read_number))]
pub fn read_number(word: &[u8]) -> Result<u64, Misread>
    ensures { result ≡ read_number word.now }
{
    number(word).ok_or(Misread::Number)
}

/// A number of at most `most`.
#[tactic(auto, unfolding(crate::specs::Words::read_up_to))]
pub fn read_up_to(most: u32, word: &[u8]) -> Result<u32, Misread>
    ensures { result ≡ read_up_to most word.now }
{
    let number = read_number(word)?;
    if number <= u64::from(most) {
        Ok(number as u32)
    } else {
        Err(Misread::Limit)
    }
}

/// An index of the address vector.
#[tactic(auto, unfolding(crate::specs::Words::read_index))]
pub fn read_index(word: &[u8]) -> Result<u32, Misread>
    ensures { result ≡ read_index word.now }
{
    read_up_to(u32::MAX, word)
}

/// `*`, or an index of the address vector.
#[tactic(auto, unfolding(crate::specs::Words::read_source))]
pub fn read_source(word: &[u8]) -> Result<Option<u32>, Misread>
    ensures { result ≡ read_source word.now }
{
    if is(word, "*") {
        Ok(None)
    } else {
        Ok(Some(read_index(word)?))
    }
}

/// A text, as it is written.
#[tactic(auto, using(crate::proofs::WordLemmas::texts), unfolding(crate::specs::Words::read_text))]
pub fn read_text(alloc: Global, word: &[u8]) -> Result<Read<Text>, NoMemory>
    ensures { IfOk result (λ read. read ≡ read_text word.now) }
{
    match str::from_utf8(word) {
        Ok(text) => Ok(Ok(Text::copy(alloc, text)?)),
        // Not reached: each byte of a line of text is a character.
        Err(_) => Ok(Err(Misread::Words)),
    }
}
