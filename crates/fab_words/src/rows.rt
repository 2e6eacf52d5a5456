//! The lines of a file.
ghost use Rattle.std.specs.Prelude.{◌≡◌};
ghost use Rattle.std.specs.List.{after_first};
ghost use Rattle.fab_words.specs.Rows.{is_text, is_line_feed, first_line, without_return};

use crate::cut::cut_line;
use std::marker::Model;

/// The lines that are left of a file. Contracts see how many were read, and the lines that are left.
#[derive(Drop)]
pub struct Lines<'a> {
    rest: &'a [u8],
    before: u32,
}

impl<'a> Model for Lines<'a> {
    ghost use Rattle.std.specs.Prelude.{List, ℕ};
    ghost use Rattle.fab_words.specs.Rows.{lines_of};

    ghost Value = { ℕ × List (List ℕ) };

    ghost view = { λ r. (r.before, lines_of r.rest.now) };
}

impl<'a> Lines<'a> {
    ghost use Rattle.std.specs.Prelude.{◌<◌, ◌+◌, ◌^◌, [], ◌∷◌, MatchOption};
    ghost use Rattle.fab_words.specs.Rows.{lines_of};

    pub fn new(bytes: &'a [u8]) -> Lines<'a>
        ensures { result ≡ (0, lines_of bytes.now) }
    {
        Lines {
            rest: bytes,
            before: 0,
        }
    }

    /// How many lines were read.
    pub fn count(&self) -> u32
        ensures { result ≡ self.now.0 }
    {
        self.before
    }

    /// The next line, with its number.
    #[tactic(auto, using(crate::proofs::RowLemmas::next_line))]
    pub fn next(&mut self) -> Option<(u32, &'a [u8])>
        requires { self.old.0 + 1 < 2 ^ 32 }
        ensures { MatchOption result ((self.old.1 ≡ []) × (self.new ≡ self.old))
            (λ line. (line.0 ≡ self.old.0 + 1) × (self.new.0 ≡ self.old.0 + 1) × (self.old.1 ≡ line.1.now ∷ self.new.1)) }
    {
        if self.rest.is_empty() {
            return None;
        }
        let (line, after) = first_line(self.rest);
        self.rest = after;
        self.before += 1;
        Some((self.before, line))
    }
}

/// The first line, and what follows it.
fn first_line(text: &[u8]) -> (&[u8], &[u8])
    ensures line { result.0.now ≡ first_line text.now }
    ensures after { result.1.now ≡ after_first is_line_feed text.now }
{
    let (line, after) = cut_line(text);
    let is_ended = line.len() < text.len();
    if is_ended {
        (without_return(line), after)
    } else {
        (line, after)
    }
}

fn without_return(line: &[u8]) -> &[u8]
    ensures { result.now ≡ without_return line.now }
{
    line.strip_suffix(b"\r").unwrap_or(line)
}

/// Whether every byte is a printable character, a space or a tab.
pub fn all_text(line: &[u8]) -> bool
    ensures { result ≡ is_text line.now }
{
    line.iter()
        .all(|byte| *byte == b'\t' || (*byte >= 32 && *byte <= 126))
}
