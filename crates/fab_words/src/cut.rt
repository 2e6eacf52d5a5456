//! A text, cut at a byte.
ghost use Rattle.std.specs.Prelude.{◌≡◌, ◌==◌, ◌<◌, ◌∷◌, length, position, option_copied, IfSome};
ghost use Rattle.std.specs.List.{before_first, after_first, slice_split};
ghost use Rattle.fab_words.specs.Rows.{is_line_feed, is_blank, parts_left};

fn is_blank(byte: u8) -> bool
    ensures { result ≡ is_blank byte }
{
    byte == b' ' || byte == b'\t'
}

fn feed_in(text: &[u8]) -> Option<usize>
    ensures { result ≡ position is_line_feed text.now }
{
    text.iter().position(|byte| *byte == b'\n')
}

fn blank_in(text: &[u8]) -> Option<usize>
    ensures { result ≡ position is_blank text.now }
{
    text.iter().position(|byte| is_blank(*byte))
}

/// What stands before the first line feed, and what stands after it: all and nothing where there is none.
#[tactic(auto, using(crate::proofs::CutLemmas::cuts))]
pub(crate) fn cut_line(text: &[u8]) -> (&[u8], &[u8])
    ensures before { result.0.now ≡ before_first is_line_feed text.now }
    ensures after { result.1.now ≡ after_first is_line_feed text.now }
{
    match feed_in(text) {
        Some(end) => (&text[..end], &text[end + 1..]),
        None => (text, &[]),
    }
}

/// What stands before the first blank, and what stands after it: all and nothing where there is none.
#[tactic(auto, using(crate::proofs::CutLemmas::cuts))]
pub(crate) fn cut_word(text: &[u8]) -> (&[u8], &[u8])
    ensures before { result.0.now ≡ before_first is_blank text.now }
    ensures after { result.1.now ≡ after_first is_blank text.now }
{
    match blank_in(text) {
        Some(end) => (&text[..end], &text[end + 1..]),
        None => (text, &[]),
    }
}

fn byte_in(text: &[u8], byte: u8) -> Option<usize>
    ensures { result ≡ position (λ b. b == byte) text.now }
{
    text.iter().position(|b| *b == byte)
}

/// The part before the first such byte, and the text after it where there is one.
#[tactic(auto, using(crate::proofs::CutLemmas::splits))]
pub fn first_part(text: &[u8], byte: u8) -> (&[u8], Option<&[u8]>)
    ensures parts { slice_split (λ b. b == byte) text.now ≡ result.0.now ∷ parts_left byte (option_copied result.1) }
    ensures shorter { IfSome result.1 (λ rest. length rest.now < length text.now) }
{
    match byte_in(text, byte) {
        Some(end) => (&text[..end], Some(&text[end + 1..])),
        None => (text, None),
    }
}
