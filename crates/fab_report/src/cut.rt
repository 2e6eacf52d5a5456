//! A text, cut at a byte.
ghost use Rattle.std.specs.Prelude.{◌≡◌, ◌==◌, ◌<◌, ◌∷◌, length, position, option_copied, IfSome};
ghost use Rattle.fab_model.specs.Words.{pieces_at};
ghost use Rattle.fab_report.specs.Reading.{pieces_left};

fn byte_in(text: &[u8], byte: u8) -> Option<usize>
    ensures { result ≡ position (λ b. b == byte) text.now }
{
    text.iter().position(|b| *b == byte)
}

/// The piece before the first such byte, and the text after it where there is one.
#[tactic(auto, using(crate::proofs::Cutting::splits))]
pub fn first_piece(text: &[u8], byte: u8) -> (&[u8], Option<&[u8]>)
    ensures pieces { pieces_at byte text.now ≡ result.0.now ∷ pieces_left byte (option_copied result.1) }
    ensures shorter { IfSome result.1 (λ rest. length rest.now < length text.now) }
{
    match byte_in(text, byte) {
        Some(end) => (&text[..end], Some(&text[end + 1..])),
        None => (text, None),
    }
}
