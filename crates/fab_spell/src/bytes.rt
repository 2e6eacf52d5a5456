//! How bytes are written.
ghost use Rattle.std.specs.Prelude.{◌≡◌, ◌++◌, [], ◌∷◌, ◌<◌, OnOk, string_bytes};
ghost use Rattle.fab_model.specs.Words.{hex_digit, hex};
ghost use Rattle.fab_spell.specs.Spelling.{digits_word, text_word, bytes_word};

use fab_base::{BytesWord, NoMemory};

/// One hexadecimal digit, in lower case.
fn digit_of(n: u8) -> char
    requires { n < 16 }
    ensures { result ≡ hex_digit n }
{
    if n < 10 {
        char::from(b'0' + n)
    } else {
        char::from(b'a' + (n - 10))
    }
}

/// Two hexadecimal digits.
fn add_byte(out: &mut String, byte: u8) -> Result<(), NoMemory>
    ensures { OnOk result (string_bytes out.new ≡ string_bytes out.old ++ hex (byte ∷ [])) }
{
    out.push(digit_of(byte / 16))?;
    out.push(digit_of(byte % 16))?;
    Ok(())
}

/// Two hexadecimal digits a byte.
fn add_digits(out: &mut String, bytes: &[u8]) -> Result<(), NoMemory>
    ensures { OnOk result (string_bytes out.new ≡ string_bytes out.old ++ digits_word bytes.now) }
{
    out.push_str("hex:")?;
    for byte in bytes {
        add_byte(out, *byte)?;
    }
    Ok(())
}

/// Bytes as they are, or as digits where they are no text.
fn add_text(out: &mut String, bytes: &[u8]) -> Result<(), NoMemory>
    ensures { OnOk result (string_bytes out.new ≡ string_bytes out.old ++ text_word bytes.now) }
{
    match str::from_utf8(bytes) {
        Ok(text) => {
            out.push_str("text:")?;
            out.push_str(text)?;
            Ok(())
        }
        Err(_) => add_digits(out, bytes),
    }
}

/// The word that names these bytes.
#[tactic(auto, unfolding(crate::specs::Spelling::bytes_word))]
pub fn add_bytes(out: &mut String, bytes: &BytesWord) -> Result<(), NoMemory>
    ensures { OnOk result (string_bytes out.new ≡ string_bytes out.old ++ bytes_word bytes.now) }
{
    match bytes {
        BytesWord::Text(bytes) => add_text(out, bytes.as_slice())?,
        BytesWord::Hex(bytes) => add_digits(out, bytes.as_slice())?,
        BytesWord::Zero(len) => write!(out, "zero:{len}")?,
        BytesWord::File { id, at, len } => write!(out, "file:{id}:{at}:{len}")?,
    }
    Ok(())
}
