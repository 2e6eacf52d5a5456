//! What the texts spell that stand in the rows of a program: in the lines of its input.
//!
//! A row is one line, so what a line can't show, and what is long, is spelled.
use fab_base::NoMemory;
use std::alloc::Global;

/// What stands behind a backslash: `n`, `r`, `t` and `0` are the control characters of these names, `d` is one more of them, `s`
/// is a blank, `e` is no character of ASCII, and `-` is nothing.
fn add_escaped(out: &mut Vec<u8>, part: &[u8]) -> Result<(), NoMemory> {
    let (byte, rest): (&[u8], &[u8]) = match part {
        [b'n', rest @ ..] => (b"\n", rest),
        [b'r', rest @ ..] => (b"\r", rest),
        [b't', rest @ ..] => (b"\t", rest),
        [b'0', rest @ ..] => (b"\0", rest),
        [b's', rest @ ..] => (b" ", rest),
        [b'd', rest @ ..] => (b"\x7f", rest),
        [b'e', rest @ ..] => (b"\xc8", rest),
        [b'-', rest @ ..] => (b"", rest),
        _ => (b"\\", part),
    };
    out.extend_from_slice(byte)?;
    out.extend_from_slice(rest)?;
    Ok(())
}

fn add_once(out: &mut Vec<u8>, text: &str) -> Result<(), NoMemory> {
    for (place, part) in text.split('\\').enumerate() {
        if place == 0 {
            out.extend_from_slice(part.as_bytes())?;
        } else {
            add_escaped(out, part.as_bytes())?;
        }
    }
    Ok(())
}

/// `COUNT TEXT`: the text so many times.
fn add_times(alloc: Global, out: &mut Vec<u8>, part: &str) -> Result<(), NoMemory> {
    let (count, text) = part.split_once(' ').unwrap_or(("", part));
    let count = count.parse::<u32>().unwrap_or(0);
    let mut once = Vec::new(alloc);
    add_once(&mut once, text)?;
    for _ in 0..count {
        out.extend_from_slice(once.as_slice())?;
    }
    Ok(())
}

/// Adds what a text spells, in which `|COUNT TEXT|` stands for the text so many times.
pub fn add_spelled(alloc: Global, out: &mut Vec<u8>, text: &str) -> Result<(), NoMemory> {
    for (place, part) in text.split('|').enumerate() {
        if place % 2 == 0 {
            add_once(out, part)?;
        } else {
            add_times(alloc, out, part)?;
        }
    }
    Ok(())
}
