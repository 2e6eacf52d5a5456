//! A script and its payload files.
ghost use Rattle.std.specs.Prelude.{◌≡◌, ℕ, List, [], ◌&&◌, min, nat_le, length, drop, take, map, filter, not, position, slice_index_or, ◌==◌, Ok, IfOk, IfErr};
ghost use Rattle.std.specs.List.{filter_map, reduce};
ghost use Rattle.fab_base.specs.declared.script.BytesWord.TheVariants.{File as FileWord};
ghost use Rattle.fab_grammar.specs.Grammar.{verdict};
ghost use Rattle.fab_grammar.specs.Rules.{has_id};
ghost use Rattle.fab_model.specs.Replay.{payload};
ghost use Rattle.fab_script.specs.Bound.{bytes_of, has_bytes, is_inside, lines_outside, outside, IsSound};
ghost use Rattle.fab_script.specs.Refused.{IsScript, IsRefusal};
ghost use Rattle.std.specs.Prelude.{None, Some, option_copied, ◌+◌};

use crate::refused::ParseRefused;
use fab_base::{Bound, Buf, BytesWord, Line, LineOp, List, Payload, Script, Why};

/// The place of the payload file under this number.
fn place_of(payloads: &[Payload], id: u64) -> Option<usize>
    ensures { result ≡ position (λ p. p.id == id) payloads.now }
{
    payloads.iter().position(|p| p.id == id)
}

/// The bytes of the file at this place, or none where there is no such file.
fn file_at(files: &[Buf], at: usize) -> &[u8]
    ensures { result.now ≡ slice_index_or files.now at [] }
{
    match files.get(at) {
        Some(file) => file.as_slice(),
        None => &[],
    }
}

/// The bytes of the payload file under this number, or none where there is no such file.
pub(crate) fn payload<'a>(payloads: &[Payload], files: &'a [Buf], id: u64) -> &'a [u8]
    ensures { result.now ≡ payload payloads.now files.now id }
{
    match place_of(payloads, id) {
        Some(at) => file_at(files, at),
        None => &[],
    }
}

/// Whether there is a payload file under this number.
fn has_id(payloads: &[Payload], id: u64) -> bool
    ensures { result ≡ has_id payloads.now (Some id) }
{
    payloads.iter().any(|payload| payload.id == id)
}

/// Whether so many bytes from the place `at` on are there.
fn has_range(bytes: &[u8], at: u64, len: u64) -> bool
    ensures { result ≡ nat_le (at + len) (length bytes.now) }
{
    let whole = bytes.len() as u64;
    at <= whole && len <= whole - at
}

/// How the line names bytes, where it does.
fn bytes_of(op: &LineOp) -> Option<&BytesWord>
    ensures { option_copied result ≡ bytes_of op.now }
{
    match op {
        LineOp::Send { bytes, .. }
        | LineOp::TSend { bytes, .. }
        | LineOp::Inject { bytes, .. }
        | LineOp::TInject { bytes, .. }
        | LineOp::Write { bytes, .. }
        | LineOp::WInject { bytes, .. }
        | LineOp::Reg { bytes, .. }
        | LineOp::Put { bytes, .. } => Some(bytes),
        _ => None,
    }
}

/// Whether the bytes that the line names of a file are there.
fn is_inside(payloads: &[Payload], files: &[Buf], op: &LineOp) -> bool
    ensures { result ≡ is_inside payloads.now files.now op.now }
{
    match bytes_of(op) {
        Some(BytesWord::File { id, at, len }) => {
            has_id(payloads, *id) && has_range(payload(payloads, files, *id), *at, *len)
        }
        _ => true,
    }
}

/// The first of these lines that names bytes which are not there.
fn first_outside(payloads: &[Payload], files: &[Buf], lines: &[Line]) -> Option<u32>
    ensures { result ≡ reduce min (lines_outside payloads.now files.now lines.now) }
{
    lines
        .iter()
        .filter(|line| !is_inside(payloads, files, &line.op))
        .map(|line| line.number)
        .min()
}

/// The first line of all peers that names bytes which are not there.
fn first_of_all(payloads: &[Payload], files: &[Buf], peers: &[List<Line>]) -> Option<u32>
    ensures { result ≡ reduce min (filter_map (λ lines. reduce min (lines_outside payloads.now files.now lines)) peers.now) }
{
    peers
        .iter()
        .filter_map(|lines| first_outside(payloads, files, lines.as_slice()))
        .min()
}

/// The script with the bytes of its payload files, one for each `payload` line, in order.
///
/// An `Err` is never `NoMemory`: it names, as `FileRange`, the first line whose `file:` word names a file that was
/// not declared, or goes beyond its file.
pub fn bind(script: Script, files: Vec<Buf>) -> Result<Bound, ParseRefused>
    requires { length files.items ≡ length script.payloads }
    ensures bound { IfOk result (λ b. b ≡ record { script = script; files = files.items }) }
    ensures inside { IfOk result (λ b. outside script files.items ≡ None) }
    ensures refused { IfErr result (λ e. IsScript e × IsRefusal e (outside script files.items)) }
    ensures sound { (text : List ℕ) → verdict text ≡ Ok script → IfOk result IsSound }
{
    let first = first_of_all(script.payloads.as_slice(), &files, script.peers.as_slice());
    if let Some(line) = first {
        return Err(ParseRefused::Script {
            line,
            why: Why::FileRange,
        });
    }
    Ok(Bound {
        script,
        files: List::from_vec(files),
    })
}
