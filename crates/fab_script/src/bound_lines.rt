//! The lines of a bound script's peers, with the bytes of its payload files in them.
ghost use Rattle.std.specs.Prelude.{◌≡◌, [], true, take, drop, map, slice_index_or, IfOk};
ghost use Rattle.fab_script.specs.LineKinds.{is_send, is_inject, is_write, is_atomic, is_compare, is_receive, is_look, is_own};
ghost use Rattle.fab_model.specs.Replay.{bind_word, bind_op, bind_line, lines_of};

use crate::binding::payload;
use fab_base::{Bound, Buf, BytesWord, Line, LineOp, List, NoMemory, Text};
use std::alloc::Global;

/// At most `len` bytes from the place `at` on.
fn part(bytes: &[u8], at: u64, len: u64) -> &[u8]
    ensures { result.now ≡ take len (drop at bytes.now) }
{
    let rest = &bytes[bytes.len().min(at as usize)..];
    &rest[..rest.len().min(len as usize)]
}

/// A copy of a word; one that names bytes of a file is those bytes.
fn bind_word(alloc: Global, bound: &Bound, word: &BytesWord) -> Result<BytesWord, NoMemory>
    ensures { IfOk result (λ r. r ≡ bind_word bound.now word.now) }
{
    Ok(match word {
        BytesWord::Text(bytes) => BytesWord::Text(Buf::copy(alloc, bytes.as_slice())?),
        BytesWord::Hex(bytes) => BytesWord::Hex(Buf::copy(alloc, bytes.as_slice())?),
        BytesWord::Zero(len) => BytesWord::Zero(*len),
        BytesWord::File { id, at, len } => {
            let files = bound.files.as_slice();
            let file = payload(bound.script.payloads.as_slice(), files, *id);
            BytesWord::Hex(Buf::copy(alloc, part(file, *at, *len))?)
        }
    })
}

/// A copy of a send, with its bytes in it.
fn bind_send(alloc: Global, bound: &Bound, op: &LineOp) -> Result<LineOp, NoMemory>
    requires { is_send op.now ≡ true }
    ensures { IfOk result (λ r. r ≡ bind_op bound.now op.now) }
{
    Ok(match *op {
        LineOp::Send {
            ctx,
            dest,
            ref bytes,
            imm,
            level,
            completion,
            fence,
        } => LineOp::Send {
            ctx,
            dest,
            bytes: bind_word(alloc, bound, bytes)?,
            imm,
            level,
            completion,
            fence,
        },
        LineOp::TSend {
            ctx,
            dest,
            tag,
            ref bytes,
            imm,
            level,
            completion,
            fence,
        } => LineOp::TSend {
            ctx,
            dest,
            tag,
            bytes: bind_word(alloc, bound, bytes)?,
            imm,
            level,
            completion,
            fence,
        },
        _ => unreachable!(),
    })
}

/// A copy of an inject, with its bytes in it.
fn bind_inject(alloc: Global, bound: &Bound, op: &LineOp) -> Result<LineOp, NoMemory>
    requires { is_inject op.now ≡ true }
    ensures { IfOk result (λ r. r ≡ bind_op bound.now op.now) }
{
    Ok(match *op {
        LineOp::Inject {
            dest,
            ref bytes,
            imm,
        } => LineOp::Inject {
            dest,
            bytes: bind_word(alloc, bound, bytes)?,
            imm,
        },
        LineOp::TInject {
            dest,
            tag,
            ref bytes,
            imm,
        } => LineOp::TInject {
            dest,
            tag,
            bytes: bind_word(alloc, bound, bytes)?,
            imm,
        },
        LineOp::WInject {
            dest,
            key,
            at,
            ref bytes,
            imm,
        } => LineOp::WInject {
            dest,
            key,
            at,
            bytes: bind_word(alloc, bound, bytes)?,
            imm,
        },
        _ => unreachable!(),
    })
}

/// A copy of a line that puts bytes into a region, with the bytes in it.
fn bind_write(alloc: Global, bound: &Bound, op: &LineOp) -> Result<LineOp, NoMemory>
    requires { is_write op.now ≡ true }
    ensures { IfOk result (λ r. r ≡ bind_op bound.now op.now) }
{
    Ok(match *op {
        LineOp::Write {
            ctx,
            dest,
            key,
            at,
            ref bytes,
            imm,
            completion,
            fence,
        } => LineOp::Write {
            ctx,
            dest,
            key,
            at,
            bytes: bind_word(alloc, bound, bytes)?,
            imm,
            completion,
            fence,
        },
        LineOp::Reg {
            key,
            access,
            ref bytes,
        } => LineOp::Reg {
            key,
            access,
            bytes: bind_word(alloc, bound, bytes)?,
        },
        LineOp::Put { key, at, ref bytes } => LineOp::Put {
            key,
            at,
            bytes: bind_word(alloc, bound, bytes)?,
        },
        _ => unreachable!(),
    })
}

/// A copy of an atomic, or of one that fetches.
fn copy_atomic(alloc: Global, op: &LineOp) -> Result<LineOp, NoMemory>
    requires { is_atomic op.now ≡ true }
    ensures { IfOk result (λ r. r ≡ op.now) }
{
    Ok(match *op {
        LineOp::Atomic {
            ctx,
            dest,
            key,
            at,
            op,
            num,
            ref values,
            completion,
            fence,
        } => LineOp::Atomic {
            ctx,
            dest,
            key,
            at,
            op,
            num,
            values: Buf::copy(alloc, values.as_slice())?,
            completion,
            fence,
        },
        LineOp::Fetch {
            ctx,
            dest,
            key,
            at,
            op,
            num,
            ref values,
            count,
        } => LineOp::Fetch {
            ctx,
            dest,
            key,
            at,
            op,
            num,
            values: Buf::copy(alloc, values.as_slice())?,
            count,
        },
        _ => unreachable!(),
    })
}

/// A copy of an atomic that compares.
fn copy_compare(alloc: Global, op: &LineOp) -> Result<LineOp, NoMemory>
    requires { is_compare op.now ≡ true }
    ensures { IfOk result (λ r. r ≡ op.now) }
{
    Ok(match *op {
        LineOp::Compare {
            ctx,
            dest,
            key,
            at,
            op,
            num,
            ref values,
            ref compares,
        } => LineOp::Compare {
            ctx,
            dest,
            key,
            at,
            op,
            num,
            values: Buf::copy(alloc, values.as_slice())?,
            compares: Buf::copy(alloc, compares.as_slice())?,
        },
        _ => unreachable!(),
    })
}

/// A copy of a line that makes room for bytes.
fn copy_receive(op: &LineOp) -> LineOp
    requires { is_receive op.now ≡ true }
    ensures { result ≡ op.now }
{
    match *op {
        LineOp::Recv { ctx, source, len } => LineOp::Recv { ctx, source, len },
        LineOp::TRecv {
            ctx,
            source,
            tag,
            ignore,
            len,
        } => LineOp::TRecv {
            ctx,
            source,
            tag,
            ignore,
            len,
        },
        LineOp::MRecv {
            ctx,
            source,
            len,
            min,
        } => LineOp::MRecv {
            ctx,
            source,
            len,
            min,
        },
        LineOp::Take { ctx, len } => LineOp::Take { ctx, len },
        LineOp::Read {
            ctx,
            dest,
            key,
            at,
            len,
        } => LineOp::Read {
            ctx,
            dest,
            key,
            at,
            len,
        },
        _ => unreachable!(),
    }
}

/// A copy of a look at messages, or of what ends a receive.
fn copy_look(op: &LineOp) -> LineOp
    requires { is_look op.now ≡ true }
    ensures { result ≡ op.now }
{
    match *op {
        LineOp::Peek {
            ctx,
            source,
            tag,
            ignore,
        } => LineOp::Peek {
            ctx,
            source,
            tag,
            ignore,
        },
        LineOp::Claim {
            ctx,
            source,
            tag,
            ignore,
        } => LineOp::Claim {
            ctx,
            source,
            tag,
            ignore,
        },
        LineOp::Discard {
            ctx,
            source,
            tag,
            ignore,
        } => LineOp::Discard {
            ctx,
            source,
            tag,
            ignore,
        },
        LineOp::DropClaimed { ctx } => LineOp::DropClaimed { ctx },
        LineOp::Cancel { ctx } => LineOp::Cancel { ctx },
        _ => unreachable!(),
    }
}

/// A copy of a line on what is the peer's own.
fn copy_own(alloc: Global, op: &LineOp) -> Result<LineOp, NoMemory>
    requires { is_own op.now ≡ true }
    ensures { IfOk result (λ r. r ≡ op.now) }
{
    Ok(match *op {
        LineOp::Close { key } => LineOp::Close { key },
        LineOp::Show { key } => LineOp::Show { key },
        LineOp::Insert { ref name } => LineOp::Insert {
            name: Text::copy(alloc, name.as_str())?,
        },
        LineOp::Remove { index } => LineOp::Remove { index },
        LineOp::Wait { ctx } => LineOp::Wait { ctx },
        LineOp::Count { class } => LineOp::Count { class },
        LineOp::Reach { class, n } => LineOp::Reach { class, n },
        _ => unreachable!(),
    })
}

/// A copy of what a line asks for, with its bytes in it.
fn bind_op(alloc: Global, bound: &Bound, op: &LineOp) -> Result<LineOp, NoMemory>
    ensures { IfOk result (λ r. r ≡ bind_op bound.now op.now) }
{
    match op {
        LineOp::Send { .. } | LineOp::TSend { .. } => bind_send(alloc, bound, op),
        LineOp::Inject { .. } | LineOp::TInject { .. } | LineOp::WInject { .. } => bind_inject(
            alloc, bound, op,
        ),
        LineOp::Write { .. } | LineOp::Reg { .. } | LineOp::Put { .. } => bind_write(
            alloc, bound, op,
        ),
        LineOp::Atomic { .. } | LineOp::Fetch { .. } => copy_atomic(alloc, op),
        LineOp::Compare { .. } => copy_compare(alloc, op),
        LineOp::Recv { .. }
        | LineOp::TRecv { .. }
        | LineOp::MRecv { .. }
        | LineOp::Take { .. }
        | LineOp::Read { .. } => Ok(copy_receive(op)),
        LineOp::Peek { .. }
        | LineOp::Claim { .. }
        | LineOp::Discard { .. }
        | LineOp::DropClaimed { .. }
        | LineOp::Cancel { .. } => Ok(copy_look(op)),
        LineOp::Close { .. }
        | LineOp::Show { .. }
        | LineOp::Insert { .. }
        | LineOp::Remove { .. }
        | LineOp::Wait { .. }
        | LineOp::Count { .. }
        | LineOp::Reach { .. } => copy_own(alloc, op),
    }
}

/// A copy of a line, with its bytes in it.
fn bind_line(alloc: Global, bound: &Bound, line: &Line) -> Result<Line, NoMemory>
    ensures { IfOk result (λ r. r ≡ bind_line bound.now line.now) }
{
    Ok(Line {
        number: line.number,
        op: bind_op(alloc, bound, &line.op)?,
    })
}

/// Copies of these lines, with their bytes in them.
fn bind_lines(alloc: Global, bound: &Bound, lines: &[Line]) -> Result<Vec<Line>, NoMemory>
    ensures { IfOk result (λ copies. copies.items ≡ map (bind_line bound.now) lines.now) }
{
    let mut copies = Vec::new(alloc);
    for line in lines {
        copies.push(bind_line(alloc, bound, line)?)?;
    }
    Ok(copies)
}

/// The lines of a peer, or none where there is no such peer.
fn lines_at(peers: &[List<Line>], peer: u32) -> &[Line]
    ensures { result.now ≡ slice_index_or peers.now peer [] }
{
    match peers.get(peer as usize) {
        Some(lines) => lines.as_slice(),
        None => &[],
    }
}

/// Copies of the lines of a peer, in which each `file:` word is the bytes that it names. A peer that is
/// not there has none.
pub fn lines(alloc: Global, bound: &Bound, peer: u32) -> Result<Vec<Line>, NoMemory>
    ensures { IfOk result (λ lines. lines.items ≡ lines_of bound.now peer) }
{
    bind_lines(alloc, bound, lines_at(bound.script.peers.as_slice(), peer))
}
