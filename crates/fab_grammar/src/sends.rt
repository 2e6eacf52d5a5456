//! The lines that may have optional words.
ghost use Rattle.std.specs.Prelude.{◌≡◌, IfOk};
ghost use Rattle.fab_grammar.specs.Sends.{read_target, read_to, read_tagged, read_remote, for_send, for_inject, for_write, for_multi, send_of, tsend_of, inject_of, tinject_of, mrecv_of, write_of, winject_of};

use crate::options::{Allowed, read_options};
use fab_base::{LineOp, NoMemory};
use fab_words::{
    Misread, Read, Words, both, read_bytes, read_index, read_number, read_source, read_up_to,
};
use std::alloc::Global;

/// `D KEY AT`: where at another peer.
#[tactic(auto, unfolding(crate::specs::Sends::read_target))]
pub(crate) fn read_target(dest: &[u8], key: &[u8], at: &[u8]) -> Read<((u32, u64), u64)>
    ensures { result ≡ read_target dest.now key.now at.now }
{
    both(both(read_index(dest), read_number(key)), read_number(at))
}

/// `C D`.
#[tactic(auto, unfolding(crate::specs::Sends::read_to))]
fn read_to(ctx: &[u8], dest: &[u8]) -> Read<(u64, u32)>
    ensures { result ≡ read_to ctx.now dest.now }
{
    both(read_number(ctx), read_index(dest))
}

/// `C D TAG`.
#[tactic(auto, unfolding(crate::specs::Sends::read_tagged))]
fn read_tagged(ctx: &[u8], dest: &[u8], tag: &[u8]) -> Read<((u64, u32), u64)>
    ensures { result ≡ read_tagged ctx.now dest.now tag.now }
{
    both(read_to(ctx, dest), read_number(tag))
}

/// `C D KEY AT`.
#[tactic(auto, unfolding(crate::specs::Sends::read_remote))]
pub(crate) fn read_remote(
    ctx: &[u8],
    dest: &[u8],
    key: &[u8],
    at: &[u8],
) -> Read<(u64, ((u32, u64), u64))>
    ensures { result ≡ read_remote ctx.now dest.now key.now at.now }
{
    both(read_number(ctx), read_target(dest, key, at))
}

fn for_send() -> Allowed
    ensures { result ≡ for_send }
{
    Allowed::new(true, true, true, true, false)
}

fn for_inject() -> Allowed
    ensures { result ≡ for_inject }
{
    Allowed::new(true, false, false, false, false)
}

fn for_write() -> Allowed
    ensures { result ≡ for_write }
{
    Allowed::new(true, false, true, true, false)
}

fn for_multi() -> Allowed
    ensures { result ≡ for_multi }
{
    Allowed::new(false, false, false, false, true)
}

/// `send C D BYTES` (fi_send of fi_msg(3)).
#[tactic(auto, using(crate::proofs::LineLemmas::send_of_other), unfolding(crate::specs::Sends::send_of))]
pub(crate) fn send(alloc: Global, most: u32, args: &mut Words) -> Result<Read<LineOp>, NoMemory>
    ensures { IfOk result (λ read. read ≡ send_of most args.old) }
{
    let Some((ctx, dest, bytes)) = args.first_three() else {
        return Ok(Err(Misread::Words));
    };
    let bytes = read_bytes(alloc, most, bytes)?;
    let options = read_options(for_send(), args);
    Ok(both(both(read_to(ctx, dest), bytes), options).map(|(((ctx, dest), bytes), o)| LineOp::Send {
        ctx,
        dest,
        bytes,
        imm: o.imm,
        level: o.level,
        completion: o.completion,
        fence: o.fence,
    }))
}

/// `tsend C D TAG BYTES` (fi_tsend of fi_tagged(3)).
#[tactic(auto, using(crate::proofs::LineLemmas::tsend_of_other), unfolding(crate::specs::Sends::tsend_of))]
pub(crate) fn tsend(alloc: Global, most: u32, args: &mut Words) -> Result<Read<LineOp>, NoMemory>
    ensures { IfOk result (λ read. read ≡ tsend_of most args.old) }
{
    let Some((ctx, dest, tag, bytes)) = args.first_four() else {
        return Ok(Err(Misread::Words));
    };
    let bytes = read_bytes(alloc, most, bytes)?;
    let start = read_tagged(ctx, dest, tag);
    let options = read_options(for_send(), args);
    Ok(both(both(start, bytes), options).map(|((((ctx, dest), tag), bytes), o)| LineOp::TSend {
        ctx,
        dest,
        tag,
        bytes,
        imm: o.imm,
        level: o.level,
        completion: o.completion,
        fence: o.fence,
    }))
}

/// `inject D BYTES` (fi_inject of fi_msg(3)).
#[tactic(auto, using(crate::proofs::LineLemmas::inject_of_other), unfolding(crate::specs::Sends::inject_of))]
pub(crate) fn inject(alloc: Global, most: u32, args: &mut Words) -> Result<Read<LineOp>, NoMemory>
    ensures { IfOk result (λ read. read ≡ inject_of most args.old) }
{
    let Some((dest, bytes)) = args.first_two() else {
        return Ok(Err(Misread::Words));
    };
    let bytes = read_bytes(alloc, most, bytes)?;
    let options = read_options(for_inject(), args);
    Ok(both(both(read_index(dest), bytes), options).map(|((dest, bytes), o)| LineOp::Inject {
        dest,
        bytes,
        imm: o.imm,
    }))
}

/// `tinject D TAG BYTES` (fi_tinject of fi_tagged(3)).
#[tactic(auto, using(crate::proofs::LineLemmas::tinject_of_other), unfolding(crate::specs::Sends::tinject_of))]
pub(crate) fn tinject(alloc: Global, most: u32, args: &mut Words) -> Result<Read<LineOp>, NoMemory>
    ensures { IfOk result (λ read. read ≡ tinject_of most args.old) }
{
    let Some((dest, tag, bytes)) = args.first_three() else {
        return Ok(Err(Misread::Words));
    };
    let bytes = read_bytes(alloc, most, bytes)?;
    let start = both(read_index(dest), read_number(tag));
    let options = read_options(for_inject(), args);
    Ok(both(both(start, bytes), options).map(|(((dest, tag), bytes), o)| LineOp::TInject {
        dest,
        tag,
        bytes,
        imm: o.imm,
    }))
}

/// `write C D KEY AT BYTES` (fi_write of fi_rma(3)).
#[tactic(auto, using(crate::proofs::LineLemmas::write_of_other), unfolding(crate::specs::Sends::write_of))]
pub(crate) fn write(alloc: Global, most: u32, args: &mut Words) -> Result<Read<LineOp>, NoMemory>
    ensures { IfOk result (λ read. read ≡ write_of most args.old) }
{
    let Some((ctx, dest, key, at, bytes)) = args.first_five() else {
        return Ok(Err(Misread::Words));
    };
    let bytes = read_bytes(alloc, most, bytes)?;
    let start = read_remote(ctx, dest, key, at);
    let options = read_options(for_write(), args);
    Ok(both(both(start, bytes), options).map(|(
        ((ctx, ((dest, key), at)), bytes),
        o,
    )| LineOp::Write {
        ctx,
        dest,
        key,
        at,
        bytes,
        imm: o.imm,
        completion: o.completion,
        fence: o.fence,
    }))
}

/// `winject D KEY AT BYTES` (fi_inject_write of fi_rma(3)).
#[tactic(auto, using(crate::proofs::LineLemmas::winject_of_other), unfolding(crate::specs::Sends::winject_of))]
pub(crate) fn winject(alloc: Global, most: u32, args: &mut Words) -> Result<Read<LineOp>, NoMemory>
    ensures { IfOk result (λ read. read ≡ winject_of most args.old) }
{
    let Some((dest, key, at, bytes)) = args.first_four() else {
        return Ok(Err(Misread::Words));
    };
    let bytes = read_bytes(alloc, most, bytes)?;
    let options = read_options(for_inject(), args);
    Ok(both(both(read_target(dest, key, at), bytes), options).map(|(
        (((dest, key), at), bytes),
        o,
    )| LineOp::WInject {
        dest,
        key,
        at,
        bytes,
        imm: o.imm,
    }))
}

/// `mrecv C SRC LEN` (FI_MULTI_RECV of fi_msg(3)).
#[tactic(auto, using(crate::proofs::LineLemmas::mrecv_of_other), unfolding(crate::specs::Sends::mrecv_of))]
pub(crate) fn mrecv(most: u32, args: &mut Words) -> Read<LineOp>
    ensures { result ≡ mrecv_of most args.old }
{
    let Some((ctx, source, len)) = args.first_three() else {
        return Err(Misread::Words);
    };
    let start = both(
        both(read_number(ctx), read_source(source)),
        read_up_to(most, len),
    );
    let options = read_options(for_multi(), args);
    both(start, options).map(|(((ctx, source), len), o)| LineOp::MRecv {
        ctx,
        source,
        len,
        min: o.min,
    })
}
