//! What a line asks for that a peer does.
ghost use Rattle.std.specs.Prelude.{◌≡◌, IfOk, Ok};
ghost use Rattle.fab_words.specs.Misreads.{map_ok};
ghost use Rattle.fab_grammar.specs.Lines.{recv_of, trecv_of, look_of, a_peek, a_claim, a_discard, take_of, number_line, remove_of, insert_of, read_of, read_rights, reg_of, put_of, wait_of, class_name, class_named, read_class, count_of, reach_of, op_of};

use crate::atomics::{atomic, compare, fetch};
use crate::sends::{inject, mrecv, read_target, send, tinject, tsend, winject, write};
use crate::verbs::Verb;
use fab_base::{Access, Class, LineOp, NoMemory};
use fab_words::{
    Misread, Read, Words, both, is, read_bytes, read_index, read_number, read_source, read_text,
    read_up_to,
};
use std::alloc::Global;

/// `trecv C SRC TAG IGNORE LEN` (fi_trecv of fi_tagged(3)).
#[tactic(auto, using(crate::proofs::LineLemmas::trecv_of_other), unfolding(crate::specs::Lines::trecv_of))]
fn trecv(most: u32, args: &mut Words) -> Read<LineOp>
    ensures { result ≡ trecv_of most args.old }
{
    let Some((ctx, source, tag, ignore, len)) = args.five() else {
        return Err(Misread::Words);
    };
    let start = both(
        both(read_number(ctx), read_source(source)),
        read_number(tag),
    );
    let ((((ctx, source), tag), ignore), len) = both(
        both(start, read_number(ignore)),
        read_up_to(most, len),
    )?;
    Ok(LineOp::TRecv {
        ctx,
        source,
        tag,
        ignore,
        len,
    })
}

/// `recv C SRC LEN` (fi_recv of fi_msg(3)).
#[tactic(auto, using(crate::proofs::LineLemmas::recv_of_other), unfolding(crate::specs::Lines::recv_of))]
fn recv(most: u32, args: &mut Words) -> Read<LineOp>
    ensures { result ≡ recv_of most args.old }
{
    let Some((ctx, source, len)) = args.three() else {
        return Err(Misread::Words);
    };
    both(
        both(read_number(ctx), read_source(source)),
        read_up_to(most, len),
    )
    .map(|((ctx, source), len)| LineOp::Recv { ctx, source, len })
}

/// The words of a look at what has arrived: context, source, tag and ignored bits.
type Look = (((u64, Option<u32>), u64), u64);

/// `C SRC TAG IGNORE` (FI_PEEK of fi_tagged(3)).
#[tactic(auto, using(crate::proofs::LineLemmas::look_of_other), unfolding(crate::specs::Lines::look_of))]
fn look(args: &mut Words) -> Read<Look>
    ensures { result ≡ look_of args.old }
{
    let Some((ctx, source, tag, ignore)) = args.four() else {
        return Err(Misread::Words);
    };
    let start = both(
        both(read_number(ctx), read_source(source)),
        read_number(tag),
    );
    both(start, read_number(ignore))
}

fn peek(look: Read<Look>) -> Read<LineOp>
    ensures { result ≡ map_ok a_peek look }
{
    look.map(|(((ctx, source), tag), ignore)| LineOp::Peek {
        ctx,
        source,
        tag,
        ignore,
    })
}

fn claim(look: Read<Look>) -> Read<LineOp>
    ensures { result ≡ map_ok a_claim look }
{
    look.map(|(((ctx, source), tag), ignore)| LineOp::Claim {
        ctx,
        source,
        tag,
        ignore,
    })
}

fn discard(look: Read<Look>) -> Read<LineOp>
    ensures { result ≡ map_ok a_discard look }
{
    look.map(|(((ctx, source), tag), ignore)| LineOp::Discard {
        ctx,
        source,
        tag,
        ignore,
    })
}

/// `take C LEN`.
#[tactic(auto, using(crate::proofs::LineLemmas::take_of_other), unfolding(crate::specs::Lines::take_of))]
fn take(most: u32, args: &mut Words) -> Read<LineOp>
    ensures { result ≡ take_of most args.old }
{
    let Some((ctx, len)) = args.two() else {
        return Err(Misread::Words);
    };
    both(read_number(ctx), read_up_to(most, len)).map(|(ctx, len)| LineOp::Take { ctx, len })
}

/// One number.
#[tactic(auto, using(crate::proofs::LineLemmas::number_line_other), unfolding(crate::specs::Lines::number_line))]
fn number_line(args: &mut Words) -> Read<u64>
    ensures { result ≡ number_line args.old }
{
    read_number(args.one().ok_or(Misread::Words)?)
}

/// `remove I` (fi_av_remove of fi_av(3)).
#[tactic(auto, using(crate::proofs::LineLemmas::remove_of_other), unfolding(crate::specs::Lines::remove_of))]
fn remove(args: &mut Words) -> Read<LineOp>
    ensures { result ≡ remove_of args.old }
{
    let index = read_index(args.one().ok_or(Misread::Words)?)?;
    Ok(LineOp::Remove { index })
}

/// `insert NAME` (fi_av_insert of fi_av(3)).
#[tactic(auto, using(crate::proofs::LineLemmas::insert_of_other), unfolding(crate::specs::Lines::insert_of))]
fn insert(alloc: Global, args: &mut Words) -> Result<Read<LineOp>, NoMemory>
    ensures { IfOk result (λ read. read ≡ insert_of args.old) }
{
    let Some(name) = args.one() else {
        return Ok(Err(Misread::Words));
    };
    Ok(read_text(alloc, name)?.map(|name| LineOp::Insert { name }))
}

/// `read C D KEY AT LEN` (fi_read of fi_rma(3)).
#[tactic(auto, using(crate::proofs::LineLemmas::read_of_other), unfolding(crate::specs::Lines::read_of))]
fn read(most: u32, args: &mut Words) -> Read<LineOp>
    ensures { result ≡ read_of most args.old }
{
    let Some((ctx, dest, key, at, len)) = args.five() else {
        return Err(Misread::Words);
    };
    both(
        both(read_number(ctx), read_target(dest, key, at)),
        read_up_to(most, len),
    )
    .map(|((ctx, ((dest, key), at)), len)| LineOp::Read {
        ctx,
        dest,
        key,
        at,
        len,
    })
}

/// `r`, `w`, `rw` or `-`.
#[tactic(auto, unfolding(crate::specs::Lines::read_rights))]
fn read_rights(word: &[u8]) -> Read<Access>
    ensures { result ≡ read_rights word.now }
{
    let (remote_read, remote_write) = if is(word, "r") {
        (true, false)
    } else if is(word, "w") {
        (false, true)
    } else if is(word, "rw") {
        (true, true)
    } else if is(word, "-") {
        (false, false)
    } else {
        return Err(Misread::Words);
    };
    Ok(Access {
        remote_read,
        remote_write,
    })
}

/// `reg KEY RIGHTS BYTES` (fi_mr_reg of fi_mr(3)).
#[tactic(auto, using(crate::proofs::LineLemmas::reg_of_other), unfolding(crate::specs::Lines::reg_of))]
fn reg(alloc: Global, most: u32, args: &mut Words) -> Result<Read<LineOp>, NoMemory>
    ensures { IfOk result (λ read. read ≡ reg_of most args.old) }
{
    let Some((key, access, bytes)) = args.three() else {
        return Ok(Err(Misread::Words));
    };
    let bytes = read_bytes(alloc, most, bytes)?;
    let start = both(read_number(key), read_rights(access));
    Ok(both(start, bytes).map(|((key, access), bytes)| LineOp::Reg { key, access, bytes }))
}

/// `put KEY AT BYTES`.
#[tactic(auto, using(crate::proofs::LineLemmas::put_of_other), unfolding(crate::specs::Lines::put_of))]
fn put(alloc: Global, most: u32, args: &mut Words) -> Result<Read<LineOp>, NoMemory>
    ensures { IfOk result (λ read. read ≡ put_of most args.old) }
{
    let Some((key, at, bytes)) = args.three() else {
        return Ok(Err(Misread::Words));
    };
    let bytes = read_bytes(alloc, most, bytes)?;
    let start = both(read_number(key), read_number(at));
    Ok(both(start, bytes).map(|((key, at), bytes)| LineOp::Put { key, at, bytes }))
}

/// `wait C`, `wait *`.
#[tactic(auto, using(crate::proofs::LineLemmas::wait_of_other), unfolding(crate::specs::Lines::wait_of))]
fn wait(args: &mut Words) -> Read<LineOp>
    ensures { result ≡ wait_of args.old }
{
    let Some(ctx) = args.one() else {
        return Err(Misread::Words);
    };
    if is(ctx, "*") {
        return Ok(LineOp::Wait { ctx: None });
    }
    let ctx = read_number(ctx)?;
    Ok(LineOp::Wait { ctx: Some(ctx) })
}

/// The classes of counters.
const CLASSES: [Class; 6] = [
    Class::Send,
    Class::Recv,
    Class::Read,
    Class::Write,
    Class::RemoteRead,
    Class::RemoteWrite,
];

/// The class of a counter as it is written (fi_cntr(3)).
pub fn class_name(class: Class) -> &'static str
    ensures { result.now ≡ class_name class }
{
    match class {
        Class::Send => "send",
        Class::Recv => "recv",
        Class::Read => "read",
        Class::Write => "write",
        Class::RemoteRead => "remote_read",
        Class::RemoteWrite => "remote_write",
    }
}

/// The class of this name.
#[tactic(auto, unfolding(crate::specs::Lines::class_named))]
fn class_named(word: &[u8]) -> Option<Class>
    ensures { result ≡ class_named word.now }
{
    CLASSES
        .iter()
        .copied()
        .find(|class| is(word, class_name(*class)))
}

/// The class of a counter (fi_cntr(3)).
#[tactic(auto, unfolding(crate::specs::Lines::read_class))]
fn read_class(word: &[u8]) -> Read<Class>
    ensures { result ≡ read_class word.now }
{
    class_named(word).ok_or(Misread::Words)
}

/// `count CLASS`.
#[tactic(auto, using(crate::proofs::LineLemmas::count_of_other), unfolding(crate::specs::Lines::count_of))]
fn count(args: &mut Words) -> Read<LineOp>
    ensures { result ≡ count_of args.old }
{
    let class = read_class(args.one().ok_or(Misread::Words)?)?;
    Ok(LineOp::Count { class })
}

/// `reach CLASS N`.
#[tactic(auto, using(crate::proofs::LineLemmas::reach_of_other), unfolding(crate::specs::Lines::reach_of))]
fn reach(args: &mut Words) -> Read<LineOp>
    ensures { result ≡ reach_of args.old }
{
    let Some((class, n)) = args.two() else {
        return Err(Misread::Words);
    };
    both(read_class(class), read_number(n)).map(|(class, n)| LineOp::Reach { class, n })
}

/// What a line asks for, of the words after its verb: `most` bytes at the most.
#[tactic(auto, unfolding(crate::specs::Lines::op_of))]
pub fn read_op(
    alloc: Global,
    most: u32,
    verb: Verb,
    args: &mut Words,
) -> Result<Read<LineOp>, NoMemory>
    ensures { IfOk result (λ read. read ≡ op_of most verb args.old) }
{
    match verb {
        Verb::Send => send(alloc, most, args),
        Verb::TSend => tsend(alloc, most, args),
        Verb::Inject => inject(alloc, most, args),
        Verb::TInject => tinject(alloc, most, args),
        Verb::Write => write(alloc, most, args),
        Verb::WInject => winject(alloc, most, args),
        Verb::Atomic => atomic(alloc, args),
        Verb::Fetch => fetch(alloc, args),
        Verb::Compare => compare(alloc, args),
        Verb::Reg => reg(alloc, most, args),
        Verb::Put => put(alloc, most, args),
        Verb::Insert => insert(alloc, args),
        Verb::Recv => Ok(recv(most, args)),
        Verb::TRecv => Ok(trecv(most, args)),
        Verb::MRecv => Ok(mrecv(most, args)),
        Verb::Peek => Ok(peek(look(args))),
        Verb::Claim => Ok(claim(look(args))),
        Verb::Discard => Ok(discard(look(args))),
        Verb::Take => Ok(take(most, args)),
        Verb::DropClaimed => Ok(number_line(args).map(|ctx| LineOp::DropClaimed { ctx })),
        Verb::Cancel => Ok(number_line(args).map(|ctx| LineOp::Cancel { ctx })),
        Verb::Close => Ok(number_line(args).map(|key| LineOp::Close { key })),
        Verb::Show => Ok(number_line(args).map(|key| LineOp::Show { key })),
        Verb::Read => Ok(read(most, args)),
        Verb::Remove => Ok(remove(args)),
        Verb::Wait => Ok(wait(args)),
        Verb::Count => Ok(count(args)),
        Verb::Reach => Ok(reach(args)),
        _ => Ok(Err(Misread::Words)),
    }
}
