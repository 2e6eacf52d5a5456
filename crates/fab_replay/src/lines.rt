//! The call that a line makes, with the bytes of its payload files.
ghost use Rattle.std.specs.Prelude.{◌≡◌, IfOk, IfSome, None, Some};
ghost use Rattle.std.specs.Option.{option_map};
ghost use Rattle.fab_base.specs.declared.items.Kind.TheVariants.{Msg, TagMsg};
ghost use Rattle.fab_base.specs.declared.script.Bound.{Bound as BoundScript};
ghost use Rattle.fab_model.specs.Replay.{payload, bind_word, bind_op};
ghost use Rattle.fab_model.specs.Calls.{Look, word_bytes, message, request, atomic, posting, fetched, call_of};
ghost use Rattle.fab_checker_machine.specs.Seen.{seen_call};

use fab_base::{
    Atom, Bound, Buf, BytesWord, Flags, Form, Kind, Level, LineOp, NoMemory, Num, Payload, PeekHow,
    Text,
};
use fab_checker_machine::calls::Call;
use fab_checker_machine::receiving::Posting;
use fab_checker_values::lists::split;
use fab_checker_values::orders::Order;
use std::alloc::Global;

/// The bytes of the payload file under this number, or none.
fn payload<'a>(payloads: &[Payload], files: &'a [Buf], id: u64) -> &'a [u8]
    ensures { result.now ≡ payload payloads.now files.now id }
{
    for (payload, file) in payloads.iter().zip(files) {
        if payload.id == id {
            return file.as_slice();
        }
    }
    &[]
}

/// The bytes that a word of a line names.
fn bytes_of(alloc: Global, bound: &Bound, word: &BytesWord) -> Result<Buf, NoMemory>
    ensures { IfOk result (λ bytes. bytes ≡ word_bytes (bind_word bound.now word.now)) }
{
    match word {
        BytesWord::Text(bytes) => Buf::copy(alloc, bytes.as_slice()),
        BytesWord::Hex(bytes) => Buf::copy(alloc, bytes.as_slice()),
        BytesWord::Zero(n) => Buf::zeros(alloc, *n),
        BytesWord::File { id, at, len } => {
            let file = payload(
                bound.script.payloads.as_slice(),
                bound.files.as_slice(),
                *id,
            );
            let (_, rest) = split(file, *at as usize);
            let (part, _) = split(rest, *len as usize);
            Buf::copy(alloc, part)
        }
    }
}

/// A call that sends a message, with a tag where there is one.
fn message(
    alloc: Global,
    ctx: Option<u64>,
    dest: u32,
    tag: Option<u64>,
    bytes: Buf,
    imm: Option<u64>,
    flags: Flags,
) -> Result<Option<Call>, NoMemory>
    ensures untagged { tag ≡ None → IfOk result (λ call. option_map seen_call call ≡ Some (message Msg ctx dest 0 bytes imm flags.level flags.completion flags.fence)) }
    ensures tagged { IfSome tag (λ t. IfOk result (λ call. option_map seen_call call ≡ Some (message TagMsg ctx dest t bytes imm flags.level flags.completion flags.fence))) }
{
    let buf = bytes.clone()?;
    let (kind, tag) = match tag {
        None => (Kind::Msg, 0),
        Some(tag) => (Kind::TagMsg, tag),
    };
    Ok(Some(Call::Transmit(Order {
        kind,
        injected: ctx.is_none(),
        dest,
        tag,
        imm,
        key: 0,
        at: 0,
        count: 0,
        atom: None,
        bytes,
        compared: Buf::empty(alloc),
        ctx,
        level: flags.level,
        completion: flags.completion,
        fence: flags.fence,
        buf: Some(buf),
    })))
}

/// The call of a line that sends a message and asks how it went. It gives up at a line of another kind.
#[tactic(auto, unfolding(fab_model::specs::Calls::call_of))]
fn send_call(alloc: Global, bound: &Bound, op: &LineOp) -> Result<Option<Call>, NoMemory>
    ensures { IfOk result (λ call. option_map seen_call call ≡ call_of (bind_op bound.now op.now)) }
{
    match op {
        LineOp::Send {
            ctx,
            dest,
            bytes,
            imm,
            level,
            completion,
            fence,
        } => {
            let bytes = bytes_of(alloc, bound, bytes)?;
            let flags = Flags {
                completion: *completion,
                level: *level,
                fence: *fence,
            };
            message(alloc, Some(*ctx), *dest, None, bytes, *imm, flags)
        }
        LineOp::TSend {
            ctx,
            dest,
            tag,
            bytes,
            imm,
            level,
            completion,
            fence,
        } => {
            let bytes = bytes_of(alloc, bound, bytes)?;
            let flags = Flags {
                completion: *completion,
                level: *level,
                fence: *fence,
            };
            message(alloc, Some(*ctx), *dest, Some(*tag), bytes, *imm, flags)
        }
        _ => Err(NoMemory),
    }
}

/// The call of a line that injects a message. It gives up at a line of another kind.
#[tactic(auto, unfolding(fab_model::specs::Calls::call_of))]
fn inject_call(alloc: Global, bound: &Bound, op: &LineOp) -> Result<Option<Call>, NoMemory>
    ensures { IfOk result (λ call. option_map seen_call call ≡ call_of (bind_op bound.now op.now)) }
{
    let flags = Flags {
        completion: false,
        level: Level::Inject,
        fence: false,
    };
    match op {
        LineOp::Inject { dest, bytes, imm } => {
            let bytes = bytes_of(alloc, bound, bytes)?;
            message(alloc, None, *dest, None, bytes, *imm, flags)
        }
        LineOp::TInject {
            dest,
            tag,
            bytes,
            imm,
        } => {
            let bytes = bytes_of(alloc, bound, bytes)?;
            message(alloc, None, *dest, Some(*tag), bytes, *imm, flags)
        }
        _ => Err(NoMemory),
    }
}

/// A call that asks for a read or a write.
fn request(
    alloc: Global,
    kind: Kind,
    ctx: Option<u64>,
    dest: u32,
    key: u64,
    at: u64,
    count: u64,
    bytes: Buf,
    imm: Option<u64>,
    completion: bool,
    fence: bool,
    buf: Option<Buf>,
) -> Call
    ensures { seen_call result ≡ request kind ctx dest key at count bytes imm completion fence buf }
{
    Call::Transmit(Order {
        kind,
        injected: ctx.is_none(),
        dest,
        tag: 0,
        imm,
        key,
        at,
        count,
        atom: None,
        bytes,
        compared: Buf::empty(alloc),
        ctx,
        level: Level::Delivery,
        completion,
        fence,
        buf,
    })
}

/// A call that asks for an atomic.
fn atomic(
    ctx: u64,
    dest: u32,
    key: u64,
    at: u64,
    atom: Atom,
    count: u64,
    operand: Buf,
    compared: Buf,
    completion: bool,
    fence: bool,
    buf: Option<Buf>,
) -> Call
    ensures { seen_call result ≡ atomic ctx dest key at atom count operand compared completion fence buf }
{
    Call::Transmit(Order {
        kind: Kind::AtomicReq,
        injected: false,
        dest,
        tag: 0,
        imm: None,
        key,
        at,
        count,
        atom: Some(atom),
        bytes: operand,
        compared,
        ctx: Some(ctx),
        level: Level::Delivery,
        completion,
        fence,
        buf,
    })
}

/// A call that posts a receive.
fn posting(
    tagged: bool,
    source: Option<u32>,
    tag: u64,
    ignore: u64,
    len: u32,
    least: Option<u32>,
    ctx: u64,
) -> Call
    ensures { seen_call result ≡ posting tagged source tag ignore len least ctx }
{
    Call::Post(Posting {
        tagged,
        source,
        tag,
        ignore,
        len,
        least,
        ctx,
    })
}

/// The call of a line that posts a receive. It gives up at a line of another kind.
#[tactic(auto, unfolding(fab_model::specs::Calls::call_of))]
fn receive_call(op: &LineOp) -> Result<Option<Call>, NoMemory>
    ensures { (bound : BoundScript) → IfOk result (λ call. option_map seen_call call ≡ call_of (bind_op bound op.now)) }
{
    match op {
        LineOp::Recv { ctx, source, len } => Ok(Some(posting(
            false, *source, 0, 0, *len, None, *ctx,
        ))),
        LineOp::TRecv {
            ctx,
            source,
            tag,
            ignore,
            len,
        } => Ok(Some(posting(true, *source, *tag, *ignore, *len, None, *ctx))),
        LineOp::MRecv {
            ctx,
            source,
            len,
            min,
        } => {
            let least = min.unwrap_or(64.min(*len));
            Ok(Some(posting(false, *source, 0, 0, *len, Some(least), *ctx)))
        }
        _ => Err(NoMemory),
    }
}

/// A call that looks for a message.
fn look(how: PeekHow, ctx: u64, source: Option<u32>, tag: u64, ignore: u64) -> Call
    ensures { seen_call result ≡ Look how source tag ignore ctx }
{
    Call::Look {
        how,
        source,
        tag,
        ignore,
        ctx,
    }
}

/// The call of a line that looks for a message. It gives up at a line of another kind.
#[tactic(auto, unfolding(fab_model::specs::Calls::call_of))]
fn look_call(op: &LineOp) -> Result<Option<Call>, NoMemory>
    ensures { (bound : BoundScript) → IfOk result (λ call. option_map seen_call call ≡ call_of (bind_op bound op.now)) }
{
    match op {
        LineOp::Peek {
            ctx,
            source,
            tag,
            ignore,
        } => Ok(Some(look(PeekHow::Peek, *ctx, *source, *tag, *ignore))),
        LineOp::Claim {
            ctx,
            source,
            tag,
            ignore,
        } => Ok(Some(look(PeekHow::Claim, *ctx, *source, *tag, *ignore))),
        LineOp::Discard {
            ctx,
            source,
            tag,
            ignore,
        } => Ok(Some(look(PeekHow::Discard, *ctx, *source, *tag, *ignore))),
        _ => Err(NoMemory),
    }
}

/// The call of the line `read`. It gives up at a line of another kind.
#[tactic(auto, unfolding(fab_model::specs::Calls::call_of))]
fn read_call(alloc: Global, op: &LineOp) -> Result<Option<Call>, NoMemory>
    ensures { (bound : BoundScript) → IfOk result (λ call. option_map seen_call call ≡ call_of (bind_op bound op.now)) }
{
    let LineOp::Read {
        ctx,
        dest,
        key,
        at,
        len,
    } = op
    else {
        return Err(NoMemory);
    };
    let count = u64::from(*len);
    let buf = Buf::zeros(alloc, count)?;
    let none = Buf::empty(alloc);
    Ok(Some(request(
        alloc,
        Kind::ReadReq,
        Some(*ctx),
        *dest,
        *key,
        *at,
        count,
        none,
        None,
        true,
        false,
        Some(buf),
    )))
}

/// The call of the line `write`. It gives up at a line of another kind.
#[tactic(auto, unfolding(fab_model::specs::Calls::call_of))]
fn write_call(alloc: Global, bound: &Bound, op: &LineOp) -> Result<Option<Call>, NoMemory>
    ensures { IfOk result (λ call. option_map seen_call call ≡ call_of (bind_op bound.now op.now)) }
{
    let LineOp::Write {
        ctx,
        dest,
        key,
        at,
        bytes,
        imm,
        completion,
        fence,
    } = op
    else {
        return Err(NoMemory);
    };
    let bytes = bytes_of(alloc, bound, bytes)?;
    let buf = bytes.clone()?;
    Ok(Some(request(
        alloc,
        Kind::WriteReq,
        Some(*ctx),
        *dest,
        *key,
        *at,
        0,
        bytes,
        *imm,
        *completion,
        *fence,
        Some(buf),
    )))
}

/// The call of the line `winject`. It gives up at a line of another kind.
#[tactic(auto, unfolding(fab_model::specs::Calls::call_of))]
fn inject_write_call(alloc: Global, bound: &Bound, op: &LineOp) -> Result<Option<Call>, NoMemory>
    ensures { IfOk result (λ call. option_map seen_call call ≡ call_of (bind_op bound.now op.now)) }
{
    let LineOp::WInject {
        dest,
        key,
        at,
        bytes,
        imm,
    } = op
    else {
        return Err(NoMemory);
    };
    let bytes = bytes_of(alloc, bound, bytes)?;
    Ok(Some(request(
        alloc,
        Kind::WriteReq,
        None,
        *dest,
        *key,
        *at,
        0,
        bytes,
        *imm,
        false,
        false,
        None,
    )))
}

/// How many bytes a fetch asks for: as many as its operand has, or those of so many elements where it has
/// none.
fn fetched(num: Num, values: &Buf, count: u32) -> u64
    ensures { result ≡ fetched num values.now count }
{
    let len = values.as_slice().len();
    if len == 0 {
        return u64::from(count) * num.element_size() as u64;
    }
    len as u64
}

/// The call of the line `atomic`. It gives up at a line of another kind.
#[tactic(auto, unfolding(fab_model::specs::Calls::call_of))]
fn update_call(alloc: Global, op: &LineOp) -> Result<Option<Call>, NoMemory>
    ensures { (bound : BoundScript) → IfOk result (λ call. option_map seen_call call ≡ call_of (bind_op bound op.now)) }
{
    let LineOp::Atomic {
        ctx,
        dest,
        key,
        at,
        op,
        num,
        values,
        completion,
        fence,
    } = op
    else {
        return Err(NoMemory);
    };
    let atom = Atom {
        op: *op,
        num: *num,
        form: Form::Base,
    };
    let count = values.as_slice().len() as u64;
    let values = values.clone()?;
    let none = Buf::empty(alloc);
    Ok(Some(atomic(
        *ctx,
        *dest,
        *key,
        *at,
        atom,
        count,
        values,
        none,
        *completion,
        *fence,
        None,
    )))
}

/// The call of the line `fetch`. It gives up at a line of another kind.
#[tactic(auto, unfolding(fab_model::specs::Calls::call_of))]
fn fetch_call(alloc: Global, op: &LineOp) -> Result<Option<Call>, NoMemory>
    ensures { (bound : BoundScript) → IfOk result (λ call. option_map seen_call call ≡ call_of (bind_op bound op.now)) }
{
    let LineOp::Fetch {
        ctx,
        dest,
        key,
        at,
        op,
        num,
        values,
        count,
    } = op
    else {
        return Err(NoMemory);
    };
    let atom = Atom {
        op: *op,
        num: *num,
        form: Form::Fetch,
    };
    let count = fetched(*num, values, *count);
    let values = values.clone()?;
    let none = Buf::empty(alloc);
    let buf = Buf::zeros(alloc, count)?;
    Ok(Some(atomic(
        *ctx,
        *dest,
        *key,
        *at,
        atom,
        count,
        values,
        none,
        true,
        false,
        Some(buf),
    )))
}

/// The call of the line `compare`. It gives up at a line of another kind.
#[tactic(auto, unfolding(fab_model::specs::Calls::call_of))]
fn compare_call(alloc: Global, op: &LineOp) -> Result<Option<Call>, NoMemory>
    ensures { (bound : BoundScript) → IfOk result (λ call. option_map seen_call call ≡ call_of (bind_op bound op.now)) }
{
    let LineOp::Compare {
        ctx,
        dest,
        key,
        at,
        op,
        num,
        values,
        compares,
    } = op
    else {
        return Err(NoMemory);
    };
    let atom = Atom {
        op: *op,
        num: *num,
        form: Form::Compare,
    };
    let count = values.as_slice().len() as u64;
    let values = values.clone()?;
    let compares = compares.clone()?;
    let buf = Buf::zeros(alloc, count)?;
    Ok(Some(atomic(
        *ctx,
        *dest,
        *key,
        *at,
        atom,
        count,
        values,
        compares,
        true,
        false,
        Some(buf),
    )))
}

/// The call of a line on the peer's own regions. It gives up at a line of another kind.
#[tactic(auto, unfolding(fab_model::specs::Calls::call_of))]
fn region_call(alloc: Global, bound: &Bound, op: &LineOp) -> Result<Option<Call>, NoMemory>
    ensures { IfOk result (λ call. option_map seen_call call ≡ call_of (bind_op bound.now op.now)) }
{
    match op {
        LineOp::Reg { key, access, bytes } => {
            let bytes = bytes_of(alloc, bound, bytes)?;
            Ok(Some(Call::Reg {
                key: *key,
                access: *access,
                bytes,
            }))
        }
        LineOp::Close { key } => Ok(Some(Call::Close { key: *key })),
        LineOp::Put { key, at, bytes } => {
            let bytes = bytes_of(alloc, bound, bytes)?;
            Ok(Some(Call::Put {
                key: *key,
                at: *at,
                bytes,
            }))
        }
        LineOp::Show { key } => Ok(Some(Call::Show { key: *key })),
        _ => Err(NoMemory),
    }
}

/// The call of a line on what is claimed or posted, on addresses or on counters. It gives up at a line of
/// another kind.
#[tactic(auto, unfolding(fab_model::specs::Calls::call_of))]
fn own_call(alloc: Global, op: &LineOp) -> Result<Option<Call>, NoMemory>
    ensures { (bound : BoundScript) → IfOk result (λ call. option_map seen_call call ≡ call_of (bind_op bound op.now)) }
{
    match op {
        LineOp::Take { ctx, len } => Ok(Some(Call::TakeClaimed {
            len: *len,
            ctx: *ctx,
        })),
        LineOp::DropClaimed { ctx } => Ok(Some(Call::DropClaimed { ctx: *ctx })),
        LineOp::Cancel { ctx } => Ok(Some(Call::Cancel { ctx: *ctx })),
        LineOp::Insert { name } => {
            let name = Text::copy(alloc, name.as_str())?;
            Ok(Some(Call::Insert { name }))
        }
        LineOp::Remove { index } => Ok(Some(Call::Remove { index: *index })),
        LineOp::Count { class } => Ok(Some(Call::Count { class: *class })),
        _ => Err(NoMemory),
    }
}

/// The call that a line makes. A wait is no call.
#[tactic(auto, unfolding(fab_model::specs::Calls::call_of))]
pub fn call_of(alloc: Global, bound: &Bound, op: &LineOp) -> Result<Option<Call>, NoMemory>
    ensures { IfOk result (λ call. option_map seen_call call ≡ call_of (bind_op bound.now op.now)) }
{
    match op {
        LineOp::Send { .. } | LineOp::TSend { .. } => send_call(alloc, bound, op),
        LineOp::Inject { .. } | LineOp::TInject { .. } => inject_call(alloc, bound, op),
        LineOp::Recv { .. } | LineOp::TRecv { .. } | LineOp::MRecv { .. } => receive_call(op),
        LineOp::Peek { .. } | LineOp::Claim { .. } | LineOp::Discard { .. } => look_call(op),
        LineOp::Read { .. } => read_call(alloc, op),
        LineOp::Write { .. } => write_call(alloc, bound, op),
        LineOp::WInject { .. } => inject_write_call(alloc, bound, op),
        LineOp::Atomic { .. } => update_call(alloc, op),
        LineOp::Fetch { .. } => fetch_call(alloc, op),
        LineOp::Compare { .. } => compare_call(alloc, op),
        LineOp::Reg { .. } | LineOp::Close { .. } => region_call(alloc, bound, op),
        LineOp::Put { .. } | LineOp::Show { .. } => region_call(alloc, bound, op),
        LineOp::Take { .. } | LineOp::DropClaimed { .. } => own_call(alloc, op),
        LineOp::Cancel { .. } | LineOp::Count { .. } => own_call(alloc, op),
        LineOp::Insert { .. } | LineOp::Remove { .. } => own_call(alloc, op),
        LineOp::Wait { .. } => Ok(None),
        LineOp::Reach { .. } => Ok(None),
    }
}
