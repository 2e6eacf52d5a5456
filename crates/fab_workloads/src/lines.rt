//! The lines of `pingpong` and `bandwidth`, and what all lines are made of.
//!
//! A function that appends may have appended a part after want of memory.
ghost use Rattle.std.specs.Prelude.{◌≡◌, ◌≤◌, ◌+◌, ◌++◌, [], ◌∷◌, IfOk, OnOk};
ghost use Rattle.fab_base.specs.declared.script.BytesWord.TheVariants.{Hex, Zero};
ghost use Rattle.fab_workloads.specs.Lines.{joined, send, receive, wait, ping, pong, windows, sent_by, in_window, sending, receiving};

use fab_base::{Buf, BytesWord, Level, LineOp, NoMemory};
use std::alloc::Global;

/// A tagged send of these bytes (fi_tsend of fi_tagged(3)).
pub fn send(alloc: Global, ctx: u64, dest: u32, tag: u64, bytes: &[u8]) -> Result<LineOp, NoMemory>
    ensures { IfOk result (λ op. op ≡ send ctx dest tag (Hex bytes.now)) }
{
    let bytes = Buf::copy(alloc, bytes)?;
    Ok(LineOp::TSend {
        ctx,
        dest,
        tag,
        bytes: BytesWord::Hex(bytes),
        imm: None,
        level: Level::Transmit,
        completion: false,
        fence: false,
    })
}

/// The acknowledgement of a window: 4 zeros.
fn acknowledge(ctx: u64) -> LineOp
    ensures { result ≡ send ctx 0 ctx (Zero 4) }
{
    LineOp::TSend {
        ctx,
        dest: 0,
        tag: ctx,
        bytes: BytesWord::Zero(4),
        imm: None,
        level: Level::Transmit,
        completion: false,
        fence: false,
    }
}

/// A receive of the tag from this source (fi_trecv of fi_tagged(3)).
pub fn receive(ctx: u64, source: u32, tag: u64, len: u32) -> LineOp
    ensures { result ≡ receive ctx source tag len }
{
    LineOp::TRecv {
        ctx,
        source: Some(source),
        tag,
        ignore: 0,
        len,
    }
}

/// A wait for the entry of this context.
pub fn wait(ctx: u64) -> LineOp
    ensures { result ≡ wait ctx }
{
    LineOp::Wait { ctx: Some(ctx) }
}

/// Round i of peer 0.
fn add_ping(
    alloc: Global,
    ops: &mut Vec<LineOp>,
    size: u32,
    payload: &[u8],
    i: u32,
) -> Result<(), NoMemory>
    requires { 1 ≤ i }
    ensures { OnOk result (ops.new.items ≡ ops.old.items ++ ping size payload.now i) }
{
    let i = u64::from(i);
    ops.push(send(alloc, 2 * i - 1, 1, i, payload)?)?;
    ops.push(receive(2 * i, 1, i, size))?;
    ops.push(wait(2 * i))?;
    Ok(())
}

/// Round i of peer 1.
fn add_pong(
    alloc: Global,
    ops: &mut Vec<LineOp>,
    size: u32,
    payload: &[u8],
    i: u32,
) -> Result<(), NoMemory>
    requires { 1 ≤ i }
    ensures { OnOk result (ops.new.items ≡ ops.old.items ++ pong size payload.now i) }
{
    let i = u64::from(i);
    ops.push(receive(2 * i - 1, 0, i, size))?;
    ops.push(wait(2 * i - 1))?;
    ops.push(send(alloc, 2 * i, 0, i, payload)?)?;
    Ok(())
}

/// The lines of peer 0.
#[tactic(auto, using(crate::proofs::Joined::joined_behind))]
pub(crate) fn pings(
    alloc: Global,
    size: u32,
    payload: &[u8],
    count: u32,
) -> Result<Vec<LineOp>, NoMemory>
    ensures { IfOk result (λ ops. ops.items ≡ joined count (ping size payload.now)) }
{
    let mut ops = Vec::new(alloc);
    for i in 0..count {
        add_ping(alloc, &mut ops, size, payload, i + 1)?;
    }
    Ok(ops)
}

/// The lines of peer 1.
#[tactic(auto, using(crate::proofs::Joined::joined_behind))]
pub(crate) fn pongs(
    alloc: Global,
    size: u32,
    payload: &[u8],
    count: u32,
) -> Result<Vec<LineOp>, NoMemory>
    ensures { IfOk result (λ ops. ops.items ≡ joined count (pong size payload.now)) }
{
    let mut ops = Vec::new(alloc);
    for i in 0..count {
        add_pong(alloc, &mut ops, size, payload, i + 1)?;
    }
    Ok(ops)
}

/// How many windows of at most so many messages there are.
pub(crate) fn windows(count: u32, window: u32) -> u32
    requires count { count ≤ 10_000 }
    requires least { 1 ≤ window }
    requires most { window ≤ 256 }
    ensures { result ≡ windows count window }
{
    (count + (window - 1)) / window
}

/// How many messages the first w windows have.
fn sent_by(count: u32, window: u32, w: u32) -> u64
    ensures value { result ≡ sent_by count window w }
    ensures few { result ≤ count }
{
    (u64::from(w) * u64::from(window)).min(u64::from(count))
}

/// So many messages that peer 0 sends, after so many others.
#[tactic(auto, using(crate::proofs::Joined::joined_after))]
fn add_sends(
    alloc: Global,
    ops: &mut Vec<LineOp>,
    before: u64,
    n: u64,
    payload: &[u8],
) -> Result<(), NoMemory>
    requires { before + n ≤ 4_294_967_296 }
    ensures { OnOk result (ops.new.items ≡ ops.old.items ++ joined n (λ k. send (before + k) 1 (before + k) (Hex payload.now) ∷ [])) }
{
    for k in 0..n {
        let m = before + (k + 1);
        ops.push(send(alloc, m, 1, m, payload)?)?;
    }
    Ok(())
}

/// The receives of these messages.
#[tactic(auto, using(crate::proofs::Joined::joined_after))]
fn add_receives(ops: &mut Vec<LineOp>, before: u64, n: u64, size: u32) -> Result<(), NoMemory>
    requires { before + n ≤ 4_294_967_296 }
    ensures { OnOk result (ops.new.items ≡ ops.old.items ++ joined n (λ k. receive (before + k) 0 (before + k) size ∷ [])) }
{
    for k in 0..n {
        let m = before + (k + 1);
        ops.push(receive(m, 0, m, size))?;
    }
    Ok(())
}

/// The waits for these messages.
#[tactic(auto, using(crate::proofs::Joined::joined_after))]
fn add_waits(ops: &mut Vec<LineOp>, before: u64, n: u64) -> Result<(), NoMemory>
    requires { before + n ≤ 4_294_967_296 }
    ensures { OnOk result (ops.new.items ≡ ops.old.items ++ joined n (λ k. wait (before + k) ∷ [])) }
{
    for k in 0..n {
        ops.push(wait(before + (k + 1)))?;
    }
    Ok(())
}

/// Window w of peer 0.
fn add_sending(
    alloc: Global,
    ops: &mut Vec<LineOp>,
    count: u32,
    window: u32,
    payload: &[u8],
    w: u32,
) -> Result<(), NoMemory>
    requires { 1 ≤ w }
    ensures { OnOk result (ops.new.items ≡ ops.old.items ++ sending count window payload.now w) }
{
    let before = sent_by(count, window, w - 1);
    let n = sent_by(count, window, w).saturating_sub(before);
    let ack = u64::from(count) + u64::from(w);
    add_sends(alloc, ops, before, n, payload)?;
    ops.push(receive(ack, 1, ack, 4))?;
    ops.push(wait(ack))?;
    Ok(())
}

/// Window w of peer 1.
fn add_receiving(
    ops: &mut Vec<LineOp>,
    size: u32,
    count: u32,
    window: u32,
    w: u32,
) -> Result<(), NoMemory>
    requires { 1 ≤ w }
    ensures { OnOk result (ops.new.items ≡ ops.old.items ++ receiving size count window w) }
{
    let before = sent_by(count, window, w - 1);
    let n = sent_by(count, window, w).saturating_sub(before);
    add_receives(ops, before, n, size)?;
    add_waits(ops, before, n)?;
    ops.push(acknowledge(u64::from(count) + u64::from(w)))?;
    Ok(())
}

/// The lines of peer 0, in so many windows.
#[tactic(auto, using(crate::proofs::Joined::joined_behind))]
pub(crate) fn sendings(
    alloc: Global,
    count: u32,
    window: u32,
    payload: &[u8],
    n: u32,
) -> Result<Vec<LineOp>, NoMemory>
    ensures { IfOk result (λ ops. ops.items ≡ joined n (sending count window payload.now)) }
{
    let mut ops = Vec::new(alloc);
    for w in 0..n {
        add_sending(alloc, &mut ops, count, window, payload, w + 1)?;
    }
    Ok(ops)
}

/// The lines of peer 1, in so many windows.
#[tactic(auto, using(crate::proofs::Joined::joined_behind))]
pub(crate) fn receivings(
    alloc: Global,
    size: u32,
    count: u32,
    window: u32,
    n: u32,
) -> Result<Vec<LineOp>, NoMemory>
    ensures { IfOk result (λ ops. ops.items ≡ joined n (receiving size count window)) }
{
    let mut ops = Vec::new(alloc);
    for w in 0..n {
        add_receiving(&mut ops, size, count, window, w + 1)?;
    }
    Ok(ops)
}
