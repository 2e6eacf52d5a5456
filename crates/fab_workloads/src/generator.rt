//! The messages that `gen` makes of a number, and their lines.
ghost use Rattle.std.specs.Prelude.{◌≡◌, ◌≤◌, ◌<◌, ◌+◌, ◌++◌, ◌^◌, [], map, sum, IfOk, OnOk};
ghost use Rattle.fab_model.specs.Calls.{upto};
ghost use Rattle.fab_workloads.specs.Generator.{drawn, next_drawn, source_of, dest_of, tag_of, length_of, byte_of, bytes_of, send_of, receive_of, sends, receives, total, generated_bytes, generated_sum};

use crate::lines::{receive, send, wait};
use fab_base::{LineOp, NoMemory};
use std::alloc::Global;

/// The number that follows this one in a draw of numbers: a linear congruential generator. `gen` and `window` draw so.
pub fn next_drawn(x: u64) -> u64
    ensures { result ≡ next_drawn x }
{
    x.wrapping_mul(6_364_136_223_846_793_005)
        .wrapping_add(1_442_695_040_888_963_407)
}

/// What stands for a message.
#[derive(Clone, Copy, Drop)]
struct Drawn {
    x: u64,
}

impl Drawn {
    /// What stands for the next one.
    fn next(self) -> Drawn
        ensures { result.x ≡ next_drawn self.x }
    {
        Drawn {
            x: next_drawn(self.x),
        }
    }

    fn source(self, peers: u32) -> u32
        requires { 1 ≤ peers }
        ensures { result ≡ source_of peers self.x }
    {
        ((self.x >> 33) % u64::from(peers)) as u32
    }

    fn dest(self, peers: u32) -> u32
        requires { 1 ≤ peers }
        ensures { result ≡ dest_of peers self.x }
    {
        ((self.x >> 40) % u64::from(peers)) as u32
    }

    fn tag(self) -> u64
        ensures { result ≡ tag_of self.x }
    {
        (self.x >> 20) % 4
    }

    fn len(self) -> u32
        ensures value { result ≡ length_of self.x }
        ensures few { result < 16_384 }
    {
        ((self.x >> 48) % 16_384) as u32
    }

    fn byte(self, j: u32) -> u8
        ensures { result ≡ byte_of self.x j }
    {
        (((self.x >> 24) + u64::from(j)) % 256) as u8
    }

    fn bytes(self, alloc: Global) -> Result<Vec<u8>, NoMemory>
        ensures { IfOk result (λ bytes. bytes.items ≡ bytes_of self.x) }
    {
        let mut bytes = Vec::new(alloc);
        for j in 0..self.len() {
            bytes.push(self.byte(j))?;
        }
        Ok(bytes)
    }

    /// What its first bytes come to.
    fn sum_of_first(self, n: u32) -> u64
        requires { n < 256 }
        ensures value { result ≡ sum (map (byte_of self.x) (upto n)) }
        ensures few { result ≤ 65_280 }
    {
        let mut sum: u64 = 0;
        for j in 0..n {
            sum += u64::from(self.byte(j));
        }
        sum
    }

    /// What its bytes come to: each 256 that follow one another come to 32,640, wherever they begin.
    fn sum(self) -> u64
        ensures value { result ≡ sum (bytes_of self.x) }
        ensures few { result ≤ 4_177_920 }
    {
        let len = self.len();
        32_640 * u64::from(len / 256) + self.sum_of_first(len % 256)
    }
}

/// The line that sends message m, where this peer is its source.
fn add_send(
    alloc: Global,
    ops: &mut Vec<LineOp>,
    peers: u32,
    p: u32,
    m: u64,
    drawn: Drawn,
) -> Result<(), NoMemory>
    requires { 1 ≤ peers }
    ensures { OnOk result (ops.new.items ≡ ops.old.items ++ send_of peers p m drawn.x) }
{
    if drawn.source(peers) == p {
        let bytes = drawn.bytes(alloc)?;
        ops.push(send(alloc, m, drawn.dest(peers), drawn.tag(), &bytes)?)?;
    }
    Ok(())
}

/// The lines that receive the message under this context, where this peer is its destination.
fn add_receive(
    ops: &mut Vec<LineOp>,
    peers: u32,
    p: u32,
    ctx: u64,
    drawn: Drawn,
) -> Result<(), NoMemory>
    requires { 1 ≤ peers }
    ensures { OnOk result (ops.new.items ≡ ops.old.items ++ receive_of peers p ctx drawn.x) }
{
    if drawn.dest(peers) == p {
        ops.push(receive(ctx, drawn.source(peers), drawn.tag(), drawn.len()))?;
        ops.push(wait(ctx))?;
    }
    Ok(())
}

/// The sends of a peer.
fn add_sends(
    alloc: Global,
    ops: &mut Vec<LineOp>,
    number: u64,
    peers: u32,
    messages: u32,
    p: u32,
) -> Result<(), NoMemory>
    requires { 1 ≤ peers }
    ensures { OnOk result (ops.new.items ≡ ops.old.items ++ sends number peers messages p) }
{
    let mut drawn = Drawn { x: number };
    for m in 0..messages {
        drawn = drawn.next();
        add_send(alloc, ops, peers, p, u64::from(m) + 1, drawn)?;
    }
    Ok(())
}

/// The receives of a peer.
fn add_receives(
    ops: &mut Vec<LineOp>,
    number: u64,
    peers: u32,
    messages: u32,
    p: u32,
) -> Result<(), NoMemory>
    requires { 1 ≤ peers }
    ensures { OnOk result (ops.new.items ≡ ops.old.items ++ receives number peers messages p) }
{
    let mut drawn = Drawn { x: number };
    for m in 0..messages {
        drawn = drawn.next();
        add_receive(
            ops,
            peers,
            p,
            u64::from(messages) + (u64::from(m) + 1),
            drawn,
        )?;
    }
    Ok(())
}

/// The lines of a peer.
pub(crate) fn lines(
    alloc: Global,
    number: u64,
    peers: u32,
    messages: u32,
    p: u32,
) -> Result<Vec<LineOp>, NoMemory>
    requires { 1 ≤ peers }
    ensures { IfOk result (λ ops. ops.items ≡ sends number peers messages p ++ receives number peers messages p) }
{
    let mut ops = Vec::new(alloc);
    add_sends(alloc, &mut ops, number, peers, messages, p)?;
    add_receives(&mut ops, number, peers, messages, p)?;
    Ok(ops)
}

/// How many bytes all messages have.
pub(crate) fn generated_bytes(number: u64, messages: u32) -> u64
    ensures { result ≡ generated_bytes number messages }
{
    let mut drawn = Drawn { x: number };
    let mut bytes: u64 = 0;
    for _m in 0..messages {
        drawn = drawn.next();
        bytes += u64::from(drawn.len());
    }
    bytes
}

/// What all bytes of all messages come to.
pub(crate) fn generated_sum(number: u64, messages: u32) -> u64
    ensures { result ≡ generated_sum number messages }
{
    let mut drawn = Drawn { x: number };
    let mut sum: u64 = 0;
    for _m in 0..messages {
        drawn = drawn.next();
        sum += drawn.sum();
    }
    sum
}
