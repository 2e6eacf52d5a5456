//! Two endpoints whose ports are gathered while a message is on its way, and that go on over plain ports.
ghost use Rattle.std.specs.Prelude.{◌≡◌, ℕ, ◌<◌, IfSome};
ghost use Rattle.fab_ring.specs.Ports.{number_of, peers_of, table_of};
ghost use Rattle.fab_port_suite.specs.Lanes.{IsSame};
ghost use Rattle.fab_port_tests.specs.Pairs.{IsFresh};
ghost use Rattle.fab_domain_tests.specs.Staying.{HasTakenAs, Stays};

use fab_av::Av;
use fab_base::{Api, Buf, Busy, Caps, Entry, Fault, Flags, Hints, Info, Level};
use fab_ep::endpoint::Endpoint;
use fab_face::calls::{Messages, Progress};
use fab_face::events::{Moved, Stop};
use fab_face::machine::Machine;
use fab_info::getinfo;
use fab_link::{PlainPort, Port};
use fab_open::{BinMachine, open};
use fab_port_tests::{pair_gathered, two_ports};
use fab_ring::RingPort;
use std::alloc::Global;
use std::process::Abort;
use std::test::Fail;

const COMPLETES: Flags = Flags {
    completion: true,
    level: Level::Transmit,
    fence: false,
};

/// Sends so many bytes to peer 0. A refusal is told with the length of the buffer that it hands back.
fn send<E: Messages>(
    alloc: Global,
    endpoint: &mut E,
    len: u64,
    ctx: u64,
) -> Result<(), (Fault, usize)>
    ensures { Stays (E.seen endpoint.old) (E.seen endpoint.new) }
{
    let Ok(message) = Buf::zeros(alloc, len) else {
        return Err((Fault::NoMemory, 0));
    };
    match endpoint.send(0, message, None, ctx, COMPLETES) {
        Ok(()) => Ok(()),
        Err(refused) => Err((refused.why, refused.buf.as_slice().len())),
    }
}

/// Whether progress takes and posts so many frames, and ends so.
fn moves<E: Progress>(endpoint: &mut E, budget: u32, taken: u32, posted: u32, stop: Stop) -> bool
    ensures { Stays (E.seen endpoint.old) (E.seen endpoint.new) }
{
    let moved = Moved {
        taken,
        posted,
        stop,
    };
    endpoint.progress(budget) == Ok(moved)
}

fn sent_of(entry: Entry) -> Option<u64> {
    match entry {
        Entry::Sent { ctx, .. } => Some(ctx),
        _ => None,
    }
}

/// The context of the next completion, if it is that of a message that was sent.
fn sent<E: Progress>(endpoint: &mut E) -> Option<u64> {
    sent_of(endpoint.cq_pop().ok()?)
}

/// A message of two frames takes the one operation and the one place of the lane, so the next one waits until peer 0
/// has taken a frame. Then its push posts the second frame, and the one byte is accepted.
#[tactic(auto, using(crate::proofs::Staying::stays_thrice))]
fn fills<E: Messages + Progress>(alloc: Global, zero: &mut E, one: &mut E) -> bool
    ensures zero { Stays (E.seen zero.old) (E.seen zero.new) }
    ensures one { Stays (E.seen one.old) (E.seen one.new) }
{
    let large = send(alloc, one, 5000, 1) == Ok(());
    let full = send(alloc, one, 1, 2) == Err((Fault::Again(Busy::TxFull(1)), 1));
    let taken = moves(zero, 1, 1, 0, Stop::Budget);
    let room = send(alloc, one, 1, 2) == Ok(());
    large && full && taken && room
}

/// Peer 0 takes the frame that was on its way, and the one byte goes out.
fn goes_out<E: Progress>(zero: &mut E, one: &mut E) -> bool {
    let first = sent(one) == Some(1);
    let rest = moves(zero, 8, 1, 0, Stop::Idle);
    let byte = moves(one, 8, 0, 1, Stop::Idle);
    first && rest && byte && sent(one) == Some(2)
}

/// The tag of the next frame of a peer, with how many bytes it has.
fn next<P: Port>(port: &mut P, src: u32) -> Option<(u64, usize)>
    requires { src < P.peer_count port.old }
    ensures same { IsSame P.Port port.old port.new }
    ensures outs { P.outs port.new ≡ P.outs port.old }
    ensures ins { (s : ℕ) → HasTakenAs (P.ins port.old s) (P.ins port.new s) }
{
    match port.front(src) {
        Some(frame) => Some((frame.head.item.tag, frame.bytes.len())),
        None => None,
    }
}

/// Both endpoints over plain ports that theirs are gathered into, and what is the next frame of peer 1 for peer 0 then.
/// Where memory lacks it is no use to go on: an endpoint that gave its port up is not let go without another.
fn crossed<C: Machine, R: Abort>(
    rt: &R,
    alloc: Global,
    zero: Endpoint<RingPort, C>,
    one: Endpoint<RingPort, C>,
) -> (
    Endpoint<PlainPort, C>,
    Endpoint<PlainPort, C>,
    Option<(u64, usize)>,
)
    requires zero { (number_of zero.port ≡ 0) × (peers_of zero.port ≡ 2) }
    requires one { (number_of one.port ≡ 1) × (table_of one.port ≡ table_of zero.port) }
{
    let (zero, zero_port) = zero.unseat();
    let (one, one_port) = one.unseat();
    let Ok((mut zero_plain, one_plain)) = pair_gathered(alloc, zero_port, one_port) else {
        panic!(rt; "no memory for plain ports");
    };
    let came = next(&mut zero_plain, 1);
    (zero.reseat(zero_plain), one.reseat(one_plain), came)
}

/// Whether 904 bytes are on their way when the ports are gathered, and the byte behind them goes out after that.
fn gives_back<C: Machine + Drop, R: Abort>(
    rt: &R,
    alloc: Global,
    mut zero: Endpoint<RingPort, C>,
    mut one: Endpoint<RingPort, C>,
) -> bool
    requires zero { (number_of zero.port ≡ 0) × (peers_of zero.port ≡ 2) }
    requires one { (number_of one.port ≡ 1) × (table_of one.port ≡ table_of zero.port) }
{
    let filled = fills(alloc, &mut zero, &mut one);
    let (mut zero, mut one, came) = crossed(rt, alloc, zero, one);
    filled && came == Some((0, 904)) && goes_out(&mut zero, &mut one)
}

/// All that is on offer, for two peers with one operation each.
fn granted() -> Option<Info> {
    let hints = Hints {
        caps: Caps::none(),
        peers: Some(2),
        lane: Some(1),
        pool: Some(1),
        tx: Some(1),
        rx: None,
        cq: Some(8),
        log: None,
        inject: None,
        message: None,
    };
    getinfo(Api::One, Some(&hints)).ok()
}

/// The endpoint over this port.
fn open_over(alloc: Global, port: RingPort, info: &Info) -> Option<Endpoint<RingPort, BinMachine>>
    requires peers { peers_of port ≡ 2 }
    requires fresh { IsFresh port }
    ensures { IfSome result (λ e. e.port ≡ port) }
{
    let av = Av::all(alloc, 2).ok()?;
    match open(alloc, port, av, info, false) {
        Ok(endpoint) => Some(endpoint),
        Err(_back) => None,
    }
}

/// The same between two new endpoints over lanes of one frame.
fn new_gives_back<R: Abort>(rt: &R, alloc: Global) -> bool {
    let Some(info) = granted() else {
        return false;
    };
    let Ok((zero, one)) = two_ports(alloc, 1, 1) else {
        return false;
    };
    let Some(zero) = open_over(alloc, zero, &info) else {
        return false;
    };
    let Some(one) = open_over(alloc, one, &info) else {
        return false;
    };
    gives_back(rt, alloc, zero, one)
}

#[test]
fn endpoints_go_on_over_gathered_ports(rt: HostRuntime) -> Result<(), Fail> {
    assert!(rt; new_gives_back(&rt, rt.alloc()));
    Ok(())
}
