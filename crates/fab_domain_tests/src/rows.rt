//! Calls one at a time, between endpoints whose lanes, operations and completion queues are short.
use crate::calls::{
    Calls, Came, adds, asks, brings, cancels, carries, clears, closes_not, count_sent, cut, fences,
    fetches, has, injects, looks, missed, moves, next_came, pops_not, puts, reads, receives,
    refuses, registers, send, sent, served, treceives, tsend, under_way, writes, wrote,
};
use fab_base::{Api, Busy, Fault};
use fab_face::events::Stop;
use std::alloc::Global;

/// How many frames a lane holds, and how many operations, completions and events an endpoint.
#[derive(Clone, Copy, Drop)]
pub struct Sizes {
    pub lane: u32,
    pub tx: u32,
    pub cq: u32,
    pub log: Option<u32>,
}

/// What is tested between two new endpoints.
#[derive(Clone, Copy, Drop)]
pub enum Row {
    UnderWay,
    AllFull,
    QueueFull,
    LogFull,
    CountedOut,
    Directed,
    Served,
    Longest,
    Fenced,
    Unmatched,
    Crossed,
    Greatest,
    Counted,
    Uncounted,
}

impl Row {
    /// The sizes with which the endpoints are opened.
    pub fn sizes(self) -> Sizes {
        let (lane, tx, cq) = match self {
            Row::UnderWay => (1, 4, 8),
            Row::AllFull => (1, 1, 8),
            Row::QueueFull => (1, 1, 2),
            Row::LogFull | Row::CountedOut => (4, 4, 8),
            Row::Directed | Row::Served => (4, 4, 8),
            Row::Longest => (64, 64, 1024),
            Row::Fenced => (4, 2, 8),
            Row::Unmatched | Row::Crossed => (4, 4, 8),
            Row::Greatest => (64, 2, 8),
            Row::Counted | Row::Uncounted => (4, 4, 8),
        };
        let log = match self {
            Row::LogFull => Some(4),
            _ => None,
        };
        Sizes { lane, tx, cq, log }
    }

    /// The version that the endpoints are opened for: the second for remote events and for its greatest message.
    pub fn api(self) -> Api {
        match self {
            Row::Counted | Row::Greatest => Api::Two,
            _ => Api::One,
        }
    }

    /// Whether all calls answer as they should.
    pub fn holds<E: Calls>(self, alloc: Global, zero: &mut E, one: &mut E) -> bool {
        match self {
            Row::UnderWay => completes_whole(alloc, zero, one),
            Row::AllFull => goes_on(alloc, zero, one),
            Row::QueueFull => waits_for_room(zero),
            Row::LogFull => waits_for_log(zero),
            Row::CountedOut => counts_no_further(alloc, zero),
            Row::Directed => takes_from(alloc, zero, one),
            Row::Served => serves(alloc, zero, one),
            Row::Longest => refuses_longer(alloc, one),
            Row::Fenced => holds_back(alloc, zero, one),
            Row::Unmatched => waits_for_match(alloc, zero, one),
            Row::Crossed => crosses(alloc, zero, one),
            Row::Greatest => cuts_greatest(alloc, zero, one),
            Row::Counted => counts_served(alloc, zero, one),
            Row::Uncounted => counts_none(alloc, zero, one),
        }
    }
}

/// A receive that is matched is not cancelled, and completes with the last frame of its message.
fn completes_whole<E: Calls>(alloc: Global, zero: &mut E, one: &mut E) -> bool {
    let posted = receives(alloc, zero, None, 8000, 1);
    let went = send(alloc, one, 5000, 2) == Ok(());
    let first = moves(zero, 8, 1, 0, Stop::Idle);
    let waits = cancels(zero, 1) == Err(Fault::NoEntry);
    let second = moves(one, 8, 0, 1, Stop::Idle);
    let came = Came {
        ctx: 1,
        source: 1,
        len: 5000,
    };
    let whole = next_came(zero) == Some(came);
    posted && went && first && waits && second && whole
}

/// Where the one operation is under way, a message is refused with its buffer, until the lane has room: the push of
/// the next call posts the rest.
fn goes_on<E: Calls>(alloc: Global, zero: &mut E, one: &mut E) -> bool {
    let large = send(alloc, one, 5000, 1) == Ok(());
    let full = send(alloc, one, 1, 2) == Err((Fault::Again(Busy::TxFull(1)), 1));
    let taken = moves(zero, 1, 1, 0, Stop::Budget);
    let room = send(alloc, one, 1, 2) == Ok(());
    let done = sent(one) == Some(1);
    let rest = moves(zero, 8, 1, 0, Stop::Idle);
    let small = moves(one, 8, 0, 1, Stop::Idle);
    let posted = receives(alloc, zero, None, 5000, 3);
    let came = Came {
        ctx: 3,
        source: 1,
        len: 5000,
    };
    let whole = next_came(zero) == Some(came);
    large && full && taken && room && done && rest && small && posted && whole
}

/// Two looks fill the completion queue; the third waits until an error is read.
fn waits_for_room<E: Calls>(zero: &mut E) -> bool {
    let one = looks(zero, 5, 1) == Ok(());
    let two = looks(zero, 5, 2) == Ok(());
    let third = looks(zero, 5, 3) == Err(Fault::Again(Busy::CqFull(2)));
    let pops = pops_not(zero) == Some(Fault::Avail);
    let first = missed(zero) == Some(1);
    let again = looks(zero, 5, 3) == Ok(());
    let rest = missed(zero) == Some(2) && missed(zero) == Some(3);
    one && two && third && pops && first && again && rest
}

/// Three looks leave one place in the log; the fourth waits until the log is emptied.
fn waits_for_log<E: Calls>(zero: &mut E) -> bool {
    let first = looks(zero, 5, 1) == Ok(()) && looks(zero, 5, 2) == Ok(());
    let third = looks(zero, 5, 3) == Ok(());
    let full = looks(zero, 5, 4) == Err(Fault::Again(Busy::LogFull(4)));
    clears(zero);
    let fourth = looks(zero, 5, 4) == Ok(());
    first && third && full && fourth
}

/// A counter stays at its end where a message is sent.
fn counts_no_further<E: Calls>(alloc: Global, zero: &mut E) -> bool {
    adds(zero, u64::MAX);
    let went = send(alloc, zero, 1, 1) == Ok(());
    let done = sent(zero) == Some(1);
    went && done && count_sent(zero) == u64::MAX
}

/// A receive from one peer leaves the message of another where it is.
fn takes_from<E: Calls>(alloc: Global, zero: &mut E, one: &mut E) -> bool {
    let own = send(alloc, zero, 2, 5) == Ok(());
    let other = send(alloc, one, 3, 6) == Ok(());
    let both = moves(zero, 8, 2, 0, Stop::Idle);
    let posted = receives(alloc, zero, Some(1), 4, 1);
    let done = sent(zero) == Some(5);
    let from = next_came(zero)
        == Some(Came {
            ctx: 1,
            source: 1,
            len: 3,
        });
    let rest = receives(alloc, zero, None, 4, 2);
    let left = next_came(zero)
        == Some(Came {
            ctx: 2,
            source: 0,
            len: 2,
        });
    own && other && both && posted && done && from && rest && left
}

/// A region is written by another peer, and read by it.
fn serves<E: Calls>(alloc: Global, zero: &mut E, one: &mut E) -> bool {
    let registered = registers(alloc, one, 9, b"01234567");
    let asked = writes(zero, 9, 2, b"abcd");
    let served = moves(one, 8, 1, 1, Stop::Idle);
    let written = has(one, 9, b"01abcd67");
    let accepted = reads(alloc, zero, 9, 3, 3);
    let answered = moves(one, 8, 1, 1, Stop::Idle);
    let brought = brings(zero, b"bcd");
    let closed = closes_not(one, 9).is_none();
    let gone = closes_not(one, 9) == Some(Fault::NoKey);
    registered && asked && served && written && accepted && answered && brought && closed && gone
}

/// The longest message and the longest that is copied are sent, and none that is longer.
fn refuses_longer<E: Calls>(alloc: Global, one: &mut E) -> bool {
    let longest = send(alloc, one, 16_777_216, 1) == Ok(());
    let longer = refuses(alloc, one, 16_777_217, 2) == Some(Fault::MsgSize);
    let copied = injects(alloc, one, 4096) == Ok(());
    let too_long = injects(alloc, one, 4097) == Err(Fault::MsgSize);
    longest && longer && copied && too_long
}

/// A message with a fence waits behind a read until that is answered. It is one of those under way meanwhile.
fn holds_back<E: Calls>(alloc: Global, zero: &mut E, one: &mut E) -> bool {
    let registered = registers(alloc, one, 9, b"01234567");
    let accepted = reads(alloc, zero, 9, 3, 3);
    let fenced = fences(alloc, zero, 2) == Ok(());
    let held = under_way(zero) == (1, 1);
    let full = fences(alloc, zero, 3) == Err(Fault::Again(Busy::TxFull(2)));
    let answered = moves(one, 8, 1, 1, Stop::Idle);
    let gone_on = moves(zero, 8, 1, 1, Stop::Idle);
    let none = under_way(zero) == (0, 0);
    let brought = brings(zero, b"345");
    let done = sent(zero) == Some(2);
    registered
        && accepted
        && fenced
        && held
        && full
        && answered
        && gone_on
        && none
        && brought
        && done
}

/// A message with a fence waits behind one that asks for its match for as long as no receive matches that one, though a
/// receive for its own tag is posted. Once the match is answered both are done.
fn waits_for_match<E: Calls>(alloc: Global, zero: &mut E, one: &mut E) -> bool {
    let accepted = asks(alloc, zero, 1) == Ok(()) && fences(alloc, zero, 2) == Ok(());
    let taken = moves(one, 8, 1, 0, Stop::Idle);
    let posted = treceives(alloc, one, 5, 1, 3);
    let still = moves(one, 8, 0, 0, Stop::Idle) && moves(zero, 8, 0, 0, Stop::Idle);
    let held = under_way(zero) == (1, 1);
    let none = sent(zero).is_none() && next_came(one).is_none();
    let matched = treceives(alloc, one, 4, 1, 4);
    let answered = moves(one, 8, 0, 1, Stop::Idle);
    let gone_on = moves(zero, 8, 1, 1, Stop::Idle) && moves(one, 8, 1, 0, Stop::Idle);
    let done = sent(zero) == Some(1) && sent(zero) == Some(2);
    accepted
        && taken
        && posted
        && still
        && held
        && none
        && matched
        && answered
        && gone_on
        && done
        && under_way(zero) == (0, 0)
}

/// Two peers write to each other, each with a fence behind a write. Replies go in front of what is held, so both end.
fn crosses<E: Calls>(alloc: Global, zero: &mut E, one: &mut E) -> bool {
    let registered = registers(alloc, zero, 9, b"0") && registers(alloc, one, 9, b"0");
    let first = puts(alloc, zero, 1, 1, false) && puts(alloc, one, 0, 1, false);
    let second = puts(alloc, zero, 1, 2, true) && puts(alloc, one, 0, 2, true);
    let held = under_way(zero) == (1, 1) && under_way(one) == (1, 1);
    let carried = carries(zero, one);
    let zero_done = wrote(zero) == Some(1) && wrote(zero) == Some(2);
    let one_done = wrote(one) == Some(1) && wrote(one) == Some(2);
    registered && first && second && held && carried && zero_done && one_done
}

/// The longest message of the second version is cut where the receive is short, and the next one is sent behind it.
fn cuts_greatest<E: Calls>(alloc: Global, zero: &mut E, one: &mut E) -> bool {
    let posted = treceives(alloc, zero, 3, 4, 1);
    let greatest = tsend(alloc, one, 268_435_456, 2) == Ok(());
    let next = tsend(alloc, one, 4, 3) == Ok(());
    let carried = carries(one, zero);
    let was_cut = cut(zero) == Some((4, 268_435_452));
    let done = sent(one) == Some(2) && sent(one) == Some(3);
    posted && greatest && next && carried && was_cut && done
}

/// A write, a read and a fetch count at the peer whose region they reach, and those that are refused do not.
fn counts_served<E: Calls>(alloc: Global, zero: &mut E, one: &mut E) -> bool {
    let registered = registers(alloc, one, 9, b"01234567");
    let before = served(one) == (0, 0);
    let asked = writes(zero, 9, 2, b"abcd") && reads(alloc, zero, 9, 3, 3);
    let both = moves(one, 8, 2, 2, Stop::Idle);
    let counted = served(one) == (1, 1);
    let beyond = writes(zero, 9, 8, b"a") && writes(zero, 8, 0, b"a");
    let refused = moves(one, 8, 2, 2, Stop::Idle) && served(one) == (1, 1);
    let fetched = moves(zero, 8, 4, 0, Stop::Idle) && fetches(alloc, zero, 9);
    let third = moves(one, 8, 1, 1, Stop::Idle) && served(one) == (1, 2);
    registered && before && asked && both && counted && beyond && refused && fetched && third
}

/// The first version has no remote events: nothing counts.
fn counts_none<E: Calls>(alloc: Global, zero: &mut E, one: &mut E) -> bool {
    let registered = registers(alloc, one, 9, b"01234567");
    let asked = writes(zero, 9, 2, b"abcd") && fetches(alloc, zero, 9);
    let both = moves(one, 8, 2, 2, Stop::Idle);
    registered && asked && both && served(one) == (0, 0)
}
