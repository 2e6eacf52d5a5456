//! The text of reports. (That of a whole run is in `examples/`, each beside its script.)
use fab_base::{
    Buf, Busy, Entry, ErrEntry, ErrKind, Fault, Kept, Line, LineOp, LineResult, NoMemory, PeekHow,
    Step, Taken,
};
use fab_kept::KeptList;
use fab_report::{add_last, add_peer};
use std::alloc::Global;
use std::test::Fail;

/// The part of a peer that stands at a line, with replies outstanding, two operations deferred, and every kind of step.
fn add_stuck(text: &mut String, alloc: Global) -> Result<(), NoMemory> {
    let lines = [
        Line {
            number: 12,
            op: LineOp::Cancel { ctx: 1 },
        },
        Line {
            number: 13,
            op: LineOp::Wait { ctx: None },
        },
    ];
    let results = [LineResult::Refused(Fault::NoEntry)];
    let steps = [
        Step::Do,
        Step::Head(10),
        Step::Tail(10),
        Step::Sent(31),
        Step::Draw,
        Step::Read,
        Step::Final,
    ];
    let left = KeptList::new(alloc);
    add_peer(text, 3, &lines, &results, &left, 21, 2, &steps)
}

const STUCK: &str = "peer 3\n\
    12 cancel refused FI_ENOENT\n\
    stuck at 13\n\
    pending 21\n\
    deferred 2\n\
    trace D H10 T10 S31 M R X\n\
    end stuck\n";

fn stuck_has_its_text(alloc: Global) -> bool {
    let mut text = String::new(alloc);
    add_stuck(&mut text, alloc).is_ok()
        && add_last(&mut text, false).is_ok()
        && text.as_str() == STUCK
}

#[test]
fn a_stuck_peer_is_reported(rt: HostRuntime) -> Result<(), Fail> {
    assert!(rt; stuck_has_its_text(rt.alloc()));
    Ok(())
}

/// Whether the text is made of these three.
fn is_made_of(text: &str, front: &str, words: &str, back: &str) -> bool {
    match text.split_once(words) {
        Some((before, behind)) => before == front && behind == back,
        None => false,
    }
}

/// The part of a peer that has one entry left.
fn add_one_left(text: &mut String, alloc: Global, kept: Kept) -> Result<(), NoMemory> {
    let mut left = KeptList::new(alloc);
    left.push(kept)?;
    add_peer(text, 0, &[], &[], &left, 0, 0, &[])
}

/// Whether an entry that is left is told in these words.
fn is_left(alloc: Global, kept: Kept, words: &str) -> bool {
    let mut text = String::new(alloc);
    add_one_left(&mut text, alloc, kept).is_ok()
        && is_made_of(text.as_str(), "peer 0\nleft", words, "\ntrace\n")
}

/// Whether the completion of a success is told in these words.
fn tells(alloc: Global, entry: Option<Entry>, words: &str) -> bool {
    match entry {
        Some(entry) => {
            let entry = Taken::Success(entry);
            is_left(alloc, Kept { entry, bytes: None }, words)
        }
        None => false,
    }
}

/// A buffer of two bytes.
fn two(alloc: Global) -> Option<Buf> {
    Buf::copy(alloc, b"ab").ok()
}

fn sent(alloc: Global) -> Option<Entry> {
    let buf = two(alloc)?;
    Some(Entry::Sent {
        ctx: 1,
        tagged: false,
        buf,
    })
}

fn received(alloc: Global) -> Option<Entry> {
    let buf = two(alloc)?;
    Some(Entry::Received {
        ctx: 2,
        source: 3,
        tag: None,
        imm: Some(4),
        len: 1,
        buf,
    })
}

fn peeked(how: PeekHow) -> Option<Entry> {
    Some(Entry::Peeked {
        ctx: 3,
        how,
        source: 1,
        tag: 7,
        imm: Some(8),
        len: 9,
    })
}

#[test]
fn messages_have_their_text(rt: HostRuntime) -> Result<(), Fail> {
    let alloc = rt.alloc();
    assert!(rt; tells(alloc, sent(alloc), " 1 FI_SEND"));
    assert!(rt;
        tells(
            alloc,
            received(alloc),
            " 2 FI_RECV from 3 data 4 len 1 bytes 61"
        )
    );
    let words = " 3 FI_TAGGED FI_RECV FI_PEEK from 1 tag 7 data 8 len 9";
    assert!(rt; tells(alloc, peeked(PeekHow::Peek), words));
    let words = " 3 FI_TAGGED FI_RECV FI_CLAIM from 1 tag 7 data 8 len 9";
    assert!(rt; tells(alloc, peeked(PeekHow::Claim), words));
    let words = " 3 FI_TAGGED FI_RECV FI_DISCARD from 1 tag 7 data 8 len 9";
    assert!(rt; tells(alloc, peeked(PeekHow::Discard), words));
    Ok(())
}

fn part(imm: Option<u64>) -> Entry {
    Entry::Part {
        ctx: 2,
        source: 3,
        imm,
        at: 5,
        len: 2,
    }
}

/// Whether a part of a buffer for many messages, with its bytes, is told in these words.
fn tells_part(alloc: Global, words: &str) -> bool {
    let Some(bytes) = two(alloc) else {
        return false;
    };
    let kept = Kept {
        entry: Taken::Success(part(Some(4))),
        bytes: Some(bytes),
    };
    is_left(alloc, kept, words)
}

fn released(alloc: Global) -> Option<Entry> {
    let buf = two(alloc)?;
    Some(Entry::Released {
        ctx: 2,
        used: 5,
        buf,
    })
}

#[test]
fn parts_have_their_text(rt: HostRuntime) -> Result<(), Fail> {
    let alloc = rt.alloc();
    assert!(rt; tells_part(alloc, " 2 FI_RECV from 3 data 4 at 5 len 2 bytes 6162"));
    assert!(rt;
        tells(
            alloc,
            Some(part(None)),
            " 2 FI_RECV from 3 at 5 len 2 bytes -"
        )
    );
    assert!(rt; tells(alloc, released(alloc), " 2 FI_MULTI_RECV used 5"));
    Ok(())
}

fn read(alloc: Global) -> Option<Entry> {
    let buf = two(alloc)?;
    Some(Entry::Read { ctx: 4, buf })
}

fn wrote(alloc: Global) -> Option<Entry> {
    let buf = two(alloc)?;
    Some(Entry::Wrote { ctx: 5, buf })
}

fn fetched(alloc: Global) -> Option<Entry> {
    let result = two(alloc)?;
    Some(Entry::Fetched { ctx: 7, result })
}

#[test]
fn requests_have_their_text(rt: HostRuntime) -> Result<(), Fail> {
    let alloc = rt.alloc();
    assert!(rt; tells(alloc, read(alloc), " 4 FI_READ len 2 bytes 6162"));
    assert!(rt; tells(alloc, wrote(alloc), " 5 FI_WRITE"));
    let updated = Some(Entry::Updated { ctx: 6 });
    assert!(rt; tells(alloc, updated, " 6 FI_ATOMIC FI_WRITE"));
    assert!(rt;
        tells(
            alloc,
            fetched(alloc),
            " 7 FI_ATOMIC FI_READ len 2 bytes 6162"
        )
    );
    let remote = Some(Entry::RemoteData { source: 8, imm: 9 });
    let words = " * FI_RMA FI_REMOTE_WRITE FI_REMOTE_CQ_DATA from 8 data 9";
    assert!(rt; tells(alloc, remote, words));
    Ok(())
}

/// A message that is cut.
fn cut(at: Option<u32>, tag: Option<u64>, buf: Option<Buf>) -> ErrEntry {
    ErrEntry {
        ctx: Some(1),
        kind: ErrKind::Truncated,
        source: Some(2),
        tag,
        imm: Some(9),
        at,
        len: 2,
        olen: 6,
        buf,
    }
}

/// A buffer of three bytes, of which the message has two.
fn three(alloc: Global) -> Option<Buf> {
    Buf::copy(alloc, &[0xab, 0x0f, 0xff]).ok()
}

/// Whether a message that is cut, with its buffer, is told in these words.
fn tells_cut(alloc: Global, words: &str) -> bool {
    let entry = Taken::Failure(cut(None, Some(7), three(alloc)));
    is_left(alloc, Kept { entry, bytes: None }, words)
}

/// The same of a part of a buffer for many messages, with its bytes.
fn tells_cut_part(alloc: Global, words: &str) -> bool {
    let bytes = three(alloc);
    let entry = Taken::Failure(cut(Some(4), None, None));
    is_left(alloc, Kept { entry, bytes }, words)
}

#[test]
fn truncations_have_their_text(rt: HostRuntime) -> Result<(), Fail> {
    let alloc = rt.alloc();
    let words = " 1 error FI_ETRUNC from 2 tag 7 data 9 len 2 olen 6 bytes ab0f";
    assert!(rt; tells_cut(alloc, words));
    let words = " 1 error FI_ETRUNC from 2 data 9 at 4 len 2 olen 6 bytes ab0fff";
    assert!(rt; tells_cut_part(alloc, words));
    Ok(())
}

/// The entry of a failure that has no bytes.
fn failure(ctx: Option<u64>, kind: ErrKind) -> Kept {
    Kept {
        entry: Taken::Failure(ErrEntry {
            ctx,
            kind,
            source: None,
            tag: None,
            imm: None,
            at: None,
            len: 0,
            olen: 0,
            buf: None,
        }),
        bytes: None,
    }
}

const FAILURES: [(Option<u64>, ErrKind, &str); 5] = [
    (Some(1), ErrKind::NoMsg, " 1 error FI_ENOMSG"),
    (Some(1), ErrKind::Canceled, " 1 error FI_ECANCELED"),
    (None, ErrKind::NoKey, " * error FI_ENOKEY"),
    (Some(1), ErrKind::Access, " 1 error FI_EACCES"),
    (Some(1), ErrKind::Range, " 1 error RANGE"),
];

#[test]
fn failures_have_their_text(rt: HostRuntime) {
    for (ctx, kind, words) in FAILURES {
        assert!(rt; is_left(rt.alloc(), failure(ctx, kind), words), "{words}");
    }
}

/// The part of a peer whose one line, a `wait`, did this.
fn add_done(text: &mut String, alloc: Global, outcome: LineResult) -> Result<(), NoMemory> {
    let wait = Line {
        number: 4,
        op: LineOp::Wait { ctx: None },
    };
    let left = KeptList::new(alloc);
    add_peer(text, 0, &[wait], &[outcome], &left, 0, 0, &[])
}

/// Whether what a `wait` did is told in these words.
fn is_done(alloc: Global, outcome: LineResult, words: &str) -> bool {
    let mut text = String::new(alloc);
    add_done(&mut text, alloc, outcome).is_ok()
        && is_made_of(text.as_str(), "peer 0\n4 wait", words, "\ntrace\n")
}

/// Whether these bytes, shown by a line, are told in these words.
fn shows(alloc: Global, bytes: &[u8], words: &str) -> bool {
    match Buf::copy(alloc, bytes) {
        Ok(bytes) => is_done(alloc, LineResult::Bytes(bytes), words),
        Err(_) => false,
    }
}

#[test]
fn results_have_their_text(rt: HostRuntime) -> Result<(), Fail> {
    let alloc = rt.alloc();
    assert!(rt; is_done(alloc, LineResult::Done, " ok"));
    let waited = LineResult::Waited(failure(Some(1), ErrKind::NoMsg));
    assert!(rt; is_done(alloc, waited, " 1 error FI_ENOMSG"));
    assert!(rt; is_done(alloc, LineResult::Index(None), " FI_ADDR_NOTAVAIL"));
    assert!(rt; is_done(alloc, LineResult::Index(Some(2)), " index 2"));
    let count = LineResult::Count {
        ok: u64::MAX,
        err: 1,
    };
    assert!(rt; is_done(alloc, count, " ok 18446744073709551615 err 1"));
    assert!(rt; shows(alloc, &[0, 0x0a], " 000a"));
    assert!(rt; shows(alloc, &[], " -"));
    Ok(())
}

const REFUSALS: [(Fault, &str); 10] = [
    (Fault::Again(Busy::TxFull(1)), " refused FI_EAGAIN"),
    (Fault::NoMemory, " refused FI_ENOMEM"),
    (Fault::NoData, " refused FI_ENODATA"),
    (Fault::Invalid, " refused FI_EINVAL"),
    (Fault::NoKey, " refused FI_ENOKEY"),
    (Fault::Range, " refused RANGE"),
    (Fault::MsgSize, " refused FI_EMSGSIZE"),
    (Fault::NotSupported, " refused FI_EOPNOTSUPP"),
    (Fault::NoEntry, " refused FI_ENOENT"),
    (Fault::Avail, " refused FI_EAVAIL"),
];

#[test]
fn refusals_have_their_text(rt: HostRuntime) {
    for (fault, words) in REFUSALS {
        assert!(rt;
            is_done(rt.alloc(), LineResult::Refused(fault), words),
            "{words}"
        );
    }
}
