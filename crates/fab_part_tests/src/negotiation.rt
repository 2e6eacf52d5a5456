//! What is granted, as values. Those of the capabilities are written by hand from the order of printing.
use fab_base::Cap::{
    Atomic, DirectedRecv, Fence, LocalComm, Msg, MultiRecv, Read, Recv, RemoteRead, RemoteWrite,
    Rma, RmaEvent, Send, Source, Tagged, Write,
};
use fab_base::{Api, Cap, Caps, Fault, Hints, Info};
use fab_info::getinfo;
use std::test::Fail;

/// Hints with these capabilities and no wish.
fn hints(caps: &[Cap]) -> Hints {
    let mut asked = Caps::none();
    for cap in caps {
        asked = asked.with(*cap);
    }
    Hints {
        caps: asked,
        peers: None,
        lane: None,
        pool: None,
        tx: None,
        rx: None,
        cq: None,
        log: None,
        inject: None,
        message: None,
    }
}

/// Hints with one wish: the size is named by its place in `Hints`.
fn wish(place: usize, wanted: u32) -> Hints {
    let mut hints = hints(&[]);
    let wanted = Some(wanted);
    match place {
        0 => hints.peers = wanted,
        1 => hints.lane = wanted,
        2 => hints.pool = wanted,
        3 => hints.tx = wanted,
        4 => hints.rx = wanted,
        5 => hints.cq = wanted,
        6 => hints.log = wanted,
        7 => hints.inject = wanted,
        _ => hints.message = wanted,
    }
    hints
}

/// The numbers granted, in the order of `Info`.
fn numbers(info: &Info) -> [u32; 9] {
    [
        info.peers,
        info.lane,
        info.pool,
        info.tx,
        info.rx,
        info.cq,
        info.log,
        info.inject,
        info.message,
    ]
}

const BOTH: [Api; 2] = [Api::One, Api::Two];

/// What is granted without a wish: 32 peers, lanes of 64, pools of 32, and so on.
fn defaults(api: Api) -> [u32; 9] {
    let message = match api {
        Api::One => 16_777_216,
        Api::Two => 268_435_456,
    };
    [32, 64, 32, 64, 256, 1_024, 4_096, 4_096, message]
}

/// What everyone is granted, whatever they ask for.
fn everyones(api: Api) -> &'static [Cap] {
    match api {
        Api::One => &[MultiRecv, Source, Fence, LocalComm],
        Api::Two => &[MultiRecv, Source, RmaEvent, Fence, LocalComm],
    }
}

/// What is granted to those who ask for nothing, but for what everyone is granted.
const OFFER: [Cap; 11] = [
    Msg,
    Tagged,
    Rma,
    Atomic,
    DirectedRecv,
    Send,
    Recv,
    Read,
    Write,
    RemoteRead,
    RemoteWrite,
];

/// What is asked for, and what is granted but for what everyone is granted. A modifier that modifies nothing is granted by
/// itself, and a secondary capability adds nothing.
const GRANTS: [(&[Cap], &[Cap]); 10] = [
    (&[], &OFFER),
    (&[Tagged, Send], &[Tagged, Send]),
    (&[Tagged], &[Tagged, Send, Recv]),
    (&[Msg, Recv], &[Msg, Recv]),
    (&[Rma], &[Rma, Read, Write, RemoteRead, RemoteWrite]),
    (
        &[Msg, Atomic, RemoteRead],
        &[Msg, Atomic, Send, Recv, RemoteRead],
    ),
    (&[Send], &[Send]),
    (&[DirectedRecv], &[DirectedRecv]),
    (&[Source], &[]),
    (&[Fence], &[]),
];

/// Whether these capabilities and those of everyone are granted, and the sizes that are granted without a wish.
fn has_defaults(api: Api, info: &Info, caps: &[Cap]) -> bool {
    let mut want = hints(caps).caps;
    for cap in everyones(api) {
        want = want.with(*cap);
    }
    info.api == api && info.caps == want && numbers(info) == defaults(api)
}

/// What these hints are granted.
fn granted(api: Api, hints: &Hints) -> Option<Info> {
    match getinfo(api, Some(hints)) {
        Ok(info) => Some(info),
        Err(_) => None,
    }
}

/// Whether these hints are refused.
fn is_refused(api: Api, hints: &Hints) -> bool {
    match getinfo(api, Some(hints)) {
        Err(Fault::NoData) => true,
        _ => false,
    }
}

/// Whether who asks for these capabilities is granted those.
fn grants(api: Api, asked: &[Cap], want: &[Cap]) -> bool {
    match granted(api, &hints(asked)) {
        Some(info) => has_defaults(api, &info, want),
        None => false,
    }
}

#[test]
fn grants_capabilities(rt: HostRuntime) -> Result<(), Fail> {
    for (row, (asked, want)) in GRANTS.iter().enumerate() {
        for api in BOTH {
            assert!(rt; grants(api, asked, want), "row {row}");
        }
    }
    Ok(())
}

/// Whether who gives no hints is granted the whole offer.
fn grants_all(api: Api) -> bool {
    match getinfo(api, None) {
        Ok(info) => has_defaults(api, &info, &OFFER),
        Err(_) => false,
    }
}

#[test]
fn all_is_granted_where_nothing_is_asked_for(rt: HostRuntime) {
    for api in BOTH {
        assert!(rt; grants_all(api));
    }
}

#[test]
fn the_second_version_alone_has_remote_events(rt: HostRuntime) {
    assert!(rt; is_refused(Api::One, &hints(&[RmaEvent])));
    assert!(rt; is_refused(Api::One, &hints(&[Rma, RmaEvent])));
    assert!(rt; grants(Api::Two, &[RmaEvent], &[]));
    assert!(rt; grants(Api::Two, &[Atomic, Write, RmaEvent], &[Atomic, Write]));
}

/// Place, a wish, and what is granted for it: the least, the greatest, and none for 0.
const GRANTED: [(usize, u32, u32); 19] = [
    (0, 1, 1),
    (0, 32, 32),
    (0, 0, 32),
    (1, 1, 1),
    (1, 1_024, 1_024),
    (1, 0, 64),
    (2, 1, 1),
    (2, 1_024, 1_024),
    (3, 1, 1),
    (3, 1_024, 1_024),
    (4, 1, 1),
    (4, 4_096, 4_096),
    (5, 2, 2),
    (5, 65_536, 65_536),
    (5, 0, 1_024),
    (6, 4, 4),
    (6, 65_536, 65_536),
    (7, 1, 4_096),
    (7, 4_096, 4_096),
];

/// The same of one version: how many peers, and how many bytes a message may have.
const GRANTED_BY: [(Api, usize, u32, u32); 7] = [
    (Api::One, 8, 1, 16_777_216),
    (Api::One, 8, 16_777_216, 16_777_216),
    (Api::Two, 0, 33, 33),
    (Api::Two, 0, 64, 64),
    (Api::Two, 8, 1, 268_435_456),
    (Api::Two, 8, 16_777_217, 268_435_456),
    (Api::Two, 8, 268_435_456, 268_435_456),
];

/// Place, and a wish that is refused.
const REFUSED: [(usize, u32); 9] = [
    (1, 1_025),
    (2, 1_025),
    (3, 1_025),
    (4, 4_097),
    (5, 65_537),
    (5, 1),
    (6, 65_537),
    (6, 3),
    (7, 4_097),
];

/// The same of one version.
const REFUSED_BY: [(Api, usize, u32); 4] = [
    (Api::One, 0, 33),
    (Api::One, 8, 16_777_217),
    (Api::Two, 0, 65),
    (Api::Two, 8, 268_435_457),
];

/// What is granted where the size at this place is this one, and no other is wished for.
fn all_but(api: Api, place: usize, granted: u32) -> [u32; 9] {
    let mut all = defaults(api);
    for (k, number) in all.iter_mut().enumerate() {
        if k == place {
            *number = granted;
        }
    }
    all
}

/// Whether the wish is granted so, and no other size changes.
fn grants_wish(api: Api, place: usize, wanted: u32, size: u32) -> bool {
    match granted(api, &wish(place, wanted)) {
        Some(info) => numbers(&info) == all_but(api, place, size),
        None => false,
    }
}

#[test]
fn grants_wishes(rt: HostRuntime) -> Result<(), Fail> {
    for (place, wanted, size) in GRANTED {
        for api in BOTH {
            assert!(rt; grants_wish(api, place, wanted, size), "{place} {wanted}");
        }
    }
    for (api, place, wanted, size) in GRANTED_BY {
        assert!(rt; grants_wish(api, place, wanted, size), "{place} {wanted}");
    }
    Ok(())
}

#[test]
fn refuses_wishes(rt: HostRuntime) {
    for (place, wanted) in REFUSED {
        for api in BOTH {
            assert!(rt; is_refused(api, &wish(place, wanted)), "{place} {wanted}");
        }
    }
    for (api, place, wanted) in REFUSED_BY {
        assert!(rt; is_refused(api, &wish(place, wanted)), "{place} {wanted}");
    }
}
