//! What is asked for and granted, and domains: fi_getinfo_test, fi_dom_test.
use fabric::{Api, Calls, Cap, EndpointOver, Fault, Hints, Info};
use fabtests_calls::{Verdict, check};

/// What is granted to whoever has no wish.
fn is_default(info: Info) -> bool {
    info.peers == 32
        && info.lane == 64
        && info.pool == 32
        && info.tx == 64
        && info.rx == 256
        && info.cq == 1024
        && info.inject == 4096
        && info.message == 16_777_216
}

/// Whether no wish is granted so.
fn grants_default() -> bool {
    match Hints::new().granted() {
        Ok(info) => is_default(info),
        Err(_) => false,
    }
}

fn is_wished(info: Info) -> bool {
    info.peers == 3
        && info.lane == 8
        && info.pool == 4
        && info.tx == 5
        && info.rx == 6
        && info.cq == 7
}

/// Whether sizes are granted as they are asked for.
fn grants_wishes() -> bool {
    let hints = Hints::new().peers(3).lane(8).pool(4);
    match hints.tx(5).rx(6).cq(7).granted() {
        Ok(info) => is_wished(info),
        Err(_) => false,
    }
}

/// Whether these are granted with a capability and without another one.
fn grants(hints: Hints, with: Cap, without: Cap) -> bool {
    match hints.granted() {
        Ok(info) => info.caps.has(with) && !info.caps.has(without),
        Err(_) => false,
    }
}

/// Whether these cannot be had.
fn refuses(hints: Hints) -> bool {
    match hints.granted() {
        Ok(_) => false,
        Err(why) => why == Fault::NoData,
    }
}

/// What is asked for is granted, or all of it is refused.
pub fn getinfo_test() -> Verdict {
    let none = Hints::new();
    check(grants_default(), "no wish is granted the default sizes")?;
    check(grants_wishes(), "sizes are granted as they are asked for")?;
    check(
        grants(none, Cap::DirectedRecv, Cap::RmaEvent),
        "no wish is granted all on offer",
    )?;
    check(
        grants(none.cap(Cap::Tagged), Cap::Send, Cap::Msg),
        "a capability is granted alone",
    )?;
    check(
        grants(none.cap(Cap::Tagged), Cap::Recv, Cap::DirectedRecv),
        "with its modifiers, and without directed receives",
    )?;
    check(refuses(none.peers(33)), "too many peers are refused")?;
    check(refuses(none.cq(65_537)), "too many completions are refused")?;
    check(
        refuses(none.cap(Cap::RmaEvent)),
        "what another version offers is refused",
    )?;
    let second = none.api(Api::Two);
    check(
        grants(second.cap(Cap::RmaEvent), Cap::RmaEvent, Cap::Tagged),
        "the second version offers remote events",
    )?;
    check(
        second.peers(64).granted().is_ok(),
        "the second version has more peers",
    )?;
    check(refuses(second.peers(65)), "but no more than 64")
}

/// A domain has an endpoint for each peer, in order, that knows its number, how many there are, and where it stands itself.
pub fn dom_test<E: Calls + Drop>(endpoints: &[EndpointOver<E>], peers: u32) -> Verdict {
    let mut known = true;
    let mut number = 0;
    for endpoint in endpoints {
        known = known && knows(endpoint, number, peers);
        number = number.saturating_add(1);
    }
    check(number == peers, "there is an endpoint for each peer")?;
    check(
        known,
        "each knows its number, the number of peers and its address",
    )
}

fn knows<E: Calls + Drop>(endpoint: &EndpointOver<E>, number: u32, peers: u32) -> bool {
    endpoint.me() == number
        && endpoint.peers() == peers
        && endpoint.index_of(number) == Some(number)
        && endpoint.is_directed()
}
