//! No endpoint is opened with a number outside its limits.
ghost use Rattle.std.specs.Prelude.{◌≡◌};
ghost use Rattle.fab_open_tests.specs.Came.{IsReady};

use crate::opening::{new_port, offered};
use fab_av::Av;
use fab_base::{Fault, Info, Size};
use fab_link::{PlainPort, Port};
use fab_open::{OpenRefused, open};
use std::alloc::Global;
use std::test::Fail;

/// What a refusal says and gives back: the port's number, how many peers the address vector is for, and the index of
/// peer 1 in it.
#[derive(Clone, Copy, Debug, Drop, Eq, PartialEq)]
struct Back {
    why: Fault,
    me: u32,
    peers: u32,
    index: Option<u32>,
}

/// What was granted, with another number for this size.
fn with(mut info: Info, size: Size, number: u32) -> Info {
    match size {
        Size::Peers => info.peers = number,
        Size::Lane => info.lane = number,
        Size::Pool => info.pool = number,
        Size::Tx => info.tx = number,
        Size::Rx => info.rx = number,
        Size::Cq => info.cq = number,
        Size::Log => info.log = number,
        Size::Inject => info.inject = number,
        Size::Message => info.message = number,
    }
    info
}

/// What comes of opening an endpoint.
fn told<E: Drop>(opened: Result<E, OpenRefused<PlainPort>>) -> Result<(), Back> {
    match opened {
        Ok(_endpoint) => Ok(()),
        Err(refused) => Err(Back {
            why: refused.why,
            me: refused.port.me(),
            peers: refused.av.peers(),
            index: refused.av.index_of(1),
        }),
    }
}

/// The same over this port.
fn opened_over(alloc: Global, port: PlainPort, av: Av, info: &Info) -> Result<(), Back>
    requires ready { IsReady 2 port }
    requires peers { av.peers ≡ 2 }
{
    told(open(alloc, port, av, info, false))
}

/// The same for peer 1 of two, with this number for one size; nothing where memory lacks before.
fn opened_with(alloc: Global, size: Size, number: u32) -> Option<Result<(), Back>> {
    let info = with(offered(2)?, size, number);
    let port = new_port(alloc, 1, 2)?;
    let av = Av::all(alloc, 2).ok()?;
    Some(opened_over(alloc, port, av, &info))
}

#[test]
fn a_number_outside_its_limits_is_refused(rt: HostRuntime) -> Result<(), Fail> {
    let back = Some(Err(Back {
        why: Fault::Invalid,
        me: 1,
        peers: 2,
        index: Some(1),
    }));
    for (size, number) in [
        (Size::Peers, 3),
        (Size::Lane, 1_025),
        (Size::Pool, 0),
        (Size::Tx, 1_025),
        (Size::Rx, 4_097),
        (Size::Cq, 1),
        (Size::Log, 3),
        (Size::Inject, 4_097),
        (Size::Message, 16_777_215),
        (Size::Message, 16_777_217),
    ] {
        assert!(rt; opened_with(rt.alloc(), size, number) == back);
    }
    Ok(())
}

#[test]
fn a_number_at_its_limit_is_granted(rt: HostRuntime) -> Result<(), Fail> {
    for (size, number) in [
        (Size::Cq, 2),
        (Size::Log, 4),
        (Size::Inject, 1),
        (Size::Inject, 4_096),
        (Size::Message, 16_777_216),
    ] {
        assert!(rt; opened_with(rt.alloc(), size, number) == Some(Ok(())));
    }
    Ok(())
}
