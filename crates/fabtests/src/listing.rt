//! The tests, by libfabric's names for them.
use crate::addresses::{AV_TEST, AV_XFER};
use crate::atomics::RDM_ATOMIC;
use crate::messages::{CQ_DATA, INJ_COMPLETE, MULTI_RECV, RDM, UNEXPECTED_MSG};
use crate::opening::dom_test;
use crate::queues::{CNTR_TEST, CQ_TEST};
use crate::regions::{MR_TEST, MULTI_MR, RDM_RMA_EVENT, RMA_BW};
use crate::resources::{FLOOD, RESMGMT};
use crate::tagged::{RDM_TAGGED_PEEK, RECV_CANCEL};
use fabric::{Api, Calls, EndpointOver, Hints};
use fabtests_calls::{Exchange, Row, Verdict, exchanges, walks};
use std::alloc::Global;
use std::thread::Threads;

/// A test with the endpoints of a domain.
#[derive(Clone, Copy, Drop)]
pub enum Test {
    Dom(u32),
    /// Two endpoints in one thread take these steps.
    Steps(Wish, &'static [Row]),
    Threads(Exchange),
}

/// What is asked for besides two peers: nothing, the second version of the interface, or lists that are soon full.
#[derive(Clone, Copy, Drop)]
pub enum Wish {
    Two,
    Second,
    Few,
}

/// The lines that are printed, but for that of fi_getinfo_test and fi_dom_test.
pub const LINES: [(&str, Test); 22] = [
    ("fi_av_test", Test::Steps(Wish::Two, AV_TEST)),
    ("fi_cq_test", Test::Steps(Wish::Two, CQ_TEST)),
    ("fi_cntr_test", Test::Steps(Wish::Two, CNTR_TEST)),
    ("fi_mr_test", Test::Steps(Wish::Two, MR_TEST)),
    ("fi_rdm", Test::Steps(Wish::Two, RDM)),
    (
        "fi_rdm_tagged_peek",
        Test::Steps(Wish::Two, RDM_TAGGED_PEEK),
    ),
    ("fi_recv_cancel", Test::Steps(Wish::Two, RECV_CANCEL)),
    ("fi_unexpected_msg", Test::Steps(Wish::Two, UNEXPECTED_MSG)),
    ("fi_multi_recv", Test::Steps(Wish::Two, MULTI_RECV)),
    ("fi_cq_data", Test::Steps(Wish::Two, CQ_DATA)),
    ("fi_inj_complete", Test::Steps(Wish::Two, INJ_COMPLETE)),
    ("fi_av_xfer", Test::Steps(Wish::Two, AV_XFER)),
    ("fi_resmgmt_test", Test::Steps(Wish::Few, RESMGMT)),
    ("fi_flood", Test::Steps(Wish::Few, FLOOD)),
    ("fi_rma_bw", Test::Steps(Wish::Two, RMA_BW)),
    ("fi_multi_mr", Test::Steps(Wish::Second, MULTI_MR)),
    ("fi_rdm_rma_event", Test::Steps(Wish::Second, RDM_RMA_EVENT)),
    ("fi_rdm_atomic", Test::Steps(Wish::Two, RDM_ATOMIC)),
    ("fi_rdm_pingpong", Test::Threads(Exchange::Plain)),
    ("fi_rdm_tagged_pingpong", Test::Threads(Exchange::Tagged)),
    ("fi_rdm_cntr_pingpong", Test::Threads(Exchange::Counted)),
    ("fi_rdm_tagged_bw", Test::Threads(Exchange::Windows)),
];

impl Test {
    /// What a test asks for.
    pub fn hints(self) -> Hints {
        match self {
            Test::Dom(peers) => Hints::new().peers(peers),
            Test::Threads(_) => Wish::Two.hints(),
            Test::Steps(wish, _) => wish.hints(),
        }
    }

    /// Tries it with the endpoints of a new domain.
    pub fn run<R: Threads + Sync, E: Calls + Drop + Send>(
        self,
        rt: &R,
        alloc: Global,
        endpoints: Vec<EndpointOver<E>>,
    ) -> Verdict {
        match self {
            Test::Dom(peers) => dom_test(endpoints.as_slice(), peers),
            Test::Threads(exchange) => in_threads(rt, alloc, exchange, endpoints),
            Test::Steps(_, rows) => in_one(alloc, rows, endpoints),
        }
    }
}

impl Wish {
    fn hints(self) -> Hints {
        let two = Hints::new().peers(2);
        match self {
            Wish::Two => two,
            Wish::Second => two.api(Api::Two),
            Wish::Few => two.lane(1).tx(2).rx(2).cq(2),
        }
    }
}

/// The endpoints of two peers, in order.
fn two<E: Calls + Drop>(
    endpoints: Vec<EndpointOver<E>>,
) -> Option<(EndpointOver<E>, EndpointOver<E>)> {
    let mut endpoints = endpoints;
    let one = endpoints.pop()?;
    let zero = endpoints.pop()?;
    Some((zero, one))
}

/// Tries a test whose two endpoints both stand in one thread.
fn in_one<E: Calls + Drop>(
    alloc: Global,
    rows: &[Row],
    endpoints: Vec<EndpointOver<E>>,
) -> Verdict {
    match two(endpoints) {
        Some((mut zero, mut one)) => walks(alloc, &mut zero, &mut one, rows),
        None => Err("there are two endpoints"),
    }
}

/// Tries a test whose two endpoints each have a thread of their own.
fn in_threads<R: Threads + Sync, E: Calls + Drop + Send>(
    rt: &R,
    alloc: Global,
    exchange: Exchange,
    endpoints: Vec<EndpointOver<E>>,
) -> Verdict {
    match two(endpoints) {
        Some((zero, one)) => exchanges(rt, alloc, exchange, zero, one),
        None => Err("there are two endpoints"),
    }
}
