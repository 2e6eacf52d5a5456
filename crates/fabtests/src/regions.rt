//! Memory regions, reads and writes: fi_mr_test, fi_rma_bw, fi_multi_mr, fi_rdm_rma_event.
use fabric::{Class, ErrKind, Fault};
use fabtests_calls::Completion::{Failed, Nothing, Read, Wrote};
use fabtests_calls::Count::Has;
use fabtests_calls::Deed::{Count, Request};
use fabtests_calls::Request::{
    Closes, ClosesNone, Holds, InjectsWrite, Puts, PutsNone, Reads, Registers, RegistersNone,
    Writes,
};
use fabtests_calls::Step::{AtOne, Carry, One, ThereAndBack, Zero};
use fabtests_calls::{BOTH, READ_ONLY, Row};

/// A region has the bytes that it was registered with until they are written, and hands them back once it is closed.
#[rattlefmt::skip]
pub const MR_TEST: &[Row] = &[
    (Zero(Request(Registers(1, BOTH, b"abc"))), "a region is registered"),
    (Zero(Request(Registers(2, READ_ONLY, b""))), "one without bytes, too"),
    (Zero(Request(RegistersNone(1, b"xyz"))), "a key in use is refused, and the buffer comes back"),
    (Zero(Request(Holds(1, b"abc"))), "the region has its bytes"),
    (Zero(Request(Puts(1, 1, b"BC"))), "bytes are put up to its end"),
    (Zero(Request(PutsNone(1, 2, b"BC", Fault::Range))), "and none beyond it"),
    (Zero(Request(PutsNone(3, 0, b"B", Fault::NoKey))), "nor into a region that is not there"),
    (Zero(Request(Closes(1, b"aBC"))), "the bytes come back when it is closed"),
    (Zero(Request(ClosesNone(1))), "and once"),
    (Zero(Request(Closes(2, b""))), "the one without bytes is closed"),
    (Zero(Request(Registers(1, BOTH, b"new"))), "the key may be used again"),
];

/// Writes place their bytes and reads bring them, at each length; what the target does not allow is told, and changes nothing.
#[rattlefmt::skip]
pub const RMA_BW: &[Row] = &[
    (Zero(Request(Registers(5, BOTH, b"0123456789"))), "a region is registered"),
    (One(Request(Writes(5, 2, b"abcd", 1))), "a write is accepted"),
    (One(Request(Reads(5, 1, 6, 2))), "a read behind it is accepted"),
    (One(Request(InjectsWrite(5, 8, b"yz", None))), "an injected write is accepted"),
    (Carry, "both go on"),
    (AtOne(Wrote(1, b"abcd")), "the write completes, and has its buffer back"),
    (AtOne(Read(2, b"1abcd6")), "the read brings what was written before it"),
    (Zero(Request(Holds(5, b"01abcd67yz"))), "all bytes stand in the region"),
    (AtOne(Nothing), "the injected write completes silently"),
    (Zero(Request(Registers(6, READ_ONLY, b"keep"))), "another region allows reads"),
    (One(Request(Writes(9, 0, b"none", 3))), "a write without a region is accepted"),
    (One(Request(Writes(6, 0, b"none", 4))), "one that is not allowed"),
    (One(Request(Reads(5, 7, 4, 5))), "and a read beyond the end"),
    (Carry, "both go on"),
    (AtOne(Failed(3, ErrKind::NoKey, Some(4))), "the key is told to be wrong"),
    (AtOne(Failed(4, ErrKind::Access, Some(4))), "the access is told to be wrong"),
    (AtOne(Failed(5, ErrKind::Range, Some(4))), "the place is told to be wrong"),
    (Zero(Request(Holds(6, b"keep"))), "what was refused changed nothing"),
    (ThereAndBack(1), "one byte goes and comes"),
    (ThereAndBack(4096), "a frame goes and comes"),
    (ThereAndBack(50_000), "many frames go and come"),
];

/// A target is told of writes by its counter alone, in whichever of its regions they are.
#[rattlefmt::skip]
pub const MULTI_MR: &[Row] = &[
    (Zero(Request(Registers(1, BOTH, b"...."))), "a region is registered"),
    (Zero(Request(Registers(2, BOTH, b"...."))), "a second one is registered"),
    (Zero(Request(Registers(3, BOTH, b"...."))), "a third one is registered"),
    (Zero(Count(Has(Class::RemoteWrite, 0, 0))), "nothing is counted before"),
    (One(Request(InjectsWrite(3, 0, b"cccc", None))), "a write into the third is accepted"),
    (One(Request(InjectsWrite(1, 1, b"aa", None))), "a write into the first is accepted"),
    (Carry, "both go on"),
    (Zero(Count(Has(Class::RemoteWrite, 2, 0))), "both are counted"),
    (Zero(Request(Holds(1, b".aa."))), "the first region has its bytes"),
    (Zero(Request(Holds(2, b"...."))), "the second is as it was"),
    (Zero(Request(Holds(3, b"cccc"))), "the third region has its bytes"),
];

/// Where remote events are granted the target counts what was performed on its regions, and nothing that it refused.
#[rattlefmt::skip]
pub const RDM_RMA_EVENT: &[Row] = &[
    (Zero(Request(Registers(1, BOTH, b"...."))), "a region is registered"),
    (One(Request(Writes(1, 0, b"wr", 1))), "a write is accepted"),
    (One(Request(Reads(1, 0, 4, 2))), "a read is accepted"),
    (One(Request(Writes(8, 0, b"none", 3))), "a write without a region is accepted"),
    (Carry, "both go on"),
    (Zero(Count(Has(Class::RemoteWrite, 1, 0))), "the write is counted, and not the one that was refused"),
    (Zero(Count(Has(Class::RemoteRead, 1, 0))), "the read is counted"),
    (One(Count(Has(Class::RemoteWrite, 0, 0))), "the initiator counts no write"),
    (One(Count(Has(Class::RemoteRead, 0, 0))), "and no read"),
    (AtOne(Wrote(1, b"wr")), "the initiator is told of the write"),
    (AtOne(Read(2, b"wr..")), "and of the read"),
    (AtOne(Failed(3, ErrKind::NoKey, Some(4))), "and of the refusal"),
];
