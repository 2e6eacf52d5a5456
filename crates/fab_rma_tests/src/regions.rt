//! Regions by hand: each answer is the one that fi_mr(3) and the offsets of the region give.
use fab_base::{Access, Buf, Fault};
use fab_mr::Regions;
use std::alloc::Global;
use std::test::Fail;

const READ_WRITE: Access = Access {
    remote_read: true,
    remote_write: true,
};

const READ: Access = Access {
    remote_read: true,
    remote_write: false,
};

/// Whether a region of these bytes is registered.
fn registers(alloc: Global, regions: &mut Regions, key: u64, access: Access, bytes: &[u8]) -> bool {
    let Ok(buf) = Buf::copy(alloc, bytes) else {
        return false;
    };
    regions.reg(key, access, buf).is_ok()
}

/// Whether the key is in use, and the buffer comes back.
fn refuses(alloc: Global, regions: &mut Regions, key: u64, bytes: &[u8]) -> bool {
    let Ok(buf) = Buf::copy(alloc, bytes) else {
        return false;
    };
    match regions.reg(key, READ, buf) {
        Ok(()) => false,
        Err(refused) => refused.why == Fault::NoKey && refused.buf.as_slice() == bytes,
    }
}

/// Whether a write gives this answer.
fn writes(regions: &mut Regions, key: u64, at: u64, src: &[u8], answer: Result<(), Fault>) -> bool {
    regions.put(key, at, src) == answer
}

/// Whether the region has these bytes.
fn has_bytes(regions: &Regions, key: u64, bytes: &[u8]) -> bool {
    regions.bytes(key) == Some(bytes)
}

fn has_none(regions: &Regions, key: u64) -> bool {
    regions.bytes(key).is_none()
}

/// Whether the region has these rights, or there is none.
fn has_access(regions: &Regions, key: u64, access: Option<Access>) -> bool {
    regions.access(key) == access
}

/// Whether the region is closed, and gives these bytes back.
fn closes(regions: &mut Regions, key: u64, bytes: &[u8]) -> bool {
    match regions.close(key) {
        Ok(buf) => buf.as_slice() == bytes,
        Err(_) => false,
    }
}

fn closes_none(regions: &mut Regions, key: u64) -> bool {
    match regions.close(key) {
        Ok(_) => false,
        Err(why) => why == Fault::NoKey,
    }
}

/// Whether two regions are registered, and one is written, whose key no other region gets.
fn has_two(alloc: Global, regions: &mut Regions) -> bool {
    registers(alloc, regions, 10, READ_WRITE, &[0; 8])
        && registers(alloc, regions, u64::MAX, READ, b"x")
        && writes(regions, 10, 4, b"abcd", Ok(()))
        && has_bytes(regions, 10, b"\0\0\0\0abcd")
        && refuses(alloc, regions, 10, b"z")
        && has_access(regions, 10, Some(READ_WRITE))
        && has_access(regions, u64::MAX, Some(READ))
        && has_access(regions, 0, None)
}

/// Whether that one is closed, and the other stays.
fn closes_one(regions: &mut Regions) -> bool {
    closes_none(regions, 0)
        && closes(regions, 10, b"\0\0\0\0abcd")
        && has_none(regions, 10)
        && has_bytes(regions, u64::MAX, b"x")
}

fn new_closes_one(alloc: Global) -> bool {
    let mut regions = Regions::new(alloc);
    has_two(alloc, &mut regions) && closes_one(&mut regions)
}

#[test]
fn a_region_is_registered_written_and_closed(rt: HostRuntime) -> Result<(), Fail> {
    assert!(rt; new_closes_one(rt.alloc()));
    Ok(())
}

/// Key, offset and bytes of a write, and the answer.
type Put = (u64, u64, &'static [u8], Result<(), Fault>);

const PUTS: [Put; 8] = [
    (0, 4, b"wxyzv", Err(Fault::Range)),
    (0, 8, b"", Ok(())),
    (0, 8, b"w", Err(Fault::Range)),
    (0, 9, b"", Err(Fault::Range)),
    (0, u64::MAX, b"", Err(Fault::Range)),
    (0, u64::MAX, b"w", Err(Fault::Range)),
    (0, u64::MAX - 1, b"wx", Err(Fault::Range)),
    (1, 0, b"", Err(Fault::NoKey)),
];

/// Whether the write gives its answer, and changes no byte of the region 0.
fn is_put(regions: &mut Regions, put: &Put) -> bool {
    let (key, at, src, answer) = *put;
    writes(regions, key, at, src, answer) && has_bytes(regions, 0, &[0; 8])
}

/// The place of the first write that doesn't give its answer.
fn first_wrong(regions: &mut Regions) -> Option<usize> {
    for (place, put) in PUTS.iter().enumerate() {
        if !is_put(regions, put) {
            return Some(place);
        }
    }
    None
}

/// Whether each write to a new region of eight bytes gives its answer.
fn writes_end_within(alloc: Global) -> bool {
    let mut regions = Regions::new(alloc);
    registers(alloc, &mut regions, 0, READ, &[0; 8]) && first_wrong(&mut regions).is_none()
}

#[test]
fn a_write_ends_within_the_region(rt: HostRuntime) -> Result<(), Fail> {
    assert!(rt; writes_end_within(rt.alloc()));
    Ok(())
}
