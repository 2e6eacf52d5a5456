//! Insertions and removals in an address vector, as values written by hand.
use fab_av::Av;
use fab_base::{Fault, NoMemory, Text};
use std::alloc::Global;
use std::test::Fail;

/// What is asked of a vector, and its answer.
enum Asked {
    /// An insertion of these names gives these indices, and tells how many were inserted.
    Insert(&'static [&'static str], &'static [Option<u32>], u32),
    /// A removal gives this answer.
    Remove(u32, Result<(), Fault>),
    /// At this index stands this peer, or none.
    At(u32, Result<u32, Fault>),
    /// The peer has this index, or none.
    Of(u32, Option<u32>),
}

/// A peer comes and goes. Then a peer twice, a name of no peer, and one that stands already.
const COMES_AND_GOES: [Asked; 15] = [
    Asked::Insert(&["shm://0", "shm://1"], &[Some(0), Some(1)], 2),
    Asked::At(1, Ok(1)),
    Asked::Of(1, Some(1)),
    Asked::Insert(&["shm://1"], &[Some(1)], 1),
    Asked::Remove(1, Ok(())),
    Asked::At(1, Err(Fault::NoEntry)),
    Asked::Of(1, None),
    Asked::Insert(
        &["shm://1", "shm://9", "shm://1", "shm://0"],
        &[Some(2), None, Some(2), Some(0)],
        3,
    ),
    Asked::Remove(1, Err(Fault::NoEntry)),
    Asked::Remove(3, Err(Fault::NoEntry)),
    Asked::At(2, Ok(1)),
    Asked::Of(1, Some(2)),
    Asked::At(0, Ok(0)),
    Asked::Of(0, Some(0)),
    Asked::Of(2, None),
];

/// Names, and which of 32 peers has each.
const NAMES: [(&str, Option<u32>); 18] = [
    ("shm://0", Some(0)),
    ("shm://9", Some(9)),
    ("shm://10", Some(10)),
    ("shm://31", Some(31)),
    ("shm://32", None),
    ("shm://01", None),
    ("shm://00", None),
    ("shm://", None),
    ("shm://-1", None),
    ("shm://+1", None),
    ("shm://1 ", None),
    ("shm://1a", None),
    ("SHM://1", None),
    ("shm:/1", None),
    ("1", None),
    ("", None),
    ("shm://4294967297", None),
    ("shm://18446744073709551617", None),
];

fn texts(alloc: Global, names: &[&str]) -> Result<Vec<Text>, NoMemory> {
    let mut texts = Vec::new(alloc);
    for name in names {
        texts.push(Text::copy(alloc, name)?)?;
    }
    Ok(texts)
}

/// Whether an insertion of at most a hundred names is reported so.
fn is_reported(av: &mut Av, names: &[Text], indices: &[Option<u32>], inserted: u32) -> bool {
    if names.len() > 100 {
        return false;
    }
    match av.insert(names) {
        Ok(report) => report.indices.as_slice() == indices && report.inserted == inserted,
        Err(_) => false,
    }
}

fn inserts(
    alloc: Global,
    av: &mut Av,
    names: &[&str],
    indices: &[Option<u32>],
    inserted: u32,
) -> bool {
    match texts(alloc, names) {
        Ok(texts) => is_reported(av, texts.as_slice(), indices, inserted),
        Err(_) => false,
    }
}

fn is_answered(alloc: Global, av: &mut Av, asked: &Asked) -> bool {
    match asked {
        Asked::Insert(names, indices, inserted) => inserts(alloc, av, names, indices, *inserted),
        Asked::Remove(index, answer) => av.remove(*index) == *answer,
        Asked::At(index, answer) => av.lookup(*index) == *answer,
        Asked::Of(peer, answer) => av.index_of(*peer) == *answer,
    }
}

fn are_answered(alloc: Global, mut av: Av, rows: &[Asked]) -> bool {
    for asked in rows {
        if !is_answered(alloc, &mut av, asked) {
            return false;
        }
    }
    true
}

#[test]
fn a_peer_comes_and_goes(rt: HostRuntime) -> Result<(), Fail> {
    let av = Av::new(rt.alloc(), 2)?;
    assert!(rt; are_answered(rt.alloc(), av, &COMES_AND_GOES));
    Ok(())
}

/// Whether the name is that of this peer, or of none.
fn is_name(alloc: Global, mut av: Av, name: &str, peer: Option<u32>) -> bool {
    match peer {
        Some(peer) => inserts(alloc, &mut av, &[name], &[Some(0)], 1) && av.lookup(0) == Ok(peer),
        None => {
            inserts(alloc, &mut av, &[name], &[None], 0) && av.lookup(0) == Err(Fault::NoEntry)
        }
    }
}

#[test]
fn names_of_32_peers(rt: HostRuntime) -> Result<(), Fail> {
    for (name, peer) in NAMES {
        let av = Av::new(rt.alloc(), 32)?;
        assert!(rt; is_name(rt.alloc(), av, name, peer), "{name}");
    }
    Ok(())
}

/// A peer comes and goes at each index from 1 on. No index is left then but that of the peer that stands.
fn ends(alloc: Global, mut av: Av) -> bool {
    for index in 1..4_096 {
        if !inserts(alloc, &mut av, &["shm://0"], &[Some(index)], 1) || av.remove(index) != Ok(()) {
            return false;
        }
    }
    inserts(alloc, &mut av, &["shm://0", "shm://1"], &[None, Some(0)], 1)
        && av.index_of(0).is_none()
}

#[test]
fn indices_end_at_4096(rt: HostRuntime) -> Result<(), Fail> {
    let mut av = Av::new(rt.alloc(), 2)?;
    assert!(rt; inserts(rt.alloc(), &mut av, &["shm://1"], &[Some(0)], 1));
    assert!(rt; ends(rt.alloc(), av));
    Ok(())
}
