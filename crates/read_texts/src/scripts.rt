//! What came of a text as a script.
use fab_base::{Api, Bound, Buf, Info, Line, List, NoMemory, Script, Text};
use fab_script::{ParseRefused, bind, lines, parse, print};
use fab_spell::{add_caps_line, add_line};
use std::alloc::Global;

/// The bytes of each payload file.
const FILE: &[u8] = b"abcde";

/// The line and the reason of a refusal.
pub(crate) fn add_refused(out: &mut String, refused: ParseRefused) -> Result<(), NoMemory> {
    match refused {
        ParseRefused::Script { line, why } => {
            write!(out, "{line} {why:?}")?;
            Ok(())
        }
        ParseRefused::NoMemory => Err(NoMemory),
    }
}

fn count_of(peers: &[List<Line>]) -> usize {
    let mut count = 0usize;
    for lines in peers {
        count = count.saturating_add(lines.as_slice().len());
    }
    count
}

fn add_sizes(out: &mut String, script: Script) -> Result<(), NoMemory> {
    let peers = script.peers.as_slice();
    write!(
        out,
        "read, peers {}, lines {}",
        peers.len(),
        count_of(peers)
    )?;
    Ok(())
}

/// Whether a text is read, or at which line it is refused, and why.
pub(crate) fn add_read(alloc: Global, out: &mut String, text: &[u8]) -> Result<(), NoMemory> {
    match parse(alloc, text) {
        Ok(script) => add_sizes(out, script),
        Err(refused) => add_refused(out, refused),
    }
}

fn number_of(api: Api) -> u32 {
    match api {
        Api::One => 1,
        Api::Two => 2,
    }
}

/// What is granted: the sizes.
fn add_sizes_of(out: &mut String, info: Info) -> Result<(), NoMemory> {
    write!(
        out,
        "lane {} pool {} tx {} rx {} cq {} log {} inject {} message {}\n",
        info.lane, info.pool, info.tx, info.rx, info.cq, info.log, info.inject, info.message
    )?;
    Ok(())
}

/// What is granted.
fn add_granted(out: &mut String, version: u32, info: Info) -> Result<(), NoMemory> {
    let api = number_of(info.api);
    write!(out, "version {version} of {api}, peers {}\n", info.peers)?;
    add_sizes_of(out, info)?;
    add_caps_line(out, info.caps)
}

/// The numbers of all lines.
pub(crate) fn add_numbers(out: &mut String, peers: &[List<Line>]) -> Result<(), NoMemory> {
    out.push_str("numbers")?;
    for lines in peers {
        for line in lines.as_slice() {
            write!(out, " {}", line.number)?;
        }
    }
    out.push('\n')?;
    Ok(())
}

/// How the script is printed that a text says.
fn printed(alloc: Global, text: &[u8]) -> Result<Text, NoMemory> {
    match parse(alloc, text) {
        Ok(script) => print(alloc, &script),
        Err(_) => Text::copy(alloc, "refused\n"),
    }
}

/// How it is printed, and whether what is printed is printed again the same.
fn add_printed(alloc: Global, out: &mut String, script: &Script) -> Result<(), NoMemory> {
    let once = print(alloc, script)?;
    out.push_str(once.as_str())?;
    let again = printed(alloc, once.as_str().as_bytes())?;
    let same = if again.as_str() == once.as_str() {
        "the same"
    } else {
        "another"
    };
    write!(out, "again {same}\n")?;
    Ok(())
}

fn add_whole(alloc: Global, out: &mut String, script: Script) -> Result<(), NoMemory> {
    add_granted(out, script.version, script.conf.info)?;
    add_numbers(out, script.peers.as_slice())?;
    add_printed(alloc, out, &script)
}

/// What a text says: what is granted, the numbers of its lines, and how it is printed.
pub(crate) fn add_said(alloc: Global, out: &mut String, text: &[u8]) -> Result<(), NoMemory> {
    match parse(alloc, text) {
        Ok(script) => add_whole(alloc, out, script),
        Err(refused) => add_refused(out, refused),
    }
}

/// A file for each of so many payloads.
fn files_of(alloc: Global, count: usize) -> Result<Vec<Buf>, NoMemory> {
    let mut files = Vec::new(alloc);
    for _ in 0..count {
        files.push(Buf::copy(alloc, FILE)?)?;
    }
    Ok(files)
}

/// The lines of a peer, with their bytes.
fn add_lines(alloc: Global, out: &mut String, bound: &Bound, peer: u32) -> Result<(), NoMemory> {
    let lines = lines(alloc, bound, peer)?;
    for line in &lines {
        write!(out, "{peer}: {} ", line.number)?;
        add_line(out, &line.op)?;
    }
    Ok(())
}

/// The lines of all peers, and of one more.
fn add_bound(alloc: Global, out: &mut String, bound: Bound) -> Result<(), NoMemory> {
    out.push_str("bound\n")?;
    for peer in 0..=bound.script.conf.peers {
        add_lines(alloc, out, &bound, peer)?;
    }
    Ok(())
}

/// What comes of a script with a file of five bytes for each payload.
fn add_binding(alloc: Global, out: &mut String, script: Script) -> Result<(), NoMemory> {
    let files = files_of(alloc, script.payloads.as_slice().len())?;
    if files.len() != script.payloads.as_slice().len() {
        return Err(NoMemory);
    }
    match bind(script, files) {
        Ok(bound) => add_bound(alloc, out, bound),
        Err(refused) => add_refused(out, refused),
    }
}

/// What comes of a text with a file of five bytes for each payload.
pub(crate) fn add_files(alloc: Global, out: &mut String, text: &[u8]) -> Result<(), NoMemory> {
    match parse(alloc, text) {
        Ok(script) => add_binding(alloc, out, script),
        Err(refused) => add_refused(out, refused),
    }
}
