//! What a command over memory is carried out over. Rows change it.
use crate::carrying::Turns;
use fab_base::{Buf, NoMemory, Text};
use fab_outside::{MemoryDepot, MemorySink};
use fab_test_helpers::add_spelled;
use std::alloc::Global;

/// Files, which load and which write fail, how many bytes the output takes at a call, what the clock tells, and what lets the
/// turns in. And what was written last.
#[derive(Drop)]
pub(crate) struct Setting {
    files: Vec<(Text, Buf)>,
    load: u64,
    write: u64,
    piece: u64,
    moments: Vec<u64>,
    pub(crate) turns: Turns,
    pub(crate) last: Vec<u8>,
}

/// What a text of a row spells.
pub(crate) fn spelled(alloc: Global, text: &str) -> Result<Vec<u8>, NoMemory> {
    let mut bytes = Vec::new(alloc);
    add_spelled(alloc, &mut bytes, text)?;
    Ok(bytes)
}

/// The same as a text.
pub(crate) fn spelled_text(alloc: Global, text: &str) -> Result<Text, NoMemory> {
    let bytes = spelled(alloc, text)?;
    Text::copy(alloc, str::from_utf8(bytes.as_slice()).unwrap_or(""))
}

fn number_of(word: &str) -> u64 {
    word.parse::<u64>().unwrap_or(0)
}

/// The numbers of a row.
fn numbers_of(alloc: Global, text: &str) -> Result<Vec<u64>, NoMemory> {
    let mut numbers = Vec::new(alloc);
    for word in text.split(' ') {
        numbers.push(number_of(word))?;
    }
    Ok(numbers)
}

/// An order of peers that rows name.
fn order_of(name: &str) -> &'static [u32] {
    match name {
        "2,0,1" => &[2, 0, 1],
        "1,0,2" => &[1, 0, 2],
        _ => &[0, 1],
    }
}

/// An order of peers, and how many rounds they keep it.
fn counted(text: &str) -> Turns {
    let (word, number) = text.split_once(' ').unwrap_or((text, "0"));
    Turns::Count(order_of(word), number.parse::<u32>().unwrap_or(0))
}

/// `open`, `meet ROUND`, or an order of peers and how many rounds they keep it, behind `count` where turns are counted.
fn turns_of(text: &str) -> Turns {
    let (word, rest) = text.split_once(' ').unwrap_or((text, "0"));
    let number = rest.parse::<u32>().unwrap_or(0);
    match word {
        "open" => Turns::Open,
        "count" => counted(rest),
        "meet" => Turns::Meet(number),
        _ => Turns::Order(order_of(word), number),
    }
}

/// A copy of a file joins the others.
fn add_copy(
    alloc: Global,
    files: &mut Vec<(Text, Buf)>,
    name: &str,
    bytes: &[u8],
) -> Result<(), NoMemory> {
    let name = Text::copy(alloc, name)?;
    let bytes = Buf::copy(alloc, bytes)?;
    let Ok(()) = files.push((name, bytes)) else {
        return Err(NoMemory);
    };
    Ok(())
}

impl Setting {
    /// No file, and nothing that fails.
    pub(crate) fn new(alloc: Global) -> Setting {
        Setting {
            files: Vec::new(alloc),
            load: 0,
            write: 0,
            piece: 1000,
            moments: Vec::new(alloc),
            turns: Turns::Open,
            last: Vec::new(alloc),
        }
    }

    /// `NAME TEXT`: a file. The last of a name counts.
    pub(crate) fn add_file(&mut self, alloc: Global, text: &str) -> Result<(), NoMemory> {
        let (name, text) = text.split_once(' ').unwrap_or((text, ""));
        let bytes = spelled(alloc, text)?;
        add_copy(alloc, &mut self.files, name, bytes.as_slice())
    }

    /// `LOAD WRITE PIECE`: the numbers of the load and of the write that fail, where 0 is none, and how many bytes a call of
    /// the output takes.
    pub(crate) fn set_failing(&mut self, text: &str) {
        let (load, rest) = text.split_once(' ').unwrap_or((text, ""));
        let (write, piece) = rest.split_once(' ').unwrap_or((rest, ""));
        self.load = number_of(load);
        self.write = number_of(write);
        self.piece = number_of(piece);
    }

    /// The moments that the clock tells.
    pub(crate) fn set_moments(&mut self, alloc: Global, text: &str) -> Result<(), NoMemory> {
        self.moments = numbers_of(alloc, text)?;
        Ok(())
    }

    pub(crate) fn set_turns(&mut self, text: &str) {
        self.turns = turns_of(text);
    }

    /// These files, the last one first.
    pub(crate) fn depot(&self, alloc: Global) -> Result<MemoryDepot, NoMemory> {
        let mut files = Vec::new(alloc);
        for (name, bytes) in self.files.iter().rev() {
            add_copy(alloc, &mut files, name.as_str(), bytes.as_slice())?;
        }
        let failing = Vec::from_slice(alloc, &[self.load])?;
        Ok(MemoryDepot::new(files, failing))
    }

    /// This output.
    pub(crate) fn sink(&self, alloc: Global) -> Result<MemorySink, NoMemory> {
        let failing = Vec::from_slice(alloc, &[self.write])?;
        Ok(MemorySink::new(alloc, self.piece.max(1), failing))
    }

    /// What the clock tells.
    pub(crate) fn clock(&self, alloc: Global) -> Result<Vec<u64>, NoMemory> {
        Ok(Vec::from_slice(alloc, self.moments.as_slice())?)
    }
}
