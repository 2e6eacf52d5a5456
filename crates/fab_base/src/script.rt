//! The lines of a script, as the grammar gives them.
use crate::buffers::{Buf, List, Text};
use crate::caps::{Hints, Info};
use crate::entries::Class;
use crate::items::{Access, AtomicOp, Num};
use crate::peers::Level;

/// How a line names bytes.
#[derive(Drop)]
pub enum BytesWord {
    Text(Buf),
    Hex(Buf),
    Zero(u64),
    File { id: u64, at: u64, len: u64 },
}

/// What a line asks for. `ctx` is the context under which its completions come, `dest` and `source` are
/// indices of the address vector, `imm` is the remote data.
#[derive(Drop)]
pub enum LineOp {
    Send {
        ctx: u64,
        dest: u32,
        bytes: BytesWord,
        imm: Option<u64>,
        level: Level,
        completion: bool,
        fence: bool,
    },
    TSend {
        ctx: u64,
        dest: u32,
        tag: u64,
        bytes: BytesWord,
        imm: Option<u64>,
        level: Level,
        completion: bool,
        fence: bool,
    },
    Inject {
        dest: u32,
        bytes: BytesWord,
        imm: Option<u64>,
    },
    TInject {
        dest: u32,
        tag: u64,
        bytes: BytesWord,
        imm: Option<u64>,
    },
    Recv {
        ctx: u64,
        source: Option<u32>,
        len: u32,
    },
    TRecv {
        ctx: u64,
        source: Option<u32>,
        tag: u64,
        ignore: u64,
        len: u32,
    },
    MRecv {
        ctx: u64,
        source: Option<u32>,
        len: u32,
        min: Option<u32>,
    },
    Peek {
        ctx: u64,
        source: Option<u32>,
        tag: u64,
        ignore: u64,
    },
    Claim {
        ctx: u64,
        source: Option<u32>,
        tag: u64,
        ignore: u64,
    },
    Discard {
        ctx: u64,
        source: Option<u32>,
        tag: u64,
        ignore: u64,
    },
    Take {
        ctx: u64,
        len: u32,
    },
    DropClaimed {
        ctx: u64,
    },
    Cancel {
        ctx: u64,
    },
    Read {
        ctx: u64,
        dest: u32,
        key: u64,
        at: u64,
        len: u32,
    },
    Write {
        ctx: u64,
        dest: u32,
        key: u64,
        at: u64,
        bytes: BytesWord,
        imm: Option<u64>,
        completion: bool,
        fence: bool,
    },
    WInject {
        dest: u32,
        key: u64,
        at: u64,
        bytes: BytesWord,
        imm: Option<u64>,
    },
    Atomic {
        ctx: u64,
        dest: u32,
        key: u64,
        at: u64,
        op: AtomicOp,
        num: Num,
        values: Buf,
        completion: bool,
        fence: bool,
    },
    Fetch {
        ctx: u64,
        dest: u32,
        key: u64,
        at: u64,
        op: AtomicOp,
        num: Num,
        values: Buf,
        count: u32,
    },
    Compare {
        ctx: u64,
        dest: u32,
        key: u64,
        at: u64,
        op: AtomicOp,
        num: Num,
        values: Buf,
        compares: Buf,
    },
    Reg {
        key: u64,
        access: Access,
        bytes: BytesWord,
    },
    Close {
        key: u64,
    },
    Put {
        key: u64,
        at: u64,
        bytes: BytesWord,
    },
    Show {
        key: u64,
    },
    Insert {
        name: Text,
    },
    Remove {
        index: u32,
    },
    Wait {
        ctx: Option<u64>,
    },
    Count {
        class: Class,
    },
    Reach {
        class: Class,
        n: u64,
    },
}

/// A line with its number in the file, from 1.
#[derive(Drop)]
pub struct Line {
    pub number: u32,
    pub op: LineOp,
}

/// What the settings ask for, and what is granted.
#[derive(Drop)]
pub struct Conf {
    pub hints: Option<Hints>,
    pub info: Info,
    pub peers: u32,
    pub selective: bool,
}

/// A payload file: the number under which words name it, and its name.
#[derive(Drop)]
pub struct Payload {
    pub id: u64,
    pub name: Text,
}

/// A script: its settings, its payload files, and the lines of each peer.
#[derive(Drop)]
pub struct Script {
    pub version: u32,
    pub conf: Conf,
    pub payloads: List<Payload>,
    pub peers: List<List<Line>>,
}

/// A script with the bytes of its payload files.
#[derive(Drop)]
pub struct Bound {
    pub script: Script,
    pub files: List<Buf>,
}
