//! The lines of each peer, as they are gathered.
ghost use Rattle.std.specs.Prelude.{◌≡◌, ◌<◌, ◌+◌, ◌^◌, ◌∷◌, [], ◌++◌, ◌==◌, ℕ, List, false, nat_lt, All, IfOk, vec_len};
ghost use Rattle.fab_grammar.specs.Lines.{op_size};
ghost use Rattle.fab_grammar.specs.Versions.{most_in_all};

use fab_base::{Api, Line, LineOp, NoMemory};
use fab_grammar::most_in_all;
use fab_words::bytes_size;
use std::alloc::Global;

/// The lines of each peer, the peers that are opened, in order, and the sum of the lines' bytes.
#[derive(Drop)]
pub(crate) struct Parts {
    pub lines: Vec<Vec<Line>>,
    pub opened: Vec<usize>,
    pub size: u64,
    ghost in_range: { All (λ k. k < vec_len lines) opened.items },
}

impl Parts {
    ghost use Rattle.std.specs.List.{list_any};
    ghost use Rattle.fab_grammar.specs.Before.{is_filled, opened_by};
    ghost use Rattle.fab_script.specs.Parts.{HoldsParts};
    ghost use Rattle.fab_grammar.specs.declared.items.Item.{Item};
    ghost use Rattle.fab_grammar.specs.declared.items.Item.TheVariants.{Peer, Does};

    /// No peer and no line.
    pub(crate) fn new(alloc: Global) -> Parts
        ensures { HoldsParts 0 result [] }
    {
        Parts {
            lines: Vec::new(alloc),
            opened: Vec::new(alloc),
            size: 0,
        }
    }

    /// Makes room for the lines of this many peers, where none is opened.
    pub(crate) fn grow(&mut self, alloc: Global, peers: u32) -> Result<(), NoMemory>
        requires { self.old.opened.items ≡ [] }
        ensures { (items : List Item) → HoldsParts 0 self.old items → IfOk result (λ _. HoldsParts peers self.new items) }
    {
        for _ in 0..peers {
            self.lines.push(Vec::new(alloc))?;
        }
        Ok(())
    }

    /// Whether a peer is opened.
    pub(crate) fn has_opened(&self) -> bool
        ensures { result ≡ is_filled self.now.opened.items }
    {
        !self.opened.is_empty()
    }

    /// Whether this peer is opened.
    pub(crate) fn is_opened(&self, peer: u64) -> bool
        ensures { result ≡ list_any (λ j. j == peer) self.now.opened.items }
    {
        self.opened.contains(&(peer as usize))
    }

    /// Whether there is this peer.
    pub(crate) fn has(&self, peer: u64) -> bool
        ensures { result ≡ nat_lt peer (vec_len self.now.lines) }
    {
        peer < self.lines.len() as u64
    }

    /// Opens the part of a peer.
    pub(crate) fn open(&mut self, peer: u64) -> Result<(), NoMemory>
        requires there { peer < vec_len self.old.lines }
        requires fresh { list_any (λ j. j == peer) self.old.opened.items ≡ false }
        ensures { (n : ℕ) (items : List Item) → HoldsParts n self.old items → IfOk result (λ _. HoldsParts n self.new (items ++ Peer peer ∷ [])) }
    {
        self.opened.push(peer as usize)?;
        Ok(())
    }

    /// Whether the lines would have too many bytes with this one.
    pub(crate) fn is_too_much(&self, api: Api, op: &LineOp) -> bool
        ensures { result ≡ nat_lt (most_in_all api) (self.now.size + op_size op.now) }
    {
        let most = most_in_all(api);
        match self.size.checked_add(size_of(op)) {
            Some(sum) => sum > most,
            None => true,
        }
    }

    /// Adds a line to the part of the peer that was opened last.
    pub(crate) fn add(&mut self, line: Line) -> Result<(), NoMemory>
        requires some { 0 < vec_len self.old.opened }
        requires few { self.old.size + op_size line.op < 2 ^ 64 }
        ensures { (n : ℕ) (items : List Item) → HoldsParts n self.old items → IfOk result (λ _. HoldsParts n self.new (items ++ Does line ∷ [])) }
    {
        let peer = self.opened[self.opened.len() - 1];
        let size = size_of(&line.op);
        self.lines[peer].push(line)?;
        self.size += size;
        Ok(())
    }
}

/// The bytes that a line sends or makes room for.
fn size_of(op: &LineOp) -> u64
    ensures { result ≡ op_size op.now }
{
    match op {
        LineOp::Send { bytes, .. }
        | LineOp::TSend { bytes, .. }
        | LineOp::Inject { bytes, .. }
        | LineOp::TInject { bytes, .. }
        | LineOp::Write { bytes, .. }
        | LineOp::WInject { bytes, .. }
        | LineOp::Reg { bytes, .. }
        | LineOp::Put { bytes, .. } => bytes_size(bytes),
        LineOp::Recv { len, .. }
        | LineOp::TRecv { len, .. }
        | LineOp::MRecv { len, .. }
        | LineOp::Take { len, .. }
        | LineOp::Read { len, .. } => u64::from(*len),
        _ => 0,
    }
}
