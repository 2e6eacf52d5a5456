//! The lines of a file, taken one after another.
ghost use Rattle.std.specs.Prelude.{◌≡◌, ◌≤◌, ◌+◌, ◌++◌, ◌∷◌, [], ℕ, true, All, length, nat_le, not, ◌||◌, sum_by, unwrap_or, None, Some, IfOk};
ghost use Rattle.fab_base.specs.declared.limits.TheConstants.{SCRIPT_BYTES_ONE};
ghost use Rattle.fab_base.specs.declared.status.Why.TheVariants.{Header};
ghost use Rattle.fab_words.specs.Bytes.{bytes_size};
ghost use Rattle.fab_words.specs.Words.{first_of};
ghost use Rattle.fab_workloads.specs.Grammar.{a_round, are_much, are_short, bytes_before, is_header, nothing, peers_of, peers_rules, round_rules, said_of, verb_of, verb_rules, why_of, with_line, with_peers, with_round, with_verb};

use crate::coll_lines::{Verb, is_header, read_peers, read_round, why_from};
use crate::round::Round;
use crate::shares::{all_bytes, are_short, size_of};
use fab_base::{BytesWord, List, NoMemory, SCRIPT_BYTES_ONE, Why};
use fab_fold::Coll;
use fab_words::{Words, all_text};
use std::alloc::Global;

/// The most ranks.
const PEERS_MAX: u64 = 32;

/// The most rounds.
const ROUNDS_MAX: usize = 100;

/// What the lines before a line say, and how many bytes the shares have that they name.
#[derive(Drop)]
pub(crate) struct Reader {
    pub has_header: bool,
    pub peers: Option<u32>,
    pub rounds: Vec<Round>,
    bytes: u64,
    ghost few_ranks: { (n : ℕ) → peers ≡ Some n → (1 ≤ n) × (n ≤ 32) },
    ghost total: { bytes ≡ bytes_before rounds.items },
    ghost few_bytes: { bytes ≤ SCRIPT_BYTES_ONE },
}

impl Reader {
    ghost use Rattle.fab_workloads.specs.Reading.{IsSized, before_of};

    /// No line is taken.
    pub(crate) fn new(alloc: Global) -> Reader
        ensures { before_of result ≡ nothing }
    {
        Reader {
            has_header: false,
            peers: None,
            rounds: Vec::new(alloc),
            bytes: 0,
        }
    }

    /// Takes a line, or says which rule it breaks.
    #[tactic(auto, unfolding(crate::specs::Grammar::why_of, crate::specs::Grammar::with_line))]
    pub(crate) fn take(
        &mut self,
        alloc: Global,
        number: u32,
        line: &[u8],
    ) -> Result<Option<Why>, NoMemory>
        ensures broken { IfOk result (λ why. why ≡ why_of (before_of self.old) line.now) }
        ensures taken { IfOk result (λ why. why ≡ None → before_of self.new ≡ with_line (before_of self.old) number line.now) }
    {
        if !all_text(line) {
            return Ok(Some(Why::NotText));
        }
        let mut words = Words::of_line(line);
        match words.next() {
            None => Ok(None),
            Some(word) if self.has_header => self.take_line(alloc, number, word, &mut words),
            Some(word) => Ok(self.take_header(word, &mut words)),
        }
    }

    /// Takes the header.
    fn take_header(&mut self, word: &[u8], args: &mut Words) -> Option<Why>
        ensures broken { result ≡ first_of ((not (is_header (word.now ∷ args.old)), Header) ∷ []) }
        ensures taken { result ≡ None → before_of self.new ≡ record (before_of self.old) { has_header = true } }
    {
        if !is_header(word, args) {
            return Some(Why::Header);
        }
        self.has_header = true;
        None
    }

    /// Takes a line after the header.
    fn take_line(
        &mut self,
        alloc: Global,
        number: u32,
        word: &[u8],
        args: &mut Words,
    ) -> Result<Option<Why>, NoMemory>
        ensures broken { IfOk result (λ why. why ≡ first_of (verb_rules (before_of self.old) (verb_of word.now) args.old)) }
        ensures taken { IfOk result (λ why. why ≡ None → before_of self.new ≡ with_verb (before_of self.old) number (verb_of word.now) args.old) }
    {
        let Some(verb) = Verb::of(word) else {
            return Ok(Some(Why::Verb));
        };
        match verb {
            Verb::Peers => Ok(self.take_peers(args)),
            Verb::Barrier | Verb::Broadcast | Verb::Allgather | Verb::Allreduce => {
                self.take_round(alloc, number, verb, args)
            }
        }
    }

    /// Takes `peers N`.
    #[tactic(auto, unfolding(crate::specs::Grammar::peers_rules))]
    fn take_peers(&mut self, args: &mut Words) -> Option<Why>
        ensures broken { result ≡ first_of (peers_rules (before_of self.old) args.old) }
        ensures taken { result ≡ None → before_of self.new ≡ with_peers (before_of self.old) (peers_of args.old) }
    {
        if self.peers.is_some() {
            return Some(Why::Twice);
        }
        match read_peers(args) {
            Err(fault) => Some(why_from(fault)),
            Ok(peers) if peers >= 1 && peers <= PEERS_MAX => {
                self.peers = Some(peers as u32);
                None
            }
            Ok(_) => Some(Why::Limit),
        }
    }

    /// Takes a round.
    fn take_round(
        &mut self,
        alloc: Global,
        number: u32,
        verb: Verb,
        args: &mut Words,
    ) -> Result<Option<Why>, NoMemory>
        ensures broken { IfOk result (λ why. why ≡ first_of (round_rules (before_of self.old) verb args.old)) }
        ensures taken { IfOk result (λ why. why ≡ None → before_of self.new ≡ with_round (before_of self.old) number (said_of (unwrap_or self.old.peers 0) verb args.old)) }
    {
        let Some(peers) = self.peers else {
            return Ok(Some(Why::Order));
        };
        let (coll, shares) = match read_round(alloc, peers, verb, args)? {
            Ok(said) => said,
            Err(fault) => return Ok(Some(why_from(fault))),
        };
        let Some(coll) = coll else {
            return Ok(Some(Why::Peer));
        };
        if self.is_much(peers, shares.as_slice()) {
            return Ok(Some(Why::Limit));
        }
        self.add(alloc, number, coll, shares)?;
        Ok(None)
    }

    /// Whether there are as many rounds as there may be, a share is too long, or all shares with these are too much for so
    /// many ranks.
    fn is_much(&self, peers: u32, shares: &[BytesWord]) -> bool
        requires ranks { peers ≤ 32 }
        requires few { length shares.now ≤ 32 }
        ensures { result ≡ (nat_le 100 (length self.now.rounds.items) || are_much peers self.now.rounds.items shares.now) }
    {
        self.rounds.len() >= ROUNDS_MAX
            || !are_short(shares)
            || (self.bytes + size_of(shares)) * u64::from(peers) > SCRIPT_BYTES_ONE
    }

    /// Adds a round.
    fn add(
        &mut self,
        alloc: Global,
        number: u32,
        coll: Coll,
        shares: List<BytesWord>,
    ) -> Result<(), NoMemory>
        requires few { length shares ≤ 32 }
        requires short { are_short shares ≡ true }
        requires room { self.old.bytes + sum_by bytes_size shares ≤ SCRIPT_BYTES_ONE }
        requires named { All IsSized shares }
        ensures { IfOk result (λ _. before_of self.new ≡ record (before_of self.old) { rounds = self.old.rounds.items ++ a_round number coll shares ∷ [] }) }
    {
        let size = size_of(shares.as_slice());
        let shares = all_bytes(alloc, shares)?;
        self.rounds.push(Round {
            line: number,
            coll,
            shares,
        })?;
        self.bytes += size;
        Ok(())
    }
}
