//! The lines of a file, taken one after another.
ghost use Rattle.std.specs.Prelude.{◌≡◌, ◌==◌, ℕ, List, [], ◌∷◌, None, true, false, MatchResult};
ghost use Rattle.std.specs.List.{list_any};
ghost use Rattle.fab_grammar.specs.Before.{Before, nothing, has_opened};
ghost use Rattle.fab_script.specs.Parts.{Holds, Answers};
ghost use Rattle.fab_words.specs.Words.{first_of};
ghost use Rattle.fab_grammar.specs.Rules.{is_late, is_set, is_fresh, is_again, is_declared, is_one_too_many, is_refused, setting_rules, peer_rules, call_rules, word_rules, verb_rules, why_of, with_setting, with_peer, with_call, with_verb, with_words, with_line};
ghost use Rattle.fab_grammar.specs.Settings.{setting_of, peer_of};
ghost use Rattle.fab_grammar.specs.Lines.{op_of};
ghost use Rattle.fab_grammar.specs.Verbs.{verb_of};
ghost use Rattle.fab_grammar.specs.Versions.{most_bytes};
ghost use Rattle.fab_base.specs.declared.status.Why.TheVariants.{Limit};
ghost use Rattle.fab_script.specs.declared.refused.Refused.TheVariants.{Why as Because};

use crate::parts::Parts;
use crate::refused::Refused;
use fab_base::{Api, Line, Payload, Why};
use fab_grammar::{
    Setting, Settings, Verb, VerbKind, asking, most_bytes, read_header, read_op, read_peer,
    read_setting,
};
use fab_info::getinfo;
use fab_words::{Misread, Words, all_text, number};
use std::alloc::Global;

/// The greatest number of lines.
const LINES_MAX: u32 = 100_000;

/// The greatest number of payload files.
const PAYLOADS_MAX: usize = 64;

/// What the lines before a line say.
#[derive(Drop)]
pub(crate) struct Reader {
    /// The version that the header names, once it is read.
    pub api: Option<Api>,
    pub settings: Settings,
    pub payloads: Vec<Payload>,
    pub parts: Parts,
}

impl Reader {
    /// No line is taken.
    pub(crate) fn new(alloc: Global) -> Reader
        ensures { Holds result nothing }
    {
        Reader {
            api: None,
            settings: Settings::new(),
            payloads: Vec::new(alloc),
            parts: Parts::new(alloc),
        }
    }

    /// Takes a line, or says which rule it breaks.
    #[tactic(auto, unfolding(fab_grammar::specs::Rules::why_of, fab_grammar::specs::Rules::with_line))]
    pub(crate) fn take(&mut self, alloc: Global, number: u32, line: &[u8]) -> Result<(), Refused>
        ensures { (before : Before) → Holds self.old before →
            Answers (why_of before number line.now) (with_line before number line.now) self.new result }
    {
        if !all_text(line) {
            return Err(Refused::Why(Why::NotText));
        }
        let mut words = Words::of_line(line);
        let Some(word) = words.next() else {
            return in_time(number);
        };
        match self.api {
            None => self.take_header(number, word, &mut words),
            Some(api) => self.take_line(alloc, api, number, word, &mut words),
        }
    }

    /// Takes the header.
    fn take_header(&mut self, number: u32, word: &[u8], args: &mut Words) -> Result<(), Refused>
        ensures { (before : Before) → Holds self.old before → before.api ≡ None →
            Answers (first_of (word_rules before number (word.now ∷ args.old))) (with_words before number (word.now ∷ args.old)) self.new result }
    {
        let Some(api) = read_header(word, args) else {
            return Err(Refused::Why(Why::Header));
        };
        in_time(number)?;
        self.api = Some(api);
        Ok(())
    }

    /// Takes a line after the header of this version.
    fn take_line(
        &mut self,
        alloc: Global,
        api: Api,
        number: u32,
        word: &[u8],
        args: &mut Words,
    ) -> Result<(), Refused>
        ensures { (before : Before) → Holds self.old before →
            Answers (first_of (verb_rules api before number (verb_of word.now) args.old)) (with_verb api before number (verb_of word.now) args.old) self.new result }
    {
        let Some(verb) = Verb::of(word) else {
            return Err(Refused::Why(Why::Verb));
        };
        match verb.kind() {
            VerbKind::Setting => self.take_setting(alloc, api, number, verb, args),
            VerbKind::Peer => self.take_peer(number, args),
            VerbKind::Call => self.take_call(alloc, api, number, verb, args),
        }
    }

    /// Takes a setting.
    #[tactic(auto, unfolding(fab_grammar::specs::Rules::setting_rules))]
    fn take_setting(
        &mut self,
        alloc: Global,
        api: Api,
        number: u32,
        verb: Verb,
        args: &mut Words,
    ) -> Result<(), Refused>
        ensures { (before : Before) → Holds self.old before →
            Answers (first_of (setting_rules api before number verb args.old)) (with_setting before (setting_of api verb args.old)) self.new result }
    {
        if self.parts.has_opened() {
            return Err(Refused::Why(Why::Order));
        }
        if self.is_set(verb, args) {
            return Err(Refused::Why(Why::Twice));
        }
        let setting = read_setting(alloc, api, verb, args)??;
        in_time(number)?;
        if self.is_one_too_many(&setting) {
            return Err(Refused::Why(Why::Limit));
        }
        if is_refused(api, &setting) {
            return Err(Refused::Why(Why::NoData));
        }
        self.set(alloc, setting)
    }

    /// Whether the setting was made before; a payload, under the same number.
    fn is_set(&self, verb: Verb, args: &Words) -> bool
        ensures { (before : Before) → Holds self.now before → result ≡ is_set before verb args.now }
    {
        match verb {
            Verb::Payload => self.has_payload(args),
            _ => self.settings.is_made(verb),
        }
    }

    /// Whether the line names a payload file that is there.
    fn has_payload(&self, args: &Words) -> bool
        ensures { result ≡ is_declared self.now.payloads.items args.now }
    {
        args.again()
            .next()
            .and_then(|word| number(word))
            .is_some_and(|id| has_id(&self.payloads, id))
    }

    /// A script has at most 64 payload files.
    fn is_one_too_many(&self, setting: &Setting) -> bool
        ensures { (before : Before) → Holds self.now before → result ≡ is_one_too_many before (Ok setting.now) }
    {
        matches!(setting, Setting::File(_)) && self.payloads.len() >= PAYLOADS_MAX
    }

    fn set(&mut self, alloc: Global, setting: Setting) -> Result<(), Refused>
        requires { self.old.parts.opened.items ≡ [] }
        ensures { (before : Before) → Holds self.old before → is_fresh before.settings setting ≡ true → Answers None (with_setting before (Ok setting)) self.new result }
    {
        match setting {
            Setting::Peers(peers) => {
                self.parts.grow(alloc, peers)?;
                self.settings.peers = Some(peers);
            }
            Setting::Wish(size, value) => self.settings.wish(size, value),
            Setting::Capabilities(caps) => self.settings.caps = Some(caps),
            Setting::Selective => self.settings.is_selective = true,
            Setting::File(payload) => self.payloads.push(payload)?,
        }
        Ok(())
    }

    /// Takes a `peer` line.
    #[tactic(auto, unfolding(fab_grammar::specs::Rules::peer_rules))]
    fn take_peer(&mut self, number: u32, args: &mut Words) -> Result<(), Refused>
        ensures { (before : Before) → Holds self.old before →
            Answers (first_of (peer_rules before number args.old)) (with_peer before (peer_of args.old)) self.new result }
    {
        if self.is_again(args) {
            return Err(Refused::Why(Why::Twice));
        }
        let peer = read_peer(args)?;
        if !self.parts.has(peer) {
            return Err(Refused::Why(Why::Peer));
        }
        in_time(number)?;
        self.parts.open(peer)?;
        Ok(())
    }

    /// Whether the line names a peer that is opened.
    fn is_again(&self, args: &Words) -> bool
        ensures { result ≡ is_again self.now.parts.opened.items args.now }
    {
        args.again()
            .next()
            .and_then(|word| number(word))
            .is_some_and(|peer| self.parts.is_opened(peer))
    }

    /// Takes a line that a peer does.
    #[tactic(auto, unfolding(fab_grammar::specs::Rules::call_rules))]
    fn take_call(
        &mut self,
        alloc: Global,
        api: Api,
        number: u32,
        verb: Verb,
        args: &mut Words,
    ) -> Result<(), Refused>
        ensures { (before : Before) → Holds self.old before →
            Answers (first_of (call_rules api before number verb args.old)) (with_call before number (op_of (most_bytes api) verb args.old)) self.new result }
    {
        if !self.parts.has_opened() {
            return Err(Refused::Why(Why::Order));
        }
        let op = read_op(alloc, most_bytes(api), verb, args)??;
        // One way out while the line is alive, and not two: each drops it, kind by kind.
        if is_late(number) || self.parts.is_too_much(api, &op) {
            return Err(Refused::Why(Why::Limit));
        }
        self.parts.add(Line { number, op })?;
        Ok(())
    }
}

/// A script has at most 100,000 lines.
fn is_late(number: u32) -> bool
    ensures { result ≡ is_late number }
{
    number > LINES_MAX
}

fn in_time(number: u32) -> Result<(), Refused>
    ensures { MatchResult result (λ _. is_late number ≡ false) (λ e. (is_late number ≡ true) × (e ≡ Because Limit)) }
{
    if is_late(number) {
        Err(Refused::Why(Why::Limit))
    } else {
        Ok(())
    }
}

fn has_id(payloads: &[Payload], id: u64) -> bool
    ensures { result ≡ list_any (λ p. p.id == id) payloads.now }
{
    payloads.iter().any(|payload| payload.id == id)
}

/// Whether the provider does not grant the capabilities.
fn is_refused(api: Api, setting: &Setting) -> bool
    ensures { result ≡ is_refused api (Ok setting.now) }
{
    match setting {
        Setting::Capabilities(caps) => getinfo(api, Some(&asking(*caps))).is_err(),
        _ => false,
    }
}
