//! The optional words of a line.
ghost use Rattle.std.specs.Prelude.{◌≡◌, length, codes, option_copied};
ghost use Rattle.fab_grammar.specs.Options.{level_name, level_named, optional_of, allows, without, are_options, value_after, read_if, level_in, has_word, read_options, allowing};
ghost use Rattle.fab_words.specs.Words.{begins_with, read_number as a_number, read_index as an_index};

use fab_base::Level;
use fab_words::{Misread, Read, Words, both, is, read_index, read_number};

/// An optional word.
#[derive(Clone, Copy, Drop)]
pub enum Optional {
    Data,
    AtLevel(Level),
    Completion,
    Fence,
    Min,
}

/// The optional words that a line may have yet.
#[derive(Clone, Copy, Drop)]
pub struct Allowed {
    pub imm: bool,
    pub level: bool,
    pub completion: bool,
    pub fence: bool,
    pub min: bool,
}

/// What the optional words say.
#[derive(Clone, Copy, Drop)]
pub struct Options {
    pub imm: Option<u64>,
    pub level: Level,
    pub completion: bool,
    pub fence: bool,
    pub min: Option<u32>,
}

const LEVELS: [Level; 4] = [
    Level::Inject,
    Level::Transmit,
    Level::Delivery,
    Level::Match,
];

fn level_name(level: Level) -> &'static str
    ensures { result.now ≡ level_name level }
{
    match level {
        Level::Inject => "inject",
        Level::Transmit => "transmit",
        Level::Delivery => "delivery",
        Level::Match => "match",
    }
}

/// The completion level of this name (fi_cq(3), "Completion Event Semantics").
#[tactic(auto, unfolding(crate::specs::Options::level_named))]
fn level_named(word: &[u8]) -> Option<Level>
    ensures { result ≡ level_named word.now }
{
    LEVELS
        .iter()
        .copied()
        .find(|level| is(word, level_name(*level)))
}

/// The optional word that this is.
#[tactic(auto, unfolding(crate::specs::Options::optional_of))]
fn optional_of(word: &[u8]) -> Option<Optional>
    ensures { result ≡ optional_of word.now }
{
    if let Some(name) = word.strip_prefix(b"level=") {
        Some(Optional::AtLevel(level_named(name)?))
    } else if word.starts_with(b"data=") {
        Some(Optional::Data)
    } else if is(word, "completion") {
        Some(Optional::Completion)
    } else if is(word, "fence") {
        Some(Optional::Fence)
    } else if word.starts_with(b"min=") {
        Some(Optional::Min)
    } else {
        None
    }
}

impl Allowed {
    /// What a line may have.
    pub fn new(imm: bool, level: bool, completion: bool, fence: bool, min: bool) -> Allowed
        ensures { result ≡ allowing imm level completion fence min }
    {
        Allowed {
            imm,
            level,
            completion,
            fence,
            min,
        }
    }

    fn allows(self, word: Option<Optional>) -> bool
        ensures { result ≡ allows self word }
    {
        match word {
            Some(Optional::Data) => self.imm,
            Some(Optional::AtLevel(_)) => self.level,
            Some(Optional::Completion) => self.completion,
            Some(Optional::Fence) => self.fence,
            Some(Optional::Min) => self.min,
            None => false,
        }
    }

    /// Each stands at most once.
    fn without(mut self, word: Option<Optional>) -> Allowed
        ensures { result ≡ without self word }
    {
        match word {
            Some(Optional::Data) => self.imm = false,
            Some(Optional::AtLevel(_)) => self.level = false,
            Some(Optional::Completion) => self.completion = false,
            Some(Optional::Fence) => self.fence = false,
            Some(Optional::Min) => self.min = false,
            None => {}
        }
        self
    }

    /// Whether each word is one that the line may have, and none stands twice.
    fn are_options(self, args: &Words) -> bool
        ensures { result ≡ are_options self args.now }
    {
        let mut allowed = self;
        let mut words = args.again();
        while let Some(word) = words.next() {
            let optional = optional_of(word);
            if !allowed.allows(optional) {
                return false;
            }
            allowed = allowed.without(optional);
        }
        true
    }
}

/// What follows this front in the first word that begins with it.
fn value_after<'a>(front: &[u8], args: &Words<'a>) -> Option<&'a [u8]>
    ensures { option_copied result ≡ value_after front.now args.now }
{
    let mut words = args.again();
    while let Some(word) = words.next() {
        if let Some(value) = word.strip_prefix(front) {
            return Some(value);
        }
    }
    None
}

fn imm_in(args: &Words) -> Read<Option<u64>>
    ensures { result ≡ read_if a_number (value_after (codes "data=") args.now) }
{
    match value_after(b"data=", args) {
        Some(word) => Ok(Some(read_number(word)?)),
        None => Ok(None),
    }
}

fn min_in(args: &Words) -> Read<Option<u32>>
    ensures { result ≡ read_if an_index (value_after (codes "min=") args.now) }
{
    match value_after(b"min=", args) {
        Some(word) => Ok(Some(read_index(word)?)),
        None => Ok(None),
    }
}

/// The level: transmitted, where nothing else is said.
#[tactic(auto, unfolding(crate::specs::Options::level_in))]
fn level_in(args: &Words) -> Level
    ensures { result ≡ level_in args.now }
{
    match value_after(b"level=", args) {
        Some(word) => level_named(word).unwrap_or(Level::Transmit),
        None => Level::Transmit,
    }
}

/// Whether this is one of the words.
#[tactic(auto, unfolding(crate::specs::Options::has_word))]
fn has_word(name: &str, args: &Words) -> bool
    ensures { result ≡ has_word name.now args.now }
{
    let mut words = args.again();
    while let Some(word) = words.next() {
        if is(word, name) {
            return true;
        }
    }
    false
}

/// What the optional words say that are left of a line.
#[tactic(auto, unfolding(crate::specs::Options::read_options))]
pub(crate) fn read_options(allowed: Allowed, args: &Words) -> Read<Options>
    ensures { result ≡ read_options allowed args.now }
{
    if !allowed.are_options(args) {
        return Err(Misread::Words);
    }
    let level = level_in(args);
    let completion = has_word("completion", args);
    let fence = has_word("fence", args);
    both(imm_in(args), min_in(args)).map(|(imm, min)| Options {
        imm,
        level,
        completion,
        fence,
        min,
    })
}
