//! The first words of lines.
ghost use Rattle.std.specs.Prelude.{◌≡◌};
ghost use Rattle.fab_grammar.specs.Verbs.{name_of, verb_of, kind_of};

use fab_words::is;

/// The first word of a line, but for the header.
#[derive(Clone, Copy, Drop)]
pub enum Verb {
    Peers,
    Caps,
    Lane,
    Pool,
    Tx,
    Rx,
    Cq,
    Selective,
    Payload,
    Peer,
    Send,
    TSend,
    Inject,
    TInject,
    Recv,
    TRecv,
    MRecv,
    Peek,
    Claim,
    Discard,
    Take,
    DropClaimed,
    Cancel,
    Read,
    Write,
    WInject,
    Atomic,
    Fetch,
    Compare,
    Reg,
    Close,
    Put,
    Show,
    Insert,
    Remove,
    Wait,
    Count,
    Reach,
}

/// What a line with this verb is.
#[derive(Clone, Copy, Drop)]
pub enum VerbKind {
    Setting,
    /// `peer K`, which opens the lines of a peer.
    Peer,
    /// A line that a peer does.
    Call,
}

/// All verbs.
const VERBS: [Verb; 38] = [
    Verb::Peers,
    Verb::Caps,
    Verb::Lane,
    Verb::Pool,
    Verb::Tx,
    Verb::Rx,
    Verb::Cq,
    Verb::Selective,
    Verb::Payload,
    Verb::Peer,
    Verb::Send,
    Verb::TSend,
    Verb::Inject,
    Verb::TInject,
    Verb::Recv,
    Verb::TRecv,
    Verb::MRecv,
    Verb::Peek,
    Verb::Claim,
    Verb::Discard,
    Verb::Take,
    Verb::DropClaimed,
    Verb::Cancel,
    Verb::Read,
    Verb::Write,
    Verb::WInject,
    Verb::Atomic,
    Verb::Fetch,
    Verb::Compare,
    Verb::Reg,
    Verb::Close,
    Verb::Put,
    Verb::Show,
    Verb::Insert,
    Verb::Remove,
    Verb::Wait,
    Verb::Count,
    Verb::Reach,
];

impl Verb {
    /// The verb that is this word.
    #[tactic(auto, unfolding(crate::specs::Verbs::verb_of))]
    pub fn of(word: &[u8]) -> Option<Verb>
        ensures { result ≡ verb_of word.now }
    {
        VERBS.iter().copied().find(|verb| is(word, verb.name()))
    }

    pub fn kind(self) -> VerbKind
        ensures { result ≡ kind_of self }
    {
        match self {
            Verb::Peers
            | Verb::Caps
            | Verb::Lane
            | Verb::Pool
            | Verb::Tx
            | Verb::Rx
            | Verb::Cq
            | Verb::Selective
            | Verb::Payload => VerbKind::Setting,
            Verb::Peer => VerbKind::Peer,
            _ => VerbKind::Call,
        }
    }

    /// The verb as it is written.
    pub fn name(self) -> &'static str
        ensures { result.now ≡ name_of self }
    {
        match self {
            Verb::Peers => "peers",
            Verb::Caps => "caps",
            Verb::Lane => "lane",
            Verb::Pool => "pool",
            Verb::Tx => "tx",
            Verb::Rx => "rx",
            Verb::Cq => "cq",
            Verb::Selective => "selective",
            Verb::Payload => "payload",
            Verb::Peer => "peer",
            Verb::Send => "send",
            Verb::TSend => "tsend",
            Verb::Inject => "inject",
            Verb::TInject => "tinject",
            Verb::Recv => "recv",
            Verb::TRecv => "trecv",
            Verb::MRecv => "mrecv",
            Verb::Peek => "peek",
            Verb::Claim => "claim",
            Verb::Discard => "discard",
            Verb::Take => "take",
            Verb::DropClaimed => "drop",
            Verb::Cancel => "cancel",
            Verb::Read => "read",
            Verb::Write => "write",
            Verb::WInject => "winject",
            Verb::Atomic => "atomic",
            Verb::Fetch => "fetch",
            Verb::Compare => "compare",
            Verb::Reg => "reg",
            Verb::Close => "close",
            Verb::Put => "put",
            Verb::Show => "show",
            Verb::Insert => "insert",
            Verb::Remove => "remove",
            Verb::Wait => "wait",
            Verb::Count => "count",
            Verb::Reach => "reach",
        }
    }
}
