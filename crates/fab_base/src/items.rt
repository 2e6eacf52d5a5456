//! Items: what one peer sends to another as a whole (fi_msg(3), fi_tagged(3), fi_rma(3), fi_atomic(3)).
ghost use Rattle.std.specs.Prelude.{◌≡◌, ◌≤◌};
ghost use Rattle.fab_base.specs.Elements.{element_size, is_of_form};
ghost use Rattle.fab_base.specs.Kinds.{at_delivery, at_match, is_answered, is_base, is_message, is_read_only, is_tagged, refusal_of};
ghost use Rattle.fab_base.specs.Replies.{at_either};

use crate::buffers::Buf;
use crate::entries::ErrKind;

/// What an item is: a message, a request to the target's memory, or the reply to either.
#[derive(Clone, Copy, Drop, Eq, PartialEq)]
pub enum Kind {
    /// An untagged message, fi_msg(3).
    Msg,
    /// A tagged message, fi_tagged(3).
    TagMsg,
    /// A remote write, fi_rma(3).
    WriteReq,
    /// A remote read, fi_rma(3).
    ReadReq,
    /// An atomic operation, fi_atomic(3).
    AtomicReq,
    /// The answer to a request, or to a message that asked for one.
    Reply,
}

impl Kind {
    /// Whether it is a tagged message.
    pub fn is_tagged(self) -> bool
        ensures { result ≡ is_tagged self }
    {
        match self {
            Kind::TagMsg => true,
            _ => false,
        }
    }

    /// Whether it is a message.
    pub fn is_message(self) -> bool
        ensures { result ≡ is_message self }
    {
        match self {
            Kind::Msg | Kind::TagMsg => true,
            Kind::WriteReq | Kind::ReadReq | Kind::AtomicReq | Kind::Reply => false,
        }
    }
}

/// When the target owes a reply to a message: never, when it is delivered, or when a receive took it
/// (FI_DELIVERY_COMPLETE, FI_MATCH_COMPLETE of fi_cq(3)).
#[derive(Clone, Copy, Drop, Eq, PartialEq)]
pub enum Ack {
    Nothing,
    Delivery,
    Match,
}

impl Ack {
    /// Whether a reply is due once the message is delivered.
    pub fn at_delivery(self) -> bool
        ensures { result ≡ at_delivery self }
    {
        match self {
            Ack::Delivery => true,
            Ack::Nothing | Ack::Match => false,
        }
    }

    /// Whether a reply is due once a receive has taken the message.
    pub fn at_match(self) -> bool
        ensures { result ≡ at_match self }
    {
        match self {
            Ack::Match => true,
            Ack::Nothing | Ack::Delivery => false,
        }
    }

    /// Whether a reply is due at either.
    pub fn at_either(self) -> bool
        ensures { result ≡ at_either self }
    {
        match self {
            Ack::Delivery | Ack::Match => true,
            Ack::Nothing => false,
        }
    }
}

/// What became of a request at its target.
#[derive(Clone, Copy, Drop, Eq, PartialEq)]
pub enum Outcome {
    Done,
    BadKey,
    BadAccess,
    BadRange,
}

impl Outcome {
    /// The error that tells it, and none where it is done.
    pub fn refusal(self) -> Option<ErrKind>
        ensures { result ≡ refusal_of self }
    {
        match self {
            Outcome::Done => None,
            Outcome::BadKey => Some(ErrKind::NoKey),
            Outcome::BadAccess => Some(ErrKind::Access),
            Outcome::BadRange => Some(ErrKind::Range),
        }
    }
}

/// The operation of an atomic, fi_atomic(3). Sums and products wrap; the logical ones give 1 or 0. The comparing ones have the compare
/// c on the left of the target's element t: `CswapLe` writes where c <= t, and so on; `Mswap` gives (b and c) or (t and not c).
#[derive(Clone, Copy, Drop, Eq, PartialEq)]
pub enum AtomicOp {
    Min,
    Max,
    Sum,
    Prod,
    Lor,
    Land,
    Lxor,
    Bor,
    Band,
    Bxor,
    AtomicRead,
    AtomicWrite,
    Cswap,
    CswapNe,
    CswapLe,
    CswapLt,
    CswapGe,
    CswapGt,
    Mswap,
}

impl AtomicOp {
    /// Whether the operation may be asked for in this form (fi_atomic(3)).
    pub fn is_of_form(self, form: Form) -> bool
        ensures { result ≡ is_of_form self form }
    {
        match self {
            AtomicOp::AtomicRead => match form {
                Form::Fetch => true,
                Form::Base | Form::Compare => false,
            },
            AtomicOp::Cswap
            | AtomicOp::CswapNe
            | AtomicOp::CswapLe
            | AtomicOp::CswapLt
            | AtomicOp::CswapGe
            | AtomicOp::CswapGt
            | AtomicOp::Mswap => match form {
                Form::Compare => true,
                Form::Base | Form::Fetch => false,
            },
            _ => match form {
                Form::Compare => false,
                Form::Base | Form::Fetch => true,
            },
        }
    }
}

/// The type of an element: an integer of 8 to 64 bits, signed or not.
#[derive(Clone, Copy, Drop, Eq, PartialEq)]
pub enum Num {
    I8,
    I16,
    I32,
    I64,
    U8,
    U16,
    U32,
    U64,
}

impl Num {
    /// How many bytes an element of this type has.
    pub fn element_size(self) -> usize
        ensures size { result ≡ element_size self }
        ensures low { 1 ≤ result }
        ensures high { result ≤ 8 }
    {
        match self {
            Num::I8 | Num::U8 => 1,
            Num::I16 | Num::U16 => 2,
            Num::I32 | Num::U32 => 4,
            Num::I64 | Num::U64 => 8,
        }
    }
}

/// The form of an atomic: without a result, with the old elements as its result, or comparing first.
#[derive(Clone, Copy, Drop, Eq, PartialEq)]
pub enum Form {
    Base,
    Fetch,
    Compare,
}

/// The atomic that a request asks for.
#[derive(Clone, Copy, Drop, Eq, PartialEq)]
pub struct Atom {
    pub op: AtomicOp,
    pub num: Num,
    pub form: Form,
}

/// All of an item but its bytes. A field that a kind does not use is 0, `None`, `Nothing` or `Done`.
#[derive(Clone, Copy, Drop, Eq, PartialEq)]
pub struct ItemHead {
    pub kind: Kind,
    /// The number of the initiator's operation, from 0, below 2^62. A reply has that of the
    /// operation that it answers.
    pub op: u64,
    pub tag: u64,
    /// The remote data (FI_REMOTE_CQ_DATA).
    pub imm: Option<u64>,
    pub ack: Ack,
    /// The region's key.
    pub key: u64,
    /// The offset from the region's start, in bytes.
    pub at: u64,
    /// How many bytes a read asks for, or an atomic reaches.
    pub count: u32,
    pub atom: Option<Atom>,
    pub outcome: Outcome,
    /// How many bytes the item has.
    pub total: u32,
}

impl ItemHead {
    /// Whether the atomic has no result.
    pub fn is_base(&self) -> bool
        ensures { result ≡ is_base self.now.atom }
    {
        match self.atom {
            None => true,
            Some(atom) => match atom.form {
                Form::Base => true,
                Form::Fetch | Form::Compare => false,
            },
        }
    }

    /// Whether the atomic changes nothing (FI_ATOMIC_READ).
    pub fn is_read_only(&self) -> bool
        ensures { result ≡ is_read_only self.now.atom }
    {
        match self.atom {
            None => false,
            Some(atom) => match atom.op {
                AtomicOp::AtomicRead => true,
                _ => false,
            },
        }
    }

    /// Whether the reply has bytes: that of a read, and of a fetching or comparing atomic.
    pub fn is_answered(&self) -> bool
        ensures { result ≡ is_answered self.now }
    {
        match self.kind {
            Kind::ReadReq => true,
            Kind::AtomicReq => !self.is_base(),
            Kind::Msg | Kind::TagMsg | Kind::WriteReq | Kind::Reply => false,
        }
    }
}

/// An item with its bytes. Those of an atomic are the operand followed by the compare.
#[derive(Drop)]
pub struct Item {
    pub head: ItemHead,
    pub bytes: Buf,
}

/// The rights that a region gives to other peers (FI_REMOTE_READ, FI_REMOTE_WRITE of fi_mr(3)).
#[derive(Clone, Copy, Debug, Drop, Eq, PartialEq)]
pub struct Access {
    pub remote_read: bool,
    pub remote_write: bool,
}

/// What a receive asks of a message (fi_tagged(3)): tagged or untagged, the tag in every bit where
/// `ignore` is 0, and the peer that it comes from, where one is named.
#[derive(Clone, Copy, Drop, Eq, PartialEq)]
pub struct Want {
    pub tagged: bool,
    pub tag: u64,
    pub ignore: u64,
    pub source: Option<u32>,
}

/// What a message shows of itself to the receives that may take it: tagged or untagged, its tag, and
/// the peer that it comes from.
#[derive(Clone, Copy, Drop, Eq, PartialEq)]
pub struct Sign {
    pub tagged: bool,
    pub tag: u64,
    pub source: u32,
}
