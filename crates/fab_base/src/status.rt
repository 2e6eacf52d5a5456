//! How a run ends, and why a script is refused.
use crate::buffers::Text;

/// Why a script's line is refused, in the order in which the reasons are looked at.
#[derive(Clone, Copy, Debug, Drop, Eq, PartialEq)]
pub enum Why {
    /// A byte outside 32 to 126 that is no tab.
    NotText,
    /// The first line is not `fabric 1`.
    Header,
    /// The first word is no verb and no setting.
    Verb,
    /// A setting after the first `peer`, or another line before it.
    Order,
    /// A setting or a peer for the second time.
    Twice,
    /// A wrong number of words, or a word of wrong form.
    Words,
    /// A word in a number's place is no number.
    Number,
    /// A peer that is not below `peers`.
    Peer,
    /// A limit is passed.
    Limit,
    /// The capabilities asked for are not granted.
    NoData,
    /// There is no `peers` line.
    Missing,
    /// A `file:` word goes beyond its file.
    FileRange,
}

/// How a run ends. The text is written whole at `Done` and `Stuck`, in part at `WriteFault`, and not
/// at all otherwise.
#[derive(Debug, Drop, Eq, PartialEq)]
pub enum Status {
    /// The command was carried out.
    Done,
    /// No peer can go on, and some line is not done.
    Stuck,
    /// The words are not a command.
    Usage,
    /// The script breaks the grammar at this line, numbered from 1, for this reason.
    ScriptRefused { line: u32, why: Why },
    /// The file of this name has more than 67,108,864 bytes.
    TooLong { name: Text },
    /// The file of this name could not be read.
    ReadFault { name: Text },
    /// The output could not be written.
    WriteFault,
    /// Want of memory.
    NoMemory,
}
