//! Why a script was not read.
ghost use Rattle.std.specs.Prelude.{◌≡◌};
ghost use Rattle.fab_script.specs.declared.refused.ParseRefused.TheVariants.{NoMemory as OutOfMemory};
ghost use Rattle.fab_script.specs.declared.refused.Refused.TheVariants.{NoMemory as LineOutOfMemory, Why as Because};
ghost use Rattle.fab_grammar.specs.Rules.{why_from};

use fab_base::Why;
use fab_words::Misread;
use std::alloc::{AllocError, AllocFailed};

/// Why `parse` gives no script.
#[derive(Debug, Drop)]
pub enum ParseRefused {
    /// The text is not in the grammar. `line` is the first line that breaks a rule, numbered from 1
    /// (0 where the file has no line with words), and `why` is the first rule that it breaks.
    Script { line: u32, why: Why },
    /// Want of memory. Nothing is known of the text.
    NoMemory,
}

impl From<fab_base::NoMemory> for ParseRefused {
    ghost from_gives = { λ _ e. e ≡ OutOfMemory };

    fn from(_error: fab_base::NoMemory) -> ParseRefused {
        ParseRefused::NoMemory
    }
}

impl From<AllocError> for ParseRefused {
    ghost from_gives = { λ _ e. e ≡ OutOfMemory };

    fn from(_error: AllocError) -> ParseRefused {
        ParseRefused::NoMemory
    }
}

impl<T: Drop> From<AllocFailed<T>> for ParseRefused {
    ghost from_gives = { λ _ e. e ≡ OutOfMemory };

    fn from(_error: AllocFailed<T>) -> ParseRefused {
        ParseRefused::NoMemory
    }
}

/// Why a line is not taken.
#[derive(Debug, Drop)]
pub(crate) enum Refused {
    /// The line breaks a rule.
    Why(Why),
    NoMemory,
}

impl From<fab_base::NoMemory> for Refused {
    ghost from_gives = { λ _ e. e ≡ LineOutOfMemory };

    fn from(_error: fab_base::NoMemory) -> Refused {
        Refused::NoMemory
    }
}

impl<T: Drop> From<AllocFailed<T>> for Refused {
    ghost from_gives = { λ _ e. e ≡ LineOutOfMemory };

    fn from(_error: AllocFailed<T>) -> Refused {
        Refused::NoMemory
    }
}

impl From<Misread> for Refused {
    ghost from_gives = { λ fault e. e ≡ Because (why_from fault) };

    fn from(fault: Misread) -> Refused {
        Refused::Why(match fault {
            Misread::Words => Why::Words,
            Misread::Number => Why::Number,
            Misread::Limit => Why::Limit,
        })
    }
}
