//! Why there is no chart.
use fab_base::{NoMemory, Text, Why};
use fab_script::ParseRefused;
use std::io;

/// Why there is no chart.
#[derive(Drop)]
pub enum NotDrawn {
    /// The report is not that of a lawful run: this is the checker's line.
    Unlawful(String),
    /// The words are not two files.
    Usage,
    /// The script is refused at this line, for this reason.
    Script { line: u32, why: Why },
    /// This file could not be read.
    Unread(Text),
    Unwritten,
    NoMemory,
}

impl From<NoMemory> for NotDrawn {
    ghost use Rattle.std.specs.Prelude.{◌≡◌};
    ghost use Rattle.report_chart.specs.declared.not_drawn.NotDrawn.{NotDrawn};

    ghost from_gives = { λ _ refused. refused ≡ NotDrawn.NoMemory };

    fn from(_error: NoMemory) -> NotDrawn {
        NotDrawn::NoMemory
    }
}

impl From<ParseRefused> for NotDrawn {
    fn from(refused: ParseRefused) -> NotDrawn {
        match refused {
            ParseRefused::Script { line, why } => NotDrawn::Script { line, why },
            ParseRefused::NoMemory => NotDrawn::NoMemory,
        }
    }
}

impl NotDrawn {
    /// The exit status.
    pub fn code(&self) -> u8 {
        match self {
            NotDrawn::Unlawful(_) => 1,
            NotDrawn::Usage => 2,
            NotDrawn::Script { .. } => 3,
            NotDrawn::Unread(_) => 5,
            NotDrawn::Unwritten => 6,
            NotDrawn::NoMemory => 7,
        }
    }

    /// Writes the line on standard error.
    pub fn tell<R: Eprint>(&self, rt: &R) -> io::Result<()> {
        match self {
            NotDrawn::Unlawful(line) => eprint!(rt; "{}", line),
            NotDrawn::Usage => eprintln!(rt; "usage: report_chart FILE TRACE"),
            NotDrawn::Script { line, why } => eprintln!(rt;
                "script refused at line {}: {:?}",
                line, why
            ),
            NotDrawn::Unread(name) => eprintln!(rt; "read fault: {}", name.as_str()),
            NotDrawn::Unwritten => eprintln!(rt; "write fault"),
            NotDrawn::NoMemory => eprintln!(rt; "out of memory"),
        }
    }
}
