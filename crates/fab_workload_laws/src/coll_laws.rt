//! The laws of the scripts that do rounds of collectives. The functions here do nothing: their contracts are the laws.

ghost use Rattle.fab_workload_laws.specs.CollLaws.{AreAnswered, AreSettled, BarriersHold, EachFolds, ElementsAreFolded, FilesAreWithin, HaveSizes, NoneIsAhead, NoneIsStuck, ResultsAreTold, TextIsTold};

/// Within the file's rules the script of the rounds is settled: it has one answer, in every interleaving (`settled`). It
/// is granted sizes of one or more (`sizes`).
pub fn law_rounds_settled()
    ensures settled { AreSettled }
    ensures sizes { HaveSizes }
{}

/// Its answer does all its lines (`answered`): a send and a receive come out well, and a wait takes the share that it
/// waits for (`results`). So wherever a lawful schedule comes to rest, all lines are done (`done`), and each rank makes of
/// its own share and of what it received what the round comes to (`folds`); the text made of that is the command's (`text`).
pub fn law_rounds_done()
    ensures answered { AreAnswered }
    ensures results { ResultsAreTold }
    ensures done { NoneIsStuck }
    ensures folds { EachFolds }
    ensures text { TextIsTold }
{}

/// At any moment of a replay, a rank that has done its last line of a round finds that each rank whose share it needs
/// has done all its lines of the rounds before and its send of this round to it (`ahead`): in a barrier that is every
/// other rank (`barrier`).
pub fn law_barriers()
    ensures ahead { NoneIsAhead }
    ensures barrier { BarriersHold }
{}

/// What an allreduce comes to, element by element: each element is that of rank 0's share, changed by those of ranks 1, 2
/// and so on in this order (fi_atomic(3)).
pub fn law_elements()
    ensures { ElementsAreFolded }
{}

/// What a file in the grammar spells is within its rules: so the other laws speak of every such file.
pub fn law_files()
    ensures { FilesAreWithin }
{}
