//! The laws of the scripts that workloads run. The functions here do nothing: their contracts are the laws.

ghost use Rattle.fab_workload_laws.specs.Laws.{AreAnswered, AreSettled, HaveSizes, NoneIsStuck};

/// Within the ranges of the commands, the script of every workload is settled, whatever its file has: it has one answer,
/// in every interleaving (`settled`). It is granted a size of one or more of operations under way and of entries unread
/// (`sizes`).
pub fn law_workloads_settled()
    ensures settled { AreSettled }
    ensures sizes { HaveSizes }
{}

/// Within the ranges of the commands, the answer of every workload's script does all its lines (`answered`). So wherever
/// a lawful schedule comes to rest, all lines are done: no workload gets stuck (`done`).
pub fn law_workloads_done()
    ensures answered { AreAnswered }
    ensures done { NoneIsStuck }
{}
