//! The laws of the definitions. A function here does nothing: its contract is the law.

ghost use Rattle.fab_model.specs.Laws.{
  BoundReportTellsSchedule,
  EveryOrderEndsAlike,
  LawfulIsReached,
  LawfulReportTellsSchedule,
  ReportTellsSchedule,
  TheReplayIsAnOrder,
};

/// Every order of turns leads to the same end.
///
/// Peers take the steps of a schedule in turns, each its own steps in their order, and each step
/// when its condition holds. Whoever of those that can takes the next turn, at the end all states
/// and all steps left over are the same, and the replay is one of these orders. So a schedule is
/// lawful exactly where some order of turns takes all its steps, and every such order ends in the
/// states that the replay ends in. This holds for every bound script and every schedule.
pub fn law_l5()
    ensures alike { EveryOrderEndsAlike }
    ensures replay { TheReplayIsAnOrder }
    ensures lawful { LawfulIsReached }
{}

/// A report tells its schedule.
///
/// The trace lines of a report, read back, are the schedule from which it was made, whatever
/// entries, results and numbers stand in its other lines. The schedule has one list of steps for
/// each peer, and the numbers in its steps have at most 64 digits, since no more are written. A
/// lawful schedule of a bound script has only numbers of the script's peers.
pub fn law_l6()
    ensures any { ReportTellsSchedule }
    ensures bound { BoundReportTellsSchedule }
    ensures lawful { LawfulReportTellsSchedule }
{}
