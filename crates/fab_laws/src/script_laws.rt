//! The laws as they speak of scripts. A function here does nothing: its contract is the law.
//!
//! Each follows from the law of the same number in `laws`, which is about any program, since scripts
//! are programs (`law_scripts`). It is about every bound script, every order of turns in which each
//! step stands when it is taken, and every moment on the way; what its peers did is told by the steps
//! of these turns (`specs/ScriptLaws.antt`). `law_moments` says that the moments of the replay of a
//! schedule, lawful or not, are among these.

ghost use Rattle.fab_laws.specs.ScriptLaws.{
  AllIsTaken,
  AllWaitAtMatch,
  AnsweredOnce,
  ArrivedIsFirst,
  ArrivedIsPosted,
  ClosesInTime,
  EntriesTell,
  FencesHold,
  FreedRightly,
  GoesOnce,
  GoneInOrder,
  GotIsTold,
  GotRightly,
  ItemsAreOfCalls,
  ItemsAreSized,
  LostIsPutAway,
  NoneIsLost,
  NonePassedOver,
  NoStray,
  NothingIsHeldBack,
  NumbersComplete,
  OneFinalCompletion,
  OneTells,
  PartsStand,
  PastTellsState,
  PlacesFollow,
  ReceivesTell,
  ReleasesInTime,
  ReleasesTell,
  ServedInOrder,
  StaysClaimed,
  TakenInOrder,
  TakenIsFirst,
  TakenIsPosted,
  TakesTell,
  TellsOnce,
  TookIsTold,
  WholeHasArrived,
};

/// A posted receive never passes over an arrival.
pub fn script_l1()
    ensures passed { NonePassedOver }
{}

/// Receives are served in the order posted.
pub fn script_l2()
    ensures served { ServedInOrder }
{}

/// Arrivals are matched in the order of arrival.
pub fn script_l3()
    ensures taken { TakenInOrder }
{}

/// Each accepted operation has one final completion.
pub fn script_l4()
    ensures once { OneFinalCompletion }
    ensures numbers { NumbersComplete }
{}

/// Fences hold.
pub fn script_l7()
    ensures fenced { FencesHold }
    ensures order { GoneInOrder }
    ensures told { ItemsAreOfCalls }
    ensures rest { NothingIsHeldBack }
{}

/// No reply is stray.
pub fn script_no_stray()
    ensures stray { NoStray }
    ensures once { AnsweredOnce }
    ensures waits { AllWaitAtMatch }
{}

/// What a receiver took of a sender is the first of what the sender posted to it.
pub fn script_streams()
    ensures sent { TakenIsFirst }
    ensures posted { TakenIsPosted }
    ensures arrived { ArrivedIsFirst }
    ensures asked { ArrivedIsPosted }
    ensures behind { WholeHasArrived }
    ensures rest { AllIsTaken }
{}

/// A completed receive has its message.
pub fn script_messages()
    ensures entries { EntriesTell }
    ensures receives { ReceivesTell }
    ensures sized { ItemsAreSized }
{}

/// A claimed message goes only to a call under the context of its claim.
pub fn script_claims()
    ensures freed { FreedRightly }
    ensures stays { StaysClaimed }
    ensures lost { LostIsPutAway }
    ensures takes { TakesTell }
{}

/// What a receive got it completes with, and no message is lost.
pub fn script_receives()
    ensures got { GotIsTold }
    ensures took { TookIsTold }
    ensures only { OneTells }
    ensures once { GoesOnce }
    ensures all { NoneIsLost }
{}

/// The messages of a buffer for many messages follow one another, and stand in it as it comes back.
pub fn script_multi()
    ensures places { PlacesFollow }
    ensures closes { ClosesInTime }
    ensures parts { PartsStand }
    ensures released { ReleasesTell }
    ensures back { ReleasesInTime }
    ensures each { TellsOnce }
{}

/// What the history words of matching say of the states.
pub fn script_history()
    ensures got { GotRightly }
    ensures state { PastTellsState }
{}
