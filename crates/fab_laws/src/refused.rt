//! Wrong traces that the laws refuse. A function here does nothing: its contract says of each trace, for
//! any messages, calls and contexts, that the law is false of it (`specs/Refused.antt`).

ghost use Rattle.fab_laws.specs.Refused.{
  CancelledInstead,
  ClosesEarly,
  FreedTwice,
  GotTwice,
  KeptBack,
  LeavesGap,
  LeftOver,
  LostInside,
  NeverTold,
  OtherContext,
  OtherMessage,
  Overlaps,
  ReleasedEarly,
  Repeated,
  SlipsAway,
  StaysOpen,
  Swapped,
  SwappedParts,
  ToldTwice,
  Unarrived,
  Unclaimed,
  Vanishes,
  WrongUsed,
};

/// What the law of streams refuses.
///
/// Items that arrive in another order (`swapped`), or twice (`repeated`); one that is whole and did not
/// arrive (`unarrived`); one that at rest has arrived and is not whole (`left`).
pub fn refused_streams()
    ensures swapped { Swapped }
    ensures repeated { Repeated }
    ensures unarrived { Unarrived }
    ensures left { LeftOver }
{}

/// What the law of claims refuses.
///
/// A take under another context (`context`); one message taken and then dropped (`twice`); a take of what
/// was not claimed (`unclaimed`); a claimed message that goes by no call (`slips`), or is gone
/// (`vanishes`); an entry of a take that tells another message than it took (`other`).
pub fn refused_claims()
    ensures context { OtherContext }
    ensures twice { FreedTwice }
    ensures unclaimed { Unclaimed }
    ensures slips { SlipsAway }
    ensures vanishes { Vanishes }
    ensures other { OtherMessage }
{}

/// What the law of receives refuses.
///
/// A receive that got a message and ends cancelled (`cancelled`), or with no entry at all (`untold`); one
/// message that two receives got (`twice`); one that arrived and is nowhere (`lost`).
pub fn refused_receives()
    ensures cancelled { CancelledInstead }
    ensures untold { NeverTold }
    ensures twice { GotTwice }
    ensures lost { LostInside }
{}

/// What the law of buffers for many messages refuses.
///
/// Two messages at one place (`overlaps`); a first message that does not stand at the first byte (`gap`);
/// a receive that stays open with fewer than its least free bytes (`open`), or takes no more though it has
/// as many (`early`). A buffer that comes back with a part at the place of another (`swapped`), or before its
/// message is whole (`unwhole`), or that does not come back though all is whole (`kept`); one that is said to
/// have nothing given away though a message stands in it (`used`); one message with two entries (`twice`).
pub fn refused_multi()
    ensures overlaps { Overlaps }
    ensures gap { LeavesGap }
    ensures open { StaysOpen }
    ensures early { ClosesEarly }
    ensures swapped { SwappedParts }
    ensures unwhole { ReleasedEarly }
    ensures kept { KeptBack }
    ensures used { WrongUsed }
    ensures twice { ToldTwice }
{}
