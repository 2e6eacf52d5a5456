//! What the rounds of each topology come to.
ghost use Rattle.fab_topology.specs.Begun.{AllBegun};
ghost use Rattle.fab_topology.specs.Laws.{AllHear, EachIsFound, EachIsFrom, EachIsHeard, EachIsOnce, EachIsTold, EachTiles, FewMessages};

/// For any number of ranks:
///
/// - `heard`: whom a rank tells in a round is another rank, which waits in this round for this message (`told`: and whom it hears tells it);
/// - `once`: no rank hears another in two rounds, so that a message's source tells its round: `round_from` finds it (`found`), and
///   no round in which the rank hears another, or none (`from`);
/// - `tiles`: the rounds follow one another without a gap: each tells of as many ranks as there are between it and the next, no more
///   than are heard of already, and the last one ends behind all;
/// - `all_hear`: after the last round each rank has heard, straight or by others, of each other, or of the root;
/// - `few`: by doubling a rank sends at most n messages where there are at most 2^n ranks.
pub fn law_rounds()
    ensures heard { EachIsHeard }
    ensures told { EachIsTold }
    ensures once { EachIsOnce }
    ensures found { EachIsFound }
    ensures from { EachIsFrom }
    ensures tiles { EachTiles }
    ensures all_hear { AllHear }
    ensures few { FewMessages }
{}

/// No rank is done before all have begun, or before the root has where one has something for all.
///
/// It is a law of runs in which a rank sends a message only once it has begun, and once those came that the message waits for
/// (`waits_for`). There, if a rank has begun and got the message of each round in which it hears, all have begun, or the root has.
pub fn law_begun()
    ensures begun { AllBegun }
{}
