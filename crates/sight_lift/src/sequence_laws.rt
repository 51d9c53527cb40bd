//! Laws of sequences of portals: their order, their places, how many portals they have; and the lemmas behind them.

ghost use Rattle.sight_lift.specs.SequenceLaws.InOrder.{SequencesStandInOrder};

/// Over a good mesh the stabbable sequences of a source are finitely many. In their order they are one list, which tells
/// each one's place, what is found within a budget, and whether the source is spent.
pub fn sequences_stand_in_order()
    ensures { SequencesStandInOrder }
{}
