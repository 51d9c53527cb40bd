//! A law of the words.

ghost use Rattle.order_words.specs.Laws.{AsksWithoutBound};

/// Where no `--budget` stands among the words, `why` and the picture of two sectors decide them without a bound.
pub fn two_are_decided()
    ensures { AsksWithoutBound }
{}
