//! What `why` and the picture of a pair tell of two sectors.

ghost use Rattle.run_laws.specs.Pairs.{DrawnPairIsRight, PairsAreDecided, WhyIsRight};

/// Where a `why` ended with Done, two sectors of whom its line says `sight` or `touch` see each other, and two of whom it says
/// `blind` don't. It says `listed` just where a build within the same budget lists the pair.
pub fn why_is_right()
    ensures { WhyIsRight }
{}

/// Where a `draw` of two sectors ended with Done, the picture under OUT tells the same of them, and what it shows as entered
/// encloses all that is seen.
pub fn drawn_pair_is_right()
    ensures { DrawnPairIsRight }
{}

/// Where no `--budget` stands among the words, neither tells that the two sectors are listed.
pub fn pairs_are_decided()
    ensures { PairsAreDecided }
{}
