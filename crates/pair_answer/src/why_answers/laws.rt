//! Laws of what `why` says.

ghost use Rattle.pair_answer.specs.WhyAnswers.Laws.{WhysAreOfBuilds};

/// What is said of a pair is what a build with the same budget says of it, and it tells whether the two sectors see each other.
pub fn whys_are_of_builds()
    ensures { WhysAreOfBuilds }
{}
