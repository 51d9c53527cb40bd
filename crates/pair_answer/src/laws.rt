//! Laws of the answer for two sectors.

ghost use Rattle.pair_answer.specs.Laws.{AnswersTellSight, AnswersAreOfBuilds, RaysAreOfSectors};

/// Sectors whose answer is a ray, or that touch, see each other; those whose answer is blind don't.
pub fn answers_tell_sight()
    ensures { AnswersTellSight }
{}

/// The answer is what a build with the same budget says of the pair: its bit is set exactly for blind, and it is listed
/// exactly for listed.
pub fn answers_are_of_builds()
    ensures { AnswersAreOfBuilds }
{}

/// In a map whose faces have one name each, the ray of an answer is a sight ray of the two sectors.
pub fn rays_are_of_sectors()
    ensures { RaysAreOfSectors }
{}
