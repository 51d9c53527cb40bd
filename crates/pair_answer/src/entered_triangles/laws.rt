//! What the triangles that sight enters say of points and sectors.

ghost use Rattle.pair_answer.specs.EnteredTriangles.Laws.{SightStaysWithin, UnseenIsNotEntered};

/// Whatever one sees from a point of a triangle of a source, past no solid line, lies in a triangle of that source or in
/// one that sight out of the sources enters.
pub fn sight_stays_within()
    ensures { SightStaysWithin }
{}

/// No triangle of a sector that no source sees is entered.
pub fn unseen_is_not_entered()
    ensures { UnseenIsNotEntered }
{}
