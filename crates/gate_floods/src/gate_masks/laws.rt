//! What the masks are to a certificate that lists no pair, whatever the map.

ghost use Rattle.gate_floods.specs.GateMasks.Behind.{MasksAreFoundBehind};
ghost use Rattle.gate_floods.specs.GateMasks.Laws.{MasksAreThoseOfClaims};

/// Where the rows have the bits of what the rays of a certificate join, the masks are those of the certificate's
/// claims.
pub fn masks_are_those_of_claims()
    ensures { MasksAreThoseOfClaims }
{}

/// A half-edge of a good mesh finds the mask of the portal by which one enters it, and none where that is no gate.
pub fn masks_are_found_behind()
    ensures { MasksAreFoundBehind }
{}
