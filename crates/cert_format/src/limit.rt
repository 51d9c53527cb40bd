//! How many triangles, or groups, a certificate may have.

ghost use Rattle.std.specs.Prelude.{◌≡◌};
ghost use Rattle.sight_names.specs.Limits.{most_triangles};

use sight_names::{MOST_TRIANGLES, USUAL_TRIANGLES};

/// The triangles, or the groups, of a certificate for a map of so many points, at most.
pub fn most_triangles(points: u16) -> usize
    ensures { result ≡ most_triangles points }
{
    MOST_TRIANGLES.min(USUAL_TRIANGLES.max(2 * points as usize))
}
