//! Rays from the smaller group of their pair to the larger.

ghost use Rattle.std.specs.Prelude.{◌≡◌};
ghost use Rattle.sight_names.specs.Ray.{IsInRange};
ghost use Rattle.pair_budget.specs.PairRays.{toward as ray_toward};

use pair_budget::Reached;
use sight_names::{Pair, PairRay};
use sight_ray::turn_round;

/// The ray of a group that the source found, from the smaller of the two to the larger.
pub fn toward(source: u16, reached: &Reached) -> PairRay
    requires { IsInRange reached.now.ray }
    ensures { result ≡ ray_toward source reached.now }
{
    if source < reached.to {
        PairRay {
            pair: Pair {
                a: source,
                b: reached.to,
            },
            ray: reached.ray,
        }
    } else {
        PairRay {
            pair: Pair {
                a: reached.to,
                b: source,
            },
            ray: turn_round(&reached.ray),
        }
    }
}
