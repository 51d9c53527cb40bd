//! Where a ray crosses a line, in thousandths of the map's own unit.

ghost use Rattle.std.specs.Prelude.{◌≡◌, ◌<◌, ◌≤◌, ◌+◌, ◌*◌, ◌^◌, unsigned_abs};
ghost use Rattle.sight_names.specs.Ray.{IsInRange};
ghost use Rattle.geom_exact.specs.Formulas.{AreOnTwoSides, side_value};
ghost use Rattle.map_picture.specs.Crossings.{crossing_spot as the_crossing_spot, thousandths_between as the_thousandths_between};

use crate::frame::{Frame, across, down};
use geom_exact::side_of;
use sight_names::{Pt, Ray};

/// A place in a picture: how far it is from the left edge and below the upper one, in thousandths of the map's own unit, cut down.
#[derive(Clone, Copy)]
pub struct Spot {
    pub across: u128,
    pub down: u128,
}

fn product(a: u64, b: u64) -> u128
    requires left { a ≤ 2 ^ 58 }
    requires right { b < 2 ^ 32 }
    ensures value { result ≡ a * b }
    ensures bound { result ≤ 2 ^ 90 }
{
    a as u128 * b as u128
}

/// 1,000 times the mean of `p` with weight `g` and `q` with weight `f`, cut down.
fn thousandths_between(f: u64, g: u64, p: u64, q: u64) -> u128
    requires first { f ≤ 2 ^ 58 }
    requires second { g ≤ 2 ^ 58 }
    requires weighed { 0 < f + g }
    requires p { p < 2 ^ 32 }
    requires q { q < 2 ^ 32 }
    ensures { result ≡ the_thousandths_between f g p q }
{
    let sum = product(g, p) + product(f, q);
    1000 * sum / (f + g) as u128
}

/// How far the point is from the ray, times a length that the ray has.
fn distance(ray: &Ray, p: Pt) -> u64
    requires { IsInRange ray.now }
    ensures value { result ≡ unsigned_abs (side_value ray.now p) }
    ensures bound { result ≤ 2 ^ 58 }
{
    side_of(ray, p).unsigned_abs()
}

/// Where the ray crosses the segment from `p` to `q`.
pub fn crossing_spot(frame: Frame, ray: &Ray, p: Pt, q: Pt) -> Spot
    requires range { IsInRange ray.now }
    requires sides { AreOnTwoSides (side_value ray.now p) (side_value ray.now q) }
    ensures { result ≡ the_crossing_spot frame ray.now p q }
{
    let from = distance(ray, p);
    let to = distance(ray, q);
    Spot {
        across: thousandths_between(from, to, across(frame, p), across(frame, q)),
        down: thousandths_between(from, to, down(frame, p), down(frame, q)),
    }
}
