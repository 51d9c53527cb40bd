//! What an extreme line says of many points, one after the other: its values but for its constant.

ghost use Rattle.std.specs.Prelude.{◌≡◌, ◌+ℤ◌, ◌*ℤ◌, ◌≤◌, ◌^◌, nat_abs};

use geom_exact::extreme_lines::Extreme;
use sight_names::Pt;

/// The factors of a line's form, in the width of its values.
#[derive(Clone, Copy)]
pub struct Slope {
    pub a: i64,
    pub b: i64,
    pub ghost a_small: { nat_abs a ≤ 2 ^ 26 },
    pub ghost b_small: { nat_abs b ≤ 2 ^ 26 },
}

impl Slope {
    /// The factors of this line.
    #[inline(always)]
    pub fn of(line: &Extreme) -> Slope
        ensures a { result.a ≡ line.now.a }
        ensures b { result.b ≡ line.now.b }
    {
        Slope {
            a: line.a as i64,
            b: line.b as i64,
        }
    }

    /// The line's value at a point and its constant.
    // the point is lent, so that each of its coordinates is read alone
    #[inline(always)]
    pub fn level(&self, p: &Pt) -> i64
        ensures value { result ≡ self.now.a *ℤ p.now.x +ℤ self.now.b *ℤ p.now.y }
        ensures bound { nat_abs result ≤ 2 ^ 52 }
    {
        scaled(self.a, p.x) + scaled(self.b, p.y)
    }
}

/// `a * x`, for a difference of coordinates and a coordinate.
fn scaled(a: i64, x: i32) -> i64
    requires left { nat_abs a ≤ 2 ^ 26 }
    requires right { nat_abs x ≤ 2 ^ 25 }
    ensures value { result ≡ a *ℤ x }
    ensures bound { nat_abs result ≤ 2 ^ 51 }
{
    a * x as i64
}
