//! Sums and products whose sizes are known.

ghost use Rattle.std.specs.Prelude.{◌≡◌, ◌-ℤ◌, ◌+ℤ◌, ◌*ℤ◌, pos, ◌≤◌, ◌+◌, ◌^◌, nat_abs};

use sight_names::Pt;

/// `a - b`, of two coordinates.
pub fn minus(a: i32, b: i32) -> i32
    requires left { nat_abs a ≤ 2 ^ 25 }
    requires right { nat_abs b ≤ 2 ^ 25 }
    ensures value { result ≡ a -ℤ b }
    ensures bound { nat_abs result ≤ 2 ^ 26 }
{
    a - b
}

/// `a * b`, for a difference of coordinates and a coordinate or a difference.
pub fn times(a: i32, b: i32) -> i64
    requires left { nat_abs a ≤ 2 ^ 26 }
    requires right { nat_abs b ≤ 2 ^ 26 }
    ensures value { result ≡ a *ℤ b }
    ensures bound { nat_abs result ≤ 2 ^ 52 }
{
    a as i64 * b as i64
}

/// `a - b`, for two such products.
pub fn less(a: i64, b: i64) -> i64
    requires left { nat_abs a ≤ 2 ^ 52 }
    requires right { nat_abs b ≤ 2 ^ 52 }
    ensures value { result ≡ a -ℤ b }
    ensures bound { nat_abs result ≤ 2 ^ 53 }
{
    a - b
}

/// `a * x`, for a difference of coordinates and a coordinate.
pub fn scaled(a: i32, x: i32) -> i64
    requires left { nat_abs a ≤ 2 ^ 26 }
    requires right { nat_abs x ≤ 2 ^ 25 }
    ensures value { result ≡ a *ℤ x }
    ensures bound { nat_abs result ≤ 2 ^ 51 }
{
    a as i64 * x as i64
}

/// `a * x + b * y` at a point.
pub fn level(a: i32, b: i32, p: Pt) -> i64
    requires left { nat_abs a ≤ 2 ^ 26 }
    requires right { nat_abs b ≤ 2 ^ 26 }
    ensures value { result ≡ a *ℤ p.x +ℤ b *ℤ p.y }
    ensures bound { nat_abs result ≤ 2 ^ 52 }
{
    scaled(a, p.x) + scaled(b, p.y)
}

/// Twice `a - b`.
pub fn doubled(a: i32, b: i32) -> i32
    requires left { nat_abs a ≤ 2 ^ 26 }
    requires right { nat_abs b ≤ 2 ^ 26 }
    ensures value { result ≡ pos 2 *ℤ (a -ℤ b) }
    ensures bound { nat_abs result ≤ 2 ^ 28 }
{
    2 * (a - b)
}

/// Twice `c - d`, and a shift.
pub fn shifted(c: i64, d: i64, shift: i64) -> i64
    requires left { nat_abs c ≤ 2 ^ 52 }
    requires right { nat_abs d ≤ 2 ^ 52 }
    requires small { nat_abs shift ≤ 1 }
    ensures value { result ≡ pos 2 *ℤ (c -ℤ d) +ℤ shift }
    ensures bound { nat_abs result ≤ 2 ^ 54 + 1 }
{
    2 * (c - d) + shift
}

/// `-a`.
pub fn opposite(a: i32) -> i32
    requires { nat_abs a ≤ 2 ^ 26 }
    ensures value { result ≡ pos 0 -ℤ a }
    ensures bound { nat_abs result ≤ 2 ^ 26 }
{
    -a
}
