//! The line from a right end to a left end.

ghost use Rattle.std.specs.Prelude.{◌≡◌, ◌-ℤ◌, ◌+ℤ◌, ◌*ℤ◌, ◌<ℤ◌, pos, ◌≤◌, ◌^◌, nat_abs};
ghost use Rattle.plane_base.specs.Arrows.{cross, dot};
ghost use Rattle.geom_exact.specs.ExtremeLines.Differences.{difference};

use crate::extreme_lines::arith::{less, level, minus, times};
use sight_names::{EndAt, Pt};

/// The line from a right end to a left end at another point: `a * x + b * y - c` is above 0 on its left.
#[derive(Clone, Copy)]
pub struct Extreme {
    pub left: EndAt,
    pub right: EndAt,
    pub a: i32,
    pub b: i32,
    pub c: i64,
    pub ghost long: { pos 0 <ℤ dot (difference left.at right.at) (difference left.at right.at) },
    pub ghost a_is: { a ≡ right.at.y -ℤ left.at.y },
    pub ghost b_is: { b ≡ left.at.x -ℤ right.at.x },
    pub ghost c_is: { c ≡ a *ℤ right.at.x +ℤ b *ℤ right.at.y },
    pub ghost a_small: { nat_abs a ≤ 2 ^ 26 },
    pub ghost b_small: { nat_abs b ≤ 2 ^ 26 },
    pub ghost c_small: { nat_abs c ≤ 2 ^ 52 },
}

impl Extreme {
    /// The line from the right end to the left end.
    pub fn through(left: EndAt, right: EndAt) -> Extreme
        requires { pos 0 <ℤ dot (difference left.at right.at) (difference left.at right.at) }
        ensures left { result.left ≡ left }
        ensures right { result.right ≡ right }
    {
        let a = minus(right.at.y, left.at.y);
        let b = minus(left.at.x, right.at.x);
        let c = level(a, b, right.at);
        Extreme {
            left,
            right,
            a,
            b,
            c,
        }
    }

    /// Twice the signed area of the triangle of the right end, the left end and the point.
    pub fn value(&self, p: Pt) -> i64
        ensures value { result ≡ cross (difference self.now.left.at self.now.right.at) (difference p self.now.right.at) }
        ensures bound { nat_abs result ≤ 2 ^ 53 }
    {
        level(self.a, self.b, p) - self.c
    }

    /// The product of its own difference with the difference of two ends.
    pub fn product(&self, left: Pt, right: Pt) -> i64
        ensures value { result ≡ dot (difference self.now.left.at self.now.right.at) (difference left right) }
        ensures bound { nat_abs result ≤ 2 ^ 53 }
    {
        let across = times(self.b, minus(left.x, right.x));
        let up = times(self.a, minus(left.y, right.y));
        less(across, up)
    }

    /// Above 0 where the difference of the two ends is counterclockwise of its own.
    pub fn turn(&self, left: Pt, right: Pt) -> i64
        ensures value { result ≡ cross (difference self.now.left.at self.now.right.at) (difference left right) }
        ensures bound { nat_abs result ≤ 2 ^ 54 }
    {
        self.value(left) - self.value(right)
    }

    /// Its own length, squared.
    pub fn squared(&self) -> i64
        ensures value { result ≡ dot (difference self.now.left.at self.now.right.at) (difference self.now.left.at self.now.right.at) }
        ensures bound { nat_abs result ≤ 2 ^ 53 }
    {
        self.product(self.left.at, self.right.at)
    }
}
