//! The line between the ends.

ghost use Rattle.std.specs.Prelude.{◌≡◌, pos, ◌+ℤ◌, ◌*ℤ◌, ◌≤◌, ◌+◌, ◌^◌, nat_abs};
ghost use Rattle.sight_names.specs.declared.names.Pt.{Pt as Place};
ghost use Rattle.sight_names.specs.Point.{point_of, value_at};
ghost use Rattle.plane_base.specs.Arrows.{dot};
ghost use Rattle.geom_exact.specs.ExtremeLines.Differences.{difference};
ghost use Rattle.geom_exact.specs.ExtremeLines.Spans.{arrow_of, middle_at};

use crate::extreme_lines::arith::{doubled, level, opposite, shifted};
use crate::extreme_lines::extreme::Extreme;
use crate::extreme_lines::wedge::Wedge;

/// A line: the points with `a * x + b * y + c` equal to 0.
#[derive(Clone, Copy)]
pub struct Cut {
    pub a: i32,
    pub b: i32,
    pub c: i64,
}

/// Twice the sum of the two forms, and a shift.
pub fn middle_cut(wedge: &Wedge, shift: i64) -> Cut
    requires { nat_abs shift ≤ 1 }
    ensures value { (p : Place) → value_at result.a result.b result.c (point_of p) ≡ pos 2 *ℤ middle_at wedge.now p +ℤ shift }
    ensures a_bound { nat_abs result.a ≤ 2 ^ 28 }
    ensures b_bound { nat_abs result.b ≤ 2 ^ 28 }
    ensures c_bound { nat_abs result.c ≤ 2 ^ 54 + 1 }
{
    let a = doubled(wedge.first.a, wedge.second.a);
    let b = doubled(wedge.first.b, wedge.second.b);
    let c = shifted(wedge.second.c, wedge.first.c, shift);
    Cut { a, b, c }
}

/// The line across the ray a little before its left end.
pub fn ray_cut(ray: &Extreme) -> Cut
    ensures value { (p : Place) → value_at result.a result.b result.c (point_of p) ≡ pos 2 *ℤ dot (arrow_of ray.now) (difference p ray.now.left.at) +ℤ pos 1 }
    ensures a_bound { nat_abs result.a ≤ 2 ^ 28 }
    ensures b_bound { nat_abs result.b ≤ 2 ^ 28 }
    ensures c_bound { nat_abs result.c ≤ 2 ^ 54 + 1 }
{
    let a = doubled(ray.b, 0);
    let b = doubled(0, ray.a);
    let near = level(ray.b, opposite(ray.a), ray.left.at);
    let c = shifted(0, near, 1);
    Cut { a, b, c }
}
