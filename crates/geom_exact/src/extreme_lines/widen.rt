//! Widening one of the two extreme lines, where the other one stays.

ghost use Rattle.std.specs.Prelude.{◌≡◌, ◌<ℤ◌, pos};
ghost use Rattle.std.specs.Bool.{OnTrue, OnFalse};
ghost use Rattle.plane_base.specs.Arrows.{cross};
ghost use Rattle.geom_exact.specs.declared.extreme_lines.cone.Cone.TheVariants.{Open};
ghost use Rattle.geom_exact.specs.ExtremeLines.Differences.{difference};
ghost use Rattle.geom_exact.specs.ExtremeLines.Spans.{arrow_of, IsWidened};

use crate::extreme_lines::extreme::Extreme;
use crate::extreme_lines::wedge::Wedge;
use sight_names::EndAt;

/// Takes in the line from the right end to the left one, which lies strictly left of the first line, by its turn
/// against the second line. Whether it is the second line now; else nothing has changed.
pub fn widen_second(wedge: &mut Wedge, left: EndAt, right: EndAt, turn: i64) -> bool
    requires within { pos 0 <ℤ cross (arrow_of wedge.old.first) (difference left.at right.at) }
    requires turn { turn ≡ cross (arrow_of wedge.old.second) (difference left.at right.at) }
    ensures wider { IsWidened (Open wedge.old) left right (Open wedge.new) }
    ensures first { wedge.new.first ≡ wedge.old.first }
    ensures yes { OnTrue result ((wedge.new.second.left ≡ left) × (wedge.new.second.right ≡ right)) }
    ensures no { OnFalse result (wedge.new.second ≡ wedge.old.second) }
{
    if turn < 0 {
        return false;
    }
    if turn == 0 && wedge.second.squared() <= wedge.second.product(left.at, right.at) {
        return false;
    }
    let second = Extreme::through(left, right);
    *wedge = Wedge {
        first: wedge.first,
        second,
    };
    true
}

/// Takes in the line from the right end to the left one, which lies strictly right of the second line, by its turn
/// against the first line. Whether it is the first line now; else nothing has changed.
pub fn widen_first(wedge: &mut Wedge, left: EndAt, right: EndAt, turn: i64) -> bool
    requires within { cross (arrow_of wedge.old.second) (difference left.at right.at) <ℤ pos 0 }
    requires turn { turn ≡ cross (arrow_of wedge.old.first) (difference left.at right.at) }
    ensures wider { IsWidened (Open wedge.old) left right (Open wedge.new) }
    ensures second { wedge.new.second ≡ wedge.old.second }
    ensures yes { OnTrue result ((wedge.new.first.left ≡ left) × (wedge.new.first.right ≡ right)) }
    ensures no { OnFalse result (wedge.new.first ≡ wedge.old.first) }
{
    if turn > 0 {
        return false;
    }
    if turn == 0 && wedge.first.squared() <= wedge.first.product(left.at, right.at) {
        return false;
    }
    let first = Extreme::through(left, right);
    *wedge = Wedge {
        first,
        second: wedge.second,
    };
    true
}
