//! Two extreme lines.

ghost use Rattle.std.specs.Prelude.{◌<ℤ◌, pos, IsTrue};
ghost use Rattle.sight_names.specs.declared.names.Pt.{Pt as Place};
ghost use Rattle.plane_base.specs.Arrows.{cross, IsArrowBetween};
ghost use Rattle.geom_exact.specs.ExtremeLines.Differences.{difference};

use crate::extreme_lines::extreme::Extreme;
use sight_names::Pt;

/// Two lines, of which the second is counterclockwise of the first by less than half a turn.
#[derive(Clone, Copy)]
pub struct Wedge {
    pub first: Extreme,
    pub second: Extreme,
    pub ghost spread: { pos 0 <ℤ cross (difference first.left.at first.right.at) (difference second.left.at second.right.at) },
}

impl Wedge {
    /// Whether the line from the right end to the left one lies strictly between the two.
    pub fn covers(&self, left: Pt, right: Pt) -> bool
        ensures { IsTrue result → IsArrowBetween (difference self.now.first.left.at self.now.first.right.at) (difference self.now.second.left.at self.now.second.right.at) (difference left right) }
    {
        if self.first.turn(left, right) <= 0 {
            return false;
        }
        self.second.turn(left, right) < 0
    }

    /// Whether all lines from right ends to this left one lie strictly between the two, where those to the two left
    /// ends lie within.
    pub fn has_outside_left(&self, left: Pt) -> bool
        ensures { IsTrue result → (r : Place) → IsArrowBetween (difference self.now.first.left.at self.now.first.right.at) (difference self.now.second.left.at self.now.second.right.at) (difference self.now.first.left.at r) → IsArrowBetween (difference self.now.first.left.at self.now.first.right.at) (difference self.now.second.left.at self.now.second.right.at) (difference self.now.second.left.at r) → IsArrowBetween (difference self.now.first.left.at self.now.first.right.at) (difference self.now.second.left.at self.now.second.right.at) (difference left r) }
    {
        if self.first.value(left) <= 0 {
            return false;
        }
        self.second.value(left) < 0
    }

    /// Whether all lines from this right end to left ends lie strictly between the two, where those from the two right
    /// ends lie within.
    pub fn has_outside_right(&self, right: Pt) -> bool
        ensures { IsTrue result → (l : Place) → IsArrowBetween (difference self.now.first.left.at self.now.first.right.at) (difference self.now.second.left.at self.now.second.right.at) (difference l self.now.first.right.at) → IsArrowBetween (difference self.now.first.left.at self.now.first.right.at) (difference self.now.second.left.at self.now.second.right.at) (difference l self.now.second.right.at) → IsArrowBetween (difference self.now.first.left.at self.now.first.right.at) (difference self.now.second.left.at self.now.second.right.at) (difference l right) }
    {
        if self.first.value(right) >= 0 {
            return false;
        }
        self.second.value(right) > 0
    }
}
