//! A new end that bars what passes between the two extreme lines: where no line splits it from an end of one of them, one turn tells
//! four stuck ends. In a walk this is so of each portal that no line passes.

ghost use Rattle.std.specs.Prelude.{◌≡◌, ◌<◌, IfSome};
ghost use Rattle.block_evidence.specs.OneTurn.{AreLines, BarsRight, BarsLeft};
ghost use Rattle.block_evidence.specs.Picked.{Picks};
ghost use Rattle.geom_exact.specs.ExtremeLines.Spans.{end_pair_of};
ghost use Rattle.stab_hull.specs.Barred.{ends_and};

use block_evidence::{Evidence, bar_left, bar_right};
use geom_exact::extreme_lines::{Extreme, Wedge};
use sight_names::{EndAt, EndPair, RIGHT_END};

#[inline(always)]
fn ends_of(line: &Extreme) -> EndPair
    ensures { result ≡ end_pair_of line.now }
{
    EndPair {
        left: line.left,
        right: line.right,
    }
}

/// Evidence where no line splits a new right end from the left end of the first line.
#[inline(always)]
pub fn right_bars(wedge: &Wedge, new: EndAt) -> Option<Evidence>
    requires lines { AreLines (end_pair_of wedge.now.first) (end_pair_of wedge.now.second) }
    requires later { wedge.now.first.right.code < new.code }
    requires later_too { wedge.now.second.right.code < new.code }
    ensures { IfSome result (λ e. BarsRight (end_pair_of wedge.now.first) (end_pair_of wedge.now.second) new × Picks (ends_and wedge.now new) e) }
{
    if wedge.first.value(new.at) < 0 {
        return None;
    }
    let of_new = wedge.second.value(new.at);
    if of_new >= 0 {
        return None;
    }
    if of_new > wedge.second.value(wedge.first.left.at) {
        return None;
    }
    Some(bar_right(ends_of(&wedge.first), ends_of(&wedge.second), new))
}

/// The same where no line splits a new left end from the right end of the second line.
#[inline(always)]
pub fn left_bars(wedge: &Wedge, new: EndAt) -> Option<Evidence>
    requires lines { AreLines (end_pair_of wedge.now.first) (end_pair_of wedge.now.second) }
    requires coded { new.code < RIGHT_END }
    requires later { wedge.now.first.left.code < new.code }
    requires later_too { wedge.now.second.left.code < new.code }
    ensures { IfSome result (λ e. BarsLeft (end_pair_of wedge.now.first) (end_pair_of wedge.now.second) new × Picks (ends_and wedge.now new) e) }
{
    if wedge.second.value(new.at) < 0 {
        return None;
    }
    let of_new = wedge.first.value(new.at);
    if of_new >= 0 {
        return None;
    }
    if of_new > wedge.first.value(wedge.second.right.at) {
        return None;
    }
    Some(bar_left(ends_of(&wedge.first), ends_of(&wedge.second), new))
}
