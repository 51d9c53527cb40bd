//! What a new end does to the two extreme lines, where it is seen by what each of them says of it.

ghost use Rattle.std.specs.Prelude.{◌<◌, ◌++◌, ◌∷◌, [], length, List, OnErr, IfOk, ◌≡◌};
ghost use Rattle.sight_names.specs.declared.names.EndAt.{EndAt as End};
ghost use Rattle.block_evidence.specs.OneTurn.{AreLines};
ghost use Rattle.geom_exact.specs.ExtremeLines.Spans.{end_pair_of};
ghost use Rattle.stab_hull.specs.Chains.{HasChainSteps, kept_ends};
ghost use Rattle.stab_hull.specs.Stacks.{IsTopCone, KeepsFirst};
ghost use Rattle.stab_hull.specs.Turning.{IsRightTurn, IsLeftTurn, MovesRight, MovesLeft};

use crate::bars::{left_bars, right_bars};
use crate::chain::Kept;
use crate::step::{first_to_left, second_to_right};
use block_evidence::Evidence;
use geom_exact::extreme_lines::{Cone, Wedge};
use sight_names::{EndAt, Memory, RIGHT_END};

/// What one more end does to the two extreme lines.
#[derive(Clone, Copy)]
pub enum Turn {
    /// Both stay, and none will come to it, since an end of its side covers it.
    Covered,
    /// Both stay.
    Same,
    /// One of them may move to it, and the other one stays.
    Moves,
    /// No line splits the ends, as these show.
    Stuck(Evidence),
    /// What they say doesn't tell.
    Unseen,
}

/// What a new right end does.
#[inline(always)]
pub fn right_turn(wedge: &Wedge, new: EndAt) -> Turn
    requires lines { AreLines (end_pair_of wedge.now.first) (end_pair_of wedge.now.second) }
    requires later { wedge.now.first.right.code < new.code }
    requires later_too { wedge.now.second.right.code < new.code }
    ensures { IsRightTurn wedge.now new result }
{
    if wedge.first.value(new.at) < 0 {
        let of_second = wedge.second.value(new.at);
        if of_second > 0 {
            if of_second >= wedge.second.value(wedge.first.right.at) {
                return Turn::Covered;
            }
            return Turn::Same;
        }
        return Turn::Moves;
    }
    match right_bars(wedge, new) {
        Some(evidence) => Turn::Stuck(evidence),
        None => Turn::Unseen,
    }
}

/// What a new left end does.
#[inline(always)]
pub fn left_turn(wedge: &Wedge, new: EndAt) -> Turn
    requires lines { AreLines (end_pair_of wedge.now.first) (end_pair_of wedge.now.second) }
    requires coded { new.code < RIGHT_END }
    requires later { wedge.now.first.left.code < new.code }
    requires later_too { wedge.now.second.left.code < new.code }
    ensures { IsLeftTurn wedge.now new result }
{
    if wedge.second.value(new.at) < 0 {
        let of_first = wedge.first.value(new.at);
        if of_first > 0 {
            if of_first >= wedge.first.value(wedge.second.left.at) {
                return Turn::Covered;
            }
            return Turn::Same;
        }
        return Turn::Moves;
    }
    match left_bars(wedge, new) {
        Some(evidence) => Turn::Stuck(evidence),
        None => Turn::Unseen,
    }
}

/// Stacks the lines of the last cone with a new right end, which is right of the first one. The left ends are lent twice,
/// for `second_to_right`.
#[inline(never)]
pub fn stack_right(
    cones: &mut Vec<Cone>,
    lefts: &[Kept],
    again: &[Kept],
    right: EndAt,
) -> Result<(), Memory>
    requires again { again.now ≡ lefts.now }
    requires steps { HasChainSteps lefts.now }
    requires moves { MovesRight (kept_ends lefts.now) cones.old.items right }
    ensures kept { KeepsFirst (length cones.old.items) cones.old.items cones.new.items }
    ensures err { OnErr result (cones.new.items ≡ cones.old.items) }
    ensures top { IfOk result (λ _. (rights : List End) → IsTopCone (kept_ends lefts.now) rights cones.old.items → IsTopCone (kept_ends lefts.now) (rights ++ right ∷ []) cones.new.items) }
{
    cones.reserve(1)?;
    let Cone::Open(wedge) = &cones[cones.len() - 1] else {
        return Ok(());
    };
    let wider = second_to_right(wedge, lefts, again, right);
    cones.push_reserved(Cone::Open(wider));
    Ok(())
}

/// Stacks the lines of the last cone with a new left end, which is right of the second one. The right ends are lent twice,
/// for `first_to_left`.
#[inline(never)]
pub fn stack_left(
    cones: &mut Vec<Cone>,
    rights: &[Kept],
    again: &[Kept],
    left: EndAt,
) -> Result<(), Memory>
    requires again { again.now ≡ rights.now }
    requires steps { HasChainSteps rights.now }
    requires moves { MovesLeft (kept_ends rights.now) cones.old.items left }
    ensures kept { KeepsFirst (length cones.old.items) cones.old.items cones.new.items }
    ensures err { OnErr result (cones.new.items ≡ cones.old.items) }
    ensures top { IfOk result (λ _. (lefts : List End) → IsTopCone lefts (kept_ends rights.now) cones.old.items → IsTopCone (lefts ++ left ∷ []) (kept_ends rights.now) cones.new.items) }
{
    cones.reserve(1)?;
    let Cone::Open(wedge) = &cones[cones.len() - 1] else {
        return Ok(());
    };
    let wider = first_to_left(wedge, rights, again, left);
    cones.push_reserved(Cone::Open(wider));
    Ok(())
}
