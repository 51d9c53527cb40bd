//! What one more end does to a cone.

ghost use Rattle.std.specs.Prelude.{List, ◌≡◌, ◌++◌, ◌∷◌, [], pos, ◌<ℤ◌};
ghost use Rattle.sight_names.specs.declared.names.EndAt.{EndAt as End};
ghost use Rattle.geom_exact.specs.declared.extreme_lines.cone.Cone.TheVariants.{Open};
ghost use Rattle.stab_hull.specs.Chains.{HasChainSteps, kept_ends};
ghost use Rattle.stab_hull.specs.Stacks.{IsConeOfEnds, IsStepTo};
ghost use Rattle.geom_exact.specs.ExtremeLines.Spans.{form_at};

use crate::chain::Kept;
use crate::slope::Slope;
use geom_exact::extreme_lines::{Cone, Wedge, widen_first, widen_second};
use sight_names::{EndAt, EndPair};

/// What one more end does to the cone of other ends.
#[derive(Clone, Copy)]
pub enum Step {
    /// Nothing: the cone has its lines.
    Same,
    /// The cone with its lines.
    Wider(Cone),
    /// No line splits the ends, as these pairs show.
    Stuck([EndPair; 3]),
}

/// The wedge with the lines from all right ends to a new left end that is left of the first line, so that the first line
/// stays, and one value tells of each of the others.
fn second_to_left(wedge: &Wedge, rights: &[Kept], left: EndAt) -> Wedge
    requires cone { (lefts : List End) × IsConeOfEnds lefts (kept_ends rights.now) (Open wedge.now) }
    requires beyond { pos 0 <ℤ form_at wedge.now.first left.at }
    ensures { (lefts : List End) → IsConeOfEnds lefts (kept_ends rights.now) (Open wedge.now) → IsConeOfEnds (lefts ++ left ∷ []) (kept_ends rights.now) (Open result) }
{
    let mut wide = *wedge;
    let mut value = wide.second.value(left.at);
    for j in 0..rights.len() {
        let right = rights[j].end;
        let turn = value - wide.second.value(right.at);
        if widen_second(&mut wide, left, right, turn) {
            value = 0;
        }
    }
    wide
}

/// The same for a left end that is right of the second line, which stays. The right ends are lent twice: what is seldom
/// asked for is read by the second loan, so that the loop doesn't hold it.
// in line, since the lines would go through memory
#[inline(always)]
pub fn first_to_left(wedge: &Wedge, rights: &[Kept], again: &[Kept], left: EndAt) -> Wedge
    requires again { again.now ≡ rights.now }
    requires steps { HasChainSteps rights.now }
    requires cone { (lefts : List End) × IsConeOfEnds lefts (kept_ends rights.now) (Open wedge.now) }
    requires beyond { form_at wedge.now.second left.at <ℤ pos 0 }
    ensures { (lefts : List End) → IsConeOfEnds lefts (kept_ends rights.now) (Open wedge.now) → IsConeOfEnds (lefts ++ left ∷ []) (kept_ends rights.now) (Open result) }
{
    let mut wide = *wedge;
    let mut slope = Slope::of(&wide.first);
    let mut bound = slope.level(&left.at);
    let mut rest = rights.len();
    while rest > 0 {
        let at = rest - 1;
        let kept = &rights[at];
        let level = slope.level(&kept.end.at);
        if level >= bound {
            if widen_first(&mut wide, left, again[at].end, bound - level) {
                slope = Slope::of(&wide.first);
                bound = wide.first.c;
            }
        }
        rest -= kept.step as usize;
    }
    wide
}

/// The wedge with the lines from a new right end that is right of the first line, which stays, to all left ends, which
/// are lent twice as well.
// in line, since the lines would go through memory
#[inline(always)]
pub fn second_to_right(wedge: &Wedge, lefts: &[Kept], again: &[Kept], right: EndAt) -> Wedge
    requires again { again.now ≡ lefts.now }
    requires steps { HasChainSteps lefts.now }
    requires cone { (rights : List End) × IsConeOfEnds (kept_ends lefts.now) rights (Open wedge.now) }
    requires beyond { form_at wedge.now.first right.at <ℤ pos 0 }
    ensures { (rights : List End) → IsConeOfEnds (kept_ends lefts.now) rights (Open wedge.now) → IsConeOfEnds (kept_ends lefts.now) (rights ++ right ∷ []) (Open result) }
{
    let mut wide = *wedge;
    let mut slope = Slope::of(&wide.second);
    let mut bound = slope.level(&right.at);
    let mut rest = lefts.len();
    while rest > 0 {
        let at = rest - 1;
        let kept = &lefts[at];
        let level = slope.level(&kept.end.at);
        if level >= bound {
            if widen_second(&mut wide, again[at].end, right, level - bound) {
                slope = Slope::of(&wide.second);
                bound = wide.second.c;
            }
        }
        rest -= kept.step as usize;
    }
    wide
}

/// The same for a right end that is left of the second line, which stays.
fn first_to_right(wedge: &Wedge, lefts: &[Kept], right: EndAt) -> Wedge
    requires cone { (rights : List End) × IsConeOfEnds (kept_ends lefts.now) rights (Open wedge.now) }
    requires beyond { pos 0 <ℤ form_at wedge.now.second right.at }
    ensures { (rights : List End) → IsConeOfEnds (kept_ends lefts.now) rights (Open wedge.now) → IsConeOfEnds (kept_ends lefts.now) (rights ++ right ∷ []) (Open result) }
{
    let mut wide = *wedge;
    let mut value = wide.first.value(right.at);
    for i in 0..lefts.len() {
        let left = lefts[i].end;
        let turn = wide.first.value(left.at) - value;
        if widen_first(&mut wide, left, right, turn) {
            value = 0;
        }
    }
    wide
}

/// The cone with the lines from all right ends to the new left end.
fn left_against_each(cone: &Cone, rights: &[Kept], left: EndAt) -> Step
    ensures { (lefts : List End) → IsConeOfEnds lefts (kept_ends rights.now) cone.now → IsStepTo (lefts ++ left ∷ []) (kept_ends rights.now) cone.now result }
{
    let mut wide = *cone;
    for j in 0..rights.len() {
        let right = rights[j].end;
        if !wide.covers(left.at, right.at) {
            match wide.with(left, right) {
                Some(wider) => wide = wider,
                None => return Step::Stuck(wide.pairs(left, right)),
            }
        }
    }
    Step::Wider(wide)
}

/// The cone with the lines from the new right end to all left ends.
fn right_against_each(cone: &Cone, lefts: &[Kept], right: EndAt) -> Step
    ensures { (rights : List End) → IsConeOfEnds (kept_ends lefts.now) rights cone.now → IsStepTo (kept_ends lefts.now) (rights ++ right ∷ []) cone.now result }
{
    let mut wide = *cone;
    for i in 0..lefts.len() {
        let left = lefts[i].end;
        if !wide.covers(left.at, right.at) {
            match wide.with(left, right) {
                Some(wider) => wide = wider,
                None => return Step::Stuck(wide.pairs(left, right)),
            }
        }
    }
    Step::Wider(wide)
}

/// The cone with the lines from all right ends to the new left end.
fn left_against_all(cone: &Cone, rights: &[Kept], left: EndAt) -> Step
    requires steps { HasChainSteps rights.now }
    requires cone { (lefts : List End) × IsConeOfEnds lefts (kept_ends rights.now) cone.now }
    ensures { (lefts : List End) → IsConeOfEnds lefts (kept_ends rights.now) cone.now → IsStepTo (lefts ++ left ∷ []) (kept_ends rights.now) cone.now result }
{
    if let Cone::Open(wedge) = cone {
        if wedge.first.value(left.at) > 0 {
            return Step::Wider(Cone::Open(second_to_left(wedge, rights, left)));
        }
        if wedge.second.value(left.at) < 0 {
            return Step::Wider(Cone::Open(first_to_left(wedge, rights, rights, left)));
        }
    }
    left_against_each(cone, rights, left)
}

/// The cone with the lines from the new right end to all left ends.
fn right_against_all(cone: &Cone, lefts: &[Kept], right: EndAt) -> Step
    requires steps { HasChainSteps lefts.now }
    requires cone { (rights : List End) × IsConeOfEnds (kept_ends lefts.now) rights cone.now }
    ensures { (rights : List End) → IsConeOfEnds (kept_ends lefts.now) rights cone.now → IsStepTo (kept_ends lefts.now) (rights ++ right ∷ []) cone.now result }
{
    if let Cone::Open(wedge) = cone {
        if wedge.first.value(right.at) < 0 {
            return Step::Wider(Cone::Open(second_to_right(wedge, lefts, lefts, right)));
        }
        if wedge.second.value(right.at) > 0 {
            return Step::Wider(Cone::Open(first_to_right(wedge, lefts, right)));
        }
    }
    right_against_each(cone, lefts, right)
}

/// What a new left end does. In a walk it lies right of the second line, where that line stays and the first one may move;
/// or no line splits it from the right end of the second line. Only other left ends are looked at against all right ends.
pub fn left_step(cone: &Cone, rights: &[Kept], left: EndAt) -> Step
    requires steps { HasChainSteps rights.now }
    requires cone { (lefts : List End) × IsConeOfEnds lefts (kept_ends rights.now) cone.now }
    ensures { (lefts : List End) → IsConeOfEnds lefts (kept_ends rights.now) cone.now → IsStepTo (lefts ++ left ∷ []) (kept_ends rights.now) cone.now result }
{
    if let Cone::Open(wedge) = cone {
        let of_first = wedge.first.value(left.at);
        if wedge.second.value(left.at) < 0 {
            if of_first > 0 {
                return Step::Same;
            }
            return Step::Wider(Cone::Open(first_to_left(wedge, rights, rights, left)));
        }
        if of_first <= wedge.first.value(wedge.second.right.at) {
            return Step::Stuck(cone.pairs(left, wedge.second.right));
        }
    }
    left_against_all(cone, rights, left)
}

/// What a new right end does. In a walk it lies right of the first line, where that line stays and the second one may move;
/// or no line splits it from the left end of the first line. Only other right ends are looked at against all left ends.
pub fn right_step(cone: &Cone, lefts: &[Kept], right: EndAt) -> Step
    requires steps { HasChainSteps lefts.now }
    requires cone { (rights : List End) × IsConeOfEnds (kept_ends lefts.now) rights cone.now }
    ensures { (rights : List End) → IsConeOfEnds (kept_ends lefts.now) rights cone.now → IsStepTo (kept_ends lefts.now) (rights ++ right ∷ []) cone.now result }
{
    if let Cone::Open(wedge) = cone {
        let of_second = wedge.second.value(right.at);
        if wedge.first.value(right.at) < 0 {
            if of_second > 0 {
                return Step::Same;
            }
            return Step::Wider(Cone::Open(second_to_right(wedge, lefts, lefts, right)));
        }
        if of_second <= wedge.second.value(wedge.first.left.at) {
            return Step::Stuck(cone.pairs(wedge.first.left, right));
        }
    }
    right_against_all(cone, lefts, right)
}
