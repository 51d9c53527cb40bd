//! Four of the ends of three pairs that are seen at once to be stuck. The third pair mostly has one end that is new, and
//! one of the first or of the second pair: so there are five ends, and four sets of four of them with the new one are tried.
//! Most sets fail by the signs of their turns; so these come first, and codes are put in order only where they show it.
//! The three tests stand in line, since a call would hand each of four ends over in memory, which costs as much as the turns.

ghost use Rattle.std.specs.Prelude.{◌∷◌, [], ◌<◌, ◌≤◌, IfSome};
ghost use Rattle.block_evidence.specs.Stuck.{AreCoded};
ghost use Rattle.block_evidence.specs.Picked.{Orders, Picks, both_ends};

use crate::Evidence;
use crate::sign_tests::{do_cross, is_covered};
use geom_exact::turn;
use sight_names::{EndAt, EndPair, RIGHT_END};

/// The codes of two ends, the lesser one first.
pub fn in_order(a: EndAt, b: EndAt) -> (u16, u16)
    ensures { Orders (a ∷ b ∷ []) (result.0 ∷ result.1 ∷ []) }
{
    if a.code < b.code {
        (a.code, b.code)
    } else {
        (b.code, a.code)
    }
}

/// The codes of three ends, each lesser one before the greater ones.
fn all_in_order(a: EndAt, b: EndAt, c: EndAt) -> (u16, u16, u16)
    ensures { Orders (a ∷ b ∷ c ∷ []) (result.0 ∷ result.1 ∷ result.2 ∷ []) }
{
    let (a, b, c) = (a.code, b.code, c.code);
    if a < b {
        if b < c {
            (a, b, c)
        } else if a < c {
            (a, c, b)
        } else {
            (c, a, b)
        }
    } else if a < c {
        (b, a, c)
    } else if b < c {
        (b, c, a)
    } else {
        (c, b, a)
    }
}

/// Evidence of two left and two right ends, where the segments between them are seen to share a point.
#[inline(always)]
fn two_and_two(p: EndAt, q: EndAt, r: EndAt, s: EndAt) -> Option<Evidence>
    requires p_left { p.code < RIGHT_END }
    requires q_left { q.code < RIGHT_END }
    requires r_right { RIGHT_END ≤ r.code }
    requires s_right { RIGHT_END ≤ s.code }
    ensures { IfSome result (λ e. Picks (p ∷ q ∷ r ∷ s ∷ []) e) }
{
    if p.code == q.code || r.code == s.code {
        return None;
    }
    if !do_cross(p.at, q.at, r.at, s.at) {
        return None;
    }
    let (a, b) = in_order(p, q);
    let (c, d) = in_order(r, s);
    Some(Evidence {
        count: 4,
        ends: [a, b, c, d],
    })
}

/// Evidence of one left and three right ends, whose triangle is seen to have the left one.
#[inline(always)]
fn one_and_three(p: EndAt, q: EndAt, r: EndAt, s: EndAt) -> Option<Evidence>
    requires p_left { p.code < RIGHT_END }
    requires q_right { RIGHT_END ≤ q.code }
    requires r_right { RIGHT_END ≤ r.code }
    requires s_right { RIGHT_END ≤ s.code }
    ensures { IfSome result (λ e. Picks (p ∷ q ∷ r ∷ s ∷ []) e) }
{
    if q.code == r.code || q.code == s.code || r.code == s.code {
        return None;
    }
    if !is_covered(p.at, q.at, r.at, s.at) {
        return None;
    }
    let (b, c, d) = all_in_order(q, r, s);
    Some(Evidence {
        count: 4,
        ends: [p.code, b, c, d],
    })
}

/// Evidence of three left ends, whose triangle is seen to have the right one, and that one.
#[inline(always)]
fn three_and_one(p: EndAt, q: EndAt, r: EndAt, s: EndAt) -> Option<Evidence>
    requires p_left { p.code < RIGHT_END }
    requires q_left { q.code < RIGHT_END }
    requires r_left { r.code < RIGHT_END }
    requires s_right { RIGHT_END ≤ s.code }
    ensures { IfSome result (λ e. Picks (p ∷ q ∷ r ∷ s ∷ []) e) }
{
    if p.code == q.code || p.code == r.code || q.code == r.code {
        return None;
    }
    if !is_covered(s.at, p.at, q.at, r.at) {
        return None;
    }
    let (a, b, c) = all_in_order(p, q, r);
    Some(Evidence {
        count: 4,
        ends: [a, b, c, s.code],
    })
}

/// Evidence of four of the ends of two pairs and one more right end, whichever four show it.
fn any_with_right(first: EndPair, second: EndPair, new: EndAt) -> Option<Evidence>
    requires first_left { first.left.code < RIGHT_END }
    requires first_right { RIGHT_END ≤ first.right.code }
    requires second_left { second.left.code < RIGHT_END }
    requires second_right { RIGHT_END ≤ second.right.code }
    requires new_right { RIGHT_END ≤ new.code }
    ensures { IfSome result (λ e. Picks (first.left ∷ first.right ∷ second.left ∷ second.right ∷ new ∷ []) e) }
{
    if let Some(found) = two_and_two(first.left, second.left, second.right, new) {
        return Some(found);
    }
    if let Some(found) = two_and_two(first.left, second.left, first.right, new) {
        return Some(found);
    }
    if let Some(found) = one_and_three(first.left, first.right, second.right, new) {
        return Some(found);
    }
    one_and_three(second.left, first.right, second.right, new)
}

/// The same of the two sets of which one turn chooses one. Where the pairs are those of two extreme lines, and the new end
/// can't be split from an end of one, the chosen four are stuck.
#[inline(always)]
fn by_turn_right(first: EndPair, second: EndPair, new: EndAt) -> Option<Evidence>
    requires first_left { first.left.code < RIGHT_END }
    requires first_right { RIGHT_END ≤ first.right.code }
    requires second_left { second.left.code < RIGHT_END }
    requires second_right { RIGHT_END ≤ second.right.code }
    requires new_right { RIGHT_END ≤ new.code }
    ensures { IfSome result (λ e. Picks (first.left ∷ first.right ∷ second.left ∷ second.right ∷ new ∷ []) e) }
{
    if turn(second.right.at, new.at, first.left.at) <= 0 {
        return two_and_two(first.left, second.left, second.right, new);
    }
    one_and_three(first.left, first.right, second.right, new)
}

/// The same, those that one turn tells first.
fn with_right(first: EndPair, second: EndPair, new: EndAt) -> Option<Evidence>
    requires first_left { first.left.code < RIGHT_END }
    requires first_right { RIGHT_END ≤ first.right.code }
    requires second_left { second.left.code < RIGHT_END }
    requires second_right { RIGHT_END ≤ second.right.code }
    requires new_right { RIGHT_END ≤ new.code }
    ensures { IfSome result (λ e. Picks (first.left ∷ first.right ∷ second.left ∷ second.right ∷ new ∷ []) e) }
{
    if let Some(found) = by_turn_right(first, second, new) {
        return Some(found);
    }
    any_with_right(first, second, new)
}

/// Evidence of four of the ends of two pairs and one more left end, whichever four show it.
fn any_with_left(first: EndPair, second: EndPair, new: EndAt) -> Option<Evidence>
    requires first_left { first.left.code < RIGHT_END }
    requires first_right { RIGHT_END ≤ first.right.code }
    requires second_left { second.left.code < RIGHT_END }
    requires second_right { RIGHT_END ≤ second.right.code }
    requires new_left { new.code < RIGHT_END }
    ensures { IfSome result (λ e. Picks (first.left ∷ first.right ∷ second.left ∷ second.right ∷ new ∷ []) e) }
{
    if let Some(found) = two_and_two(first.left, new, first.right, second.right) {
        return Some(found);
    }
    if let Some(found) = two_and_two(second.left, new, first.right, second.right) {
        return Some(found);
    }
    if let Some(found) = three_and_one(first.left, second.left, new, first.right) {
        return Some(found);
    }
    three_and_one(first.left, second.left, new, second.right)
}

/// The same of the two sets of which one turn chooses one. Where the pairs are those of two extreme lines, and the new end
/// can't be split from an end of one, the chosen four are stuck.
#[inline(always)]
fn by_turn_left(first: EndPair, second: EndPair, new: EndAt) -> Option<Evidence>
    requires first_left { first.left.code < RIGHT_END }
    requires first_right { RIGHT_END ≤ first.right.code }
    requires second_left { second.left.code < RIGHT_END }
    requires second_right { RIGHT_END ≤ second.right.code }
    requires new_left { new.code < RIGHT_END }
    ensures { IfSome result (λ e. Picks (first.left ∷ first.right ∷ second.left ∷ second.right ∷ new ∷ []) e) }
{
    if turn(second.right.at, new.at, first.left.at) <= 0 {
        return two_and_two(first.left, new, first.right, second.right);
    }
    three_and_one(first.left, second.left, new, second.right)
}

/// The same, those that one turn tells first.
fn with_left(first: EndPair, second: EndPair, new: EndAt) -> Option<Evidence>
    requires first_left { first.left.code < RIGHT_END }
    requires first_right { RIGHT_END ≤ first.right.code }
    requires second_left { second.left.code < RIGHT_END }
    requires second_right { RIGHT_END ≤ second.right.code }
    requires new_left { new.code < RIGHT_END }
    ensures { IfSome result (λ e. Picks (first.left ∷ first.right ∷ second.left ∷ second.right ∷ new ∷ []) e) }
{
    if let Some(found) = by_turn_left(first, second, new) {
        return Some(found);
    }
    any_with_left(first, second, new)
}

/// Four of the ends of three pairs, where the third has an end of the first or of the second and the signs of turns show
/// four of the five ends stuck.
pub fn four_of_five(pairs: &[EndPair; 3]) -> Option<Evidence>
    requires { AreCoded pairs.now }
    ensures { IfSome result (λ e. Picks (both_ends pairs.now) e) }
{
    let [first, second, third] = *pairs;
    if third.left.code == first.left.code || third.left.code == second.left.code {
        return with_right(first, second, third.right);
    }
    if third.right.code == first.right.code || third.right.code == second.right.code {
        return with_left(first, second, third.left);
    }
    None
}
