//! The extreme lines of a set of differences.

ghost use Rattle.std.specs.Prelude.{◌≡◌, IsTrue, MatchOption};
ghost use Rattle.sight_names.specs.declared.names.Pt.{Pt as Place};
ghost use Rattle.sight_names.specs.Splitting.{AreBalanced};
ghost use Rattle.geom_exact.specs.ExtremeLines.Differences.{difference};
ghost use Rattle.geom_exact.specs.ExtremeLines.Spans.{Spans, first_extreme, second_of, IsWidened, IsCutOf, three_pairs};

use crate::extreme_lines::cut::{Cut, middle_cut, ray_cut};
use crate::extreme_lines::extreme::Extreme;
use crate::extreme_lines::wedge::Wedge;
use crate::extreme_lines::widen::{widen_first, widen_second};
use sight_names::{EndAt, EndPair, Pt};

/// The extreme ones of some lines from right ends to left ends, of equal directions the shortest.
#[derive(Clone, Copy)]
pub enum Cone {
    /// All have one direction.
    Ray(Extreme),
    /// The first is the most clockwise, the second the most counterclockwise.
    Open(Wedge),
}

impl Cone {
    /// Whether the line from the right end to the left one lies strictly between the extreme ones.
    pub fn covers(&self, left: Pt, right: Pt) -> bool
        ensures { IsTrue result → Spans self.now (difference left right) }
    {
        match self {
            Cone::Ray(_) => false,
            Cone::Open(wedge) => wedge.covers(left, right),
        }
    }

    /// Whether all lines from right ends to this left one lie strictly between the extreme ones, where those to the
    /// extreme left ends lie within.
    pub fn has_outside_left(&self, left: Pt) -> bool
        ensures { IsTrue result → (r : Place) → Spans self.now (difference (first_extreme self.now).left.at r) → Spans self.now (difference (second_of self.now).left.at r) → Spans self.now (difference left r) }
    {
        match self {
            Cone::Ray(_) => false,
            Cone::Open(wedge) => wedge.has_outside_left(left),
        }
    }

    /// Whether all lines from this right end to left ends lie strictly between the extreme ones, where those from the
    /// extreme right ends lie within.
    pub fn has_outside_right(&self, right: Pt) -> bool
        ensures { IsTrue result → (l : Place) → Spans self.now (difference l (first_extreme self.now).right.at) → Spans self.now (difference l (second_of self.now).right.at) → Spans self.now (difference l right) }
    {
        match self {
            Cone::Ray(_) => false,
            Cone::Open(wedge) => wedge.has_outside_right(right),
        }
    }

    /// The most clockwise line.
    pub fn first(&self) -> &Extreme
        ensures { result.now ≡ first_extreme self.now }
    {
        match self {
            Cone::Ray(ray) => ray,
            Cone::Open(wedge) => &wedge.first,
        }
    }

    /// The most counterclockwise line.
    pub fn second(&self) -> &Extreme
        ensures { result.now ≡ second_of self.now }
    {
        match self {
            Cone::Ray(ray) => ray,
            Cone::Open(wedge) => &wedge.second,
        }
    }

    /// Whether this pair and those of two extreme lines are seen at once to have the origin in the convex hull of their
    /// differences. `false` says nothing.
    pub fn meets(&self, left: EndAt, right: EndAt) -> bool
        ensures { IsTrue result → AreBalanced (three_pairs self.now left right) }
    {
        match self {
            Cone::Ray(_) => false,
            Cone::Open(wedge) => meets_wedge(wedge, left, right),
        }
    }

    /// The pairs of the extreme lines, and this pair.
    pub fn pairs(&self, left: EndAt, right: EndAt) -> [EndPair; 3]
        ensures { result ≡ three_pairs self.now left right }
    {
        let (first, second) = match self {
            Cone::Ray(ray) => (ray, ray),
            Cone::Open(wedge) => (&wedge.first, &wedge.second),
        };
        [
            EndPair {
                left: first.left,
                right: first.right,
            },
            EndPair {
                left: second.left,
                right: second.right,
            },
            EndPair { left, right },
        ]
    }

    /// A line that has the left ends strictly on its left and the right ends strictly on its right.
    pub fn cut(&self) -> Cut
        requires { Spans self.now (difference (second_of self.now).left.at (first_extreme self.now).right.at) }
        ensures { IsCutOf self.now result.a result.b result.c }
    {
        match self {
            Cone::Ray(ray) => ray_cut(ray),
            Cone::Open(wedge) => wedge_cut(wedge),
        }
    }

    /// The extreme lines of all before and the line from this right end to this left one. None where that one and
    /// the extreme ones have the origin in the convex hull of their differences.
    pub fn with(&self, left: EndAt, right: EndAt) -> Option<Cone>
        ensures { MatchOption result (AreBalanced (three_pairs self.now left right)) (λ c. IsWidened self.now left right c) }
    {
        match self {
            Cone::Ray(ray) => ray_with(ray, left, right),
            Cone::Open(wedge) => wedge_with(wedge, left, right),
        }
    }
}

fn meets_wedge(wedge: &Wedge, left: EndAt, right: EndAt) -> bool
    ensures { IsTrue result → AreBalanced (three_pairs (Cone.Open wedge.now) left right) }
{
    if wedge.first.turn(left.at, right.at) > 0 {
        return false;
    }
    wedge.second.turn(left.at, right.at) >= 0
}

fn ray_with(ray: &Extreme, left: EndAt, right: EndAt) -> Option<Cone>
    ensures { MatchOption result (AreBalanced (three_pairs (Cone.Ray ray.now) left right)) (λ c. IsWidened (Cone.Ray ray.now) left right c) }
{
    let turn = ray.turn(left.at, right.at);
    if turn > 0 {
        let second = Extreme::through(left, right);
        return Some(Cone::Open(Wedge {
            first: *ray,
            second,
        }));
    }
    if turn < 0 {
        let first = Extreme::through(left, right);
        return Some(Cone::Open(Wedge {
            first,
            second: *ray,
        }));
    }
    let ahead = ray.product(left.at, right.at);
    if ahead <= 0 {
        return None;
    }
    if ahead < ray.squared() {
        return Some(Cone::Ray(Extreme::through(left, right)));
    }
    Some(Cone::Ray(*ray))
}

fn wedge_with(wedge: &Wedge, left: EndAt, right: EndAt) -> Option<Cone>
    ensures { MatchOption result (AreBalanced (three_pairs (Cone.Open wedge.now) left right)) (λ c. IsWidened (Cone.Open wedge.now) left right c) }
{
    let past_first = wedge.first.turn(left.at, right.at);
    let past_second = wedge.second.turn(left.at, right.at);
    let mut wide = *wedge;
    if past_first > 0 {
        let _is_second = widen_second(&mut wide, left, right, past_second);
        return Some(Cone::Open(wide));
    }
    if past_second < 0 {
        let _is_first = widen_first(&mut wide, left, right, past_first);
        return Some(Cone::Open(wide));
    }
    None
}

fn wedge_cut(wedge: &Wedge) -> Cut
    requires { Spans (Cone.Open wedge.now) (difference wedge.now.second.left.at wedge.now.first.right.at) }
    ensures { IsCutOf (Cone.Open wedge.now) result.a result.b result.c }
{
    if wedge.second.value(wedge.first.right.at) == 0 {
        return middle_cut(wedge, -1);
    }
    middle_cut(wedge, 1)
}
