//! Whether triangles may be those of a certificate.

ghost use Rattle.std.specs.Prelude.{◌<◌, ◌≤◌, ◌↔◌, IsTrue, length};
ghost use Rattle.sight_names.specs.Limits.{most_triangles};
ghost use Rattle.sight_names.specs.Mesh.{IsTriangle, IsAbove};
ghost use Rattle.cert_checker.specs.Apart.{triangles_in};
ghost use Rattle.cert_judge.specs.InOrder.{IsNextAt};
ghost use Rattle.cert_judge.specs.Stage.{AreTrianglesInOrder, AreLabelledBelow};

use cert_format::{Labelled, most_triangles};
use sight_names::Triangle;

/// Whether the numbers are three different ones below that of the points, the least first.
fn is_triangle(points: u16, t: Triangle) -> bool
    ensures { IsTrue result ↔ IsTriangle points t }
{
    t.p < t.q && t.p < t.r && t.q != t.r && t.q < points && t.r < points
}

/// Whether the one triangle comes before the other.
fn is_above(t: Triangle, u: Triangle) -> bool
    ensures { IsTrue result ↔ IsAbove t u }
{
    t.p < u.p || t.p == u.p && (t.q < u.q || t.q == u.q && t.r < u.r)
}

/// Whether the triangle at this place is one, and comes behind the one before it.
fn is_next(points: u16, labelled: &[Labelled], k: usize) -> bool
    requires { k < length labelled.now }
    ensures { IsTrue result ↔ IsNextAt points (triangles_in labelled.now) k }
{
    let triangle = labelled[k].triangle;
    is_triangle(points, triangle) && (k == 0 || is_above(labelled[k - 1].triangle, triangle))
}

/// Whether these are triangles between so many points, in order and few enough.
pub fn are_in_order(points: u16, labelled: &[Labelled]) -> bool
    ensures { IsTrue result ↔ AreTrianglesInOrder points labelled.now }
{
    for k in 0..labelled.len() {
        if !is_next(points, labelled, k) {
            return false;
        }
    }
    labelled.len() <= most_triangles(points)
}

/// Whether each triangle is labelled with one of so many groups, as many as a certificate for a map of so many points
/// may have.
pub fn are_labelled_below(points: u16, groups: usize, labelled: &[Labelled]) -> bool
    ensures { IsTrue result ↔ ((groups ≤ most_triangles points) × AreLabelledBelow groups labelled.now) }
{
    for one in labelled {
        if one.sector as usize >= groups {
            return false;
        }
    }
    groups <= most_triangles(points)
}
