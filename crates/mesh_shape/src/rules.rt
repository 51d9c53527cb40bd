//! The first rule of a good mesh that is broken: each rule is a search through triangles, sides, lines or points in
//! order, and the rules are looked at in order. What lets a search look at few lines takes memory for the length of the
//! search; where it is refused, the search looks at all.

ghost use Rattle.std.specs.Prelude.{ℕ, ◌≤◌, ◌≡◌, ◌≢◌, ◌<◌, ◌↔◌, ◌⊎◌, IsTrue, Some, None, ◌<ℤ◌, length, slice_get};
ghost use Rattle.std.specs.Bool.{OnTrue};
ghost use Rattle.std.specs.Int.{int_min, int_max};
ghost use Rattle.sight_names.specs.Map.{map_of, looked_up};
ghost use Rattle.sight_names.specs.Plan.{IsPlan, IsPlanLine};
ghost use Rattle.sight_names.specs.Points.{points_of};
ghost use Rattle.sight_names.specs.Mesh.{AreTriangles, IsTriangle, IsCounterclockwise, IsLineEdge, MeetsFairly, triangle_at};
ghost use Rattle.geom_exact.specs.LineSpans.Spans.{IsSpanIn, AreSpans, AreSkips};
ghost use Rattle.mesh_shape.specs.Faults.{TurnsAt, IsNewAt, HasMate, HasMatesAt, FitsAt, IsFairAt, IsEmptyAt, IsMeshVerdict};
ghost use Rattle.mesh_shape.specs.Search.{IsBand, IsSearch, IsSideSearch, IsPairSearch, IsFitting, IsEdgeOf, IsUnfitLine, IsUnfitSide, IsMetFairly, IsLineMetFairly, IsOutsideOf, AreBeforeLeast, AreBehind};

use crate::chains::{Chains, chains_of};
use crate::labels::Labels;
use crate::meets::meet_at_ends;
use crate::mesh::Mesh;
use geom_exact::line_spans::{NO_SPAN, Span, ends_below, first_behind, put_skips, put_spans};
use geom_exact::{in_triangle, turn};
use sight_names::{LARGE_LINES, Line, MOST_TRIANGLES, MeshFault, Plan, Pt, Side, Triangle};
use std::alloc::Global;

/// The first rule of a good mesh that is broken, at its least numbers; None exactly where the mesh is good. Takes memory for
/// what is known of each line, for the length of the call; where it is refused, each pair of a triangle and a line is looked
/// at.
pub fn mesh_fault(alloc: Global, plan: &Plan, mesh: &Mesh, labels: &Labels) -> Option<MeshFault>
    requires points { mesh.now.points ≡ length plan.now.points }
    requires one_each { length labels.now ≡ length mesh.now.triangles }
    ensures { IsMeshVerdict (map_of plan.now) mesh.now.triangles labels.now result }
{
    if let Some(triangle) = first_flat(plan, mesh) {
        return Some(MeshFault::Flat { triangle });
    }
    if let Some(triangle) = first_twice(mesh) {
        return Some(MeshFault::Twice { triangle });
    }
    if let Some(triangle) = first_without_mate(alloc, plan, mesh, labels) {
        return Some(MeshFault::NoMate { triangle });
    }
    if let Some(side) = first_unfit_side(plan, mesh, labels) {
        return Some(MeshFault::NoTriangle { side });
    }
    if let Some((triangle, line)) = first_meeting(alloc, plan, mesh) {
        return Some(MeshFault::Meets { triangle, line });
    }
    if let Some((triangle, point)) = first_inside(plan, mesh) {
        return Some(MeshFault::Inside { triangle, point });
    }
    None
}

/// Whether all three hold.
fn all(first: bool, second: bool, third: bool) -> bool
    ensures { IsTrue result ↔ (IsTrue first × IsTrue second × IsTrue third) }
{
    first && second && third
}

/// Whether the corners stand counterclockwise.
fn is_counterclockwise(plan: &Plan, t: Triangle) -> bool
    requires { IsTriangle (length plan.now.points) t }
    ensures { IsTrue result ↔ IsCounterclockwise (map_of plan.now) t }
{
    turn(plan.place(t.p), plan.place(t.q), plan.place(t.r)) > 0
}

/// The triangles of a mesh over the points of the plan.
fn triangles_of<'a>(plan: &Plan, mesh: &'a Mesh) -> &'a [Triangle]
    requires { mesh.now.points ≡ length plan.now.points }
    ensures list { result.now ≡ mesh.now.triangles }
    ensures triangles { AreTriangles (length (points_of (map_of plan.now))) mesh.now.triangles }
    ensures few { length mesh.now.triangles ≤ MOST_TRIANGLES }
    ensures numbers { AreTriangles (length plan.now.points) mesh.now.triangles }
{
    let _ = plan.points();
    mesh.triangles()
}

/// The least triangle whose turn isn't positive.
fn first_flat(plan: &Plan, mesh: &Mesh) -> Option<u16>
    requires { mesh.now.points ≡ length plan.now.points }
    ensures triangles { AreTriangles (length (points_of (map_of plan.now))) mesh.now.triangles }
    ensures search { IsSearch (TurnsAt (map_of plan.now) mesh.now.triangles) result }
{
    for (k, t) in triangles_of(plan, mesh).iter().enumerate() {
        if !is_counterclockwise(plan, *t) {
            return Some(k as u16);
        }
    }
    None
}

/// Whether the triangle at `k` is the first one with each of its directed edges.
fn is_new(mesh: &Mesh, k: u16, t: Triangle) -> bool
    requires { slice_get mesh.now.triangles k ≡ Some t }
    ensures { IsTrue result ↔ IsNewAt mesh.now.triangles k }
{
    all(
        is_first_with(mesh, k, t.p, t.q),
        is_first_with(mesh, k, t.q, t.r),
        is_first_with(mesh, k, t.r, t.p),
    )
}

/// Whether `k` is the least triangle with this directed edge.
fn is_first_with(mesh: &Mesh, k: u16, u: u16, v: u16) -> bool
    ensures { IsTrue result ↔ (triangle_at mesh.now.triangles (record { from = u; to = v }) ≡ Some k) }
{
    mesh.triangle_at(u, v) == Some(k)
}

/// The least triangle that has a directed edge of an earlier one.
fn first_twice(mesh: &Mesh) -> Option<u16>
    ensures { IsSearch (IsNewAt mesh.now.triangles) result }
{
    for (k, t) in mesh.triangles().iter().enumerate() {
        if !is_new(mesh, k as u16, *t) {
            return Some(k as u16);
        }
    }
    None
}

/// Whether the reverse of the edge is in a triangle with this label.
fn has_mate(mesh: &Mesh, labels: &Labels, label: u16, u: u16, v: u16) -> bool
    requires { length labels.now ≡ length mesh.now.triangles }
    ensures { IsTrue result ↔ HasMate mesh.now.triangles labels.now (record { from = u; to = v }) label }
{
    match mesh.triangle_at(v, u) {
        Some(k) => labels.get(k) == Some(label),
        None => false,
    }
}

/// Whether the line goes between the two points, in the one direction or the other.
fn joins(line: Line, u: u16, v: u16) -> bool
    ensures { IsTrue result ↔ (((line.a ≡ u) × (line.b ≡ v)) ⊎ ((line.a ≡ v) × (line.b ≡ u))) }
{
    (line.a == u && line.b == v) || (line.a == v && line.b == u)
}

/// Whether the edge is the line of this record, in the one direction or the other.
fn is_line_at(plan: &Plan, i: usize, u: u16, v: u16) -> bool
    requires { i < length plan.now.lines }
    ensures { IsTrue result ↔ IsEdgeOf (map_of plan.now) (record { from = u; to = v }) i }
{
    match plan.lines()[i] {
        Some(line) => joins(line, u, v),
        None => false,
    }
}

/// Whether the edge is a line of the plan, in the one direction or the other.
fn is_line(plan: &Plan, u: u16, v: u16) -> bool
    ensures { IsTrue result ↔ IsLineEdge (map_of plan.now) (record { from = u; to = v }) }
{
    for i in 0..plan.lines().len() {
        if is_line_at(plan, i, u, v) {
            return true;
        }
    }
    false
}

/// Whether the chains lead to a line that is this edge.
fn is_chained_line(plan: &Plan, chains: &Chains, u: u16, v: u16) -> bool
    ensures { IsTrue result → IsLineEdge (map_of plan.now) (record { from = u; to = v }) }
{
    let count = plan.lines().len();
    let mut at = chains.start(u, v);
    for _ in 0..count {
        if at == 0 || at > count {
            return false;
        }
        if is_line_at(plan, at - 1, u, v) {
            return true;
        }
        at = chains.before(at - 1);
    }
    false
}

/// Whether the edge is a line of the plan: one of the chains, or else any.
fn is_some_line(plan: &Plan, chains: &Chains, u: u16, v: u16) -> bool
    ensures { IsTrue result ↔ IsLineEdge (map_of plan.now) (record { from = u; to = v }) }
{
    is_chained_line(plan, chains, u, v) || is_line(plan, u, v)
}

/// Whether the edge of a triangle with this label has its mate or is a line.
fn is_tied(
    plan: &Plan,
    chains: &Chains,
    mesh: &Mesh,
    labels: &Labels,
    label: u16,
    u: u16,
    v: u16,
) -> bool
    requires { length labels.now ≡ length mesh.now.triangles }
    ensures { IsTrue result ↔ (HasMate mesh.now.triangles labels.now (record { from = u; to = v }) label ⊎ IsLineEdge (map_of plan.now) (record { from = u; to = v })) }
{
    has_mate(mesh, labels, label, u, v) || is_some_line(plan, chains, u, v)
}

/// Whether each edge of the triangle at `k` is tied, if it has a label.
fn has_mates(
    plan: &Plan,
    chains: &Chains,
    mesh: &Mesh,
    labels: &Labels,
    k: u16,
    t: Triangle,
) -> bool
    requires one_each { length labels.now ≡ length mesh.now.triangles }
    requires here { slice_get mesh.now.triangles k ≡ Some t }
    ensures { IsTrue result ↔ HasMatesAt (map_of plan.now) mesh.now.triangles labels.now k }
{
    match labels.get(k) {
        Some(label) => {
            all(
                is_tied(plan, chains, mesh, labels, label, t.p, t.q),
                is_tied(plan, chains, mesh, labels, label, t.q, t.r),
                is_tied(plan, chains, mesh, labels, label, t.r, t.p),
            )
        }
        None => true,
    }
}

/// The least labelled triangle with an edge that is no line and has no mate of the same label.
fn first_without_mate(alloc: Global, plan: &Plan, mesh: &Mesh, labels: &Labels) -> Option<u16>
    requires { length labels.now ≡ length mesh.now.triangles }
    ensures { IsSearch (HasMatesAt (map_of plan.now) mesh.now.triangles labels.now) result }
{
    let chains = chains_of(alloc, plan);
    for (k, t) in mesh.triangles().iter().enumerate() {
        if !has_mates(plan, &chains, mesh, labels, k as u16, *t) {
            return Some(k as u16);
        }
    }
    None
}

/// Whether the triangle with this directed edge fits a side with this name: it is there with that label, or where
/// there is no name it has no label.
fn fits(mesh: &Mesh, labels: &Labels, sector: Option<u16>, u: u16, v: u16) -> bool
    requires { length labels.now ≡ length mesh.now.triangles }
    ensures { IsTrue result ↔ IsFitting mesh.now.triangles labels.now (record { from = u; to = v }) sector }
{
    match sector {
        Some(sector) => has_mate(mesh, labels, sector, v, u),
        None => has_no_label(mesh, labels, u, v),
    }
}

/// Whether no triangle with this directed edge has a label.
fn has_no_label(mesh: &Mesh, labels: &Labels, u: u16, v: u16) -> bool
    requires { length labels.now ≡ length mesh.now.triangles }
    ensures { IsTrue result ↔ IsFitting mesh.now.triangles labels.now (record { from = u; to = v }) None }
{
    match mesh.triangle_at(u, v) {
        Some(k) => labels.get(k) == None,
        None => true,
    }
}

/// The first side of the line that its triangle doesn't fit, by whether it is the left one.
fn unfit_side(mesh: &Mesh, labels: &Labels, line: Line) -> Option<bool>
    requires { length labels.now ≡ length mesh.now.triangles }
    ensures { IsUnfitLine mesh.now.triangles labels.now line result }
{
    if !fits(mesh, labels, line.right, line.b, line.a) {
        return Some(false);
    }
    if !fits(mesh, labels, line.left, line.a, line.b) {
        return Some(true);
    }
    None
}

/// The first side of this record that its triangle doesn't fit.
fn unfit_side_at(plan: &Plan, mesh: &Mesh, labels: &Labels, i: usize) -> Option<bool>
    requires record { i < length plan.now.lines }
    requires one_each { length labels.now ≡ length mesh.now.triangles }
    ensures { IsUnfitSide (map_of plan.now) mesh.now.triangles labels.now i result }
{
    match plan.lines()[i] {
        Some(line) => unfit_side(mesh, labels, line),
        None => None,
    }
}

/// The least side that its triangle doesn't fit.
fn first_unfit_side(plan: &Plan, mesh: &Mesh, labels: &Labels) -> Option<Side>
    requires { length labels.now ≡ length mesh.now.triangles }
    ensures { IsSideSearch (FitsAt (map_of plan.now) mesh.now.triangles labels.now) result }
{
    for i in 0..plan.lines().len() {
        if let Some(left) = unfit_side_at(plan, mesh, labels, i) {
            return Some(Side {
                line: i as u16,
                left,
            });
        }
    }
    None
}

/// Whether the edge meets the line at ends of both alone, or is the same segment.
fn meets_fairly(plan: &Plan, line: Line, u: u16, v: u16) -> bool
    requires plan { IsPlan plan.now }
    requires first { u < length plan.now.points }
    requires second { v < length plan.now.points }
    requires differ { u ≢ v }
    requires line { IsPlanLine plan.now.sectors (length plan.now.points) line }
    ensures { IsTrue result ↔ MeetsFairly (map_of plan.now) (record { from = u; to = v }) (looked_up plan.now.points line) }
{
    joins(line, u, v)
        || meet_at_ends(
            plan.place(u),
            plan.place(v),
            plan.place(line.a),
            plan.place(line.b),
        )
}

/// Whether all numbers of the line's ends are before the triangle's, or all are behind them.
fn is_numbered_apart(line: Line, t: Triangle) -> bool
    ensures { IsTrue result ↔ (AreBeforeLeast line.a line.b t.p t.q t.r ⊎ AreBehind line.a line.b t.p t.q t.r) }
{
    (line.a < t.p && line.b < t.p)
        || (t.p < line.a
            && t.q < line.a
            && t.r < line.a
            && t.p < line.b
            && t.q < line.b
            && t.r < line.b)
}

/// Whether the point is below the other three.
fn is_under(point: Pt, p: Pt, q: Pt, r: Pt) -> bool
    ensures { IsTrue result ↔ ((point.y <ℤ p.y) × (point.y <ℤ q.y) × (point.y <ℤ r.y)) }
{
    all(point.y < p.y, point.y < q.y, point.y < r.y)
}

/// Whether the point is above the other three.
fn is_over(point: Pt, p: Pt, q: Pt, r: Pt) -> bool
    ensures { IsTrue result ↔ ((p.y <ℤ point.y) × (q.y <ℤ point.y) × (r.y <ℤ point.y)) }
{
    all(p.y < point.y, q.y < point.y, r.y < point.y)
}

/// Whether the line is wholly below the triangle, or wholly above it.
fn is_below_or_above(plan: &Plan, line: Line, t: Triangle) -> bool
    requires triangle { IsTriangle (length plan.now.points) t }
    requires line { IsPlanLine plan.now.sectors (length plan.now.points) line }
    ensures { OnTrue result (IsMetFairly (map_of plan.now) t (looked_up plan.now.points line)) }
{
    let (a, b) = (plan.place(line.a), plan.place(line.b));
    let (p, q, r) = (plan.place(t.p), plan.place(t.q), plan.place(t.r));
    if all(is_under(a, p, q, r), is_under(b, p, q, r), true) {
        return true;
    }
    all(is_over(a, p, q, r), is_over(b, p, q, r), true)
}

/// Whether each edge of the triangle meets the line at ends of both alone, or is the same segment.
fn edges_meet_fairly(plan: &Plan, line: Line, t: Triangle) -> bool
    requires plan { IsPlan plan.now }
    requires triangle { IsTriangle (length plan.now.points) t }
    requires line { IsPlanLine plan.now.sectors (length plan.now.points) line }
    ensures { IsTrue result ↔ IsMetFairly (map_of plan.now) t (looked_up plan.now.points line) }
{
    if is_numbered_apart(line, t) {
        return true;
    }
    if is_below_or_above(plan, line, t) {
        return true;
    }
    all(
        meets_fairly(plan, line, t.p, t.q),
        meets_fairly(plan, line, t.q, t.r),
        meets_fairly(plan, line, t.r, t.p),
    )
}

/// Whether this record is no line, or each edge of the triangle meets its line at ends of both alone or is the same segment.
fn is_met_fairly(plan: &Plan, i: usize, t: Triangle) -> bool
    requires record { i < length plan.now.lines }
    requires triangle { IsTriangle (length plan.now.points) t }
    ensures { IsTrue result ↔ IsLineMetFairly (map_of plan.now) t i }
{
    match plan.lines()[i] {
        Some(line) => edges_meet_fairly(plan, line, t),
        None => true,
    }
}

/// The least line that an edge of the triangle meets otherwise than at ends of both or as the same segment.
fn first_met(plan: &Plan, t: Triangle) -> Option<u16>
    requires { IsTriangle (length plan.now.points) t }
    ensures { IsSearch (IsLineMetFairly (map_of plan.now) t) result }
{
    for i in 0..plan.lines().len() {
        if !is_met_fairly(plan, i, t) {
            return Some(i as u16);
        }
    }
    None
}

/// The least y of three points.
fn lowest(a: Pt, b: Pt, c: Pt) -> i32
    ensures { result ≡ int_min (int_min a.y b.y) c.y }
{
    a.y.min(b.y).min(c.y)
}

/// The greatest y of three points.
fn highest(a: Pt, b: Pt, c: Pt) -> i32
    ensures { result ≡ int_max (int_max a.y b.y) c.y }
{
    a.y.max(b.y).max(c.y)
}

/// What a triangle spans by its corners' numbers and by y.
fn band_of(plan: &Plan, t: Triangle) -> Span
    requires { IsTriangle (length plan.now.points) t }
    ensures { IsBand (map_of plan.now) t result }
{
    let (a, b, c) = (plan.place(t.p), plan.place(t.q), plan.place(t.r));
    Span {
        least: t.p,
        greatest: t.q.max(t.r),
        low: lowest(a, b, c),
        high: highest(a, b, c),
        line: 0,
    }
}

/// The same for the line of this span. Most are below the triangle or above it.
fn is_span_fair(plan: &Plan, span: Span, t: Triangle, band: Span) -> bool
    requires plan { IsPlan plan.now }
    requires span { IsSpanIn plan.now span }
    requires triangle { IsTriangle (length plan.now.points) t }
    requires band { IsBand (map_of plan.now) t band }
    ensures { IsTrue result → IsLineMetFairly (map_of plan.now) t span.line }
{
    if ends_below(span, band) {
        return true;
    }
    if ends_below(band, span) {
        return true;
    }
    is_met_fairly(plan, span.line as usize, t)
}

/// Whether the same holds of all lines. The sweep begins at the last one that doesn't begin behind the triangle's corners,
/// and goes back over those that end before its least corner.
fn is_fair_to_all(plan: &Plan, spans: &[Span], skips: &[u16], t: Triangle) -> bool
    requires plan { IsPlan plan.now }
    requires spans { AreSpans plan.now spans.now }
    requires skips { AreSkips spans.now skips.now }
    requires each { length skips.now ≡ length spans.now }
    requires triangle { IsTriangle (length plan.now.points) t }
    ensures { IsTrue result → (i : ℕ) → IsLineMetFairly (map_of plan.now) t i }
{
    let band = band_of(plan, t);
    let mut k = first_behind(plan, spans, band.greatest);
    while k > 0 {
        if spans[k - 1].greatest < t.p {
            k = skips[k - 1] as usize;
            continue;
        }
        if !is_span_fair(plan, spans[k - 1], t, band) {
            return false;
        }
        k -= 1;
    }
    true
}

/// Whether it holds of all triangles and lines.
fn are_all_fair(plan: &Plan, spans: &[Span], skips: &[u16], mesh: &Mesh) -> bool
    requires plan { IsPlan plan.now }
    requires points { mesh.now.points ≡ length plan.now.points }
    requires spans { AreSpans plan.now spans.now }
    requires skips { AreSkips spans.now skips.now }
    requires each { length skips.now ≡ length spans.now }
    ensures { IsTrue result → (k i : ℕ) → IsFairAt (map_of plan.now) mesh.now.triangles k i }
{
    for t in mesh.triangles() {
        if !is_fair_to_all(plan, spans, skips, *t) {
            return false;
        }
    }
    true
}

/// The same, once it is known how far the sweeps may go back; not where memory for that is refused.
fn are_fair_in_order(alloc: Global, plan: &Plan, spans: &[Span], mesh: &Mesh) -> bool
    requires plan { IsPlan plan.now }
    requires points { mesh.now.points ≡ length plan.now.points }
    requires spans { AreSpans plan.now spans.now }
    requires few { length spans.now ≤ LARGE_LINES }
    ensures { IsTrue result → (k i : ℕ) → IsFairAt (map_of plan.now) mesh.now.triangles k i }
{
    let Ok(mut skips) = vec![in alloc; 0u16; spans.len()] else {
        return false;
    };
    put_skips(spans, skips.as_mut_slice());
    are_all_fair(plan, spans, skips.as_slice(), mesh)
}

/// Whether a sweep over the lines finds for no triangle one that it meets otherwise. Where memory for it is refused, it finds
/// nothing out.
fn is_swept_fairly(alloc: Global, plan: &Plan, mesh: &Mesh) -> bool
    requires { mesh.now.points ≡ length plan.now.points }
    ensures { IsTrue result → (k i : ℕ) → IsFairAt (map_of plan.now) mesh.now.triangles k i }
{
    let Ok(mut spans) = vec![in alloc; NO_SPAN; plan.lines().len()] else {
        return false;
    };
    put_spans(plan, spans.as_mut_slice());
    are_fair_in_order(alloc, plan, spans.as_slice(), mesh)
}

/// The least triangle with such an edge, and the least line that it meets.
fn first_meeting(alloc: Global, plan: &Plan, mesh: &Mesh) -> Option<(u16, u16)>
    requires { mesh.now.points ≡ length plan.now.points }
    ensures { IsPairSearch (IsFairAt (map_of plan.now) mesh.now.triangles) result }
{
    if is_swept_fairly(alloc, plan, mesh) {
        return None;
    }
    for (k, t) in mesh.triangles().iter().enumerate() {
        if let Some(line) = first_met(plan, *t) {
            return Some((k as u16, line));
        }
    }
    None
}

/// The least point strictly inside the triangle: its number is between the least and the greatest of the corners'.
fn first_point_inside(plan: &Plan, t: Triangle) -> Option<u16>
    requires triangle { IsTriangle (length plan.now.points) t }
    requires turn { IsCounterclockwise (map_of plan.now) t }
    ensures { IsSearch (IsOutsideOf (map_of plan.now) t) result }
{
    let (a, b, c) = (plan.place(t.p), plan.place(t.q), plan.place(t.r));
    let last = t.q.max(t.r);
    for k in t.p..last {
        if in_triangle(a, b, c, plan.place(k)) {
            return Some(k);
        }
    }
    None
}

/// The least triangle with a point strictly inside, and the least such point.
fn first_inside(plan: &Plan, mesh: &Mesh) -> Option<(u16, u16)>
    requires points { mesh.now.points ≡ length plan.now.points }
    requires turn { (k : ℕ) → TurnsAt (map_of plan.now) mesh.now.triangles k }
    ensures { IsPairSearch (IsEmptyAt (map_of plan.now) mesh.now.triangles) result }
{
    for (k, t) in mesh.triangles().iter().enumerate() {
        if let Some(point) = first_point_inside(plan, *t) {
            return Some((k as u16, point));
        }
    }
    None
}
