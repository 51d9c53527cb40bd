//! The audit of a map's lines: any two may share one end of both, and nothing else.
#![tactic(auto)]

ghost use Rattle.std.specs.Prelude.{◌≡◌, ◌+◌, ◌<◌, Some, length, slice_get, option_and_then, MatchOption, IsOk, IsTrue, ◌↔◌, ◌<ℤ◌};
ghost use Rattle.sight_names.specs.Map.{map_of, looked_up};
ghost use Rattle.sight_names.specs.Plan.{IsPlan, IsPlanLine};
ghost use Rattle.sight_names.specs.Sound.{LinesMeetAtEnds};
ghost use Rattle.geom_exact.specs.LineSpans.Spans.{AreSpans, IsSpanIn};
ghost use Rattle.map_audit.specs.Audit.{AreRelated, FineAt, FineBefore, FineFrom, IsLineFaultOf, IsLineFault, fault_by};

use geom_exact::line_spans::{NO_SPAN, Span, ends_below, put_spans};
use geom_exact::{Relation, seg_relation};
use sight_names::{Line, LineFault, Plan, Pt};
use std::alloc::Global;

/// Whether each two lines of the map share nothing but an end of both. Takes memory for a span of each line, for the length
/// of the call; where it is refused, each pair of lines is looked at.
///
/// # Errors
///
/// The least pair of line records, by the first number and then the second, whose lines share more: they cross,
/// one touches the other with an end, or they overlap.
pub fn audit_lines(alloc: Global, plan: &Plan) -> Result<(), LineFault>
    ensures sound { IsOk result ↔ LinesMeetAtEnds (map_of plan.now) }
    ensures fault { (f : LineFault) → (result ≡ Err f) ↔ IsLineFault (map_of plan.now) f }
{
    if is_swept_clean(alloc, plan) {
        return Ok(());
    }
    match first_fault(plan) {
        Some(fault) => Err(fault),
        None => Ok(()),
    }
}

/// Whether a sweep over the lines finds no two that share more than an end of both. Where memory for it is refused, it
/// finds nothing out.
fn is_swept_clean(alloc: Global, plan: &Plan) -> bool
    ensures { IsTrue result → LinesMeetAtEnds (map_of plan.now) }
{
    let Ok(mut spans) = vec![in alloc; NO_SPAN; plan.lines().len()] else {
        return false;
    };
    put_spans(plan, spans.as_mut_slice());
    are_clean(plan, spans.as_slice())
}

/// Whether each line shares nothing but an end of both with those that come later in the order of lesser ends.
fn are_clean(plan: &Plan, spans: &[Span]) -> bool
    requires plan { IsPlan plan.now }
    requires spans { AreSpans plan.now spans.now }
    ensures { IsTrue result → LinesMeetAtEnds (map_of plan.now) }
{
    for (k, span) in spans.iter().enumerate() {
        if !is_clean_from(plan, spans, *span, k + 1) {
            return false;
        }
    }
    true
}

/// Whether the line of this span shares nothing but an end of both with those from place `from` on. The first one whose
/// lesser end lies behind the line's greater end ends the sweep.
fn is_clean_from(plan: &Plan, spans: &[Span], one: Span, from: usize) -> bool
    requires plan { IsPlan plan.now }
    requires spans { AreSpans plan.now spans.now }
    requires span { IsSpanIn plan.now one }
    ensures { IsTrue result → FineFrom (map_of plan.now) one.line spans.now from }
{
    for k in from..spans.len() {
        if one.greatest < spans[k].least {
            return true;
        }
        if !is_clean_with(plan, one, spans[k]) {
            return false;
        }
    }
    true
}

/// Whether the lines of the two spans have no fault. Most are apart by their y.
fn is_clean_with(plan: &Plan, one: Span, other: Span) -> bool
    requires one { IsSpanIn plan.now one }
    requires other { IsSpanIn plan.now other }
    ensures { IsTrue result → FineAt (map_of plan.now) one.line other.line }
{
    if ends_below(one, other) {
        return true;
    }
    if ends_below(other, one) {
        return true;
    }
    is_clean_pair(plan, one.line, other.line)
}

/// Whether records `i` and `j` have no fault.
fn is_clean_pair(plan: &Plan, i: u16, j: u16) -> bool
    ensures { IsTrue result → FineAt (map_of plan.now) i j }
{
    match plan.line(i) {
        Some(line) => fault_with(plan, i, line, j).is_none(),
        None => true,
    }
}

/// The fault of the first pair of lines that share more than an end of both.
fn first_fault(plan: &Plan) -> Option<LineFault>
    ensures { MatchOption result (FineBefore (map_of plan.now) (length plan.now.lines)) (λ f. IsLineFault (map_of plan.now) f) }
{
    for i in 0..plan.lines().len() {
        if let Some(fault) = fault_from(plan, i as u16) {
            return Some(fault);
        }
    }
    None
}

/// The fault of record `i` with the first later one that it shares more with, where the records before `i` have none.
fn fault_from(plan: &Plan, i: u16) -> Option<LineFault>
    requires { FineBefore (map_of plan.now) i }
    ensures { MatchOption result (FineBefore (map_of plan.now) (i + 1)) (λ f. IsLineFault (map_of plan.now) f) }
{
    let line = plan.line(i)?;
    fault_of_line(plan, i, line)
}

/// The same for a record that is a line.
fn fault_of_line(plan: &Plan, i: u16, line: Line) -> Option<LineFault>
    requires earlier { FineBefore (map_of plan.now) i }
    requires there { option_and_then (λ l. l) (slice_get plan.now.lines i) ≡ Some line }
    requires fits { IsPlanLine plan.now.sectors (length plan.now.points) line }
    ensures { MatchOption result (FineBefore (map_of plan.now) (i + 1)) (λ f. IsLineFault (map_of plan.now) f) }
{
    for j in i as usize + 1..plan.lines().len() {
        if let Some(fault) = fault_with(plan, i, line, j as u16) {
            return Some(fault);
        }
    }
    None
}

/// The fault of the line of record `i` with record `j`.
fn fault_with(plan: &Plan, i: u16, line: Line, j: u16) -> Option<LineFault>
    requires there { option_and_then (λ l. l) (slice_get plan.now.lines i) ≡ Some line }
    requires fits { IsPlanLine plan.now.sectors (length plan.now.points) line }
    ensures { MatchOption result (FineAt (map_of plan.now) i j) (λ f. IsLineFaultOf (map_of plan.now) i j f) }
{
    let other = plan.line(j)?;
    fault_of_pair(i, j, relation(plan, line, other))
}

/// The fault of records `i` and `j`, None where their lines are apart or have an end in common.
fn fault_of_pair(i: u16, j: u16, relation: Relation) -> Option<LineFault>
    ensures { result ≡ fault_by i j relation }
{
    match relation {
        Relation::Apart | Relation::Ends => None,
        Relation::Touch => Some(LineFault::Touch { i, j }),
        Relation::Cross => Some(LineFault::Cross { i, j }),
        Relation::Overlap => Some(LineFault::Overlap { i, j }),
    }
}

/// What two lines of the plan have in common. Most pairs are apart by their point numbers, which ascend by x and
/// then y, or by their y.
fn relation(plan: &Plan, one: Line, other: Line) -> Relation
    requires one { IsPlanLine plan.now.sectors (length plan.now.points) one }
    requires other { IsPlanLine plan.now.sectors (length plan.now.points) other }
    ensures { AreRelated (looked_up plan.now.points one) (looked_up plan.now.points other) result }
{
    let points = plan.points();
    if is_before(one, other) {
        return Relation::Apart;
    }
    if is_before(other, one) {
        return Relation::Apart;
    }
    let p = points[one.a as usize];
    let q = points[one.b as usize];
    let r = points[other.a as usize];
    let s = points[other.b as usize];
    if is_below(p, q, r, s) {
        return Relation::Apart;
    }
    if is_below(r, s, p, q) {
        return Relation::Apart;
    }
    seg_relation(p, q, r, s)
}

/// Whether both point numbers of `one` are below both of `other`.
fn is_before(one: Line, other: Line) -> bool
    ensures { IsTrue result ↔ ((one.a < other.a) × (one.a < other.b) × (one.b < other.a) × (one.b < other.b)) }
{
    one.a < other.a && one.a < other.b && one.b < other.a && one.b < other.b
}

/// Whether the segment from `p` to `q` is lower, by y, than the one from `r` to `s`.
fn is_below(p: Pt, q: Pt, r: Pt, s: Pt) -> bool
    ensures { IsTrue result → ((p.y <ℤ r.y) × (p.y <ℤ s.y) × (q.y <ℤ r.y) × (q.y <ℤ s.y)) }
{
    is_lower(p, r, s) && is_lower(q, r, s)
}

/// Whether the point is lower than both ends of the segment.
fn is_lower(p: Pt, r: Pt, s: Pt) -> bool
    ensures { IsTrue result ↔ ((p.y <ℤ r.y) × (p.y <ℤ s.y)) }
{
    p.y < r.y && p.y < s.y
}
