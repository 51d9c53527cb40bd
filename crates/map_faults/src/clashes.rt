//! All pairs of lines that share more than an end of both, in order.

ghost use Rattle.std.specs.Prelude.{◌≡◌, ◌<◌, ◌≤◌, ◌↔◌, ◌++◌, [], Some, IfOk, OnOk, MatchOption, length, map, option_and_then, slice_get, take};
ghost use Rattle.sight_names.specs.Map.{map_of, looked_up};
ghost use Rattle.sight_names.specs.declared.faults.LineFault.{LineFault};
ghost use Rattle.sight_names.specs.Plan.{IsPlanLine};
ghost use Rattle.sight_names.specs.Sound.{LinesMeetAtEnds};
ghost use Rattle.map_faults.specs.declared.clashes.LinePair.{LinePair};
ghost use Rattle.geom_exact.specs.LineSpans.Spans.{AreSkips, AreSpans, IsSpanIn, span_of as span_in};
ghost use Rattle.map_audit.specs.Audit.{AreRelated, FineAt, IsLineFaultOf, IsLineFault, fault_by};
ghost use Rattle.map_faults.specs.Clashes.{AddsIfClash, AreFirstClashes, AreLaterClashes, AreNumbersInOrder, AreClashesOf, clash_of_lines};

use geom_exact::line_spans::{NO_SPAN, Span, ends_below, first_behind, put_skips, put_spans};
use geom_exact::{Relation, seg_relation};
use sight_names::{Items, LARGE_LINES, Line, LineFault, Memory, Plan};
use std::alloc::Global;

/// How many pairs of lines are kept; the others are counted alone.
pub const MOST_CLASHES: usize = 1_000;

/// The record numbers of two lines, the lesser first.
#[derive(Clone, Copy)]
pub struct LinePair {
    pub i: u16,
    pub j: u16,
}

/// The first clashing pairs, at most `MOST_CLASHES`, and how many there are in all.
#[derive(Drop)]
pub struct Clashes {
    pub first: Items<LinePair>,
    pub count: u64,
}

/// All pairs of lines that share more than an end of both, by the first number and then by the second. Takes memory for
/// spans of the lines, and for the pairs of one line.
pub fn clashes_of(alloc: Global, plan: &Plan) -> Result<Clashes, Memory>
    ensures clashes { IfOk result (λ c. AreFirstClashes (map_of plan.now) c.first c.count) }
    ensures first { IfOk result (λ c. (p : LinePair) (f : LineFault) → slice_get c.first 0 ≡ Some p → IsLineFaultOf (map_of plan.now) p.i p.j f → IsLineFault (map_of plan.now) f) }
    ensures none { IfOk result (λ c. (c.count ≡ 0) ↔ LinesMeetAtEnds (map_of plan.now)) }
{
    let mut spans = vec![in alloc; NO_SPAN; plan.lines().len()]?;
    put_spans(plan, spans.as_mut_slice());
    let mut skips = vec![in alloc; 0u16; spans.len()]?;
    put_skips(spans.as_slice(), skips.as_mut_slice());
    clashes_by(alloc, plan, spans.as_slice(), skips.as_slice())
}

/// The same by the spans of the lines.
fn clashes_by(alloc: Global, plan: &Plan, spans: &[Span], skips: &[u16]) -> Result<Clashes, Memory>
    requires spans { AreSpans plan.now spans.now }
    requires lines { length spans.now ≡ length plan.now.lines }
    requires skips { AreSkips spans.now skips.now }
    requires each { length skips.now ≡ length spans.now }
    ensures { IfOk result (λ c. AreFirstClashes (map_of plan.now) c.first c.count) }
{
    let mut first = Vec::new(alloc);
    let mut count = 0u64;
    for i in 0..plan.lines().len() {
        let others = clashes_with(alloc, plan, spans, skips, i as u16)?;
        keep_first(&mut first, i as u16, others.as_slice())?;
        count += others.len() as u64;
    }
    Ok(Clashes {
        first: Items::of(first),
        count,
    })
}

/// Puts the pairs of record `i` with these behind the others, as long as there are few.
fn keep_first(pairs: &mut Vec<LinePair>, i: u16, others: &[u16]) -> Result<(), Memory>
    requires { length pairs.old.items ≤ MOST_CLASHES }
    ensures { OnOk result (pairs.new.items ≡ take MOST_CLASHES (pairs.old.items ++ map (clash_of_lines i) others.now)) }
{
    for j in others {
        if pairs.len() == MOST_CLASHES {
            return Ok(());
        }
        pairs.push(LinePair { i, j: *j })?;
    }
    Ok(())
}

/// The later records whose lines clash with the one of record `i`, in order.
fn clashes_with(
    alloc: Global,
    plan: &Plan,
    spans: &[Span],
    skips: &[u16],
    i: u16,
) -> Result<Vec<u16>, Memory>
    requires spans { AreSpans plan.now spans.now }
    requires lines { length spans.now ≡ length plan.now.lines }
    requires skips { AreSkips spans.now skips.now }
    requires each { length skips.now ≡ length spans.now }
    requires record { i < length plan.now.lines }
    ensures clashes { IfOk result (λ v. AreClashesOf (map_of plan.now) i v.items) }
    ensures few { IfOk result (λ v. length v.items ≤ LARGE_LINES) }
{
    let _ = plan.lines();
    let mut found = Vec::new(alloc);
    find_clashes(plan, spans, skips, i, &mut found)?;
    Ok(in_order(found))
}

/// Finds the later records whose lines clash with the one of record `i`.
fn find_clashes(
    plan: &Plan,
    spans: &[Span],
    skips: &[u16],
    i: u16,
    found: &mut Vec<u16>,
) -> Result<(), Memory>
    requires spans { AreSpans plan.now spans.now }
    requires skips { AreSkips spans.now skips.now }
    requires each { length skips.now ≡ length spans.now }
    requires record { i < length plan.now.lines }
    requires none { found.old.items ≡ [] }
    ensures clashes { OnOk result (AreLaterClashes (map_of plan.now) i found.new.items) }
    ensures few { OnOk result (length found.new.items ≤ length spans.now) }
{
    let Some(line) = plan.line(i) else {
        return Ok(());
    };
    sweep(plan, spans, skips, span_of(plan, line, i), found)
}

/// The span of this line with this record number.
fn span_of(plan: &Plan, line: Line, i: u16) -> Span
    requires { IsPlanLine plan.now.sectors (length plan.now.points) line }
    ensures { result ≡ span_in plan.now.points line i }
{
    let points = plan.points();
    let (a, b) = (points[line.a as usize].y, points[line.b as usize].y);
    Span {
        least: line.a.min(line.b),
        greatest: line.a.max(line.b),
        low: a.min(b),
        high: a.max(b),
        line: i,
    }
}

/// The same for the line of this span. The sweep begins at the last span that doesn't begin behind it, and goes back over
/// those that end before it.
fn sweep(
    plan: &Plan,
    spans: &[Span],
    skips: &[u16],
    one: Span,
    found: &mut Vec<u16>,
) -> Result<(), Memory>
    requires spans { AreSpans plan.now spans.now }
    requires skips { AreSkips spans.now skips.now }
    requires each { length skips.now ≡ length spans.now }
    requires one { IsSpanIn plan.now one }
    requires none { found.old.items ≡ [] }
    ensures clashes { OnOk result (AreLaterClashes (map_of plan.now) one.line found.new.items) }
    ensures few { OnOk result (length found.new.items ≤ length spans.now) }
{
    let _ = plan.lines();
    let mut k = first_behind(plan, spans, one.greatest);
    while k > 0 {
        if spans[k - 1].greatest < one.least {
            k = skips[k - 1] as usize;
            continue;
        }
        add_if_clash(plan, one, spans[k - 1], found)?;
        k -= 1;
    }
    Ok(())
}

/// Adds the record of the other span, if it is later and the lines of the two clash.
fn add_if_clash(plan: &Plan, one: Span, other: Span, found: &mut Vec<u16>) -> Result<(), Memory>
    requires one { IsSpanIn plan.now one }
    requires other { IsSpanIn plan.now other }
    ensures { OnOk result (AddsIfClash (map_of plan.now) one.line other.line found.old.items found.new.items) }
{
    if other.line <= one.line {
        return Ok(());
    }
    if ends_below(one, other) {
        return Ok(());
    }
    if ends_below(other, one) {
        return Ok(());
    }
    if fault_of(plan, one.line, other.line).is_some() {
        found.push(other.line)?;
    }
    Ok(())
}

/// The fault of records `i` and `j`: None where one is no line, or their lines are apart or have an end in common.
pub fn fault_of(plan: &Plan, i: u16, j: u16) -> Option<LineFault>
    ensures { MatchOption result (FineAt (map_of plan.now) i j) (λ f. IsLineFaultOf (map_of plan.now) i j f) }
{
    let one = plan.line(i)?;
    let other = plan.line(j)?;
    fault_named(i, j, relation_of(plan, one, other))
}

/// What two lines of the plan have in common.
fn relation_of(plan: &Plan, one: Line, other: Line) -> Relation
    requires one { IsPlanLine plan.now.sectors (length plan.now.points) one }
    requires other { IsPlanLine plan.now.sectors (length plan.now.points) other }
    ensures { AreRelated (looked_up plan.now.points one) (looked_up plan.now.points other) result }
{
    let points = plan.points();
    seg_relation(
        points[one.a as usize],
        points[one.b as usize],
        points[other.a as usize],
        points[other.b as usize],
    )
}

/// The fault of records `i` and `j` by what their lines have in common.
fn fault_named(i: u16, j: u16, relation: Relation) -> Option<LineFault>
    ensures { result ≡ fault_by i j relation }
{
    match relation {
        Relation::Apart | Relation::Ends => None,
        Relation::Touch => Some(LineFault::Touch { i, j }),
        Relation::Cross => Some(LineFault::Cross { i, j }),
        Relation::Overlap => Some(LineFault::Overlap { i, j }),
    }
}

/// The numbers in order, each once.
pub fn in_order(all: Vec<u16>) -> Vec<u16>
    ensures order { AreNumbersInOrder all.items result.items }
    ensures few { length result.items ≤ length all.items }
{
    let mut numbers = all;
    numbers.sort_unstable();
    numbers.dedup();
    numbers
}
