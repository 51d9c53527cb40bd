//! The lines of a plan in the order of their lesser ends, so that a sweep over them meets only those whose point
//! numbers overlap.

ghost use Rattle.std.specs.Prelude.{◌≡◌, ℕ, ◌<◌, ◌≤◌, length, slice_index_or, IsTrue, ◌↔◌, ◌<ℤ◌};
ghost use Rattle.sight_names.specs.Plan.{IsPlanLine};
ghost use Rattle.geom_exact.specs.LineSpans.Spans.{span_of as span_in, span_at as span_entry, AreSpans, IsSkip, AreSkipsBelow, AreSkips};

use sight_names::{LARGE_LINES, Line, Plan};

/// The point numbers and the y between which a line lies, and its record number. A record that is passed over has its
/// place behind all lines.
#[derive(Clone, Copy)]
pub struct Span {
    pub least: u16,
    pub greatest: u16,
    pub low: i32,
    pub high: i32,
    pub line: u16,
}

/// A span to fill a list with.
pub const NO_SPAN: Span = Span {
    least: u16::MAX,
    greatest: 0,
    low: 0,
    high: 0,
    line: 0,
};

/// Whether the first span lies below the second one, by y.
pub fn ends_below(one: Span, other: Span) -> bool
    ensures { IsTrue result ↔ (one.high <ℤ other.low) }
{
    one.high < other.low
}

/// The span of this line with this record number.
fn span_of(plan: &Plan, line: Line, i: u16) -> Span
    requires { IsPlanLine plan.now.sectors (length plan.now.points) line }
    ensures { result ≡ span_in plan.now.points line i }
{
    let points = plan.points();
    let (a, b) = (points[line.a as usize].y, points[line.b as usize].y);
    Span {
        least: line.a.min(line.b),
        greatest: line.a.max(line.b),
        low: a.min(b),
        high: a.max(b),
        line: i,
    }
}

/// The span of this record.
fn span_at(plan: &Plan, i: u16) -> Span
    ensures { result ≡ span_entry plan.now i }
{
    match plan.line(i) {
        Some(line) => span_of(plan, line, i),
        None => {
            Span {
                least: u16::MAX,
                greatest: 0,
                low: 0,
                high: 0,
                line: i,
            }
        }
    }
}

/// Writes each record's span at its number.
fn put_by_record(plan: &Plan, spans: &mut [Span])
    requires each { length spans.old ≡ length plan.now.lines }
    requires few { length plan.now.lines ≤ LARGE_LINES }
    ensures { (i : ℕ) (d : Span) → i < length plan.now.lines → slice_index_or spans.new i d ≡ span_entry plan.now i }
{
    for i in 0..spans.len() {
        spans[i] = span_at(plan, i as u16);
    }
}

/// Writes the spans of all records, ascending by their lesser ends.
pub fn put_spans(plan: &Plan, spans: &mut [Span])
    requires { length spans.old ≡ length plan.now.lines }
    ensures spans { AreSpans plan.now spans.new }
    ensures each { length spans.new ≡ length plan.now.lines }
{
    let _ = plan.lines();
    put_by_record(plan, spans);
    spans.sort_unstable_by_key(|span| span.least);
}

/// How far back before place `k` the spans end no later than the one at `k`, by what is known of those before it.
fn skip_at(spans: &[Span], skips: &[u16], k: usize) -> u16
    requires place { k < length spans.now }
    requires each { length skips.now ≡ length spans.now }
    requires few { length spans.now ≤ LARGE_LINES }
    requires earlier { AreSkipsBelow spans.now skips.now k }
    ensures { IsSkip spans.now k result }
{
    let mut j = k;
    while j > 0 {
        if spans[k].greatest < spans[j - 1].greatest {
            return j as u16;
        }
        j = skips[j - 1] as usize;
    }
    0
}

/// Writes for each place how far back the spans before it end no later than its own, so that a sweep that goes back
/// passes over them all where its own span ends too early.
pub fn put_skips(spans: &[Span], skips: &mut [u16])
    requires each { length skips.old ≡ length spans.now }
    requires few { length spans.now ≤ LARGE_LINES }
    ensures { AreSkips spans.now skips.new }
{
    for k in 0..spans.len() {
        skips[k] = skip_at(spans, skips, k);
    }
}

/// The first place whose span begins behind this point number.
pub fn first_behind(plan: &Plan, spans: &[Span], number: u16) -> usize
    requires { AreSpans plan.now spans.now }
    ensures within { result ≤ length spans.now }
    ensures behind { (k : ℕ) (d : Span) → result ≤ k → k < length spans.now → number < (slice_index_or spans.now k d).least }
{
    let _ = plan.lines();
    spans.partition_point(|span| span.least <= number)
}
