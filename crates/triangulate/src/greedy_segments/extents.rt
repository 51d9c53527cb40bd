//! What the segments at each point span: by it most points are passed over when a pair of points is tried.

ghost use Rattle.std.specs.Prelude.{ℕ, ◌≡◌, ◌/◌, ◌<◌, ◌≤◌, ◌⊎◌, ◌↔◌, List, [], ◌∷◌, ◌++◌, IsTrue, IfOk, length, slice_index_or};
ghost use Rattle.std.specs.Bool.{OnTrue, OnFalse};
ghost use Rattle.sight_names.specs.Map.{map_of};
ghost use Rattle.sight_names.specs.Plan.{IsPlan};
ghost use Rattle.sight_names.specs.Points.{points_of};
ghost use Rattle.triangulate.specs.declared.incident_segments.segments.Segment.{Segment};
ghost use Rattle.triangulate.specs.declared.greedy_segments.extents.Extent.{Extent};
ghost use Rattle.triangulate.specs.GreedySegments.Extents.{AreBlocks, AreExtents, HasNoEnds, Widens, IsPairExtent, AreApartInY, CannotMeet};

use sight_names::{Memory, Plan, Pt};
use std::alloc::Global;

/// How many points have one number in `Extents::blocks`.
const BLOCK: usize = 32;

/// The range of y that a point and the other ends of its segments span, and no less than the greatest number among these
/// ends.
#[derive(Clone, Copy)]
pub struct Extent {
    low: i32,
    high: i32,
    last_neighbour: u16,
}

/// Two points, the first with the lesser number, and the range of their y.
#[derive(Clone, Copy)]
pub struct PairExtent {
    from: u16,
    to: u16,
    low: i32,
    high: i32,
}

/// The extent of a pair of points.
pub fn pair_extent_of(plan: &Plan, from: u16, to: u16) -> PairExtent
    requires first { from < length plan.now.points }
    requires second { to < length plan.now.points }
    ensures pair_extent { IsPairExtent (map_of plan.now) from to result }
    ensures plan { IsPlan plan.now }
{
    let (p, q) = (plan.place(from), plan.place(to));
    PairExtent {
        from,
        to,
        low: p.y.min(q.y),
        high: p.y.max(q.y),
    }
}

/// Whether the extent lies below the range of the pair or above it.
fn are_apart_in_y(extent: Extent, pair_extent: PairExtent) -> bool
    ensures { IsTrue result ↔ AreApartInY extent pair_extent }
{
    extent.high < pair_extent.low || pair_extent.high < extent.low
}

/// Whether the extent reaches into the range of the pair, and behind its second point.
fn reaches_over(extent: Extent, pair_extent: PairExtent) -> bool
    ensures over { OnTrue result ((pair_extent.to < extent.last_neighbour) × ¬ AreApartInY extent pair_extent) }
    ensures not_over { OnFalse result ((extent.last_neighbour ≤ pair_extent.to) ⊎ AreApartInY extent pair_extent) }
{
    extent.last_neighbour > pair_extent.to && !are_apart_in_y(extent, pair_extent)
}

/// The extent of a point with no segment.
fn extent_of(plan: &Plan, k: u16) -> Extent
    requires { k < length plan.now.points }
    ensures extent { HasNoEnds (map_of plan.now) k result }
    ensures plan { IsPlan plan.now }
{
    let at = plan.place(k);
    Extent {
        low: at.y,
        high: at.y,
        last_neighbour: 0,
    }
}

/// The first number of the next block, or `end` where this comes first.
fn next_block(u: u16, end: u16) -> u16
    requires { u < end }
    ensures behind { u < result }
    ensures within { result ≤ end }
    ensures block { (w : ℕ) → u ≤ w → w < result → w / 32 ≡ u / 32 }
{
    let next = (u as u32 / BLOCK as u32 + 1) * BLOCK as u32;
    if next < end as u32 { next as u16 } else { end }
}

/// The extent of each point.
#[derive(Drop)]
pub struct Extents {
    extents: Vec<Extent>,
    /// For each block of points no less than the greatest number in their extents.
    blocks: Vec<u16>,
    ghost bounded: { AreBlocks extents.items blocks.items },
}

impl Extents {
    /// The extents of points without segments.
    pub fn of(alloc: Global, plan: &Plan) -> Result<Extents, Memory>
        ensures { IfOk result (λ s. AreExtents (map_of plan.now) [] s.extents.items) }
    {
        let count = plan.points().len();
        let mut extents = Vec::new(alloc);
        for k in 0..count as u16 {
            extents.push(extent_of(plan, k))?;
        }
        let blocks = vec![in alloc; 0u16; count / BLOCK + 1]?;
        Ok(Extents { extents, blocks })
    }

    /// Widens the extent of a point to an end at this place.
    fn widen(&mut self, at: u16, end: u16, place: Pt)
        requires { at < length self.old.extents.items }
        ensures { Widens at end place.y self.old.extents.items self.new.extents.items }
    {
        let extent = self.extents[at as usize];
        let last_neighbour = extent.last_neighbour.max(end);
        self.extents[at as usize] = Extent {
            low: extent.low.min(place.y),
            high: extent.high.max(place.y),
            last_neighbour,
        };
        let block = at as usize / BLOCK;
        self.blocks[block] = self.blocks[block].max(last_neighbour);
    }

    /// Adds a segment.
    pub fn add(&mut self, plan: &Plan, from: u16, to: u16)
        requires points { length self.old.extents.items ≡ length (points_of (map_of plan.now)) }
        requires first { from < length plan.now.points }
        requires second { to < length plan.now.points }
        ensures { (segments : List Segment) → AreExtents (map_of plan.now) segments self.old.extents.items → AreExtents (map_of plan.now) (segments ++ (record { from = from; to = to }) ∷ []) self.new.extents.items }
    {
        let (start, end) = (plan.place(from), plan.place(to));
        self.widen(from, to, end);
        self.widen(to, from, start);
    }

    /// The first point from `start` on and before the pair's first one whose segments may meet a segment in the range of the pair;
    /// the pair's first one where there is none.
    fn next_before(&self, start: u16, pair_extent: PairExtent) -> u16
        requires order { start ≤ pair_extent.from }
        requires within { pair_extent.from ≤ length self.now.extents.items }
        ensures from { start ≤ result }
        ensures to { result ≤ pair_extent.from }
        ensures passed { (w : ℕ) (d : Extent) → start ≤ w → w < result → CannotMeet pair_extent w (slice_index_or self.now.extents.items w d) }
    {
        let mut u = start;
        while u < pair_extent.from {
            let end = next_block(u, pair_extent.from);
            let found = self.next_in_block(u, end, pair_extent);
            if found < end {
                return found;
            }
            u = end;
        }
        u
    }

    /// The first point from `start` on and before `end`, all of one block, whose extent reaches over the range of the pair; `end` where
    /// there is none.
    fn next_in_block(&self, start: u16, end: u16, pair_extent: PairExtent) -> u16
        requires order { start < end }
        requires before { end ≤ pair_extent.from }
        requires within { end ≤ length self.now.extents.items }
        requires block { (w : ℕ) → start ≤ w → w < end → w / 32 ≡ start / 32 }
        ensures from { start ≤ result }
        ensures to { result ≤ end }
        ensures passed { (w : ℕ) (d : Extent) → start ≤ w → w < result → CannotMeet pair_extent w (slice_index_or self.now.extents.items w d) }
    {
        if self.blocks[start as usize / BLOCK] <= pair_extent.to {
            return end;
        }
        self.next_over(start, end, pair_extent)
    }

    /// The first point from `start` on and before `end` whose extent reaches over the range of the pair; `end` where there is none.
    fn next_over(&self, start: u16, end: u16, pair_extent: PairExtent) -> u16
        requires order { start ≤ end }
        requires before { end ≤ pair_extent.from }
        requires within { end ≤ length self.now.extents.items }
        ensures from { start ≤ result }
        ensures to { result ≤ end }
        ensures passed { (w : ℕ) (d : Extent) → start ≤ w → w < result → CannotMeet pair_extent w (slice_index_or self.now.extents.items w d) }
    {
        let mut u = start;
        while u < end {
            if reaches_over(self.extents[u as usize], pair_extent) {
                return u;
            }
            u += 1;
        }
        u
    }

    /// The first point from `start` on whose extent reaches into the range of the pair; the pair's second one where none before it does.
    fn next_between(&self, start: u16, pair_extent: PairExtent) -> u16
        requires order { start ≤ pair_extent.to }
        requires within { pair_extent.to ≤ length self.now.extents.items }
        ensures from { start ≤ result }
        ensures to { result ≤ pair_extent.to }
        ensures passed { (w : ℕ) (d : Extent) → start ≤ w → w < result → CannotMeet pair_extent w (slice_index_or self.now.extents.items w d) }
    {
        let mut u = start;
        while u < pair_extent.to {
            if !are_apart_in_y(self.extents[u as usize], pair_extent) {
                return u;
            }
            u += 1;
        }
        u
    }

    /// The first point from `start` on whose segments may meet a segment in the range of the pair; the pair's second one where none
    /// before it has such.
    pub fn next(&self, start: u16, pair_extent: PairExtent) -> u16
        requires order { start ≤ pair_extent.to }
        requires pair_extent { pair_extent.from ≤ pair_extent.to }
        requires within { pair_extent.to ≤ length self.now.extents.items }
        ensures from { start ≤ result }
        ensures to { result ≤ pair_extent.to }
        ensures passed { (w : ℕ) (d : Extent) → start ≤ w → w < result → CannotMeet pair_extent w (slice_index_or self.now.extents.items w d) }
    {
        if start >= pair_extent.from {
            return self.next_between(start, pair_extent);
        }
        let u = self.next_before(start, pair_extent);
        if u < pair_extent.from {
            u
        } else {
            self.next_between(pair_extent.from, pair_extent)
        }
    }
}
