//! What searches among the points of a map have shown, kept so that a triangle isn't searched again from each of its sides in
//! each round.

ghost use Rattle.std.specs.Prelude.{◌≡◌, None, IfOk, slice_index_or};
ghost use Rattle.std.specs.Bool.{OnTrue};
ghost use Rattle.sight_names.specs.Map.{Map};
ghost use Rattle.triangulate.specs.GreedySegments.Saturated.{IsEmptyTriangle};
ghost use Rattle.triangulate.specs.GreedySegments.Searched.{AreSearched};

use sight_names::Memory;
use std::alloc::Global;

/// How many triangles are kept at most.
const PLACES: u64 = 16_384;

/// The corners of a triangle, counterclockwise.
#[derive(Clone, Copy)]
pub struct Corners {
    pub a: u16,
    pub b: u16,
    pub c: u16,
}

/// Triangles with no point inside, each at a place that its corners tell, where a later one takes it.
#[derive(Drop)]
pub struct Searched {
    triangles: Vec<Option<Corners>>,
}

/// The place of a triangle.
fn place_of(corners: Corners) -> usize {
    let mixed = corners.a as u64 * 40_503 + corners.b as u64 * 30_011 + corners.c as u64 * 10_007;
    (mixed % PLACES) as usize
}

/// Whether the corners are the same, from the first one on.
fn are_same(t: Corners, u: Corners) -> bool
    ensures { OnTrue result ((t.a ≡ u.a) × (t.b ≡ u.b) × (t.c ≡ u.c)) }
{
    t.a == u.a && t.b == u.b && t.c == u.c
}

impl Searched {
    /// Nothing yet.
    pub fn nothing(alloc: Global) -> Result<Searched, Memory>
        ensures { IfOk result (λ s. (m : Map) → AreSearched m s.triangles.items) }
    {
        Ok(Searched {
            triangles: vec![in alloc; None; PLACES as usize]?,
        })
    }

    /// Whether the triangle is known to have no point inside.
    pub fn has_triangle(&self, corners: Corners) -> bool
        ensures { (m : Map) → AreSearched m self.now.triangles.items → OnTrue result (IsEmptyTriangle m corners.a corners.b corners.c) }
    {
        match self.triangle_at(place_of(corners)) {
            Some(known) => are_same(known, corners),
            None => false,
        }
    }

    /// The triangle that is kept at the place.
    fn triangle_at(&self, place: usize) -> Option<Corners>
        ensures { result ≡ slice_index_or self.now.triangles.items place None }
    {
        match self.triangles.as_slice().get(place) {
            Some(known) => *known,
            None => None,
        }
    }

    /// Keeps a triangle with no point inside.
    pub fn keep_triangle(&mut self, corners: Corners)
        ensures { (m : Map) → AreSearched m self.old.triangles.items → IsEmptyTriangle m corners.a corners.b corners.c → AreSearched m self.new.triangles.items }
    {
        let place = place_of(corners);
        if place < self.triangles.len() {
            self.triangles[place] = Some(corners);
        }
    }
}
