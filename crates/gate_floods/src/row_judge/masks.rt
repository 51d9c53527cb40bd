//! The masks of gates, by half-edges.

ghost use Rattle.std.specs.Prelude.{◌≡◌};
ghost use Rattle.gate_floods.specs.RowJudge.Masks.{rows_of};
ghost use Rattle.gate_floods.specs.RowJudge.Asked.{leaves as leaves_of, mask_of_edge, mask_place};

use crate::row_judge::words::{meet, meet_near, part};

/// Rows of so many words each, one of them for each gate; and for each half-edge that is a gate where its row begins.
#[derive(Clone, Copy)]
pub struct Masks<'a> {
    pub width: usize,
    pub places: &'a [Option<u32>],
    pub words: &'a [u64],
}

/// Where the mask of this half-edge begins, if it is a gate.
#[inline(always)]
pub fn place_of(masks: &Masks<'_>, edge: u32) -> Option<u32>
    ensures { result ≡ mask_place masks.now.places.now edge }
{
    match masks.places.get(edge as usize) {
        Some(place) => *place,
        None => None,
    }
}

/// Whether something is left of the row behind the half-edge. Only a gate's mask is looked at.
#[inline(always)]
pub fn leaves(masks: &Masks<'_>, row: &[u64], edge: u32) -> bool
    ensures { result ≡ leaves_of row.now (mask_of_edge (rows_of masks.now) edge) }
{
    match place_of(masks, edge) {
        Some(place) => meet(row, part(masks.words, place as usize, masks.width)),
        None => true,
    }
}

/// The same, first by the word in which a row and a mask met last.
#[inline(always)]
pub fn leaves_near(masks: &Masks<'_>, row: &[u64], edge: u32, near: &mut usize) -> bool
    ensures { result ≡ leaves_of row.now (mask_of_edge (rows_of masks.now) edge) }
{
    match place_of(masks, edge) {
        Some(place) => meet_near(row, part(masks.words, place as usize, masks.width), near),
        None => true,
    }
}
