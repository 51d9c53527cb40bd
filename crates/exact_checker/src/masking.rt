//! The masks of gates by half-edges.

ghost use Rattle.std.specs.Prelude.{◌≡◌, ◌*◌, ◌<◌, ◌≤◌, ◌^◌, ◌++◌, None, Some, IfOk, MatchOption, length, option_copied, slice_index};
ghost use Rattle.sight_names.specs.Map.{map_of};
ghost use Rattle.gate_floods.specs.GateMasks.Masks.{HasWords, IsLeftOut};
ghost use Rattle.exact_checker.specs.Masking.{mask_at_edge, words_of, AreEdgeMasks, HaveMasksOf};

use gate_floods::gate_masks::{Masks, Row};
use mesh_shape::half_edges::{HalfEdge, HalfEdges};
use sight_names::{Memory, Plan};
use std::alloc::Global;

/// Rows of so many words each, one of them for each gate; and for each half-edge that is a gate where its row begins.
#[derive(Drop)]
pub struct EdgeMasks {
    pub width: usize,
    pub places: Vec<Option<u32>>,
    pub words: Vec<u64>,
}

/// The mask of the gate by which one comes in at the half-edge, if it is one.
fn mask_behind<'a>(masks: &'a Masks, edge: Option<&HalfEdge>) -> Option<&'a [u64]>
    ensures { MatchOption result (mask_at_edge masks.now (option_copied edge.entry) ≡ None) (λ words. HasWords (mask_at_edge masks.now (option_copied edge.entry)) words.now) }
{
    masks.behind(edge?)
}

/// The word at this place; 0 where there is none.
fn word_at(words: &[u64], place: usize) -> u64
    ensures { result ≡ slice_index words.now place }
{
    match words.get(place) {
        Some(word) => *word,
        None => 0,
    }
}

/// Puts so many words of the row behind the others, and 0 for each that it doesn't have.
fn put_words(words: &mut Vec<u64>, width: usize, row: &[u64]) -> Result<(), Memory>
    ensures { IfOk result (λ _. words.new.items ≡ words.old.items ++ words_of row.now 0 width) }
{
    for place in 0..width {
        words.push(word_at(row, place))?;
    }
    Ok(())
}

/// Puts the mask, if there is one, behind the others, and tells where it begins.
fn put_mask(words: &mut Vec<u64>, width: usize, mask: Option<&[u64]>) -> Result<Option<u32>, Memory>
    requires { length words.old.items < 2 ^ 32 }
    ensures { IfOk result (λ place. MatchOption mask.entry ((place ≡ None) × (words.new.items ≡ words.old.items)) (λ row. (place ≡ Some (length words.old.items)) × (words.new.items ≡ words.old.items ++ words_of row.now 0 width))) }
{
    let Some(row) = mask else {
        return Ok(None);
    };
    let place = words.len() as u32;
    put_words(words, width, row)?;
    Ok(Some(place))
}

/// The masks of the half-edges, of so many words each.
fn by_half_edges(
    alloc: Global,
    masks: &Masks,
    edges: &HalfEdges,
    width: usize,
) -> Result<EdgeMasks, Memory>
    requires few { length edges.now ≤ 3 * 65535 }
    requires narrow { width ≤ 1024 }
    ensures { IfOk result (λ m. (m.width ≡ width) × HaveMasksOf masks.now edges.now width m.places.items m.words.items) }
{
    let mut places = Vec::new(alloc);
    let mut words = Vec::new(alloc);
    for number in 0..edges.len() {
        let mask = mask_behind(masks, edges.get(number as u32));
        let place = put_mask(&mut words, width, mask)?;
        places.push(place)?;
    }
    Ok(EdgeMasks {
        width,
        places,
        words,
    })
}

/// How many words a row of so many groups takes.
fn width_of(count: u16) -> usize
    ensures room { count ≤ 64 * result }
    ensures narrow { result ≤ 1024 }
{
    (count as usize).div_ceil(64)
}

/// The masks of all gates by the half-edges through which one comes in, where the rows tell what is joined.
pub fn edge_masks(
    alloc: Global,
    plan: &Plan,
    edges: &HalfEdges,
    joined: &[Row],
) -> Result<EdgeMasks, Memory>
    requires few { length edges.now ≤ 3 * 65535 }
    ensures room { IfOk result (λ m. plan.now.sectors ≤ 64 * m.width) }
    ensures masks { IfOk result (λ m. AreEdgeMasks (map_of plan.now) (IsLeftOut joined.now) edges.now m.width m.places.items m.words.items) }
{
    let masks = Masks::of(alloc, plan, joined)?;
    by_half_edges(alloc, &masks, edges, width_of(plan.sectors))
}
