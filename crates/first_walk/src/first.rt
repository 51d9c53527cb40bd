//! The first walk: rays for pairs of groups, found by searches in rounds, each within what is known so far.
//!
//! Nothing is proved of what it finds: each ray is judged before it counts, and what it misses the rounds behind it find.

use crate::by_pairs::by_pairs;
use crate::floods::{Floods, Part};
use crate::known::Known;
use crate::pairs::Pairs;
use crate::searchers::Searchers;
use face_groups::tri_sectors::components;
use gate_floods::gate_masks::gates::Gates;
use line_search::words::{drop_at, has_any, put_at, row_with, start_of, word_at, zeros};
use line_search::{Cells, Scene, Searched, Seeds, Sought, Trace, WantedWalks, numbers_for};
use mesh_shape::Mesh;
use mesh_shape::half_edges::HalfEdges;
use sight_names::{Memory, PairRay, Plan};
use std::alloc::Global;

/// More rounds than there are: in each but the last one a pair is found.
const ROUNDS: u64 = 1_000_000_000;

/// For each group those of its component, in rows of so many words that are named after its first group.
fn component_rows(alloc: Global, components: &[u16], width: usize) -> Result<Vec<u64>, Memory> {
    let mut rows = zeros(alloc, start_of(components.len(), width))?;
    let mut group: u16 = 0;
    for first in components {
        put_at(rows.as_mut_slice(), start_of(*first as usize, width), group);
        group = group.wrapping_add(1);
    }
    Ok(rows)
}

/// Puts what the first row has and the second one has not there.
fn put_less(rows: &mut [u64], at: usize, one: &[u64], other: &[u64]) {
    for place in 0..one.len() {
        let to = at.saturating_add(place);
        if to < rows.len() {
            rows[to] = one[place] & !word_at(other, place);
        }
    }
}

/// For each group, in this order, those of its component that come later and that it isn't known to see.
fn wanted_rows(
    alloc: Global,
    known: &Known,
    order: &[u16],
    components: &[u16],
) -> Result<Vec<u64>, Memory> {
    let width = known.width;
    let mut later = component_rows(alloc, components, width)?;
    let mut wanted = zeros(alloc, known.seen.len())?;
    for group in order {
        if let Some(first) = components.get(*group as usize) {
            let from = start_of(*first as usize, width);
            drop_at(later.as_mut_slice(), from, *group);
            let row = row_with(later.as_slice(), *first as usize, width);
            let to = start_of(*group as usize, width);
            put_less(wanted.as_mut_slice(), to, row, known.row(*group));
        }
    }
    Ok(wanted)
}

/// Those of the groups of which something is wanted.
fn wanting(
    alloc: Global,
    order: &[u16],
    wanted: &[u64],
    width: usize,
) -> Result<Vec<Sought>, Memory> {
    let mut sought = Vec::new(alloc);
    for group in order {
        if has_any(row_with(wanted, *group as usize, width)) {
            sought.push(Sought {
                group: *group,
                trace: Trace::new(alloc),
            })?;
        }
    }
    Ok(sought)
}

/// What the searches of a round come to.
fn searched<'a, S: Searchers>(
    searchers: &S,
    alloc: Global,
    cells: &'a Cells,
    gates: &'a Gates,
    known: &'a Known,
    sought: &'a [Sought],
    wanted: &'a [u64],
) -> Result<Vec<Searched>, Memory>
    requires can { S.can_search searchers.now }
{
    let scene = Scene {
        cells,
        gates,
        masks: known.masks.as_slice(),
        more: known.more.as_slice(),
        changed: known.changed.as_slice(),
        width: known.width,
    };
    let walks = WantedWalks {
        sought,
        wanted,
        scene,
    };
    searchers.walk_wanted(alloc, &walks)
}

/// Adds a ray for each two groups that lines through gates meet.
fn sow<S: Searchers>(
    searchers: &S,
    alloc: Global,
    cells: &Cells,
    gates: &Gates,
    pairs: &mut Pairs,
) -> Result<(), Memory>
    requires can { S.can_search searchers.now }
{
    let numbers = numbers_for(alloc, gates.gates.len())?;
    let seeds = Seeds {
        cells,
        gates: gates.gates.as_slice(),
        numbers: numbers.as_slice(),
    };
    let found = searchers.sow(alloc, &seeds)?;
    for tracks in found.as_slice() {
        pairs.join_all(tracks)?;
    }
    Ok(())
}

/// The floods of all gates by what is known, and what of that is new.
fn flooded<S: Searchers>(
    searchers: &S,
    alloc: Global,
    known: &Known,
    new: &[u64],
) -> Result<Vec<Part>, Memory>
    requires can { S.can_search searchers.now }
{
    let floods = Floods { known, new };
    searchers.flood(alloc, &floods)
}

/// Takes in what the searches of a round came to.
fn take_in(
    known: &Known,
    found: Vec<Searched>,
    sought: &mut [Sought],
    pairs: &mut Pairs,
) -> Result<(), Memory> {
    let mut number: usize = 0;
    for one in found {
        let Searched { growth, tracks } = one;
        pairs.join_all(&tracks)?;
        if number < sought.len() {
            sought[number].trace.grow(growth, known.changed.len())?;
        }
        number = number.wrapping_add(1);
    }
    Ok(())
}

/// Takes out of the rows what was found.
fn drop_found(wanted: &mut [u64], new: &[u64]) {
    for place in 0..wanted.len().min(new.len()) {
        wanted[place] &= !new[place];
    }
}

/// Lets the traces go of groups of which nothing is wanted any more.
fn let_go(alloc: Global, sought: &mut [Sought], wanted: &[u64], width: usize) {
    for number in 0..sought.len() {
        let group = sought[number].group as usize;
        if !has_any(row_with(wanted, group, width)) {
            sought[number].trace = Trace::new(alloc);
        }
    }
}

/// Searches in rounds for what is wanted, until one finds nothing.
fn search_rounds<S: Searchers>(
    searchers: &S,
    alloc: Global,
    cells: &Cells,
    gates: &Gates,
    known: &mut Known,
    mut sought: Vec<Sought>,
    mut wanted: Vec<u64>,
    pairs: &mut Pairs,
) -> Result<(), Memory>
    requires can { S.can_search searchers.now }
{
    for _ in 0..ROUNDS {
        let before = pairs.rays.len();
        pairs.begin();
        let found = searched(
            searchers,
            alloc,
            cells,
            gates,
            known,
            sought.as_slice(),
            wanted.as_slice(),
        )?;
        take_in(known, found, sought.as_mut_slice(), pairs)?;
        if pairs.rays.len() == before {
            return Ok(());
        }
        drop_found(wanted.as_mut_slice(), pairs.new.as_slice());
        let_go(alloc, sought.as_mut_slice(), wanted.as_slice(), known.width);
        known.join(pairs.new.as_slice());
        let parts = flooded(searchers, alloc, known, pairs.new.as_slice())?;
        known.take(parts.as_slice());
    }
    Ok(())
}

/// What may be rays for pairs of groups that see each other, found by lines through each gate, and then by searches in rounds, each
/// of them by what was known before its round.
pub fn first_rays<S: Searchers>(
    searchers: &S,
    alloc: Global,
    plan: &Plan,
    mesh: &Mesh,
    edges: &HalfEdges,
) -> Result<Vec<PairRay>, Memory>
    requires can { S.can_search searchers.now }
{
    let classes = components(alloc, plan)?;
    let gates = Gates::of(alloc, plan)?;
    let cells = Cells::of(alloc, plan, mesh, edges, gates.gates.as_slice())?;
    let mut known = Known::of(alloc, &gates, plan.sectors)?;
    let mut pairs = Pairs::new(alloc, &known)?;
    sow(searchers, alloc, &cells, &gates, &mut pairs)?;
    known.join(pairs.new.as_slice());
    let parts = flooded(searchers, alloc, &known, pairs.new.as_slice())?;
    known.take(parts.as_slice());
    let order = known.order(alloc)?;
    let wanted = wanted_rows(alloc, &known, order.as_slice(), classes.as_slice())?;
    let sought = wanting(alloc, order.as_slice(), wanted.as_slice(), known.width)?;
    search_rounds(
        searchers, alloc, &cells, &gates, &mut known, sought, wanted, &mut pairs,
    )?;
    by_pairs(alloc, pairs.rays, plan.sectors)
}
