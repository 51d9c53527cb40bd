//! The roots of all sources: passable lines that lead out of the source, by the side that names it.

ghost use Rattle.std.specs.Prelude.{◌≡◌, option_and_then, slice_get, length, IfOk};
ghost use Rattle.sight_names.specs.Map.{map_of};
ghost use Rattle.mesh_shape.specs.HalfEdges.Numbers.{edge};
ghost use Rattle.cert_checker.specs.TreeJudge.Roots.{first_at, side_edges, half_edges_of_line, PutsFirst, PutsBefore, AreRootChains};

use mesh_shape::Mesh;
use mesh_shape::half_edges::HalfEdges;
use sight_names::{Line, Memory, Plan};
use std::alloc::Global;

/// A half-edge out of a source, and the place of the source's next root.
#[derive(Clone, Copy)]
pub struct Root {
    pub edge: u32,
    pub next: Option<usize>,
}

/// The place of each source's first root, and the roots.
#[derive(Drop)]
pub struct Roots {
    first: Vec<Option<usize>>,
    roots: Vec<Root>,
}

/// Puts a root before those of its source that are there.
fn put(
    roots: &mut Vec<Root>,
    first: &mut [Option<usize>],
    source: u16,
    number: u32,
) -> Result<(), Memory>
    ensures { IfOk result (λ _. PutsFirst source number roots.old.items first.old roots.new.items first.new) }
{
    if (source as usize) < first.len() {
        let place = roots.len();
        let next = first[source as usize];
        roots.push(Root { edge: number, next })?;
        first[source as usize] = Some(place);
    }
    Ok(())
}

/// Puts the root of the sector that a side names, through the edge with these ends, where it leads out of the sector.
fn put_side(
    edges: &HalfEdges,
    mesh: &Mesh,
    roots: &mut Vec<Root>,
    first: &mut [Option<usize>],
    side: Option<u16>,
    left: u16,
    right: u16,
) -> Result<(), Memory>
    ensures { IfOk result (λ _. PutsBefore (side_edges mesh.now.triangles edges.now side (edge left right)) roots.old.items first.old roots.new.items first.new) }
{
    let Some(source) = side else {
        return Ok(());
    };
    let way = edges.entering(mesh, left, right);
    match edges.outside(way, source) {
        Some(number) => put(roots, first, source, number),
        None => Ok(()),
    }
}

/// Puts the roots at a passable line between two sectors: the left side's, then before it the right side's.
fn put_line(
    edges: &HalfEdges,
    mesh: &Mesh,
    roots: &mut Vec<Root>,
    first: &mut [Option<usize>],
    entry: Option<Line>,
) -> Result<(), Memory>
    ensures { IfOk result (λ _. PutsBefore (half_edges_of_line mesh.now.triangles edges.now entry) roots.old.items first.old roots.new.items first.new) }
{
    let Some(line) = entry else {
        return Ok(());
    };
    if line.solid || line.left == line.right {
        return Ok(());
    }
    put_side(edges, mesh, roots, first, line.left, line.b, line.a)?;
    put_side(edges, mesh, roots, first, line.right, line.a, line.b)
}

impl Roots {
    /// The roots of all sources, from the last side back.
    pub fn of(alloc: Global, plan: &Plan, mesh: &Mesh, edges: &HalfEdges) -> Result<Roots, Memory>
        ensures { IfOk result (λ r. AreRootChains (map_of plan.now) mesh.now.triangles edges.now r.roots.items r.first.items) }
    {
        let mut first = vec![in alloc; None; plan.sectors as usize]?;
        let mut roots = Vec::new(alloc);
        let lines = plan.lines();
        for k in (0..lines.len()).rev() {
            put_line(edges, mesh, &mut roots, &mut first, lines[k])?;
        }
        Ok(Roots { first, roots })
    }

    /// The place of the source's first root.
    pub fn first_of(&self, source: u16) -> Option<usize>
        ensures { result ≡ first_at self.now.first.items source }
    {
        match self.first.get(source as usize) {
            Some(place) => *place,
            None => None,
        }
    }

    /// How many there are of all sources.
    pub fn len(&self) -> usize
        ensures { result ≡ length self.now.roots.items }
    {
        self.roots.len()
    }

    /// The root at this place.
    pub fn root(&self, place: Option<usize>) -> Option<Root>
        ensures { result ≡ option_and_then (slice_get self.now.roots.items) place }
    {
        self.roots.get(place?).copied()
    }
}
