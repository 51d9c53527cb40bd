//! The ray to a sector that a walk comes to.

ghost use Rattle.std.specs.Prelude.{◌≡◌, Some as Given, IsSome, option_and_then};
ghost use Rattle.row_trees.specs.Finding.{side_left as side_left_of, wanted_in, IsAlong};

use gate_floods::row_judge::RowWalk;
use gate_floods::row_judge::words::{has, part};
use mesh_shape::half_edges::{HalfEdge, HalfEdges};
use pair_budget::Reached;
use sight_names::Side;
use sight_ray::ray_of;

/// The side by which one leaves who comes in by the half-edge with this number.
fn side_left(edges: &HalfEdges, number: Option<u32>) -> Option<Side>
    ensures { result ≡ side_left_of edges.now number }
{
    let side = edges.get(number?)?.entered?;
    Some(Side {
        line: side.line,
        left: !side.left,
    })
}

/// The sector into which one comes by this half-edge through a line, if the walk's present row has it.
// most half-edges are of no line, and then the row isn't looked at
#[inline(always)]
pub fn wanted(walk: &RowWalk, width: usize, edge: &HalfEdge) -> Option<u16>
    ensures { result ≡ wanted_in walk.now.rows.items width walk.now.follow.row edge.now }
{
    let _ = edge.entered?;
    let to = edge.sector?;
    if has(part(walk.rows.as_slice(), walk.follow.row, width), to) {
        Some(to)
    } else {
        None
    }
}

/// The ray to the sector, along a line, from where the root leads out of the source to where one comes in by this half-edge.
pub fn reached(
    edges: &HalfEdges,
    root: u32,
    edge: &HalfEdge,
    to: u16,
    line: (i32, i32, i64),
) -> Reached
    requires leaves { IsSome (side_left_of edges.now (Given root)) }
    requires arrives { IsSome edge.now.entered }
    ensures along { IsAlong edges.now (Given root) edge.now to result }
    ensures line { (result.ray.a ≡ line.0) × (result.ray.b ≡ line.1) × (result.ray.c ≡ line.2) }
{
    let first = side_left(edges, Some(root)).unwrap();
    let last = edge.entered.unwrap();
    let (a, b, c) = line;
    Reached {
        to,
        ray: ray_of(first, last, a, b, c),
    }
}
