//! The half-edges of a mesh in one table.

ghost use Rattle.std.specs.Prelude.{◌≡◌, ◌<◌, ◌++◌, Some, length, slice_get, slice_index_or, option_copied, IfOk};
ghost use Rattle.sight_names.specs.Map.{origin};
ghost use Rattle.sight_names.specs.Mesh.{label_of};
ghost use Rattle.sight_names.specs.Sequence.{names_it};
ghost use Rattle.mesh_shape.specs.HalfEdges.Numbers.{edge};
ghost use Rattle.mesh_shape.specs.HalfEdges.HalfEdges.{entering as entering_at, way_outside, AreHalfEdges};
ghost use Rattle.mesh_shape.specs.HalfEdges.Corners.{three_of, arrival_of, by_corners, is_solid_kind, IsCorner, Pushes};

use crate::half_edges::kinds::{EdgeKind, kind_of, kinds_of, number_of, way};
use crate::{Labels, Mesh};
use sight_names::{Memory, Plan, Pt, Side, Triangle};
use std::alloc::Global;
use std::marker::Model;

const ORIGIN: Pt = Pt { x: 0, y: 0 };

/// A directed edge of a triangle, entered from outside: the numbers of its left and its right end and of the triangle's
/// third point, the ends, the triangle and its sector, what lies on the edge, and the half-edges behind the two ways out.
#[derive(Clone, Copy)]
pub struct HalfEdge {
    pub left: u16,
    pub right: u16,
    pub apex: u16,
    pub left_at: Pt,
    pub right_at: Pt,
    pub triangle: u16,
    pub sector: Option<u16>,
    /// Whether the edge is a solid line.
    pub solid: bool,
    /// The side where one arrives, if the edge is a line that one can look through.
    pub entered: Option<Side>,
    /// From `left` to `apex`; None where that edge is a solid line, or no triangle is behind it.
    pub left_way: Option<u32>,
    /// From `apex` to `right`; None likewise.
    pub right_way: Option<u32>,
}

/// The half-edges of a mesh; a contract sees the list of them. The one that begins at corner c of triangle k has the
/// number 3 * k + c.
#[derive(Drop)]
pub struct HalfEdges {
    edges: Vec<HalfEdge>,
}

impl Model for HalfEdges {
    ghost use Rattle.std.specs.Prelude.{List};
    ghost use Rattle.mesh_shape.specs.declared.half_edges.table.HalfEdge.{HalfEdge};

    ghost Value = { List HalfEdge };

    ghost view = { λ h. h.edges.items };
}

/// A corner of a triangle: its point, what lies on the edge that begins here, and the way out through that edge.
#[derive(Clone, Copy)]
struct Corner {
    point: u16,
    at: Pt,
    kind: EdgeKind,
    way: Option<u32>,
}

/// The point with this number.
fn point_at(points: &[Pt], number: u16) -> Pt
    ensures { result ≡ slice_index_or points.now number origin }
{
    match points.get(number as usize) {
        Some(at) => *at,
        None => ORIGIN,
    }
}

/// Whether the sector is the source.
fn is_source(sector: Option<u16>, source: u16) -> bool
    ensures { result ≡ names_it sector source }
{
    match sector {
        Some(sector) => sector == source,
        None => false,
    }
}

/// The corner where the half-edge with this number begins.
fn corner_at(
    plan: &Plan,
    mesh: &Mesh,
    kinds: &[EdgeKind],
    number: u32,
    from: u16,
    to: u16,
) -> Corner
    ensures { IsCorner plan.now mesh.now.triangles kinds.now number from to result }
{
    Corner {
        point: from,
        at: point_at(plan.points(), from),
        kind: kind_of(kinds, number),
        way: way(mesh, kinds, to, from),
    }
}

/// The side where one arrives by an edge of this kind.
fn side_of(kind: EdgeKind) -> Option<Side>
    ensures { result ≡ arrival_of kind }
{
    match kind {
        EdgeKind::Passable(side) => Some(side),
        _ => None,
    }
}

/// Whether this kind is a solid line.
fn is_solid(kind: EdgeKind) -> bool
    ensures { result ≡ is_solid_kind kind }
{
    match kind {
        EdgeKind::Solid => true,
        _ => false,
    }
}

/// The half-edge between two corners of a triangle.
fn half_edge(
    triangle: u16,
    sector: Option<u16>,
    left: Corner,
    right: Corner,
    apex: Corner,
) -> HalfEdge
    ensures { result ≡ by_corners triangle sector left right apex }
{
    HalfEdge {
        left: left.point,
        right: right.point,
        apex: apex.point,
        left_at: left.at,
        right_at: right.at,
        triangle,
        sector,
        solid: is_solid(left.kind),
        entered: side_of(left.kind),
        left_way: apex.way,
        right_way: right.way,
    }
}

/// The label of the triangle.
fn sector_of(labels: &Labels, triangle: u16) -> Option<u16>
    ensures { result ≡ label_of labels.now triangle }
{
    match labels.as_slice().get(triangle as usize) {
        Some(sector) => *sector,
        None => None,
    }
}

/// Puts the three half-edges of a triangle behind the others.
fn push_three(
    edges: &mut Vec<HalfEdge>,
    triangle: u16,
    sector: Option<u16>,
    p: Corner,
    q: Corner,
    r: Corner,
) -> Result<(), Memory>
    ensures { IfOk result (λ _. edges.new.items ≡ edges.old.items ++ three_of triangle sector p q r) }
{
    edges.push(half_edge(triangle, sector, p, q, r))?;
    edges.push(half_edge(triangle, sector, q, r, p))?;
    edges.push(half_edge(triangle, sector, r, p, q))?;
    Ok(())
}

/// The same for the triangle with this number.
fn push_triangle(
    plan: &Plan,
    mesh: &Mesh,
    kinds: &[EdgeKind],
    edges: &mut Vec<HalfEdge>,
    number: u16,
    sector: Option<u16>,
    t: Triangle,
) -> Result<(), Memory>
    ensures { IfOk result (λ _. Pushes plan.now mesh.now.triangles kinds.now number sector t edges.old.items edges.new.items) }
{
    let first = number as u32 * 3;
    let p = corner_at(plan, mesh, kinds, first, t.p, t.q);
    let q = corner_at(plan, mesh, kinds, first + 1, t.q, t.r);
    let r = corner_at(plan, mesh, kinds, first + 2, t.r, t.p);
    push_three(edges, number, sector, p, q, r)
}

impl HalfEdges {
    /// The half-edges of these triangles, with what the lines of the plan are to them.
    pub fn of(alloc: Global, plan: &Plan, mesh: &Mesh, labels: &Labels) -> Result<HalfEdges, Memory>
        ensures { IfOk result (λ edges. AreHalfEdges plan.now mesh.now.triangles labels.now edges) }
    {
        let kinds = kinds_of(alloc, plan, mesh)?;
        let mut edges = Vec::new(alloc);
        for (k, t) in mesh.triangles().iter().enumerate() {
            let number = k as u16;
            push_triangle(
                plan,
                mesh,
                kinds.as_slice(),
                &mut edges,
                number,
                sector_of(labels, number),
                *t,
            )?;
        }
        Ok(HalfEdges { edges })
    }

    /// How many there are: three for each triangle.
    pub fn len(&self) -> usize
        ensures { result ≡ length self.now }
    {
        self.edges.len()
    }

    /// The half-edge with this number.
    pub fn get(&self, number: u32) -> Option<&HalfEdge>
        ensures { option_copied result ≡ slice_get self.now number }
    {
        self.edges.as_slice().get(number as usize)
    }

    /// The number of the half-edge along the directed edge, unless the edge is a solid line or no triangle of this mesh
    /// has it.
    pub fn entering(&self, mesh: &Mesh, left: u16, right: u16) -> Option<u32>
        ensures { result ≡ entering_at mesh.now.triangles self.now (edge left right) }
    {
        let number = number_of(mesh, left, right)?;
        let edge = self.get(number)?;
        if edge.solid { None } else { Some(number) }
    }

    /// This way, unless it leads into a triangle of the source.
    pub fn outside(&self, way: Option<u32>, source: u16) -> Option<u32>
        ensures { result ≡ way_outside self.now source way }
    {
        let number = way?;
        let edge = self.get(number)?;
        if is_source(edge.sector, source) {
            None
        } else {
            Some(number)
        }
    }
}
