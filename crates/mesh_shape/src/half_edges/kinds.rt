//! What lines lie on the directed edges of triangles.

ghost use Rattle.std.specs.Prelude.{◌≡◌, IfOk};
ghost use Rattle.mesh_shape.specs.HalfEdges.Numbers.{edge, corner_of as corner_from, half_edge_number as number_at};
ghost use Rattle.mesh_shape.specs.HalfEdges.Kinds.{joined as joined_of, kind_at as kind_on, way_by_edge, kind_with, PutsKind, PutsLineKinds, PutsRecordKinds, AreKinds};

use crate::Mesh;
use sight_names::{Line, Memory, Plan, Side, Triangle};
use std::alloc::Global;

/// What lies on a directed edge for one who enters by it.
#[derive(Clone, Copy)]
pub enum EdgeKind {
    /// No line.
    Free,
    /// A line that one can look through, and the side where one arrives.
    Passable(Side),
    /// A solid line.
    Solid,
}

/// Which of the triangle's directed edges begins at this point.
fn corner_of(t: Triangle, from: u16, to: u16) -> u16
    ensures { result ≡ corner_from (edge from to) t }
{
    if t.p == from {
        0
    } else if t.q == from {
        1
    } else {
        2
    }
}

/// The number of the half-edge along the directed edge.
pub fn number_of(mesh: &Mesh, left: u16, right: u16) -> Option<u32>
    ensures { result ≡ number_at mesh.now.triangles (edge left right) }
{
    let triangle = mesh.triangle_at(left, right)?;
    let corners = mesh.triangles().get(triangle as usize)?;
    Some(triangle as u32 * 3 + corner_of(*corners, left, right) as u32)
}

/// What the line with this record number is for one who arrives at its side.
fn kind_at(line: Line, number: u16, left: bool) -> EdgeKind
    ensures { result ≡ kind_on line number left }
{
    if line.solid {
        EdgeKind::Solid
    } else {
        EdgeKind::Passable(Side { line: number, left })
    }
}

/// What one line more makes of an edge: what is solid stays so.
fn joined(old: EdgeKind, new: EdgeKind) -> EdgeKind
    ensures { result ≡ joined_of old new }
{
    match old {
        EdgeKind::Solid => EdgeKind::Solid,
        _ => new,
    }
}

/// Joins the kind with this number, where there is one, with the new one.
fn put_kind(kinds: &mut [EdgeKind], number: Option<u32>, kind: EdgeKind)
    ensures { PutsKind number kind kinds.old kinds.new }
{
    let Some(number) = number else {
        return;
    };
    if (number as usize) < kinds.len() {
        let old = kinds[number as usize];
        kinds[number as usize] = joined(old, kind);
    }
}

/// The same for both edges of the line with this record number.
fn put_line(mesh: &Mesh, kinds: &mut [EdgeKind], number: u16, line: Line)
    ensures { PutsLineKinds mesh.now.triangles number line kinds.old kinds.new }
{
    let left = number_of(mesh, line.a, line.b);
    put_kind(kinds, left, kind_at(line, number, true));
    let right = number_of(mesh, line.b, line.a);
    put_kind(kinds, right, kind_at(line, number, false));
}

/// The same where the record has a line.
fn put_record(mesh: &Mesh, kinds: &mut [EdgeKind], number: u16, entry: Option<Line>)
    ensures { PutsRecordKinds mesh.now.triangles number entry kinds.old kinds.new }
{
    if let Some(line) = entry {
        put_line(mesh, kinds, number, line);
    }
}

/// For each half-edge what lies on its edge.
pub fn kinds_of(alloc: Global, plan: &Plan, mesh: &Mesh) -> Result<Vec<EdgeKind>, Memory>
    ensures { IfOk result (λ v. AreKinds plan.now mesh.now.triangles v.items) }
{
    let mut kinds = vec![in alloc; EdgeKind::Free; mesh.triangles().len() * 3]?;
    for (number, entry) in plan.lines().iter().enumerate() {
        put_record(mesh, kinds.as_mut_slice(), number as u16, *entry);
    }
    Ok(kinds)
}

/// The kind with this number.
pub fn kind_of(kinds: &[EdgeKind], number: u32) -> EdgeKind
    ensures { result ≡ kind_with kinds.now number }
{
    match kinds.get(number as usize) {
        Some(kind) => *kind,
        None => EdgeKind::Free,
    }
}

/// The half-edge along the directed edge, unless the edge is a solid line or no triangle has it.
pub fn way(mesh: &Mesh, kinds: &[EdgeKind], left: u16, right: u16) -> Option<u32>
    ensures { result ≡ way_by_edge mesh.now.triangles kinds.now (edge left right) }
{
    let number = number_of(mesh, left, right)?;
    match kinds.get(number as usize)? {
        EdgeKind::Solid => None,
        _ => Some(number),
    }
}
