//! Open sides: the sides that name a sector and whose face reaches outside the convex hull of the points.

ghost use Rattle.std.specs.Prelude.{◌≡◌, ◌↔◌, IfOk, IsTrue, OnOk, All, length};
ghost use Rattle.sight_names.specs.Map.{map_of};
ghost use Rattle.sight_names.specs.Mesh.{IsPlainMesh};
ghost use Rattle.mesh_shape.specs.Fills.{FillsSides};
ghost use Rattle.face_groups.specs.TriSectors.Classes.{IsBelow};
ghost use Rattle.face_groups.specs.TriSectors.Sides.{IsSealedEdge, IsSealedSide};
ghost use Rattle.mesh_shape.specs.HalfEdges.Numbers.{edge};
ghost use Rattle.sight_names.specs.Plan.{IsPlan};
ghost use Rattle.map_faults.specs.OpenSides.{AddsOpen, AddsSides, AreOpenBy, AreOpenSides};

use face_groups::tri_sectors::faces::{faces_of, open_faces, walls_of};
use mesh_shape::Mesh;
use sight_names::{Line, Memory, Plan, Side};
use std::alloc::Global;

/// Whether the edge has a triangle, on a face that isn't open.
fn is_sealed(mesh: &Mesh, faces: &[u16], marks: &[bool], u: u16, v: u16) -> bool
    requires len { length faces.now ≡ length mesh.now.triangles }
    requires range { All (IsBelow (length mesh.now.triangles)) faces.now }
    requires each { length marks.now ≡ length mesh.now.triangles }
    ensures { IsTrue result ↔ IsSealedEdge mesh.now.triangles faces.now marks.now (edge u v) }
{
    match mesh.triangle_at(u, v) {
        Some(k) => !marks[faces[k as usize] as usize],
        None => false,
    }
}

/// Whether a side with this edge that names this sector has a triangle, on a face that isn't open.
fn is_sealed_side(
    mesh: &Mesh,
    faces: &[u16],
    marks: &[bool],
    sector: Option<u16>,
    u: u16,
    v: u16,
) -> bool
    requires len { length faces.now ≡ length mesh.now.triangles }
    requires range { All (IsBelow (length mesh.now.triangles)) faces.now }
    requires each { length marks.now ≡ length mesh.now.triangles }
    ensures { IsTrue result ↔ IsSealedSide mesh.now.triangles faces.now marks.now (edge u v) sector }
{
    match sector {
        Some(_) => is_sealed(mesh, faces, marks, u, v),
        None => true,
    }
}

/// Adds the side, which has this edge and names this sector, if it is open.
fn add_side(
    mesh: &Mesh,
    faces: &[u16],
    marks: &[bool],
    found: &mut Vec<Side>,
    side: Side,
    sector: Option<u16>,
    u: u16,
    v: u16,
) -> Result<(), Memory>
    requires len { length faces.now ≡ length mesh.now.triangles }
    requires range { All (IsBelow (length mesh.now.triangles)) faces.now }
    requires each { length marks.now ≡ length mesh.now.triangles }
    ensures { OnOk result (AddsOpen (IsSealedSide mesh.now.triangles faces.now marks.now (edge u v) sector) side found.old.items found.new.items) }
{
    if is_sealed_side(mesh, faces, marks, sector, u, v) {
        return Ok(());
    }
    found.push(side)?;
    Ok(())
}

/// The same for both sides of the line with this record number.
fn add_sides(
    mesh: &Mesh,
    faces: &[u16],
    marks: &[bool],
    found: &mut Vec<Side>,
    number: u16,
    line: Line,
) -> Result<(), Memory>
    requires len { length faces.now ≡ length mesh.now.triangles }
    requires range { All (IsBelow (length mesh.now.triangles)) faces.now }
    requires each { length marks.now ≡ length mesh.now.triangles }
    ensures { OnOk result (AddsSides mesh.now.triangles faces.now marks.now number line found.old.items found.new.items) }
{
    let right = Side {
        line: number,
        left: false,
    };
    add_side(mesh, faces, marks, found, right, line.right, line.b, line.a)?;
    let left = Side {
        line: number,
        left: true,
    };
    add_side(mesh, faces, marks, found, left, line.left, line.a, line.b)
}

/// The open sides where the faces are known and the open ones marked.
fn open_by(
    alloc: Global,
    plan: &Plan,
    mesh: &Mesh,
    faces: &[u16],
    marks: &[bool],
) -> Result<Vec<Side>, Memory>
    requires len { length faces.now ≡ length mesh.now.triangles }
    requires range { All (IsBelow (length mesh.now.triangles)) faces.now }
    requires each { length marks.now ≡ length mesh.now.triangles }
    ensures plan { IsPlan plan.now }
    ensures sides { IfOk result (λ v. AreOpenBy (map_of plan.now) mesh.now.triangles faces.now marks.now v.items) }
{
    let mut found = Vec::new(alloc);
    for (i, line) in plan.lines().iter().enumerate() {
        if let Some(line) = line {
            add_sides(mesh, faces, marks, &mut found, i as u16, *line)?;
        }
    }
    Ok(found)
}

/// The sides that name a sector and are touched by a point from which a path leads out of the hull, in order. The first of
/// them is the one that an audit tells.
pub fn open_sides_of(alloc: Global, plan: &Plan, mesh: &Mesh) -> Result<Vec<Side>, Memory>
    ensures { IsPlainMesh (map_of plan.now) mesh.now.triangles → FillsSides (map_of plan.now) mesh.now.triangles → IfOk result (λ v. AreOpenSides (map_of plan.now) v.items) }
{
    let walls = walls_of(alloc, plan, mesh)?;
    let faces = faces_of(alloc, mesh, walls.as_slice())?;
    let marks = open_faces(alloc, mesh, walls.as_slice(), faces.as_slice())?;
    open_by(alloc, plan, mesh, faces.as_slice(), marks.as_slice())
}
