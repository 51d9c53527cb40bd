//! Faces: triangles that are linked across edges that are no lines.

ghost use Rattle.std.specs.Prelude.{◌≡◌, ◌<◌, ◌↔◌, ℕ, false, IfOk, All, None, IsTrue, IsFalse, length, slice_index_or};
ghost use Rattle.sight_names.specs.Map.{map_of};
ghost use Rattle.sight_names.specs.Mesh.{triangle_at};
ghost use Rattle.face_groups.specs.TriSectors.Classes.{AreSingles, IsBelow};
ghost use Rattle.face_groups.specs.TriSectors.Faces.{AreWallsMarked, AreWalls, IsWallPut, IsMarkedMore, AreFaces, AreCrossed, JoinsAcross, AreOpen, HasGapHere};
ghost use Rattle.face_groups.specs.TriSectors.Forest.{classes_in, IsForest};

use crate::tri_sectors::classes::{merge, name_all, singles};
use mesh_shape::Mesh;
use sight_names::{Memory, Plan, Triangle};
use std::alloc::Global;

/// Which edges of a triangle are lines.
#[derive(Clone, Copy)]
pub struct Walls {
    pub pq: bool,
    pub qr: bool,
    pub rp: bool,
}

/// For each triangle, which of its edges are lines.
pub fn walls_of(alloc: Global, plan: &Plan, mesh: &Mesh) -> Result<Vec<Walls>, Memory>
    ensures { IfOk result (λ v. AreWalls (map_of plan.now) mesh.now.triangles v.items) }
{
    let none = Walls {
        pq: false,
        qr: false,
        rp: false,
    };
    let mut walls = vec![in alloc; none; mesh.triangles().len()]?;
    mark_lines(plan, mesh, walls.as_mut_slice());
    Ok(walls)
}

/// Marks all lines.
fn mark_lines(plan: &Plan, mesh: &Mesh, walls: &mut [Walls])
    requires len { length walls.old ≡ length mesh.now.triangles }
    requires none { AreWallsMarked (λ k e. ⊥) mesh.now.triangles walls.old }
    ensures { AreWalls (map_of plan.now) mesh.now.triangles walls.new }
{
    for line in plan.lines() {
        if let Some(line) = line {
            put_wall(mesh, walls, line.a, line.b);
            put_wall(mesh, walls, line.b, line.a);
        }
    }
}

/// Marks the edge in the first triangle that has it.
fn put_wall(mesh: &Mesh, walls: &mut [Walls], u: u16, v: u16)
    requires { length walls.old ≡ length mesh.now.triangles }
    ensures { IsWallPut mesh.now.triangles (record { from = u; to = v }) walls.old walls.new }
{
    let Some(k) = mesh.triangle_at(u, v) else {
        return;
    };
    let t = mesh.triangles()[k as usize];
    walls[k as usize] = marked(walls[k as usize], t, u);
}

/// With the edge from `u` on marked too.
fn marked(walls: Walls, t: Triangle, u: u16) -> Walls
    ensures { IsMarkedMore t u walls result }
{
    Walls {
        pq: walls.pq || t.p == u,
        qr: walls.qr || t.q == u,
        rp: walls.rp || t.r == u,
    }
}

/// The class of each triangle's face: the least triangle of the face.
pub fn faces_of(alloc: Global, mesh: &Mesh, walls: &[Walls]) -> Result<Vec<u16>, Memory>
    requires { length walls.now ≡ length mesh.now.triangles }
    ensures faces { IfOk result (λ v. AreFaces mesh.now.triangles walls.now v.items) }
    ensures range { IfOk result (λ v. All (IsBelow (length mesh.now.triangles)) v.items) }
{
    let triangles = mesh.triangles();
    let mut faces = singles(alloc, triangles.len() as u16)?;
    link_all(mesh, walls, faces.as_mut_slice());
    Ok(faces)
}

/// Puts all triangles together with their neighbours across edges that are no lines, and names the faces.
fn link_all(mesh: &Mesh, walls: &[Walls], faces: &mut [u16])
    requires walls { length walls.now ≡ length mesh.now.triangles }
    requires alone { AreSingles (length mesh.now.triangles) faces.old }
    ensures { AreFaces mesh.now.triangles walls.now faces.new }
{
    for (k, t) in mesh.triangles().iter().enumerate() {
        link(mesh, faces, walls[k], k as u16, *t);
    }
    name_all(faces);
}

/// Puts the triangle together with its neighbours across edges that are no lines.
fn link(mesh: &Mesh, parents: &mut [u16], walls: Walls, k: u16, t: Triangle)
    requires len { length parents.old ≡ length mesh.now.triangles }
    requires at { k < length parents.old }
    requires forest { IsForest parents.old }
    ensures len { length parents.new ≡ length parents.old }
    ensures forest { IsForest parents.new }
    ensures crossed { AreCrossed mesh.now.triangles walls k t (classes_in parents.old) (classes_in parents.new) }
{
    link_across(mesh, parents, walls.pq, k, t.p, t.q);
    link_across(mesh, parents, walls.qr, k, t.q, t.r);
    link_across(mesh, parents, walls.rp, k, t.r, t.p);
}

/// Puts the triangle together with the one that has the reverse of this edge, if the edge isn't a line.
fn link_across(mesh: &Mesh, parents: &mut [u16], is_line: bool, k: u16, u: u16, v: u16)
    requires len { length parents.old ≡ length mesh.now.triangles }
    requires at { k < length parents.old }
    requires forest { IsForest parents.old }
    ensures len { length parents.new ≡ length parents.old }
    ensures forest { IsForest parents.new }
    ensures crossed { JoinsAcross mesh.now.triangles is_line k (record { from = u; to = v }) (classes_in parents.old) (classes_in parents.new) }
{
    if is_line {
        return;
    }
    if let Some(j) = mesh.triangle_at(v, u) {
        merge(parents, k, j);
    }
}

/// Whether each face has an edge that is no line and has no triangle behind it.
pub fn open_faces(
    alloc: Global,
    mesh: &Mesh,
    walls: &[Walls],
    faces: &[u16],
) -> Result<Vec<bool>, Memory>
    requires walls { length walls.now ≡ length mesh.now.triangles }
    requires faces { length faces.now ≡ length mesh.now.triangles }
    requires range { All (IsBelow (length mesh.now.triangles)) faces.now }
    ensures { IfOk result (λ v. AreOpen mesh.now.triangles walls.now faces.now v.items) }
{
    let mut open = vec![in alloc; false; mesh.triangles().len()]?;
    open_all(mesh, walls, faces, open.as_mut_slice());
    Ok(open)
}

/// Marks the faces of all triangles that have such an edge.
fn open_all(mesh: &Mesh, walls: &[Walls], faces: &[u16], marks: &mut [bool])
    requires walls { length walls.now ≡ length mesh.now.triangles }
    requires faces { length faces.now ≡ length mesh.now.triangles }
    requires range { All (IsBelow (length mesh.now.triangles)) faces.now }
    requires len { length marks.old ≡ length mesh.now.triangles }
    requires none { (f : ℕ) → slice_index_or marks.old f false ≡ false }
    ensures { AreOpen mesh.now.triangles walls.now faces.now marks.new }
{
    for (k, t) in mesh.triangles().iter().enumerate() {
        if has_gap(mesh, walls[k], *t) {
            marks[faces[k] as usize] = true;
        }
    }
}

/// Whether an edge of the triangle is no line and has no triangle behind it.
fn has_gap(mesh: &Mesh, walls: Walls, t: Triangle) -> bool
    ensures { IsTrue result ↔ HasGapHere mesh.now.triangles walls t }
{
    is_gap(mesh, walls.pq, t.p, t.q)
        || is_gap(mesh, walls.qr, t.q, t.r)
        || is_gap(mesh, walls.rp, t.r, t.p)
}

/// Whether the edge is no line and has no triangle behind it.
fn is_gap(mesh: &Mesh, is_line: bool, u: u16, v: u16) -> bool
    ensures { IsTrue result ↔ (IsFalse is_line × (triangle_at mesh.now.triangles (record { from = v; to = u }) ≡ None)) }
{
    !is_line && mesh.triangle_at(v, u).is_none()
}
