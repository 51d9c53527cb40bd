//! The sides of lines on their faces.

ghost use Rattle.std.specs.Prelude.{◌≡◌, ◌<◌, ◌↔◌, ℕ, false, None, IfOk, OnOk, IsTrue, All, length, slice_index_or};
ghost use Rattle.sight_names.specs.Map.{map_of};
ghost use Rattle.sight_names.specs.Plan.{IsPlan};
ghost use Rattle.mesh_shape.specs.Search.{IsSideSearch};
ghost use Rattle.face_groups.specs.TriSectors.Classes.{IsBelow};
ghost use Rattle.face_groups.specs.TriSectors.Sides.{IsSealedEdge, IsSealedSide, IsSealedAt, IsFirstOfLine, IsOpenLine, AreFaced, AreSidesAdded, IsSideAdded, IsOtherFrom, IsMixedSearch, AreNames, IsFacedBelow};

use mesh_shape::Mesh;
use sight_names::{Line, Memory, Plan, Side};
use std::alloc::Global;

/// A side that has a triangle: its face, and the sector that it names.
#[derive(Clone, Copy)]
pub struct FacedSide {
    pub side: Side,
    pub face: u16,
    pub sector: Option<u16>,
}

/// Whether the edge has a triangle, on a face that isn't open.
fn is_sealed(mesh: &Mesh, faces: &[u16], marks: &[bool], u: u16, v: u16) -> bool
    requires len { length faces.now ≡ length mesh.now.triangles }
    requires range { All (IsBelow (length mesh.now.triangles)) faces.now }
    requires each { length marks.now ≡ length mesh.now.triangles }
    ensures { IsTrue result ↔ IsSealedEdge mesh.now.triangles faces.now marks.now (record { from = u; to = v }) }
{
    match mesh.triangle_at(u, v) {
        Some(k) => !marks[faces[k as usize] as usize],
        None => false,
    }
}

/// Whether a side with this edge that names this sector has a triangle, on a face that isn't open.
fn is_sealed_side(
    mesh: &Mesh,
    faces: &[u16],
    marks: &[bool],
    sector: Option<u16>,
    u: u16,
    v: u16,
) -> bool
    requires len { length faces.now ≡ length mesh.now.triangles }
    requires range { All (IsBelow (length mesh.now.triangles)) faces.now }
    requires each { length marks.now ≡ length mesh.now.triangles }
    ensures { IsTrue result ↔ IsSealedSide mesh.now.triangles faces.now marks.now (record { from = u; to = v }) sector }
{
    match sector {
        Some(_) => is_sealed(mesh, faces, marks, u, v),
        None => true,
    }
}

/// The first side of the line that names a sector and is open, by whether it is the left one.
fn open_side(mesh: &Mesh, faces: &[u16], marks: &[bool], line: Line) -> Option<bool>
    requires len { length faces.now ≡ length mesh.now.triangles }
    requires range { All (IsBelow (length mesh.now.triangles)) faces.now }
    requires each { length marks.now ≡ length mesh.now.triangles }
    ensures { IsOpenLine mesh.now.triangles faces.now marks.now line result }
{
    if !is_sealed_side(mesh, faces, marks, line.right, line.b, line.a) {
        return Some(false);
    }
    if !is_sealed_side(mesh, faces, marks, line.left, line.a, line.b) {
        return Some(true);
    }
    None
}

/// The first side of this record that names a sector and is open.
fn open_side_at(plan: &Plan, mesh: &Mesh, faces: &[u16], marks: &[bool], i: usize) -> Option<bool>
    requires record { i < length plan.now.lines }
    requires len { length faces.now ≡ length mesh.now.triangles }
    requires range { All (IsBelow (length mesh.now.triangles)) faces.now }
    requires each { length marks.now ≡ length mesh.now.triangles }
    ensures { IsFirstOfLine (IsSealedAt (map_of plan.now) mesh.now.triangles faces.now marks.now) i result }
{
    match plan.lines()[i] {
        Some(line) => open_side(mesh, faces, marks, line),
        None => None,
    }
}

/// The least side that names a sector and has no triangle, or one on an open face.
pub fn first_open(plan: &Plan, mesh: &Mesh, faces: &[u16], marks: &[bool]) -> Option<Side>
    requires len { length faces.now ≡ length mesh.now.triangles }
    requires range { All (IsBelow (length mesh.now.triangles)) faces.now }
    requires each { length marks.now ≡ length mesh.now.triangles }
    ensures plan { IsPlan plan.now }
    ensures search { IsSideSearch (IsSealedAt (map_of plan.now) mesh.now.triangles faces.now marks.now) result }
{
    for i in 0..plan.lines().len() {
        if let Some(left) = open_side_at(plan, mesh, faces, marks, i) {
            return Some(Side {
                line: i as u16,
                left,
            });
        }
    }
    None
}

/// The sides that have triangles, in order.
pub fn faced_sides(
    alloc: Global,
    plan: &Plan,
    mesh: &Mesh,
    faces: &[u16],
) -> Result<Vec<FacedSide>, Memory>
    requires len { length faces.now ≡ length mesh.now.triangles }
    requires range { All (IsBelow (length mesh.now.triangles)) faces.now }
    ensures faced { IfOk result (λ v. AreFaced (map_of plan.now) mesh.now.triangles faces.now v.items) }
    ensures range { IfOk result (λ v. All (IsFacedBelow (length mesh.now.triangles)) v.items) }
{
    let mut sides = Vec::new(alloc);
    for (i, line) in plan.lines().iter().enumerate() {
        if let Some(line) = line {
            add_sides(mesh, faces, &mut sides, i as u16, *line)?;
        }
    }
    Ok(sides)
}

/// Adds those sides of the line that have triangles.
fn add_sides(
    mesh: &Mesh,
    faces: &[u16],
    sides: &mut Vec<FacedSide>,
    i: u16,
    line: Line,
) -> Result<(), Memory>
    requires len { length faces.now ≡ length mesh.now.triangles }
    ensures { OnOk result (AreSidesAdded mesh.now.triangles faces.now i line sides.old.items sides.new.items) }
{
    let right = Side {
        line: i,
        left: false,
    };
    let left = Side {
        line: i,
        left: true,
    };
    add_side(mesh, faces, sides, right, line.right, line.b, line.a)?;
    add_side(mesh, faces, sides, left, line.left, line.a, line.b)
}

/// Adds the side, which has this edge and names this sector, if it has a triangle.
fn add_side(
    mesh: &Mesh,
    faces: &[u16],
    sides: &mut Vec<FacedSide>,
    side: Side,
    sector: Option<u16>,
    u: u16,
    v: u16,
) -> Result<(), Memory>
    requires len { length faces.now ≡ length mesh.now.triangles }
    ensures { OnOk result (IsSideAdded mesh.now.triangles faces.now (record { from = u; to = v }) side sector sides.old.items sides.new.items) }
{
    if let Some(k) = mesh.triangle_at(u, v) {
        sides.push(FacedSide {
            side,
            face: faces[k as usize],
            sector,
        })?;
    }
    Ok(())
}

/// The first of the sides behind `at` that is on the same face and doesn't name the same.
fn other_on_face(sides: &[FacedSide], at: usize, first: FacedSide) -> Option<usize>
    requires { at < length sides.now }
    ensures { IsOtherFrom sides.now at first result }
{
    for j in at + 1..sides.len() {
        if sides[j].face == first.face && sides[j].sector != first.sector {
            return Some(j);
        }
    }
    None
}

/// The places of the least pair of sides on one face that don't name the same. Only the first side of a face is
/// compared with others: where these name the same as it, they name the same as each other.
pub fn first_mixed(
    alloc: Global,
    sides: &[FacedSide],
    count: usize,
) -> Result<Option<(usize, usize)>, Memory>
    requires { All (IsFacedBelow count) sides.now }
    ensures { IfOk result (IsMixedSearch sides.now) }
{
    let mut seen = vec![in alloc; false; count]?;
    Ok(mixed_pair(sides, seen.as_mut_slice()))
}

/// The same, with a mark for each face that a side was seen of.
fn mixed_pair(sides: &[FacedSide], seen: &mut [bool]) -> Option<(usize, usize)>
    requires range { All (IsFacedBelow (length seen.old)) sides.now }
    requires none { (f : ℕ) → slice_index_or seen.old f false ≡ false }
    ensures { IsMixedSearch sides.now result }
{
    for (at, first) in sides.iter().enumerate() {
        if seen[first.face as usize] {
            continue;
        }
        seen[first.face as usize] = true;
        if let Some(second) = other_on_face(sides, at, *first) {
            return Some((at, second));
        }
    }
    None
}

/// The sector that the sides of each face name.
pub fn names_of(
    alloc: Global,
    sides: &[FacedSide],
    count: usize,
) -> Result<Vec<Option<u16>>, Memory>
    requires { All (IsFacedBelow count) sides.now }
    ensures len { IfOk result (λ v. length v.items ≡ count) }
    ensures names { IfOk result (λ v. AreNames sides.now v.items) }
{
    let mut names = vec![in alloc; None; count]?;
    name_all(sides, names.as_mut_slice());
    Ok(names)
}

/// Names each face by its first side that names a sector.
fn name_all(sides: &[FacedSide], names: &mut [Option<u16>])
    requires range { All (IsFacedBelow (length names.old)) sides.now }
    requires none { (f : ℕ) → slice_index_or names.old f None ≡ None }
    ensures { AreNames sides.now names.new }
{
    for side in sides {
        if names[side.face as usize].is_none() {
            names[side.face as usize] = side.sector;
        }
    }
}
