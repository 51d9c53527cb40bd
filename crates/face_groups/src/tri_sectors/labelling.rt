//! The labels of a mesh's triangles.

ghost use Rattle.std.specs.Prelude.{◌≡◌, ◌<◌, ℕ, Some, IfOk, All, length};
ghost use Rattle.sight_names.specs.Map.{map_of};
ghost use Rattle.sight_names.specs.Plan.{IsPlan};
ghost use Rattle.sight_names.specs.Mesh.{IsPlainMesh, IsGoodMesh, label_of};
ghost use Rattle.face_groups.specs.TriSectors.Classes.{IsBelow};
ghost use Rattle.face_groups.specs.TriSectors.Faces.{AreMarkedFaces};
ghost use Rattle.face_groups.specs.TriSectors.Sides.{AreLabelled, IsFacedBelow};
ghost use Rattle.mesh_shape.specs.Fills.{FillsSides};
ghost use Rattle.face_groups.specs.TriSectors.Verdict.{IsLabelVerdict};
ghost use Rattle.face_groups.specs.TriSectors.Labels.{IsSidesVerdict, IsLabelsVerdict};

use crate::tri_sectors::faces::{faces_of, open_faces, walls_of};
use crate::tri_sectors::sides::{FacedSide, faced_sides, first_mixed, first_open, names_of};
use mesh_shape::{Labels, Mesh};
use sight_names::{LabelFault, Memory, Plan};
use std::alloc::Global;

/// The sector of each triangle: the one that the sides of its face name, or None. A face is open where it reaches
/// outside the convex hull of the points, and mixed where its sides don't name the same.
pub fn label(alloc: Global, plan: &Plan, mesh: &Mesh) -> Result<Labels, LabelFault>
    ensures len { IfOk result (λ l. length l ≡ length mesh.now.triangles) }
    ensures range { IfOk result (λ l. (k a : ℕ) → label_of l k ≡ Some a → a < plan.now.sectors) }
    ensures good { IsPlainMesh (map_of plan.now) mesh.now.triangles → IfOk result (IsGoodMesh (map_of plan.now) mesh.now.triangles) }
    ensures verdict { IsPlainMesh (map_of plan.now) mesh.now.triangles → FillsSides (map_of plan.now) mesh.now.triangles → IsLabelVerdict (map_of plan.now) mesh.now.triangles result }
{
    let walls = walls_of(alloc, plan, mesh)?;
    let faces = faces_of(alloc, mesh, walls.as_slice())?;
    let marks = open_faces(alloc, mesh, walls.as_slice(), faces.as_slice())?;
    label_faces(alloc, plan, mesh, faces.as_slice(), marks.as_slice())
}

/// The same, where the faces are known and the open ones marked.
fn label_faces(
    alloc: Global,
    plan: &Plan,
    mesh: &Mesh,
    faces: &[u16],
    marks: &[bool],
) -> Result<Labels, LabelFault>
    requires marked { AreMarkedFaces (map_of plan.now) mesh.now.triangles faces.now marks.now }
    requires range { All (IsBelow (length mesh.now.triangles)) faces.now }
    ensures plan { IsPlan plan.now }
    ensures verdict { IsLabelsVerdict (map_of plan.now) mesh.now.triangles faces.now marks.now result }
{
    if let Some(side) = first_open(plan, mesh, faces, marks) {
        return Err(LabelFault::Open { side });
    }
    let sides = faced_sides(alloc, plan, mesh, faces)?;
    label_sides(alloc, faces, sides.as_slice())
}

/// The same, where no side is open.
fn label_sides(alloc: Global, faces: &[u16], sides: &[FacedSide]) -> Result<Labels, LabelFault>
    requires range { All (IsBelow (length faces.now)) faces.now }
    requires sides { All (IsFacedBelow (length faces.now)) sides.now }
    ensures { IsSidesVerdict faces.now sides.now result }
{
    if let Some((first, second)) = first_mixed(alloc, sides, faces.len())? {
        return Err(LabelFault::Mixed {
            first: sides[first].side,
            second: sides[second].side,
        });
    }
    let names = names_of(alloc, sides, faces.len())?;
    let labels = labels_of(alloc, faces, names.as_slice())?;
    Ok(Labels::of(labels))
}

/// Each triangle's name by its face.
pub fn labels_of(
    alloc: Global,
    faces: &[u16],
    names: &[Option<u16>],
) -> Result<Vec<Option<u16>>, Memory>
    requires { All (IsBelow (length names.now)) faces.now }
    ensures { IfOk result (λ v. AreLabelled faces.now names.now v.items) }
{
    let mut labels = Vec::new(alloc);
    for face in faces {
        labels.push(names[*face as usize])?;
    }
    Ok(labels)
}
