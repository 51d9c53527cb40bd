//! The plan whose sectors are groups: each side names the label of its triangle.

ghost use Rattle.std.specs.Prelude.{◌≡◌, ◌<◌, ℕ, Some, IfOk, length, map, option_map};
ghost use Rattle.sight_names.specs.Map.{map_of};
ghost use Rattle.sight_names.specs.Mesh.{label_of};
ghost use Rattle.face_groups.specs.GroupsBase.Table.{NamedAreLabelled};
ghost use Rattle.face_groups.specs.Regrouped.{label_at_edge, regrouped, regrouped_plan};

use mesh_shape::Mesh;
use sight_names::{Line, Memory, Plan};
use std::alloc::Global;

/// The label of the triangle at this directed edge, None where there is none.
fn label_on(mesh: &Mesh, labels: &[Option<u16>], u: u16, v: u16) -> Option<u16>
    requires { length labels.now ≡ length mesh.now.triangles }
    ensures { result ≡ label_at_edge mesh.now.triangles labels.now (record { from = u; to = v }) }
{
    let k = mesh.triangle_at(u, v)?;
    labels[k as usize]
}

/// The line, with the labels at its sides for names.
fn regrouped_line(mesh: &Mesh, labels: &[Option<u16>], line: Option<Line>) -> Option<Line>
    requires { length labels.now ≡ length mesh.now.triangles }
    ensures { result ≡ option_map (regrouped mesh.now.triangles labels.now) line }
{
    let line = line?;
    Some(Line {
        a: line.a,
        b: line.b,
        solid: line.solid,
        right: label_on(mesh, labels, line.b, line.a),
        left: label_on(mesh, labels, line.a, line.b),
    })
}

/// All lines, with the labels at their sides for names.
fn regrouped_lines(
    alloc: Global,
    plan: &Plan,
    mesh: &Mesh,
    labels: &[Option<u16>],
) -> Result<Vec<Option<Line>>, Memory>
    requires { length labels.now ≡ length mesh.now.triangles }
    ensures { IfOk result (λ v. v.items ≡ map (option_map (regrouped mesh.now.triangles labels.now)) plan.now.lines) }
{
    let mut lines = Vec::new(alloc);
    for line in plan.lines() {
        lines.push(regrouped_line(mesh, labels, *line))?;
    }
    Ok(lines)
}

/// The plan with so many groups for sectors: the same points and lines, and each side names the label of its triangle.
pub fn regrouped_map(
    alloc: Global,
    plan: &Plan,
    mesh: &Mesh,
    labels: &[Option<u16>],
    count: u16,
) -> Result<Plan, Memory>
    requires len { length labels.now ≡ length mesh.now.triangles }
    requires range { (k f : ℕ) → label_of labels.now k ≡ Some f → f < count }
    requires named { NamedAreLabelled (map_of plan.now) mesh.now.triangles labels.now }
    ensures { IfOk result (λ g. g ≡ regrouped_plan mesh.now.triangles labels.now count plan.now) }
{
    let lines = regrouped_lines(alloc, plan, mesh, labels)?;
    let points = plan.points().to_vec(alloc)?;
    Ok(Plan {
        sectors: count,
        points,
        lines,
    })
}
