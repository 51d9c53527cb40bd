//! The lines of a map whose lines meet at ends alone: of its open sides, its torn corners and the gaps in its hull.

ghost use Rattle.std.specs.Prelude.{◌≡◌, ◌++◌, OnOk, IfOk, string_bytes};
ghost use Rattle.sight_names.specs.Map.{map_of};
ghost use Rattle.sight_names.specs.Mesh.{IsMeshOf, IsPlainMesh};
ghost use Rattle.sight_names.specs.Sound.{LinesMeetAtEnds};
ghost use Rattle.mesh_shape.specs.Fills.{FillsSides};
ghost use Rattle.fault_report.specs.Report.{AreFacesTold, face_lines, open_lines, sound_lines};
ghost use Rattle.fault_report.specs.Rows.{sound_row};

use crate::kinds::push_kind;
use map_faults::{Gap, Tear, gaps_of, open_sides_of, tears_of};
use mesh_shape::Mesh;
use row_spelling::Spelling;
use sight_names::{Memory, Plan, Side};
use std::alloc::{AllocError, Global};
use triangulate::greedy_mesh;

/// That the map is sound.
fn sound_word(spelling: Spelling) -> &'static str
    ensures { result.now ≡ sound_row spelling }
{
    match spelling {
        Spelling::Text => "sound\n",
        Spelling::Json => "{\"sound\":true}\n",
    }
}

/// Adds what is told of a map without an open side.
fn push_sound(
    alloc: Global,
    plan: &Plan,
    spelling: Spelling,
    text: &mut String,
    tears: &[Tear],
) -> Result<(), AllocError>
    ensures { OnOk result (string_bytes text.new ≡ string_bytes text.old ++ sound_lines spelling plan.now tears.now) }
{
    text.push_str(sound_word(spelling))?;
    push_kind(alloc, plan, spelling, text, tears, "torn corners")
}

/// Adds what is told of another map.
fn push_open(
    alloc: Global,
    plan: &Plan,
    spelling: Spelling,
    text: &mut String,
    sides: &[Side],
    tears: &[Tear],
    gaps: &[Gap],
) -> Result<(), AllocError>
    ensures { OnOk result (string_bytes text.new ≡ string_bytes text.old ++ open_lines spelling plan.now sides.now tears.now gaps.now) }
{
    push_kind(alloc, plan, spelling, text, sides, "open sides")?;
    push_kind(alloc, plan, spelling, text, tears, "torn corners")?;
    push_kind(alloc, plan, spelling, text, gaps, "gaps")
}

/// Adds the lines of open sides, torn corners and gaps.
fn push_faces(
    alloc: Global,
    plan: &Plan,
    spelling: Spelling,
    text: &mut String,
    sides: &[Side],
    tears: &[Tear],
    gaps: &[Gap],
) -> Result<(), AllocError>
    ensures { OnOk result (string_bytes text.new ≡ string_bytes text.old ++ face_lines spelling plan.now sides.now tears.now gaps.now) }
{
    if sides.len() == 0 {
        return push_sound(alloc, plan, spelling, text, tears);
    }
    push_open(alloc, plan, spelling, text, sides, tears, gaps)
}

/// The same over this mesh of the map.
fn told_over(alloc: Global, plan: &Plan, spelling: Spelling, mesh: &Mesh) -> Result<String, Memory>
    requires mesh { IsMeshOf (map_of plan.now) mesh.now.triangles }
    requires plain { IsPlainMesh (map_of plan.now) mesh.now.triangles }
    requires fills { FillsSides (map_of plan.now) mesh.now.triangles }
    ensures { IfOk result (λ text. AreFacesTold spelling plan.now (string_bytes text)) }
{
    let sides = open_sides_of(alloc, plan, mesh)?;
    let tears = tears_of(alloc, plan, mesh)?;
    let gaps = gaps_of(alloc, plan, mesh)?;
    let mut text = String::new(alloc);
    push_faces(
        alloc,
        plan,
        spelling,
        &mut text,
        sides.as_slice(),
        tears.as_slice(),
        gaps.as_slice(),
    )?;
    Ok(text)
}

/// What is told of the faces of a map whose lines meet at ends alone.
pub fn told_faces(alloc: Global, plan: &Plan, spelling: Spelling) -> Result<String, Memory>
    requires { LinesMeetAtEnds (map_of plan.now) }
    ensures { IfOk result (λ text. AreFacesTold spelling plan.now (string_bytes text)) }
{
    let mesh = greedy_mesh(alloc, plan)?;
    told_over(alloc, plan, spelling, &mesh)
}
