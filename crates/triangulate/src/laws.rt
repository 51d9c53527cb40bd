//! What the greedy segments of a map and the triangles between them say of it.

ghost use Rattle.std.specs.Prelude.{◌≤◌, ◌*◌, List, length};
ghost use Rattle.sight_names.specs.declared.names.Triangle.{Triangle};
ghost use Rattle.sight_names.specs.Map.{map_of};
ghost use Rattle.sight_names.specs.Sound.{LinesMeetAtEnds};
ghost use Rattle.sight_names.specs.Mesh.{IsMeshOf, IsPlainMesh};
ghost use Rattle.mesh_shape.specs.Fills.{FillsHull, FillsSides};

use sight_names::Plan;

/// Where the lines of a map meet at ends alone, its mesh is plain and fills the hull, and has at most twice as many
/// triangles as the map has points. The call does nothing: its clauses are laws.
pub fn mesh_laws(plan: &Plan)
    ensures plain { LinesMeetAtEnds (map_of plan.now) → (ts : List Triangle) → IsMeshOf (map_of plan.now) ts → IsPlainMesh (map_of plan.now) ts }
    ensures fills { LinesMeetAtEnds (map_of plan.now) → (ts : List Triangle) (mesh : IsMeshOf (map_of plan.now) ts) → FillsHull (map_of plan.now) mesh.kept ts }
    ensures sides { LinesMeetAtEnds (map_of plan.now) → (ts : List Triangle) → IsMeshOf (map_of plan.now) ts → FillsSides (map_of plan.now) ts }
    ensures few { LinesMeetAtEnds (map_of plan.now) → (ts : List Triangle) → IsMeshOf (map_of plan.now) ts → length ts ≤ 2 * length plan.now.points }
{
    let _ = plan.points();
}
