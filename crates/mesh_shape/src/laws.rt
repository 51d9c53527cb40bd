//! What a good mesh, whoever made it, says of its map.

ghost use Rattle.std.specs.Prelude.{ℕ, List, Option};
ghost use Rattle.sight_names.specs.declared.names.Triangle.{Triangle};
ghost use Rattle.sight_names.specs.Map.{map_of};
ghost use Rattle.sight_names.specs.Sound.{IsClosed, NamesAgree};
ghost use Rattle.sight_names.specs.Mesh.{IsGoodMesh};

use sight_names::Plan;

/// A map that has a good mesh is closed, and the sides of each of its faces name the same. The call does nothing: its
/// clauses are laws.
pub fn good_mesh_laws(plan: &Plan)
    ensures closed { (ts : List Triangle) (ls : List (Option ℕ)) → IsGoodMesh (map_of plan.now) ts ls → IsClosed (map_of plan.now) }
    ensures agree { (ts : List Triangle) (ls : List (Option ℕ)) → IsGoodMesh (map_of plan.now) ts ls → NamesAgree (map_of plan.now) }
{
    let _ = plan.points();
}
