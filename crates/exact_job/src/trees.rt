//! The walks of all groups, each with what it owns.

ghost use Rattle.std.specs.Prelude.{◌≡◌, ◌*◌, ◌<◌, ◌≤◌, ℕ, IfOk, length};
ghost use Rattle.exact_checker.specs.Owning.{IsSized, owning_of};
ghost use Rattle.gate_floods.specs.RowJudge.Masks.{rows_of};
ghost use Rattle.row_trees.specs.Walkable.{Ground as GroundOf, IsWalkable};
ghost use Rattle.found_rays.specs.Ground.{IsRayGround};
ghost use Rattle.exact_job.specs.Trees.{AreRowWalks, AreWalksOf};

use crate::walk_tasks::OwnedWalks;
use crate::walkers::Walkers;
use cert_checker::tree_judge::{Roots, Terrain};
use exact_checker::{Owning, edge_masks, ranks_of};
use face_groups::tri_sectors::components;
use gate_floods::gate_masks::Row;
use gate_floods::row_judge::Masks;
use group_checker::GroupedMesh;
use mesh_shape::half_edges::HalfEdges;
use row_trees::Made;
use sight_names::Memory;
use std::alloc::Global;

/// What the walk of each group with what it owns makes.
fn walk_each<W: Walkers>(
    walkers: &W,
    alloc: Global,
    walks: &OwnedWalks<'_>,
) -> Result<Vec<Made>, Memory>
    requires can { W.can_walk walkers.now }
    requires sized { IsSized (owning_of walks.now.known) }
    requires room { walks.now.known.count ≤ 64 * walks.now.masks.now.width }
    requires walkable { (g : GroundOf) × ((f : ℕ) → f < walks.now.known.count → IsWalkable g walks.now.terrain.now.edges.now walks.now.terrain.now.roots.now.roots.items walks.now.terrain.now.roots.now.first.items f) }
    ensures { (g : GroundOf) → ((f : ℕ) → f < walks.now.known.count → IsWalkable g walks.now.terrain.now.edges.now walks.now.terrain.now.roots.now.roots.items walks.now.terrain.now.roots.now.first.items f) → IfOk result (λ v. AreWalksOf g.plan walks.now.terrain.now.edges.now (rows_of walks.now.masks.now) walks.now.terrain.now.roots.now.roots.items walks.now.terrain.now.roots.now.first.items (owning_of walks.now.known) v.items) }
{
    walkers.walk_owned(alloc, walks)
}

/// What the walk of each group with what it owns makes, where these rows tell what is joined.
pub fn make_trees<W: Walkers>(
    walkers: &W,
    alloc: Global,
    over: &GroupedMesh,
    edges: &HalfEdges,
    joined: &[Row],
) -> Result<Vec<Made>, Memory>
    requires can { W.can_walk walkers.now }
    requires ground { IsRayGround over.now.plan over.now.mesh.triangles over.now.labels edges.now }
    requires rows { length joined.now ≡ over.now.plan.sectors }
    ensures { IfOk result (λ v. AreRowWalks over.now.plan over.now.mesh.triangles edges.now joined.now v.items) }
{
    let plan = &over.plan;
    let components = components(alloc, plan)?;
    let ranks = ranks_of(alloc, plan.sectors, joined)?;
    let roots = Roots::of(alloc, plan, &over.mesh, edges)?;
    let kept = edge_masks(alloc, plan, edges, joined)?;
    let terrain = Terrain {
        edges,
        roots: &roots,
    };
    let masks = Masks {
        width: kept.width,
        places: kept.places.as_slice(),
        words: kept.words.as_slice(),
    };
    let known = Owning {
        count: plan.sectors,
        components: components.as_slice(),
        ranks: ranks.as_slice(),
        joined,
    };
    let walks = OwnedWalks {
        known,
        terrain: &terrain,
        masks: &masks,
    };
    walk_each(walkers, alloc, &walks)
}
