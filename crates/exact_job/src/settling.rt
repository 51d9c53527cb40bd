//! Rounds of walks with what each group owns, until none of them finds anything.

ghost use Rattle.std.specs.Prelude.{◌≡◌, ◌≢◌, ◌<◌, ◌++◌, ℕ, List, [], Some, All, IfOk, true, false, MatchBool, OnOk, length, map, slice_get};
ghost use Rattle.sight_names.specs.declared.names.Triangle.{Triangle as TriangleOf};
ghost use Rattle.sight_names.specs.Plan.{IsPlan, PlanParts};
ghost use Rattle.sight_names.specs.Ray.{IsInRange};
ghost use Rattle.mesh_shape.specs.declared.half_edges.table.HalfEdge.{HalfEdge as HalfEdgeOf};
ghost use Rattle.pair_budget.specs.PairRays.{toward as ray_toward};
ghost use Rattle.row_trees.specs.declared.made.Made.{Made as MadeOf};
ghost use Rattle.exact_job.specs.Built.{IsSettled};
ghost use Rattle.found_rays.specs.Ground.{IsRayGround};
ghost use Rattle.found_rays.specs.Rays.{AreFoundInOrder};
ghost use Rattle.exact_job.specs.Rounds.{AreRaysNoted, HasMore, IsSettlingRound};
ghost use Rattle.exact_job.specs.Trees.{HasFound, HasFoundNothing, nodes_of_walks};

use crate::trees::make_trees;
use crate::walkers::Walkers;
use block_evidence::sight_tree::Nodes;
use cert_format::Sizes;
use exact_checker::joined_rows;
use first_walk::{first_rays, toward};
use found_rays::in_order;
use found_rays::judged::judged;
use gate_floods::gate_masks::Row;
use group_checker::GroupedMesh;
use mesh_shape::half_edges::HalfEdges;
use pair_budget::Reached;
use row_trees::Made;
use sight_names::{Memory, PairRay};
use std::alloc::Global;

/// A ray for each pair of groups that see each other, the rows of what the rays join with each group, and the nodes of each
/// group's tree.
#[derive(Drop)]
pub struct Settled {
    pub rays: Vec<PairRay>,
    pub joined: Vec<Row>,
    pub trees: Vec<Nodes>,
}

/// Rays, the rows of what they join with each group, and what the walk of each group made with what it then owns.
#[derive(Drop)]
pub struct Round {
    pub rays: Vec<PairRay>,
    pub joined: Vec<Row>,
    pub walks: Vec<Made>,
}

/// The round of these rays.
fn round_of<W: Walkers>(
    walkers: &W,
    alloc: Global,
    over: &GroupedMesh,
    edges: &HalfEdges,
    rays: Vec<PairRay>,
) -> Result<Round, Memory>
    requires can { W.can_walk walkers.now }
    requires ground { IsRayGround over.now.plan over.now.mesh.triangles over.now.labels edges.now }
    requires rays { AreFoundInOrder over.now.plan rays.items }
    ensures round { IfOk result (IsSettlingRound over.now.plan over.now.mesh.triangles edges.now) }
    ensures rays { IfOk result (λ r. r.rays.items ≡ rays.items) }
{
    let plan = &over.plan;
    let joined = joined_rows(alloc, plan.sectors, rays.as_slice())?;
    let walks = make_trees(walkers, alloc, over, edges, joined.as_slice())?;
    Ok(Round {
        rays,
        joined,
        walks,
    })
}

/// Whether the walk found something.
fn found_some(walk: &Made) -> bool
    ensures some { result ≡ true → walk.now.found.items ≢ [] }
    ensures none { result ≡ false → walk.now.found.items ≡ [] }
{
    !walk.found.is_empty()
}

/// Whether some walk found something.
fn has_found(walks: &[Made]) -> bool
    ensures { MatchBool result (HasFound walks.now) (HasFoundNothing walks.now) }
{
    for made in walks {
        if found_some(made) {
            return true;
        }
    }
    false
}

/// Adds a ray for each group that the source found.
fn note_found(rays: &mut Vec<PairRay>, source: u16, found: &[Reached]) -> Result<(), Memory>
    requires { All (λ r. IsInRange r.ray) found.now }
    ensures { OnOk result (rays.new.items ≡ rays.old.items ++ map (ray_toward source) found.now) }
{
    for reached in found {
        rays.push(toward(source, reached))?;
    }
    Ok(())
}

/// Adds the rays that the walks of so many groups found.
fn note_walks(rays: &mut Vec<PairRay>, walks: &[Made], count: u16) -> Result<(), Memory>
    requires count { length walks.now ≡ count }
    requires range { (f : ℕ) (w : MadeOf) → slice_get walks.now f ≡ Some w → All (λ r. IsInRange r.ray) w.found.items }
    ensures { OnOk result (AreRaysNoted walks.now rays.old.items rays.new.items) }
{
    for source in 0..count {
        note_found(rays, source, walks[source as usize].found.as_slice())?;
    }
    Ok(())
}

/// The rays of the round and those that its walks of so many groups found, one for each pair.
fn more_rays(alloc: Global, count: u16, round: Round) -> Result<Vec<PairRay>, Memory>
    requires count { length round.walks.items ≡ count }
    requires range { (f : ℕ) (w : MadeOf) → slice_get round.walks.items f ≡ Some w → All (λ r. IsInRange r.ray) w.found.items }
    ensures { (p : PlanParts) (ts : List TriangleOf) (xs : List HalfEdgeOf) → IsPlan p → IsSettlingRound p ts xs round → IfOk result (λ v. HasMore p round v.items) }
{
    let Round {
        mut rays,
        joined: _,
        walks,
    } = round;
    note_walks(&mut rays, walks.as_slice(), count)?;
    in_order(alloc, rays)
}

/// The nodes of each walk.
fn trees_of(alloc: Global, walks: Vec<Made>) -> Result<Vec<Nodes>, Memory>
    ensures { IfOk result (λ v. v.items ≡ nodes_of_walks walks.items) }
{
    let mut trees = Vec::new(alloc);
    for made in walks {
        trees.push(made.nodes)?;
    }
    Ok(trees)
}

/// Rays and trees of a round whose walks found nothing.
fn end_of(alloc: Global, sizes: Sizes, round: Round) -> Result<Settled, Memory>
    requires nothing { HasFoundNothing round.walks.items }
    ensures { (p : PlanParts) (ts : List TriangleOf) (xs : List HalfEdgeOf) → IsPlan p → sizes.sectors ≡ p.sectors → sizes.lines ≡ length p.lines → IsSettlingRound p ts xs round → IfOk result (IsSettled p ts xs sizes) }
{
    let Round {
        rays,
        joined,
        walks,
    } = round;
    let trees = trees_of(alloc, walks)?;
    Ok(Settled {
        rays,
        joined,
        trees,
    })
}

/// The round of the sight rays that the first walk finds.
fn first_round<W: Walkers>(
    walkers: &W,
    alloc: Global,
    over: &GroupedMesh,
    edges: &HalfEdges,
) -> Result<Round, Memory>
    requires can { W.can_walk walkers.now }
    requires can_judge { W.can_judge walkers.now }
    requires can_search { W.can_search walkers.now }
    requires ground { IsRayGround over.now.plan over.now.mesh.triangles over.now.labels edges.now }
    ensures { IfOk result (IsSettlingRound over.now.plan over.now.mesh.triangles edges.now) }
{
    let found = first_rays(walkers, alloc, &over.plan, &over.mesh, edges)?;
    let each = in_order(alloc, found)?;
    let rays = judged(walkers, alloc, over, edges, each)?;
    round_of(walkers, alloc, over, edges, rays)
}

/// The round behind one whose walks found something, which has more rays.
fn next_round<W: Walkers>(
    walkers: &W,
    alloc: Global,
    over: &GroupedMesh,
    edges: &HalfEdges,
    round: Round,
) -> Result<Round, Memory>
    requires can { W.can_walk walkers.now }
    requires ground { IsRayGround over.now.plan over.now.mesh.triangles over.now.labels edges.now }
    requires round { IsSettlingRound over.now.plan over.now.mesh.triangles edges.now round }
    requires found { HasFound round.walks.items }
    ensures round { IfOk result (IsSettlingRound over.now.plan over.now.mesh.triangles edges.now) }
    ensures more { IfOk result (λ r. length round.rays.items < length r.rays.items) }
{
    let plan = &over.plan;
    let rays = more_rays(alloc, plan.sectors, round)?;
    round_of(walkers, alloc, over, edges, rays)
}

/// Rays and trees of a map of groups.
pub fn settle<W: Walkers>(
    walkers: &W,
    alloc: Global,
    over: &GroupedMesh,
    edges: &HalfEdges,
    sizes: Sizes,
) -> Result<Settled, Memory>
    requires can { W.can_walk walkers.now }
    requires can_judge { W.can_judge walkers.now }
    requires can_search { W.can_search walkers.now }
    requires sectors { sizes.sectors ≡ over.now.plan.sectors }
    requires lines { sizes.lines ≡ length over.now.plan.lines }
    requires ground { IsRayGround over.now.plan over.now.mesh.triangles over.now.labels edges.now }
    ensures { IfOk result (IsSettled over.now.plan over.now.mesh.triangles edges.now sizes) }
{
    let mut round = first_round(walkers, alloc, over, edges)?;
    'rounds: while has_found(round.walks.as_slice()) {
        round = next_round(walkers, alloc, over, edges, round)?;
    }
    end_of(alloc, sizes, round)
}
