//! How far a certificate of version 3 is judged: its triangles and rays come, or they have come.

ghost use Rattle.std.specs.Prelude.{◌≡◌, ◌↔◌, ℕ, List, [], None, true, All, IfOk, IsTrue};
ghost use Rattle.sight_names.specs.Plan.{PlanParts};
ghost use Rattle.sight_names.specs.declared.names.PairRay.{PairRay as RayOf};
ghost use Rattle.cert_format.specs.declared.cert.Labelled.{Labelled as AtGroup};
ghost use Rattle.cert_checker.specs.Pairs.{IsPairWithin};
ghost use Rattle.certificates.specs.CertParts.Nodes.{TakesNodes};
ghost use Rattle.certificates.specs.ExactParts.Parts.{node_parts};
ghost use Rattle.any_judge.specs.ExactJudge.Heard.{Groups as GroupsOf, ExactHeard, closed_at, heard_from, with_node_of};
ghost use Rattle.any_judge.specs.ExactJudge.Stage.{IsExactStageClosed, IsGroupedOver, IsStage};

use crate::exact_judge::ground::Ground;
use crate::exact_judge::trees::RowTrees;
use block_evidence::sight_tree::Node;
use cert_checker::ray_fault;
use cert_format::Labelled;
use cert_format::cert_groups::Group;
use cert_judge::in_order::{are_in_order, are_labelled_below};
use group_checker::{AnyFault, GroupedMesh, MeshVerdict, judge_mesh};
use mesh_shape::half_edges::HalfEdges;
use sight_names::{Memory, Pair, PairRay, Plan};
use std::alloc::Global;

/// Triangles and rays come; or no certificate has such; or they break a rule; or they keep all, and trees come.
#[derive(Drop)]
pub enum Stage {
    Gathering,
    Lost,
    Broken(AnyFault),
    Walking(RowTrees),
}

/// Whether the pair is of two of so many groups, the lesser first.
fn is_within(count: u16, pair: Pair) -> bool
    ensures { IsTrue result ↔ IsPairWithin count pair }
{
    pair.a < pair.b && pair.b < count
}

/// Whether each ray is for two of so many groups, the lesser first.
fn are_within(count: u16, rays: &[PairRay]) -> bool
    ensures { IsTrue result ↔ All (λ (r : RayOf). IsPairWithin count r.pair) rays.now }
{
    for one in rays {
        if !is_within(count, one.pair) {
            return false;
        }
    }
    true
}

/// Judges the rays over the map of groups; trees come next.
fn walking_stage(alloc: Global, over: &GroupedMesh, rays: &[PairRay]) -> Result<Stage, Memory>
    requires over { (p : PlanParts) × (groups : GroupsOf) × (labelled : List AtGroup) × IsGroupedOver p groups labelled over.now }
    requires within { All (λ (r : RayOf). IsPairWithin over.now.plan.sectors r.pair) rays.now }
    ensures { (p : PlanParts) (groups : GroupsOf) (labelled : List AtGroup) → IsGroupedOver p groups labelled over.now → IfOk result (IsExactStageClosed p groups labelled rays.now ([], None)) }
{
    let edges = HalfEdges::of(alloc, &over.plan, &over.mesh, &over.labels)?;
    if let Some(fault) = ray_fault(&over.plan, &over.mesh, &edges, rays) {
        return Ok(Stage::Broken(AnyFault::Check(fault)));
    }
    let ground = Ground::new(alloc, over, edges, rays)?;
    Ok(Stage::Walking(RowTrees::new(alloc, ground)))
}

/// Judges triangles, groups and rays, which all have come.
fn stage_of(
    alloc: Global,
    plan: &Plan,
    groups: &[Group],
    labelled: &[Labelled],
    rays: &[PairRay],
) -> Result<Stage, Memory>
    ensures { IfOk result (IsExactStageClosed plan.now groups.now labelled.now rays.now ([], None)) }
{
    let points = plan.points().len() as u16;
    if !are_in_order(points, labelled) || !are_labelled_below(points, groups.len(), labelled) {
        return Ok(Stage::Lost);
    }
    match judge_mesh(alloc, plan, labelled, groups)? {
        MeshVerdict::Broken(fault) => Ok(Stage::Broken(fault)),
        MeshVerdict::Good(over) => {
            if !are_within(over.plan.sectors, rays) {
                return Ok(Stage::Lost);
            }
            walking_stage(alloc, &over, rays)
        }
    }
}

impl Stage {
    /// Judges triangles and rays, which all have come.
    // apart from `close`, which comes with each node: what is judged here takes a frame of its own
    #[inline(never)]
    fn settle(
        &mut self,
        alloc: Global,
        plan: &Plan,
        groups: &[Group],
        labelled: &[Labelled],
        rays: &[PairRay],
    ) -> Result<(), Memory>
        ensures { IfOk result (λ _. IsExactStageClosed plan.now groups.now labelled.now rays.now ([], None) self.new) }
    {
        *self = stage_of(alloc, plan, groups, labelled, rays)?;
        Ok(())
    }

    /// Another part than a triangle or a ray has come: those are judged, if they aren't yet.
    pub fn close(
        &mut self,
        alloc: Global,
        plan: &Plan,
        groups: &[Group],
        labelled: &[Labelled],
        rays: &[PairRay],
    ) -> Result<(), Memory>
        ensures { (h : ExactHeard) → labelled.now ≡ h.triangles → rays.now ≡ h.rays → IsStage plan.now groups.now h self.old → IfOk result (λ _. IsStage plan.now groups.now (closed_at h) self.new) }
    {
        let Stage::Gathering = self else {
            return Ok(());
        };
        self.settle(alloc, plan, groups, labelled, rays)?;
        Ok(())
    }

    /// The next nodes of this group's tree, of so many that are to come, from the bytes: what of those is behind them, and how many
    /// are left. Others than the usual ones, and now and then one of these, are left to `hear_node`.
    pub fn hear_nodes<'a>(
        &mut self,
        source: usize,
        bytes: &'a [u8],
        count: u64,
    ) -> Result<(&'a [u8], u64), Memory>
        ensures { IfOk result (λ r. TakesNodes bytes.now count r.0.now r.1 (λ nodes. (p : PlanParts) (groups : GroupsOf) (h : ExactHeard) → IsStage p groups h self.old → IsStage p groups (heard_from h (node_parts source nodes)) self.new)) }
    {
        match self {
            Stage::Walking(trees) => trees.hear_nodes(source, bytes, count),
            _ => Ok((bytes, count)),
        }
    }

    /// The next node of this group's tree.
    pub fn hear_node(&mut self, alloc: Global, source: usize, node: Node) -> Result<(), Memory>
        ensures { (p : PlanParts) (groups : GroupsOf) (h : ExactHeard) → h.closed ≡ true → IsStage p groups h self.old → IfOk result (λ _. IsStage p groups (with_node_of source node h) self.new) }
    {
        let Stage::Walking(trees) = self else {
            return Ok(());
        };
        trees.hear(alloc, source, node)?;
        Ok(())
    }
}
