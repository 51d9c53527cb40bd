//! How far a certificate is judged: its triangles come, or they have come.

ghost use Rattle.std.specs.Prelude.{◌≡◌, [], Some, None, true, IfOk};
ghost use Rattle.sight_names.specs.Plan.{PlanParts};
ghost use Rattle.certificates.specs.CertParts.Nodes.{TakesNodes};
ghost use Rattle.cert_judge.specs.Heard.{PartsHeard, closed_at, heard_from, node_parts, with_next, with_ray, with_tree};
ghost use Rattle.cert_judge.specs.Stage.{IsStageClosed, IsStage};
ghost use Rattle.cert_judge.specs.Version.{Groups as GroupsOf};

use crate::in_order::{are_in_order, are_labelled_below};
use crate::on_ground::{Groups, OnGround};
use crate::on_mesh::OnMesh;
use block_evidence::sight_tree::Node;
use cert_checker::mesh_over;
use cert_format::Labelled;
use cert_format::cert_groups::Group;
use certificates::cert_parts::pass_nodes;
use group_checker::{AnyFault, GroupedMesh, MeshVerdict, judge_mesh};
use mesh_shape::mesh_fault;
use sight_names::{CheckFault, Memory, PairRay, Plan};
use std::alloc::Global;

/// The triangles come; or no certificate has such triangles; or they break a rule of a good mesh or of its groups; or they keep all.
#[derive(Drop)]
pub enum Stage {
    Gathering,
    Lost,
    Broken(AnyFault),
    Good(OnGround),
}

/// Judges the triangles of a certificate of version 1, which all have come.
fn plain_stage(alloc: Global, plan: &Plan, labelled: &[Labelled]) -> Result<Stage, Memory>
    ensures { IfOk result (IsStageClosed plan.now None labelled.now [] [] None) }
{
    let points = plan.points().len() as u16;
    if !are_in_order(points, labelled) {
        return Ok(Stage::Lost);
    }
    let (mesh, labels) = mesh_over(alloc, plan, labelled)?;
    match mesh_fault(alloc, plan, &mesh, &labels) {
        Some(fault) => Ok(Stage::Broken(AnyFault::Check(CheckFault::Mesh(fault)))),
        None => Ok(Stage::Good(OnGround {
            grouped: None,
            on: OnMesh::new(alloc, plan, mesh, &labels)?,
        })),
    }
}

/// Judges the triangles and the groups of a certificate of version 2.
fn grouped_stage(
    alloc: Global,
    plan: &Plan,
    groups: &[Group],
    labelled: &[Labelled],
) -> Result<Stage, Memory>
    ensures { IfOk result (IsStageClosed plan.now (Some groups.now) labelled.now [] [] None) }
{
    let points = plan.points().len() as u16;
    if !are_in_order(points, labelled) || !are_labelled_below(points, groups.len(), labelled) {
        return Ok(Stage::Lost);
    }
    match judge_mesh(alloc, plan, labelled, groups)? {
        MeshVerdict::Broken(fault) => Ok(Stage::Broken(fault)),
        MeshVerdict::Good(
            GroupedMesh {
                plan: grouped,
                mesh,
                labels,
            },
        ) => {
            let on = OnMesh::new(alloc, &grouped, mesh, &labels)?;
            Ok(Stage::Good(OnGround {
                grouped: Some(grouped),
                on,
            }))
        }
    }
}

/// Judges triangles and groups by the version.
fn stage_of(
    alloc: Global,
    plan: &Plan,
    groups: &Groups,
    labelled: &[Labelled],
) -> Result<Stage, Memory>
    ensures { IfOk result (IsStageClosed plan.now groups.now labelled.now [] [] None) }
{
    match groups {
        None => plain_stage(alloc, plan, labelled),
        Some(groups) => grouped_stage(alloc, plan, groups.as_slice(), labelled),
    }
}

impl Stage {
    /// Judges the triangles, which all have come.
    // apart from `close`, which comes with each part: what is judged here takes a frame of its own
    #[inline(never)]
    fn settle(
        &mut self,
        alloc: Global,
        plan: &Plan,
        groups: &Groups,
        labelled: &[Labelled],
    ) -> Result<(), Memory>
        ensures { IfOk result (λ _. IsStageClosed plan.now groups.now labelled.now [] [] None self.new) }
    {
        *self = stage_of(alloc, plan, groups, labelled)?;
        Ok(())
    }

    /// Another part than a triangle has come: the triangles are judged, if they aren't yet.
    pub fn close(
        &mut self,
        alloc: Global,
        plan: &Plan,
        groups: &Groups,
        labelled: &[Labelled],
    ) -> Result<(), Memory>
        ensures { (h : PartsHeard) → labelled.now ≡ h.triangles → IsStage plan.now groups.now h self.old → IfOk result (λ _. IsStage plan.now groups.now (closed_at h) self.new) }
    {
        if let Stage::Gathering = self {
            self.settle(alloc, plan, groups, labelled)?;
        }
        Ok(())
    }

    /// The next ray.
    pub fn hear_ray(&mut self, plan: &Plan, one: &PairRay)
        ensures { (groups : GroupsOf) (h : PartsHeard) → h.closed ≡ true → IsStage plan.now groups h self.old → IsStage plan.now groups (with_ray one.now h) self.new }
    {
        if let Stage::Good(on) = self {
            on.hear_ray(plan, one);
        }
    }

    /// A tree begins.
    pub fn begin_tree(&mut self, source: u16)
        ensures { (p : PlanParts) (groups : GroupsOf) (h : PartsHeard) → h.closed ≡ true → IsStage p groups h self.old → IsStage p groups (with_tree source h) self.new }
    {
        if let Stage::Good(on) = self {
            on.begin_tree(source);
        }
    }

    /// The next nodes of the last tree, of so many that are to come, from the bytes: what of those is behind them, and how many
    /// are left. Others than the usual ones, and now and then one of these, are left to `hear_node`.
    pub fn hear_nodes<'a>(&mut self, bytes: &'a [u8], count: u64) -> (&'a [u8], u64)
        ensures { TakesNodes bytes.now count result.0.now result.1 (λ nodes. (p : PlanParts) (groups : GroupsOf) (h : PartsHeard) → IsStage p groups h self.old → IsStage p groups (heard_from h (node_parts nodes)) self.new) }
    {
        match self {
            Stage::Good(on) => on.hear_nodes(bytes, count),
            Stage::Broken(_) => pass_nodes(bytes, count),
            Stage::Lost => pass_nodes(bytes, count),
            Stage::Gathering => (bytes, count),
        }
    }

    /// The next node of the last tree.
    pub fn hear_node(&mut self, node: Node) -> Result<(), Memory>
        ensures { (p : PlanParts) (groups : GroupsOf) (h : PartsHeard) → h.closed ≡ true → IsStage p groups h self.old → IfOk result (λ _. IsStage p groups (with_next node h) self.new) }
    {
        let Stage::Good(on) = self else {
            return Ok(());
        };
        on.hear_node(node)?;
        Ok(())
    }
}
