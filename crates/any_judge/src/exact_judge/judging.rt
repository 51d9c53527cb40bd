//! A certificate of version 3 judged part by part.

ghost use Rattle.std.specs.Prelude.{◌≡◌, ◌≤◌, [], ◌∷◌, ◌++◌, List, true, length, IfOk};
ghost use Rattle.sight_names.specs.Plan.{PlanParts};
ghost use Rattle.reject_bits.specs.Parts.{TableParts};
ghost use Rattle.certificates.specs.declared.cert_exact.cert.ExactParts.{ExactParts as PartsOf};
ghost use Rattle.certificates.specs.declared.exact_parts.part.Part.{Part as PartOf};
ghost use Rattle.certificates.specs.CertParts.Nodes.{TakesNodes};
ghost use Rattle.certificates.specs.ExactParts.Parts.{node_parts};
ghost use Rattle.exact_checker.specs.Judged.{JudgesThree};
ghost use Rattle.group_checker.specs.Judged.{any_of};
ghost use Rattle.any_judge.specs.ExactJudge.Stage.{IsRightOver};
ghost use Rattle.any_judge.specs.ExactJudge.Trees.{Begun, all_begun, begun_all, HasHeardRowTrees};
ghost use Rattle.any_judge.specs.ExactJudge.Heard.{Groups as GroupsOf, ExactHeard, closed_at, with_node_of, with_exact_part, with_ray, with_triangle};
ghost use Rattle.any_judge.specs.ExactJudge.Judging.{HasHeard, HasHeardAll, IsCertOf, IsExactComplete, KeepsExactHeard};

use crate::exact_judge::stage::Stage;
use crate::exact_judge::trees::RowTrees;
use block_evidence::sight_tree::Node;
use cert_checker::Verdict;
use cert_format::Labelled;
use cert_format::cert_groups::Group;
use certificates::exact_parts::Part;
use exact_checker::judge_sectors;
use group_checker::{AnyVerdict, any_of};
use reject_bits::Table;
use sight_names::{CheckFault, Items, MOST_TRIANGLES, Memory, PairRay, Plan};
use std::alloc::Global;

/// What has come of a certificate of version 3, judged as far as it goes. It keeps the groups, the triangles, the rays, what
/// trees are judged by and one path, and never a tree.
#[derive(Drop)]
pub struct Judging<'a> {
    alloc: Global,
    plan: &'a Plan,
    table: &'a Table,
    groups: Items<Group>,
    triangles: Vec<Labelled>,
    rays: Vec<PairRay>,
    stage: Stage,
}

/// The verdict of trees and pairs, once all trees have come.
fn verdict_of(
    alloc: Global,
    table: &Table,
    groups: &[Group],
    mut trees: RowTrees,
) -> Result<Verdict, Memory>
    requires { length groups.now ≤ MOST_TRIANGLES }
    ensures { (p over : PlanParts) (c : PartsOf) (b : Begun) → IsCertOf p table.now c → c.groups ≡ groups.now → IsRightOver p over c.groups c.triangles c.rays trees.ground → HasHeardRowTrees b trees → all_begun (begun_all (length c.trees) b) ≡ c.trees → IfOk result (λ v. JudgesThree p table.now c (any_of v)) }
{
    trees.finish(alloc)?;
    match trees.wrong {
        Some(wrong) => Ok(Verdict::No(CheckFault::Tree {
            source: wrong.source,
            node: wrong.node,
        })),
        None => judge_sectors(alloc, table, groups, trees.joined()),
    }
}

impl<'a> Judging<'a> {
    /// No part so far but the groups.
    pub fn new(alloc: Global, plan: &'a Plan, table: &'a Table, groups: Items<Group>) -> Judging<'a>
        ensures { HasHeard plan.now table.now groups [] result }
    {
        Judging {
            alloc,
            plan,
            table,
            groups,
            triangles: Vec::new(alloc),
            rays: Vec::new(alloc),
            stage: Stage::Gathering,
        }
    }

    /// A triangle, unless another part than a triangle or a ray has come before it.
    fn hear_triangle(&mut self, one: Labelled) -> Result<(), Memory>
        ensures { (p : PlanParts) (t : TableParts) (groups : GroupsOf) (h : ExactHeard) → KeepsExactHeard p t groups h self.old → IfOk result (λ _. KeepsExactHeard p t groups (with_triangle one h) self.new) }
    {
        let Stage::Gathering = self.stage else {
            return Ok(());
        };
        self.triangles.push(one)?;
        Ok(())
    }

    /// A ray, unless another part than a triangle or a ray has come before it.
    fn hear_ray(&mut self, one: PairRay) -> Result<(), Memory>
        ensures { (p : PlanParts) (t : TableParts) (groups : GroupsOf) (h : ExactHeard) → KeepsExactHeard p t groups h self.old → IfOk result (λ _. KeepsExactHeard p t groups (with_ray one h) self.new) }
    {
        let Stage::Gathering = self.stage else {
            return Ok(());
        };
        self.rays.push(one)?;
        Ok(())
    }

    /// Another part than a triangle or a ray has come.
    fn close(&mut self) -> Result<(), Memory>
        ensures { (p : PlanParts) (t : TableParts) (groups : GroupsOf) (h : ExactHeard) → KeepsExactHeard p t groups h self.old → IfOk result (λ _. KeepsExactHeard p t groups (closed_at h) self.new) }
    {
        self.stage.close(
            self.alloc,
            self.plan,
            self.groups.as_slice(),
            self.triangles.as_slice(),
            self.rays.as_slice(),
        )
    }

    /// A node of this group's tree.
    fn hear_node(&mut self, source: usize, node: Node) -> Result<(), Memory>
        ensures { (p : PlanParts) (t : TableParts) (groups : GroupsOf) (h : ExactHeard) → h.closed ≡ true → KeepsExactHeard p t groups h self.old → IfOk result (λ _. KeepsExactHeard p t groups (with_node_of source node h) self.new) }
    {
        self.stage.hear_node(self.alloc, source, node)
    }

    /// The next nodes of this group's tree, of so many that are to come, from the bytes: what of those is behind them, and how many
    /// are left. Others than the usual ones, and now and then one of these, are left to `hear`.
    pub fn hear_nodes<'b>(
        &mut self,
        source: usize,
        bytes: &'b [u8],
        count: u64,
    ) -> Result<(&'b [u8], u64), Memory>
        ensures { IfOk result (λ r. TakesNodes bytes.now count r.0.now r.1 (λ nodes. (p : PlanParts) (t : TableParts) (groups : GroupsOf) (parts : List PartOf) → HasHeard p t groups parts self.old → HasHeard p t groups (parts ++ node_parts source nodes) self.new)) }
    {
        self.stage.hear_nodes(source, bytes, count)
    }

    /// The next part, whichever it is.
    fn hear_any(&mut self, part: Part) -> Result<(), Memory>
        ensures { (p : PlanParts) (t : TableParts) (groups : GroupsOf) (h : ExactHeard) → KeepsExactHeard p t groups h self.old → IfOk result (λ _. KeepsExactHeard p t groups (with_exact_part h part) self.new) }
    {
        match part {
            Part::Triangle(one) => self.hear_triangle(one),
            Part::Ray(one) => self.hear_ray(one),
            Part::Length => self.close(),
            Part::Node { source, node } => {
                self.close()?;
                self.hear_node(source, node)
            }
        }
    }

    /// The next part of the certificate. After an Err nothing more is to be asked.
    pub fn hear(&mut self, part: Part) -> Result<(), Memory>
        ensures { (p : PlanParts) (t : TableParts) (groups : GroupsOf) (parts : List PartOf) → HasHeard p t groups parts self.old → IfOk result (λ _. HasHeard p t groups (parts ++ part ∷ []) self.new) }
    {
        self.hear_any(part)
    }

    /// The verdict on the certificate whose parts all have been heard: that of the check of the whole certificate.
    pub fn verdict(mut self) -> Result<AnyVerdict, Memory>
        requires { IsExactComplete self }
        ensures { (p : PlanParts) (t : TableParts) (c : PartsOf) → HasHeardAll p t c self.entry → IfOk result (JudgesThree p t c) }
    {
        self.close()?;
        let Judging {
            alloc,
            table,
            groups,
            stage,
            ..
        } = self;
        match stage {
            Stage::Walking(trees) => {
                let verdict = verdict_of(alloc, table, groups.as_slice(), trees)?;
                Ok(any_of(verdict))
            }
            Stage::Broken(fault) => Ok(AnyVerdict::No(fault)),
            // the triangles and rays of a certificate have all come, and it may have them
            Stage::Gathering | Stage::Lost => unreachable!(),
        }
    }
}
