//! Rays and trees judged over the plan of version 1 or 2, as they come.

ghost use Rattle.std.specs.Prelude.{◌≡◌, [], ◌∷◌, ◌++◌, List, Option, Some, None, IfOk, option_map, unwrap_or};
ghost use Rattle.std.specs.Option.{option_to_list};
ghost use Rattle.sight_names.specs.Map.{map_of};
ghost use Rattle.sight_names.specs.Plan.{PlanParts};
ghost use Rattle.sight_names.specs.declared.names.PairRay.{PairRay as RayOfPair};
ghost use Rattle.block_evidence.specs.declared.sight_tree.Tree.{Tree};
ghost use Rattle.cert_format.specs.declared.cert.Labelled.{Labelled as AtSector};
ghost use Rattle.cert_format.specs.declared.cert_groups.cert.AnyCert.{AnyCert};
ghost use Rattle.certificates.specs.CertParts.Nodes.{TakesNodes};
ghost use Rattle.cert_checker.specs.TreeJudge.Walked.{begun, with_node, with_nodes};
ghost use Rattle.cert_checker.specs.Judged.{IsPairVerdict};
ghost use Rattle.group_checker.specs.Judged.{any_of, JudgesAny};
ghost use Rattle.cert_judge.specs.OnGround.{IsOnGround};
ghost use Rattle.cert_judge.specs.Version.{Groups as GroupsOf, TellsPairsAny};
ghost use Rattle.cert_judge.specs.Whole.{IsJudgedOn, IsReachedOn};

use crate::on_mesh::OnMesh;
use block_evidence::sight_tree::Node;
use cert_checker::tree_judge::Reach;
use cert_checker::{Verdict, judge_reached};
use cert_format::cert_groups::Group;
use group_checker::judge_sectors;
use reject_bits::Table;
use sight_names::{Items, Memory, Pair, PairRay, Plan};
use std::alloc::Global;

/// The groups of a certificate of version 2; None in version 1.
pub type Groups = Option<Items<Group>>;

/// Where mesh and groups are right: the plan of groups in version 2, and what is judged over it, or else over that of the map.
#[derive(Drop)]
pub struct OnGround {
    pub grouped: Option<Plan>,
    pub on: OnMesh,
}

/// The plan over which is judged.
fn over<'a>(grouped: &'a Option<Plan>, plan: &'a Plan) -> &'a Plan
    ensures { result.now ≡ unwrap_or grouped.now plan.now }
{
    match grouped {
        Some(grouped) => grouped,
        None => plan,
    }
}

/// The verdict on the pairs of sectors, once it is known what the trees keep from over this plan.
fn verdict_over(
    alloc: Global,
    over: &Plan,
    table: &Table,
    groups: &Groups,
    listed: &[Pair],
    rays: &[PairRay],
    reach: &Reach,
) -> Result<Verdict, Memory>
    requires { (p : PlanParts) × (c : AnyCert) × IsReachedOn p over.now table.now c groups.now listed.now rays.now reach.now }
    ensures kind { IfOk result IsPairVerdict }
    ensures pairs { (p : PlanParts) (c : AnyCert) → IsReachedOn p over.now table.now c groups.now listed.now rays.now reach.now → IfOk result (TellsPairsAny (map_of over.now) table.now c) }
{
    match groups {
        None => judge_reached(alloc, over, table, listed, rays, reach),
        Some(groups) => judge_sectors(alloc, over, table, groups.as_slice(), listed, rays, reach),
    }
}

impl OnGround {
    /// The next ray.
    pub fn hear_ray(&mut self, plan: &Plan, one: &PairRay)
        ensures { (groups : GroupsOf) (ls : List AtSector) (rays : List RayOfPair) (front : List Tree) (tree : Option Tree) → IsOnGround plan.now groups ls rays front tree self.old → IsOnGround plan.now groups ls (rays ++ one.now ∷ []) front tree self.new }
    {
        let over = over(&self.grouped, plan);
        self.on.hear_ray(over, one);
    }

    /// A tree begins.
    pub fn begin_tree(&mut self, source: u16)
        ensures { (p : PlanParts) (groups : GroupsOf) (ls : List AtSector) (rays : List RayOfPair) (front : List Tree) (tree : Option Tree) → IsOnGround p groups ls rays front tree self.old → IsOnGround p groups ls rays (front ++ option_to_list tree) (Some (begun source)) self.new }
    {
        self.on.begin_tree(source);
    }

    /// The next nodes of the last tree, of so many that are to come, from the bytes: what of those is behind them, and how many
    /// are left. Others than the usual ones, and now and then one of these, are left to `hear_node`.
    pub fn hear_nodes<'a>(&mut self, bytes: &'a [u8], count: u64) -> (&'a [u8], u64)
        ensures { TakesNodes bytes.now count result.0.now result.1 (λ nodes. (p : PlanParts) (groups : GroupsOf) (ls : List AtSector) (rays : List RayOfPair) (front : List Tree) (tree : Option Tree) → IsOnGround p groups ls rays front tree self.old → IsOnGround p groups ls rays front (option_map (with_nodes nodes) tree) self.new) }
    {
        self.on.hear_nodes(bytes, count)
    }

    /// The next node of the last tree.
    pub fn hear_node(&mut self, node: Node) -> Result<(), Memory>
        ensures { (p : PlanParts) (groups : GroupsOf) (ls : List AtSector) (rays : List RayOfPair) (front : List Tree) (tree : Option Tree) → IsOnGround p groups ls rays front tree self.old → IfOk result (λ _. IsOnGround p groups ls rays front (option_map (with_node node) tree) self.new) }
    {
        self.on.hear_node(node)
    }

    /// The verdict of rays, trees and pairs, once all have come.
    pub fn verdict(
        self,
        alloc: Global,
        plan: &Plan,
        table: &Table,
        groups: &Groups,
        listed: &[Pair],
        rays: &[PairRay],
    ) -> Result<Verdict, Memory>
        requires { (c : AnyCert) × IsJudgedOn plan.now table.now c groups.now listed.now rays.now self }
        ensures { (c : AnyCert) → IsJudgedOn plan.now table.now c groups.now listed.now rays.now self → IfOk result (λ v. JudgesAny plan.now table.now c (any_of v)) }
    {
        let OnGround { grouped, on } = self;
        match on.reached() {
            Err(fault) => Ok(Verdict::No(fault)),
            Ok(reach) => {
                let over = over(&grouped, plan);
                verdict_over(alloc, over, table, groups, listed, rays, &reach)
            }
        }
    }
}
