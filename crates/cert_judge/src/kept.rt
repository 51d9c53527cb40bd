//! What is kept of the parts that have come.

ghost use Rattle.std.specs.Prelude.{◌≡◌, ◌∷◌, ◌++◌, [], true, IfOk, OnOk};
ghost use Rattle.sight_names.specs.Plan.{PlanParts};
ghost use Rattle.cert_format.specs.declared.cert_groups.cert.AnyCert.{AnyCert};
ghost use Rattle.group_checker.specs.Judged.{JudgesAny};
ghost use Rattle.certificates.specs.CertParts.Nodes.{TakesNodes};
ghost use Rattle.cert_judge.specs.Heard.{PartsHeard, nothing_heard, closed_at, heard_from, node_parts, with_part, with_triangle, with_ray, with_listed, with_tree, with_next};
ghost use Rattle.cert_judge.specs.Judging.{KeepsListingHeard, IsKeptWhole};
ghost use Rattle.cert_judge.specs.Version.{Groups as GroupsOf};

use crate::on_ground::Groups;
use crate::stage::Stage;
use block_evidence::sight_tree::Node;
use cert_format::Labelled;
use certificates::cert_parts::Part;
use group_checker::{AnyVerdict, any_of};
use reject_bits::Table;
use sight_names::{Memory, Pair, PairRay, Plan};
use std::alloc::Global;

/// So many rays have room from the first one on, as far as a map has pairs: those of most maps.
const MANY_RAYS: usize = 32_768;

/// The groups, the triangles, the rays and the listed pairs so far, and how far they and the trees are judged.
#[derive(Drop)]
pub struct Kept {
    groups: Groups,
    triangles: Vec<Labelled>,
    rays: Vec<PairRay>,
    listed: Vec<Pair>,
    stage: Stage,
}

/// Keeps one ray more, of a map of so many sectors.
// rays are many, and a list that is moved while it grows leaves holes as large behind: room that none takes is never touched
fn keep_ray(rays: &mut Vec<PairRay>, sectors: u16, ray: PairRay) -> Result<(), Memory>
    ensures { OnOk result (rays.new.items ≡ rays.old.items ++ ray ∷ []) }
{
    if rays.is_empty() {
        let pairs = sectors as usize * sectors as usize / 2;
        rays.reserve(pairs.min(MANY_RAYS))?;
    }
    rays.push(ray)?;
    Ok(())
}

impl Kept {
    /// Nothing but the groups so far.
    pub fn new(alloc: Global, groups: Groups) -> Kept
        ensures { (p : PlanParts) → KeepsListingHeard p groups nothing_heard result }
    {
        Kept {
            groups,
            triangles: Vec::new(alloc),
            rays: Vec::new(alloc),
            listed: Vec::new(alloc),
            stage: Stage::Gathering,
        }
    }

    /// A triangle, unless another part has come before it.
    fn hear_triangle(&mut self, one: Labelled) -> Result<(), Memory>
        ensures { (p : PlanParts) (groups : GroupsOf) (h : PartsHeard) → KeepsListingHeard p groups h self.old → IfOk result (λ _. KeepsListingHeard p groups (with_triangle one h) self.new) }
    {
        if let Stage::Gathering = self.stage {
            self.triangles.push(one)?;
        }
        Ok(())
    }

    /// Another part than a triangle has come.
    fn close(&mut self, alloc: Global, plan: &Plan) -> Result<(), Memory>
        ensures { (groups : GroupsOf) (h : PartsHeard) → KeepsListingHeard plan.now groups h self.old → IfOk result (λ _. KeepsListingHeard plan.now groups (closed_at h) self.new) }
    {
        self.stage
            .close(alloc, plan, &self.groups, self.triangles.as_slice())
    }

    /// A ray.
    fn hear_ray(&mut self, plan: &Plan, ray: PairRay) -> Result<(), Memory>
        ensures { (groups : GroupsOf) (h : PartsHeard) → h.closed ≡ true → KeepsListingHeard plan.now groups h self.old → IfOk result (λ _. KeepsListingHeard plan.now groups (with_ray ray h) self.new) }
    {
        self.stage.hear_ray(plan, &ray);
        keep_ray(&mut self.rays, plan.sectors, ray)?;
        Ok(())
    }

    /// A listed pair.
    fn hear_listed(&mut self, pair: Pair) -> Result<(), Memory>
        ensures { (p : PlanParts) (groups : GroupsOf) (h : PartsHeard) → h.closed ≡ true → KeepsListingHeard p groups h self.old → IfOk result (λ _. KeepsListingHeard p groups (with_listed pair h) self.new) }
    {
        self.listed.push(pair)?;
        Ok(())
    }

    /// A tree begins.
    fn begin_tree(&mut self, source: u16)
        ensures { (p : PlanParts) (groups : GroupsOf) (h : PartsHeard) → h.closed ≡ true → KeepsListingHeard p groups h self.old → KeepsListingHeard p groups (with_tree source h) self.new }
    {
        self.stage.begin_tree(source);
    }

    /// A node of the last tree.
    fn hear_node(&mut self, node: Node) -> Result<(), Memory>
        ensures { (p : PlanParts) (groups : GroupsOf) (h : PartsHeard) → h.closed ≡ true → KeepsListingHeard p groups h self.old → IfOk result (λ _. KeepsListingHeard p groups (with_next node h) self.new) }
    {
        self.stage.hear_node(node)
    }

    /// The next nodes of the last tree, of so many that are to come, from the bytes: what of those is behind them, and how many
    /// are left. Others than the usual ones, and now and then one of these, are left to `hear`.
    pub fn hear_nodes<'a>(&mut self, bytes: &'a [u8], count: u64) -> (&'a [u8], u64)
        ensures { TakesNodes bytes.now count result.0.now result.1 (λ nodes. (p : PlanParts) (groups : GroupsOf) (h : PartsHeard) → KeepsListingHeard p groups h self.old → KeepsListingHeard p groups (heard_from h (node_parts nodes)) self.new) }
    {
        self.stage.hear_nodes(bytes, count)
    }

    /// The next part.
    pub fn hear(&mut self, alloc: Global, plan: &Plan, part: Part) -> Result<(), Memory>
        ensures { (groups : GroupsOf) (h : PartsHeard) → KeepsListingHeard plan.now groups h self.old → IfOk result (λ _. KeepsListingHeard plan.now groups (with_part h part) self.new) }
    {
        match part {
            Part::Triangle(one) => self.hear_triangle(one),
            Part::Ray(ray) => {
                self.close(alloc, plan)?;
                self.hear_ray(plan, ray)
            }
            Part::Listed(pair) => {
                self.close(alloc, plan)?;
                self.hear_listed(pair)
            }
            Part::Tree { source, .. } => {
                self.close(alloc, plan)?;
                self.begin_tree(source);
                Ok(())
            }
            Part::Node(node) => {
                self.close(alloc, plan)?;
                self.hear_node(node)
            }
        }
    }

    /// The verdict, once all parts have come.
    pub fn verdict(
        mut self,
        alloc: Global,
        plan: &Plan,
        table: &Table,
    ) -> Result<AnyVerdict, Memory>
        requires { (c : AnyCert) × IsKeptWhole plan.now table.now c self }
        ensures { (c : AnyCert) → IsKeptWhole plan.now table.now c self → IfOk result (JudgesAny plan.now table.now c) }
    {
        self.close(alloc, plan)?;
        let Kept {
            groups,
            rays,
            listed,
            stage,
            ..
        } = self;
        match stage {
            Stage::Good(on) => {
                let verdict = on.verdict(
                    alloc,
                    plan,
                    table,
                    &groups,
                    listed.as_slice(),
                    rays.as_slice(),
                )?;
                Ok(any_of(verdict))
            }
            Stage::Broken(fault) => Ok(AnyVerdict::No(fault)),
            // the triangles of a certificate have all come, and it may have them
            Stage::Gathering | Stage::Lost => unreachable!(),
        }
    }
}
