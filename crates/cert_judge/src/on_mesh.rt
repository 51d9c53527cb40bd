//! Rays and trees judged over a good mesh, as they come.

ghost use Rattle.std.specs.Prelude.{◌≡◌, [], ◌∷◌, ◌++◌, List, Option, Some, None, IfErr, IfOk, option_map};
ghost use Rattle.std.specs.Option.{option_to_list};
ghost use Rattle.sight_names.specs.Map.{map_of};
ghost use Rattle.sight_names.specs.Mesh.{IsGoodMesh};
ghost use Rattle.sight_names.specs.Plan.{IsPlan, PlanParts};
ghost use Rattle.sight_names.specs.declared.names.PairRay.{PairRay as RayOfPair};
ghost use Rattle.block_evidence.specs.declared.sight_tree.Tree.{Tree};
ghost use Rattle.cert_format.specs.declared.cert.Labelled.{Labelled as AtSector};
ghost use Rattle.cert_format.specs.Parts.{CertParts};
ghost use Rattle.certificates.specs.CertParts.Nodes.{TakesNodes};
ghost use Rattle.cert_checker.specs.TreeJudge.Walked.{begun, with_node, with_nodes};
ghost use Rattle.cert_checker.specs.Apart.{triangles_in, labels_in};
ghost use Rattle.cert_judge.specs.OnMesh.{IsOnMesh};
ghost use Rattle.cert_judge.specs.Whole.{HasReached, IsFirstEarly, IsHeardOver};

use block_evidence::sight_tree::Node;
use cert_checker::fault_of_ray;
use cert_checker::tree_judge::{Reach, TreeJudge, TreeVerdict};
use certificates::cert_parts::pass_nodes;
use mesh_shape::half_edges::HalfEdges;
use mesh_shape::{Labels, Mesh};
use sight_names::{CheckFault, Memory, PairRay, Plan};
use std::alloc::Global;

/// A good mesh, the fault of the first wrong ray, and a judge of the trees. Behind a wrong ray no tree is judged.
#[derive(Drop)]
pub struct OnMesh {
    pub mesh: Mesh,
    pub edges: HalfEdges,
    pub fault: Option<CheckFault>,
    pub trees: TreeJudge,
}

impl OnMesh {
    /// No ray and no tree so far.
    pub fn new(alloc: Global, plan: &Plan, mesh: Mesh, labels: &Labels) -> Result<OnMesh, Memory>
        requires plan { IsPlan plan.now }
        requires good { IsGoodMesh (map_of plan.now) mesh.triangles labels.now }
        ensures { (ls : List AtSector) → mesh.triangles ≡ triangles_in ls → labels.now ≡ labels_in ls → IfOk result (IsOnMesh plan.now ls [] [] None) }
    {
        let edges = HalfEdges::of(alloc, plan, &mesh, labels)?;
        let trees = TreeJudge::new(alloc, plan, &mesh, &edges)?;
        Ok(OnMesh {
            mesh,
            edges,
            fault: None,
            trees,
        })
    }

    /// The next ray.
    pub fn hear_ray(&mut self, plan: &Plan, one: &PairRay)
        ensures { (ls : List AtSector) (rays : List RayOfPair) (front : List Tree) (tree : Option Tree) → IsOnMesh plan.now ls rays front tree self.old → IsOnMesh plan.now ls (rays ++ one.now ∷ []) front tree self.new }
    {
        if self.fault.is_none() {
            self.fault = fault_of_ray(plan, &self.mesh, &self.edges, one);
        }
    }

    /// A tree begins.
    pub fn begin_tree(&mut self, source: u16)
        ensures { (p : PlanParts) (ls : List AtSector) (rays : List RayOfPair) (front : List Tree) (tree : Option Tree) → IsOnMesh p ls rays front tree self.old → IsOnMesh p ls rays (front ++ option_to_list tree) (Some (begun source)) self.new }
    {
        if self.fault.is_none() {
            self.trees.begin(&self.edges, source);
        }
    }

    /// The next nodes of the last tree, of so many that are to come, from the bytes: what of those is behind them, and how many
    /// are left. Others than the usual ones, and now and then one of these, are left to `hear_node`.
    pub fn hear_nodes<'a>(&mut self, bytes: &'a [u8], count: u64) -> (&'a [u8], u64)
        ensures { TakesNodes bytes.now count result.0.now result.1 (λ nodes. (p : PlanParts) (ls : List AtSector) (rays : List RayOfPair) (front : List Tree) (tree : Option Tree) → IsOnMesh p ls rays front tree self.old → IsOnMesh p ls rays front (option_map (with_nodes nodes) tree) self.new) }
    {
        if self.fault.is_some() {
            return pass_nodes(bytes, count);
        }
        self.trees.hear_nodes(&self.edges, bytes, count)
    }

    /// The next node of the last tree.
    pub fn hear_node(&mut self, node: Node) -> Result<(), Memory>
        ensures { (p : PlanParts) (ls : List AtSector) (rays : List RayOfPair) (front : List Tree) (tree : Option Tree) → IsOnMesh p ls rays front tree self.old → IfOk result (λ _. IsOnMesh p ls rays front (option_map (with_node node) tree) self.new) }
    {
        if self.fault.is_some() {
            return Ok(());
        }
        self.trees.hear(&self.edges, node)
    }

    /// What the trees keep from, where each ray is a sight ray and each tree is whole; or the first fault.
    pub fn reached(self) -> Result<Reach, CheckFault>
        ensures reach { (p : PlanParts) (c : CertParts) → IsHeardOver p c self → IfOk result (HasReached (map_of p) c) }
        ensures fault { (p : PlanParts) (c : CertParts) → IsHeardOver p c self → IfErr result (IsFirstEarly (map_of p) c) }
    {
        match self.fault {
            Some(fault) => Err(fault),
            None => match self.trees.verdict() {
                TreeVerdict::Whole(reach) => Ok(reach),
                TreeVerdict::Wrong { source, node } => Err(CheckFault::Tree { source, node }),
            },
        }
    }
}
