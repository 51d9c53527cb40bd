//! What the walks between two lists of groups decide.

ghost use Rattle.std.specs.Prelude.{◌≡◌, IfOk, length};
ghost use Rattle.sight_names.specs.Map.{map_of};
ghost use Rattle.sight_names.specs.Mesh.{IsGoodMesh};
ghost use Rattle.sight_names.specs.Sound.{LinesMeetAtEnds};
ghost use Rattle.pair_answer.specs.Ground.{IsAnswerGround};
ghost use Rattle.pair_answer.specs.Numbers.{AreBelow};
ghost use Rattle.pair_answer.specs.Between.{AreApart, IsAnswerBetween, IsAnswerBack};

use crate::answer::PairAnswer;
use crate::ground::Ground;
use crate::places::joined;
use crate::walks::{AllSought, seek_all};
use face_groups::tri_sectors::components;
use mesh_shape::{Labels, Mesh};
use portal_walk::Terrain;
use sight_names::{Budget, Memory, Plan};
use sight_ray::turn_round;
use std::alloc::Global;

/// The walks back: those of the groups that passable lines connect with sources whose budgets ran out, in search of these.
fn walk_back(
    alloc: Global,
    ground: &Ground<'_>,
    components: &[u16],
    spent: &[u16],
    to: &[u16],
) -> Result<PairAnswer, Memory>
    requires ground { IsAnswerGround ground.now }
    requires each { length components.now ≡ ground.now.plan.now.sectors }
    requires spent { AreBelow ground.now.plan.now.sectors spent.now }
    requires to { AreBelow ground.now.plan.now.sectors to.now }
    ensures { IfOk result (IsAnswerBack (map_of ground.now.plan.now) ground.now.mesh.now.triangles ground.now.labels.now ground.now.budget components.now spent.now to.now) }
{
    let far = joined(alloc, components, to, spent)?;
    match seek_all(alloc, ground, far.as_slice(), spent)? {
        AllSought::Ray(ray) => Ok(PairAnswer::Sight(turn_round(&ray))),
        AllSought::Missed(spent_too) => {
            let left = joined(alloc, components, spent, spent_too.as_slice())?;
            if left.is_empty() {
                Ok(PairAnswer::Blind)
            } else {
                Ok(PairAnswer::Listed)
            }
        }
    }
}

/// The walks there, and back where none of them finds one of the others: whether some of the first groups and some of the
/// second see each other. Only groups that passable lines connect are walked.
pub fn walk_between(
    alloc: Global,
    plan: &Plan,
    mesh: &Mesh,
    labels: &Labels,
    budget: Budget,
    from: &[u16],
    to: &[u16],
) -> Result<PairAnswer, Memory>
    requires points { mesh.now.points ≡ length plan.now.points }
    requires audited { LinesMeetAtEnds (map_of plan.now) }
    requires good { IsGoodMesh (map_of plan.now) mesh.now.triangles labels.now }
    requires from { AreBelow plan.now.sectors from.now }
    requires to { AreBelow plan.now.sectors to.now }
    requires apart { AreApart from.now to.now }
    ensures { IfOk result (IsAnswerBetween (map_of plan.now) mesh.now.triangles labels.now budget from.now to.now) }
{
    let _ = plan.lines();
    let classes = components(alloc, plan)?;
    let terrain = Terrain::of(alloc, plan, mesh, labels)?;
    let ground = Ground {
        plan,
        mesh,
        labels,
        terrain: &terrain,
        budget,
    };
    let near = joined(alloc, classes.as_slice(), from, to)?;
    match seek_all(alloc, &ground, near.as_slice(), to)? {
        AllSought::Ray(ray) => Ok(PairAnswer::Sight(ray)),
        AllSought::Missed(spent) => {
            walk_back(alloc, &ground, classes.as_slice(), spent.as_slice(), to)
        }
    }
}
