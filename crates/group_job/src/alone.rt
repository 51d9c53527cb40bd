//! The build of a map with closed faces by one worker, without a thread.

ghost use Rattle.std.specs.Prelude.{◌≡◌, [], IfErr, IfOk};
ghost use Rattle.sight_names.specs.declared.names.Ask.TheVariants.{Enough, Full};
ghost use Rattle.sight_names.specs.declared.names.Budget.{Budget as BudgetOf};
ghost use Rattle.sight_names.specs.Groups.{AreGroups, HasClosedFaces};
ghost use Rattle.sight_names.specs.Map.{map_of};
ghost use Rattle.sight_names.specs.Plan.{PlanParts};
ghost use Rattle.sight_names.specs.Sound.{LinesMeetAtEnds};
ghost use Rattle.cert_format.specs.Sizes.{sizes_of_plan};
ghost use Rattle.cert_format.specs.CertGroups.Grammar.{IsAnyInOrder};
ghost use Rattle.cert_checker.specs.AcceptedGroups.Accepted.{IsAcceptedAny};
ghost use Rattle.group_job.specs.Built.{IsOpenFace, IsBuiltSymmetric, TellsSectors, DecidesByGroups, IsTwoOfSizes, OfTwo, HasRaysOfFound, HasTreesOfUnspent};
ghost use Rattle.group_job.specs.Faces.{AreFacesOf};
ghost use Rattle.group_job.specs.Grouped.{IsMapOfGroups};
ghost use Rattle.group_job.specs.Walked.{AreWalkedGroups};

use crate::build::{GroupBuilt, by_sectors, groups_of};
use crate::grouped::{MapOfGroups, map_of_groups};
use crate::walked::{Built, budget_for, built_of};
use face_groups::GroupFault;
use face_groups::tri_sectors::components;
use sight_names::{Ask, Memory, Plan};
use sight_workers::{Gate, Job, walk_alone};
use std::alloc::Global;

/// The table of a map whose lines meet at ends, by the walks of all its groups within the budget that is asked for, without
/// a thread. A bit is set where the bits of all groups that contain the two sectors are.
///
/// # Errors
///
/// `Open` at the least side that names a sector and whose face reaches outside the convex hull of the points.
pub fn build_table_alone<G: Gate>(
    alloc: Global,
    plan: &Plan,
    ask: Ask,
    gate: &G,
) -> Result<GroupBuilt, GroupFault>
    requires audited { LinesMeetAtEnds (map_of plan.now) }
    ensures closed { IfOk result (λ _. HasClosedFaces (map_of plan.now)) }
    ensures fault { IfErr result (IsOpenFace (map_of plan.now)) }
    ensures sectors { IfOk result (λ b. b.table.n ≡ plan.now.sectors) }
    ensures sizes { IfOk result (λ b. IsTwoOfSizes (sizes_of_plan plan.now) b.cert) }
    ensures in_order { IfOk result (λ b. IsAnyInOrder b.cert) }
    ensures groups { IfOk result (λ b. OfTwo (λ c. AreGroups (map_of plan.now) c.groups) b.cert) }
    ensures listed { IfOk result (λ b. OfTwo (λ c. c.listed ≡ b.listed) b.cert) }
    ensures symmetric { IfOk result IsBuiltSymmetric }
    ensures sight { IfOk result (TellsSectors (map_of plan.now)) }
    ensures by_groups { IfOk result (DecidesByGroups (map_of plan.now) ask) }
    ensures rays { IfOk result (λ b. OfTwo (HasRaysOfFound (map_of plan.now) ask) b.cert) }
    ensures trees { IfOk result (λ b. OfTwo (HasTreesOfUnspent (map_of plan.now) ask) b.cert) }
    ensures enough { ask ≡ Enough → IfOk result (λ b. b.listed ≡ []) }
    ensures whole { ask ≡ Full → IfOk result (λ b. b.listed ≡ []) }
    ensures accepted { IfOk result (λ b. IsAcceptedAny (map_of plan.now) b.table.bytes b.cert) }
{
    let map = map_of_groups(alloc, plan)?;
    let built = walked_alone(alloc, &map, ask, gate)?;
    let told = by_sectors(alloc, plan, groups_of(map), built)?;
    Ok(told)
}

/// What the walks of all groups come to, by one worker.
// by itself, over a map that it is lent, since each way out of a function has all that it owns to drop
fn walked_alone<G: Gate>(
    alloc: Global,
    map: &MapOfGroups,
    ask: Ask,
    gate: &G,
) -> Result<Built, Memory>
    requires faces { AreFacesOf map.now.plan map.now.faces }
    ensures { (p : PlanParts) → IsMapOfGroups p map.now → IfOk result (λ b. (budget : BudgetOf) × AreWalkedGroups p ask map.now budget b) }
{
    let components = components(alloc, &map.plan)?;
    let job = Job {
        plan: &map.plan,
        mesh: &map.faces.mesh,
        labels: &map.faces.labels,
        components: components.as_slice(),
        budget: budget_for(ask, &map.plan, &map.faces.mesh),
    };
    let gathered = walk_alone(alloc, job, gate)?;
    built_of(alloc, job, gathered.results.into_vec())
}
