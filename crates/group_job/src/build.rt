//! The build of one map with closed faces.

ghost use Rattle.std.specs.Prelude.{◌≡◌, ◌≤◌, [], IfErr, IfOk, length};
ghost use Rattle.sight_names.specs.declared.names.Ask.{Ask as AskOf};
ghost use Rattle.sight_names.specs.declared.names.Ask.TheVariants.{Enough, Full};
ghost use Rattle.sight_names.specs.declared.names.Budget.{Budget as BudgetOf};
ghost use Rattle.sight_names.specs.Groups.{AreGroups, HasClosedFaces};
ghost use Rattle.sight_names.specs.Map.{map_of};
ghost use Rattle.sight_names.specs.Plan.{PlanParts};
ghost use Rattle.sight_names.specs.Sound.{LinesMeetAtEnds};
ghost use Rattle.cert_format.specs.Sizes.{sizes_of_plan};
ghost use Rattle.cert_format.specs.CertGroups.Grammar.{IsAnyInOrder};
ghost use Rattle.cert_checker.specs.AcceptedGroups.Accepted.{IsAcceptedAny};
ghost use Rattle.group_job.specs.Built.{IsOpenFace, IsBuiltSymmetric, TellsSectors, DecidesByGroups, IsGroupBuild, IsTwoOfSizes, OfTwo, HasRaysOfFound, HasTreesOfUnspent};
ghost use Rattle.group_job.specs.declared.grouped.MapOfGroups.{MapOfGroups as MapOf};
ghost use Rattle.group_job.specs.Faces.{AreFacesOf};
ghost use Rattle.group_job.specs.Grouped.{IsMapOfGroups};
ghost use Rattle.group_job.specs.Sectors.{AreClear, AreOfSectors, ArePairsBelow};
ghost use Rattle.group_job.specs.Walked.{AreWalkedGroups};

use crate::certificate::map_sizes;
use crate::grouped::{MapOfGroups, map_of_groups_by};
use crate::sectors::{copied, sector_table};
use crate::walked::{Built, budget_for, built_of};
use cert_format::cert_groups::{AnyCert, CertTwo, Group};
use face_groups::GroupFault;
use face_groups::tri_sectors::components;
use reject_bits::Table;
use sight_names::{Ask, Items, Memory, Pair, Plan};
use sight_workers::{Gate, Job, walk_all};
use std::alloc::Global;
use std::thread::Threads;
use triangulate::InThreads;

/// The table of a map's sectors, the pairs that aren't decided within the budgets, and the certificate of both, which is of
/// version 2.
#[derive(Drop)]
pub struct GroupBuilt {
    pub table: Table,
    pub listed: Items<Pair>,
    pub cert: AnyCert,
}

/// The groups alone. The map of groups and its mesh are freed here, at one way out.
pub(crate) fn groups_of(map: MapOfGroups) -> Items<Group>
    ensures { result ≡ map.groups }
{
    map.groups
}

/// The table, the list and the certificate of a map's sectors, from those of its groups.
pub(crate) fn by_sectors(
    alloc: Global,
    plan: &Plan,
    groups: Items<Group>,
    built: Built,
) -> Result<GroupBuilt, Memory>
    requires count { built.table.n ≡ length groups }
    requires below { AreOfSectors plan.now.sectors groups }
    requires pairs { ArePairsBelow built.table.n built.listed }
    requires clear { AreClear built.table built.listed }
    ensures { (ask : AskOf) (map : MapOf) (budget : BudgetOf) → map.groups ≡ groups → AreWalkedGroups plan.now ask map budget built → IfOk result (IsGroupBuild plan.now ask) }
{
    let sizes = map_sizes(plan);
    let sectors = sector_table(alloc, sizes.sectors, &groups, built.table, &built.listed)?;
    let listed = copied(alloc, &sectors.listed)?;
    let two = CertTwo {
        groups,
        cert: built.cert,
        listed,
    };
    Ok(GroupBuilt {
        table: sectors.table,
        listed: sectors.listed,
        cert: AnyCert::Two(two, sizes),
    })
}

/// The table of a map whose lines meet at ends, by the walks of all its groups within the budget that is asked for, which 1 to
/// 64 workers share. A bit is set where the bits of all groups that contain the two sectors are.
///
/// # Errors
///
/// `Open` at the least side that names a sector and whose face reaches outside the convex hull of the points.
pub fn build_table<R: Threads + Sync, G: Gate + Sync>(
    rt: &R,
    alloc: Global,
    plan: &Plan,
    workers: u16,
    ask: Ask,
    gate: &G,
) -> Result<GroupBuilt, GroupFault>
    requires audited { LinesMeetAtEnds (map_of plan.now) }
    requires workers { (1 ≤ workers) × (workers ≤ 64) }
    ensures closed { IfOk result (λ _. HasClosedFaces (map_of plan.now)) }
    ensures fault { IfErr result (IsOpenFace (map_of plan.now)) }
    ensures sectors { IfOk result (λ b. b.table.n ≡ plan.now.sectors) }
    ensures sizes { IfOk result (λ b. IsTwoOfSizes (sizes_of_plan plan.now) b.cert) }
    ensures in_order { IfOk result (λ b. IsAnyInOrder b.cert) }
    ensures groups { IfOk result (λ b. OfTwo (λ c. AreGroups (map_of plan.now) c.groups) b.cert) }
    ensures listed { IfOk result (λ b. OfTwo (λ c. c.listed ≡ b.listed) b.cert) }
    ensures symmetric { IfOk result IsBuiltSymmetric }
    ensures sight { IfOk result (TellsSectors (map_of plan.now)) }
    ensures by_groups { IfOk result (DecidesByGroups (map_of plan.now) ask) }
    ensures rays { IfOk result (λ b. OfTwo (HasRaysOfFound (map_of plan.now) ask) b.cert) }
    ensures trees { IfOk result (λ b. OfTwo (HasTreesOfUnspent (map_of plan.now) ask) b.cert) }
    ensures enough { ask ≡ Enough → IfOk result (λ b. b.listed ≡ []) }
    ensures whole { ask ≡ Full → IfOk result (λ b. b.listed ≡ []) }
    ensures accepted { IfOk result (λ b. IsAcceptedAny (map_of plan.now) b.table.bytes b.cert) }
{
    let map = map_of_groups_by(&InThreads { rt, workers }, alloc, plan)?;
    let built = walked(rt, alloc, &map, workers, ask, gate)?;
    let told = by_sectors(alloc, plan, groups_of(map), built)?;
    Ok(told)
}

/// What the walks of all groups come to, by so many workers.
// by itself, over a map that it is lent, since each way out of a function has all that it owns to drop
fn walked<R: Threads + Sync, G: Gate + Sync>(
    rt: &R,
    alloc: Global,
    map: &MapOfGroups,
    workers: u16,
    ask: Ask,
    gate: &G,
) -> Result<Built, Memory>
    requires workers { (1 ≤ workers) × (workers ≤ 64) }
    requires faces { AreFacesOf map.now.plan map.now.faces }
    ensures { (p : PlanParts) → IsMapOfGroups p map.now → IfOk result (λ b. (budget : BudgetOf) × AreWalkedGroups p ask map.now budget b) }
{
    let components = components(alloc, &map.plan)?;
    let job = Job {
        plan: &map.plan,
        mesh: &map.faces.mesh,
        labels: &map.faces.labels,
        components: components.as_slice(),
        budget: budget_for(ask, &map.plan, &map.faces.mesh),
    };
    let gathered = walk_all(rt, alloc, job, workers, gate)?;
    built_of(alloc, job, gathered.results.into_vec())
}
