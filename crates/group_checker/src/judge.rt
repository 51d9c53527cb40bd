//! The check in the order of its faults: mesh, groups, rays, trees, pairs.

ghost use Rattle.std.specs.Prelude.{◌≡◌, ◌↔◌, IfOk, length};
ghost use Rattle.sight_names.specs.Map.{map_of};
ghost use Rattle.sight_names.specs.Mesh.{IsGoodMesh};
ghost use Rattle.sight_names.specs.Plan.{IsPlan};
ghost use Rattle.sight_names.specs.Sound.{LinesMeetAtEnds};
ghost use Rattle.cert_format.specs.Accepted.{triangles_of, labels_of};
ghost use Rattle.cert_format.specs.declared.cert_groups.cert.CertTwo.{CertTwo as CertOf};
ghost use Rattle.cert_format.specs.CertGroups.Grammar.{IsAnyInOrder, sizes_of_listing};
ghost use Rattle.cert_checker.specs.AcceptedGroups.Accepted.{IsAcceptedAny, IsAcceptedTwo};
ghost use Rattle.cert_checker.specs.Judged.{IsLaterVerdict, IsPairVerdict, JudgesRays, JudgesTrees};
ghost use Rattle.cert_checker.specs.Sight.{TellsSightOne};
ghost use Rattle.cert_checker.specs.TreeJudge.Trees.{TellsReach};
ghost use Rattle.group_checker.specs.Judged.{any_of as either, with_list, AreListsOfTwo, IsTwoFor, IsTwoOfSectors, IsYesAny, JudgesAny, JudgesTwo, TellsPairsOfTwo, TellsSightAny};

use crate::grouping::{GroupedMesh, MeshVerdict, judge_mesh};
use crate::members::members_of;
use crate::verdict::{AnyVerdict, any_of};
use cert_checker::tree_judge::{OneJudge, Reach, TreeJudges};
use cert_checker::{Verdict, Walked, check, judge_members, judge_walks};
use cert_format::cert_groups::{AnyCert, CertTwo};
use face_groups::Group;
use reject_bits::Table;
use sight_names::{Memory, Pair, PairRay, Plan};
use std::alloc::Global;

/// Judges the pairs of sectors by groups, and by a list and rays in order, once it is known what the trees of groups keep from.
pub fn judge_sectors(
    alloc: Global,
    grouped: &Plan,
    table: &Table,
    groups: &[Group],
    listed: &[Pair],
    rays: &[PairRay],
    reach: &Reach,
) -> Result<Verdict, Memory>
    requires sectors { grouped.now.sectors ≡ length groups.now }
    requires reached { reach.now.reached.n ≡ grouped.now.sectors }
    requires lists { AreListsOfTwo table.now.n groups.now listed.now rays.now }
    ensures kind { IfOk result IsPairVerdict }
    ensures pairs { (c : CertOf) → c.groups ≡ groups.now → c.listed ≡ listed.now → c.cert.rays ≡ rays.now → TellsReach (map_of grouped.now) c.cert reach.now.walked.items reach.now.reached → IfOk result (TellsPairsOfTwo (map_of grouped.now) table.now c) }
{
    let members = members_of(alloc, groups, table.sectors())?;
    judge_members(
        alloc,
        grouped,
        table,
        members.as_slice(),
        listed,
        rays,
        reach,
    )
}

/// Judges rays and trees over the map of groups, and then the pairs of sectors.
fn judge_grouped<J: TreeJudges>(
    judges: &J,
    alloc: Global,
    table: &Table,
    two: &CertTwo,
    over: &GroupedMesh,
) -> Result<Verdict, Memory>
    requires can { J.can_judge judges.now }
    requires cert { IsTwoOfSectors table.now.n two.now }
    requires triangles { over.now.mesh.triangles ≡ triangles_of two.now.cert }
    requires labels { over.now.labels ≡ labels_of two.now.cert }
    requires sectors { over.now.plan.sectors ≡ length two.now.groups }
    requires plan { IsPlan over.now.plan }
    requires good { IsGoodMesh (map_of over.now.plan) over.now.mesh.triangles (labels_of two.now.cert) }
    ensures later { IfOk result IsLaterVerdict }
    ensures rays { IfOk result (JudgesRays (map_of over.now.plan) two.now.cert) }
    ensures trees { IfOk result (JudgesTrees (map_of over.now.plan) two.now.cert) }
    ensures pairs { IfOk result (TellsPairsOfTwo (map_of over.now.plan) table.now two.now) }
{
    let walked = judge_walks(
        judges,
        alloc,
        &over.plan,
        &two.cert,
        &over.mesh,
        &over.labels,
    )?;
    match walked {
        Walked::Wrong(fault) => Ok(Verdict::No(fault)),
        Walked::Right(reach) => {
            let (groups, listed) = (two.groups.as_slice(), two.listed.as_slice());
            let rays = two.cert.rays();
            judge_sectors(alloc, &over.plan, table, groups, listed, rays, &reach)
        }
    }
}

/// The first fault in the order of mesh, groups, rays, trees and pairs, or yes.
fn judge_two<J: TreeJudges>(
    judges: &J,
    alloc: Global,
    plan: &Plan,
    table: &Table,
    two: &CertTwo,
) -> Result<AnyVerdict, Memory>
    requires can { J.can_judge judges.now }
    requires table { table.now.n ≡ plan.now.sectors }
    requires cert { IsTwoFor plan.now two.now }
    ensures { IfOk result (JudgesTwo plan.now table.now two.now) }
{
    let judged = judge_mesh(alloc, plan, two.cert.triangles(), two.groups.as_slice())?;
    match judged {
        MeshVerdict::Broken(fault) => Ok(AnyVerdict::No(fault)),
        MeshVerdict::Good(over) => {
            let verdict = judge_grouped(judges, alloc, table, two, &over)?;
            Ok(any_of(verdict))
        }
    }
}

/// Judges the table by a certificate of version 2: yes with the totals exactly where the certificate is accepted, or the
/// first fault in order.
fn check_two<J: TreeJudges>(
    judges: &J,
    alloc: Global,
    plan: &Plan,
    table: &Table,
    two: &CertTwo,
) -> Result<AnyVerdict, Memory>
    requires can { J.can_judge judges.now }
    requires audited { LinesMeetAtEnds (map_of plan.now) }
    requires table { table.now.n ≡ plan.now.sectors }
    requires cert { IsTwoFor plan.now two.now }
    ensures exact { IfOk result (JudgesTwo plan.now table.now two.now) }
    ensures accepted { IfOk result (λ v. IsYesAny v ↔ IsAcceptedTwo (map_of plan.now) table.now.bytes two.now) }
    ensures sight { IfOk result (λ v. IsYesAny v → TellsSightOne (map_of plan.now) table.now (with_list two.now)) }
{
    let _ = plan.lines();
    judge_two(judges, alloc, plan, table, two)
}

/// What `check_any` tells, the trees judged by these.
pub fn check_any_by<J: TreeJudges>(
    judges: &J,
    alloc: Global,
    plan: &Plan,
    table: &Table,
    cert: &AnyCert,
) -> Result<AnyVerdict, Memory>
    requires can { J.can_judge judges.now }
    requires audited { LinesMeetAtEnds (map_of plan.now) }
    requires table { table.now.n ≡ plan.now.sectors }
    requires sectors { (sizes_of_listing cert.now).sectors ≡ plan.now.sectors }
    requires points { (sizes_of_listing cert.now).points ≡ length plan.now.points }
    requires lines { (sizes_of_listing cert.now).lines ≡ length plan.now.lines }
    requires in_order { IsAnyInOrder cert.now }
    ensures exact { IfOk result (JudgesAny plan.now table.now cert.now) }
    ensures accepted { IfOk result (λ v. IsYesAny v ↔ IsAcceptedAny (map_of plan.now) table.now.bytes cert.now) }
    ensures sight { IfOk result (λ v. IsYesAny v → TellsSightAny (map_of plan.now) table.now cert.now) }
{
    match cert {
        AnyCert::One(one) => {
            let verdict = check(judges, alloc, plan, table, one)?;
            Ok(any_of(verdict))
        }
        AnyCert::Two(two, _) => check_two(judges, alloc, plan, table, two),
    }
}

/// Judges the table by a certificate of version 1 or 2: yes with the totals exactly where the certificate is accepted,
/// or the first fault in order. On yes no rejected pair sees, and each clear pair that isn't listed does.
pub fn check_any(
    alloc: Global,
    plan: &Plan,
    table: &Table,
    cert: &AnyCert,
) -> Result<AnyVerdict, Memory>
    requires audited { LinesMeetAtEnds (map_of plan.now) }
    requires table { table.now.n ≡ plan.now.sectors }
    requires sectors { (sizes_of_listing cert.now).sectors ≡ plan.now.sectors }
    requires points { (sizes_of_listing cert.now).points ≡ length plan.now.points }
    requires lines { (sizes_of_listing cert.now).lines ≡ length plan.now.lines }
    requires in_order { IsAnyInOrder cert.now }
    ensures exact { IfOk result (JudgesAny plan.now table.now cert.now) }
    ensures accepted { IfOk result (λ v. IsYesAny v ↔ IsAcceptedAny (map_of plan.now) table.now.bytes cert.now) }
    ensures sight { IfOk result (λ v. IsYesAny v → TellsSightAny (map_of plan.now) table.now cert.now) }
{
    check_any_by(&OneJudge, alloc, plan, table, cert)
}
