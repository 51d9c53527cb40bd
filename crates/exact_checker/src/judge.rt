//! The check in the order of its faults: mesh, groups, rays, trees, pairs.

ghost use Rattle.std.specs.Prelude.{◌≡◌, ◌≤◌, ◌↔◌, IfOk, length};
ghost use Rattle.sight_names.specs.Map.{map_of};
ghost use Rattle.sight_names.specs.Mesh.{IsGoodMesh};
ghost use Rattle.sight_names.specs.Plan.{IsPlan};
ghost use Rattle.sight_names.specs.Sound.{LinesMeetAtEnds};
ghost use Rattle.cert_format.specs.Accepted.{triangles_of, labels_of};
ghost use Rattle.cert_checker.specs.Judged.{IsLaterVerdict, IsPairVerdict, JudgesRays};
ghost use Rattle.certificates.specs.declared.cert_exact.cert.ExactParts.{ExactParts as PartsOf};
ghost use Rattle.certificates.specs.CertExact.Grammar.{as_two};
ghost use Rattle.group_checker.specs.Judged.{IsYesAny};
ghost use Rattle.gate_floods.specs.Exact.{IsAcceptedThree, TellsAll};
ghost use Rattle.exact_checker.specs.Rows.{AreJoinedRows};
ghost use Rattle.exact_checker.specs.Pairs.{known_of};
ghost use Rattle.exact_checker.specs.Judged.{IsAbout, IsThreeFor, IsThreeOf, JudgesThree, JudgesTreesOfThree, TellsPairsOfThree};

use crate::joining::joined_rows;
use crate::pairs::Known;
use crate::trees::{OneJudge, TreeJudges, judge_trees};
use cert_checker::pairs::judge_pairs;
use cert_checker::{Verdict, ray_fault};
use certificates::cert_exact::ExactParts;
use face_groups::Group;
use gate_floods::gate_masks::Row;
use group_checker::{AnyVerdict, GroupedMesh, MeshVerdict, any_of, judge_mesh, members_of};
use mesh_shape::half_edges::HalfEdges;
use reject_bits::Table;
use sight_names::{CheckFault, MOST_TRIANGLES, Memory, Plan};
use std::alloc::Global;

/// Judges the pairs of sectors, by what is known.
fn judge_each_pair(alloc: Global, known: Known<'_>) -> Result<Verdict, Memory>
    requires { length known.members.now ≡ known.table.now.n }
    ensures kind { IfOk result IsPairVerdict }
    ensures pairs { (c : PartsOf) → IsAbout c (known_of known.entry) → IfOk result (TellsPairsOfThree known.entry.table.now (as_two c)) }
{
    let judged = judge_pairs(alloc, &known, known.table, &[])?;
    match judged {
        Ok(totals) => Ok(Verdict::Yes(totals)),
        Err(fault) => Ok(Verdict::No(fault)),
    }
}

/// Judges the pairs of sectors, by groups and by the rows of what is joined with each.
pub fn judge_sectors(
    alloc: Global,
    table: &Table,
    groups: &[Group],
    joined: &[Row],
) -> Result<Verdict, Memory>
    requires few { length groups.now ≤ MOST_TRIANGLES }
    ensures kind { IfOk result IsPairVerdict }
    ensures pairs { (c : PartsOf) → c.groups ≡ groups.now → AreJoinedRows (length c.groups) c.rays joined.now → IfOk result (TellsPairsOfThree table.now (as_two c)) }
{
    let sectors = table.sectors();
    let members = members_of(alloc, groups, sectors)?;
    let known = Known {
        table,
        members: members.as_slice(),
        joined,
    };
    judge_each_pair(alloc, known)
}

/// Judges rays and trees over the map of groups, and then the pairs of sectors.
fn judge_grouped<J: TreeJudges>(
    judges: &J,
    alloc: Global,
    table: &Table,
    exact: &ExactParts,
    over: &GroupedMesh,
) -> Result<Verdict, Memory>
    requires can { J.can_judge judges.now }
    requires cert { IsThreeOf table.now.n exact.now }
    requires triangles { over.now.mesh.triangles ≡ triangles_of (as_two exact.now).cert }
    requires labels { over.now.labels ≡ labels_of (as_two exact.now).cert }
    requires sectors { over.now.plan.sectors ≡ length exact.now.groups }
    requires plan { IsPlan over.now.plan }
    requires good { IsGoodMesh (map_of over.now.plan) over.now.mesh.triangles (labels_of (as_two exact.now).cert) }
    ensures later { IfOk result IsLaterVerdict }
    ensures rays { IfOk result (JudgesRays (map_of over.now.plan) (as_two exact.now).cert) }
    ensures trees { IfOk result (JudgesTreesOfThree (map_of over.now.plan) exact.now) }
    ensures pairs { IfOk result (TellsPairsOfThree table.now (as_two exact.now)) }
{
    let edges = HalfEdges::of(alloc, &over.plan, &over.mesh, &over.labels)?;
    let rays = exact.rays.as_slice();
    if let Some(fault) = ray_fault(&over.plan, &over.mesh, &edges, rays) {
        return Ok(Verdict::No(fault));
    }
    let joined = joined_rows(alloc, over.plan.sectors, rays)?;
    let wrong = judge_trees(
        judges,
        alloc,
        over,
        &edges,
        joined.as_slice(),
        exact.trees.as_slice(),
    )?;
    match wrong {
        Some(wrong) => Ok(Verdict::No(CheckFault::Tree {
            source: wrong.source,
            node: wrong.node,
        })),
        None => judge_sectors(alloc, table, exact.groups.as_slice(), joined.as_slice()),
    }
}

/// The first fault in the order of mesh, groups, rays, trees and pairs, or yes.
fn judge_three<J: TreeJudges>(
    judges: &J,
    alloc: Global,
    plan: &Plan,
    table: &Table,
    exact: &ExactParts,
) -> Result<AnyVerdict, Memory>
    requires can { J.can_judge judges.now }
    requires table { table.now.n ≡ plan.now.sectors }
    requires cert { IsThreeFor plan.now exact.now }
    ensures { IfOk result (JudgesThree plan.now table.now exact.now) }
{
    let _ = plan.lines();
    let judged = judge_mesh(
        alloc,
        plan,
        exact.triangles.as_slice(),
        exact.groups.as_slice(),
    )?;
    match judged {
        MeshVerdict::Broken(fault) => Ok(AnyVerdict::No(fault)),
        MeshVerdict::Good(over) => {
            let verdict = judge_grouped(judges, alloc, table, exact, &over)?;
            Ok(any_of(verdict))
        }
    }
}

/// What `check_exact` tells, the trees judged by these.
pub fn check_exact_by<J: TreeJudges>(
    judges: &J,
    alloc: Global,
    plan: &Plan,
    table: &Table,
    exact: &ExactParts,
) -> Result<AnyVerdict, Memory>
    requires can { J.can_judge judges.now }
    requires audited { LinesMeetAtEnds (map_of plan.now) }
    requires table { table.now.n ≡ plan.now.sectors }
    requires cert { IsThreeFor plan.now exact.now }
    ensures exact { IfOk result (JudgesThree plan.now table.now exact.now) }
    ensures accepted { IfOk result (λ v. IsYesAny v ↔ IsAcceptedThree (map_of plan.now) table.now.bytes exact.now) }
    ensures sight { IfOk result (λ v. IsYesAny v → TellsAll (map_of plan.now) table.now) }
{
    let _ = plan.lines();
    judge_three(judges, alloc, plan, table, exact)
}

/// Judges the table by a certificate of version 3: yes with the totals exactly where the certificate is accepted, or
/// the first fault in order. On yes the table tells of each two sectors whether they see each other. A set bit of two
/// sectors some groups of which are joined is `Unproved`, a clear one of two no groups of which are joined is
/// `Uncovered`; no pair is `ListedSet`, as none is listed.
pub fn check_exact(
    alloc: Global,
    plan: &Plan,
    table: &Table,
    exact: &ExactParts,
) -> Result<AnyVerdict, Memory>
    requires audited { LinesMeetAtEnds (map_of plan.now) }
    requires table { table.now.n ≡ plan.now.sectors }
    requires cert { IsThreeFor plan.now exact.now }
    ensures exact { IfOk result (JudgesThree plan.now table.now exact.now) }
    ensures accepted { IfOk result (λ v. IsYesAny v ↔ IsAcceptedThree (map_of plan.now) table.now.bytes exact.now) }
    ensures sight { IfOk result (λ v. IsYesAny v → TellsAll (map_of plan.now) table.now) }
{
    check_exact_by(&OneJudge, alloc, plan, table, exact)
}
