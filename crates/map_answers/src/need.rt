//! What `need` says of a map: how great a budget its groups need, and one that is enough.

ghost use Rattle.std.specs.Prelude.{◌≡◌, IfErr, IfOk, length, string_bytes, ⊤};
ghost use Rattle.sight_names.specs.Enough.{enough_of};
ghost use Rattle.sight_names.specs.Map.{map_of};
ghost use Rattle.sight_names.specs.Mesh.{IsGoodMesh, IsMeshOf};
ghost use Rattle.sight_names.specs.Sound.{LinesMeetAtEnds};
ghost use Rattle.portal_walk.specs.EnoughBudget.Need.{greatest};
ghost use Rattle.map_answers.specs.SightStatus.Answer.{GivesCalled, line_answer};
ghost use Rattle.map_answers.specs.Need.{AreNeeds, NeedCalls, need_line};
ghost use Rattle.map_answers.specs.SightStatus.Status.{IsOfMapTest};
ghost use Rattle.map_answers.specs.declared.sight_status.status.Status.TheVariants.{Memory};

use crate::groups::{MeshGroups, audit_map};
use crate::sight_status::{Status, push_count, push_count_line};
use portal_walk::enough_budget::{enough, most, need};
use sight_names::Plan;
use std::alloc::{AllocError, Global};

fn line_of(alloc: Global, name: &str, most: u64, enough: u64) -> Result<String, AllocError>
    ensures { IfOk result (λ line. string_bytes line ≡ need_line name.now most enough) }
{
    let mut line = String::from_str(alloc, "need ")?;
    line.push_str(name)?;
    push_count(alloc, &mut line, " most ", most)?;
    push_count_line(alloc, &mut line, " enough ", enough)?;
    Ok(line)
}

/// The numbers of the sequences of all groups of a map.
fn count_all(alloc: Global, groups: &MeshGroups) -> Result<Vec<u64>, Status>
    requires audited { LinesMeetAtEnds (map_of groups.now.grouped.plan) }
    requires good { IsGoodMesh (map_of groups.now.grouped.plan) groups.now.mesh.triangles groups.now.grouped.labels }
    requires points { groups.now.mesh.points ≡ length groups.now.grouped.plan.points }
    ensures numbers { IfOk result (λ ns. AreNeeds (map_of groups.now.grouped.plan) groups.now.mesh.triangles groups.now.grouped.labels ns.items) }
    ensures refusals { IfErr result (λ s. s ≡ Memory tt) }
{
    let grouped = &groups.grouped;
    match need(alloc, &grouped.plan, &groups.mesh, &grouped.labels) {
        Ok(numbers) => Ok(numbers),
        Err(memory) => Err(Status::Memory(memory)),
    }
}

/// The line of a map by the numbers of its groups' sequences.
fn need_line_of(
    alloc: Global,
    name: &str,
    groups: &MeshGroups,
    numbers: &[u64],
) -> Result<String, Status>
    requires { IsMeshOf (map_of groups.now.grouped.plan) groups.now.mesh.triangles }
    ensures line { IfOk result (λ line. string_bytes line ≡ need_line name.now (greatest numbers.now) (enough_of (map_of groups.now.grouped.plan) groups.now.mesh.triangles)) }
    ensures refusals { IfErr result (λ s. s ≡ Memory tt) }
{
    let enough = enough(&groups.grouped.plan, &groups.mesh);
    match line_of(alloc, name, most(numbers), enough) {
        Ok(line) => Ok(line),
        Err(refused) => Err(Status::Memory(refused.into())),
    }
}

/// How great a budget the groups of the map need, where it is sound.
pub fn judge_need(alloc: Global, plan: &Plan, name: &str) -> Result<String, Status>
    ensures judged { GivesCalled ⊤ (NeedCalls name.now (map_of plan.now)) (line_answer result) }
    ensures refusals { IfErr result IsOfMapTest }
{
    let groups = audit_map(alloc, plan)?;
    let numbers = count_all(alloc, &groups)?;
    need_line_of(alloc, name, &groups, &numbers)
}
