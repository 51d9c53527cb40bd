//! What sight out of the groups of a sector enters, and where it ends.

ghost use Rattle.std.specs.Prelude.{IfOk};
ghost use Rattle.map_answers.specs.Groups.{AreGroupsOverPlan, seen};
ghost use Rattle.draw_answers.specs.Pair.{IsAreaOfPair, IsEnteredFrom};

use crate::audited::count_of;
use map_answers::MeshGroups;
use pair_answer::entered_triangles::{Entered, entered_out_of};
use pair_answer::places_of;
use sight_names::{Budget, Memory, Pair, Plan};
use std::alloc::Global;

/// What sight out of the groups of this sector enters.
#[derive(Drop)]
pub struct Area {
    pub sector: u16,
    pub entered: Entered,
}

/// What sight out of the groups of a sector enters; nothing where the walk of one of them doesn't end within the budget.
fn entered_from(
    alloc: Global,
    plan: &Plan,
    groups: &MeshGroups,
    budget: Budget,
    sector: u16,
) -> Result<Option<Entered>, Memory>
    requires groups { AreGroupsOverPlan plan.now groups.now }
    ensures { IfOk result (IsEnteredFrom (seen groups.now) budget sector) }
{
    let grouped = &groups.grouped;
    let count = count_of(&grouped.plan);
    let sources = places_of(alloc, grouped.groups.as_slice(), count, sector)?;
    entered_out_of(
        alloc,
        &grouped.plan,
        &groups.mesh,
        &grouped.labels,
        budget,
        sources.as_slice(),
    )
}

/// The same of the first sector of a pair, or else of the second; and of which it is.
pub fn area_of_pair(
    alloc: Global,
    plan: &Plan,
    groups: &MeshGroups,
    budget: Budget,
    pair: Pair,
) -> Result<Option<Area>, Memory>
    requires groups { AreGroupsOverPlan plan.now groups.now }
    ensures { IfOk result (IsAreaOfPair (seen groups.now) budget pair) }
{
    let sector = pair.a;
    if let Some(entered) = entered_from(alloc, plan, groups, budget, sector)? {
        return Ok(Some(Area { sector, entered }));
    }
    let sector = pair.b;
    match entered_from(alloc, plan, groups, budget, sector)? {
        Some(entered) => Ok(Some(Area { sector, entered })),
        None => Ok(None),
    }
}
