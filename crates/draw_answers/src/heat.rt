//! The picture of how much each sector may see by a table.

ghost use Rattle.std.specs.Prelude.{◌≡◌, ◌<◌, ◌≤◌, ◌-◌, All, IfErr, IfOk, List, ℕ, length, map, ⊤};
ghost use Rattle.sight_names.specs.Map.{map_of};
ghost use Rattle.map_answers.specs.SightStatus.Answer.{GivesCalled};
ghost use Rattle.map_answers.specs.Groups.{AreGroupsOverPlan, seen};
ghost use Rattle.map_picture.specs.Picture.{most_of as the_most_of};
ghost use Rattle.draw_answers.specs.Drawn.{IsOfDrawTest, drawing, drawn_answer};
ghost use Rattle.draw_answers.specs.Heat.{DrawHeatCalls, clear_in_row, heat_drawing, most_seen as the_most_seen, seen_by as the_seen_by};

use crate::audited::groups_of;
use crate::drawn::{Drawn, made};
use crate::lines::heat_line;
use crate::row::count_row;
use map_answers::MeshGroups;
use map_answers::sight_status::Status;
use map_picture::{Named, heat_picture, most_of};
use reject_bits::Table;
use sight_names::{Items, Memory, Plan};
use std::alloc::Global;

/// How many bits of the row are clear.
fn clear_in(table: &Table, a: u16) -> u16
    requires { a < table.now.n }
    ensures { result ≡ clear_in_row table.now a }
{
    (u64::from(table.sectors()) - count_row(table, a)) as u16
}

/// The most that one of these sectors may see.
fn most_seen(table: &Table, names: &[u16]) -> u16
    requires { All (λ b. b < table.now.n) names.now }
    ensures { result ≡ the_most_seen table.now names.now }
{
    let mut most = 0;
    for a in names {
        most = most.max(clear_in(table, *a));
    }
    most
}

/// .. of each group.
fn seen_by(alloc: Global, table: &Table, groups: &[Items<u16>]) -> Result<Vec<u16>, Memory>
    requires { All (All (λ b. b < table.now.n)) groups.now }
    ensures { IfOk result (λ v. v.items ≡ the_seen_by table.now groups.now) }
{
    let mut counts = Vec::with_capacity(alloc, groups.len())?;
    for group in groups {
        counts.push(most_seen(table, group.as_slice()))?;
    }
    Ok(counts)
}

/// The picture, and its line.
fn drawn_heat(
    alloc: Global,
    plan: &Plan,
    groups: &MeshGroups,
    map: &Named<'_>,
    table: &Table,
) -> Result<Drawn, Memory>
    requires groups { AreGroupsOverPlan plan.now groups.now }
    requires points { groups.now.mesh.points ≡ length plan.now.points }
    requires table { table.now.n ≡ plan.now.sectors }
    ensures { IfOk result (λ d. drawing d ≡ heat_drawing map.now (map_of plan.now) table.now (seen groups.now)) }
{
    let grouped = &groups.grouped;
    let counts = seen_by(alloc, table, grouped.groups.as_slice())?;
    let picture = heat_picture(
        alloc,
        map,
        plan,
        &groups.mesh,
        &grouped.labels,
        grouped.groups.as_slice(),
        counts.as_slice(),
    )?;
    let line = heat_line(alloc, map.text, most_of(counts.as_slice()))?;
    Ok(Drawn { picture, line })
}

/// The picture of a sound map's plan in which each face is painted by how much its sectors may see by the table.
pub fn draw_heat(
    alloc: Global,
    plan: &Plan,
    map: &Named<'_>,
    table: &Table,
) -> Result<Drawn, Status>
    requires { table.now.n ≡ plan.now.sectors }
    ensures judged { (out : List ℕ) → GivesCalled ⊤ (DrawHeatCalls map.now out table.now (map_of plan.now)) (drawn_answer out result) }
    ensures refusals { IfErr result IsOfDrawTest }
{
    let groups = groups_of(alloc, plan)?;
    made(drawn_heat(alloc, plan, &groups, map, table))
}
