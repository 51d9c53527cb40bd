//! The picture of a table's row.

ghost use Rattle.std.specs.Prelude.{◌≡◌, ◌≤◌, ◌<◌, IfErr, IfOk, List, ℕ, length, ⊤};
ghost use Rattle.sight_names.specs.Map.{map_of};
ghost use Rattle.map_answers.specs.SightStatus.Answer.{GivesCalled};
ghost use Rattle.map_answers.specs.Groups.{AreGroupsOverPlan, seen};
ghost use Rattle.draw_answers.specs.Drawn.{drawing, drawn_answer, IsOfDrawTest};
ghost use Rattle.draw_answers.specs.Lines.{row_line, set_in_row};
ghost use Rattle.draw_answers.specs.Row.{DrawRowCalls, row_drawing};

use crate::audited::{count_of, groups_of};
use crate::drawn::{Drawn, made};
use crate::lines::row_line;
use map_answers::MeshGroups;
use map_answers::sight_status::{Status, Why};
use map_picture::{Named, row_picture};
use reject_bits::Table;
use sight_names::{Memory, Plan};
use std::alloc::Global;

/// How many bits of the row are set.
pub fn count_row(table: &Table, a: u16) -> u64
    requires { a < table.now.n }
    ensures count { result ≡ set_in_row table.now a }
    ensures few { result ≤ table.now.n }
{
    let mut count = 0;
    for b in 0..table.sectors() {
        if table.rejects(a, b) {
            count += 1;
        }
    }
    count
}

/// The row, and its line.
fn drawn_row(
    alloc: Global,
    plan: &Plan,
    groups: &MeshGroups,
    map: &Named<'_>,
    table: &Table,
    a: u16,
) -> Result<Drawn, Memory>
    requires groups { AreGroupsOverPlan plan.now groups.now }
    requires points { groups.now.mesh.points ≡ length plan.now.points }
    requires table { table.now.n ≡ plan.now.sectors }
    requires row { a < plan.now.sectors }
    ensures { IfOk result (λ d. drawing d ≡ row_drawing map.now (map_of plan.now) table.now a (seen groups.now)) }
{
    let grouped = &groups.grouped;
    let picture = row_picture(
        alloc,
        map,
        plan,
        &groups.mesh,
        &grouped.labels,
        grouped.groups.as_slice(),
        table,
        a,
    )?;
    let set = count_row(table, a);
    let line = row_line(alloc, map.text, a, set, u64::from(table.sectors()) - set)?;
    Ok(Drawn { picture, line })
}

/// The picture of a sound map's plan in which each face is painted as the table's row of sector `a` has its sectors.
pub fn draw_row(
    alloc: Global,
    plan: &Plan,
    map: &Named<'_>,
    table: &Table,
    a: u16,
) -> Result<Drawn, Status>
    requires { table.now.n ≡ plan.now.sectors }
    ensures judged { (out : List ℕ) → GivesCalled ⊤ (DrawRowCalls map.now out table.now a (map_of plan.now)) (drawn_answer out result) }
    ensures refusals { IfErr result IsOfDrawTest }
{
    let groups = groups_of(alloc, plan)?;
    let sectors = count_of(plan);
    if a >= sectors {
        return Err(Status::No(Why::NoSector(a)));
    }
    made(drawn_row(alloc, plan, &groups, map, table, a))
}
