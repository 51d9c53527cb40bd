//! The groups of a room with a pillar inside whose sides name another sector, with and without lines whose two sides name
//! one sector; and the labels of triangles, where each face has one name.

use crate::plans::plan_of;
use face_groups::tri_sectors::label;
use face_groups::{Grouped, ShortList, faces, group_map};
use map_audit::audit_lines;
use mesh_shape::Mesh;
use sight_names::{Memory, Plan, Triangle};
use std::alloc::{AllocError, Global};
use std::test::Fail;
use triangulate::greedy_mesh;

/// The words of a map; how many triangles there are inside the pillar, and the sectors that sides name on their faces; the same of the
/// other triangles; the groups; and the group of the right and of the left side of each line. A hyphen is no sector and no group.
///
/// The eight points of ISLAND, four of them on the hull, have 2 * 8 - 2 - 4 = 10 triangles between them. The right sides of its lines 0
/// to 3, the walls, name sector 0, and those of lines 4 to 7, the pillar's, sector 1; both face the room, and no side faces the inside.
const ROWS: &str = "\
ISLAND | 2 of - | 8 of 0 1 | 0 1 | 0- 0- 0- 0- 0- 0- 0- 0-
# a line of sector 0 from a corner of the room to one of the pillar leaves the room one face
ISLAND .1 <0000040004000000000000000000 | 2 of - | 8 of 0 1 | 0 1 | 0- 0- 0- 0- 0- 0- 0- 0- 00
# a line of sector 0 across the pillar: two faces of one group, which comes first
ISLAND .1 <0400060004000000000000000000 | 2 of 0 | 8 of 0 1 | 0, 0 1 | 1- 1- 1- 1- 10 10 10 10 00
# the same line of sector 1
ISLAND .1 <0400060004000000000004000400 | 2 of 1 | 8 of 0 1 | 0 1, 1 | 0- 0- 0- 0- 01 01 01 01 11
# the pillar's own lines name sector 1 on both sides
ISLAND @72:2:0400 @80:2:0400 @86:2:0400 @94:2:0500 @100:2:0400 @108:2:0600 @114:2:0400 @122:2:0700 | 2 of 1 | 8 of 0 1 | 0 1, 1 | 0- 0- 0- 0- 01 01 01 01
# nine sides of one face name nine sectors, one more than its list has room for in itself
ISLAND .1 <0000040004000000000008000800 .2 <000000000000000000000000000000000000000000000000000000000800 .4 *260 @196:2:0100 @226:2:0200 @256:2:0300 @286:2:0400 @316:2:0500 @346:2:0600 @376:2:0700 | 2 of - | 8 of 0 1 2 3 4 5 6 7 8 | 0 1 2 3 4 5 6 7 8 | 0- 0- 0- 0- 0- 0- 0- 0- 00
# a face that reaches outside the hull
OPEN | 0 of - | 2 of 0 | open 0R |
";

/// The words of a map, and the label of each triangle, or why there are none. A hyphen is no sector.
///
/// U has ten triangles, of which eight have a sector; the sixth and the seventh lie between its legs, which no side faces.
const LABELS: &str = "\
SQUARE | 0 0
PAIR | 0 0 1 1
U | 0 0 1 1 1 - - 2 2 1
OPEN | open 0R
ISLAND | mixed 0R 4R
# of the two faces at the line from corner to corner it names no sector
DIAGONAL | mixed 0R 4R
";

// Puts the sectors of a list, or a hyphen.
fn push_list(text: &mut String, alloc: Global, list: &[u16]) -> Result<(), AllocError> {
    let mut gap = "";
    for sector in list {
        text.push_str(format!(in alloc; "{gap}{sector}")?.as_str())?;
        gap = " ";
    }
    if list.is_empty() {
        text.push_str("-")?;
    }
    Ok(())
}

// Whether the corners are points 2 to 5, which are the pillar's.
fn is_inside(triangle: &Triangle) -> bool {
    triangle.p >= 2 && triangle.q <= 5 && triangle.r <= 5
}

// Adds how many triangles there are inside the pillar, or elsewhere, and their list; no number where they have several.
fn push_where(
    text: &mut String,
    alloc: Global,
    mesh: &Mesh,
    lists: &[ShortList],
    inside: bool,
) -> Result<(), AllocError> {
    let mut count = 0usize;
    let mut first: &[u16] = &[];
    for (triangle, list) in mesh.triangles().iter().zip(lists.iter()) {
        if is_inside(triangle) == inside {
            if count > 0 && list.as_slice() != first {
                return text.push_str("several lists | ");
            }
            first = list.as_slice();
            count = count.wrapping_add(1);
        }
    }
    text.push_str(format!(in alloc; "{count} of ")?.as_str())?;
    push_list(text, alloc, first)?;
    text.push_str(" | ")
}

// Whether each triangle's label is the place of its list among the groups, none where the list is empty.
fn are_labelled(lists: &[ShortList], grouped: &Grouped) -> bool {
    let groups = grouped.groups.as_slice();
    for (list, label) in lists.iter().zip(grouped.labels.as_slice().iter()) {
        let right = match label {
            None => list.as_slice().is_empty(),
            Some(place) => match groups.get(*place as usize) {
                Some(group) => group.as_slice() == list.as_slice(),
                None => false,
            },
        };
        if !right {
            return false;
        }
    }
    lists.len() == grouped.labels.as_slice().len()
}

fn push_side(text: &mut String, alloc: Global, side: Option<u16>) -> Result<(), AllocError> {
    match side {
        Some(group) => text.push_str(format!(in alloc; "{group}")?.as_str()),
        None => text.push_str("-"),
    }
}

// Adds the groups, and the sides of the map of groups.
fn push_groups(text: &mut String, alloc: Global, grouped: &Grouped) -> Result<(), AllocError> {
    let mut gap = "";
    for group in grouped.groups.as_slice() {
        text.push_str(gap)?;
        push_list(text, alloc, group.as_slice())?;
        gap = ", ";
    }
    text.push_str(" |")?;
    for line in grouped.plan.lines() {
        if let Some(line) = line {
            text.push_str(" ")?;
            push_side(text, alloc, line.right)?;
            push_side(text, alloc, line.left)?;
        }
    }
    Ok(())
}

// Adds what a row has to say of a map's groups, by the lists of its faces.
fn push_grouped(
    text: &mut String,
    alloc: Global,
    plan: &Plan,
    mesh: &Mesh,
    lists: &[ShortList],
) -> Result<(), AllocError> {
    match group_map(alloc, plan, mesh) {
        Ok(grouped) if !are_labelled(lists, &grouped) => text.push_str("other labels"),
        Ok(grouped) => push_groups(text, alloc, &grouped),
        Err(fault) => text.push_str(format!(in alloc; "{fault} |")?.as_str()),
    }
}

// Adds what a row has to say of a map, by the lists of its faces.
fn push_lists(
    text: &mut String,
    alloc: Global,
    plan: &Plan,
    mesh: &Mesh,
    lists: &[ShortList],
) -> Result<(), AllocError> {
    push_where(text, alloc, mesh, lists, true)?;
    push_where(text, alloc, mesh, lists, false)?;
    push_grouped(text, alloc, plan, mesh, lists)
}

// Adds what a row has to say of a map, behind its words.
fn push_told(text: &mut String, alloc: Global, plan: &Plan, mesh: &Mesh) -> Result<(), Memory> {
    let lists = faces(alloc, plan, mesh)?;
    let pushed = push_lists(text, alloc, plan, mesh, lists.as_slice());
    drop(lists);
    Ok(pushed?)
}

// Adds each label, or a hyphen where there is none.
fn push_sides(text: &mut String, alloc: Global, labels: &[Option<u16>]) -> Result<(), AllocError> {
    for label in labels {
        push_side(text, alloc, *label)?;
        text.push_str(" ")?;
    }
    Ok(())
}

// Adds what a row has to say of a map's labels, behind its words.
fn push_labels(text: &mut String, alloc: Global, plan: &Plan, mesh: &Mesh) -> Result<(), Memory> {
    let pushed = match label(alloc, plan, mesh) {
        Ok(labels) => push_sides(text, alloc, labels.as_slice()),
        Err(fault) => text.push_str(format!(in alloc; "{fault}")?.as_str()),
    };
    Ok(pushed?)
}

// The same of any map.
fn audited_mesh(alloc: Global, plan: &Plan) -> Result<Mesh, Fail> {
    let Ok(()) = audit_lines(alloc, plan) else {
        return Err("lines don't meet at ends".into());
    };
    Ok(greedy_mesh(alloc, plan)?)
}

// Adds what there is to tell of a map, or of its labels alone. The mesh is freed at one way out.
fn push_of(text: &mut String, alloc: Global, plan: &Plan, labels_alone: bool) -> Result<(), Fail> {
    let mesh = audited_mesh(alloc, plan)?;
    let pushed = if labels_alone {
        push_labels(text, alloc, plan, &mesh)
    } else {
        push_told(text, alloc, plan, &mesh)
    };
    drop(mesh);
    Ok(pushed?)
}

// Whether this is what there is to tell of the map of these words.
fn is_told(alloc: Global, words: &str, labels_alone: bool, wanted: &str) -> Result<bool, Fail> {
    let plan = plan_of(alloc, words)?;
    let mut text = String::new(alloc);
    let pushed = push_of(&mut text, alloc, &plan, labels_alone);
    drop(plan);
    pushed?;
    Ok(text.as_str().trim() == wanted.trim())
}

// Whether each row tells of its map, or of its labels alone, what there is to tell; else the first that doesn't is the fault.
fn hold(alloc: Global, rows: &str, labels_alone: bool) -> Result<(), Fail> {
    for row in rows.lines() {
        let (words, wanted) = row.split_once(" | ").unwrap_or((row, ""));
        if !row.starts_with('#') && !is_told(alloc, words, labels_alone, wanted)? {
            return Err(row.into());
        }
    }
    Ok(())
}

#[test]
fn faces_with_several_names_are_of_one_group_each_and_the_map_of_groups_names_it(
    rt: HostRuntime,
) -> Result<(), Fail> {
    hold(rt.alloc(), ROWS, false)
}

#[test]
fn a_triangle_has_the_sector_that_all_sides_of_its_face_name(rt: HostRuntime) -> Result<(), Fail> {
    hold(rt.alloc(), LABELS, true)
}
