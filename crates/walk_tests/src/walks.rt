//! Segments, components, walks and tables of worked maps.

ghost use Rattle.group_job.specs.Faces.{AreFacesOf};

use crate::grounds::groups_named;
use block_evidence::sight_tree::{Node, Nodes};
use cert_format::cert_groups::AnyCert;
use face_groups::GroupFault;
use face_groups::tri_sectors::components;
use group_job::{GroupBuilt, MapOfGroups, build_table};
use map_audit::audit_lines;
use pair_budget::{Alone, Outcome, walk_source};
use portal_walk::{Step, Terrain, Walker};
use sight_names::{Ask, Budget, Memory, Plan};
use sight_workers::OpenGate;
use std::alloc::{AllocError, Global};
use std::test::Fail;
use std::thread::Threads;
use triangulate::{Segments, greedy};
use worked_maps::files::{bytes_of_digits, number, plan_named};
use worked_maps::rows::part;

// The segments behind the lines are these.
fn keeps(found: &Segments, lines: usize, rest: &[(u16, u16)]) -> bool {
    let Some(kept) = found.as_slice().get(lines..) else {
        return false;
    };
    kept.len() == rest.len()
        && kept
            .iter()
            .zip(rest.iter())
            .all(|(s, (from, to))| s.from == *from && s.to == *to)
}

// Whether the segments of the worked map behind so many lines are these.
fn has_segments(
    alloc: Global,
    name: &str,
    lines: usize,
    rest: &[(u16, u16)],
) -> Result<bool, Fail> {
    let plan = plan_named(alloc, name)?;
    let found = greedy(alloc, &plan)?;
    Ok(keeps(&found, lines, rest))
}

// Whether the sectors of U are one component.
fn is_one_component(alloc: Global) -> Result<bool, Fail> {
    let plan = plan_named(alloc, "U")?;
    let classes = components(alloc, &plan)?;
    Ok(classes.as_slice() == [0, 0, 0].as_slice())
}

#[test]
fn worked_maps_have_their_segments_and_components(rt: HostRuntime) -> Result<(), Fail> {
    let rest = [(3, 5), (0, 4), (2, 4), (3, 6), (5, 8), (6, 9), (2, 6)];
    assert!(rt; has_segments(rt.alloc(), "SQUARE", 4, &[(0, 3)])?);
    assert!(rt; has_segments(rt.alloc(), "U", 12, &rest)? && is_one_component(rt.alloc())?);
    Ok(())
}

fn count_open(nodes: &Nodes) -> usize {
    let mut open = 0usize;
    for node in nodes.iter() {
        if matches!(node, Node::Open) {
            open = open.wrapping_add(1);
        }
    }
    open
}

// How many sectors a source of a map of groups finds within a budget, and how many open nodes and how many nodes its tree
// has, None where the budget is spent. Nothing where there is no such source. The sectors are those of the map where each
// has one face or more, and each face one of them.
fn walk_of(
    alloc: Global,
    map: &MapOfGroups,
    source: u16,
    budget: Budget,
) -> Result<Option<(usize, Option<(usize, usize)>)>, Memory>
    requires { AreFacesOf map.now.plan map.now.faces }
{
    let (plan, mesh, labels) = (&map.plan, &map.faces.mesh, &map.faces.labels);
    if source >= plan.sectors {
        return Ok(None);
    }
    let result = walk_source(alloc, plan, mesh, labels, source, budget, &mut Alone)?;
    let nodes = match &result.outcome {
        Outcome::Complete(tree) => Some((count_open(&tree.nodes), tree.nodes.len())),
        _ => None,
    };
    Ok(Some((result.found.as_slice().len(), nodes)))
}

// Whether a source finds two sectors by four sequences, the same where its budget is four, and not all where it is less.
fn has_four(alloc: Global, map: &MapOfGroups, source: u16) -> Result<bool, Memory>
    requires { AreFacesOf map.now.plan map.now.faces }
{
    let full = walk_of(alloc, map, source, Budget::Full)?;
    let enough = walk_of(alloc, map, source, Budget::Of(4))?;
    let less = walk_of(alloc, map, source, Budget::Of(3))?;
    let one = walk_of(alloc, map, source, Budget::Of(1))?;
    Ok(
        matches!(full, Some((2, Some((4, _)))))
            && enough == full
            && matches!(less, Some((_, None)))
            && matches!(one, Some((1, None))),
    )
}

// Whether this holds of each of three sources.
fn have_four(alloc: Global, map: &MapOfGroups) -> Result<bool, Memory>
    requires { AreFacesOf map.now.plan map.now.faces }
{
    Ok(has_four(alloc, map, 0)? && has_four(alloc, map, 1)? && has_four(alloc, map, 2)?)
}

// The same of the worked map of this name. The map is freed before the answer is asked for, at one way out.
fn have_four_in(alloc: Global, name: &str) -> Result<bool, Fail> {
    let map = groups_named(alloc, name)?;
    let told = have_four(alloc, &map);
    drop(map);
    Ok(told?)
}

// Whether source 0 of U finds one sector, and its tree has five nodes, four of them open.
fn is_walk_of_u(alloc: Global) -> Result<bool, Fail> {
    let map = groups_named(alloc, "U")?;
    let told = walk_of(alloc, &map, 0, Budget::Full);
    drop(map);
    Ok(matches!(told?, Some((1, Some((4, 5))))))
}

#[test]
fn each_of_three_rooms_in_a_row_has_four_sequences(rt: HostRuntime) -> Result<(), Fail> {
    assert!(rt; have_four_in(rt.alloc(), "LINE3")? && is_walk_of_u(rt.alloc())?);
    Ok(())
}

// Adds the steps of a walk before its end, of which there are few.
fn push_steps(walker: &mut Walker<'_>, steps: &mut Vec<Step>) -> Result<(), Memory> {
    for _ in 0..100 {
        match walker.next()? {
            Step::End => break,
            step => steps.push(step)?,
        }
    }
    Ok(())
}

// Adds the steps of a walk of a source of a map of groups before its end; none where there is no such source.
fn push_walk(
    alloc: Global,
    map: &MapOfGroups,
    source: u16,
    steps: &mut Vec<Step>,
) -> Result<(), Memory>
    requires { AreFacesOf map.now.plan map.now.faces }
{
    let (plan, mesh, labels) = (&map.plan, &map.faces.mesh, &map.faces.labels);
    if source >= plan.sectors {
        return Ok(());
    }
    let terrain = Terrain::of(alloc, plan, mesh, labels)?;
    let mut walker = Walker::over(alloc, plan, mesh, labels, &terrain, source)?;
    push_steps(&mut walker, steps)
}

// The same of the worked map of this name.
fn push_walk_in(alloc: Global, name: &str, source: u16, steps: &mut Vec<Step>) -> Result<(), Fail> {
    let map = groups_named(alloc, name)?;
    let pushed = push_walk(alloc, &map, source, steps);
    drop(map);
    Ok(pushed?)
}

// Whether the steps enter these triangles, in this order, and no others.
fn enter(steps: &[Step], triangles: &[u16]) -> bool {
    let mut left = triangles;
    for step in steps {
        if let Step::Open { triangle, .. } = step {
            let Some((first, behind)) = left.split_first() else {
                return false;
            };
            if first != triangle {
                return false;
            }
            left = behind;
        }
    }
    left.is_empty()
}

// The ends that show that the last one is stuck of which some are needed.
fn stuck_ends(steps: &[Step]) -> &[u16] {
    let mut ends: &[u16] = &[];
    for step in steps {
        if let Step::Blocked(evidence) = step {
            ends = evidence.ends.get(..evidence.count as usize).unwrap_or(&[]);
        }
    }
    ends
}

// Whether these have the least left end, that of the fifth portal, and a right end, which is the last.
fn are_stuck(ends: &[u16]) -> bool {
    ends.contains(&0) && ends.contains(&4) && ends.last().is_some_and(|end| *end >= 32_768)
}

#[test]
fn a_walk_of_u_stops_where_a_right_end_is_between_two_left_ones(
    rt: HostRuntime,
) -> Result<(), Fail> {
    let mut steps = Vec::new(rt.alloc());
    push_walk_in(rt.alloc(), "U", 0, &mut steps)?;
    // through sector 1 by its triangles; triangles 5 and 6 lie in the block between the rooms, 7 and 8 in sector 2, whose door is the fifth portal
    assert!(rt; steps.len() == 5 && enter(&steps, &[2, 3, 4, 9]));
    // All right ends are (64,64) or (128,64). Of the left ends only that of the first portal, (0,64), and that of the fifth, (192,64),
    // aren't above them. So any stuck ends have these two, and a right one.
    assert!(rt; are_stuck(stuck_ends(&steps)));
    Ok(())
}

/// A map; the table that a build of it makes, or why it makes none; and how many triangles and rays its certificate has.
const TABLES: &str = "\
U | 4400 | 8 | 2
PAIR | 00 | 4 | 1
LONE | 0e | 2 | 0
OPEN | open 0R
ISLAND | 00 | 8 | 0
";

// Whether a build comes to what the row says.
fn is_as_told(alloc: Global, built: &GroupBuilt, row: &str) -> Result<bool, AllocError> {
    let table = bytes_of_digits(alloc, part(row, 1))?;
    let AnyCert::Two(two, _) = &built.cert else {
        return Ok(false);
    };
    Ok(
        built.table.as_bytes() == table.as_slice()
            && built.listed.as_slice().is_empty()
            && two.cert.triangles().len() == number(part(row, 2))
            && two.cert.rays().len() == number(part(row, 3)),
    )
}

// Whether the fault has the row's words.
fn is_said(alloc: Global, fault: &GroupFault, row: &str) -> Result<bool, AllocError> {
    let told = fault.to_string(alloc)?;
    Ok(told.as_str() == part(row, 1))
}

// Whether a build of a map by two workers comes to what the row says.
fn is_built_of<R: Threads + Sync>(
    rt: &R,
    alloc: Global,
    plan: &Plan,
    row: &str,
) -> Result<bool, AllocError> {
    let Ok(()) = audit_lines(alloc, plan) else {
        return Ok(false);
    };
    match build_table(rt, alloc, plan, 2, Ask::Full, &OpenGate) {
        Ok(built) => is_as_told(alloc, &built, row),
        Err(fault) => is_said(alloc, &fault, row),
    }
}

// The same of the row's map.
fn is_built<R: Threads + Sync>(rt: &R, alloc: Global, row: &str) -> Result<bool, Fail> {
    let plan = plan_named(alloc, part(row, 0))?;
    let told = is_built_of(rt, alloc, &plan, row);
    drop(plan);
    Ok(told?)
}

#[test]
fn tables_of_worked_maps_are_as_their_rows_say(rt: HostRuntime) -> Result<(), Fail> {
    for row in TABLES.lines() {
        if !is_built(&rt, rt.alloc(), row)? {
            return Err(row.into());
        }
    }
    Ok(())
}
