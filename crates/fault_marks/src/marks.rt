//! What a picture of a map's faults marks.

ghost use Rattle.std.specs.Prelude.{◌≡◌, ◌++◌, ◌∷◌, All, IfOk, OnOk, length, map, slice_get, []};
ghost use Rattle.sight_names.specs.Map.{map_of};
ghost use Rattle.sight_names.specs.Mesh.{IsMeshOf, IsPlainMesh};
ghost use Rattle.sight_names.specs.Sound.{LinesMeetAtEnds};
ghost use Rattle.mesh_shape.specs.Fills.{FillsSides};
ghost use Rattle.map_faults.specs.Clashes.{IsClash};
ghost use Rattle.fault_marks.specs.Marks.{AreClashesAt, AreOfClashes, AreOfOpenFaces, IsClashAt, faults_of as the_faults_of, lines_of_pairs as the_lines_of_pairs, loose_at as the_loose_at, torn_at as the_torn_at};

use crate::arrows::arrows_of;
use map_faults::{
    LinePair, LooseEnd, Tear, clashes_of, fault_of, in_order, loose_ends_of, meeting_of,
    open_sides_of, tears_of,
};
use map_picture::{Arrow, FaultAt, PointFault};
use mesh_shape::Mesh;
use sight_names::{Items, Memory, Plan, Pt, Side};
use std::alloc::{AllocError, Global};
use triangulate::greedy_mesh;

/// How many clashes are left out, the lines that are marked, the points round which there are rings, and the arrows.
#[derive(Drop)]
pub struct FaultMarks {
    pub left_out: u64,
    pub lines: Items<u16>,
    pub faults: Items<FaultAt>,
    pub arrows: Items<Arrow>,
}

// ---- lines that clash

fn add_pair(lines: &mut Vec<u16>, pair: LinePair) -> Result<(), AllocError>
    ensures { OnOk result (lines.new.items ≡ lines.old.items ++ (pair.i ∷ pair.j ∷ [])) }
{
    lines.extend_from_slice(&[pair.i, pair.j])
}

/// The two lines of each pair.
fn lines_of_pairs(alloc: Global, pairs: &[LinePair]) -> Result<Vec<u16>, Memory>
    ensures { IfOk result (λ v. v.items ≡ the_lines_of_pairs pairs.now) }
{
    let mut lines = Vec::new(alloc);
    for pair in pairs {
        add_pair(&mut lines, *pair)?;
    }
    Ok(lines)
}

/// What clashes, and where the two lines meet.
fn clash_at(plan: &Plan, pair: LinePair) -> FaultAt
    requires { IsClash (map_of plan.now) pair }
    ensures { IsClashAt (map_of plan.now) pair result }
{
    match fault_of(plan, pair.i, pair.j) {
        Some(fault) => FaultAt {
            fault: PointFault::Clash(fault),
            at: meeting_of(plan, pair.i, pair.j),
        },
        // lines that clash aren't fine
        None => unreachable!(),
    }
}

/// The same of each pair.
fn clashes_at(alloc: Global, plan: &Plan, pairs: &[LinePair]) -> Result<Vec<FaultAt>, Memory>
    requires { All (IsClash (map_of plan.now)) pairs.now }
    ensures { IfOk result (λ v. AreClashesAt (map_of plan.now) pairs.now v.items) }
{
    let mut faults = Vec::new(alloc);
    for pair in pairs {
        faults.push(clash_at(plan, *pair))?;
    }
    Ok(faults)
}

/// The first clashes of a map.
pub fn marks_of_clashes(alloc: Global, plan: &Plan) -> Result<FaultMarks, Memory>
    ensures { IfOk result (AreOfClashes (map_of plan.now)) }
{
    let clashes = clashes_of(alloc, plan)?;
    let pairs = clashes.first.as_slice();
    let lines = lines_of_pairs(alloc, pairs)?;
    let faults = clashes_at(alloc, plan, pairs)?;
    Ok(FaultMarks {
        left_out: clashes.count - pairs.len() as u64,
        lines: Items::of(in_order(lines)),
        faults: Items::of(faults),
        arrows: Items::of(Vec::new(alloc)),
    })
}

// ---- open faces

fn lines_of_sides(alloc: Global, sides: &[Side]) -> Result<Vec<u16>, Memory>
    ensures { IfOk result (λ v. v.items ≡ map (λ s. s.line) sides.now) }
{
    let mut lines = Vec::with_capacity(alloc, sides.len())?;
    for side in sides {
        lines.push(side.line)?;
    }
    Ok(lines)
}

fn points_of_tears(alloc: Global, tears: &[Tear]) -> Result<Vec<u16>, Memory>
    ensures { IfOk result (λ v. v.items ≡ map (λ t. t.point) tears.now) }
{
    let mut points = Vec::with_capacity(alloc, tears.len())?;
    for tear in tears {
        points.push(tear.point)?;
    }
    Ok(points)
}

/// The point with this number, if there is one.
fn point_of(plan: &Plan, k: u16) -> Option<Pt>
    ensures { result ≡ slice_get plan.now.points k }
{
    match plan.points().get(k as usize) {
        Some(p) => Some(*p),
        None => None,
    }
}

fn torn_at(plan: &Plan, k: u16) -> FaultAt
    ensures { result ≡ the_torn_at plan.now k }
{
    FaultAt {
        fault: PointFault::Torn,
        at: point_of(plan, k),
    }
}

fn loose_at(plan: &Plan, end: LooseEnd) -> FaultAt
    ensures { result ≡ the_loose_at plan.now end }
{
    FaultAt {
        fault: PointFault::Loose(end.line),
        at: point_of(plan, end.point),
    }
}

fn add_torn(faults: &mut Vec<FaultAt>, plan: &Plan, corners: &[u16]) -> Result<(), Memory>
    ensures { OnOk result (faults.new.items ≡ faults.old.items ++ map (the_torn_at plan.now) corners.now) }
{
    for k in corners {
        faults.push(torn_at(plan, *k))?;
    }
    Ok(())
}

fn add_loose(faults: &mut Vec<FaultAt>, plan: &Plan, ends: &[LooseEnd]) -> Result<(), Memory>
    ensures { OnOk result (faults.new.items ≡ faults.old.items ++ map (the_loose_at plan.now) ends.now) }
{
    for end in ends {
        faults.push(loose_at(plan, *end))?;
    }
    Ok(())
}

/// The torn corners, and behind them the loose ends.
fn faults_of(
    alloc: Global,
    plan: &Plan,
    corners: &[u16],
    ends: &[LooseEnd],
) -> Result<Vec<FaultAt>, Memory>
    ensures { IfOk result (λ v. v.items ≡ the_faults_of plan.now corners.now ends.now) }
{
    let mut faults = Vec::new(alloc);
    add_torn(&mut faults, plan, corners)?;
    add_loose(&mut faults, plan, ends)?;
    Ok(faults)
}

/// What is open, over this mesh of the map.
fn marks_over(alloc: Global, plan: &Plan, mesh: &Mesh) -> Result<FaultMarks, Memory>
    requires mesh { IsMeshOf (map_of plan.now) mesh.now.triangles }
    requires plain { IsPlainMesh (map_of plan.now) mesh.now.triangles }
    requires fills { FillsSides (map_of plan.now) mesh.now.triangles }
    ensures { IfOk result (AreOfOpenFaces (map_of plan.now)) }
{
    let _ = plan.points();
    let sides = open_sides_of(alloc, plan, mesh)?;
    let lines = lines_of_sides(alloc, sides.as_slice())?;
    let tears = tears_of(alloc, plan, mesh)?;
    let arrows = arrows_of(alloc, plan, mesh, tears.as_slice())?;
    let points = points_of_tears(alloc, tears.as_slice())?;
    let corners = in_order(points);
    let ends = loose_ends_of(alloc, plan)?;
    let faults = faults_of(alloc, plan, corners.as_slice(), ends.as_slice())?;
    Ok(FaultMarks {
        left_out: 0,
        lines: Items::of(in_order(lines)),
        faults: Items::of(faults),
        arrows: Items::of(arrows),
    })
}

/// What is open of a map whose lines meet at ends.
pub fn marks_of_open_faces(alloc: Global, plan: &Plan) -> Result<FaultMarks, Memory>
    requires { LinesMeetAtEnds (map_of plan.now) }
    ensures { IfOk result (AreOfOpenFaces (map_of plan.now)) }
{
    let mesh = greedy_mesh(alloc, plan)?;
    marks_over(alloc, plan, &mesh)
}
