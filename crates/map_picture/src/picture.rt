//! The pictures.

ghost use Rattle.std.specs.Prelude.{◌≡◌, ◌<◌, ◌++◌, All, IfOk, OnOk, length};
ghost use Rattle.sight_names.specs.Map.{map_of};
ghost use Rattle.map_picture.specs.Bytes.{arrow_texts, fault_texts, spelled_picture, svg_of};
ghost use Rattle.map_picture.specs.declared.sheet.Subject.TheVariants as subject;
ghost use Rattle.map_picture.specs.Picture.{JoinsSectors, faces_from, pair_faces as the_pair_faces, pair_rings, sheet_of, blind_picture as the_blind_picture, heat_picture as the_heat_picture, marked_picture as the_marked_picture, pair_picture as the_pair_picture, plan_picture as the_plan_picture, row_picture as the_row_picture, sight_picture as the_sight_picture};

use crate::arrows::{Arrow, push_arrows};
use crate::chains::chains_of;
use crate::faces::{Faces, push_faces};
use crate::faults::{FaultAt, push_faults};
use crate::frame::{Frame, frame_of, sizes_of};
use crate::legend::push_legend;
use crate::lines::push_lines;
use crate::marks::push_marks;
use crate::named::Named;
use crate::pair::{Stop, push_entered, push_sight, push_stops};
use crate::rings::{Letter, push_ring_of};
use crate::sheet::{Subject, push_foot, push_sheet};
use crate::tint::{Tint, heat_tints, most_of, pair_tints, plan_tints, row_tints};
use mesh_shape::{Labels, Mesh};
use reject_bits::Table;
use sight_names::{Items, Memory, Pair, Plan, Ray};
use std::alloc::{AllocError, Global};

/// A picture as far as its faces, with these tints.
fn ground(
    alloc: Global,
    frame: Frame,
    name: &Named<'_>,
    about: Subject,
    plan: &Plan,
    mesh: &Mesh,
    labels: &Labels,
    groups: &[Items<u16>],
    tints: Vec<Tint>,
) -> Result<Vec<u8>, Memory>
    requires points { mesh.now.points ≡ length plan.now.points }
    requires one_each { length labels.now ≡ length mesh.now.triangles }
    requires tints { length tints.items ≡ length groups.now }
    ensures { IfOk result (λ v. v.items ≡ spelled_picture frame (map_of plan.now) (sheet_of name.now about ++ faces_from mesh.now.triangles labels.now 0 tints.items groups.now)) }
{
    let _ = mesh.triangles();
    let chains = chains_of(alloc, labels.as_slice(), groups.len())?;
    let faces = Faces { tints, chains };
    let mut out = Vec::new(alloc);
    push_sheet(&mut out, frame, name, about)?;
    push_faces(
        &mut out,
        frame,
        plan,
        mesh,
        labels.as_slice(),
        groups,
        &faces,
    )?;
    Ok(out)
}

/// The plan alone.
pub fn plan_picture(
    alloc: Global,
    name: &Named<'_>,
    plan: &Plan,
    mesh: &Mesh,
    labels: &Labels,
    groups: &[Items<u16>],
) -> Result<Vec<u8>, Memory>
    requires points { mesh.now.points ≡ length plan.now.points }
    requires one_each { length labels.now ≡ length mesh.now.triangles }
    ensures { IfOk result (λ v. v.items ≡ svg_of (map_of plan.now) (the_plan_picture name.now (map_of plan.now) groups.now mesh.now.triangles labels.now)) }
{
    let frame = frame_of(plan.points());
    let tints = plan_tints(alloc, groups)?;
    let mut out = ground(
        alloc,
        frame,
        name,
        Subject::Plan,
        plan,
        mesh,
        labels,
        groups,
        tints,
    )?;
    push_lines(&mut out, frame, plan)?;
    push_foot(&mut out)?;
    Ok(out)
}

/// A ring for each of these that is at one point, its title in map units.
fn push_named_faults(
    out: &mut Vec<u8>,
    frame: Frame,
    name: &Named<'_>,
    faults: &[FaultAt],
) -> Result<(), AllocError>
    ensures { OnOk result (out.new.items ≡ out.old.items ++ fault_texts frame name.now.places faults.now) }
{
    push_faults(out, frame, name.places, faults)
}

/// The arrows, their titles in map units.
fn push_named_arrows(
    out: &mut Vec<u8>,
    frame: Frame,
    name: &Named<'_>,
    plan: &Plan,
    arrows: &[Arrow],
) -> Result<(), AllocError>
    ensures { OnOk result (out.new.items ≡ out.old.items ++ arrow_texts frame name.now.places plan.now.points arrows.now) }
{
    push_arrows(out, frame, name.places, plan, arrows)
}

/// The plan, with marks over the lines with these record numbers, rings round points at fault, and arrows. So many clashes are left
/// out.
pub fn marked_picture(
    alloc: Global,
    name: &Named<'_>,
    plan: &Plan,
    left_out: u64,
    marks: &[u16],
    faults: &[FaultAt],
    arrows: &[Arrow],
) -> Result<Vec<u8>, Memory>
    ensures { IfOk result (λ v. v.items ≡ svg_of (map_of plan.now) (the_marked_picture name.now (map_of plan.now) left_out marks.now faults.now arrows.now)) }
{
    let frame = frame_of(plan.points());
    let mut out = Vec::new(alloc);
    push_sheet(&mut out, frame, name, Subject::Faults(left_out))?;
    push_lines(&mut out, frame, plan)?;
    push_marks(&mut out, frame, plan, marks)?;
    push_named_faults(&mut out, frame, name, faults)?;
    push_named_arrows(&mut out, frame, name, plan, arrows)?;
    push_foot(&mut out)?;
    Ok(out)
}

/// The plan, with each face painted as the table's row of sector `a` has the sectors of its group.
pub fn row_picture(
    alloc: Global,
    name: &Named<'_>,
    plan: &Plan,
    mesh: &Mesh,
    labels: &Labels,
    groups: &[Items<u16>],
    table: &Table,
    a: u16,
) -> Result<Vec<u8>, Memory>
    requires points { mesh.now.points ≡ length plan.now.points }
    requires one_each { length labels.now ≡ length mesh.now.triangles }
    requires row { a < table.now.n }
    requires names { All (All (λ b. b < table.now.n)) groups.now }
    ensures { IfOk result (λ v. v.items ≡ svg_of (map_of plan.now) (the_row_picture name.now (map_of plan.now) groups.now mesh.now.triangles labels.now table.now a)) }
{
    let frame = frame_of(plan.points());
    let tints = row_tints(alloc, groups, table, a)?;
    let mut out = ground(
        alloc,
        frame,
        name,
        Subject::Row(a),
        plan,
        mesh,
        labels,
        groups,
        tints,
    )?;
    push_lines(&mut out, frame, plan)?;
    push_ring_of(
        &mut out,
        frame,
        plan,
        mesh,
        labels.as_slice(),
        groups,
        Letter::A,
        a,
    )?;
    push_foot(&mut out)?;
    Ok(out)
}

/// The plan, with each face painted by its group's count.
pub fn heat_picture(
    alloc: Global,
    name: &Named<'_>,
    plan: &Plan,
    mesh: &Mesh,
    labels: &Labels,
    groups: &[Items<u16>],
    counts: &[u16],
) -> Result<Vec<u8>, Memory>
    requires points { mesh.now.points ≡ length plan.now.points }
    requires one_each { length labels.now ≡ length mesh.now.triangles }
    requires counts { length counts.now ≡ length groups.now }
    ensures { IfOk result (λ v. v.items ≡ svg_of (map_of plan.now) (the_heat_picture name.now (map_of plan.now) groups.now mesh.now.triangles labels.now counts.now)) }
{
    let frame = frame_of(plan.points());
    let most = most_of(counts);
    let tints = heat_tints(alloc, counts, most)?;
    let mut out = ground(
        alloc,
        frame,
        name,
        Subject::Heat,
        plan,
        mesh,
        labels,
        groups,
        tints,
    )?;
    push_lines(&mut out, frame, plan)?;
    push_legend(&mut out, sizes_of(frame), most as u64)?;
    push_foot(&mut out)?;
    Ok(out)
}

/// A picture of a pair as far as its faces.
fn pair_ground(
    alloc: Global,
    frame: Frame,
    name: &Named<'_>,
    plan: &Plan,
    mesh: &Mesh,
    labels: &Labels,
    groups: &[Items<u16>],
    pair: Pair,
) -> Result<Vec<u8>, Memory>
    requires points { mesh.now.points ≡ length plan.now.points }
    requires one_each { length labels.now ≡ length mesh.now.triangles }
    ensures { IfOk result (λ v. v.items ≡ spelled_picture frame (map_of plan.now) (sheet_of name.now (subject.Pair pair.a pair.b) ++ the_pair_faces groups.now mesh.now.triangles labels.now pair.a pair.b)) }
{
    let about = Subject::Pair {
        a: pair.a,
        b: pair.b,
    };
    let tints = pair_tints(alloc, groups, pair.a, pair.b)?;
    ground(alloc, frame, name, about, plan, mesh, labels, groups, tints)
}

/// A ring for each of the two.
fn push_rings(
    out: &mut Vec<u8>,
    frame: Frame,
    plan: &Plan,
    mesh: &Mesh,
    labels: &Labels,
    groups: &[Items<u16>],
    pair: Pair,
) -> Result<(), AllocError>
    requires points { mesh.now.points ≡ length plan.now.points }
    requires one_each { length labels.now ≡ length mesh.now.triangles }
    ensures { OnOk result (out.new.items ≡ out.old.items ++ spelled_picture frame (map_of plan.now) (pair_rings (map_of plan.now) groups.now mesh.now.triangles labels.now pair.a pair.b)) }
{
    let labels = labels.as_slice();
    push_ring_of(out, frame, plan, mesh, labels, groups, Letter::A, pair.a)?;
    push_ring_of(out, frame, plan, mesh, labels, groups, Letter::B, pair.b)
}

/// The plan with the faces of two sectors.
pub fn pair_picture(
    alloc: Global,
    name: &Named<'_>,
    plan: &Plan,
    mesh: &Mesh,
    labels: &Labels,
    groups: &[Items<u16>],
    pair: Pair,
) -> Result<Vec<u8>, Memory>
    requires points { mesh.now.points ≡ length plan.now.points }
    requires one_each { length labels.now ≡ length mesh.now.triangles }
    ensures { IfOk result (λ v. v.items ≡ svg_of (map_of plan.now) (the_pair_picture name.now (map_of plan.now) groups.now mesh.now.triangles labels.now pair.a pair.b)) }
{
    let frame = frame_of(plan.points());
    let mut out = pair_ground(alloc, frame, name, plan, mesh, labels, groups, pair)?;
    push_lines(&mut out, frame, plan)?;
    push_rings(&mut out, frame, plan, mesh, labels, groups, pair)?;
    push_foot(&mut out)?;
    Ok(out)
}

/// The plan with the faces of two sectors that see each other, and with the ray along which they do.
pub fn sight_picture(
    alloc: Global,
    name: &Named<'_>,
    plan: &Plan,
    mesh: &Mesh,
    labels: &Labels,
    groups: &[Items<u16>],
    pair: Pair,
    ray: &Ray,
) -> Result<Vec<u8>, Memory>
    requires points { mesh.now.points ≡ length plan.now.points }
    requires one_each { length labels.now ≡ length mesh.now.triangles }
    requires sight { JoinsSectors (map_of plan.now) ray.now }
    ensures { IfOk result (λ v. v.items ≡ svg_of (map_of plan.now) (the_sight_picture name.now (map_of plan.now) groups.now mesh.now.triangles labels.now pair.a pair.b ray.now)) }
{
    let frame = frame_of(plan.points());
    let mut out = pair_ground(alloc, frame, name, plan, mesh, labels, groups, pair)?;
    push_lines(&mut out, frame, plan)?;
    push_sight(&mut out, frame, plan, ray)?;
    push_rings(&mut out, frame, plan, mesh, labels, groups, pair)?;
    push_foot(&mut out)?;
    Ok(out)
}

/// The plan with the faces of two sectors that don't see each other: the triangles with the numbers in `entered`, which sight out
/// of this sector enters, and the segments at which it ends. The caller knows which these are.
pub fn blind_picture(
    alloc: Global,
    name: &Named<'_>,
    plan: &Plan,
    mesh: &Mesh,
    labels: &Labels,
    groups: &[Items<u16>],
    pair: Pair,
    sector: u16,
    entered: &[u16],
    stops: &[Stop],
) -> Result<Vec<u8>, Memory>
    requires points { mesh.now.points ≡ length plan.now.points }
    requires one_each { length labels.now ≡ length mesh.now.triangles }
    requires entered { All (λ k. k < length mesh.now.triangles) entered.now }
    requires from { All (λ s. s.from < length plan.now.points) stops.now }
    requires to { All (λ s. s.to < length plan.now.points) stops.now }
    ensures { IfOk result (λ v. v.items ≡ svg_of (map_of plan.now) (the_blind_picture name.now (map_of plan.now) groups.now mesh.now.triangles labels.now pair.a pair.b sector entered.now stops.now)) }
{
    let frame = frame_of(plan.points());
    let mut out = pair_ground(alloc, frame, name, plan, mesh, labels, groups, pair)?;
    push_entered(&mut out, frame, plan, mesh, sector, entered)?;
    push_lines(&mut out, frame, plan)?;
    push_stops(&mut out, frame, plan, stops)?;
    push_rings(&mut out, frame, plan, mesh, labels, groups, pair)?;
    push_foot(&mut out)?;
    Ok(out)
}
