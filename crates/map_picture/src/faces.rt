//! The faces of a picture: one path for each group of sectors.

ghost use Rattle.std.specs.Prelude.{◌≡◌, ◌<◌, ◌++◌, OnOk, length};
ghost use Rattle.sight_names.specs.Map.{map_of};
ghost use Rattle.sight_names.specs.Mesh.{IsTriangle};
ghost use Rattle.map_picture.specs.Bytes.{face_id, face_title, names_text, path_text, spelled_picture, tint_class, tint_words, triangle_text, triangles_text};
ghost use Rattle.map_picture.specs.Chains.{AreChains};
ghost use Rattle.map_picture.specs.Picture.{faces_from, labelled_with};

use crate::chains::Chains;
use crate::frame::Frame;
use crate::legend::heat_of;
use crate::tint::Tint;
use crate::words::{push_count, push_step, push_text};
use mesh_shape::Mesh;
use sight_names::{Items, Plan, Triangle};
use std::alloc::AllocError;

/// What is to be drawn of the groups: how each is painted, and where its triangles are.
#[derive(Drop)]
pub struct Faces {
    pub tints: Vec<Tint>,
    pub chains: Chains,
}

fn push_class(out: &mut Vec<u8>, tint: Tint) -> Result<(), AllocError>
    ensures { OnOk result (out.new.items ≡ out.old.items ++ tint_class tint) }
{
    match tint {
        Tint::Source => push_text(out, "a"),
        Tint::Clear => push_text(out, "c"),
        Tint::Set => push_text(out, "s"),
        Tint::Target => push_text(out, "b"),
        Tint::Other => push_text(out, "s"),
        Tint::Heat { count, most } => {
            push_count(out, "h", heat_of(u64::from(count), u64::from(most)))
        }
    }
}

/// The path of a group as far as its triangles.
#[tactic(auto, unfolding(crate::specs::Bytes::path_text))]
fn push_begun(out: &mut Vec<u8>, tint: Tint, g: usize) -> Result<(), AllocError>
    ensures { OnOk result (out.new.items ≡ out.old.items ++ path_text (tint_class tint) (face_id g)) }
{
    push_text(out, "<path class=\"")?;
    push_class(out, tint)?;
    push_text(out, "\" id=\"")?;
    push_count(out, "G", g as u64)?;
    push_text(out, "\" d=\"")
}

/// The count, where that is told.
fn push_told(out: &mut Vec<u8>, tint: Tint) -> Result<(), AllocError>
    ensures { OnOk result (out.new.items ≡ out.old.items ++ tint_words tint) }
{
    match tint {
        Tint::Heat { count, most: _ } => push_count(out, " sees ", u64::from(count)),
        _ => Ok(()),
    }
}

#[tactic(auto, unfolding(crate::specs::Bytes::triangle_text))]
pub fn push_triangle(
    out: &mut Vec<u8>,
    frame: Frame,
    plan: &Plan,
    t: Triangle,
) -> Result<(), AllocError>
    requires { IsTriangle (length plan.now.points) t }
    ensures { OnOk result (out.new.items ≡ out.old.items ++ triangle_text frame (map_of plan.now) t) }
{
    push_step(out, frame, "M", plan.place(t.p))?;
    push_step(out, frame, "L", plan.place(t.q))?;
    push_step(out, frame, "L", plan.place(t.r))?;
    push_text(out, "z")
}

/// The triangles of the group with this number, in the order of the mesh.
fn push_triangles(
    out: &mut Vec<u8>,
    frame: Frame,
    plan: &Plan,
    mesh: &Mesh,
    labels: &[Option<u16>],
    chains: &Chains,
    g: usize,
) -> Result<(), AllocError>
    requires points { mesh.now.points ≡ length plan.now.points }
    requires one_each { length labels.now ≡ length mesh.now.triangles }
    requires group { g < length chains.now.first.items }
    requires chains { AreChains labels.now (length chains.now.first.items) chains.now }
    ensures { OnOk result (out.new.items ≡ out.old.items ++ triangles_text frame (map_of plan.now) (labelled_with g mesh.now.triangles labels.now)) }
{
    let triangles = mesh.triangles();
    let mut at = chains.first[g] as usize;
    while at < triangles.len() {
        push_triangle(out, frame, plan, triangles[at])?;
        at = chains.next[at] as usize;
    }
    Ok(())
}

fn push_names(out: &mut Vec<u8>, names: &[u16]) -> Result<(), AllocError>
    ensures { OnOk result (out.new.items ≡ out.old.items ++ names_text names.now) }
{
    for name in names {
        push_count(out, " ", *name as u64)?;
    }
    Ok(())
}

#[tactic(auto, unfolding(crate::specs::Bytes::face_title))]
fn push_title(out: &mut Vec<u8>, tint: Tint, names: &[u16]) -> Result<(), AllocError>
    ensures { OnOk result (out.new.items ≡ out.old.items ++ face_title tint names.now) }
{
    push_text(out, "\"><title>sector")?;
    push_names(out, names)?;
    push_told(out, tint)?;
    push_text(out, "</title></path>\n")
}

/// The faces of all groups.
pub fn push_faces(
    out: &mut Vec<u8>,
    frame: Frame,
    plan: &Plan,
    mesh: &Mesh,
    labels: &[Option<u16>],
    groups: &[Items<u16>],
    faces: &Faces,
) -> Result<(), AllocError>
    requires points { mesh.now.points ≡ length plan.now.points }
    requires one_each { length labels.now ≡ length mesh.now.triangles }
    requires tints { length faces.now.tints.items ≡ length groups.now }
    requires chains { AreChains labels.now (length groups.now) faces.now.chains }
    ensures { OnOk result (out.new.items ≡ out.old.items ++ spelled_picture frame (map_of plan.now) (faces_from mesh.now.triangles labels.now 0 faces.now.tints.items groups.now)) }
{
    for (g, group) in groups.iter().enumerate() {
        let tint = faces.tints[g];
        push_begun(out, tint, g)?;
        push_triangles(out, frame, plan, mesh, labels, &faces.chains, g)?;
        push_title(out, tint, group.as_slice())?;
    }
    Ok(())
}
