//! Rings that show where a sector is.

ghost use Rattle.std.specs.Prelude.{◌≡◌, ◌<◌, ◌≤◌, ◌^◌, ◌++◌, IfSome, None, OnOk, Some, if◌then◌else◌, length};
ghost use Rattle.geom_exact.specs.Formulas.{turn_of};
ghost use Rattle.sight_names.specs.Map.{map_of};
ghost use Rattle.sight_names.specs.Mesh.{IsTriangle};
ghost use Rattle.map_picture.specs.Bytes.{circle_text, letter_text, middle_across as the_middle_across, middle_down as the_middle_down, middle_of as the_middle_of, ring_shape, ring_text, ring_title, spelled_picture};
ghost use Rattle.map_picture.specs.Picture.{doubled_area as the_doubled_area, is_of as the_is_of, larger as the_larger, largest_of as the_largest_of, ring_at, ring_of};

use crate::frame::{Frame, across, down, sizes_of};
use crate::words::{push_count, push_text, push_written};
use geom_exact::turn;
use mesh_shape::Mesh;
use sight_names::{Items, Plan, Triangle};
use std::alloc::AllocError;

/// What a ring is called.
#[derive(Clone, Copy)]
pub enum Letter {
    /// The sector from which is looked.
    A,
    /// The other one of a pair.
    B,
}

fn word_of(letter: Letter) -> &'static str
    ensures { result.now ≡ letter_text letter }
{
    match letter {
        Letter::A => "A",
        Letter::B => "B",
    }
}

/// Whether a triangle with this label is one of the sector.
fn is_of(groups: &[Items<u16>], sector: u16, label: Option<u16>) -> bool
    ensures { result ≡ the_is_of groups.now sector label }
{
    match label {
        Some(group) => match groups.get(group as usize) {
            Some(names) => names.as_slice().contains(&sector),
            None => false,
        },
        None => false,
    }
}

fn doubled_area(plan: &Plan, t: Triangle) -> i64
    requires { IsTriangle (length plan.now.points) t }
    ensures { result ≡ the_doubled_area (map_of plan.now) t }
{
    turn(plan.place(t.p), plan.place(t.q), plan.place(t.r))
}

/// The larger of two triangles, the first one where they are as large.
fn larger(plan: &Plan, best: Option<Triangle>, t: Triangle) -> Triangle
    requires best { IfSome best (IsTriangle (length plan.now.points)) }
    requires other { IsTriangle (length plan.now.points) t }
    ensures larger { result ≡ the_larger (map_of plan.now) best t }
    ensures triangle { IsTriangle (length plan.now.points) result }
{
    match best {
        Some(best) => {
            if doubled_area(plan, best) < doubled_area(plan, t) {
                t
            } else {
                best
            }
        }
        None => t,
    }
}

/// The best triangle so far, when this one with its label was looked at too.
fn looked_at(
    plan: &Plan,
    groups: &[Items<u16>],
    sector: u16,
    best: Option<Triangle>,
    t: Triangle,
    label: Option<u16>,
) -> Option<Triangle>
    requires best { IfSome best (IsTriangle (length plan.now.points)) }
    requires other { IsTriangle (length plan.now.points) t }
    ensures best { result ≡ (if the_is_of groups.now sector label then Some (the_larger (map_of plan.now) best t) else best) }
    ensures triangle { IfSome result (IsTriangle (length plan.now.points)) }
{
    if is_of(groups, sector, label) {
        Some(larger(plan, best, t))
    } else {
        best
    }
}

/// The largest triangle of the sector, if it has one.
fn largest_of(
    plan: &Plan,
    mesh: &Mesh,
    labels: &[Option<u16>],
    groups: &[Items<u16>],
    sector: u16,
) -> Option<Triangle>
    requires points { mesh.now.points ≡ length plan.now.points }
    requires one_each { length labels.now ≡ length mesh.now.triangles }
    ensures largest { result ≡ the_largest_of (map_of plan.now) groups.now sector None mesh.now.triangles labels.now }
    ensures triangle { IfSome result (IsTriangle (length plan.now.points)) }
{
    let triangles = mesh.triangles();
    let mut best = None;
    for (k, label) in labels.iter().enumerate() {
        best = looked_at(plan, groups, sector, best, triangles[k], *label);
    }
    best
}

fn middle_of(p: u64, q: u64, r: u64) -> u64
    requires p { p < 2 ^ 32 }
    requires q { q < 2 ^ 32 }
    requires r { r < 2 ^ 32 }
    ensures { result ≡ the_middle_of p q r }
{
    (p + q + r) / 3
}

/// How far the middle of the triangle is from the left edge.
fn middle_across(frame: Frame, plan: &Plan, t: Triangle) -> u64
    requires { IsTriangle (length plan.now.points) t }
    ensures { result ≡ the_middle_across frame (map_of plan.now) t }
{
    middle_of(
        across(frame, plan.place(t.p)),
        across(frame, plan.place(t.q)),
        across(frame, plan.place(t.r)),
    )
}

/// How far it is below the upper edge.
fn middle_down(frame: Frame, plan: &Plan, t: Triangle) -> u64
    requires { IsTriangle (length plan.now.points) t }
    ensures { result ≡ the_middle_down frame (map_of plan.now) t }
{
    middle_of(
        down(frame, plan.place(t.p)),
        down(frame, plan.place(t.q)),
        down(frame, plan.place(t.r)),
    )
}

#[tactic(auto, unfolding(crate::specs::Bytes::circle_text))]
/// A circle, and what stands before it, as far as the end of its radius.
pub fn push_circle(
    out: &mut Vec<u8>,
    class: &str,
    x: u64,
    y: u64,
    radius: u64,
) -> Result<(), AllocError>
    ensures { OnOk result (out.new.items ≡ out.old.items ++ circle_text class.now x y radius) }
{
    push_text(out, class)?;
    push_count(out, "\" cx=\"", x)?;
    push_count(out, "\" cy=\"", y)?;
    push_count(out, "\" r=\"", radius)
}

/// Two circles, and the letter beside them.
#[tactic(auto, unfolding(crate::specs::Bytes::ring_shape))]
fn push_shape(out: &mut Vec<u8>, word: &str, x: u64, y: u64, margin: u64) -> Result<(), AllocError>
    ensures { OnOk result (out.new.items ≡ out.old.items ++ ring_shape word.now x y margin) }
{
    push_circle(out, "<circle class=\"i", x, y, margin)?;
    push_circle(out, "\"/><circle class=\"o", x, y, margin)?;
    push_written(out, "\"/>", x, y, "\" dx=\"1em\" dy=\"-.5em\">")?;
    push_text(out, word)?;
    push_text(out, "</text></g>\n")
}

#[tactic(auto, unfolding(crate::specs::Bytes::ring_title))]
fn push_title(out: &mut Vec<u8>, word: &str, sector: u16) -> Result<(), AllocError>
    ensures { OnOk result (out.new.items ≡ out.old.items ++ ring_title word.now sector) }
{
    push_text(out, "<g><title>")?;
    push_text(out, word)?;
    push_count(out, ": sector ", sector as u64)?;
    push_text(out, "</title>")
}

/// A ring in the middle of the triangle.
fn push_ring(
    out: &mut Vec<u8>,
    frame: Frame,
    plan: &Plan,
    letter: Letter,
    sector: u16,
    t: Triangle,
) -> Result<(), AllocError>
    requires { IsTriangle (length plan.now.points) t }
    ensures { OnOk result (out.new.items ≡ out.old.items ++ ring_text frame (map_of plan.now) letter sector t) }
{
    let word = word_of(letter);
    let x = middle_across(frame, plan, t);
    let y = middle_down(frame, plan, t);
    push_title(out, word, sector)?;
    push_shape(out, word, x, y, sizes_of(frame).margin)
}

/// .. if there is one.
fn push_ring_at(
    out: &mut Vec<u8>,
    frame: Frame,
    plan: &Plan,
    letter: Letter,
    sector: u16,
    found: Option<Triangle>,
) -> Result<(), AllocError>
    requires { IfSome found (IsTriangle (length plan.now.points)) }
    ensures { OnOk result (out.new.items ≡ out.old.items ++ spelled_picture frame (map_of plan.now) (ring_at letter sector found)) }
{
    match found {
        Some(t) => push_ring(out, frame, plan, letter, sector, t),
        None => Ok(()),
    }
}

/// A ring in the largest triangle of the sector, if it has one.
pub fn push_ring_of(
    out: &mut Vec<u8>,
    frame: Frame,
    plan: &Plan,
    mesh: &Mesh,
    labels: &[Option<u16>],
    groups: &[Items<u16>],
    letter: Letter,
    sector: u16,
) -> Result<(), AllocError>
    requires points { mesh.now.points ≡ length plan.now.points }
    requires one_each { length labels.now ≡ length mesh.now.triangles }
    ensures { OnOk result (out.new.items ≡ out.old.items ++ spelled_picture frame (map_of plan.now) (ring_of (map_of plan.now) groups.now mesh.now.triangles labels.now letter sector)) }
{
    let found = largest_of(plan, mesh, labels, groups, sector);
    push_ring_at(out, frame, plan, letter, sector, found)
}
