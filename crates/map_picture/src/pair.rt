//! What a picture shows of a pair of sectors, besides its faces.

ghost use Rattle.std.specs.Prelude.{◌≡◌, ◌<◌, ◌++◌, All, OnOk, length};
ghost use Rattle.sight_names.specs.Map.{looked_up, map_of};
ghost use Rattle.sight_names.specs.Plan.{IsPlanLine};
ghost use Rattle.sight_names.specs.Ray.{IsInRange};
ghost use Rattle.geom_exact.specs.Formulas.{AreOnTwoSides, side_value};
ghost use Rattle.map_picture.specs.Bytes.{coefficient_text, coefficients_text, entered_text, entered_title, ray_title, side_letter, side_text, sides_text, sight_text, spelled_picture, spot_text, stop_text, stop_texts, stops_text, thousandths_text, triangles_text};
ghost use Rattle.map_picture.specs.Crossings.{crossing_spot as the_crossing_spot};
ghost use Rattle.map_picture.specs.Picture.{JoinsSectors, triangles_with_numbers, sight_elements};

use crate::crossings::{Spot, crossing_spot};
use crate::faces::push_triangle;
use crate::frame::Frame;
use crate::lines::point_at;
use crate::words::{push_count, push_ends, push_named_path, push_text};
use itoa::{Buffer, Integer};
use mesh_shape::Mesh;
use sight_names::{Line, Plan, Ray, Side};
use std::alloc::AllocError;

/// A segment at which sight ends, by the numbers of its points.
#[derive(Clone, Copy, PartialEq, Eq, PartialOrd, Ord)]
pub struct Stop {
    pub from: u16,
    pub to: u16,
}

/// The triangles with these numbers.
fn push_numbered(
    out: &mut Vec<u8>,
    frame: Frame,
    plan: &Plan,
    mesh: &Mesh,
    entered: &[u16],
) -> Result<(), AllocError>
    requires points { mesh.now.points ≡ length plan.now.points }
    requires entered { All (λ k. k < length mesh.now.triangles) entered.now }
    ensures { OnOk result (out.new.items ≡ out.old.items ++ triangles_text frame (map_of plan.now) (triangles_with_numbers mesh.now.triangles entered.now)) }
{
    let triangles = mesh.triangles();
    for k in entered {
        push_triangle(out, frame, plan, triangles[*k as usize])?;
    }
    Ok(())
}

/// The title of the triangles that sight out of this sector enters.
#[tactic(auto, unfolding(crate::specs::Bytes::entered_title))]
fn push_entered_title(out: &mut Vec<u8>, sector: u16) -> Result<(), AllocError>
    ensures { OnOk result (out.new.items ≡ out.old.items ++ entered_title sector) }
{
    push_count(out, "\"><title>sight out of sector ", sector as u64)?;
    push_text(out, "</title></path>\n")
}

/// The triangles that sight out of a sector enters.
#[tactic(auto, unfolding(crate::specs::Bytes::entered_text))]
pub fn push_entered(
    out: &mut Vec<u8>,
    frame: Frame,
    plan: &Plan,
    mesh: &Mesh,
    sector: u16,
    entered: &[u16],
) -> Result<(), AllocError>
    requires points { mesh.now.points ≡ length plan.now.points }
    requires entered { All (λ k. k < length mesh.now.triangles) entered.now }
    ensures { OnOk result (out.new.items ≡ out.old.items ++ entered_text frame (map_of plan.now) sector (triangles_with_numbers mesh.now.triangles entered.now)) }
{
    push_named_path(out, "f", "open")?;
    push_numbered(out, frame, plan, mesh, entered)?;
    push_entered_title(out, sector)
}

fn push_stop(out: &mut Vec<u8>, frame: Frame, plan: &Plan, stop: Stop) -> Result<(), AllocError>
    requires from { stop.from < length plan.now.points }
    requires to { stop.to < length plan.now.points }
    ensures { OnOk result (out.new.items ≡ out.old.items ++ stop_text frame (map_of plan.now) stop) }
{
    push_ends(out, frame, plan.place(stop.from), plan.place(stop.to))
}

fn push_each_stop(
    out: &mut Vec<u8>,
    frame: Frame,
    plan: &Plan,
    stops: &[Stop],
) -> Result<(), AllocError>
    requires from { All (λ s. s.from < length plan.now.points) stops.now }
    requires to { All (λ s. s.to < length plan.now.points) stops.now }
    ensures { OnOk result (out.new.items ≡ out.old.items ++ stop_texts frame (map_of plan.now) stops.now) }
{
    for stop in stops {
        push_stop(out, frame, plan, *stop)?;
    }
    Ok(())
}

/// Where the last ways of sight end.
#[tactic(auto, unfolding(crate::specs::Bytes::stops_text))]
pub fn push_stops(
    out: &mut Vec<u8>,
    frame: Frame,
    plan: &Plan,
    stops: &[Stop],
) -> Result<(), AllocError>
    requires from { All (λ s. s.from < length plan.now.points) stops.now }
    requires to { All (λ s. s.to < length plan.now.points) stops.now }
    ensures { OnOk result (out.new.items ≡ out.old.items ++ stops_text frame (map_of plan.now) stops.now) }
{
    push_named_path(out, "k", "stops")?;
    push_each_stop(out, frame, plan, stops)?;
    push_text(out, "\"/>\n")
}

/// A number in decimal.
fn push_integer<I: Integer>(out: &mut Vec<u8>, n: I) -> Result<(), AllocError>
    ensures { OnOk result (out.new.items ≡ out.old.items ++ I.text n) }
{
    let mut buffer = Buffer::new();
    out.extend_from_slice(buffer.format(n).as_bytes())
}

/// So many thousandths, with three digits behind the point.
#[tactic(auto, unfolding(crate::specs::Bytes::thousandths_text))]
fn push_thousandths(out: &mut Vec<u8>, t: u128) -> Result<(), AllocError>
    ensures { OnOk result (out.new.items ≡ out.old.items ++ thousandths_text t) }
{
    push_integer(out, t / 1000)?;
    push_count(out, ".", (t / 100 % 10) as u64)?;
    push_integer(out, t / 10 % 10)?;
    push_integer(out, t % 10)
}

#[tactic(auto, unfolding(crate::specs::Bytes::spot_text))]
fn push_spot(out: &mut Vec<u8>, word: &str, spot: Spot) -> Result<(), AllocError>
    ensures { OnOk result (out.new.items ≡ out.old.items ++ spot_text word.now spot) }
{
    push_text(out, word)?;
    push_thousandths(out, spot.across)?;
    push_text(out, " ")?;
    push_thousandths(out, spot.down)
}

fn letter_of(left: bool) -> &'static str
    ensures { result.now ≡ side_letter left }
{
    if left { "L" } else { "R" }
}

#[tactic(auto, unfolding(crate::specs::Bytes::side_text))]
fn push_side(out: &mut Vec<u8>, word: &str, side: Side) -> Result<(), AllocError>
    ensures { OnOk result (out.new.items ≡ out.old.items ++ side_text word.now side) }
{
    push_count(out, word, side.line as u64)?;
    push_text(out, letter_of(side.left))
}

#[tactic(auto, unfolding(crate::specs::Bytes::sides_text))]
fn push_sides(out: &mut Vec<u8>, ray: &Ray) -> Result<(), AllocError>
    ensures { OnOk result (out.new.items ≡ out.old.items ++ sides_text ray.now) }
{
    push_side(out, "\"><title>", ray.first)?;
    push_side(out, ",", ray.last)
}

#[tactic(auto, unfolding(crate::specs::Bytes::coefficient_text))]
fn push_coefficient(out: &mut Vec<u8>, n: i64) -> Result<(), AllocError>
    ensures { OnOk result (out.new.items ≡ out.old.items ++ coefficient_text n) }
{
    push_text(out, ",")?;
    push_integer(out, n)
}

fn push_factor(out: &mut Vec<u8>, n: i32) -> Result<(), AllocError>
    ensures { OnOk result (out.new.items ≡ out.old.items ++ coefficient_text n) }
{
    push_coefficient(out, n as i64)
}

#[tactic(auto, unfolding(crate::specs::Bytes::coefficients_text))]
fn push_coefficients(out: &mut Vec<u8>, ray: &Ray) -> Result<(), AllocError>
    ensures { OnOk result (out.new.items ≡ out.old.items ++ coefficients_text ray.now) }
{
    push_factor(out, ray.a)?;
    push_factor(out, ray.b)?;
    push_coefficient(out, ray.c)
}

#[tactic(auto, unfolding(crate::specs::Bytes::ray_title))]
fn push_title(out: &mut Vec<u8>, ray: &Ray) -> Result<(), AllocError>
    ensures { OnOk result (out.new.items ≡ out.old.items ++ ray_title ray.now) }
{
    push_sides(out, ray)?;
    push_coefficients(out, ray)?;
    push_text(out, "</title></path>\n")
}

/// Where the ray crosses the line.
fn crossing_on(frame: Frame, plan: &Plan, ray: &Ray, line: &Line) -> Spot
    requires range { IsInRange ray.now }
    requires line { IsPlanLine plan.now.sectors (length plan.now.points) line.now }
    requires sides { AreOnTwoSides (side_value ray.now (looked_up plan.now.points line.now).first) (side_value ray.now (looked_up plan.now.points line.now).second) }
    ensures { result ≡ the_crossing_spot frame ray.now (looked_up plan.now.points line.now).first (looked_up plan.now.points line.now).second }
{
    crossing_spot(frame, ray, point_at(plan, line.a), point_at(plan, line.b))
}

/// The ray between its crossings with two lines.
#[tactic(auto, unfolding(crate::specs::Bytes::sight_text))]
fn push_ray(
    out: &mut Vec<u8>,
    frame: Frame,
    plan: &Plan,
    ray: &Ray,
    first: &Line,
    last: &Line,
) -> Result<(), AllocError>
    requires range { IsInRange ray.now }
    requires first { IsPlanLine plan.now.sectors (length plan.now.points) first.now }
    requires last { IsPlanLine plan.now.sectors (length plan.now.points) last.now }
    requires leaves { AreOnTwoSides (side_value ray.now (looked_up plan.now.points first.now).first) (side_value ray.now (looked_up plan.now.points first.now).second) }
    requires arrives { AreOnTwoSides (side_value ray.now (looked_up plan.now.points last.now).first) (side_value ray.now (looked_up plan.now.points last.now).second) }
    ensures { OnOk result (out.new.items ≡ out.old.items ++ sight_text frame ray.now (looked_up plan.now.points first.now) (looked_up plan.now.points last.now)) }
{
    push_named_path(out, "r", "ray")?;
    push_spot(out, "M", crossing_on(frame, plan, ray, first))?;
    push_spot(out, "L", crossing_on(frame, plan, ray, last))?;
    push_title(out, ray)
}

/// The ray from its first side's line to its last side's.
pub fn push_sight(out: &mut Vec<u8>, frame: Frame, plan: &Plan, ray: &Ray) -> Result<(), AllocError>
    requires { JoinsSectors (map_of plan.now) ray.now }
    ensures { OnOk result (out.new.items ≡ out.old.items ++ spelled_picture frame (map_of plan.now) (sight_elements (map_of plan.now) ray.now)) }
{
    let Some(first) = plan.line(ray.first.line) else {
        return Ok(());
    };
    let Some(last) = plan.line(ray.last.line) else {
        return Ok(());
    };
    push_ray(out, frame, plan, ray, &first, &last)
}
