//! Arrows round torn corners.

ghost use Rattle.std.specs.Prelude.{◌≡◌, ◌<◌, ◌++◌, ◌^◌, OnOk, slice_index_or};
ghost use Rattle.sight_names.specs.Map.{origin};
ghost use Rattle.map_picture.specs.Bytes.{arrow_shape, arrow_text, arrow_texts, arrow_title, base_text, corners_in, half_way as the_half_way, past_half as the_past_half, tip_text, whole_text};

use crate::faults::push_place;
use crate::frame::{Frame, across, down};
use crate::words::{push_count, push_text};
use sight_names::{Plan, Pt};
use std::alloc::AllocError;

/// An arrow through the triangle of three points, by their numbers: over its edge between `from` and `point`, to the middle of that
/// between `point` and `to`.
#[derive(Clone, Copy)]
pub struct Arrow {
    pub from: u16,
    pub point: u16,
    pub to: u16,
}

/// The three points.
#[derive(Clone, Copy)]
pub struct Corners {
    pub from: Pt,
    pub point: Pt,
    pub to: Pt,
}

/// The point with this number; the origin where there is none.
fn spot_of(plan: &Plan, k: u16) -> Pt
    ensures { result ≡ slice_index_or plan.now.points k origin }
{
    match plan.points().get(k as usize) {
        Some(p) => *p,
        None => Pt { x: 0, y: 0 },
    }
}

fn corners_of(plan: &Plan, arrow: Arrow) -> Corners
    ensures { result ≡ corners_in plan.now.points arrow }
{
    Corners {
        from: spot_of(plan, arrow.from),
        point: spot_of(plan, arrow.point),
        to: spot_of(plan, arrow.to),
    }
}

fn half_way(x: u64, y: u64) -> u64
    requires from { x < 2 ^ 32 }
    requires to { y < 2 ^ 32 }
    ensures { result ≡ the_half_way x y }
{
    (x + y) / 2
}

/// Five eighths of the way.
fn past_half(x: u64, y: u64) -> u64
    requires from { x < 2 ^ 32 }
    requires to { y < 2 ^ 32 }
    ensures { result ≡ the_past_half x y }
{
    (3 * x + 5 * y) / 8
}

#[tactic(auto, unfolding(crate::specs::Bytes::whole_text))]
fn push_whole(out: &mut Vec<u8>, word: &str, x: u64, y: u64) -> Result<(), AllocError>
    ensures { OnOk result (out.new.items ≡ out.old.items ++ whole_text word.now x y) }
{
    push_count(out, word, x)?;
    push_count(out, " ", y)
}

/// A word, and the place behind the middle of the way from one point to the other.
fn push_base(out: &mut Vec<u8>, frame: Frame, word: &str, p: Pt, q: Pt) -> Result<(), AllocError>
    ensures { OnOk result (out.new.items ≡ out.old.items ++ base_text frame word.now p q) }
{
    let x = past_half(across(frame, p), across(frame, q));
    let y = past_half(down(frame, p), down(frame, q));
    push_whole(out, word, x, y)
}

/// A straight line to the middle between two points.
fn push_tip(out: &mut Vec<u8>, frame: Frame, p: Pt, q: Pt) -> Result<(), AllocError>
    ensures { OnOk result (out.new.items ≡ out.old.items ++ tip_text frame p q) }
{
    let x = half_way(across(frame, p), across(frame, q));
    let y = half_way(down(frame, p), down(frame, q));
    push_whole(out, "L", x, y)
}

/// Its base on the one edge, its tip on the other.
#[tactic(auto, unfolding(crate::specs::Bytes::arrow_shape))]
fn push_shape(out: &mut Vec<u8>, frame: Frame, corners: Corners) -> Result<(), AllocError>
    ensures { OnOk result (out.new.items ≡ out.old.items ++ arrow_shape frame corners) }
{
    let word = "<path class=\"r\" d=\"M";
    push_base(out, frame, word, corners.from, corners.point)?;
    push_base(out, frame, "L", corners.point, corners.from)?;
    push_tip(out, frame, corners.point, corners.to)
}

/// The torn corner as a title, which ends the path.
#[tactic(auto, unfolding(crate::specs::Bytes::arrow_title))]
fn push_title(out: &mut Vec<u8>, places: u8, at: Pt) -> Result<(), AllocError>
    ensures { OnOk result (out.new.items ≡ out.old.items ++ arrow_title places at) }
{
    push_text(out, "z\"><title>out round the torn corner")?;
    push_place(out, places, at)?;
    push_text(out, "</title></path>\n")
}

#[tactic(auto, unfolding(crate::specs::Bytes::arrow_text))]
fn push_corners(
    out: &mut Vec<u8>,
    frame: Frame,
    places: u8,
    corners: Corners,
) -> Result<(), AllocError>
    ensures { OnOk result (out.new.items ≡ out.old.items ++ arrow_text frame places corners) }
{
    push_shape(out, frame, corners)?;
    push_title(out, places, corners.point)
}

/// The arrows.
pub fn push_arrows(
    out: &mut Vec<u8>,
    frame: Frame,
    places: u8,
    plan: &Plan,
    arrows: &[Arrow],
) -> Result<(), AllocError>
    ensures { OnOk result (out.new.items ≡ out.old.items ++ arrow_texts frame places plan.now.points arrows.now) }
{
    for arrow in arrows {
        push_corners(out, frame, places, corners_of(plan, *arrow))?;
    }
    Ok(())
}
