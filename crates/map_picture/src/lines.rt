//! The lines of a picture.

ghost use Rattle.std.specs.Prelude.{◌≡◌, ◌<◌, ◌++◌, IfSome, OnOk, length, option_map, slice_index_or};
ghost use Rattle.sight_names.specs.Map.{looked_up, map_of, origin};
ghost use Rattle.sight_names.specs.Plan.{IsPlanLine};
ghost use Rattle.map_picture.specs.Bytes.{line_class, line_text, line_title, sector_words, spelled_picture};
ghost use Rattle.map_picture.specs.Picture.{entry_if, lines_from, line_elements};

use crate::frame::Frame;
use crate::words::{push_count, push_ends, push_path, push_text};
use sight_names::{Line, Plan, Pt};
use std::alloc::AllocError;

/// The point with this number.
pub fn point_at(plan: &Plan, k: u16) -> Pt
    requires { k < length plan.now.points }
    ensures { result ≡ slice_index_or plan.now.points k origin }
{
    plan.place(k)
}

fn class_of(solid: bool) -> &'static str
    ensures { result.now ≡ line_class solid }
{
    if solid { "w" } else { "p" }
}

fn push_side(out: &mut Vec<u8>, word: &str, side: Option<u16>) -> Result<(), AllocError>
    ensures { OnOk result (out.new.items ≡ out.old.items ++ sector_words word.now side) }
{
    match side {
        Some(sector) => push_count(out, word, sector as u64),
        None => Ok(()),
    }
}

#[tactic(auto, unfolding(crate::specs::Bytes::line_title))]
fn push_title(
    out: &mut Vec<u8>,
    i: u64,
    right: Option<u16>,
    left: Option<u16>,
) -> Result<(), AllocError>
    ensures { OnOk result (out.new.items ≡ out.old.items ++ line_title i right left) }
{
    push_count(out, "\"><title>", i)?;
    push_side(out, " front ", right)?;
    push_side(out, " back ", left)?;
    push_text(out, "</title></path>\n")
}

/// The line with this record number.
#[tactic(auto, unfolding(crate::specs::Bytes::line_text))]
fn push_line(
    out: &mut Vec<u8>,
    frame: Frame,
    plan: &Plan,
    i: u64,
    line: &Line,
) -> Result<(), AllocError>
    requires { IsPlanLine plan.now.sectors (length plan.now.points) line.now }
    ensures { OnOk result (out.new.items ≡ out.old.items ++ line_text frame i (looked_up plan.now.points line.now)) }
{
    push_path(out, class_of(line.solid), "L", i)?;
    push_ends(out, frame, point_at(plan, line.a), point_at(plan, line.b))?;
    push_title(out, i, line.right, line.left)
}

/// The record's line, if it has one that is solid or passable as asked.
fn push_entry(
    out: &mut Vec<u8>,
    frame: Frame,
    plan: &Plan,
    solid: bool,
    i: u64,
    entry: &Option<Line>,
) -> Result<(), AllocError>
    requires { IfSome entry.now (IsPlanLine plan.now.sectors (length plan.now.points)) }
    ensures { OnOk result (out.new.items ≡ out.old.items ++ spelled_picture frame (map_of plan.now) (entry_if solid i (option_map (looked_up plan.now.points) entry.now))) }
{
    match entry {
        Some(line) => {
            if line.solid == solid {
                push_line(out, frame, plan, i, line)
            } else {
                Ok(())
            }
        }
        None => Ok(()),
    }
}

/// The solid lines, or the passable ones.
fn push_lines_of(
    out: &mut Vec<u8>,
    frame: Frame,
    plan: &Plan,
    solid: bool,
) -> Result<(), AllocError>
    ensures { OnOk result (out.new.items ≡ out.old.items ++ spelled_picture frame (map_of plan.now) (lines_from solid 0 (map_of plan.now).lines)) }
{
    let lines = plan.lines();
    for (i, entry) in lines.iter().enumerate() {
        push_entry(out, frame, plan, solid, i as u64, entry)?;
    }
    Ok(())
}

/// All lines.
pub fn push_lines(out: &mut Vec<u8>, frame: Frame, plan: &Plan) -> Result<(), AllocError>
    ensures { OnOk result (out.new.items ≡ out.old.items ++ spelled_picture frame (map_of plan.now) (line_elements (map_of plan.now))) }
{
    push_lines_of(out, frame, plan, false)?;
    push_lines_of(out, frame, plan, true)
}
