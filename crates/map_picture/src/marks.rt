//! The marks of a picture.

ghost use Rattle.std.specs.Prelude.{◌≡◌, ◌++◌, IfSome, OnOk, length, option_map};
ghost use Rattle.sight_names.specs.Map.{looked_up, map_of};
ghost use Rattle.sight_names.specs.Plan.{IsPlanLine};
ghost use Rattle.map_picture.specs.Bytes.{mark_over, mark_text, mark_texts, marked_text};

use crate::frame::Frame;
use crate::lines::point_at;
use crate::words::{push_ends, push_named_path, push_text};
use sight_names::{Line, Plan};
use std::alloc::AllocError;

/// A mark over the line, if there is one.
fn push_over(
    out: &mut Vec<u8>,
    frame: Frame,
    plan: &Plan,
    entry: Option<Line>,
) -> Result<(), AllocError>
    requires { IfSome entry (IsPlanLine plan.now.sectors (length plan.now.points)) }
    ensures { OnOk result (out.new.items ≡ out.old.items ++ mark_over frame (option_map (looked_up plan.now.points) entry)) }
{
    match entry {
        Some(line) => push_ends(out, frame, point_at(plan, line.a), point_at(plan, line.b)),
        None => Ok(()),
    }
}

/// A mark over the line with this record number, if there is one.
fn push_mark(out: &mut Vec<u8>, frame: Frame, plan: &Plan, i: u16) -> Result<(), AllocError>
    ensures { OnOk result (out.new.items ≡ out.old.items ++ mark_text frame (map_of plan.now) i) }
{
    push_over(out, frame, plan, plan.line(i))
}

fn push_each_mark(
    out: &mut Vec<u8>,
    frame: Frame,
    plan: &Plan,
    marks: &[u16],
) -> Result<(), AllocError>
    ensures { OnOk result (out.new.items ≡ out.old.items ++ mark_texts frame (map_of plan.now) marks.now) }
{
    for i in marks {
        push_mark(out, frame, plan, *i)?;
    }
    Ok(())
}

/// Marks over the lines with these record numbers.
#[tactic(auto, unfolding(crate::specs::Bytes::marked_text))]
pub fn push_marks(
    out: &mut Vec<u8>,
    frame: Frame,
    plan: &Plan,
    marks: &[u16],
) -> Result<(), AllocError>
    ensures { OnOk result (out.new.items ≡ out.old.items ++ marked_text frame (map_of plan.now) marks.now) }
{
    push_named_path(out, "k", "fault")?;
    push_each_mark(out, frame, plan, marks)?;
    push_text(out, "\"/>\n")
}
