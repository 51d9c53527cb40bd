//! The records of a made map.

ghost use Rattle.std.specs.Prelude.{◌≡◌, ◌≤◌, ◌+◌, ◌*◌, ◌^◌, ◌++◌, OnOk, IfOk, replicate};
ghost use Rattle.map_maker.specs.Lumps.{short, linedef, linedefs_from, sidedef, sidedefs_of, vertexes_of, side_count, flags_of, left_side_number, left_sidedef};

use crate::lines::{Line, Spot};
use crate::points::place;
use byteorder::{ByteOrder, LittleEndian};
use indexmap::IndexSet;
use std::alloc::{AllocError, Global};

const TEXTURE: [u8; 8] = *b"-\0\0\0\0\0\0\0";

fn push_short(out: &mut Vec<u8>, n: usize) -> Result<(), AllocError>
    ensures { OnOk result (out.new.items ≡ out.old.items ++ short n) }
{
    let mut bytes = [0; 2];
    LittleEndian::write_u16(&mut bytes, (n % 65_536) as u16);
    out.extend_from_slice(&bytes)
}

fn flags(left: Option<usize>) -> usize
    ensures { result ≡ flags_of left }
{
    match left {
        None => 1,
        Some(_) => 4,
    }
}

fn sides(left: Option<usize>) -> usize
    ensures count { result ≡ side_count left }
    ensures few { result ≤ 2 }
{
    match left {
        None => 1,
        Some(_) => 2,
    }
}

fn left_number(side: usize, left: Option<usize>) -> usize
    requires { side ≤ 2 ^ 62 }
    ensures { result ≡ left_side_number side left }
{
    match left {
        None => 65_535,
        Some(_) => side + 1,
    }
}

#[tactic(auto, unfolding(crate::specs::Lumps::linedef))]
fn push_linedef(
    out: &mut Vec<u8>,
    points: &IndexSet<Spot>,
    side: usize,
    line: &Line,
) -> Result<(), AllocError>
    requires { side ≤ 2 ^ 62 }
    ensures { OnOk result (out.new.items ≡ out.old.items ++ linedef points.now.keys side line.now) }
{
    push_short(out, place(points, line.from))?;
    push_short(out, place(points, line.to))?;
    push_short(out, flags(line.left))?;
    push_short(out, 0)?;
    push_short(out, 0)?;
    push_short(out, side)?;
    push_short(out, left_number(side, line.left))
}

/// The records of the lines, whose sides are numbered in their order.
pub fn linedefs(
    alloc: Global,
    points: &IndexSet<Spot>,
    lines: &[Line],
) -> Result<Vec<u8>, AllocError>
    ensures { IfOk result (λ v. v.items ≡ linedefs_from points.now.keys 0 lines.now) }
{
    let mut out = Vec::new(alloc);
    let mut side = 0;
    for line in lines {
        push_linedef(&mut out, points, side, line)?;
        side += sides(line.left);
    }
    Ok(out)
}

#[tactic(auto, unfolding(crate::specs::Lumps::sidedef))]
fn push_sidedef(out: &mut Vec<u8>, sector: usize) -> Result<(), AllocError>
    ensures { OnOk result (out.new.items ≡ out.old.items ++ sidedef sector) }
{
    push_short(out, 0)?;
    push_short(out, 0)?;
    out.extend_from_slice(&TEXTURE)?;
    out.extend_from_slice(&TEXTURE)?;
    out.extend_from_slice(&TEXTURE)?;
    push_short(out, sector)
}

fn push_left(out: &mut Vec<u8>, left: Option<usize>) -> Result<(), AllocError>
    ensures { OnOk result (out.new.items ≡ out.old.items ++ left_sidedef left) }
{
    match left {
        None => Ok(()),
        Some(sector) => push_sidedef(out, sector),
    }
}

fn push_sides(out: &mut Vec<u8>, line: &Line) -> Result<(), AllocError>
    ensures { OnOk result (out.new.items ≡ out.old.items ++ (sidedef line.now.right ++ left_sidedef line.now.left)) }
{
    push_sidedef(out, line.right)?;
    push_left(out, line.left)
}

/// The records of the sides, in the order of the lines, the right side first.
pub fn sidedefs(alloc: Global, lines: &[Line]) -> Result<Vec<u8>, AllocError>
    ensures { IfOk result (λ v. v.items ≡ sidedefs_of lines.now) }
{
    let mut out = Vec::new(alloc);
    for line in lines {
        push_sides(&mut out, line)?;
    }
    Ok(out)
}

fn push_vertex(out: &mut Vec<u8>, point: Spot) -> Result<(), AllocError>
    ensures { OnOk result (out.new.items ≡ out.old.items ++ (short point.x ++ short point.y)) }
{
    push_short(out, point.x)?;
    push_short(out, point.y)
}

/// The records of the points.
pub fn vertexes(alloc: Global, points: &[Spot]) -> Result<Vec<u8>, AllocError>
    ensures { IfOk result (λ v. v.items ≡ vertexes_of points.now) }
{
    let mut out = Vec::new(alloc);
    for point in points {
        push_vertex(&mut out, *point)?;
    }
    Ok(out)
}

/// So many zero bytes.
pub fn zeros(alloc: Global, len: usize) -> Result<Vec<u8>, AllocError>
    ensures { IfOk result (λ v. v.items ≡ replicate len 0) }
{
    vec![in alloc; 0; len]
}
