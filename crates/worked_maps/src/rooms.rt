//! Maps of rooms on a lattice whose points are moved a little: rooms that share a sector, walls, doors, open sides and
//! solid rock.

use crate::dice::Dice;
use crate::maps::{NONE, RowLine};
use std::alloc::{AllocError, Global};

/// So many rooms lie side by side.
pub const ACROSS: usize = 4;

/// From one room's middle to the next.
const STEP: i16 = 128;

/// A made map: its lines, its sectors, and for each room by rows the sector, None for rock.
#[derive(Drop)]
pub struct Rooms {
    pub lines: Vec<RowLine>,
    pub sectors: u16,
    pub cells: Vec<Option<u16>>,
}

/// A place on the lattice, before it is moved.
fn at(k: usize) -> i16 {
    match i16::try_from(k) {
        Ok(k) => k.wrapping_mul(STEP),
        Err(_) => 0,
    }
}

/// The place (i, j) of a list by rows of this width.
fn place_of(i: usize, j: usize, width: usize) -> usize {
    j.wrapping_mul(width).wrapping_add(i)
}

/// The lattice's points by rows, each moved a little.
fn lattice(alloc: Global, dice: &mut Dice) -> Result<Vec<(i16, i16)>, AllocError> {
    let mut points = Vec::new(alloc);
    for j in 0..=ACROSS {
        for i in 0..=ACROSS {
            let (x, y) = (dice.jitter(), dice.jitter());
            points.push((at(i).wrapping_add(x), at(j).wrapping_add(y)))?;
        }
    }
    Ok(points)
}

/// A sector for each room, or rock: one room in six.
fn cells_of(alloc: Global, dice: &mut Dice, sectors: u16) -> Result<Vec<Option<u16>>, AllocError> {
    let mut cells = Vec::new(alloc);
    for _ in 0..ACROSS * ACROSS {
        let rock = dice.roll(6) == 0;
        let sector = dice.roll(sectors.max(1) as u64) as u16;
        cells.push(if rock { None } else { Some(sector) })?;
    }
    Ok(cells)
}

/// The sector of room (i, j); beyond the lattice is rock.
fn sector_at(cells: &[Option<u16>], i: usize, j: usize) -> u16 {
    if i >= ACROSS || j >= ACROSS {
        return NONE;
    }
    match cells.get(place_of(i, j, ACROSS)) {
        Some(Some(sector)) => *sector,
        _ => NONE,
    }
}

/// A point so many thirds on the way from one point to another.
fn between(from: (i16, i16), to: (i16, i16), thirds: i16) -> (i16, i16) {
    let part = |a: i16, b: i16| a.wrapping_add(b.wrapping_sub(a).wrapping_mul(thirds) / 3);
    (part(from.0, to.0), part(from.1, to.1))
}

fn add_line(
    lines: &mut Vec<RowLine>,
    from: (i16, i16),
    to: (i16, i16),
    flags: u16,
    right: u16,
    left: u16,
) -> Result<(), AllocError> {
    lines.push((from.0, from.1, to.0, to.1, flags, right, left))?;
    Ok(())
}

/// The wall between two rooms, walked with the one on the right: none between rocks, solid against rock, and between
/// rooms open, solid, or with a door in its middle third.
fn add_wall(
    lines: &mut Vec<RowLine>,
    dice: &mut Dice,
    from: (i16, i16),
    to: (i16, i16),
    right: u16,
    left: u16,
) -> Result<(), AllocError> {
    if right == NONE && left == NONE {
        return Ok(());
    }
    if right == NONE || left == NONE {
        return add_line(lines, from, to, 1, right, left);
    }
    match dice.roll(4) {
        0 => add_line(lines, from, to, 4, right, left),
        1 => add_line(lines, from, to, 1, right, left),
        _ => {
            let (start, end) = (between(from, to, 1), between(from, to, 2));
            add_line(lines, from, start, 1, right, left)?;
            add_line(lines, start, end, 4, right, left)?;
            add_line(lines, end, to, 1, right, left)
        }
    }
}

/// The walls on the west and on the south of place (i, j) of the lattice.
fn add_walls_at(
    lines: &mut Vec<RowLine>,
    dice: &mut Dice,
    points: &[(i16, i16)],
    cells: &[Option<u16>],
    i: usize,
    j: usize,
) -> Result<(), AllocError> {
    let width = ACROSS + 1;
    let Some(here) = points.get(place_of(i, j, width)) else {
        return Ok(());
    };
    let room = sector_at(cells, i, j);
    if j < ACROSS {
        if let Some(north) = points.get(place_of(i, j.wrapping_add(1), width)) {
            let west = sector_at(cells, i.wrapping_sub(1), j);
            add_wall(lines, dice, *here, *north, room, west)?;
        }
    }
    if i < ACROSS {
        if let Some(east) = points.get(place_of(i.wrapping_add(1), j, width)) {
            let south = sector_at(cells, i, j.wrapping_sub(1));
            add_wall(lines, dice, *here, *east, south, room)?;
        }
    }
    Ok(())
}

/// A made map of this seed.
pub fn made_rooms(alloc: Global, seed: u64) -> Result<Rooms, AllocError> {
    let mut dice = Dice::new(seed);
    let sectors = dice.roll(12) as u16 + 4;
    let points = lattice(alloc, &mut dice)?;
    let cells = cells_of(alloc, &mut dice, sectors)?;
    let mut lines = Vec::new(alloc);
    for j in 0..=ACROSS {
        for i in 0..=ACROSS {
            add_walls_at(&mut lines, &mut dice, &points, &cells, i, j)?;
        }
    }
    Ok(Rooms {
        lines,
        sectors,
        cells,
    })
}

/// A point in a room that isn't rock, and the room's sector.
pub fn inside(made: &Rooms, dice: &mut Dice) -> Option<((i16, i16), u16)> {
    let (i, j) = (
        dice.roll(ACROSS as u64) as usize,
        dice.roll(ACROSS as u64) as usize,
    );
    let sector = sector_at(&made.cells, i, j);
    if sector == NONE {
        return None;
    }
    let (x, y) = (dice.jitter().wrapping_mul(3), dice.jitter().wrapping_mul(3));
    let middle = STEP / 2;
    let at = (
        at(i).wrapping_add(middle).wrapping_add(x),
        at(j).wrapping_add(middle).wrapping_add(y),
    );
    Some((at, sector))
}

/// Twice the area of the triangle, positive where it is counterclockwise.
fn area(a: (i16, i16), b: (i16, i16), c: (i16, i16)) -> i64 {
    let wide = |n: i16| n as i64;
    let (x, y) = (
        wide(b.0).wrapping_sub(wide(a.0)),
        wide(b.1).wrapping_sub(wide(a.1)),
    );
    let (u, v) = (
        wide(c.0).wrapping_sub(wide(a.0)),
        wide(c.1).wrapping_sub(wide(a.1)),
    );
    x.wrapping_mul(v).wrapping_sub(y.wrapping_mul(u))
}

/// Whether both points lie strictly on one side of the line through the others.
fn is_beside(a: (i16, i16), b: (i16, i16), p: (i16, i16), q: (i16, i16)) -> bool {
    let (one, other) = (area(a, b, p), area(a, b, q));
    one > 0 && other > 0 || one < 0 && other < 0
}

/// Whether the segment keeps clear of each solid line: one of the two lies strictly beside the other. It may say no of a
/// segment that misses them all.
pub fn is_clear(lines: &[RowLine], p: (i16, i16), q: (i16, i16)) -> bool {
    for (x, y, u, v, flags, _, _) in lines {
        let (a, b) = ((*x, *y), (*u, *v));
        if *flags == 1 && !is_beside(a, b, p, q) && !is_beside(p, q, a, b) {
            return false;
        }
    }
    true
}
