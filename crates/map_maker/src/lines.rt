//! The lines of a made map.

ghost use Rattle.std.specs.Prelude.{◌≡◌, ◌≤◌, ◌<◌, ◌-◌, ◌++◌, ◌∷◌, [], OnOk, IfOk};
ghost use Rattle.map_maker.specs.Lines.{at_place, line_between, wall_lines, room_sector, east_sector, north_sector, room_lines, east_lines, north_lines, part_lines, row, rows, lines_of};

use std::alloc::{AllocError, Global};

/// A point of the map.
#[derive(Clone, Copy, PartialEq, Eq, Hash)]
pub struct Spot {
    pub x: usize,
    pub y: usize,
}

/// A line with the sector on its right, and the one on its left where there is one.
#[derive(Clone, Copy)]
pub struct Line {
    pub from: Spot,
    pub to: Spot,
    pub right: usize,
    pub left: Option<usize>,
}

// What the lines belong to: rooms, corridors that run east, corridors that run north.
#[derive(Clone, Copy)]
enum Part {
    Room,
    East,
    North,
}

fn at(x: usize, y: usize) -> Spot
    ensures { result ≡ at_place x y }
{
    Spot { x, y }
}

fn push_line(
    lines: &mut Vec<Line>,
    from: Spot,
    to: Spot,
    right: usize,
    left: Option<usize>,
) -> Result<(), AllocError>
    ensures { OnOk result (lines.new.items ≡ lines.old.items ++ line_between from to right left ∷ []) }
{
    lines.push(Line {
        from,
        to,
        right,
        left,
    })?;
    Ok(())
}

// A wall of a room, from its first corner over the ends of a corridor's mouth to its second corner.
fn push_wall(
    lines: &mut Vec<Line>,
    corners: (Spot, Spot),
    mouth: (Spot, Spot),
    room: usize,
    corridor: Option<usize>,
) -> Result<(), AllocError>
    ensures { OnOk result (lines.new.items ≡ lines.old.items ++ wall_lines corners.0 mouth.0 mouth.1 corners.1 room corridor) }
{
    match corridor {
        None => push_line(lines, corners.0, corners.1, room, None),
        Some(corridor) => {
            push_line(lines, corners.0, mouth.0, room, None)?;
            push_line(lines, mouth.0, mouth.1, room, Some(corridor))?;
            push_line(lines, mouth.1, corners.1, room, None)
        }
    }
}

#[tactic(auto, using(crate::proofs::Small::products))]
fn room_number(n: usize, i: usize, j: usize) -> usize
    requires side { n ≤ 18 }
    requires column { i ≤ 18 }
    requires row { j ≤ 18 }
    ensures { result ≡ room_sector n i j }
{
    j * n + i
}

#[tactic(auto, using(crate::proofs::Small::products))]
fn east_number(n: usize, i: usize, j: usize) -> usize
    requires some { 1 ≤ n }
    requires side { n ≤ 18 }
    requires column { i ≤ 18 }
    requires row { j ≤ 18 }
    ensures { result ≡ east_sector n i j }
{
    n * n + j * (n - 1) + i
}

#[tactic(auto, using(crate::proofs::Small::products))]
fn north_number(n: usize, i: usize, j: usize) -> usize
    requires some { 1 ≤ n }
    requires side { n ≤ 18 }
    requires column { i ≤ 18 }
    requires row { j ≤ 18 }
    ensures { result ≡ north_sector n i j }
{
    n * n + n * (n - 1) + j * n + i
}

fn push_room(lines: &mut Vec<Line>, n: usize, i: usize, j: usize) -> Result<(), AllocError>
    requires side { n ≤ 18 }
    requires column { i < n }
    requires row { j < n }
    ensures { OnOk result (lines.new.items ≡ lines.old.items ++ room_lines n i j) }
{
    let (x, y) = (192 * i, 192 * j);
    let room = room_number(n, i, j);
    let west = if i == 0 {
        None
    } else {
        Some(east_number(n, i - 1, j))
    };
    let north = if j + 1 == n {
        None
    } else {
        Some(north_number(n, i, j))
    };
    let east = if i + 1 == n {
        None
    } else {
        Some(east_number(n, i, j))
    };
    let south = if j == 0 {
        None
    } else {
        Some(north_number(n, i, j - 1))
    };
    let (low_left, high_left) = (at(x, y), at(x, y + 128));
    let (low_right, high_right) = (at(x + 128, y), at(x + 128, y + 128));
    push_wall(
        lines,
        (low_left, high_left),
        (at(x, y + 48), at(x, y + 80)),
        room,
        west,
    )?;
    push_wall(
        lines,
        (high_left, high_right),
        (at(x + 48, y + 128), at(x + 80, y + 128)),
        room,
        north,
    )?;
    push_wall(
        lines,
        (high_right, low_right),
        (at(x + 128, y + 80), at(x + 128, y + 48)),
        room,
        east,
    )?;
    push_wall(
        lines,
        (low_right, low_left),
        (at(x + 80, y), at(x + 48, y)),
        room,
        south,
    )
}

fn push_east(lines: &mut Vec<Line>, n: usize, i: usize, j: usize) -> Result<(), AllocError>
    requires side { n ≤ 18 }
    requires column { i < n }
    requires row { j < n }
    ensures { OnOk result (lines.new.items ≡ lines.old.items ++ east_lines n i j) }
{
    let (x, y) = (192 * i, 192 * j);
    let corridor = east_number(n, i, j);
    push_line(
        lines,
        at(x + 128, y + 80),
        at(x + 192, y + 80),
        corridor,
        None,
    )?;
    push_line(
        lines,
        at(x + 192, y + 48),
        at(x + 128, y + 48),
        corridor,
        None,
    )
}

fn push_north(lines: &mut Vec<Line>, n: usize, i: usize, j: usize) -> Result<(), AllocError>
    requires side { n ≤ 18 }
    requires column { i < n }
    requires row { j < n }
    ensures { OnOk result (lines.new.items ≡ lines.old.items ++ north_lines n i j) }
{
    let (x, y) = (192 * i, 192 * j);
    let corridor = north_number(n, i, j);
    push_line(
        lines,
        at(x + 48, y + 128),
        at(x + 48, y + 192),
        corridor,
        None,
    )?;
    push_line(
        lines,
        at(x + 80, y + 192),
        at(x + 80, y + 128),
        corridor,
        None,
    )
}

fn push_part(
    lines: &mut Vec<Line>,
    part: Part,
    n: usize,
    i: usize,
    j: usize,
) -> Result<(), AllocError>
    requires side { n ≤ 18 }
    requires column { i < n }
    requires row { j < n }
    ensures { OnOk result (lines.new.items ≡ lines.old.items ++ part_lines part n i j) }
{
    match part {
        Part::Room => push_room(lines, n, i, j),
        Part::East => push_east(lines, n, i, j),
        Part::North => push_north(lines, n, i, j),
    }
}

fn push_row(
    lines: &mut Vec<Line>,
    part: Part,
    n: usize,
    width: usize,
    j: usize,
) -> Result<(), AllocError>
    requires side { n ≤ 18 }
    requires width { width ≤ n }
    requires row { j < n }
    ensures { OnOk result (lines.new.items ≡ lines.old.items ++ row (part_lines part n) width j) }
{
    for i in 0..width {
        push_part(lines, part, n, i, j)?;
    }
    Ok(())
}

fn push_rows(
    lines: &mut Vec<Line>,
    part: Part,
    n: usize,
    width: usize,
    height: usize,
) -> Result<(), AllocError>
    requires side { n ≤ 18 }
    requires width { width ≤ n }
    requires height { height ≤ n }
    ensures { OnOk result (lines.new.items ≡ lines.old.items ++ rows (part_lines part n) width height) }
{
    for j in 0..height {
        push_row(lines, part, n, width, j)?;
    }
    Ok(())
}

/// The lines of the map of `n` times `n` rooms: of the rooms, of the corridors that run east, of those that run
/// north, each row by row.
#[tactic(auto, unfolding(crate::specs::Lines::lines_of))]
pub fn lines(alloc: Global, n: usize) -> Result<Vec<Line>, AllocError>
    requires some { 1 ≤ n }
    requires side { n ≤ 18 }
    ensures { IfOk result (λ v. v.items ≡ lines_of n) }
{
    let mut lines = Vec::new(alloc);
    push_rows(&mut lines, Part::Room, n, n, n)?;
    push_rows(&mut lines, Part::East, n, n - 1, n)?;
    push_rows(&mut lines, Part::North, n, n, n - 1)?;
    Ok(lines)
}
