//! The grid of a map: its unit is that of the most decimal places that a vertex of a line has.

ghost use Rattle.std.specs.Prelude.{◌≡◌, ◌≤◌, ◌^◌, ◌*ℤ◌, pos};
ghost use Rattle.udmf_map.specs.Grid.{places_of_coordinate as places_in_lem, end_places as end_places_lem, line_places as line_places_lem, places_of_lines as places_of_lem, units as units_lem, is_placed as is_placed_lem, end_off_grid as end_off_grid_lem, line_off_grid as line_off_grid_lem, lines_off_grid};

use crate::blocks::{Linedef, Vertex};
use crate::values::{Coordinate, MOST_PLACES};
use sight_names::FARTHEST;

fn places_in(coordinate: Coordinate) -> u8
    ensures { result ≡ places_in_lem coordinate }
{
    match coordinate {
        Coordinate::Missing | Coordinate::OffGrid => 0,
        Coordinate::At { places, .. } => places,
    }
}

/// The most decimal places of the vertex with this number; none where it isn't there.
fn end_places(vertices: &[Vertex], number: i32) -> u8
    ensures { result ≡ end_places_lem vertices.now number }
{
    if number < 0 {
        return 0;
    }
    match vertices.get(number as usize) {
        Some(vertex) => places_in(vertex.x).max(places_in(vertex.y)),
        None => 0,
    }
}

fn line_places(vertices: &[Vertex], line: &Linedef) -> u8
    ensures { result ≡ line_places_lem vertices.now line.now }
{
    end_places(vertices, line.first).max(end_places(vertices, line.second))
}

/// The most decimal places that a vertex of a line has.
pub fn places_of(vertices: &[Vertex], lines: &[Linedef]) -> u8
    ensures { result ≡ places_of_lem vertices.now lines.now }
{
    let mut most = 0;
    let mut rest = lines;
    while let [line, more @ ..] = rest {
        most = line_places(vertices, line).max(most);
        rest = more;
    }
    most
}

/// So many units, in the unit of some decimal places more.
fn finer(units: i32, more: u8) -> i64
    requires { more ≤ 7 }
    ensures { result ≡ units *ℤ pos (10 ^ more) }
{
    units as i64 * 10i64.pow(more as u32)
}

/// The coordinate in the unit of so many decimal places; None where it isn't on the grid.
pub fn units(places: u8, coordinate: Coordinate) -> Option<i32>
    ensures { result ≡ units_lem places coordinate }
{
    let Coordinate::At { units, places: own } = coordinate else {
        return None;
    };
    if own > places {
        return None;
    }
    let units = finer(units, (places - own).min(MOST_PLACES));
    if units.unsigned_abs() > FARTHEST as u64 {
        return None;
    }
    Some(units as i32)
}

fn is_placed(places: u8, vertex: &Vertex) -> bool
    ensures { result ≡ is_placed_lem places vertex.now }
{
    units(places, vertex.x).is_some() && units(places, vertex.y).is_some()
}

/// The number of a vertex that isn't on the grid; None for one that is, or isn't there.
fn end_off_grid(places: u8, vertices: &[Vertex], number: i32) -> Option<usize>
    ensures { result ≡ end_off_grid_lem places vertices.now number }
{
    if number < 0 {
        return None;
    }
    let vertex = vertices.get(number as usize)?;
    if is_placed(places, vertex) {
        return None;
    }
    Some(number as usize)
}

/// The first vertex of a line that isn't on the grid.
fn line_off_grid(places: u8, vertices: &[Vertex], line: &Linedef) -> Option<usize>
    ensures { result ≡ line_off_grid_lem places vertices.now line.now }
{
    match end_off_grid(places, vertices, line.first) {
        Some(vertex) => Some(vertex),
        None => end_off_grid(places, vertices, line.second),
    }
}

/// The first vertex of lines that isn't on the grid.
pub fn first_off_grid(places: u8, vertices: &[Vertex], lines: &[Linedef]) -> Option<usize>
    ensures { result ≡ lines_off_grid places vertices.now lines.now }
{
    let mut rest = lines;
    while let [line, more @ ..] = rest {
        if let Some(vertex) = line_off_grid(places, vertices, line) {
            return Some(vertex);
        }
        rest = more;
    }
    None
}
