//! The records of the lumps, little-endian.

ghost use Rattle.std.specs.Prelude.{◌≡◌, ◌≢◌, ◌+◌, ◌*◌, ◌/◌, ◌^◌, ◌<◌, ◌≤◌, nat_abs, ◌==◌, ◌||◌, not, is_none, None, Some, IfOk, length, map, option_map};
ghost use Rattle.std.specs.Int.{bit_at};
ghost use Rattle.sight_names.specs.declared.limits.TheConstants.{LARGE_LINES};
ghost use Rattle.sight_names.specs.Lumps.{u16_at, i16_at, i32_at, vertex as vertex_lem, vertex_len as vertex_len_lem, side_sector as side_sector_lem, linedef, linedef_len as linedef_len_lem, count_linedefs as count_linedefs_lem, line_fault, numbers_below};
ghost use Rattle.sight_names.specs.declared.names.MapFormat.TheVariants.{Doom, Text};
ghost use Rattle.sight_names.specs.Near.{near};
ghost use Rattle.map_lumps.specs.Records.{linedef_at, linedef_from as linedef_from_lem, as_map_line, AllSound};

use sight_names::{FARTHEST, MapFormat, Pt};
use std::alloc::{AllocError, Global};

/// Bytes of a record of each lump, and of LINEDEFS in each format.
const DOOM_LINEDEF_LEN: usize = 14;

const HEXEN_LINEDEF_LEN: usize = 16;

pub const SIDEDEF_LEN: usize = 30;

/// Bytes of a VERTEXES record, in the formats of a game and of what a text spells.
const GAME_VERTEX_LEN: usize = 4;

const TEXT_VERTEX_LEN: usize = 8;

pub const SECTOR_LEN: usize = 26;

/// A side number that names none.
pub const NO_SIDE: u16 = 0xFFFF;

/// The flag of a line that one can look through.
const TWO_SIDED: u16 = 4;

/// The numbers of a LINEDEFS record, but for what the line does in the game.
#[derive(Clone, Copy)]
pub struct Linedef {
    pub first: u16,
    pub second: u16,
    pub flags: u16,
    pub right: u16,
    pub left: u16,
}

/// A line with its ends as coordinates, and the sectors of its sides.
#[derive(Clone, Copy)]
pub struct PlacedLine {
    pub first: Pt,
    pub second: Pt,
    pub solid: bool,
    pub right: Option<u16>,
    pub left: Option<u16>,
}

/// The unsigned number at this byte.
pub fn number(bytes: &[u8], at: usize) -> u16
    requires { at + 2 ≤ length bytes.now }
    ensures { result ≡ u16_at bytes.now at }
{
    let two = &bytes[at..at + 2];
    u16::from_le_bytes([two[0], two[1]])
}

/// The signed number at this byte.
fn coordinate(bytes: &[u8], at: usize) -> i32
    requires { at + 2 ≤ length bytes.now }
    ensures value { result ≡ i16_at bytes.now at }
    ensures near { nat_abs result ≤ 2 ^ 25 }
{
    number(bytes, at).cast_signed() as i32
}

/// The signed number of 32 bits at this byte, 0 in place of one that is farther from 0 than a coordinate may be.
// the reader of a text spells no other
fn wide_coordinate(bytes: &[u8], at: usize) -> i32
    requires { at + 4 ≤ length bytes.now }
    ensures value { result ≡ near (i32_at bytes.now at) }
    ensures near { nat_abs result ≤ 2 ^ 25 }
{
    let four = &bytes[at..at + 4];
    let number = i32::from_le_bytes([four[0], four[1], four[2], four[3]]);
    if number.unsigned_abs() > FARTHEST {
        return 0;
    }
    number
}

/// How many bytes a VERTEXES record has.
pub fn vertex_len(format: MapFormat) -> usize
    ensures len { result ≡ vertex_len_lem format }
    ensures some { 1 ≤ result }
{
    match format {
        MapFormat::Doom | MapFormat::Hexen => GAME_VERTEX_LEN,
        MapFormat::Text => TEXT_VERTEX_LEN,
    }
}

/// The coordinates of a vertex of a game's formats.
fn game_vertex(vertexes: &[u8], k: u16) -> Pt
    requires { k < length vertexes.now / 4 }
    ensures { result ≡ vertex_lem Doom vertexes.now k }
{
    let at = GAME_VERTEX_LEN * k as usize;
    Pt {
        x: coordinate(vertexes, at),
        y: coordinate(vertexes, at + 2),
    }
}

/// The coordinates of a vertex that a text spells.
fn text_vertex(vertexes: &[u8], k: u16) -> Pt
    requires { k < length vertexes.now / 8 }
    ensures { result ≡ vertex_lem Text vertexes.now k }
{
    let at = TEXT_VERTEX_LEN * k as usize;
    Pt {
        x: wide_coordinate(vertexes, at),
        y: wide_coordinate(vertexes, at + 4),
    }
}

/// The coordinates of a vertex.
fn vertex(format: MapFormat, vertexes: &[u8], k: u16) -> Pt
    requires { k < length vertexes.now / vertex_len_lem format }
    ensures { result ≡ vertex_lem format vertexes.now k }
{
    match format {
        MapFormat::Doom | MapFormat::Hexen => game_vertex(vertexes, k),
        MapFormat::Text => text_vertex(vertexes, k),
    }
}

/// The sector of a side, None where the number names no side.
fn side_sector(sidedefs: &[u8], side: u16) -> Option<u16>
    requires { side ≢ 65535 → side < length sidedefs.now / 30 }
    ensures { result ≡ side_sector_lem sidedefs.now side }
{
    if side == NO_SIDE {
        return None;
    }
    Some(number(sidedefs, SIDEDEF_LEN * side as usize + 28))
}

/// How many bytes a LINEDEFS record has.
pub fn linedef_len(format: MapFormat) -> usize
    ensures len { result ≡ linedef_len_lem format }
    ensures some { 1 ≤ result }
{
    match format {
        MapFormat::Doom | MapFormat::Text => DOOM_LINEDEF_LEN,
        MapFormat::Hexen => HEXEN_LINEDEF_LEN,
    }
}

/// How many LINEDEFS records there are.
pub fn count_linedefs(format: MapFormat, linedefs: &[u8]) -> usize
    ensures { result ≡ count_linedefs_lem format linedefs.now }
{
    linedefs.len() / linedef_len(format)
}

/// The numbers of the LINEDEFS record at this byte, whose right side stands so many bytes behind, with the left one behind it.
fn linedef_from(linedefs: &[u8], at: usize, right: usize) -> Linedef
    requires within { at + right + 4 ≤ length linedefs.now }
    requires behind { 6 ≤ right }
    ensures { result ≡ linedef_from_lem linedefs.now at right }
{
    Linedef {
        first: number(linedefs, at),
        second: number(linedefs, at + 2),
        flags: number(linedefs, at + 4),
        right: number(linedefs, at + right),
        left: number(linedefs, at + right + 2),
    }
}

/// The numbers of a LINEDEFS record.
pub fn read_linedef(format: MapFormat, linedefs: &[u8], k: u16) -> Linedef
    requires { k < count_linedefs_lem format linedefs.now }
    ensures { result ≡ linedef_at format linedefs.now k }
{
    match format {
        MapFormat::Doom | MapFormat::Text => {
            linedef_from(linedefs, DOOM_LINEDEF_LEN * k as usize, 10)
        }
        MapFormat::Hexen => linedef_from(linedefs, HEXEN_LINEDEF_LEN * k as usize, 12),
    }
}

/// Whether nothing is seen through a line with these flags and sides.
fn is_solid(flags: u16, right: Option<u16>, left: Option<u16>) -> bool
    ensures { result ≡ (not (bit_at flags 2 == 1) || is_none right || is_none left) }
{
    !is_two_sided(flags) || right.is_none() || left.is_none()
}

/// Whether the two-sided flag is set.
fn is_two_sided(flags: u16) -> bool
    ensures { result ≡ (bit_at flags 2 == 1) }
{
    flags & TWO_SIDED != 0
}

/// The line of a sound record, None where it has zero length.
fn placed_line(
    format: MapFormat,
    linedefs: &[u8],
    sidedefs: &[u8],
    vertexes: &[u8],
    sectors: &[u8],
    k: u16,
) -> Option<PlacedLine>
    requires within { k < count_linedefs_lem format linedefs.now }
    requires sound { line_fault format linedefs.now sidedefs.now vertexes.now sectors.now k ≡ None }
    ensures { option_map as_map_line result ≡ linedef format linedefs.now sidedefs.now vertexes.now k }
{
    let record = read_linedef(format, linedefs, k);
    let first = vertex(format, vertexes, record.first);
    let second = vertex(format, vertexes, record.second);
    if first == second {
        return None;
    }
    let right = side_sector(sidedefs, record.right);
    let left = side_sector(sidedefs, record.left);
    let solid = is_solid(record.flags, right, left);
    Some(PlacedLine {
        first,
        second,
        solid,
        right,
        left,
    })
}

/// The lines of all records, in order.
pub fn placed_lines(
    alloc: Global,
    format: MapFormat,
    linedefs: &[u8],
    sidedefs: &[u8],
    vertexes: &[u8],
    sectors: &[u8],
) -> Result<Vec<Option<PlacedLine>>, AllocError>
    requires few { count_linedefs_lem format linedefs.now ≤ LARGE_LINES }
    requires sound { AllSound format linedefs.now sidedefs.now vertexes.now sectors.now }
    ensures { IfOk result (λ lines. map (option_map as_map_line) lines.items ≡ map (linedef format linedefs.now sidedefs.now vertexes.now) (numbers_below (count_linedefs_lem format linedefs.now))) }
{
    let mut lines = Vec::new(alloc);
    for k in 0..count_linedefs(format, linedefs) {
        lines.push(placed_line(format, linedefs, sidedefs, vertexes, sectors, k as u16))?;
    }
    Ok(lines)
}
