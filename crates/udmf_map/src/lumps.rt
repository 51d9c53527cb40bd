//! The four lumps of the map that a text spells, in Doom's format but for VERTEXES, whose coordinates have 32 bits.

ghost use Rattle.std.specs.Prelude.{◌≡◌, ◌*◌, IfOk, flat_map, replicate};
ghost use Rattle.udmf_map.specs.Reading.{AnswersText, read_of};
ghost use Rattle.udmf_map.specs.Lumps.{number as number_lem, side_number_in_lump as side_number_lem, flags as flags_lem, linedef_bytes, sidedef_bytes, placed as placed_lem, vertex_bytes, lump_bytes, lumps_of as lumps_of_lem, lumps_of_text as lumps_of_text_lem, places_told};

use crate::blocks::{Linedef, Vertex};
use crate::checks::records_fault;
use crate::faults::TextFault;
use crate::grid::{places_of, units};
use crate::reading::{Records, read_text};
use crate::values::Coordinate;
use sight_names::Memory;
use std::alloc::{AllocError, Global};

/// The bytes of LINEDEFS, SIDEDEFS, VERTEXES and SECTORS.
#[derive(Drop)]
pub struct FourLumps {
    pub linedefs: Vec<u8>,
    pub sidedefs: Vec<u8>,
    pub vertexes: Vec<u8>,
    pub sectors: Vec<u8>,
}

const SECTOR_LEN: usize = 26;

/// The number of a vertex or a sector; 65,535 for one that is out of range.
fn number(n: i32) -> u16
    ensures { result ≡ number_lem n }
{
    if n < 0 || n > 65_534 {
        return 65_535;
    }
    n as u16
}

/// The number of a side; 65,535 for none, and 65,534 for one that is out of range.
fn side_number(n: i32) -> u16
    ensures { result ≡ side_number_lem n }
{
    if n == -1 {
        return 65_535;
    }
    if n < 0 || n > 65_533 {
        return 65_534;
    }
    n as u16
}

fn flags(line: &Linedef) -> u16
    ensures { result ≡ flags_lem line.now }
{
    let two_sided = if line.two_sided { 4 } else { 0 };
    let blocks_sound = if line.blocks_sound { 64 } else { 0 };
    two_sided + blocks_sound
}

#[tactic(auto, unfolding(crate::specs::Lumps::linedef_bytes))]
fn linedef_record(line: &Linedef) -> [u8; 14]
    ensures { result ≡ linedef_bytes line.now }
{
    let [first, first_high] = number(line.first).to_le_bytes();
    let [second, second_high] = number(line.second).to_le_bytes();
    let [flags, flags_high] = flags(line).to_le_bytes();
    let [front, front_high] = side_number(line.front).to_le_bytes();
    let [back, back_high] = side_number(line.back).to_le_bytes();
    [
        first,
        first_high,
        second,
        second_high,
        flags,
        flags_high,
        0,
        0,
        0,
        0,
        front,
        front_high,
        back,
        back_high,
    ]
}

fn linedefs_of(alloc: Global, lines: &[Linedef]) -> Result<Vec<u8>, AllocError>
    ensures { IfOk result (λ v. v.items ≡ flat_map linedef_bytes lines.now) }
{
    let mut bytes = Vec::new(alloc);
    let mut rest = lines;
    while let [line, more @ ..] = rest {
        bytes.extend_from_slice(&linedef_record(line))?;
        rest = more;
    }
    Ok(bytes)
}

fn sidedef_record(sector: i32) -> [u8; 30]
    ensures { result ≡ sidedef_bytes sector }
{
    let [low, high] = number(sector).to_le_bytes();
    let mut record = [0; 30];
    record[28] = low;
    record[29] = high;
    record
}

fn sidedefs_of(alloc: Global, sides: &[i32]) -> Result<Vec<u8>, AllocError>
    ensures { IfOk result (λ v. v.items ≡ flat_map sidedef_bytes sides.now) }
{
    let mut bytes = Vec::new(alloc);
    let mut rest = sides;
    while let [sector, more @ ..] = rest {
        bytes.extend_from_slice(&sidedef_record(*sector))?;
        rest = more;
    }
    Ok(bytes)
}

/// The coordinate in the map's unit; 0 for one that isn't on the grid, which no line needs.
fn placed(places: u8, coordinate: Coordinate) -> i32
    ensures { result ≡ placed_lem places coordinate }
{
    units(places, coordinate).unwrap_or(0)
}

fn vertex_record(places: u8, vertex: &Vertex) -> [u8; 8]
    ensures { result ≡ vertex_bytes places vertex.now }
{
    let [x0, x1, x2, x3] = placed(places, vertex.x).to_le_bytes();
    let [y0, y1, y2, y3] = placed(places, vertex.y).to_le_bytes();
    [x0, x1, x2, x3, y0, y1, y2, y3]
}

fn vertexes_of(alloc: Global, places: u8, vertices: &[Vertex]) -> Result<Vec<u8>, AllocError>
    ensures { IfOk result (λ v. v.items ≡ flat_map (vertex_bytes places) vertices.now) }
{
    let mut bytes = Vec::new(alloc);
    let mut rest = vertices;
    while let [vertex, more @ ..] = rest {
        bytes.extend_from_slice(&vertex_record(places, vertex))?;
        rest = more;
    }
    Ok(bytes)
}

fn sectors_of(alloc: Global, sectors: u32) -> Result<Vec<u8>, AllocError>
    ensures { IfOk result (λ v. v.items ≡ replicate (26 * sectors) 0) }
{
    vec![in alloc; 0; SECTOR_LEN * sectors as usize]
}

/// The lumps of these records.
fn lumps_of(alloc: Global, read: &Records) -> Result<FourLumps, AllocError>
    ensures { IfOk result (λ lumps. lump_bytes lumps ≡ lumps_of_lem (read_of read.now)) }
{
    let lines = read.lines.as_slice();
    let vertices = read.vertices.as_slice();
    Ok(FourLumps {
        linedefs: linedefs_of(alloc, lines)?,
        sidedefs: sidedefs_of(alloc, read.sides.as_slice())?,
        vertexes: vertexes_of(alloc, places_of(vertices, lines), vertices)?,
        sectors: sectors_of(alloc, read.sectors)?,
    })
}

/// The four lumps that a text spells.
///
/// # Errors
///
/// The first fault by its byte; else too many vertices or sides, the first line that may show a far place, or the first
/// vertex of a line that isn't on the grid.
#[tactic(auto, unfolding(crate::specs::Lumps::lumps_of_text))]
pub fn lumps_of_text(alloc: Global, text: &[u8]) -> Result<FourLumps, TextFault>
    ensures { AnswersText lump_bytes result (lumps_of_text_lem text.now) }
{
    let read = read_text(alloc, text)?;
    if let Some(fault) = records_fault(&read) {
        return Err(fault);
    }
    Ok(lumps_of(alloc, &read)?)
}

/// The decimal places of the unit in which the points of a text are told: a point's numbers are so many of 10^-k, for k
/// places. None where the text has a fault.
pub fn text_places(alloc: Global, text: &[u8]) -> Result<u8, Memory>
    ensures { IfOk result (λ places. places ≡ places_told text.now) }
{
    match read_text(alloc, text) {
        Ok(read) => Ok(places_of(read.vertices.as_slice(), read.lines.as_slice())),
        Err(TextFault::Memory(ref memory)) => Err(*memory),
        Err(_) => Ok(0),
    }
}
