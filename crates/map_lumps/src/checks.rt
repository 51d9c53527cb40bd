//! The checks of the four lumps, in their order, up to the number of points.

ghost use Rattle.std.specs.Prelude.{◌≡◌, ◌/◌, ◌<◌, ◌≤◌, false, None, Some, IfSome, IfNone};
ghost use Rattle.sight_names.specs.Lumps.{is_bad_side as is_bad_side_lem, is_bad_sector as is_bad_sector_lem, count_linedefs as count_linedefs_lem, line_fault as line_fault_lem, lines_fault, lump_fault, numbers_below};
ghost use Rattle.sight_names.specs.declared.limits.TheConstants.{LARGE_LINES};
ghost use Rattle.map_lumps.specs.Records.{AllSound};
ghost use Rattle.map_lumps.specs.Answers.{PassesChecks, cut_lump as cut_lump_lem};

use crate::limits::{most_lines, most_sectors};
use crate::records::{
    NO_SIDE, SECTOR_LEN, SIDEDEF_LEN, count_linedefs, linedef_len, number, read_linedef, vertex_len,
};
use sight_names::{Lump, LumpFault, MapFormat, Reading};

/// The first of the checks before that of the number of points that fails.
#[tactic(auto, unfolding(sight_names::specs::Lumps::lump_fault))]
pub fn early_fault(
    reading: Reading,
    linedefs: &[u8],
    sidedefs: &[u8],
    vertexes: &[u8],
    sectors: &[u8],
) -> Option<LumpFault>
    ensures fault { IfSome result (λ fault. lump_fault reading linedefs.now sidedefs.now vertexes.now sectors.now ≡ Some fault) }
    ensures passed { IfNone result (PassesChecks reading linedefs.now sidedefs.now vertexes.now sectors.now) }
{
    let format = reading.format;
    if let Some(lump) = cut_lump(format, linedefs, sidedefs, vertexes, sectors) {
        return Some(LumpFault::BadSize { lump });
    }
    let count = sectors.len() / SECTOR_LEN;
    if count > most_sectors(reading.large) {
        return Some(LumpFault::TooManySectors {
            count: count as u64,
        });
    }
    let count = count_linedefs(format, linedefs);
    if count > most_lines(reading.large) {
        return Some(LumpFault::TooManyLines {
            count: count as u64,
        });
    }
    first_line_fault(format, linedefs, sidedefs, vertexes, sectors)
}

/// The first lump whose size is no multiple of its record.
fn cut_lump(
    format: MapFormat,
    linedefs: &[u8],
    sidedefs: &[u8],
    vertexes: &[u8],
    sectors: &[u8],
) -> Option<Lump>
    ensures { result ≡ cut_lump_lem format linedefs.now sidedefs.now vertexes.now sectors.now }
{
    if linedefs.len() % linedef_len(format) != 0 {
        return Some(Lump::Linedefs);
    }
    if sidedefs.len() % SIDEDEF_LEN != 0 {
        return Some(Lump::Sidedefs);
    }
    if vertexes.len() % vertex_len(format) != 0 {
        return Some(Lump::Vertexes);
    }
    if sectors.len() % SECTOR_LEN != 0 {
        return Some(Lump::Sectors);
    }
    None
}

/// The first check of a line that fails, the lines in order.
fn first_line_fault(
    format: MapFormat,
    linedefs: &[u8],
    sidedefs: &[u8],
    vertexes: &[u8],
    sectors: &[u8],
) -> Option<LumpFault>
    requires { count_linedefs_lem format linedefs.now ≤ LARGE_LINES }
    ensures first { result ≡ lines_fault (line_fault_lem format linedefs.now sidedefs.now vertexes.now sectors.now) (numbers_below (count_linedefs_lem format linedefs.now)) None }
    ensures sound { IfNone result (AllSound format linedefs.now sidedefs.now vertexes.now sectors.now) }
{
    for k in 0..count_linedefs(format, linedefs) {
        let fault = line_fault(format, linedefs, sidedefs, vertexes, sectors, k as u16);
        if fault.is_some() {
            return fault;
        }
    }
    None
}

/// The first check of a line that fails.
fn line_fault(
    format: MapFormat,
    linedefs: &[u8],
    sidedefs: &[u8],
    vertexes: &[u8],
    sectors: &[u8],
    k: u16,
) -> Option<LumpFault>
    requires { k < count_linedefs_lem format linedefs.now }
    ensures { result ≡ line_fault_lem format linedefs.now sidedefs.now vertexes.now sectors.now k }
{
    let record = read_linedef(format, linedefs, k);
    let vertices = vertexes.len() / vertex_len(format);
    if vertices <= record.first as usize || vertices <= record.second as usize {
        return Some(LumpFault::BadVertex { line: k });
    }
    if is_bad_side(sidedefs, record.right) || is_bad_side(sidedefs, record.left) {
        return Some(LumpFault::BadSide { line: k });
    }
    if is_bad_sector(sidedefs, sectors, record.right) {
        return Some(LumpFault::BadSector { side: record.right });
    }
    if is_bad_sector(sidedefs, sectors, record.left) {
        return Some(LumpFault::BadSector { side: record.left });
    }
    None
}

/// Whether the number of a side is out of range.
fn is_bad_side(sidedefs: &[u8], side: u16) -> bool
    ensures { result ≡ is_bad_side_lem sidedefs.now side }
{
    side != NO_SIDE && sidedefs.len() / SIDEDEF_LEN <= side as usize
}

/// Whether the sector of a side is out of range.
fn is_bad_sector(sidedefs: &[u8], sectors: &[u8], side: u16) -> bool
    requires { is_bad_side_lem sidedefs.now side ≡ false }
    ensures { result ≡ is_bad_sector_lem sidedefs.now sectors.now side }
{
    side != NO_SIDE
        && sectors.len() / SECTOR_LEN <= number(sidedefs, SIDEDEF_LEN * side as usize + 28) as usize
}
