//! What the records of a text mustn't be: too many, portals, or off the grid.

ghost use Rattle.std.specs.Prelude.{◌≡◌};
ghost use Rattle.udmf_map.specs.Reading.{read_of};
ghost use Rattle.udmf_map.specs.Checks.{has_portals as has_portals_lem, is_portal as is_portal_lem, first_from, first_portal_line as portal_of_lem, records_fault as records_fault_lem};

use crate::blocks::Linedef;
use crate::faults::TextFault;
use crate::grid::{first_off_grid, places_of};
use crate::reading::{Namespace, Records};

/// The most blocks of vertices, and of sides: LINEDEFS has 16 bits for their numbers, of which one side is none.
const MOST_VERTICES: usize = 65_535;

const MOST_SIDES: usize = 65_534;

/// What a line does that shows a far place at a sector or at the line: Sector_SetPortal and Line_SetPortal.
const SECTOR_PORTAL: i32 = 57;

const LINE_PORTAL: i32 = 156;

/// Whether lines of the namespace may show far places.
fn has_portals(namespace: Option<Namespace>) -> bool
    ensures { result ≡ has_portals_lem namespace }
{
    match namespace {
        Some(Namespace::Hexen | Namespace::Zdoom | Namespace::Dsda) => true,
        Some(Namespace::Doom | Namespace::Heretic | Namespace::Strife) | None => false,
    }
}

fn is_portal(line: &Linedef) -> bool
    ensures { result ≡ is_portal_lem line.now }
{
    line.special == SECTOR_PORTAL || line.special == LINE_PORTAL
}

/// The first line that may show a far place.
fn first_portal(lines: &[Linedef]) -> Option<usize>
    ensures { result ≡ first_from is_portal_lem 0 lines.now }
{
    let mut k = 0;
    while k < lines.len() {
        if is_portal(&lines[k]) {
            return Some(k);
        }
        k += 1;
    }
    None
}

/// The same, in a namespace.
fn portal_of(namespace: Option<Namespace>, lines: &[Linedef]) -> Option<usize>
    ensures { result ≡ portal_of_lem namespace lines.now }
{
    if !has_portals(namespace) {
        return None;
    }
    first_portal(lines)
}

/// The first check of the records that fails.
pub fn records_fault(read: &Records) -> Option<TextFault>
    ensures { result ≡ records_fault_lem (read_of read.now) }
{
    let count = read.vertices.len();
    if count > MOST_VERTICES {
        return Some(TextFault::TooManyVertices { count });
    }
    let count = read.sides.len();
    if count > MOST_SIDES {
        return Some(TextFault::TooManySides { count });
    }
    if let Some(line) = portal_of(read.namespace, read.lines.as_slice()) {
        return Some(TextFault::Portal { line });
    }
    let vertices = read.vertices.as_slice();
    let lines = read.lines.as_slice();
    if let Some(vertex) = first_off_grid(places_of(vertices, lines), vertices, lines) {
        return Some(TextFault::OffGrid { vertex });
    }
    None
}
