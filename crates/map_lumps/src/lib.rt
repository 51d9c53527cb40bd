//! Reads the map of the four lumps LINEDEFS, SIDEDEFS, VERTEXES and SECTORS, as the Unofficial Doom Specs describe
//! them, into a plan.
#![tactic(auto)]

ghost use Rattle.std.specs.Prelude.{◌≡◌, IfOk};
ghost use Rattle.sight_names.specs.Lumps.{lump_fault, map_of_lumps};
ghost use Rattle.sight_names.specs.Map.{map_of};
ghost use Rattle.sight_names.specs.Plan.{IsPlan};
ghost use Rattle.map_lumps.specs.Answers.{AnswersFirstFault};

mod checks;
pub mod hexen_lumps;
mod limits;
mod points;
mod records;

use checks::early_fault;
use limits::most_points;
use points::{plan_lines, points_of};
use records::{SECTOR_LEN, placed_lines};
use sight_names::{LumpFault, Plan, Reading};
use std::alloc::Global;

/// The plan of the map that the four lumps spell in this format, by these limits. Sides that no line names, vertices that
/// no line uses, and bytes that the map has no use for are not looked at; nor, in Hexen's format, is what a line does in the
/// game, so that the lines of polyobjects count where they are drawn.
///
/// # Errors
///
/// The first check that fails: whole records, the numbers of sectors and of lines, then each line's vertices, sides
/// and sectors, then the number of points.
pub fn read_lumps(
    alloc: Global,
    reading: Reading,
    linedefs: &[u8],
    sidedefs: &[u8],
    vertexes: &[u8],
    sectors: &[u8],
) -> Result<Plan, LumpFault>
    ensures map { IfOk result (λ plan. map_of plan ≡ map_of_lumps reading.format linedefs.now sidedefs.now vertexes.now sectors.now) }
    ensures plan { IfOk result IsPlan }
    ensures fault { AnswersFirstFault result (lump_fault reading linedefs.now sidedefs.now vertexes.now sectors.now) }
{
    if let Some(fault) = early_fault(reading, linedefs, sidedefs, vertexes, sectors) {
        return Err(fault);
    }
    let format = reading.format;
    let placed = placed_lines(alloc, format, linedefs, sidedefs, vertexes, sectors)?;
    let points = points_of(alloc, placed.as_slice())?;
    let count = points.len();
    if count > most_points(reading.large) {
        return Err(LumpFault::TooManyPoints {
            count: count as u64,
        });
    }
    let lines = plan_lines(alloc, points.as_slice(), placed.as_slice())?;
    let sectors = (sectors.len() / SECTOR_LEN) as u16;
    Ok(Plan {
        sectors,
        points,
        lines,
    })
}
