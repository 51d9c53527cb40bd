//! The unit in which the points of a map are told.

ghost use Rattle.std.specs.Prelude.{◌≡◌, ◌++◌, IfOk, OnOk, replicate, string_bytes};
ghost use Rattle.table_verdicts.specs.MapList.Entry.{places_of_unit};
ghost use Rattle.table_verdicts.specs.MapList.Lines.{unit_of};

use map_answers::sight_status::push_text;
use sight_names::{MapFormat, Memory};
use std::alloc::{AllocError, Global};
use udmf_map::text_places;

/// The decimal places of the unit in which the points of a map are told whose LINEDEFS, or whose text, has these bytes.
pub fn places_of(alloc: Global, format: MapFormat, linedefs: &[u8]) -> Result<u8, Memory>
    ensures { IfOk result (λ places. places ≡ places_of_unit format linedefs.now) }
{
    match format {
        MapFormat::Doom | MapFormat::Hexen => Ok(0),
        MapFormat::Text => text_places(alloc, linedefs),
    }
}

/// Adds so many zeros.
fn push_zeros(line: &mut String, count: u8) -> Result<(), AllocError>
    ensures { OnOk result (string_bytes line.new ≡ string_bytes line.old ++ replicate count 48) }
{
    let mut left = count;
    while left > 0 {
        push_text(line, "0")?;
        left -= 1;
    }
    Ok(())
}

/// Adds the last of so many decimal places as a number.
pub fn push_unit(line: &mut String, places: u8) -> Result<(), AllocError>
    ensures { OnOk result (string_bytes line.new ≡ string_bytes line.old ++ unit_of places) }
{
    push_text(line, "0.")?;
    push_zeros(line, places.saturating_sub(1))?;
    push_text(line, "1")
}
