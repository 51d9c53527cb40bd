//! What is listed of the map of a name.

ghost use Rattle.std.specs.Prelude.{◌≡◌, ◌+◌, ◌≤◌, length, All, IfOk, IsTrue};
ghost use Rattle.wad_dir.specs.Map.{entry_names};
ghost use Rattle.wad_dir.specs.Wad.{file_of, names_of_lumps};
ghost use Rattle.wad_dir.specs.AllMaps.Maps.{is_map_name};
ghost use Rattle.table_verdicts.specs.MapList.Entry.{entry_named, format_named, listed_format};

use crate::map_list::entry::{ListedFormat, MapEntry, Said};
use crate::map_list::sizes::sizes_of;
use crate::map_list::unit::places_of;
use map_answers::sight_status::Status;
use map_answers::{lump_of, plan_named};
use sight_names::{MapFormat, Memory};
use std::alloc::Global;
use wad_dir::all_maps::text_of;
use wad_dir::{Wad, find_map};
use whole_wad::reject_named;

/// How the format of a map is listed whose LINEDEFS, or whose text, has these bytes.
fn listed_format(alloc: Global, format: MapFormat, linedefs: &[u8]) -> Result<ListedFormat, Memory>
    ensures { IfOk result (λ f. f ≡ listed_format format linedefs.now) }
{
    match format {
        MapFormat::Doom => Ok(ListedFormat::Doom),
        MapFormat::Hexen => Ok(ListedFormat::Hexen),
        MapFormat::Text => Ok(ListedFormat::Udmf {
            places: places_of(alloc, format, linedefs)?,
        }),
    }
}

/// The format of the map of that name, Doom's where there is none.
fn format_named(alloc: Global, bytes: &[u8], wad: &Wad, name: &str) -> Result<ListedFormat, Memory>
    requires inside { All (λ entry. entry.at + entry.size ≤ length bytes.now) wad.now.entries }
    requires names { names_of_lumps (file_of bytes.now wad.now) ≡ entry_names wad.now.entries }
    ensures { IfOk result (λ f. f ≡ format_named (file_of bytes.now wad.now) name.now) }
{
    match find_map(wad, name) {
        Ok(spot) => listed_format(alloc, spot.format, lump_of(bytes, wad, spot.linedefs)),
        Err(_) => Ok(ListedFormat::Doom),
    }
}

/// What is listed of the map of that name.
pub fn entry_of(
    alloc: Global,
    bytes: &[u8],
    wad: &Wad,
    large: bool,
    name: &[u8; 8],
) -> Result<MapEntry, Memory>
    requires inside { All (λ entry. entry.at + entry.size ≤ length bytes.now) wad.now.entries }
    requires names { names_of_lumps (file_of bytes.now wad.now) ≡ entry_names wad.now.entries }
    requires named { IsTrue (is_map_name name.now) }
    ensures is { IfOk result (λ e. e ≡ entry_named (file_of bytes.now wad.now) large name.now) }
    ensures named { IfOk result (λ e. IsTrue (is_map_name e.name)) }
{
    let name = *name;
    let text = text_of(&name);
    match plan_named(alloc, bytes, wad, large, text) {
        Ok(plan) => {
            let reject = reject_named(bytes, wad, text);
            let format = format_named(alloc, bytes, wad, text)?;
            let sizes = sizes_of(alloc, &plan, format, reject)?;
            Ok(MapEntry {
                name,
                said: Said::Read(sizes),
            })
        }
        Err(Status::Memory(ref memory)) => Err(*memory),
        Err(refusal) => Ok(MapEntry {
            name,
            said: Said::Refused(refusal),
        }),
    }
}
