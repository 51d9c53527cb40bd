//! What is listed of maps of a WAD.

ghost use Rattle.std.specs.Prelude.{◌≡◌, ◌+◌, ◌≤◌, length, All, IfOk, IsTrue, string_bytes};
ghost use Rattle.wad_dir.specs.Map.{entry_names};
ghost use Rattle.wad_dir.specs.Wad.{file_of, names_of_lumps};
ghost use Rattle.wad_dir.specs.AllMaps.All.{HasInOrder};
ghost use Rattle.wad_dir.specs.AllMaps.Maps.{is_map_name, maps_in_names};
ghost use Rattle.table_verdicts.specs.MapList.Entry.{entries_of};
ghost use Rattle.table_verdicts.specs.MapList.Lines.{lines_of_maps};
ghost use Rattle.table_verdicts.specs.MapList.Listing.{ShowsList};

use crate::map_list::entry::{MapEntry, Said};
use crate::map_list::json::row_of;
use crate::map_list::line::line_of;
use crate::map_list::named::entry_of;
use crate::map_list::tally::{ListTally, tally_up};
use row_spelling::Spelling;
use sight_names::Memory;
use std::alloc::Global;
use wad_dir::Wad;
use whole_wad::{Fate, Notice, tell_unread};

/// What is listed of maps of a WAD: a line of text a map, and how many there are of each kind.
#[derive(Drop)]
pub struct MapList {
    pub report: String,
    pub tally: ListTally,
}

/// What is listed of some maps, and the report on them.
#[derive(Drop)]
struct Listed {
    entries: Vec<MapEntry>,
    report: String,
}

/// Nothing is written, so no REJECT is kept that may be wrong by now.
fn tell<N: Notice>(notice: &N, entry: &MapEntry, line: &str) {
    match &entry.said {
        Said::Read(_) => notice.tell(line),
        Said::Refused(refusal) => notice.refuse(line, *refusal, &Fate::KeptClear),
    }
}

/// What is listed of the maps of these names, each told as it is done.
fn list_each<N: Notice>(
    alloc: Global,
    bytes: &[u8],
    wad: &Wad,
    large: bool,
    names: &[[u8; 8]],
    spelling: Spelling,
    notice: &N,
) -> Result<Listed, Memory>
    requires inside { All (λ entry. entry.at + entry.size ≤ length bytes.now) wad.now.entries }
    requires names { names_of_lumps (file_of bytes.now wad.now) ≡ entry_names wad.now.entries }
    requires named { All (λ name. IsTrue (is_map_name name)) names.now }
    ensures entries { IfOk result (λ listed. listed.entries.items ≡ entries_of (file_of bytes.now wad.now) large names.now) }
    ensures report { IfOk result (λ listed. string_bytes listed.report ≡ lines_of_maps spelling (entries_of (file_of bytes.now wad.now) large names.now)) }
{
    let mut entries = Vec::with_capacity(alloc, names.len())?;
    let mut report = String::new(alloc);
    for name in names {
        let entry = entry_of(alloc, bytes, wad, large, name)?;
        let line = line_of(alloc, &entry)?;
        tell(notice, &entry, &line);
        let row = row_of(alloc, spelling, &entry)?;
        report.push_str(&row)?;
        entries.push(entry)?;
    }
    Ok(Listed { entries, report })
}

/// What is listed of the maps of these names. The maps of UDMF that aren't read are told first, and then the line of words of each
/// as it is done.
pub fn list_maps<N: Notice>(
    alloc: Global,
    bytes: &[u8],
    wad: &Wad,
    large: bool,
    names: &[[u8; 8]],
    spelling: Spelling,
    notice: &N,
) -> Result<MapList, Memory>
    requires inside { All (λ entry. entry.at + entry.size ≤ length bytes.now) wad.now.entries }
    requires names { names_of_lumps (file_of bytes.now wad.now) ≡ entry_names wad.now.entries }
    // They are some of the WAD's maps, in the order of their entries.
    requires among { HasInOrder (maps_in_names (entry_names wad.now.entries)) names.now }
    ensures { IfOk result (ShowsList (file_of bytes.now wad.now) large names.now spelling) }
{
    tell_unread(alloc, wad, notice)?;
    let listed = list_each(alloc, bytes, wad, large, names, spelling, notice)?;
    Ok(MapList {
        tally: tally_up(&listed.entries),
        report: listed.report,
    })
}
