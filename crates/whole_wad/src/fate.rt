//! What becomes of the REJECT of a map.

ghost use Rattle.std.specs.Prelude.{◌≡◌, ◌+◌, ◌≤◌, length, All, IfOk, Ok};
ghost use Rattle.sight_names.specs.Map.{map_of};
ghost use Rattle.wad_dir.specs.Map.{entry_names};
ghost use Rattle.wad_dir.specs.Wad.{file_of, names_of_lumps};
ghost use Rattle.whole_wad.specs.Rejects.{fate_built, fate_kept, fate_refused, has_no_bit, reject_at, reject_named};

use map_answers::lump_of;
use refused_maps::Refused;
use reject_bits::Table;
use sight_names::{Memory, Plan};
use std::alloc::Global;
use table_compare::count_changed;
use wad_dir::{Wad, find_map};

/// What becomes of the REJECT of a map.
#[derive(Drop)]
pub enum Fate {
    /// The map's table takes the place of one that is as long. So many bits differ.
    Changed(u64),
    /// The map's table takes the place of so many bytes, which are more or fewer; 0 where there was no REJECT.
    Replaced(u64),
    /// It stays, and some bit of it is set.
    KeptSet,
    /// It stays, and no bit of it is set, or there is none.
    KeptClear,
    /// This table, in which no bit is set, takes its place.
    Cleared(Table),
}

/// The bytes of the REJECT of the map of that name, none where it is missing.
pub fn reject_named<'a>(bytes: &'a [u8], wad: &Wad, name: &str) -> &'a [u8]
    requires inside { All (λ entry. entry.at + entry.size ≤ length bytes.now) wad.now.entries }
    requires names { names_of_lumps (file_of bytes.now wad.now) ≡ entry_names wad.now.entries }
    ensures { result.now ≡ reject_named (file_of bytes.now wad.now) name.now }
{
    let Ok(spot) = find_map(wad, name) else {
        return &[];
    };
    match spot.reject {
        Some(place) => lump_of(bytes, wad, place),
        None => &[],
    }
}

/// Where the map's table takes its place.
pub fn fate_built(old: &[u8], table: &Table) -> Fate
    ensures { result ≡ fate_built old.now table.now.bytes }
{
    let new = table.as_bytes();
    let _sectors = table.sectors();
    if old.len() == new.len() {
        Fate::Changed(count_changed(old, new))
    } else {
        Fate::Replaced(old.len() as u64)
    }
}

fn has_no_bit(bytes: &[u8]) -> bool
    ensures { result ≡ has_no_bit bytes.now }
{
    bytes.iter().all(|c| *c == 0)
}

/// Where it stays.
pub fn fate_kept(old: &[u8]) -> Fate
    ensures { result ≡ fate_kept old.now }
{
    if has_no_bit(old) {
        Fate::KeptClear
    } else {
        Fate::KeptSet
    }
}

/// Where a map that was read gets no table.
pub fn fate_refused(
    alloc: Global,
    refused: Refused,
    plan: &Plan,
    old: &[u8],
) -> Result<Fate, Memory>
    ensures { IfOk result (λ fate. fate ≡ fate_refused refused (Ok (map_of plan.now)) old.now) }
{
    match refused {
        Refused::Clear => Ok(Fate::Cleared(Table::clear(alloc, plan.sectors)?)),
        _ => Ok(fate_kept(old)),
    }
}
